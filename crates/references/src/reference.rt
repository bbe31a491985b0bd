// A reference: who reads what.
use syntax::record::Kind;

// A record by its kind and its number among the records of that kind.
#[derive(Clone, Copy, Debug, PartialEq, Eq)]
pub struct Id {
    pub kind: Kind,
    pub number: usize,
}

// A record that is read, by whom, and how far ahead.
#[derive(Clone, Copy, Debug, PartialEq, Eq)]
pub struct Reference {
    pub reader: Id,
    pub read: Id,
    pub drop: u8,
}
