// The records of a table.
ghost use Rattle.std.specs.Prelude.{◌≡◌, ◌==◌, Some, map};
ghost use Rattle.values.specs.Codes.{known};
ghost use Rattle.syntax.specs.Entries.{entry_of, kind_of, kind_coded, kind_code, limit, count};
ghost use Rattle.syntax.specs.Counting.{counts_of, counts_text};

use crate::tree::Expr;
use std::fmt;
use values::types::{Type, UnknownCode};
use values::value::Value;

// What a record declares.
#[derive(Clone, Copy, Debug, PartialEq, Eq)]
pub enum Kind {
    Channel = 1,
    Stream = 2,
    Rule = 3,
}

// A stream: its opening values, and the body that gives the later ones.
#[derive(Drop)]
pub struct Stream {
    pub ty: Type,
    pub opening: Vec<Value>,
    pub body: Expr,
}

// A rule: the guard that calls an alarm, and the arguments that the alarm carries.
#[derive(Drop)]
pub struct Rule {
    pub guard: Expr,
    pub arguments: Vec<Expr>,
}

// A record of a table; a channel has only its type.
#[derive(Drop)]
pub enum Record {
    Channel(Type),
    Stream(Stream),
    Rule(Rule),
}

impl TryFrom<u8> for Kind {
    type Error = UnknownCode;

    ghost try_from_gives = { λ code r. r ≡ known code (kind_coded code) };

    fn try_from(code: u8) -> Result<Kind, UnknownCode> {
        match code {
            1 => Ok(Kind::Channel),
            2 => Ok(Kind::Stream),
            3 => Ok(Kind::Rule),
            _ => Err(UnknownCode { code }),
        }
    }
}

impl Kind {
    // How many records of this kind a table has at most.
    pub(crate) fn limit(self) -> usize
        ensures { result ≡ limit self }
    {
        match self {
            Kind::Channel => 16,
            Kind::Stream => 32,
            Kind::Rule => 16,
        }
    }
}

impl Record {
    // What this record declares.
    pub fn kind(&self) -> Kind
        ensures { result ≡ kind_of (entry_of self.now) }
    {
        match self {
            Record::Channel(_) => Kind::Channel,
            Record::Stream(_) => Kind::Stream,
            Record::Rule(_) => Kind::Rule,
        }
    }

    // Whether this record is of a kind.
    pub fn is(&self, kind: Kind) -> bool
        ensures { result ≡ (kind_code (kind_of (entry_of self.now)) == kind_code kind) }
    {
        self.kind() == kind
    }
}

// How many of the records are of a kind.
pub fn count(records: &[Record], kind: Kind) -> usize
    ensures { result ≡ count kind (map entry_of records.now) }
{
    records.iter().filter(|r| r.is(kind)).count()
}

// How many records of each kind a table has.
#[derive(Clone, Copy, Debug, Default, PartialEq, Eq)]
pub struct Counts {
    pub channels: usize,
    pub streams: usize,
    pub rules: usize,
}

impl Counts {
    // The counts of a table's records.
    pub fn of(records: &[Record]) -> Counts
        ensures { result ≡ counts_of (map entry_of records.now) }
    {
        Counts {
            channels: count(records, Kind::Channel),
            streams: count(records, Kind::Stream),
            rules: count(records, Kind::Rule),
        }
    }
}

// Writes how many records of each kind there are.
impl fmt::Display for Counts {
    ghost output = { λ counts. Some (counts_text counts) };

    fn fmt<W: fmt::Write>(&self, f: &mut fmt::Formatter<W>) -> fmt::Result {
        let Counts {
            channels,
            streams,
            rules,
        } = *self;
        write!(f, "channels {channels} streams {streams} rules {rules}")
    }
}
