// A reference as an edge between numbered nodes.
ghost use Rattle.std.specs.Prelude.{Some};
ghost use Rattle.walks.specs.Lines.{entry_line};

use std::fmt;

// A reference as it is told: the numbers among all records of the one that reads and the one that is read, and the drop.
#[derive(Clone, Copy, Debug, PartialEq, Eq)]
pub struct SheetEntry {
    pub reader: usize,
    pub read: usize,
    pub drop: u8,
}

// Writes the line that tells the reference.
impl fmt::Display for SheetEntry {
    ghost output = { λ entry. Some (entry_line entry) };

    fn fmt<W: fmt::Write>(&self, f: &mut fmt::Formatter<W>) -> fmt::Result {
        let SheetEntry { reader, read, drop } = *self;
        write!(f, "ref {reader} {read} {drop}")
    }
}

// A reference between nodes, which are the channels by number, then the streams, then the rules.
#[derive(Clone, Copy, Debug, PartialEq, Eq)]
pub struct Edge {
    // How it is told; its drop counts.
    pub entry: SheetEntry,
    // The node that reads.
    pub reader: usize,
    // The node that is read.
    pub read: usize,
    // How many opening values the reader has.
    pub opening: u8,
}
