// The causes of refusals, each with its number and its place.
ghost use Rattle.std.specs.Prelude.{◌≡◌, Some};
ghost use Rattle.faults.specs.Causes.{number_of, place_of};
ghost use Rattle.faults.specs.Lines.{refusal_line};

use std::fmt;

// Why a call stops; what a case holds is its place.
#[derive(Clone, Copy, Debug, PartialEq, Eq)]
pub enum Cause {
    // The first byte is not the version 01.
    Version,
    // The bytes end inside the record or row that starts here.
    Ended(usize),
    // An unknown code, a Bool other than 00 and 01, an empty record, or a byte over or missing.
    Malformed(usize),
    // A limit is passed here.
    Limit(usize),
    // The number at this byte names no channel or stream.
    Undeclared(usize),
    // The operator, body or guard that starts here has a wrong type.
    Mistyped(usize),
    // The operator at this byte divides by zero or by no constant.
    Divisor(usize),
    // A closed walk of so many references weighs 0 or more.
    ClosedWalk(usize),
    // A walk of so many references to a channel weighs more than 0.
    ChannelWalk(usize),
    // The sheet has only so many entries.
    ShortSheet(usize),
    // So many slots are needed.
    Slots(usize),
    // The table's counts are not those of the one that was opened.
    OtherTable,
    // No more ticks can be counted.
    TicksSpent,
    // There is no next row after so many.
    NoRow(usize),
    // There is nothing at this channel.
    Dark(u8),
    // The value at this channel has another type than declared.
    OtherType(u8),
    // The sink has no place left.
    SinkFull,
    // So many alarms are still due.
    AlarmsDue(usize),
    // No alarm is due.
    NoneDue,
    // There is no stream of this number.
    NoStream(u8),
    // The stream of this number has no value yet.
    NoValueYet(u8),
}

impl Cause {
    // The refusal's number, from 1 to 21.
    pub fn number(self) -> u8
        ensures { result ≡ number_of self }
    {
        match self {
            Cause::Version => 1,
            Cause::Ended(_) => 2,
            Cause::Malformed(_) => 3,
            Cause::Limit(_) => 4,
            Cause::Undeclared(_) => 5,
            Cause::Mistyped(_) => 6,
            Cause::Divisor(_) => 7,
            Cause::ClosedWalk(_) => 8,
            Cause::ChannelWalk(_) => 9,
            Cause::ShortSheet(_) => 10,
            Cause::Slots(_) => 11,
            Cause::OtherTable => 12,
            Cause::TicksSpent => 13,
            Cause::NoRow(_) => 14,
            Cause::Dark(_) => 15,
            Cause::OtherType(_) => 16,
            Cause::SinkFull => 17,
            Cause::AlarmsDue(_) => 18,
            Cause::NoneDue => 19,
            Cause::NoStream(_) => 20,
            Cause::NoValueYet(_) => 21,
        }
    }

    // Where the call stopped: a byte's place, a channel or stream, or a count.
    pub fn place(self) -> usize
        ensures { result ≡ place_of self }
    {
        match self {
            Cause::Version
            | Cause::OtherTable
            | Cause::TicksSpent
            | Cause::SinkFull
            | Cause::NoneDue => 0,
            Cause::Ended(byte)
            | Cause::Malformed(byte)
            | Cause::Limit(byte)
            | Cause::Undeclared(byte)
            | Cause::Mistyped(byte)
            | Cause::Divisor(byte) => byte,
            Cause::ClosedWalk(count)
            | Cause::ChannelWalk(count)
            | Cause::ShortSheet(count)
            | Cause::Slots(count)
            | Cause::NoRow(count)
            | Cause::AlarmsDue(count) => count,
            Cause::Dark(number)
            | Cause::OtherType(number)
            | Cause::NoStream(number)
            | Cause::NoValueYet(number) => usize::from(number),
        }
    }
}

// Writes the line that tells the refusal: its number and its place.
impl fmt::Display for Cause {
    ghost output = { λ cause. Some (refusal_line cause) };

    fn fmt<W: fmt::Write>(&self, f: &mut fmt::Formatter<W>) -> fmt::Result {
        let number = self.number();
        let place = self.place();
        write!(f, "refused {number} at {place}")
    }
}
