// An alarm that a rule called.
ghost use Rattle.std.specs.Prelude.{◌≡◌, ◌≤◌, [], length, slice_get};
ghost use Rattle.alarms.specs.Arguments.{arguments, Pushes, IsDetermined};

use values::value::Value;

/// The values of an alarm's arguments, in order: at most four.
#[derive(Clone, Copy, Debug, PartialEq, Eq)]
pub enum Arguments {
    None,
    One(Value),
    Two(Value, Value),
    Three(Value, Value, Value),
    Four(Value, Value, Value, Value),
}

/// At which tick a rule was judged true, which rule, and with which arguments.
#[derive(Clone, Copy, Debug, PartialEq, Eq)]
pub struct Alarm {
    pub tick: u64,
    pub rule: u8,
    pub arguments: Arguments,
}

impl Arguments {
    /// No arguments.
    pub fn new() -> Arguments
        ensures { arguments result ≡ [] }
    {
        Self::None
    }

    /// Adds a value behind the others. Errs with that value, and adds nothing, where there are four.
    pub fn push(&mut self, value: Value) -> Result<(), Value>
        ensures { Pushes value self.old self.new result }
    {
        *self = match *self {
            Arguments::None => Arguments::One(value),
            Arguments::One(a) => Arguments::Two(a, value),
            Arguments::Two(a, b) => Arguments::Three(a, b, value),
            Arguments::Three(a, b, c) => Arguments::Four(a, b, c, value),
            Arguments::Four(_, _, _, _) => return Err(value),
        };
        Ok(())
    }

    /// How many there are.
    pub fn len(&self) -> usize
        ensures count { result ≡ length (arguments self.now) }
        ensures few { result ≤ 4 }
    {
        match self {
            Arguments::None => 0,
            Arguments::One(_) => 1,
            Arguments::Two(_, _) => 2,
            Arguments::Three(_, _, _) => 3,
            Arguments::Four(_, _, _, _) => 4,
        }
    }

    /// The value at a place, from 0, if there is one. The values determine the arguments.
    pub fn get(&self, place: usize) -> Option<Value>
        ensures value { result ≡ slice_get (arguments self.now) place }
        ensures determined { IsDetermined self.now }
    {
        match (place, *self) {
            (0, Arguments::One(a)) => Some(a),
            (0, Arguments::Two(a, _)) => Some(a),
            (0, Arguments::Three(a, _, _)) => Some(a),
            (0, Arguments::Four(a, _, _, _)) => Some(a),
            (1, Arguments::Two(_, b)) => Some(b),
            (1, Arguments::Three(_, b, _)) => Some(b),
            (1, Arguments::Four(_, b, _, _)) => Some(b),
            (2, Arguments::Three(_, _, c)) => Some(c),
            (2, Arguments::Four(_, _, c, _)) => Some(c),
            (3, Arguments::Four(_, _, _, d)) => Some(d),
            _ => None,
        }
    }
}
