// A fault: a cause, the layer that made it, and the layers that it passed.
ghost use Rattle.std.specs.Prelude.{◌≡◌, Some};
ghost use Rattle.faults.specs.Causes.{number_of, place_of};
ghost use Rattle.faults.specs.Faults.{made_by, handed_on};
ghost use Rattle.faults.specs.Lines.{refusal_line, layer_name};

use crate::cause::Cause;
use std::fmt;

// The parts of the monitor that can refuse.
#[derive(Clone, Copy, Debug, PartialEq, Eq)]
pub enum Layer {
    Table,
    Panel,
    Trace,
    Hold,
    Monitor,
    Ledger,
    Bell,
    Quota,
}

// Writes the layer's name.
impl fmt::Display for Layer {
    ghost output = { λ layer. Some (layer_name layer) };

    fn fmt<W: fmt::Write>(&self, f: &mut fmt::Formatter<W>) -> fmt::Result {
        f.write_str(match self {
            Layer::Table => "table",
            Layer::Panel => "panel",
            Layer::Trace => "trace",
            Layer::Hold => "hold",
            Layer::Monitor => "monitor",
            Layer::Ledger => "ledger",
            Layer::Bell => "bell",
            Layer::Quota => "quota",
        })
    }
}

// Why a call stopped, as its caller sees it.
#[derive(Clone, Copy, Debug, PartialEq, Eq)]
pub struct Fault {
    // Why, with the place.
    pub cause: Cause,
    // The layer that made it.
    pub layer: Layer,
    // How many layers handed it on, counted up to 255.
    pub passed: u8,
}

impl Fault {
    // A fault that no layer has handed on yet.
    pub fn new(layer: Layer, cause: Cause) -> Fault
        ensures { result ≡ made_by layer cause }
    {
        Fault {
            cause,
            layer,
            passed: 0,
        }
    }

    // The same fault, handed on by one layer more.
    pub fn hand_on(self) -> Fault
        ensures { result ≡ handed_on self }
    {
        Fault {
            cause: self.cause,
            layer: self.layer,
            passed: self.passed.saturating_add(1),
        }
    }

    // The refusal's number.
    pub fn number(self) -> u8
        ensures { result ≡ number_of self.cause }
    {
        self.cause.number()
    }

    // The refusal's place.
    pub fn place(self) -> usize
        ensures { result ≡ place_of self.cause }
    {
        self.cause.place()
    }
}

// Writes the line that tells the refusal, whichever layer made the fault.
impl fmt::Display for Fault {
    ghost output = { λ fault. Some (refusal_line fault.cause) };

    fn fmt<W: fmt::Write>(&self, f: &mut fmt::Formatter<W>) -> fmt::Result {
        let cause = self.cause;
        write!(f, "{cause}")
    }
}
