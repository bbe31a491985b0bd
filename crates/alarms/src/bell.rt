// The bell: holds nothing, and takes as many alarms as can be counted.
ghost use Rattle.std.specs.Prelude.{◌≡◌, None, refl};
ghost use Rattle.std.proofs.Common.{arith};
ghost use Rattle.alarms.specs.Bells.{bell_view, bell_full};

use crate::alarm::Alarm;
use crate::sink::Sink;
use crate::tally::Tally;
use faults::cause::Cause;
use faults::fault::{Fault, Layer};

/// A sink that only counts.
#[derive(Clone, Copy, Debug)]
pub struct Bell {
    tally: Tally,
}

impl Bell {
    /// A bell that took no alarm yet.
    pub fn new() -> Bell
        ensures number { (bell_view result).number ≡ 0 }
        ensures latest { (bell_view result).latest ≡ None }
    {
        Bell {
            tally: Tally::new(),
        }
    }
}

impl Sink for Bell {
    ghost Holding = { Unit {0} };

    ghost view = { bell_view };

    ghost adds = { λ h a. h };

    ghost full = { λ b a. bell_full };

    ghost moves = { λ a b c. Unit {0} };

    ghost rests = { λ a b c. c ≡ b };

    ghost bounded = { λ b. omega arith };

    ghost refuses = { λ b a. refl };

    fn take(&mut self, alarm: Alarm) -> Result<(), Fault> {
        if self.tally.left() == 0 {
            return Err(Fault::new(Layer::Bell, Cause::SinkFull));
        }
        self.tally.count(alarm);
        Ok(())
    }

    fn number(&self) -> u32 {
        self.tally.number
    }

    fn latest(&self) -> Option<Alarm> {
        self.tally.latest
    }

    fn places(&self) -> u32 {
        self.tally.left()
    }
}
