// The panel: a host sets the next row channel by channel.
ghost use Rattle.std.specs.Prelude.{◌≡◌, Some, None, refl};
ghost use Rattle.sampling.specs.Panels.{set, present_row, next_row, panel_meaning};
ghost use Rattle.sampling.specs.Rows.{readings, nothing, placed};
ghost use Rattle.sampling.specs.Short.{past};

use crate::row::{CHANNELS, Row};
use crate::sampler::Sampler;
use faults::cause::Cause;
use faults::fault::{Fault, Layer};
use values::value::Value;

// A sampler whose next row a host sets; that row outlasts every latch.
#[derive(Clone, Copy, Debug)]
pub struct Panel {
    present: Row,
    next: Row,
}

impl Panel {
    // A panel on which nothing is set.
    pub fn new() -> Panel
        ensures present { readings (present_row result) ≡ nothing }
        ensures next { readings (next_row result) ≡ nothing }
    {
        Panel {
            present: Row::empty(),
            next: Row::empty(),
        }
    }

    // Sets what a channel of the next row reads.
    fn set(&mut self, channel: u8, reading: Option<Value>) -> Result<(), Fault>
        ensures answer { result ≡ set channel }
        ensures next { readings (next_row self.new) ≡ placed (readings (next_row self.old)) channel reading }
        ensures present { present_row self.new ≡ present_row self.old }
    {
        if channel >= CHANNELS {
            let cause = Cause::Limit(usize::from(channel));
            return Err(Fault::new(Layer::Panel, cause));
        }
        self.next.put(channel, reading);
        Ok(())
    }

    // Puts a value at a channel of the next row.
    pub fn put(&mut self, channel: u8, value: Value) -> Result<(), Fault>
        ensures answer { result ≡ set channel }
        ensures next { readings (next_row self.new) ≡ placed (readings (next_row self.old)) channel (Some value) }
        ensures present { present_row self.new ≡ present_row self.old }
    {
        self.set(channel, Some(value))
    }

    // Clears a channel of the next row.
    pub fn clear(&mut self, channel: u8) -> Result<(), Fault>
        ensures answer { result ≡ set channel }
        ensures next { readings (next_row self.new) ≡ placed (readings (next_row self.old)) channel None }
        ensures present { present_row self.new ≡ present_row self.old }
    {
        self.set(channel, None)
    }
}

impl Sampler for Panel {
    ghost meaning = { panel_meaning };

    ghost moves = { λ p q. next_row q ≡ next_row p };

    // never met: a panel's latch is not refused
    ghost rests = { λ p q. q ≡ p };

    ghost short = { λ p k h. past (present_row p) k h };

    ghost refuses = { λ p. refl };

    ghost darkens = { λ p k. refl };

    fn latch(&mut self) -> Result<(), Fault> {
        self.present = self.next;
        Ok(())
    }

    fn read(&self, channel: u8) -> Result<Value, Fault> {
        let dark = Fault::new(Layer::Panel, Cause::Dark(channel));
        self.present.at(channel).ok_or(dark)
    }
}
