// The poller: rows that a host lends, one at each latch, and a count of the polls that failed.
ghost use Rattle.std.specs.Prelude.{◌≡◌, refl};
ghost use Rattle.devices.specs.Pollers.{rows_of, given_rows, failed_polls, present_row, poller_meaning, Polled, Failed};
ghost use Rattle.sampling.specs.Rows.{readings, nothing};
ghost use Rattle.sampling.specs.Short.{past};

use faults::cause::Cause;
use faults::fault::{Fault, Layer};
use sampling::row::Row;
use sampling::sampler::Sampler;
use values::value::Value;

/// A sampler that gives rows of its host's memory, one at each latch, and counts the latches that were refused.
#[derive(Drop)]
pub struct Poller<'a> {
    rows: &'a [Row],
    // How many of the rows were given.
    given: usize,
    present: Row,
    failed: u32,
}

impl<'a> Poller<'a> {
    /// A poller that has given none of these rows yet. Its present row has nothing.
    pub fn new(rows: &'a [Row]) -> Poller<'a>
        ensures rows { rows_of result ≡ rows.now }
        ensures given { given_rows result ≡ 0 }
        ensures failed { failed_polls result ≡ 0 }
        ensures present { readings (present_row result) ≡ nothing }
    {
        Poller {
            rows,
            given: 0,
            present: Row::empty(),
            failed: 0,
        }
    }

    /// How many rows were given.
    pub fn given(&self) -> usize
        ensures { result ≡ given_rows self.now }
    {
        self.given
    }

    /// How many latches were refused, counted up to 4,294,967,295.
    pub fn failed(&self) -> u32
        ensures { result ≡ failed_polls self.now }
    {
        self.failed
    }
}

impl<'a> Sampler for Poller<'a> {
    ghost meaning = { poller_meaning };

    ghost moves = { Polled };

    ghost rests = { Failed };

    ghost short = { λ p k h. past (present_row p) k h };

    ghost refuses = { λ p. refl };

    ghost darkens = { λ p k. refl };

    fn latch(&mut self) -> Result<(), Fault> {
        let Some(row) = self.rows.get(self.given) else {
            self.failed = self.failed.saturating_add(1);
            return Err(Fault::new(Layer::Trace, Cause::NoRow(self.given)));
        };
        self.present = *row;
        self.given += 1;
        Ok(())
    }

    fn read(&self, channel: u8) -> Result<Value, Fault> {
        let dark = Fault::new(Layer::Trace, Cause::Dark(channel));
        self.present.at(channel).ok_or(dark)
    }
}
