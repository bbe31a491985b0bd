// Opening a trace, and giving its rows.
ghost use Rattle.std.specs.Prelude.{◌≡◌, ℕ, [], ◌∷◌, IfOk, refl};
ghost use Rattle.sampling.specs.Short.{past};
ghost use Rattle.traces.specs.Reading.{read_trace};
ghost use Rattle.traces.specs.Rows.{Counts};
ghost use Rattle.traces.specs.Refusing.{RefusesAlike};
ghost use Rattle.traces.specs.Written.{AcceptsWritten};
ghost use Rattle.traces.specs.Opening.{Fresh, Opens, Comes, Gives, trace_meaning};

use crate::reading::{count_rows, read_row};
use crate::trace::Trace;
use faults::cause::Cause;
use faults::fault::{Fault, Layer};
use faults::stop::Stop;
use sampling::row::Row;
use sampling::sampler::Sampler;
use std::alloc::{AllocError, Global};
use syntax::reader::Reader;
use values::value::Value;

// The version of the format, the first byte of a trace.
const VERSION: u8 = 1;

// How many bytes a trace has at most.
const MOST_BYTES: usize = 65536;

// How many rows the bytes of a trace write; or why they write none.
fn check_rows(bytes: &[u8]) -> Result<usize, Cause>
    ensures rows { Counts result (read_trace bytes.now) }
    ensures law { AcceptsWritten bytes.now }
    ensures refusals { RefusesAlike bytes.now }
{
    if bytes.is_empty() || bytes[0] != VERSION {
        return Err(Cause::Version);
    }
    if bytes.len() > MOST_BYTES {
        return Err(Cause::Limit(MOST_BYTES));
    }
    count_rows(&mut Reader { bytes, at: 1 })
}

impl Trace {
    // The first trace, of the byte 01 alone: it has no rows.
    pub fn new(alloc: Global) -> Result<Trace, AllocError>
        ensures { IfOk result (λ trace. Fresh trace (1 ∷ []) []) }
    {
        let bytes = vec![in alloc; VERSION]?;
        Ok(Trace {
            bytes,
            at: 1,
            given: 0,
            present: Row::empty(),
        })
    }

    // Opens the bytes of a trace in this one's place, and answers how many rows they write; or says why not.
    pub fn open(&mut self, alloc: Global, bytes: &[u8]) -> Result<usize, Stop<Fault>>
        ensures answer { Opens self.old self.new bytes.now result }
        ensures law { AcceptsWritten bytes.now }
        ensures refusals { RefusesAlike bytes.now }
    {
        let rows = match check_rows(bytes) {
            Ok(rows) => rows,
            Err(cause) => return Err(Stop::Refused(Fault::new(Layer::Trace, cause))),
        };
        let bytes = bytes.to_vec(alloc)?;
        *self = Trace {
            bytes,
            at: 1,
            given: 0,
            present: Row::empty(),
        };
        Ok(rows)
    }

    // The row that comes next and the place after it; none at the end, since what is left was looked at when it was opened.
    fn next_row(&self) -> Option<(Row, usize)>
        ensures { Comes self.now result }
    {
        let mut reader = Reader {
            bytes: &self.bytes,
            at: self.at,
        };
        let Ok(row) = read_row(&mut reader) else {
            return None;
        };
        Some((row, reader.at))
    }
}

impl Sampler for Trace {
    ghost meaning = { trace_meaning };

    ghost moves = { Gives };

    ghost rests = { λ t u. u ≡ t };

    ghost short = { λ t k h. past t.present k h };

    ghost refuses = { λ t. refl };

    ghost darkens = { λ t k. refl };

    fn latch(&mut self) -> Result<(), Fault> {
        let Some((row, at)) = self.next_row() else {
            return Err(Fault::new(Layer::Trace, Cause::NoRow(self.given)));
        };
        self.at = at;
        self.given += 1;
        self.present = row;
        Ok(())
    }

    fn read(&self, channel: u8) -> Result<Value, Fault> {
        let dark = Fault::new(Layer::Trace, Cause::Dark(channel));
        self.present.at(channel).ok_or(dark)
    }
}
