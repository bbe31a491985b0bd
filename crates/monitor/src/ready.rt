// A monitor between two ticks: it opens, samples and shows.
ghost use Rattle.std.specs.Prelude.{◌≡◌, ◌<◌, Some, length, IfOk, IfErr, OnOk, OnErr};
ghost use Rattle.rings.specs.Calls.{OpensRings, StoresSamples};
ghost use Rattle.sampling.specs.Meanings.{row_after};
ghost use Rattle.sampling.specs.Rows.{Readings};
ghost use Rattle.tables.specs.Tables.{plan_of, streams_of};
ghost use Rattle.engine.specs.Rings.{rings_of};
ghost use Rattle.monitor.specs.States.{opened_on};
ghost use Rattle.monitor.specs.Refusals.{fault_of, fault_of_stopped, fault_of_upper, ◌orelse◌};
ghost use Rattle.monitor.specs.Refusals.{no_room, unfit, out_of_ticks, unsampled};
ghost use Rattle.monitor.specs.Refusals.{no_stream, no_value};
ghost use Rattle.monitor.specs.Samples.{row_value, Polls};
ghost use Rattle.monitor.specs.Showing.{IsNewest};
ghost use Rattle.monitor.specs.Histories.{History, new_day, Shows};
ghost use Rattle.monitor.specs.Standing.{StandsAfter, PendsAfter, GoesOn};

use crate::progress::Progress;
use crate::states::{MonitorFault, Ready, Sampled, Shown, Stopped};
use arrayvec::ArrayVec;
use engine::reading::newest;
use engine::tick::{open, store_samples};
use faults::cause::Cause;
use faults::fault::{Fault, Layer};
use sampling::sampler::Sampler;
use tables::table::Table;

impl Ready {
    /// Opens a monitor on a table, with its rings in this memory. Errs where that is too short.
    pub fn open(table: &Table, rings: &mut [u64]) -> Result<Ready, Fault>
        ensures refusal { fault_of result ≡ no_room (plan_of table.now).counts rings.old }
        ensures kept { OnErr result (rings.new ≡ rings.old) }
        ensures state { IfOk result (λ m. m ≡ opened_on (plan_of table.now).counts) }
        ensures rings { OnOk result (OpensRings (rings_of table.now) rings.old rings.new) }
        ensures day { IfOk result (λ m. GoesOn table.now new_day m rings.new) }
    {
        let opened = table.counts();
        if rings.len() < opened.slots {
            return Err(Fault::new(Layer::Monitor, Cause::Slots(opened.slots)));
        }
        open(table, rings);
        Ok(Ready {
            progress: Progress {
                opened,
                ticks: 0,
                due: ArrayVec::new(),
                taken: 0,
                struck: 0,
            },
        })
    }

    /// Latches once, and takes the row's samples as those of the next tick. Errs, with the monitor
    /// as it was, where the table is another or the memory too short, where no more ticks can be
    /// counted, where there is no next row, and at the first channel with no sample of its type.
    pub fn sample<S: Sampler>(
        self,
        table: &Table,
        rings: &mut [u64],
        sampler: &mut S,
    ) -> Result<Sampled, Stopped<Ready>>
        ensures refusal { fault_of_stopped result ≡
            unfit self table.now rings.old orelse out_of_ticks self
            orelse unsampled table.now (S.meaning sampler.old) (S.meaning sampler.new) }
        ensures kept { IfErr result (λ e. (e.state ≡ self) × (rings.new ≡ rings.old)) }
        ensures sampler { Polls S.Sampler
            (unfit self table.now rings.old orelse out_of_ticks self) sampler.old sampler.new }
        ensures state { IfOk result (λ m. m ≡ self) }
        ensures rings { OnOk result (StoresSamples (rings_of table.now) self.ticks
            (row_value (row_after (S.meaning sampler.old))) rings.old rings.new) }
        ensures day { IfOk result (λ m.
            (h : History) → StandsAfter table.now h self rings.old → (row : Readings)
            × ((S.meaning sampler.old).next ≡ Some row) × PendsAfter table.now h row m rings.new) }
    {
        match self.progress.take_samples(table, rings, sampler) {
            Ok(row) => {
                store_samples(table, rings, self.progress.ticks, &row);
                let Ready { progress } = self;
                Ok(Sampled { progress })
            }
            Err(stop) => Err(Stopped {
                state: self,
                fault: stop.fault,
            }),
        }
    }

    // The newest index of a stream and its value there, or why there is none to show.
    fn find_newest(&self, table: &Table, rings: &[u64], stream: u8) -> Result<Shown, MonitorFault>
        ensures answer { fault_of_upper result ≡ unfit self.now table.now rings.now
            orelse no_stream table.now stream orelse no_value self.now table.now stream }
        ensures shown { IfOk result (IsNewest table.now rings.now self.now stream) }
        ensures known { OnOk result (stream < length (streams_of table.now)) }
    {
        self.progress.fit(table, rings)?;
        if usize::from(stream) >= table.streams().len() {
            return Err(MonitorFault::new(Layer::Monitor, Cause::NoStream(stream)));
        }
        match newest(table, rings, self.progress.ticks, usize::from(stream)) {
            Some((index, value)) => Ok(Shown { index, value }),
            None => Err(MonitorFault::new(Layer::Monitor, Cause::NoValueYet(stream))),
        }
    }

    /// Shows the newest index of a stream, its lead past the last judged tick, and its value there.
    /// Errs where the table is another or the memory too short, where there is no such stream, and
    /// where it has no value yet.
    pub fn show(&self, table: &Table, rings: &[u64], stream: u8) -> Result<Shown, Fault>
        ensures refusal { fault_of result ≡ unfit self.now table.now rings.now
            orelse no_stream table.now stream orelse no_value self.now table.now stream }
        ensures shown { IfOk result (IsNewest table.now rings.now self.now stream) }
        ensures day { IfOk result (λ r. (h : History) →
            StandsAfter table.now h self.now rings.now → Shows table.now h self.now stream r) }
    {
        Ok(self.find_newest(table, rings, stream)?)
    }
}
