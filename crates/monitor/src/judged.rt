// A monitor with a tick judged: it delivers and strikes, and closes.
ghost use Rattle.std.specs.Prelude.{◌≡◌, ℕ, List, IfOk, IfErr, OnOk, OnErr};
ghost use Rattle.alarms.specs.declared.alarm.Alarm.{Alarm};
ghost use Rattle.tables.specs.declared.table.Table.{Table};
ghost use Rattle.monitor.specs.States.{alarm_counts, with_taken, with_struck};
ghost use Rattle.monitor.specs.Refusals.{fault_of, fault_of_stopped, ◌orelse◌};
ghost use Rattle.monitor.specs.Refusals.{unfit, none_due, still_due, no_place};
ghost use Rattle.monitor.specs.Delivering.{first_alarm, Delivers};
ghost use Rattle.monitor.specs.Histories.{History, taken, struck, with_fate, IsFirstDue};
ghost use Rattle.monitor.specs.Standing.{StandsAfter, GoesOn};

use crate::counts::AlarmCounts;
use crate::states::{Judged, Ready, Stopped};
use alarms::sink::Sink;
use faults::cause::Cause;
use faults::fault::{Fault, Layer};
use tables::table::Table;

impl Judged {
    /// Offers the first due alarm to a sink, its arguments worked out now. Errs, and leaves it due,
    /// where the table is another or the memory too short, where none is due, and where the sink
    /// has no place for it.
    pub fn deliver<K: Sink>(
        &mut self,
        table: &Table,
        rings: &[u64],
        sink: &mut K,
    ) -> Result<AlarmCounts, Fault>
        ensures refusal { fault_of result ≡ unfit self.old table.now rings.now orelse none_due self.old
            orelse no_place K.Sink sink.old (first_alarm table.now rings.now self.old) }
        ensures kept { OnErr result (self.new ≡ self.old) }
        ensures sink { Delivers K.Sink (unfit self.old table.now rings.now orelse none_due self.old)
            (first_alarm table.now rings.now self.old) sink.old sink.new }
        ensures state { OnOk result (self.new ≡ with_taken self.old) }
        ensures counts { IfOk result (λ c. c ≡ alarm_counts self.new) }
        ensures day { OnOk result
            ((h : History) → StandsAfter table.now h self.old rings.now →
            let a = first_alarm table.now rings.now self.old in
            IsFirstDue table.now h self.old a
            × GoesOn table.now (with_fate h (taken a)) self.new rings.now) }
    {
        Ok(self.progress.offer_first(table, rings, sink)?)
    }

    /// Drops the first due alarm. Errs where none is due.
    pub fn strike(&mut self) -> Result<AlarmCounts, Fault>
        ensures refusal { fault_of result ≡ none_due self.old }
        ensures kept { OnErr result (self.new ≡ self.old) }
        ensures state { OnOk result (self.new ≡ with_struck self.old) }
        ensures counts { IfOk result (λ c. c ≡ alarm_counts self.new) }
        ensures day { OnOk result
            ((t : Table) (h : History) (mem : List ℕ) → StandsAfter t h self.old mem →
            (a : Alarm) × IsFirstDue t h self.old a
            × GoesOn t (with_fate h (struck a)) self.new mem) }
    {
        Ok(self.progress.strike_first()?)
    }

    /// Makes the monitor ready again. Errs, with the monitor as it was, where alarms are due.
    pub fn close(self) -> Result<Ready, Stopped<Judged>>
        ensures refusal { fault_of_stopped result ≡ still_due self }
        ensures kept { IfErr result (λ e. e.state ≡ self) }
        ensures state { IfOk result (λ m. m ≡ self) }
        ensures day { IfOk result (λ m. (t : Table) (h : History) (mem : List ℕ) →
            StandsAfter t h self mem → StandsAfter t h m mem) }
    {
        let due = self.progress.due.len();
        if due > 0 {
            return Err(Stopped {
                state: self,
                fault: Fault::new(Layer::Monitor, Cause::AlarmsDue(due)),
            });
        }
        let Judged { progress } = self;
        Ok(Ready { progress })
    }
}
