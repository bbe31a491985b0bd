// What the calls of a monitor have in common.
ghost use Rattle.std.specs.Prelude.{◌≡◌, ◌<◌, ℕ, Some, length, IfOk, OnOk, OnErr};
ghost use Rattle.sampling.specs.Meanings.{row_after};
ghost use Rattle.syntax.specs.declared.record.Kind.TheVariants.{Channel};
ghost use Rattle.syntax.specs.Entries.{count};
ghost use Rattle.tables.specs.Tables.{records_of, rules_of, plan_of};
ghost use Rattle.engine.specs.Rings.{HasRoom, value_at};
ghost use Rattle.monitor.specs.States.{state_of, alarm_counts, with_taken, with_struck};
ghost use Rattle.monitor.specs.Refusals.{fault_of_upper, unfit, out_of_ticks, unsampled};
ghost use Rattle.monitor.specs.Refusals.{none_due, no_place, ◌orelse◌};
ghost use Rattle.monitor.specs.Samples.{row_value, TypedRow, Polls};
ghost use Rattle.monitor.specs.Delivering.{first_due, first_alarm, alarm_in, Delivers};

use crate::counts::AlarmCounts;
use crate::progress::Progress;
use crate::row::read_samples;
use crate::states::MonitorFault;
use alarms::alarm::Alarm;
use alarms::sink::Sink;
use engine::rules::arguments;
use faults::cause::Cause;
use faults::fault::Layer;
use sampling::sampler::Sampler;
use tables::table::Table;
use values::value::Value;

// The alarm of a rule at a tick, its arguments worked out from the rings.
fn make_alarm(table: &Table, rings: &[u64], tick: u32, rule: u8) -> Alarm
    requires room { HasRoom table.now rings.now }
    requires known { rule < length (rules_of table.now) }
    ensures { result ≡ alarm_in table.now rings.now tick rule }
{
    let arguments = arguments(table, rings, tick, rule);
    Alarm {
        tick: u64::from(tick),
        rule,
        arguments,
    }
}

impl Progress {
    // Whether the table has the counts that were opened, and the memory room for its rings.
    pub(crate) fn fit(&self, table: &Table, rings: &[u64]) -> Result<(), MonitorFault>
        ensures answer { fault_of_upper result ≡ unfit (state_of self.now) table.now rings.now }
        ensures same { OnOk result (self.now.opened ≡ (plan_of table.now).counts) }
        ensures room { OnOk result (HasRoom table.now rings.now) }
    {
        let counts = table.counts();
        if self.opened != counts {
            return Err(MonitorFault::new(Layer::Monitor, Cause::OtherTable));
        }
        if rings.len() < counts.slots {
            return Err(MonitorFault::new(Layer::Monitor, Cause::Slots(counts.slots)));
        }
        Ok(())
    }

    // The counts of the alarms since opening.
    pub(crate) fn counts(&self) -> AlarmCounts
        ensures { result ≡ alarm_counts (state_of self.now) }
    {
        let due = self.due.len() as u64;
        AlarmCounts {
            called: self.taken + self.struck + due,
            taken: self.taken,
            struck: self.struck,
            due,
        }
    }

    // Latches once, and reads every declared channel.
    pub(crate) fn take_samples<S: Sampler>(
        &self,
        table: &Table,
        rings: &[u64],
        sampler: &mut S,
    ) -> Result<[Value; 16], MonitorFault>
        ensures answer { let m = state_of self.now in fault_of_upper result ≡
            unfit m table.now rings.now orelse out_of_ticks m
            orelse unsampled table.now (S.meaning sampler.old) (S.meaning sampler.new) }
        ensures sampler { let m = state_of self.now in Polls S.Sampler
            (unfit m table.now rings.now orelse out_of_ticks m) sampler.old sampler.new }
        ensures room { OnOk result (HasRoom table.now rings.now) }
        ensures next { let m = S.meaning sampler.old in OnOk result (m.next ≡ Some (row_after m)) }
        ensures typed { OnOk result
            (TypedRow (records_of table.now) (row_after (S.meaning sampler.old))) }
        ensures row { IfOk result (λ row. (c : ℕ) → c < count Channel (records_of table.now) →
            value_at row c ≡ row_value (row_after (S.meaning sampler.old)) c) }
    {
        self.fit(table, rings)?;
        if self.ticks == u32::MAX {
            return Err(MonitorFault::new(Layer::Monitor, Cause::TicksSpent));
        }
        sampler.latch()?;
        read_samples(table, sampler)
    }

    // The rule of the first due alarm.
    fn first(&self) -> Result<u8, MonitorFault>
        ensures answer { fault_of_upper result ≡ none_due (state_of self.now) }
        ensures rule { IfOk result (λ r. r ≡ first_due (state_of self.now)) }
        ensures known { IfOk result (λ r. r < self.now.opened.records.rules) }
        ensures some { OnOk result (0 < length self.now.due.items) }
    {
        let first = self.due.first().copied();
        first.ok_or(MonitorFault::new(Layer::Monitor, Cause::NoneDue))
    }

    // Offers the first due alarm to a sink.
    pub(crate) fn offer_first<K: Sink>(
        &mut self,
        table: &Table,
        rings: &[u64],
        sink: &mut K,
    ) -> Result<AlarmCounts, MonitorFault>
        ensures answer { let m = state_of self.old in fault_of_upper result ≡
            unfit m table.now rings.now orelse none_due m
            orelse no_place K.Sink sink.old (first_alarm table.now rings.now m) }
        ensures sink { let m = state_of self.old in Delivers K.Sink
            (unfit m table.now rings.now orelse none_due m)
            (first_alarm table.now rings.now m) sink.old sink.new }
        ensures some { OnOk result (0 < length self.old.due.items) }
        ensures went { OnOk result (state_of self.new ≡ with_taken (state_of self.old)) }
        ensures kept { OnErr result (self.new ≡ self.old) }
        ensures counts { IfOk result (λ c. c ≡ alarm_counts (state_of self.new)) }
    {
        self.fit(table, rings)?;
        let rule = self.first()?;
        let alarm = make_alarm(table, rings, self.ticks - 1, rule);
        sink.take(alarm)?;
        self.due.remove(0);
        self.taken += 1;
        Ok(self.counts())
    }

    // Drops the first due alarm.
    pub(crate) fn strike_first(&mut self) -> Result<AlarmCounts, MonitorFault>
        ensures answer { fault_of_upper result ≡ none_due (state_of self.old) }
        ensures some { OnOk result (0 < length self.old.due.items) }
        ensures went { OnOk result (state_of self.new ≡ with_struck (state_of self.old)) }
        ensures kept { OnErr result (self.new ≡ self.old) }
        ensures counts { IfOk result (λ c. c ≡ alarm_counts (state_of self.new)) }
    {
        self.first()?;
        self.due.remove(0);
        self.struck += 1;
        Ok(self.counts())
    }
}
