// The ledger: a list of alarms in the caller's memory.
ghost use Rattle.std.specs.Prelude.{◌≡◌, ◌++◌, ◌-◌, None, List, min, length, take, drop, slice_get, refl};
ghost use Rattle.std.proofs.Common.{arith};
ghost use Rattle.alarms.specs.declared.alarm.Alarm.{Alarm};
ghost use Rattle.alarms.specs.Ledgers.{entries_of, count_of, memory_of, listed, added, ledger_view, emptied, ledger_full, Written};

use crate::alarm::Alarm;
use crate::offer::offer;
use crate::sink::Sink;
use crate::tally::Tally;
use faults::cause::Cause;
use faults::fault::{Fault, Layer};

/// A sink that lists its alarms in memory that its caller lends.
#[derive(Drop)]
pub struct Ledger<'a> {
    entries: &'a mut [Alarm],
    // How many of the entries are listed.
    len: usize,
    tally: Tally,
}

impl<'a> Ledger<'a> {
    /// An empty ledger that took no alarm yet.
    pub fn new(entries: &'a mut [Alarm]) -> Ledger<'a>
        ensures entries { entries_of result ≡ entries.old }
        ensures count { count_of result ≡ 0 }
        ensures number { (ledger_view result).number ≡ 0 }
        ensures latest { (ledger_view result).latest ≡ None }
        ensures lent { memory_of result ≡ entries.entry.ghost_name }
    {
        Ledger {
            entries,
            len: 0,
            tally: Tally::new(),
        }
    }

    /// The alarm at a place of the list, from 0, if there is one.
    pub fn ask(&self, place: usize) -> Option<Alarm>
        ensures { result ≡ slice_get (listed self.now) place }
    {
        if place >= self.len {
            return None;
        }
        self.entries.get(place).copied()
    }

    /// Empties the list for use again; the number taken and the latest alarm stay.
    pub fn collect(&mut self)
        ensures { self.new ≡ emptied self.old }
    {
        self.len = 0;
    }

    // How many alarms still fit.
    fn left(&self) -> u32
        ensures { result ≡ (ledger_view self.now).places }
    {
        let free = self.entries.len().saturating_sub(self.len);
        u32::try_from(free)
            .unwrap_or(u32::MAX)
            .min(self.tally.left())
    }
}

impl<'a> Sink for Ledger<'a> {
    ghost Holding = { List Alarm };

    ghost view = { ledger_view };

    ghost adds = { added };

    ghost full = { λ l a. ledger_full };

    ghost moves = { Written };

    ghost rests = { λ a l m. m ≡ l };

    ghost bounded = { λ l. omega arith };

    ghost refuses = { λ l a. refl };

    fn take(&mut self, alarm: Alarm) -> Result<(), Fault> {
        if self.left() == 0 {
            return Err(Fault::new(Layer::Ledger, Cause::SinkFull));
        }
        self.entries[self.len] = alarm;
        self.len += 1;
        self.tally.count(alarm);
        Ok(())
    }

    fn number(&self) -> u32 {
        self.tally.number
    }

    fn latest(&self) -> Option<Alarm> {
        self.tally.latest
    }

    fn places(&self) -> u32 {
        self.left()
    }
}

/// Lists alarms in the caller's memory from its front, as many as have room there, and answers how many.
pub fn list_in(entries: &mut [Alarm], alarms: &[Alarm]) -> usize
    ensures count { result ≡ min (length alarms.now) (min (length entries.old) 4294967295) }
    ensures entries { entries.new ≡ take result alarms.now ++ drop result entries.old }
{
    let mut ledger = Ledger::new(entries);
    match offer(&mut ledger, alarms) {
        Ok(()) => alarms.len(),
        Err(untaken) => untaken.taken,
    }
}
