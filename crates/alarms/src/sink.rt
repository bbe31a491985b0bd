// What every sink does.
ghost use Rattle.std.specs.Prelude.{◌≡◌, ◌+◌, ◌≤◌, true, false, is_ok};
ghost use Rattle.faults.specs.declared.fault.Fault.{Fault};
ghost use Rattle.faults.specs.Causes.{refusal};
ghost use Rattle.alarms.specs.declared.alarm.Alarm.{Alarm};
ghost use Rattle.alarms.specs.Sinks.{View, offered, Offered};

use crate::alarm::Alarm;
use faults::fault::Fault;

/// Takes alarms, as long as it has a place for them.
pub trait Sink {
    // the kind of thing that it holds
    ghost Holding: { Type 0 };

    // what it holds, how many it took, the latest, and the places left
    ghost view: { Self → View Holding };

    // what taking an alarm makes of a holding
    ghost adds: { Holding → Alarm → Holding };

    // the fault of an offer of an alarm for which no place is left
    ghost full: { Self → Alarm → Fault };

    // what an offer that is taken makes of the sink, besides what it shows
    ghost moves: { Alarm → Self → Self → Type 0 };

    // what a refused offer of an alarm leaves of the sink, besides what it shows
    ghost rests: { Alarm → Self → Self → Type 0 };

    /// Offers an alarm. Errs where there is no place for it, and then shows what it showed before.
    fn take(&mut self, alarm: Alarm) -> Result<(), Fault>
        ensures answer { result ≡ offered (view self.old) alarm (full self.old alarm) }
        ensures view { Offered adds alarm (view self.old) (view self.new) result }
        ensures moved { is_ok result ≡ true → moves alarm self.old self.new }
        ensures rested { is_ok result ≡ false → rests alarm self.old self.new };

    /// How many alarms it took.
    fn number(&self) -> u32
        ensures { result ≡ (view self.now).number };

    /// The latest alarm that it took.
    fn latest(&self) -> Option<Alarm>
        ensures { result ≡ (view self.now).latest };

    /// How many places are left.
    fn places(&self) -> u32
        ensures { result ≡ (view self.now).places };

    // laws: number and places together are 32 bits at most; an offer is refused by 17 at 0
    ghost bounded: { (s : Self) → (view s).number + (view s).places ≤ 4294967295 };

    ghost refuses: { (s : Self) (a : Alarm) → refusal (full s a).cause ≡ (17, 0) };
}
