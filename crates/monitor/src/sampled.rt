// A monitor with a tick sampled: it judges.
ghost use Rattle.std.specs.Prelude.{◌≡◌, IfOk, IfErr, OnOk};
ghost use Rattle.rings.specs.Calls.{Judges};
ghost use Rattle.sampling.specs.Rows.{Readings};
ghost use Rattle.engine.specs.Rings.{rings_of};
ghost use Rattle.engine.specs.Rules.{true_rules};
ghost use Rattle.monitor.specs.States.{alarm_counts, with_tick};
ghost use Rattle.monitor.specs.Refusals.{fault_of_stopped, unfit};
ghost use Rattle.monitor.specs.Histories.{History, with_row};
ghost use Rattle.monitor.specs.Standing.{PendsAfter, GoesOn};

use crate::counts::AlarmCounts;
use crate::progress::Progress;
use crate::states::{Judged, Sampled, Stopped};
use engine::rules::find_called;
use engine::tick::judge;
use tables::table::Table;

impl Sampled {
    /// Judges the sampled tick: the alarms of the rules whose guards are true become due. Errs, with
    /// the monitor as it was, where the table is another or the memory too short.
    pub fn judge(
        self,
        table: &Table,
        rings: &mut [u64],
    ) -> Result<(Judged, AlarmCounts), Stopped<Sampled>>
        ensures refusal { fault_of_stopped result ≡ unfit self table.now rings.old }
        ensures kept { IfErr result (λ e. (e.state ≡ self) × (rings.new ≡ rings.old)) }
        ensures rings { OnOk result (Judges (rings_of table.now) self.ticks rings.old rings.new) }
        ensures state { IfOk result (λ r.
            r.0 ≡ with_tick (true_rules table.now rings.new self.ticks) self) }
        ensures counts { IfOk result (λ r. r.1 ≡ alarm_counts r.0) }
        ensures day { IfOk result (λ r.
            (h : History) (row : Readings) → PendsAfter table.now h row self rings.old →
            GoesOn table.now (with_row h row) r.0 rings.new) }
    {
        if let Err(stop) = self.progress.fit(table, rings) {
            return Err(Stopped {
                state: self,
                fault: stop.fault,
            });
        }
        let Sampled { progress } = self;
        judge(table, rings, progress.ticks);
        let progress = Progress {
            opened: progress.opened,
            ticks: progress.ticks + 1,
            due: find_called(table, rings, progress.ticks),
            taken: progress.taken,
            struck: progress.struck,
        };
        let counts = progress.counts();
        Ok((Judged { progress }, counts))
    }
}
