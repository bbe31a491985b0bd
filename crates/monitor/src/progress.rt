// What a monitor keeps from call to call, and what its calls have in common.
ghost use Rattle.std.specs.Prelude.{◌+◌, ◌*◌, ◌<◌, ◌≤◌, All, length};

use arrayvec::ArrayVec;
use schedule::plan::Counts;
use walks::graph::RULES;

// What was opened, how many ticks were judged, and what became of the alarms.
#[derive(Drop)]
pub(crate) struct Progress {
    pub(crate) opened: Counts,
    pub(crate) ticks: u32,
    // The rules whose alarms are due, the first in front.
    pub(crate) due: ArrayVec<u8, RULES>,
    pub(crate) taken: u64,
    pub(crate) struck: u64,
    ghost known: { All (λ k. k < opened.records.rules) due.items },
    ghost few: { taken + struck + length due.items ≤ 16 * ticks },
}
