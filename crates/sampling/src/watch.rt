// Latches running, and what a hold made of them.
ghost use Rattle.std.specs.Prelude.{◌≡◌, ℕ, IfOk};
ghost use Rattle.sampling.specs.Rows.{readings};
ghost use Rattle.sampling.specs.Watching.{Sees, Ends, BridgedBy, HoldLaws};

use crate::hold::Hold;
use crate::row::{CHANNELS, Row};
use crate::sampler::Sampler;
use faults::fault::Fault;
use faults::stop::Stop;
use std::alloc::Global;

// What was seen at one latch of a hold: the row below, and the hold's own.
#[derive(Clone, Copy, Debug, PartialEq, Eq)]
pub struct Sighting {
    pub below: Row,
    pub shown: Row,
}

// The present row of a sampler, all sixteen channels of it.
pub fn read_row<S: Sampler>(sampler: &S) -> Row
    ensures { (k : ℕ) → readings result k ≡ (S.meaning sampler.now).present k }
{
    let mut row = Row::empty();
    for channel in 0..CHANNELS {
        row.put(channel, sampler.read(channel).ok());
    }
    row
}

// Latches once, and gives what is seen then.
fn see<S: Sampler>(hold: &mut Hold<S>) -> Result<Sighting, Fault>
    ensures { Sees S.Sampler hold.old hold.new result }
{
    hold.latch()?;
    let below = read_row(hold.get_ref());
    let shown = read_row(hold);
    Ok(Sighting { below, shown })
}

// Latches so many times, and gives what was seen at each. A latch that is refused ends it, and what was seen before is let go.
pub fn watch<S: Sampler>(
    alloc: Global,
    hold: &mut Hold<S>,
    latches: usize,
) -> Result<Vec<Sighting>, Stop<Fault>>
    ensures run { Ends S.Sampler hold.old hold.new latches result }
    ensures bridged { IfOk result (λ seen. BridgedBy hold.old seen.items) }
    ensures laws { HoldLaws S.Sampler }
{
    let mut seen = Vec::new(alloc);
    for _ in 0..latches {
        seen.push(see(hold)?)?;
    }
    Ok(seen)
}
