// The walks of a table: a layout of its values where no walk is to blame.
ghost use Rattle.std.specs.Prelude.{◌≡◌, ℕ, ◌<◌, MatchBool, slice_index};
ghost use Rattle.schedule.specs.Walking.{Weighed};

use faults::cause::Cause;
use layout::layout::{Layout, lay_out};
use search::ahead::find_channel_walk;
use search::closed::find_closed_walk;
use walks::graph::{Graph, NODES};
use walks::sheet::Sheet;

// Whether some channel leads: then a walk to it weighs more than 0.
fn channel_leads(graph: &Graph, leads: &[u32; NODES]) -> bool
    ensures { MatchBool result ((c : ℕ) × (c < graph.now.channels) × (0 < slice_index leads.now c)) ((c : ℕ) → c < graph.now.channels → slice_index leads.now c ≡ 0) }
{
    leads[..graph.channels].iter().any(|lead| *lead > 0)
}

// The layout of a table's edges, or the walk against it, which is then told in the sheet's first entries.
pub(crate) fn weigh_walks(graph: &Graph, sheet: &mut Sheet<'_>) -> Result<Layout, Cause>
    ensures weighed { Weighed graph.now.channels graph.now.streams graph.now.edges.now sheet.old.entries.now sheet.new.entries.now result }
    ensures same { sheet.new.entries.ghost_name ≡ sheet.old.entries.ghost_name }
{
    let Some(layout) = lay_out(graph) else {
        // Where there is no layout, some closed walk weighs 0 or more.
        let references = find_closed_walk(graph, sheet).unwrap();
        return Err(Cause::ClosedWalk(references));
    };
    if channel_leads(graph, &layout.leads) {
        // Its lead is the weight of a walk to it.
        let references = find_channel_walk(graph, sheet).unwrap();
        return Err(Cause::ChannelWalk(references));
    }
    Ok(layout)
}
