// The plan of a table's values: where its rings lie, and in what order streams are evaluated.
ghost use Rattle.std.specs.Prelude.{◌≡◌, ◌+◌, Some, map, IfOk};
ghost use Rattle.syntax.specs.Entries.{entry_of};
ghost use Rattle.schedule.specs.Placements.{Consecutive, Places};
ghost use Rattle.schedule.specs.Scheduling.{Scheduled};
ghost use Rattle.schedule.specs.Serving.{Serves};
ghost use Rattle.schedule.specs.Lines.{size_text};

use crate::edges::list_edges;
use crate::ordered::OrderedRecords;
use crate::walking::weigh_walks;
use faults::cause::Cause;
use faults::stop::Stop;
use layout::layout::Layout;
use lists::list::List;
use std::alloc::Global;
use std::fmt;
use syntax::record;
use walks::graph::{Graph, RINGS, STREAMS};
use walks::sheet::Sheet;

// How many slots the rings of a table take at most.
const MOST_SLOTS: usize = 2048;

// How many records of each kind a table has, and how many slots its rings take, which only a planned table has.
#[derive(Clone, Copy, Debug, Default, PartialEq, Eq)]
pub struct Counts {
    pub records: record::Counts,
    pub slots: usize,
}

// Writes both.
impl fmt::Display for Counts {
    ghost output = { λ counts. Some (size_text counts) };

    fn fmt<W: fmt::Write>(&self, f: &mut fmt::Formatter<W>) -> fmt::Result {
        let Counts { records, slots } = *self;
        write!(f, "{records} slots {slots}")
    }
}

// Where a ring lies, by its first slot and how many slots it has, and its record's lead.
#[derive(Clone, Copy, Debug, Default, PartialEq, Eq)]
pub struct Ring {
    pub base: usize,
    pub length: usize,
    pub lead: u32,
}

// The plan of a table. Rings are numbered as records are: the channels first, then the streams.
#[derive(Clone, Copy)]
pub struct Plan {
    pub counts: Counts,
    // The streams by number, in an order of evaluation.
    pub order: List<usize, STREAMS>,
    pub rings: List<Ring, RINGS>,
}

// Where rings lie, one after another, and how many slots they take together.
#[derive(Clone, Copy)]
pub(crate) struct Placed {
    pub(crate) rings: List<Ring, RINGS>,
    pub(crate) slots: usize,
}

// Places the rings of a graph's channels and streams one after another.
fn place_rings(layout: &Layout, graph: &Graph) -> Placed
    ensures { Consecutive layout.now (graph.now.channels + graph.now.streams) result }
{
    let count = graph.channels + graph.streams;
    let mut rings = List::new();
    let mut slots = 0;
    for (length, lead) in layout.lengths[..count].iter().zip(&layout.leads) {
        let length = *length as usize;
        rings.push(Ring {
            base: slots,
            length,
            lead: *lead,
        });
        slots += length;
    }
    Placed { rings, slots }
}

// The plan that a layout of a graph gives, with so many rules.
fn lay_plan(layout: &Layout, graph: &Graph, rules: usize) -> Plan
    ensures { Places layout.now graph.now.channels graph.now.streams rules result }
{
    let Placed { rings, slots } = place_rings(layout, graph);
    Plan {
        counts: Counts {
            records: record::Counts {
                channels: graph.channels,
                streams: graph.streams,
                rules,
            },
            slots,
        },
        order: layout.order,
        rings,
    }
}

// The plan of a table in order, or why there is none; a walk to blame is then told in the sheet's first entries.
pub fn make_plan(
    alloc: Global,
    ordered: &OrderedRecords<'_>,
    sheet: &mut Sheet<'_>,
) -> Result<Plan, Stop>
    ensures scheduled { Scheduled (map entry_of ordered.now.records.now) sheet.old.entries.now sheet.new.entries.now result }
    ensures serves { IfOk result (λ p. Serves (map entry_of ordered.now.records.now) p) }
    ensures same { sheet.new.entries.ghost_name ≡ sheet.old.entries.ghost_name }
{
    let edges = list_edges(alloc, ordered)?;
    let counts = record::Counts::of(ordered.records);
    let graph = Graph {
        channels: counts.channels,
        streams: counts.streams,
        edges: &edges,
    };
    let layout = weigh_walks(&graph, sheet)?;
    let plan = lay_plan(&layout, &graph, counts.rules);
    if plan.counts.slots > MOST_SLOTS {
        return Err(Stop::Refused(Cause::Slots(plan.counts.slots)));
    }
    Ok(plan)
}
