// The references of a table as edges between its nodes.
ghost use Rattle.std.specs.Prelude.{◌≡◌, map, IfOk};
ghost use Rattle.std.specs.List.{AllByRecursion};
ghost use Rattle.syntax.specs.Entries.{entry_of};
ghost use Rattle.schedule.specs.Edges.{Near, edge_by, edges};

use crate::nodes::Nodes;
use crate::ordered::OrderedRecords;
use references::listing::list_references;
use references::reference::Reference;
use std::alloc::{AllocError, Global};
use walks::edge::{Edge, SheetEntry};

// A reference as an edge.
fn make_edge(nodes: &Nodes, r: &Reference) -> Edge
    requires { Near nodes.now.numbering.counts r.now }
    ensures { result ≡ edge_by nodes.now r.now }
{
    let reader = nodes.numbering.node(r.reader);
    let read = nodes.numbering.node(r.read);
    let entry = SheetEntry {
        reader: usize::from(nodes.told[reader].number),
        read: usize::from(nodes.told[read].number),
        drop: r.drop,
    };
    Edge {
        entry,
        reader,
        read,
        opening: nodes.told[reader].opening,
    }
}

// References as edges, one for one.
fn make_edges(
    alloc: Global,
    references: &[Reference],
    nodes: &Nodes,
) -> Result<Vec<Edge>, AllocError>
    requires { AllByRecursion (Near nodes.now.numbering.counts) references.now }
    ensures { IfOk result (λ v. v.items ≡ map (edge_by nodes.now) references.now) }
{
    references
        .iter()
        .map(|r| make_edge(nodes, r))
        .collect(alloc)
}

// The references of a table as edges, in reading order.
pub(crate) fn list_edges(
    alloc: Global,
    ordered: &OrderedRecords<'_>,
) -> Result<Vec<Edge>, AllocError>
    ensures { IfOk result (λ v. v.items ≡ edges (map entry_of ordered.now.records.now)) }
{
    let references = list_references(alloc, ordered.records)?;
    make_edges(alloc, &references, &Nodes::new(ordered))
}
