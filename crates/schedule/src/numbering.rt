// Records as the nodes of a graph: the channels by number, then the streams, then the rules.
ghost use Rattle.std.specs.Prelude.{◌≡◌, ◌<◌, map};
ghost use Rattle.syntax.specs.Entries.{entry_of};
ghost use Rattle.syntax.specs.Counting.{counts_of};

use crate::ordered::OrderedRecords;
use references::reference::Id;
use syntax::record::{Counts, Kind};

// The counts by which the nodes of a table are numbered.
#[derive(Clone, Copy)]
pub(crate) struct Numbering {
    pub(crate) counts: Counts,
    pub(crate) ghost few: { (counts.channels < 64) × (counts.streams < 64) },
}

impl Numbering {
    ghost use Rattle.schedule.specs.Edges.{node_by, id_by};

    // The numbering of a table's nodes.
    pub(crate) fn of(ordered: &OrderedRecords<'_>) -> Numbering
        ensures { result.counts ≡ counts_of (map entry_of ordered.now.records.now) }
    {
        Numbering {
            counts: Counts::of(ordered.records),
        }
    }

    // The node of a record.
    pub(crate) fn node(&self, id: Id) -> usize
        // An id is as it was read, so its type cannot carry the bound.
        requires { node_by self.now.counts.channels self.now.counts.streams id.kind id.number < 64 }
        ensures { result ≡ node_by self.now.counts.channels self.now.counts.streams id.kind id.number }
    {
        let Counts {
            channels,
            streams,
            ..
        } = self.counts;
        match id.kind {
            Kind::Channel => id.number,
            Kind::Stream => channels + id.number,
            Kind::Rule => channels + streams + id.number,
        }
    }

    // The record of a node.
    pub(crate) fn id(&self, node: usize) -> Id
        ensures { result ≡ id_by self.now.counts.channels self.now.counts.streams node }
    {
        let Counts {
            channels,
            streams,
            ..
        } = self.counts;
        if node < channels {
            Id {
                kind: Kind::Channel,
                number: node,
            }
        } else if node < channels + streams {
            Id {
                kind: Kind::Stream,
                number: node - channels,
            }
        } else {
            Id {
                kind: Kind::Rule,
                number: node - (channels + streams),
            }
        }
    }
}
