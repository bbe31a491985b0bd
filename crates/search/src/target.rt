// What a search looks for.
ghost use Rattle.std.specs.Prelude.{◌≡◌, ◌<◌, ◌≤◌};

use walks::graph::Graph;

// What a walk is to come to: a node from `first` on below `end`, with a weight of `over` or more.
// Two numbers, since a range is not copied, and each length needs it anew.
#[derive(Clone, Copy)]
pub(crate) struct Target {
    pub(crate) first: usize,
    pub(crate) end: usize,
    pub(crate) over: usize,
    pub(crate) ghost inside: { end ≤ 64 },
    pub(crate) ghost light: { over ≤ 1 },
}

impl Target {
    ghost use Rattle.search.specs.Arrivals.{aim, ring, outside};

    // The node itself, with a weight of 0 or more.
    pub(crate) fn node(node: usize) -> Target
        requires { node < 64 }
        ensures { aim result ≡ ring node }
    {
        Target {
            first: node,
            end: node + 1,
            over: 0,
        }
    }

    // Any channel of a graph, with a weight of more than 0.
    pub(crate) fn channels(graph: &Graph) -> Target
        ensures { aim result ≡ outside graph.now.channels }
    {
        Target {
            first: 0,
            end: graph.channels,
            over: 1,
        }
    }
}
