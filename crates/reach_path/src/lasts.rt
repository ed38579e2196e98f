//! The last edge of the path to each function.
ghost use Rattle.std.specs.Prelude.{◌≡◌, ◌<◌, ◌+◌, ℕ, length, set, slice_index, IfOk};
ghost use Rattle.reach_path.specs.Graphs as graphs;
ghost use Rattle.reach_path.specs.Lasts.{AreLasts, is_next, last_at, lasts_with, leads_on};

use crate::graph::Graph;
use std::alloc::{AllocError, Global};

/// An edge to a function that is known: the number of its caller, and its offset.
#[derive(Clone, Copy, Debug, Drop)]
pub(crate) struct Last {
    pub(crate) caller: u32,
    pub(crate) offset: u32,
}

/// For each function the least edge that leads one level on to it, in one pass over the edges. These are
/// in order, so it is the first of them; from the last to the first each takes the place of those behind it.
pub(crate) fn lasts_of(
    alloc: Global,
    graph: &Graph,
    levels: &[u32],
) -> Result<Vec<Last>, AllocError>
    requires { length levels.now ≡ graph.now.nodes }
    ensures { IfOk result (λ lasts. AreLasts graph.now levels.now 0 lasts.items) }
{
    let none = Last {
        caller: 0,
        offset: 0,
    };
    let mut lasts = vec![in alloc; none; graph.nodes() as usize]?;
    let mut left = graph.len();
    while left > 0 {
        left -= 1;
        keep(graph, levels, &mut lasts, left);
    }
    Ok(lasts)
}

// Keeps the edge at a place for its callee, where it leads one level on.
fn keep(graph: &Graph, levels: &[u32], lasts: &mut Vec<Last>, place: usize)
    requires place { place < length graph.now.edges }
    requires levels { length levels.now ≡ graph.now.nodes }
    requires lasts { length lasts.old.items ≡ graph.now.nodes }
    ensures kept { lasts.new.items ≡ lasts_with graph.now levels.now lasts.old.items place }
    ensures from_below { graphs.from graph.now place < graph.now.nodes }
    ensures to_below { graphs.to graph.now place < graph.now.nodes }
{
    let caller = graph.from(place);
    let callee = graph.to(place) as usize;
    if is_next(levels[caller as usize], levels[callee]) {
        lasts[callee] = Last {
            caller,
            offset: graph.offset(place),
        };
    }
}

// Whether the higher level is the next one behind the lower; both are kept plus 1.
fn is_next(low: u32, high: u32) -> bool
    ensures { result ≡ is_next low high }
{
    low > 0 && high as u64 == low as u64 + 1
}
