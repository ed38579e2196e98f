//! Following call edges from the body of an entry.
ghost use Rattle.std.specs.Prelude.{◌<◌, ◌^◌, sum, All, IfOk};
ghost use Rattle.std.specs.List.Sorted.{IsStrictlySortedBy};
ghost use Rattle.jam_base.specs.Edges.{edge_order};
ghost use Rattle.reach_path.specs.Levels.{IsBetween, IsFunction, body_of};
ghost use Rattle.reach_path.specs.Reached.{IsReachOf};

use crate::graph::Graph;
use crate::lasts::lasts_of;
use crate::numbers::starts_of;
use crate::routes::Reach;
use crate::search::levels_of;
use jam_base::{Edge, OutOfMemory};
use std::alloc::Global;

// Up to how many edges 32 bits number.
const MOST: usize = 4294967295;

/// Follows call edges from function 0 of the entry. Modules are given by their places; `functions` has the
/// number of functions of each. It takes time that grows with the functions and the edges, and while it
/// runs up to 12 bytes for each function, 4 for each module and 4 for each edge.
pub fn reach(
    alloc: Global,
    functions: &[u32],
    edges: &[Edge],
    entry: u32,
) -> Result<Reach, OutOfMemory>
    requires sorted { IsStrictlySortedBy edge_order edges.now }
    requires between { All (IsBetween functions.now) edges.now }
    requires few { sum functions.now < 2 ^ 32 }
    requires entry { IsFunction functions.now (body_of entry) }
    ensures { IfOk result (λ made. IsReachOf edges.now entry made) }
{
    if edges.len() > MOST {
        return Err(OutOfMemory);
    }
    let starts = starts_of(alloc, functions)?;
    let nodes = starts[functions.len()];
    let begin = starts[entry as usize];
    let graph = Graph::of(starts.as_slice(), edges, nodes, begin);
    let levels = levels_of(alloc, &graph)?;
    let lasts = lasts_of(alloc, &graph, levels.as_slice())?;
    Ok(Reach {
        starts,
        levels,
        lasts,
    })
}
