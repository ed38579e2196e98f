ghost use Rattle.std.specs.Prelude.{◌≡◌, ◌↔◌, ◌<◌, ◌^◌, IsTrue, All, sum};
ghost use Rattle.std.specs.List.Sorted.{IsStrictlySortedBy};
ghost use Rattle.jam_base.specs.Edges.{edge_order};
ghost use Rattle.jam_base.specs.declared.edge.Edge.{Edge as GhostEdge};
ghost use Rattle.std.specs.declared.cmp.Ordering.TheVariants.{Less};
ghost use Rattle.reach_path.specs.Levels.{IsBetween, IsFunction};

use crate::reach_rows::graphs_hold;
use jam_base::{Edge, FunctionRef};
use reach_path::{Reach, reach};
use std::alloc::Global;
use std::cmp::Ordering;
use std::test::Fail;

#[test]
fn a_function_without_a_walk_is_not_reachable(rt: HostRuntime) -> Result<(), Fail> {
    graphs_hold(&rt, rt.alloc(), WALKS)
}

const WALKS: &str = r#"
# The entry has the empty path.
graph 2
path 0 0:0
path 0 0:1
    none
path 0 0:2
    none
path 0 1:0
    none
count 0
    1
graph 1 2 1
    0:0 1 2:0
    1:0 3 1:1
    1:1 9 2:0
path 1 0:0
    none
path 1 2:0
    1:0 3 1:1
    1:1 9 2:0
count 1
    3
path 0 2:0
    0:0 1 2:0
path 0 1:1
    none
count 0
    2
# A cycle ends where it comes back.
graph 3
    0:0 1 0:1
    0:1 2 0:2
    0:2 3 0:0
    0:2 3 0:1
    0:2 4 0:2
path 0 0:0
path 0 0:1
    0:0 1 0:1
path 0 0:2
    0:0 1 0:1
    0:1 2 0:2
count 0
    3
# Over modules: `index.js` requires a package and calls `go`, which calls `slow`.
graph 1 3
    0:0 15 1:0
    0:0 26 1:2
    1:2 70 1:1
path 0 1:1
    0:0 26 1:2
    1:2 70 1:1
path 0 1:0
    0:0 15 1:0
count 0
    4
"#;

#[test]
fn of_two_shortest_walks_the_least_last_edge_decides(rt: HostRuntime) -> Result<(), Fail> {
    graphs_hold(&rt, rt.alloc(), SHORTEST)
}

const SHORTEST: &str = r#"
graph 4
    0:0 5 0:2
    0:0 10 0:1
    0:1 20 0:3
    0:2 30 0:3
path 0 0:3
    0:0 10 0:1
    0:1 20 0:3
# A longer walk over lesser edges is no path.
graph 4
    0:0 1 0:1
    0:1 2 0:2
    0:2 3 0:3
    0:0 9 0:2
path 0 0:3
    0:0 9 0:2
    0:2 3 0:3
# Sites at one offset are told apart.
graph 4
    0:0 5 0:1
    0:0 5 0:2
    0:1 7 0:3
    0:2 7 0:3
path 0 0:1
    0:0 5 0:1
path 0 0:2
    0:0 5 0:2
path 0 0:3
    0:0 5 0:1
    0:1 7 0:3
"#;

// A function of a module, by their numbers.
pub(crate) fn at(module: u32, function: u32) -> FunctionRef {
    FunctionRef { module, function }
}

pub(crate) fn call(
    module: u32,
    function: u32,
    offset: u32,
    to_module: u32,
    to_function: u32,
) -> Edge {
    Edge {
        caller: at(module, function),
        offset,
        callee: at(to_module, to_function),
    }
}

// What `reach` answers, where its conditions hold.
pub(crate) fn reach_of(
    alloc: Global,
    functions: &[u32],
    edges: &[Edge],
    entry: u32,
) -> Result<Reach, Fail> {
    if !ascend(edges) {
        return Err("the edges aren't in order".into());
    }
    if !all_between(functions, edges) {
        return Err("an edge names no function".into());
    }
    if !is_few(functions) {
        return Err("there are too many functions".into());
    }
    let body = FunctionRef {
        module: entry,
        function: 0,
    };
    if !is_function(functions, body) {
        return Err("the entry has no function".into());
    }
    Ok(reach(alloc, functions, edges, entry)?)
}

fn ascend(edges: &[Edge]) -> bool
    ensures { IsTrue result → IsStrictlySortedBy edge_order edges.now }
{
    match edges {
        [] => true,
        [first, later @ ..] => all_behind(first, later) && ascend(later),
    }
}

fn all_behind(first: &Edge, later: &[Edge]) -> bool
    ensures { IsTrue result ↔ All (λ (edge : GhostEdge). edge_order first.now edge ≡ Less) later.now }
{
    later.iter().all(|edge| first.cmp(edge) == Ordering::Less)
}

fn all_between(functions: &[u32], edges: &[Edge]) -> bool
    ensures { IsTrue result ↔ All (IsBetween functions.now) edges.now }
{
    edges.iter().all(|edge| is_between(functions, edge))
}

fn is_between(functions: &[u32], edge: &Edge) -> bool
    ensures { IsTrue result ↔ IsBetween functions.now edge.now }
{
    if !is_function(functions, edge.caller) {
        return false;
    }
    is_function(functions, edge.callee)
}

fn is_function(functions: &[u32], function: FunctionRef) -> bool
    ensures { IsTrue result ↔ IsFunction functions.now function }
{
    let module = function.module as usize;
    if module >= functions.len() {
        return false;
    }
    function.function < functions[module]
}

fn is_few(functions: &[u32]) -> bool
    ensures { IsTrue result → sum functions.now < 2 ^ 32 }
{
    let mut left = u32::MAX;
    for count in functions {
        if *count > left {
            return false;
        }
        left -= *count;
    }
    true
}
