//! The call edges of an application, as they are printed.
ghost use Rattle.std.specs.Prelude.{◌≡◌, ◌≤◌, ◌<◌, ◌++◌, ℕ, Bool, [], Option, List, length, map, take, slice_get, None, Some, All, IfErr, IfOk, OnOk};
ghost use Rattle.jam_base.specs.Files.{Files};
ghost use Rattle.jam_app.specs.Graphs as graphs;
ghost use Rattle.composer.specs.Sizes.{size_limit};
ghost use Rattle.jam_app.specs.Loading.{IsAnalysed, IsWhole, loaded_size, module_of};
ghost use Rattle.jam_app.specs.Printing.{AreOfModule, call_in, edge_among, function_among, printed_of, spot_at, spot_of};
ghost use Rattle.jam_app.specs.Entries.{begun};
ghost use Rattle.jam_app.specs.Rounds.{Ascend};
ghost use Rattle.jam_app.specs.Stops.{StopsWide};
ghost use Rattle.report_text.specs.Graph.{graph_text_of};

use crate::Stop;
use crate::answers::printed::{Printed, nowhere};
use crate::loading::links::links_of;
use crate::loading::loaded::Loaded;
use crate::loading::parts::{composed, parts_of};
use crate::loading::text::TEXT_LIMIT;
use composer::Graph;
use jam_base::{Edge, FunctionRef, List, OutOfMemory, Place, Text};
use report_text::{PathStep, Shown, graph_text};
use std::alloc::Global;

/// The call graph of the loaded modules, which go by their paths.
pub(crate) fn printed_edges(alloc: Global, loaded: Vec<Loaded>) -> Result<Text, Stop>
    requires sorted { Ascend (map (λ l. l.path) loaded.items) }
    requires few { length loaded.items ≤ 4294967295 }
    requires analysed { All IsAnalysed loaded.items }
    ensures text { IfOk result (λ text. (entry : Option (List ℕ)) (skip : Bool) (files : Files) (path : List ℕ) → IsWhole (begun entry skip) files path loaded.items → graphs.IsGraphText entry files text) }
    ensures narrow { IfOk result (λ text. loaded_size loaded.items < size_limit) }
    ensures wide { IfErr result (StopsWide (loaded_size loaded.items)) }
{
    let links = links_of(alloc, loaded.as_slice())?;
    let printed = printed_modules(alloc, loaded.as_slice())?;
    let parts = parts_of(alloc, loaded)?;
    let graph = composed(alloc, parts.as_slice(), links.as_slice())?;
    Ok(printed_graph(alloc, printed.as_slice(), &graph)?)
}

// The call graph, as text.
fn printed_graph(alloc: Global, printed: &[Printed], graph: &Graph) -> Result<Text, OutOfMemory>
    ensures { IfOk result (λ text. text ≡ graph_text_of (map (edge_among printed.now) graph.now.edges)) }
{
    let steps = shown_edges(alloc, printed, graph.edges())?;
    graph_text(alloc, &List::of(steps))
}

/// What is printed of the modules.
pub(crate) fn printed_modules(alloc: Global, loaded: &[Loaded]) -> Result<Vec<Printed>, OutOfMemory>
    requires { All IsAnalysed loaded.now }
    ensures { IfOk result (λ printed. printed.items ≡ map printed_of (map module_of loaded.now)) }
{
    let mut printed = Vec::new(alloc);
    for one in loaded {
        printed.push(printed_module(alloc, one)?)?;
    }
    Ok(printed)
}

// What is printed of a module.
fn printed_module(alloc: Global, one: &Loaded) -> Result<Printed, OutOfMemory>
    requires { IsAnalysed one.now }
    ensures { IfOk result (λ printed. printed ≡ printed_of (module_of one.now)) }
{
    let text = place_text(one.text.as_str());
    let functions = one.summary.functions();
    Printed::of(alloc, one.path.as_str(), text, functions)
}

// The text by which places in a module are told.
fn place_text(text: &str) -> &str
    ensures { result.now ≡ graphs.place_text text.now }
{
    if text.len() > TEXT_LIMIT { "" } else { text }
}

/// The edges, as they are printed. Edges of one module that stand together take one walk over its text.
pub(crate) fn shown_edges(
    alloc: Global,
    printed: &[Printed],
    edges: &[Edge],
) -> Result<Vec<PathStep>, OutOfMemory>
    ensures { IfOk result (λ steps. steps.items ≡ map (edge_among printed.now) edges.now) }
{
    let mut steps = Vec::new(alloc);
    let mut rest = edges;
    while let Some(first) = rest.first() {
        let m = first.caller.module;
        let (here, behind) = rest.split_at(run_length(rest, m));
        push_run(alloc, printed, m, here, &mut steps)?;
        rest = behind;
    }
    Ok(steps)
}

/// An edge, as it is printed. It takes a walk over the text of its module.
pub(crate) fn shown_edge(
    alloc: Global,
    printed: &[Printed],
    edge: &Edge,
) -> Result<PathStep, OutOfMemory>
    ensures { IfOk result (λ step. step ≡ edge_among printed.now edge.now) }
{
    let callee = function_of(alloc, printed, edge.callee)?;
    match printed.get(edge.caller.module as usize) {
        None => Ok(stray(alloc, callee)?),
        Some(caller) => call_of(alloc, caller, edge.offset, callee),
    }
}

// How many edges at the front have their caller in module m.
fn run_length(edges: &[Edge], m: u32) -> usize
    ensures within { result ≤ length edges.now }
    ensures run { AreOfModule m (take result edges.now) }
    ensures some { (first : Edge) → slice_get edges.now 0 ≡ Some first → first.caller.module ≡ m → 0 < result }
{
    let mut count = 0;
    while count < edges.len() && edges[count].caller.module == m {
        count += 1;
    }
    count
}

// Adds edges whose callers are in module m.
fn push_run(
    alloc: Global,
    printed: &[Printed],
    m: u32,
    edges: &[Edge],
    steps: &mut Vec<PathStep>,
) -> Result<(), OutOfMemory>
    requires { AreOfModule m edges.now }
    ensures { OnOk result (steps.new.items ≡ steps.old.items ++ map (edge_among printed.now) edges.now) }
{
    match printed.get(m as usize) {
        None => push_stray(alloc, printed, edges, steps),
        Some(module) => {
            let offsets = offsets_of(alloc, edges)?;
            let places = module.places(alloc, offsets.as_slice())?;
            push_calls(alloc, printed, module, edges, places.as_slice(), steps)
        }
    }
}

// Adds edges whose caller's module isn't there.
fn push_stray(
    alloc: Global,
    printed: &[Printed],
    edges: &[Edge],
    steps: &mut Vec<PathStep>,
) -> Result<(), OutOfMemory>
    requires { All (λ edge. slice_get printed.now edge.caller.module ≡ None) edges.now }
    ensures { OnOk result (steps.new.items ≡ steps.old.items ++ map (edge_among printed.now) edges.now) }
{
    for edge in edges {
        let callee = function_of(alloc, printed, edge.callee)?;
        steps.push(stray(alloc, callee)?)?;
    }
    Ok(())
}

// A call of this function in a module that isn't there.
fn stray(alloc: Global, callee: Shown) -> Result<PathStep, OutOfMemory>
    ensures { IfOk result (λ step. step ≡ record { path = []; line = 1; column = 1; callee = callee }) }
{
    Ok(PathStep {
        path: Text::of(alloc, "")?,
        line: 1,
        column: 1,
        callee,
    })
}

// A call of this function at the offset, as it is printed.
fn call_of(
    alloc: Global,
    caller: &Printed,
    offset: u32,
    callee: Shown,
) -> Result<PathStep, OutOfMemory>
    ensures { IfOk result (λ step. step ≡ call_in offset callee caller.now) }
{
    let place = caller.place(offset);
    call_at(alloc, caller, &place, callee)
}

// The offsets of the edges.
fn offsets_of(alloc: Global, edges: &[Edge]) -> Result<Vec<u32>, OutOfMemory>
    ensures { IfOk result (λ offsets. offsets.items ≡ map (λ edge. edge.offset) edges.now) }
{
    let mut offsets = Vec::new(alloc);
    for edge in edges {
        offsets.push(edge.offset)?;
    }
    Ok(offsets)
}

// Adds edges whose callers are in this module, where these are their places.
fn push_calls(
    alloc: Global,
    printed: &[Printed],
    caller: &Printed,
    edges: &[Edge],
    places: &[Place],
    steps: &mut Vec<PathStep>,
) -> Result<(), OutOfMemory>
    requires places { map spot_of places.now ≡ map (λ (edge : Edge). spot_at caller.now.text edge.offset) edges.now }
    requires callers { All (λ edge. slice_get printed.now edge.caller.module ≡ Some caller.now) edges.now }
    ensures { OnOk result (steps.new.items ≡ steps.old.items ++ map (edge_among printed.now) edges.now) }
{
    for i in 0..edges.len() {
        let edge = &edges[i];
        let place = &places[i];
        let callee = function_of(alloc, printed, edge.callee)?;
        steps.push(call_at(alloc, caller, place, callee)?)?;
    }
    Ok(())
}

// A call at the place, as it is printed.
fn call_at(
    alloc: Global,
    caller: &Printed,
    place: &Place,
    callee: Shown,
) -> Result<PathStep, OutOfMemory>
    ensures { (offset : ℕ) → spot_of place.now ≡ spot_at caller.now.text offset → IfOk result (λ step. step ≡ call_in offset callee caller.now) }
{
    Ok(PathStep {
        path: Text::of(alloc, caller.path())?,
        line: place.line,
        column: place.column,
        callee,
    })
}

/// The function, as it is printed.
pub(crate) fn function_of(
    alloc: Global,
    printed: &[Printed],
    function: FunctionRef,
) -> Result<Shown, OutOfMemory>
    ensures { IfOk result (λ shown. shown ≡ function_among printed.now function) }
{
    match printed.get(function.module as usize) {
        None => Ok(nowhere(alloc)),
        Some(module) => module.function(alloc, function.function),
    }
}
