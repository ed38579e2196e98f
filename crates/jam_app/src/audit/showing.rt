//! The alarms of a report, as they are printed.
ghost use Rattle.std.specs.Prelude.{◌≡◌, [], All, IfOk, map, unwrap_or};
ghost use Rattle.reach_path.specs.Reached.{path_to as path_of};
ghost use Rattle.jam_app.specs.Printing.{edge_among};
ghost use Rattle.jam_app.specs.Showing.{IsInLists, shown_found};

use crate::answers::edges::{function_of, shown_edge, shown_edges};
use crate::answers::printed::{Printed, copied_step};
use advisory_reader::Advisory;
use alarms::Found;
use jam_base::{Edge, FunctionRef, List, OutOfMemory, Text};
use lock_reader::{Lock, LockEntry};
use reach_path::Reach;
use report_text::{Alarm, PathStep};
use std::alloc::Global;

/// What alarms are shown by: the lists whose items they name, and the call edges.
#[derive(Drop)]
pub(crate) struct Sources<'s> {
    pub(crate) lock: &'s Lock,
    pub(crate) advisories: &'s [Advisory],
    pub(crate) printed: &'s [Printed],
    pub(crate) edges: &'s [Edge],
    pub(crate) reach: &'s Reach,
}

/// The alarms, as they are printed.
pub(crate) fn shown_alarms(
    alloc: Global,
    sources: &Sources<'_>,
    found: &[Found],
) -> Result<Vec<Alarm>, OutOfMemory>
    requires { All (IsInLists sources.now.lock.now.entries sources.now.advisories.now) found.now }
    ensures { IfOk result (λ alarms. alarms.items ≡ map (shown_found sources.now) found.now) }
{
    let mut alarms = Vec::new(alloc);
    if found.is_empty() {
        return Ok(alarms);
    }
    let steps = shown_edges(alloc, sources.printed, sources.edges)?;
    for one in found {
        alarms.push(shown_alarm(alloc, sources, steps.as_slice(), one)?)?;
    }
    Ok(alarms)
}

// An alarm, as it is printed, where these are the call edges as they are.
fn shown_alarm(
    alloc: Global,
    sources: &Sources<'_>,
    steps: &[PathStep],
    found: &Found,
) -> Result<Alarm, OutOfMemory>
    requires there { IsInLists sources.now.lock.now.entries sources.now.advisories.now found.now }
    requires steps { steps.now ≡ map (edge_among sources.now.printed.now) sources.now.edges.now }
    ensures { IfOk result (λ alarm. alarm ≡ shown_found sources.now found.now) }
{
    let advisory = &sources.advisories[found.advisory as usize];
    let entry = &sources.lock.entries.as_slice()[found.entry as usize];
    let path = path_to(alloc, sources, steps, found.function)?;
    Ok(Alarm {
        id: advisory.id.copy(alloc)?,
        package: advisory.package.copy(alloc)?,
        version: version_text(alloc, entry)?,
        function: function_of(alloc, sources.printed, found.function)?,
        path: List::of(path),
    })
}

// The path to a function, as it is printed; none where it isn't reachable.
fn path_to(
    alloc: Global,
    sources: &Sources<'_>,
    steps: &[PathStep],
    function: FunctionRef,
) -> Result<Vec<PathStep>, OutOfMemory>
    requires { steps.now ≡ map (edge_among sources.now.printed.now) sources.now.edges.now }
    ensures { IfOk result (λ shown. shown.items ≡ map (edge_among sources.now.printed.now) (unwrap_or (path_of sources.now.reach.now function) [])) }
{
    match sources.reach.path(alloc, function)? {
        Some(path) => shown_path(alloc, sources, steps, path.as_slice()),
        None => Ok(Vec::new(alloc)),
    }
}

// The version of an installed package that has one.
fn version_text(alloc: Global, entry: &LockEntry) -> Result<Text, OutOfMemory>
    ensures { IfOk result (λ text. text ≡ unwrap_or entry.now.version []) }
{
    match &entry.version {
        Some(version) => version.copy(alloc),
        None => Text::of(alloc, ""),
    }
}

// The edges of a path, as they are printed.
fn shown_path(
    alloc: Global,
    sources: &Sources<'_>,
    steps: &[PathStep],
    path: &[Edge],
) -> Result<Vec<PathStep>, OutOfMemory>
    requires { steps.now ≡ map (edge_among sources.now.printed.now) sources.now.edges.now }
    ensures { IfOk result (λ shown. shown.items ≡ map (edge_among sources.now.printed.now) path.now) }
{
    let mut shown = Vec::new(alloc);
    for edge in path {
        shown.push(step_of(alloc, sources, steps, edge)?)?;
    }
    Ok(shown)
}

// A call edge, as it is printed. It is found among all that were printed; a single one costs a walk over
// the text of its module.
fn step_of(
    alloc: Global,
    sources: &Sources<'_>,
    steps: &[PathStep],
    edge: &Edge,
) -> Result<PathStep, OutOfMemory>
    requires { steps.now ≡ map (edge_among sources.now.printed.now) sources.now.edges.now }
    ensures { IfOk result (λ step. step ≡ edge_among sources.now.printed.now edge.now) }
{
    match sources.edges.binary_search(edge) {
        Ok(place) => copied_step(alloc, &steps[place]),
        Err(_) => shown_edge(alloc, sources.printed, edge),
    }
}
