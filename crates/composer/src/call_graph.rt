//! The call graph of an application.
ghost use Rattle.std.specs.Prelude.{◌≡◌, ◌<◌, ◌≤◌, ◌+◌, Bool, length, map, All, Contains, IfOk, OnOk};
ghost use Rattle.composer.specs.Application as application;
ghost use Rattle.composer.specs.Edges.{IsEdgeList};
ghost use Rattle.composer.specs.Graphs.{AreValues, function_count};
ghost use Rattle.composer.specs.Numbered.{Below, IsSiteIn, IsSystemIn, map_site};
ghost use Rattle.composer.specs.Numbers.{value_at, vertex_at};
ghost use Rattle.composer.specs.Parts.{AreByPath, AreLinks, IsNamed, lists_of};
ghost use Rattle.composer.specs.Sizes.{size_limit, size_of};
ghost use Rattle.composer.specs.Uses.{IsWithinUses, TellsSolution, bases_of, uses_of};
ghost use Rattle.composer.specs.declared.application.ModuleVertex.{ModuleVertex as AnyVertex};
ghost use Rattle.composer.specs.declared.application.Value.{Value as AnyValue};
ghost use Rattle.composer.specs.Solved.{AddsEdges, AreNumbered, AreSolved, HasOneNumber, IsEdgeAmong, IsEdgeBelow};

use crate::application::{Link, ModuleVertex, Part, Value};
use crate::build::system_of;
use crate::edges::{push_links, push_site};
use crate::graph::Graph;
use crate::numbers::{MOST, Vertices, numbered};
use crate::system::{CallSite, System};
use crate::worklist::solve;
use jam_base::{Edge, List, OutOfMemory, Steps};
use js_scopes::SiteInfo;
use set_pool::SetPool;
use std::alloc::Global;
use std::sync::ledger::Ledger;

/// The call graph of the parts, where links say which part each require gives. Modules are given by their
/// places. The counter rises by at most one for each value that stands somewhere from the start, and one for
/// each value at each vertex, each way from there and each reason for that way.
pub fn compose<L: Ledger>(
    alloc: Global,
    parts: &[Part],
    links: &[Link],
    steps: &mut Steps<L>,
) -> Result<Graph, OutOfMemory>
    requires paths { AreByPath parts.now }
    requires links { AreLinks (lists_of parts.now) links.now }
    requires size { size_of (lists_of parts.now) < size_limit }
    ensures edges { IfOk result (λ graph. IsEdgeList (lists_of parts.now) links.now graph.edges) }
    ensures functions { IfOk result (λ graph. graph.functions ≡ function_count (lists_of parts.now)) }
    ensures values { IfOk result (λ graph. AreValues (lists_of parts.now) links.now graph.values) }
    ensures work { OnOk result (IsWithinUses (lists_of parts.now) links.now steps.old steps.new) }
{
    let system = system_of(alloc, parts, links)?;
    let vertices = Vertices::of(alloc, &system)?;
    let Solution { sites, sets } = solved(alloc, &system, &vertices, steps)?;
    let edges = edges_of(alloc, &system, &sets, parts, links, sites.as_slice())?;
    let System { functions, .. } = system;
    Ok(Graph::of(edges, functions, vertices, sets))
}

// A solved system: the numbers of its sites, and the sets of what comes to its vertices.
#[derive(Drop)]
struct Solution {
    sites: List<CallSite<u32>>,
    sets: SetPool,
}

// The solution of a system, in numbers.
fn solved<L: Ledger>(
    alloc: Global,
    system: &System<ModuleVertex, Value>,
    vertices: &Vertices,
    steps: &mut Steps<L>,
) -> Result<Solution, OutOfMemory>
    requires members { IsSystemIn (Contains vertices.now) system.now }
    requires native { system.now.native ≡ value_at system.now (length system.now.functions) }
    requires values { HasOneNumber system.now }
    ensures solved { IfOk result (λ s. AreSolved system.now vertices.now s.sets.sets) }
    ensures names { IfOk result (λ s. map (map_site (vertex_at vertices.now)) s.sites ≡ system.now.sites) }
    ensures below { IfOk result (λ s. All (IsSiteIn (Below (length vertices.now))) s.sites) }
    ensures work { OnOk result ((has : AnyValue → AnyVertex → Bool) → TellsSolution system.now has → steps.new ≤ steps.old + uses_of system.now has + bases_of system.now) }
{
    let numbers = numbered(alloc, vertices, system)?;
    let sets = solve(alloc, &numbers, vertices.count(), steps)?;
    let System { sites, .. } = numbers;
    Ok(Solution { sites, sets })
}

// The call edges, in order and each once, where the sites have these numbers.
fn edges_of(
    alloc: Global,
    system: &System<ModuleVertex, Value>,
    sets: &SetPool,
    parts: &[Part],
    links: &[Link],
    numbers: &[CallSite<u32>],
) -> Result<Vec<Edge>, OutOfMemory>
    requires system { system.now ≡ application.system_of (lists_of parts.now) links.now }
    requires numbered { AreNumbered system.now sets.now.sets (application.of_each (lists_of parts.now) (λ m c. map (application.site_of m) c.sites)) numbers.now }
    requires named { All (IsNamed (lists_of parts.now)) links.now }
    ensures { IfOk result (λ edges. IsEdgeList (lists_of parts.now) links.now edges.items) }
{
    let mut edges = Vec::new(alloc);
    push_sites(alloc, &mut edges, system, sets, parts, numbers)?;
    push_links(&mut edges, parts, links)?;
    edges.sort()?;
    edges.dedup();
    Ok(edges)
}

// Adds the edges of all sites, whose vertices have these numbers.
fn push_sites(
    alloc: Global,
    out: &mut Vec<Edge>,
    system: &System<ModuleVertex, Value>,
    sets: &SetPool,
    parts: &[Part],
    numbers: &[CallSite<u32>],
) -> Result<(), OutOfMemory>
    requires { AreNumbered system.now sets.now.sets (application.of_each (lists_of parts.now) (λ m c. map (application.site_of m) c.sites)) numbers.now }
    ensures { OnOk result (AddsEdges (IsEdgeBelow system.now (lists_of parts.now) (length parts.now)) out.old.items out.new.items) }
{
    if parts.len() > MOST {
        return Err(OutOfMemory);
    }
    let mut rest = numbers;
    for m in 0..parts.len() {
        let sites = parts[m].summary.sites();
        let (here, behind) = rest.split_at(sites.len());
        push_sites_of(alloc, out, system, sets, m as u32, sites, here)?;
        rest = behind;
    }
    Ok(())
}

// Adds the edges of the sites of module m.
fn push_sites_of(
    alloc: Global,
    out: &mut Vec<Edge>,
    system: &System<ModuleVertex, Value>,
    sets: &SetPool,
    m: u32,
    sites: &[SiteInfo],
    numbers: &[CallSite<u32>],
) -> Result<(), OutOfMemory>
    requires { AreNumbered system.now sets.now.sets (map (application.site_of m) sites.now) numbers.now }
    ensures { OnOk result (AddsEdges (IsEdgeAmong system.now m sites.now) out.old.items out.new.items) }
{
    for k in 0..sites.len() {
        let site = &sites[k];
        let number = &numbers[k];
        push_site(alloc, out, system, sets, m, site, number)?;
    }
    Ok(())
}
