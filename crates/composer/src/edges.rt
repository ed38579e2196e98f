//! The call edges of an application whose system is solved.
ghost use Rattle.std.specs.Prelude.{◌≡◌, ◌++◌, All, Contains, IfOk, OnOk, flat_map};
ghost use Rattle.std.specs.List.Sorted.{IsStrictlySortedBy};
ghost use Rattle.flow_rules.specs.Flows.{require_order};
ghost use Rattle.flow_rules.specs.declared.module.Require.{Require as AnyRequire};
ghost use Rattle.composer.specs.CallEdges as edges;
ghost use Rattle.composer.specs.Numbers.{value_at};
ghost use Rattle.composer.specs.Rows.{row};
ghost use Rattle.composer.specs.Parts.{IsNamed, lists_of};
ghost use Rattle.composer.specs.Solved.{AddsEdges, IsAmong, IsLinkEdge};
ghost use Rattle.composer.specs.Steps.{inputs};

use crate::application::{Link, ModuleVertex, Part, Value};
use crate::system::{CallSite, System};
use flow_rules::Require;
use jam_base::{Edge, FunctionRef, OutOfMemory};
use js_scopes::SiteInfo;
use set_pool::SetPool;
use std::alloc::Global;

/// Adds the edges of the requires that have a link.
pub(crate) fn push_links(
    out: &mut Vec<Edge>,
    parts: &[Part],
    links: &[Link],
) -> Result<(), OutOfMemory>
    requires { All (IsNamed (lists_of parts.now)) links.now }
    ensures { OnOk result (AddsEdges (IsAmong (IsLinkEdge (lists_of parts.now)) links.now) out.old.items out.new.items) }
{
    for link in links {
        push_link(out, parts, link)?;
    }
    Ok(())
}

fn push_link(out: &mut Vec<Edge>, parts: &[Part], link: &Link) -> Result<(), OutOfMemory>
    requires { IsNamed (lists_of parts.now) link.now }
    ensures { OnOk result (AddsEdges (IsLinkEdge (lists_of parts.now) link.now) out.old.items out.new.items) }
{
    let requires_ = parts[link.module as usize].summary.requires_();
    let holder = holder_at(requires_, link.offset);
    out.push(link_edge(link, holder))?;
    Ok(())
}

// The edge of a link whose require this function holds.
fn link_edge(link: &Link, holder: u32) -> Edge
    ensures { result ≡ edges.link_edge link.now holder }
{
    Edge {
        caller: FunctionRef {
            module: link.module,
            function: holder,
        },
        offset: link.offset,
        callee: FunctionRef {
            module: link.target,
            function: 0,
        },
    }
}

// The function that holds the require at the offset.
fn holder_at(requires_: &[Require], offset: u32) -> u32
    requires sorted { IsStrictlySortedBy require_order requires_.now }
    requires stands { (r : AnyRequire) × Contains requires_.now r × (r.offset ≡ offset) }
    ensures { (r : AnyRequire) → Contains requires_.now r → r.offset ≡ offset → result ≡ r.holder }
{
    match requires_.binary_search_by(|r| r.offset.cmp(&offset)) {
        Ok(place) => requires_[place].holder,
        Err(_) => 0,
    }
}

/// Adds the edges of a site of module m, whose vertices have these numbers.
pub(crate) fn push_site(
    alloc: Global,
    out: &mut Vec<Edge>,
    system: &System<ModuleVertex, Value>,
    sets: &SetPool,
    m: u32,
    site: &SiteInfo,
    numbers: &CallSite<u32>,
) -> Result<(), OutOfMemory>
    ensures { OnOk result (out.new.items ≡ out.old.items ++ edges.site_edges system.now sets.now.sets m site.now numbers.now) }
{
    let values = values_at(alloc, sets, numbers.callee)?;
    for value in values.as_slice() {
        push_called(
            alloc,
            out,
            system,
            sets,
            m,
            site,
            numbers,
            value_at(system, *value),
        )?;
    }
    Ok(())
}

fn push_called(
    alloc: Global,
    out: &mut Vec<Edge>,
    system: &System<ModuleVertex, Value>,
    sets: &SetPool,
    m: u32,
    site: &SiteInfo,
    numbers: &CallSite<u32>,
    value: Value,
) -> Result<(), OutOfMemory>
    ensures { OnOk result (out.new.items ≡ out.old.items ++ edges.called_edges system.now sets.now.sets m site.now numbers.now value) }
{
    match value {
        Value::Fun(_) => push_edge(out, m, site, value),
        Value::Native => push_inputs(alloc, out, system, sets, m, site, numbers),
    }
}

fn push_inputs(
    alloc: Global,
    out: &mut Vec<Edge>,
    system: &System<ModuleVertex, Value>,
    sets: &SetPool,
    m: u32,
    site: &SiteInfo,
    numbers: &CallSite<u32>,
) -> Result<(), OutOfMemory>
    ensures { OnOk result (out.new.items ≡ out.old.items ++ flat_map (edges.input_edges system.now sets.now.sets m site.now) (inputs numbers.now)) }
{
    for input in numbers.args.as_slice() {
        push_input(alloc, out, system, sets, m, site, *input)?;
    }
    push_input(alloc, out, system, sets, m, site, numbers.more)
}

fn push_input(
    alloc: Global,
    out: &mut Vec<Edge>,
    system: &System<ModuleVertex, Value>,
    sets: &SetPool,
    m: u32,
    site: &SiteInfo,
    input: u32,
) -> Result<(), OutOfMemory>
    ensures { OnOk result (out.new.items ≡ out.old.items ++ edges.input_edges system.now sets.now.sets m site.now input) }
{
    let values = values_at(alloc, sets, input)?;
    for value in values.as_slice() {
        push_edge(out, m, site, value_at(system, *value))?;
    }
    Ok(())
}

fn push_edge(out: &mut Vec<Edge>, m: u32, site: &SiteInfo, value: Value) -> Result<(), OutOfMemory>
    ensures { OnOk result (out.new.items ≡ out.old.items ++ edges.edges_to m site.now value) }
{
    if let Value::Fun(callee) = value {
        out.push(Edge {
            caller: FunctionRef {
                module: m,
                function: site.holder,
            },
            offset: site.offset,
            callee,
        })?;
    }
    Ok(())
}

// The value of a number.
fn value_at(system: &System<ModuleVertex, Value>, number: u32) -> Value
    ensures { result ≡ value_at system.now number }
{
    match system.functions.as_slice().get(number as usize) {
        Some(callable) => callable.value,
        None => Value::Native,
    }
}

// The values that stand at a vertex.
fn values_at(alloc: Global, sets: &SetPool, vertex: u32) -> Result<Vec<u32>, OutOfMemory>
    ensures { IfOk result (λ values. values.items ≡ row sets.now.sets vertex) }
{
    sets.values(alloc, vertex, 0, sets.len(vertex))
}
