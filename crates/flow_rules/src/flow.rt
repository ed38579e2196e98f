//! Single flows.
ghost use Rattle.std.specs.Prelude.{◌≡◌, ◌++◌, Some, OnOk};
ghost use Rattle.std.specs.Str.{bytes_eq};
ghost use Rattle.flow_rules.specs.Calls as flows;
ghost use Rattle.flow_rules.specs.Vertices.{vertex_key};

use crate::arguments::Argument;
use crate::{Flow, Vertex};
use jam_base::OutOfMemory;
use std::alloc::Global;

/// Adds the flow between these vertices, where both are there and differ.
pub(crate) fn push_flow_into(
    alloc: Global,
    from: &Option<Vertex>,
    to: Option<Vertex>,
    out: &mut Vec<Flow>,
) -> Result<(), OutOfMemory>
    ensures { OnOk result (out.new.items ≡ out.old.items ++ flows.flow from.now to) }
{
    match to {
        None => Ok(()),
        Some(vertex) => push_flow(alloc, from, vertex, out),
    }
}

/// Adds the flow between these vertices, where the first is there and they differ.
pub(crate) fn push_flow(
    alloc: Global,
    from: &Option<Vertex>,
    to: Vertex,
    out: &mut Vec<Flow>,
) -> Result<(), OutOfMemory>
    ensures { OnOk result (out.new.items ≡ out.old.items ++ flows.flow from.now (Some to)) }
{
    match from {
        None => Ok(()),
        Some(vertex) => push_between(alloc, vertex, to, out),
    }
}

// Adds the flow between these vertices, where they differ.
fn push_between(
    alloc: Global,
    from: &Vertex,
    to: Vertex,
    out: &mut Vec<Flow>,
) -> Result<(), OutOfMemory>
    ensures { OnOk result (out.new.items ≡ out.old.items ++ flows.flow (Some from.now) (Some to)) }
{
    if is_same(from, &to) {
        return Ok(());
    }
    out.push(Flow {
        from: from.copy(alloc)?,
        to,
    })?;
    Ok(())
}

// The vertices are one.
#[tactic(auto, using(crate::proofs::Order::same_key))]
fn is_same(a: &Vertex, b: &Vertex) -> bool
    ensures { result ≡ bytes_eq (vertex_key a.now) (vertex_key b.now) }
{
    a == b
}

/// Adds the flow of what an argument hands over.
pub(crate) fn push_handed(
    alloc: Global,
    argument: &Argument,
    to: Vertex,
    out: &mut Vec<Flow>,
) -> Result<(), OutOfMemory>
    ensures { OnOk result (out.new.items ≡ out.old.items ++ flows.flow (flows.handed_over argument.now) (Some to)) }
{
    match argument {
        Argument::Plain(value) => push_flow(alloc, value, to, out),
        Argument::Spread => push_flow(alloc, &Some(Vertex::Elem), to, out),
    }
}

/// The same of a plain argument alone.
pub(crate) fn push_plain(
    alloc: Global,
    argument: &Argument,
    to: Vertex,
    out: &mut Vec<Flow>,
) -> Result<(), OutOfMemory>
    ensures { OnOk result (out.new.items ≡ out.old.items ++ flows.flow (flows.plain argument.now) (Some to)) }
{
    match argument {
        Argument::Plain(value) => push_flow(alloc, value, to, out),
        Argument::Spread => Ok(()),
    }
}
