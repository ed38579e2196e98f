//! Copies of the lists of a module.
ghost use Rattle.std.specs.Prelude.{◌≡◌, IfOk};

use crate::{Flow, Require};
use jam_base::{List, OutOfMemory};
use js_scopes::FunctionInfo;
use std::alloc::Global;

/// A list equal to these functions.
pub(crate) fn copied_functions(
    alloc: Global,
    functions: &[FunctionInfo],
) -> Result<List<FunctionInfo>, OutOfMemory>
    ensures { IfOk result (λ made. made ≡ functions.now) }
{
    let mut out = Vec::new(alloc);
    for info in functions {
        out.push(copied_function(alloc, info)?)?;
    }
    Ok(List::of(out))
}

fn copied_function(alloc: Global, info: &FunctionInfo) -> Result<FunctionInfo, OutOfMemory>
    ensures { IfOk result (λ made. made ≡ info.now) }
{
    Ok(FunctionInfo {
        start: info.start,
        params: info.params,
        name: info.name.copy(alloc)?,
    })
}

/// A list equal to these requires.
pub(crate) fn copied_requires(
    alloc: Global,
    requires_: &[Require],
) -> Result<List<Require>, OutOfMemory>
    ensures { IfOk result (λ made. made ≡ requires_.now) }
{
    let mut out = Vec::new(alloc);
    for one in requires_ {
        out.push(copied_require(alloc, one)?)?;
    }
    Ok(List::of(out))
}

fn copied_require(alloc: Global, one: &Require) -> Result<Require, OutOfMemory>
    ensures { IfOk result (λ made. made ≡ one.now) }
{
    Ok(Require {
        offset: one.offset,
        spec: one.spec.copy(alloc)?,
        holder: one.holder,
    })
}

/// A list equal to these flows.
pub(crate) fn copied_flows(alloc: Global, flows: &[Flow]) -> Result<List<Flow>, OutOfMemory>
    ensures { IfOk result (λ made. made ≡ flows.now) }
{
    let mut out = Vec::new(alloc);
    for flow in flows {
        out.push(copied_flow(alloc, flow)?)?;
    }
    Ok(List::of(out))
}

fn copied_flow(alloc: Global, flow: &Flow) -> Result<Flow, OutOfMemory>
    ensures { IfOk result (λ made. made ≡ flow.now) }
{
    Ok(Flow {
        from: flow.from.copy(alloc)?,
        to: flow.to.copy(alloc)?,
    })
}
