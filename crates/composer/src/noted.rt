//! The ways that a value makes where it comes to a vertex.
ghost use Rattle.std.specs.Prelude.{◌≡◌, ◌≤◌, ◌++◌, [], ℕ, length, flat_map, cond, nat_eq, slice_get, slice_index, None, OnOk};
ghost use Rattle.composer.specs.Rows.{row};
ghost use Rattle.composer.specs.Steps.{call_arrows, callback_arrows, inputs, into_params, receivers, to_each};
ghost use Rattle.composer.specs.Ways.{called_ways, callback_ways, input_ways, ways_at_callee};
ghost use Rattle.composer.specs.Work.{AreThere, callee_ways, flag, input_ways_of, noted_of, ways_at_input};

use crate::system::{Arrow, CallSite, Callable, System};
use jam_base::OutOfMemory;
use set_pool::SetPool;
use std::alloc::Global;

pub(crate) type Ways = Vec<Arrow<u32>>;

/// How many of its values are noted at one vertex. At the others it is as many as were carried.
#[derive(Clone, Copy, Debug, Drop)]
pub(crate) struct Noted {
    pub(crate) vertex: u32,
    pub(crate) count: u32,
}

/// Adds the ways that a value makes where it comes to the callees of these sites.
pub(crate) fn push_at_callees(
    alloc: Global,
    ways: &mut Ways,
    system: &System<u32, u32>,
    sets: &SetPool,
    carried: &[u32],
    noted: Noted,
    callers: &[u32],
    value: u32,
) -> Result<(), OutOfMemory>
    requires { AreThere sets.now.sets carried.now noted.vertex noted.count }
    ensures { OnOk result (ways.new.items ≡ ways.old.items ++ callee_ways system.now (noted_of sets.now.sets carried.now noted.vertex noted.count) callers.now value) }
{
    for site in callers {
        push_at_callee(alloc, ways, system, sets, carried, noted, *site, value)?;
    }
    Ok(())
}

fn push_at_callee(
    alloc: Global,
    ways: &mut Ways,
    system: &System<u32, u32>,
    sets: &SetPool,
    carried: &[u32],
    noted: Noted,
    site: u32,
    value: u32,
) -> Result<(), OutOfMemory>
    requires { AreThere sets.now.sets carried.now noted.vertex noted.count }
    ensures { OnOk result (ways.new.items ≡ ways.old.items ++ ways_at_callee system.now (noted_of sets.now.sets carried.now noted.vertex noted.count) value (slice_get system.now.sites site)) }
{
    match system.sites.as_slice().get(site as usize) {
        Some(site) => push_called(alloc, ways, system, sets, carried, noted, site, value),
        None => Ok(()),
    }
}

// The ways by which a site calls a value.
fn push_called(
    alloc: Global,
    ways: &mut Ways,
    system: &System<u32, u32>,
    sets: &SetPool,
    carried: &[u32],
    noted: Noted,
    site: &CallSite<u32>,
    value: u32,
) -> Result<(), OutOfMemory>
    requires { AreThere sets.now.sets carried.now noted.vertex noted.count }
    ensures { OnOk result (ways.new.items ≡ ways.old.items ++ called_ways system.now (noted_of sets.now.sets carried.now noted.vertex noted.count) site.now (slice_get system.now.functions value)) }
{
    match system.functions.as_slice().get(value as usize) {
        Some(callable) => push_call(ways, site, callable),
        None => push_native(alloc, ways, system, sets, carried, noted, site),
    }
}

// The ways by which a site calls a function.
fn push_call(
    ways: &mut Ways,
    site: &CallSite<u32>,
    callable: &Callable<u32, u32>,
) -> Result<(), OutOfMemory>
    ensures { OnOk result (ways.new.items ≡ ways.old.items ++ call_arrows site.now callable.now) }
{
    push_into_params(
        ways,
        site.args.as_slice(),
        callable.params.as_slice(),
        callable.rest,
    )?;
    push_to_receivers(ways, site.more, callable)?;
    ways.push(Arrow {
        from: callable.ret,
        to: site.res,
    })?;
    Ok(())
}

// The ways by which a site calls a native, and the native what it is handed.
fn push_native(
    alloc: Global,
    ways: &mut Ways,
    system: &System<u32, u32>,
    sets: &SetPool,
    carried: &[u32],
    noted: Noted,
    site: &CallSite<u32>,
) -> Result<(), OutOfMemory>
    requires { AreThere sets.now.sets carried.now noted.vertex noted.count }
    ensures { OnOk result (ways.new.items ≡ ways.old.items ++ called_ways system.now (noted_of sets.now.sets carried.now noted.vertex noted.count) site.now None) }
{
    ways.push(Arrow {
        from: site.recv,
        to: site.res,
    })?;
    push_inputs(alloc, ways, system, sets, carried, noted, site)?;
    push_input(alloc, ways, system, sets, carried, noted, site, site.more)
}

fn push_inputs(
    alloc: Global,
    ways: &mut Ways,
    system: &System<u32, u32>,
    sets: &SetPool,
    carried: &[u32],
    noted: Noted,
    site: &CallSite<u32>,
) -> Result<(), OutOfMemory>
    requires { AreThere sets.now.sets carried.now noted.vertex noted.count }
    ensures { OnOk result (ways.new.items ≡ ways.old.items ++ flat_map (input_ways system.now (noted_of sets.now.sets carried.now noted.vertex noted.count) site.now) site.now.args) }
{
    for input in site.args.as_slice() {
        push_input(alloc, ways, system, sets, carried, noted, site, *input)?;
    }
    Ok(())
}

// The ways of the functions that are handed over at one input.
fn push_input(
    alloc: Global,
    ways: &mut Ways,
    system: &System<u32, u32>,
    sets: &SetPool,
    carried: &[u32],
    noted: Noted,
    site: &CallSite<u32>,
    input: u32,
) -> Result<(), OutOfMemory>
    requires { AreThere sets.now.sets carried.now noted.vertex noted.count }
    ensures { OnOk result (ways.new.items ≡ ways.old.items ++ input_ways system.now (noted_of sets.now.sets carried.now noted.vertex noted.count) site.now input) }
{
    let values = sets.values(alloc, input, 0, count_at(carried, noted, input))?;
    for value in values.as_slice() {
        push_callback(ways, system, site, *value)?;
    }
    Ok(())
}

// How many values of a vertex are noted.
fn count_at(carried: &[u32], noted: Noted, vertex: u32) -> u32
    ensures { result ≡ cond (nat_eq vertex noted.vertex) noted.count (slice_index carried.now vertex) }
{
    if vertex == noted.vertex {
        return noted.count;
    }
    match carried.get(vertex as usize) {
        Some(count) => *count,
        None => 0,
    }
}

/// Adds the ways that a value makes where it comes to the inputs of these sites.
pub(crate) fn push_at_inputs(
    ways: &mut Ways,
    system: &System<u32, u32>,
    natives: &[bool],
    takers: &[u32],
    value: u32,
) -> Result<(), OutOfMemory>
    ensures { OnOk result (ways.new.items ≡ ways.old.items ++ input_ways_of system.now natives.now takers.now value) }
{
    for site in takers {
        push_at_input(ways, system, natives, *site, value)?;
    }
    Ok(())
}

fn push_at_input(
    ways: &mut Ways,
    system: &System<u32, u32>,
    natives: &[bool],
    site: u32,
    value: u32,
) -> Result<(), OutOfMemory>
    ensures { OnOk result (ways.new.items ≡ ways.old.items ++ ways_at_input system.now natives.now value (slice_get system.now.sites site)) }
{
    match system.sites.as_slice().get(site as usize) {
        Some(site) => push_if_native(ways, system, natives, site, value),
        None => Ok(()),
    }
}

fn push_if_native(
    ways: &mut Ways,
    system: &System<u32, u32>,
    natives: &[bool],
    site: &CallSite<u32>,
    value: u32,
) -> Result<(), OutOfMemory>
    ensures { OnOk result (ways.new.items ≡ ways.old.items ++ cond (flag natives.now site.now.callee) (callback_ways system.now.elem site.now (slice_get system.now.functions value)) []) }
{
    if has_native(natives, site.callee) {
        return push_callback(ways, system, site, value);
    }
    Ok(())
}

// Whether a native is noted at the vertex.
fn has_native(natives: &[bool], vertex: u32) -> bool
    ensures { result ≡ flag natives.now vertex }
{
    match natives.get(vertex as usize) {
        Some(told) => *told,
        None => false,
    }
}

fn push_callback(
    ways: &mut Ways,
    system: &System<u32, u32>,
    site: &CallSite<u32>,
    value: u32,
) -> Result<(), OutOfMemory>
    ensures { OnOk result (ways.new.items ≡ ways.old.items ++ callback_ways system.now.elem site.now (slice_get system.now.functions value)) }
{
    match system.functions.as_slice().get(value as usize) {
        Some(callable) => push_called_back(ways, system.elem, site, callable),
        None => Ok(()),
    }
}

// The ways by which a native calls a function.
fn push_called_back(
    ways: &mut Ways,
    elem: u32,
    site: &CallSite<u32>,
    callable: &Callable<u32, u32>,
) -> Result<(), OutOfMemory>
    ensures { OnOk result (ways.new.items ≡ ways.old.items ++ callback_arrows elem site.now callable.now) }
{
    push_to_receivers(ways, site.recv, callable)?;
    push_to_receivers(ways, elem, callable)?;
    ways.push(Arrow {
        from: callable.ret,
        to: site.res,
    })?;
    Ok(())
}

// Each argument goes to its parameter, and those past the parameters to the rest.
fn push_into_params(
    ways: &mut Ways,
    args: &[u32],
    params: &[u32],
    rest: u32,
) -> Result<(), OutOfMemory>
    ensures { OnOk result (ways.new.items ≡ ways.old.items ++ into_params args.now params.now rest) }
{
    let mut sources = args;
    let mut targets = params;
    while let [from, later @ ..] = sources {
        let mut to = rest;
        if let [param, others @ ..] = targets {
            to = *param;
            targets = others;
        }
        ways.push(Arrow { from: *from, to })?;
        sources = later;
    }
    Ok(())
}

fn push_to_receivers(
    ways: &mut Ways,
    from: u32,
    callable: &Callable<u32, u32>,
) -> Result<(), OutOfMemory>
    ensures { OnOk result (ways.new.items ≡ ways.old.items ++ to_each from (receivers callable.now)) }
{
    push_to_each(ways, from, callable.params.as_slice())?;
    ways.push(Arrow {
        from,
        to: callable.rest,
    })?;
    Ok(())
}

fn push_to_each(ways: &mut Ways, from: u32, vertices: &[u32]) -> Result<(), OutOfMemory>
    ensures { OnOk result (ways.new.items ≡ ways.old.items ++ to_each from vertices.now) }
{
    for to in vertices {
        ways.push(Arrow { from, to: *to })?;
    }
    Ok(())
}
