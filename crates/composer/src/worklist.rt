//! The least solution of a numbered system, by a worklist.
ghost use Rattle.std.specs.Prelude.{◌≡◌, ◌<◌, ◌≤◌, ◌+◌, ◌++◌, ◌||◌, ◌&&◌, ◌∷◌, [], ℕ, List, length, drop, nat_eq, slice_index, Contains, IfOk, OnOk};
ghost use Rattle.std.specs.List.{IsDistinct};
ghost use Rattle.composer.specs.Numbered.{Below, HasValues, IsSystemIn};
ghost use Rattle.composer.specs.Rows.{IsSolution, row};
ghost use Rattle.composer.specs.Solution.{InSolution, Reason};
ghost use Rattle.composer.specs.Uses.{bases_of};
ghost use Rattle.composer.specs.Work as work;
ghost use Rattle.composer.specs.Work.{Adds, Keeps, Notes, Rests, first_of, flag, left, spent, targets_from, work_of};
ghost use Rattle.composer.specs.declared.system.Arrow.{Arrow as AnyArrow};

use crate::carry::{carry, carry_to_each, place_bases};
use crate::noted::{Noted, push_at_callees, push_at_inputs};
use crate::places::{callee_places, input_places};
use crate::system::{Arrow, System};
use crate::targets::{Targets, targets_of};
use jam_base::{OutOfMemory, Steps};
use set_pool::SetPool;
use std::alloc::Global;
use std::sync::ledger::Ledger;

/// What was found so far.
#[derive(Drop)]
struct State {
    sets: SetPool,
    // Where the ways from each vertex lead.
    outs: Targets,
    // How many values of each vertex were carried over the ways from it.
    carried: Vec<u32>,
    // At which vertices a native was noted.
    natives: Vec<bool>,
    // The vertices that have values which weren't carried.
    pending: Vec<u32>,
}

/// The least solution of a system whose vertices are the numbers below `count`, and whose values are the
/// places of its functions. Each value is carried once over each way from where it stands, whichever was
/// found first.
pub(crate) fn solve<L: Ledger>(
    alloc: Global,
    system: &System<u32, u32>,
    count: u32,
    steps: &mut Steps<L>,
) -> Result<SetPool, OutOfMemory>
    requires vertices { IsSystemIn (Below count) system.now }
    requires values { HasValues system.now }
    requires few { system.now.native < 4294967295 }
    ensures solution { IfOk result (λ sets. IsSolution system.now sets.sets) }
    ensures distinct { IfOk result (λ sets. (v : ℕ) → IsDistinct nat_eq (row sets.sets v)) }
    ensures work { IfOk result (λ sets. steps.new ≡ steps.old + bases_of system.now + work_of system.now (row sets.sets)) }
{
    let callees = callee_places(alloc, system.sites.as_slice())?;
    let inputs = input_places(alloc, system.sites.as_slice())?;
    let callers = targets_of(alloc, callees.as_slice(), count)?;
    let takers = targets_of(alloc, inputs.as_slice(), count)?;
    let mut state = begin(alloc, system, count, steps)?;
    while let Some(vertex) = state.pending.pop() {
        let callers = callers.of(vertex);
        let takers = takers.of(vertex);
        advance(alloc, system, callers, takers, &mut state, vertex, steps)?;
    }
    let State { sets, .. } = state;
    Ok(sets)
}

// The state in which each value stands where it stands from the start, and nothing was carried.
fn begin<L: Ledger>(
    alloc: Global,
    system: &System<u32, u32>,
    count: u32,
    steps: &mut Steps<L>,
) -> Result<State, OutOfMemory>
    requires vertices { IsSystemIn (Below count) system.now }
    requires values { HasValues system.now }
    requires few { system.now.native < 4294967295 }
    ensures count { IfOk result (λ state. length state.outs ≡ count) }
    ensures rests { IfOk result (λ state. Rests system.now count state.sets.sets state.outs state.carried.items state.pending.items state.natives.items) }
    ensures nothing { IfOk result (λ state. spent count state.carried.items state.outs ≡ 0) }
    ensures steps { OnOk result (steps.new ≡ steps.old + bases_of system.now) }
{
    let mut sets = SetPool::new(alloc, count)?;
    let mut pending = Vec::new(alloc);
    place_bases(&mut sets, &mut pending, system, steps)?;
    let outs = targets_of(alloc, system.flows.as_slice(), count)?;
    let mut carried = Vec::new(alloc);
    carried.resize(count as usize, 0)?;
    let mut natives = Vec::new(alloc);
    natives.resize(count as usize, false)?;
    Ok(State {
        sets,
        outs,
        carried,
        natives,
        pending,
    })
}

// Takes up the values of a vertex that weren't carried yet: carries them over all ways from there, and then
// notes what ways they make.
fn advance<L: Ledger>(
    alloc: Global,
    system: &System<u32, u32>,
    callers: &[u32],
    takers: &[u32],
    state: &mut State,
    vertex: u32,
    steps: &mut Steps<L>,
) -> Result<(), OutOfMemory>
    requires inside { IsSystemIn (Below (length state.old.outs)) system.now }
    requires values { HasValues system.now }
    requires few { system.now.native < 4294967295 }
    requires callers { callers.now ≡ targets_from vertex (work.callee_places 0 system.now.sites) }
    requires takers { takers.now ≡ targets_from vertex (work.input_places 0 system.now.sites) }
    requires rests { Rests system.now (length state.old.outs) state.old.sets.sets state.old.outs state.old.carried.items (state.old.pending.items ++ vertex ∷ []) state.old.natives.items }
    ensures rests { OnOk result (Rests system.now (length state.old.outs) state.new.sets.sets state.new.outs state.new.carried.items state.new.pending.items state.new.natives.items) }
    ensures spent { OnOk result (steps.new + spent (length state.old.outs) state.old.carried.items state.old.outs ≡ steps.old + spent (length state.old.outs) state.new.carried.items state.new.outs) }
    ensures left { OnOk result (left (length state.old.outs) (system.now.native + 1) state.new.sets.sets state.new.pending.items ≤ left (length state.old.outs) (system.now.native + 1) state.old.sets.sets state.old.pending.items) }
{
    let from = state.carried[vertex as usize];
    let to = state.sets.len(vertex);
    let values = state.sets.values(alloc, vertex, from, to)?;
    carry_to_each(
        &mut state.sets,
        &mut state.pending,
        steps,
        values.as_slice(),
        state.outs.of(vertex),
    )?;
    state.carried[vertex as usize] = to;
    note_each(
        alloc,
        system,
        callers,
        takers,
        state,
        Noted {
            vertex,
            count: from,
        },
        values.as_slice(),
        steps,
    )?;
    Ok(())
}

// Notes the values of a vertex that stand behind those that are noted there.
fn note_each<L: Ledger>(
    alloc: Global,
    system: &System<u32, u32>,
    callers: &[u32],
    takers: &[u32],
    state: &mut State,
    noted: Noted,
    values: &[u32],
    steps: &mut Steps<L>,
) -> Result<(), OutOfMemory>
    requires inside { IsSystemIn (Below (length state.old.outs)) system.now }
    requires values { HasValues system.now }
    requires few { system.now.native < 4294967295 }
    requires callers { callers.now ≡ targets_from noted.vertex (work.callee_places 0 system.now.sites) }
    requires takers { takers.now ≡ targets_from noted.vertex (work.input_places 0 system.now.sites) }
    requires notes { Notes system.now (length state.old.outs) state.old.sets.sets state.old.outs state.old.carried.items state.old.pending.items state.old.natives.items noted.vertex noted.count }
    requires next { values.now ≡ drop noted.count (first_of state.old.sets.sets state.old.carried.items noted.vertex) }
    ensures rests { OnOk result (Rests system.now (length state.old.outs) state.new.sets.sets state.new.outs state.new.carried.items state.new.pending.items state.new.natives.items) }
    ensures same { OnOk result (state.new.carried.items ≡ state.old.carried.items) }
    ensures spent { OnOk result (steps.new + spent (length state.old.outs) state.old.carried.items state.old.outs ≡ steps.old + spent (length state.old.outs) state.old.carried.items state.new.outs) }
    ensures left { OnOk result (left (length state.old.outs) (system.now.native + 1) state.new.sets.sets state.new.pending.items ≤ left (length state.old.outs) (system.now.native + 1) state.old.sets.sets state.old.pending.items) }
{
    let mut noted = noted;
    for value in values {
        note(alloc, system, callers, takers, state, noted, *value, steps)?;
        noted.count += 1;
    }
    Ok(())
}

// Notes that a value stands at a vertex behind those that are noted there: finds the ways that it makes,
// and carries over them what was carried from where they come.
fn note<L: Ledger>(
    alloc: Global,
    system: &System<u32, u32>,
    callers: &[u32],
    takers: &[u32],
    state: &mut State,
    noted: Noted,
    value: u32,
    steps: &mut Steps<L>,
) -> Result<(), OutOfMemory>
    requires inside { IsSystemIn (Below (length state.old.outs)) system.now }
    requires values { HasValues system.now }
    requires few { system.now.native < 4294967295 }
    requires callers { callers.now ≡ targets_from noted.vertex (work.callee_places 0 system.now.sites) }
    requires takers { takers.now ≡ targets_from noted.vertex (work.input_places 0 system.now.sites) }
    requires notes { Notes system.now (length state.old.outs) state.old.sets.sets state.old.outs state.old.carried.items state.old.pending.items state.old.natives.items noted.vertex noted.count }
    requires less { noted.count < slice_index state.old.carried.items noted.vertex }
    requires next { slice_index (row state.old.sets.sets noted.vertex) noted.count ≡ value }
    ensures notes { OnOk result (Notes system.now (length state.old.outs) state.new.sets.sets state.new.outs state.new.carried.items state.new.pending.items state.new.natives.items noted.vertex (noted.count + 1)) }
    ensures same { OnOk result (state.new.carried.items ≡ state.old.carried.items) }
    ensures extends { OnOk result ((v : ℕ) → (more : List ℕ) × (row state.new.sets.sets v ≡ row state.old.sets.sets v ++ more)) }
    ensures same_length { OnOk result (length state.new.outs ≡ length state.old.outs) }
    ensures spent { OnOk result (steps.new + spent (length state.old.outs) state.old.carried.items state.old.outs ≡ steps.old + spent (length state.old.outs) state.old.carried.items state.new.outs) }
    ensures left { OnOk result (left (length state.old.outs) (system.now.native + 1) state.new.sets.sets state.new.pending.items ≤ left (length state.old.outs) (system.now.native + 1) state.old.sets.sets state.old.pending.items) }
{
    let mut ways = Vec::new(alloc);
    push_at_callees(
        alloc,
        &mut ways,
        system,
        &state.sets,
        state.carried.as_slice(),
        noted,
        callers,
        value,
    )?;
    push_at_inputs(&mut ways, system, state.natives.as_slice(), takers, value)?;
    tell(&mut state.natives, noted.vertex, value == system.native);
    add_ways(alloc, system, state, ways.as_slice(), steps)?;
    Ok(())
}

// Notes whether a native stands at a vertex.
fn tell(natives: &mut Vec<bool>, vertex: u32, is_native: bool)
    requires { vertex < length natives.old.items }
    ensures count { length natives.new.items ≡ length natives.old.items }
    ensures told { (v : ℕ) → flag natives.new.items v ≡ (flag natives.old.items v || (nat_eq v vertex && is_native)) }
{
    if is_native {
        natives[vertex as usize] = true;
    }
}

// Adds ways, and carries over them what was carried from where they come.
fn add_ways<L: Ledger>(
    alloc: Global,
    system: &System<u32, u32>,
    state: &mut State,
    ways: &[Arrow<u32>],
    steps: &mut Steps<L>,
) -> Result<(), OutOfMemory>
    requires inside { IsSystemIn (Below (length state.old.outs)) system.now }
    requires values { HasValues system.now }
    requires few { system.now.native < 4294967295 }
    requires sound { (way : AnyArrow ℕ) → Contains ways.now way → Reason system.now (InSolution system.now) way }
    requires keeps { (found : List (AnyArrow ℕ)) × Keeps system.now (length state.old.outs) found state.old.sets.sets state.old.outs state.old.carried.items state.old.pending.items }
    ensures adds { OnOk result (Adds system.now (length state.old.outs) ways.now state.old.carried.items state.old.sets.sets state.old.outs state.old.pending.items state.new.sets.sets state.new.outs state.new.pending.items) }
    ensures carried { OnOk result (state.new.carried.items ≡ state.old.carried.items) }
    ensures natives { OnOk result (state.new.natives.items ≡ state.old.natives.items) }
    ensures spent { OnOk result (steps.new + spent (length state.old.outs) state.old.carried.items state.old.outs ≡ steps.old + spent (length state.old.outs) state.old.carried.items state.new.outs) }
{
    for way in ways {
        add_way(alloc, system, state, *way, steps)?;
    }
    Ok(())
}

fn add_way<L: Ledger>(
    alloc: Global,
    system: &System<u32, u32>,
    state: &mut State,
    way: Arrow<u32>,
    steps: &mut Steps<L>,
) -> Result<(), OutOfMemory>
    requires inside { IsSystemIn (Below (length state.old.outs)) system.now }
    requires values { HasValues system.now }
    requires few { system.now.native < 4294967295 }
    requires sound { Reason system.now (InSolution system.now) way }
    requires keeps { (found : List (AnyArrow ℕ)) × Keeps system.now (length state.old.outs) found state.old.sets.sets state.old.outs state.old.carried.items state.old.pending.items }
    ensures adds { OnOk result (Adds system.now (length state.old.outs) (way ∷ []) state.old.carried.items state.old.sets.sets state.old.outs state.old.pending.items state.new.sets.sets state.new.outs state.new.pending.items) }
    ensures carried { OnOk result (state.new.carried.items ≡ state.old.carried.items) }
    ensures natives { OnOk result (state.new.natives.items ≡ state.old.natives.items) }
    ensures spent { OnOk result (steps.new + spent (length state.old.outs) state.old.carried.items state.old.outs ≡ steps.old + spent (length state.old.outs) state.old.carried.items state.new.outs) }
{
    state.outs.push(way.from, way.to)?;
    let count = state.carried[way.from as usize];
    let values = state.sets.values(alloc, way.from, 0, count)?;
    carry(
        &mut state.sets,
        &mut state.pending,
        steps,
        values.as_slice(),
        way.to,
    )?;
    Ok(())
}
