//! Values that come to vertices.
ghost use Rattle.std.specs.Prelude.{◌≡◌, ◌<◌, ◌≤◌, ◌+◌, ◌*◌, ◌∷◌, [], ℕ, length, IsTrue, OnOk, Contains};
ghost use Rattle.composer.specs.Numbered.{Below, HasValues, IsSystemIn};
ghost use Rattle.composer.specs.Rows.{is_in};
ghost use Rattle.composer.specs.Uses.{bases_of};
ghost use Rattle.composer.specs.Work.{Begun, Inserts, Offers};

use crate::system::System;
use jam_base::{OutOfMemory, Steps};
use set_pool::SetPool;
use std::sync::ledger::Ledger;

/// Carries the values to each of the vertices.
pub(crate) fn carry_to_each<L: Ledger>(
    sets: &mut SetPool,
    pending: &mut Vec<u32>,
    steps: &mut Steps<L>,
    values: &[u32],
    vertices: &[u32],
) -> Result<(), OutOfMemory>
    requires vertices { (v : ℕ) → Contains vertices.now v → v < length sets.old.sets }
    requires values { (t : ℕ) → IsTrue (is_in t values.now) → t < 4294967295 }
    requires few { length values.now ≤ 4294967295 }
    ensures offers { OnOk result (Offers values.now vertices.now sets.old.sets pending.old.items sets.new.sets pending.new.items) }
    ensures steps { OnOk result (steps.new ≡ steps.old + length values.now * length vertices.now) }
{
    for vertex in vertices {
        carry(sets, pending, steps, values, *vertex)?;
    }
    Ok(())
}

/// Carries the values to a vertex, which is pending where one of them was new.
pub(crate) fn carry<L: Ledger>(
    sets: &mut SetPool,
    pending: &mut Vec<u32>,
    steps: &mut Steps<L>,
    values: &[u32],
    vertex: u32,
) -> Result<(), OutOfMemory>
    requires vertex { vertex < length sets.old.sets }
    requires values { (t : ℕ) → IsTrue (is_in t values.now) → t < 4294967295 }
    requires few { length values.now ≤ 4294967295 }
    ensures offers { OnOk result (Offers values.now (vertex ∷ []) sets.old.sets pending.old.items sets.new.sets pending.new.items) }
    ensures steps { OnOk result (steps.new ≡ steps.old + length values.now) }
{
    sets.reserve(values.len() as u32 / 15 + 1)?;
    let before = sets.len(vertex);
    insert_each(sets, steps, values, vertex)?;
    if sets.len(vertex) == before {
        return Ok(());
    }
    pending.push(vertex)?;
    Ok(())
}

fn insert_each<L: Ledger>(
    sets: &mut SetPool,
    steps: &mut Steps<L>,
    values: &[u32],
    vertex: u32,
) -> Result<(), OutOfMemory>
    requires vertex { vertex < length sets.old.sets }
    requires values { (t : ℕ) → IsTrue (is_in t values.now) → t < 4294967295 }
    ensures inserts { OnOk result (Inserts values.now vertex sets.old.sets sets.new.sets) }
    ensures steps { OnOk result (steps.new ≡ steps.old + length values.now) }
{
    for value in values {
        sets.insert(vertex, *value, steps)?;
    }
    Ok(())
}

/// Brings each value to where it stands from the start, in sets that are empty.
pub(crate) fn place_bases<L: Ledger>(
    sets: &mut SetPool,
    pending: &mut Vec<u32>,
    system: &System<u32, u32>,
    steps: &mut Steps<L>,
) -> Result<(), OutOfMemory>
    requires vertices { IsSystemIn (Below (length sets.old.sets)) system.now }
    requires values { HasValues system.now }
    requires few { system.now.native < 4294967295 }
    requires begun { Begun system.now (length sets.old.sets) 0 0 sets.old.sets pending.old.items }
    ensures begun { OnOk result (Begun system.now (length sets.old.sets) (length system.now.functions) (length system.now.native_at) sets.new.sets pending.new.items) }
    ensures steps { OnOk result (steps.new ≡ steps.old + bases_of system.now) }
{
    place_literals(sets, pending, system, steps)?;
    place_natives(sets, pending, system, steps)
}

fn place_literals<L: Ledger>(
    sets: &mut SetPool,
    pending: &mut Vec<u32>,
    system: &System<u32, u32>,
    steps: &mut Steps<L>,
) -> Result<(), OutOfMemory>
    requires vertices { IsSystemIn (Below (length sets.old.sets)) system.now }
    requires values { HasValues system.now }
    requires few { system.now.native < 4294967295 }
    requires begun { Begun system.now (length sets.old.sets) 0 0 sets.old.sets pending.old.items }
    ensures begun { OnOk result (Begun system.now (length sets.old.sets) (length system.now.functions) 0 sets.new.sets pending.new.items) }
    ensures steps { OnOk result (steps.new ≡ steps.old + length system.now.functions) }
{
    for callable in system.functions.as_slice() {
        carry(sets, pending, steps, &[callable.value], callable.literal)?;
    }
    Ok(())
}

fn place_natives<L: Ledger>(
    sets: &mut SetPool,
    pending: &mut Vec<u32>,
    system: &System<u32, u32>,
    steps: &mut Steps<L>,
) -> Result<(), OutOfMemory>
    requires vertices { IsSystemIn (Below (length sets.old.sets)) system.now }
    requires few { system.now.native < 4294967295 }
    requires begun { Begun system.now (length sets.old.sets) (length system.now.functions) 0 sets.old.sets pending.old.items }
    ensures begun { OnOk result (Begun system.now (length sets.old.sets) (length system.now.functions) (length system.now.native_at) sets.new.sets pending.new.items) }
    ensures steps { OnOk result (steps.new ≡ steps.old + length system.now.native_at) }
{
    for vertex in system.native_at.as_slice() {
        carry(sets, pending, steps, &[system.native], *vertex)?;
    }
    Ok(())
}
