//! Sets of numbers.
ghost use Rattle.std.specs.Prelude.{◌≡◌, ◌≢◌, ◌+◌, ◌*◌, ◌/◌, ◌%◌, ◌^◌, ◌<◌, ◌≤◌, if◌then◌else◌, [], false, true, not, length, nat_eq, replicate, slice_index, slice_range, IfOk, IsOk, OnErr, OnOk, ℕ};
ghost use Rattle.std.specs.List.{IsDistinct, sum_by};
ghost use Rattle.set_pool.specs.Pools as pools;
ghost use Rattle.set_pool.specs.Pools.{IsIndexed, IsWidened};
ghost use Rattle.set_pool.specs.Sets.{chunks_for, chunks_of, is_in, set_at, with_value};
ghost use Rattle.set_pool.specs.Tables.{none};

use crate::index::Index;
use crate::lists::Lists;
use crate::table::{NONE, spot_of};
use jam_base::{OutOfMemory, Steps};
use std::alloc::{AllocError, Global};
use std::marker::Model;
use std::sync::ledger::Ledger;

/// How many chunks a pool has at most: one of more finds no memory.
const MOST: u64 = 4_294_967_295;

/// How many slots there is memory for, for each chunk.
const SLOTS: usize = 80;

/// Sets of numbers below 4294967295, each a list in the order in which its values came, without repeats.
/// They share one region of chunks of 15 values. A chunk is spare if it may begin without memory.
#[derive(Drop)]
pub struct SetPool {
    lists: Lists,
    index: Index,
}

impl Model for SetPool {
    ghost use Rattle.set_pool.specs.Pools.{IsPool};
    ghost use Rattle.set_pool.specs.Sets.{Pool};

    ghost Value = { Pool };

    ghost view = { λ p. record { sets = p.lists.lists; spare = p.lists.spare } };

    ghost invariant = { λ p. IsPool p.lists p.index };
}

impl SetPool {
    /// So many empty sets.
    pub fn new(alloc: Global, sets: u32) -> Result<SetPool, OutOfMemory>
        ensures { IfOk result (λ pool. pool.sets ≡ replicate sets []) }
    {
        let lists = Lists::new(alloc, sets)?;
        let index = Index::new(alloc, sets)?;
        Ok(SetPool { lists, index })
    }

    /// Makes room for so many chunks.
    pub fn reserve(&mut self, chunks: u32) -> Result<(), OutOfMemory>
        ensures sets { self.new.sets ≡ self.old.sets }
        ensures spare { OnOk result (chunks ≤ self.new.spare) }
        ensures kept { self.old.spare ≤ self.new.spare }
    {
        if chunks <= self.lists.spare() {
            return Ok(());
        }
        let all = self.lists.chunks() as u64 + chunks as u64;
        if all > MOST {
            return Err(OutOfMemory);
        }
        self.index.reserve(SLOTS * all as usize)?;
        self.lists.reserve(chunks)?;
        Ok(())
    }

    /// Adds a value to a set, and answers whether it was new.
    pub fn insert<L: Ledger>(
        &mut self,
        set: u32,
        value: u32,
        steps: &mut Steps<L>,
    ) -> Result<bool, OutOfMemory>
        requires set { set < length self.old.sets }
        requires value { value < 4294967295 }
        ensures answer { IfOk result (λ new. new ≡ not (is_in value (set_at self.old.sets set))) }
        ensures sets { IfOk result (λ new. self.new.sets ≡ (if new then with_value self.old.sets set value else self.old.sets)) }
        ensures refused { OnErr result (self.new.sets ≡ self.old.sets) }
        ensures served { 0 < self.old.spare → IsOk result }
        ensures steps { steps.new ≡ steps.old + 1 }
        ensures spare { self.old.spare ≤ self.new.spare + 1 }
        ensures begun { self.new.spare < self.old.spare → (is_in value (set_at self.old.sets set) ≡ false) × (length (set_at self.old.sets set) % 15 ≡ 0) }
    {
        steps.count(1);
        if self.contains(set, value) {
            return Ok(false);
        }
        self.take(set, value)?;
        Ok(true)
    }

    /// Whether a set has the value; no set that doesn't exist has it.
    pub fn contains(&self, set: u32, value: u32) -> bool
        ensures { result ≡ is_in value (set_at self.now.sets set) }
    {
        let table = self.index.table(set);
        if table.is_empty() {
            return self.lists.last_has(set, value);
        }
        if value == NONE {
            return false;
        }
        match spot_of(table, value) {
            Some(_) => false,
            None => true,
        }
    }

    /// How many values a set has, 0 for one that doesn't exist.
    pub fn len(&self, set: u32) -> u32
        ensures length { result ≡ length (set_at self.now.sets set) }
        ensures distinct { IsDistinct nat_eq (set_at self.now.sets set) }
    {
        self.lists.len(set) as u32
    }

    /// The value of a set that came at this place, counted from 0. The last values are found soonest.
    pub fn nth(&self, set: u32, k: u32) -> u32
        requires { k < length (set_at self.now.sets set) }
        ensures { result ≡ slice_index (set_at self.now.sets set) k }
    {
        self.lists.nth(set, k)
    }

    /// The values of a set from one place up to another.
    pub fn values(
        &self,
        alloc: Global,
        set: u32,
        from: u32,
        to: u32,
    ) -> Result<Vec<u32>, OutOfMemory>
        requires order { from ≤ to }
        requires within { to ≤ length (set_at self.now.sets set) }
        ensures { IfOk result (λ values. values.items ≡ slice_range (set_at self.now.sets set) from to) }
    {
        let mut values = Vec::new(alloc);
        self.lists.push_values(set, from, to, &mut values)?;
        values.reverse();
        Ok(values)
    }

    /// How many chunks the sets have.
    pub fn chunks(&self) -> u32
        ensures chunks { result ≡ chunks_of self.now.sets }
        ensures bounded { result ≤ sum_by (λ xs. length xs) self.now.sets / 15 + length self.now.sets }
    {
        self.lists.chunks()
    }

    fn spare(&self) -> u32
        ensures { result ≡ self.now.spare }
    {
        self.lists.spare()
    }

    // Adds a new value to a set.
    fn take(&mut self, set: u32, value: u32) -> Result<(), OutOfMemory>
        requires set { set < length self.old.sets }
        requires value { value < none }
        requires new { is_in value (set_at self.old.sets set) ≡ false }
        ensures sets { OnOk result (self.new.sets ≡ with_value self.old.sets set value) }
        ensures refused { OnErr result (self.new.sets ≡ self.old.sets) }
        ensures served { 0 < self.old.spare → IsOk result }
        ensures spare { self.old.spare ≤ self.new.spare + 1 }
        ensures begun { self.new.spare < self.old.spare → length (set_at self.old.sets set) % 15 ≡ 0 }
    {
        if !self.lists.is_full(set) {
            self.add(set, value);
            return Ok(());
        }
        self.make_spare()?;
        self.begin(set, value)?;
        Ok(())
    }

    // Sees to it that a chunk may begin.
    fn make_spare(&mut self) -> Result<(), OutOfMemory>
        ensures sets { self.new.sets ≡ self.old.sets }
        ensures spare { OnOk result (0 < self.new.spare) }
        ensures kept { self.old.spare ≤ self.new.spare }
        ensures served { 0 < self.old.spare → IsOk result }
    {
        if self.spare() > 0 {
            return Ok(());
        }
        self.grow()
    }

    // Makes room for half as many chunks as there are.
    fn grow(&mut self) -> Result<(), OutOfMemory>
        ensures sets { self.new.sets ≡ self.old.sets }
        ensures spare { OnOk result (0 < self.new.spare) }
        ensures kept { self.old.spare ≤ self.new.spare }
    {
        let chunks = self.chunks();
        let more = (chunks / 2 + 64).min(u32::MAX - chunks);
        if more == 0 {
            return Err(OutOfMemory);
        }
        self.reserve(more)
    }

    // Adds a new value to the last chunk of a set.
    fn add(&mut self, set: u32, value: u32)
        requires set { set < length self.old.sets }
        requires value { value < none }
        requires new { is_in value (set_at self.old.sets set) ≡ false }
        requires room { length (set_at self.old.sets set) % 15 ≢ 0 }
        ensures sets { self.new.sets ≡ with_value self.old.sets set value }
        ensures spare { self.new.spare ≡ self.old.spare }
    {
        self.lists.push(set, value);
        self.index.note(set, value);
    }

    // Adds a new value to a set whose chunks are full.
    fn begin(&mut self, set: u32, value: u32) -> Result<(), AllocError>
        requires set { set < length self.old.sets }
        requires value { value < none }
        requires new { is_in value (set_at self.old.sets set) ≡ false }
        requires full { length (set_at self.old.sets set) % 15 ≡ 0 }
        requires spare { 0 < self.old.spare }
        ensures done { IsOk result }
        ensures sets { self.new.sets ≡ with_value self.old.sets set value }
        ensures spare { self.new.spare + 1 ≡ self.old.spare }
    {
        widen(&self.lists, &mut self.index, set)?;
        self.lists.begin(set, value);
        self.index.note(set, value);
        Ok(())
    }
}

// Sees to it that the table of a set whose chunks are full has room for one chunk more.
fn widen(lists: &Lists, index: &mut Index, set: u32) -> Result<(), AllocError>
    requires set { set < length index.old.tables }
    requires full { length (set_at lists.now.lists set) % 15 ≡ 0 }
    requires below { (t : ℕ) → is_in t (set_at lists.now.lists set) ≡ true → t < none }
    requires indexed { IsIndexed (chunks_for (length (set_at lists.now.lists set))) (set_at lists.now.lists set) (set_at index.old.tables set) }
    requires room { length (set_at index.old.tables set) < 20 * (chunks_for (length (set_at lists.now.lists set)) + 1) → index.old.used + pools.wider (length (set_at index.old.tables set)) ≤ index.old.capacity }
    ensures done { IsOk result }
    ensures widened { IsWidened set (set_at lists.now.lists set) index.old index.new }
{
    let chunks = (lists.len(set) / 15) as usize;
    if chunks == 0 {
        return Ok(());
    }
    let slots = index.table(set).len();
    if slots >= 20 * (chunks + 1) {
        return Ok(());
    }
    index.renew(set, wider(slots))?;
    lists.put_all(set, index);
    Ok(())
}

// How many slots a larger table has than one of so many.
fn wider(slots: usize) -> usize
    requires { slots < 2 ^ 62 }
    ensures { result ≡ pools.wider slots }
{
    if slots == 0 { 64 } else { 2 * slots }
}
