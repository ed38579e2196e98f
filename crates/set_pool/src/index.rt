//! For each set a table of its values, all in one region.
ghost use Rattle.std.specs.Prelude.{◌≡◌, ◌+◌, ◌<◌, ◌≤◌, ◌∷◌, [], length, replicate, slice_set, IfOk, IsOk, OnOk, OnErr};
ghost use Rattle.set_pool.specs.Sets.{set_at};
ghost use Rattle.set_pool.specs.Tables.{IsProbed, none, taken};
ghost use Rattle.set_pool.specs.Windows.{Puts};

use crate::table::{NONE, spot_of};
use std::alloc::{AllocError, Global};
use std::marker::Model;

/// Where the table of a set lies.
#[derive(Clone, Copy, Debug, Drop)]
pub(crate) struct Window {
    start: usize,
    length: usize,
}

/// Tables, one for each set. Contracts see what stands in their slots.
#[derive(Drop)]
pub(crate) struct Index {
    slots: Vec<u32>,
    windows: Vec<Window>,
}

impl Model for Index {
    ghost use Rattle.std.specs.Prelude.{map, vec_len, vec_capacity};
    ghost use Rattle.set_pool.specs.Windows.{AreApart, Tables, table_in};

    ghost Value = { Tables };

    ghost view = { λ i. record { tables = map (table_in i.slots.items) i.windows.items; used = vec_len i.slots; capacity = vec_capacity i.slots } };

    ghost invariant = { λ i. AreApart i.windows.items (vec_len i.slots) };
}

impl Index {
    /// So many tables that have no slot.
    pub(crate) fn new(alloc: Global, count: u32) -> Result<Index, AllocError>
        ensures tables { IfOk result (λ index. index.tables ≡ replicate count []) }
        ensures used { IfOk result (λ index. index.used ≡ 0) }
    {
        let mut windows = Vec::new(alloc);
        windows.resize(
            count as usize,
            Window {
                start: 0,
                length: 0,
            },
        )?;
        Ok(Index {
            slots: Vec::new(alloc),
            windows,
        })
    }

    /// The table of a set, with no slot for a number past the sets.
    pub(crate) fn table(&self, set: u32) -> &[u32]
        ensures { result.now ≡ set_at self.now.tables set }
    {
        match self.windows.as_slice().get(set as usize) {
            Some(window) => {
                let (_, from) = self.slots.as_slice().split_at(window.start);
                let (table, _) = from.split_at(window.length);
                table
            }
            None => &[],
        }
    }

    /// Makes room for so many slots in all.
    pub(crate) fn reserve(&mut self, slots: usize) -> Result<(), AllocError>
        ensures tables { self.new.tables ≡ self.old.tables }
        ensures used { self.new.used ≡ self.old.used }
        ensures kept { self.old.capacity ≤ self.new.capacity }
        ensures room { OnOk result (slots ≤ self.new.capacity) }
    {
        self.slots.reserve(slots.saturating_sub(self.slots.len()))?;
        Ok(())
    }

    /// Gives a set a table of so many free slots, in place of the one that it has.
    pub(crate) fn renew(&mut self, set: u32, size: usize) -> Result<(), AllocError>
        requires set { set < length self.old.tables }
        requires room { self.old.used + size ≤ self.old.capacity }
        ensures done { IsOk result }
        ensures tables { self.new.tables ≡ slice_set self.old.tables set (replicate size none) }
        ensures used { self.new.used ≡ self.old.used + size }
        ensures kept { self.old.capacity ≤ self.new.capacity }
    {
        let start = self.slots.len();
        self.slots.resize(start + size, NONE)?;
        self.windows[set as usize] = Window {
            start,
            length: size,
        };
        Ok(())
    }

    /// Writes a value into the table of a set, unless it is there.
    pub(crate) fn put(&mut self, set: u32, value: u32)
        requires set { set < length self.old.tables }
        requires value { value < none }
        requires probed { IsProbed (set_at self.old.tables set) }
        requires room { taken (set_at self.old.tables set) < length (set_at self.old.tables set) }
        ensures { Puts set (value ∷ []) self.old self.new }
    {
        let start = self.windows[set as usize].start;
        if let Some(spot) = spot_of(self.table(set), value) {
            self.slots[start + spot] = value;
        }
    }

    /// Writes a value into the table of a set that has one, unless it is there.
    pub(crate) fn note(&mut self, set: u32, value: u32)
        requires set { set < length self.old.tables }
        requires value { value < none }
        requires probed { IsProbed (set_at self.old.tables set) }
        requires room { 0 < length (set_at self.old.tables set) → taken (set_at self.old.tables set) < length (set_at self.old.tables set) }
        ensures skips { length (set_at self.old.tables set) ≡ 0 → self.new ≡ self.old }
        ensures puts { 0 < length (set_at self.old.tables set) → Puts set (value ∷ []) self.old self.new }
    {
        if self.table(set).is_empty() {
            return;
        }
        self.put(set, value);
    }
}
