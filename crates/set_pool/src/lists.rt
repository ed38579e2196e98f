//! Lists of numbers that share one region of chunks.
ghost use Rattle.std.specs.Prelude.{◌≡◌, ◌≢◌, ◌+◌, ◌/◌, ◌%◌, ◌^◌, ◌<◌, ◌≤◌, ◌==◌, ◌++◌, ◌∷◌, true, length, replicate, reverse, slice_index, slice_range, [], IfOk, List, OnErr, OnOk, ℕ};
ghost use Rattle.set_pool.specs.Chains.{HasFront, end_at};
ghost use Rattle.set_pool.specs.Sets.{chunks_of, is_in, set_at, with_value};
ghost use Rattle.set_pool.specs.Tables.{IsProbed, none, taken};
ghost use Rattle.set_pool.specs.Windows.{Puts};

use crate::index::Index;
use std::alloc::{AllocError, Global};
use std::marker::Model;

/// How many values a chunk has.
const VALUES: u32 = 15;

/// A part of a list.
#[derive(Clone, Copy, Debug, Drop)]
pub(crate) struct Chunk {
    values: [u32; 15],
    // The number of the chunk before it.
    before: u32,
}

/// Where a list ends.
#[derive(Clone, Copy, Debug, Drop)]
pub(crate) struct End {
    // The last chunk.
    chunk: u32,
    count: u32,
    // How many values the last chunk has.
    filled: u32,
}

/// Lists, by their numbers. Contracts see them, and how many chunks may begin without memory.
#[derive(Drop)]
pub(crate) struct Lists {
    chunks: Vec<Chunk>,
    ends: Vec<End>,
    spare: u32,
}

impl Model for Lists {
    ghost use Rattle.std.specs.Prelude.{map, vec_capacity};
    ghost use Rattle.set_pool.specs.Chains.{AreChained, Lists as Seen, list_in};

    ghost Value = { Seen };

    ghost view = { λ l. record { lists = map (list_in l.chunks.items) l.ends.items; spare = l.spare } };

    ghost invariant = { λ l. AreChained l.chunks.items l.ends.items l.spare (vec_capacity l.chunks) };
}

impl Lists {
    /// So many empty lists.
    pub(crate) fn new(alloc: Global, count: u32) -> Result<Lists, AllocError>
        ensures lists { IfOk result (λ lists. lists.lists ≡ replicate count []) }
        ensures spare { IfOk result (λ lists. lists.spare ≡ 0) }
    {
        let mut ends = Vec::new(alloc);
        ends.resize(
            count as usize,
            End {
                chunk: 0,
                count: 0,
                filled: VALUES,
            },
        )?;
        Ok(Lists {
            chunks: Vec::new(alloc),
            ends,
            spare: 0,
        })
    }

    /// How many chunks there are.
    pub(crate) fn chunks(&self) -> u32
        ensures chunks { result ≡ chunks_of self.now.lists }
        ensures few { result + self.now.spare ≤ 4294967295 }
    {
        self.chunks.len() as u32
    }

    pub(crate) fn spare(&self) -> u32
        ensures { result ≡ self.now.spare }
    {
        self.spare
    }

    /// How many values a list has.
    pub(crate) fn len(&self, list: u32) -> u64
        ensures length { result ≡ length (set_at self.now.lists list) }
        ensures few { result < 2 ^ 40 }
    {
        let end = end_in(self.ends.as_slice(), list);
        end.count as u64 * 15 + end.filled as u64 - 15
    }

    /// Whether one value more begins a chunk.
    pub(crate) fn is_full(&self, list: u32) -> bool
        ensures { result ≡ (length (set_at self.now.lists list) % 15 == 0) }
    {
        end_in(self.ends.as_slice(), list).filled == VALUES
    }

    /// Whether the last chunk of a list has the value: it has all values of a list with one chunk.
    pub(crate) fn last_has(&self, list: u32, value: u32) -> bool
        ensures { length (set_at self.now.lists list) ≤ 15 → result ≡ is_in value (set_at self.now.lists list) }
    {
        let end = end_in(self.ends.as_slice(), list);
        if end.count == 0 {
            return false;
        }
        let (values, _) = self.chunks[end.chunk as usize]
            .values
            .split_at(end.filled as usize);
        values.contains(&value)
    }

    /// The value of a list at a place, counted from 0.
    pub(crate) fn nth(&self, list: u32, place: u32) -> u32
        requires { place < length (set_at self.now.lists list) }
        ensures { result ≡ slice_index (set_at self.now.lists list) place }
    {
        let end = end_in(self.ends.as_slice(), list);
        let chunk = chunk_at(self.chunks.as_slice(), end, place);
        self.chunks[chunk as usize].values[(place % VALUES) as usize]
    }

    /// Adds the values of a list between two places to others, the last of them first.
    pub(crate) fn push_values(
        &self,
        list: u32,
        from: u32,
        to: u32,
        out: &mut Vec<u32>,
    ) -> Result<(), AllocError>
        requires order { from ≤ to }
        requires within { to ≤ length (set_at self.now.lists list) }
        ensures { OnOk result (out.new.items ≡ out.old.items ++ reverse (slice_range (set_at self.now.lists list) from to)) }
    {
        if from == to {
            return Ok(());
        }
        let end = end_in(self.ends.as_slice(), list);
        let mut chunk = chunk_at(self.chunks.as_slice(), end, to - 1);
        for place in (from..to).rev() {
            chunk = push_value(self.chunks.as_slice(), chunk, place, out)?;
        }
        Ok(())
    }

    /// Makes room for so many chunks more.
    pub(crate) fn reserve(&mut self, chunks: u32) -> Result<(), AllocError>
        requires { chunks_of self.old.lists + chunks ≤ 4294967295 }
        ensures lists { self.new.lists ≡ self.old.lists }
        ensures spare { OnOk result (self.new.spare ≡ chunks) }
        ensures refused { OnErr result (self.new.spare ≡ self.old.spare) }
    {
        self.chunks.reserve(chunks as usize)?;
        self.spare = chunks;
        Ok(())
    }

    /// Adds a value to the last chunk of a list.
    pub(crate) fn push(&mut self, list: u32, value: u32)
        requires list { list < length self.old.lists }
        requires room { length (set_at self.old.lists list) % 15 ≢ 0 }
        ensures lists { self.new.lists ≡ with_value self.old.lists list value }
        ensures spare { self.new.spare ≡ self.old.spare }
    {
        let end = self.ends[list as usize];
        self.chunks[end.chunk as usize].values[end.filled as usize] = value;
        self.ends[list as usize] = End {
            chunk: end.chunk,
            count: end.count,
            filled: end.filled + 1,
        };
    }

    /// Adds a value to a list whose chunks are full, and begins a chunk for it.
    pub(crate) fn begin(&mut self, list: u32, value: u32)
        requires list { list < length self.old.lists }
        requires full { length (set_at self.old.lists list) % 15 ≡ 0 }
        requires spare { 0 < self.old.spare }
        ensures lists { self.new.lists ≡ with_value self.old.lists list value }
        ensures spare { self.new.spare + 1 ≡ self.old.spare }
    {
        let number = self.chunks.len() as u32;
        let end = self.ends[list as usize];
        let mut values = [0; 15];
        values[0] = value;
        self.chunks.push_reserved(Chunk {
            values,
            before: end.chunk,
        });
        self.ends[list as usize] = End {
            chunk: number,
            count: end.count + 1,
            filled: 1,
        };
        self.spare -= 1;
    }

    /// Puts all values of a list whose chunks are full into its table.
    pub(crate) fn put_all(&self, list: u32, index: &mut Index)
        requires list { list < length index.old.tables }
        requires full { length (set_at self.now.lists list) % 15 ≡ 0 }
        requires below { (t : ℕ) → is_in t (set_at self.now.lists list) ≡ true → t < none }
        requires probed { IsProbed (set_at index.old.tables list) }
        requires room { taken (set_at index.old.tables list) + length (set_at self.now.lists list) < length (set_at index.old.tables list) }
        ensures { Puts list (set_at self.now.lists list) index.old index.new }
    {
        let end = end_in(self.ends.as_slice(), list);
        let mut chunk = end.chunk;
        for _turn in 0..end.count {
            let here = &self.chunks[chunk as usize];
            put_each(index, list, &here.values);
            chunk = here.before;
        }
    }
}

// Puts each of the values into a table.
fn put_each(index: &mut Index, list: u32, values: &[u32])
    requires list { list < length index.old.tables }
    requires below { (t : ℕ) → is_in t values.now ≡ true → t < none }
    requires probed { IsProbed (set_at index.old.tables list) }
    requires room { taken (set_at index.old.tables list) + length values.now < length (set_at index.old.tables list) }
    ensures { Puts list values.now index.old index.new }
{
    for value in values {
        index.put(list, *value);
    }
}

// Where a list ends, and an empty one for a number past the lists.
fn end_in(ends: &[End], list: u32) -> End
    ensures { result ≡ end_at ends.now list }
{
    match ends.get(list as usize) {
        Some(end) => *end,
        None => End {
            chunk: 0,
            count: 0,
            filled: VALUES,
        },
    }
}

// The chunk in which the value at a place stands, in a list with this end.
fn chunk_at(chunks: &[Chunk], end: End, place: u32) -> u32
    requires { (s : ℕ) × (row : List ℕ) × HasFront chunks.now s row end.count end.chunk (place + 1) }
    ensures { (s : ℕ) (row : List ℕ) → HasFront chunks.now s row end.count end.chunk (place + 1) → HasFront chunks.now s row (place / 15 + 1) result (place + 1) }
{
    let mut chunk = end.chunk;
    for _hop in 0..end.count - 1 - place / VALUES {
        chunk = chunks[chunk as usize].before;
    }
    chunk
}

// Adds the value at a place, and answers the chunk in which the value before it stands.
fn push_value(
    chunks: &[Chunk],
    chunk: u32,
    place: u32,
    out: &mut Vec<u32>,
) -> Result<u32, AllocError>
    requires { (s : ℕ) × (row : List ℕ) × HasFront chunks.now s row (place / 15 + 1) chunk (place + 1) }
    ensures value { OnOk result ((s : ℕ) (row : List ℕ) → HasFront chunks.now s row (place / 15 + 1) chunk (place + 1) → out.new.items ≡ out.old.items ++ slice_index row place ∷ []) }
    ensures before { IfOk result (λ c. (s : ℕ) (row : List ℕ) → HasFront chunks.now s row (place / 15 + 1) chunk (place + 1) → HasFront chunks.now s row ((place + 14) / 15) c place) }
{
    let here = &chunks[chunk as usize];
    out.push(here.values[(place % VALUES) as usize])?;
    if place % VALUES == 0 {
        return Ok(here.before);
    }
    Ok(chunk)
}
