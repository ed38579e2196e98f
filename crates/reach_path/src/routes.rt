//! Which functions are reachable, and the path to each.
ghost use Rattle.std.specs.Prelude.{◌≡◌, ◌<◌, length, slice_index, IfOk, is_some};
ghost use Rattle.reach_path.specs.Reached.{count_of, path_at, path_to, way_back};

use crate::lasts::Last;
use crate::numbers::{function_of, number_if_there};
use jam_base::{Edge, FunctionRef, List, OutOfMemory};
use std::alloc::Global;
use std::marker::Model;

/// Which functions can be reached from the body of an entry, and by which calls. It has 12 bytes for each
/// function and 4 for each module.
#[derive(Debug, Drop)]
pub struct Reach {
    pub(crate) starts: Vec<u32>,
    pub(crate) levels: Vec<u32>,
    pub(crate) lasts: Vec<Last>,
}

impl Model for Reach {
    ghost use Rattle.reach_path.specs.Reached.{IsKept, Reached};

    ghost Value = { Reached };

    ghost view = { λ r. record {
      starts = r.starts.items;
      levels = r.levels.items;
      lasts = r.lasts.items;
    } };

    ghost invariant = { λ r. IsKept (record {
      starts = r.starts.items;
      levels = r.levels.items;
      lasts = r.lasts.items;
    }) };
}

impl Reach {
    /// Whether the function is reachable.
    pub fn has(&self, function: FunctionRef) -> bool
        ensures { result ≡ is_some (path_to self.now function) }
    {
        match number_if_there(self.starts.as_slice(), function) {
            Some(number) => self.levels[number as usize] > 0,
            None => false,
        }
    }

    /// How many functions are reachable. It counts them anew.
    pub fn count(&self) -> u32
        ensures { result ≡ count_of self.now }
    {
        self.levels.iter().filter(|level| **level > 0).count() as u32
    }

    /// The path to the function from the entry's body, or None exactly where the function isn't reachable.
    pub fn path(
        &self,
        alloc: Global,
        function: FunctionRef,
    ) -> Result<Option<List<Edge>>, OutOfMemory>
        ensures { IfOk result (λ found. found ≡ path_to self.now function) }
    {
        match number_if_there(self.starts.as_slice(), function) {
            Some(number) => self.path_at(alloc, number),
            None => Ok(None),
        }
    }

    // The path to the function of a number.
    fn path_at(&self, alloc: Global, number: u32) -> Result<Option<List<Edge>>, OutOfMemory>
        requires { number < length self.now.levels }
        ensures { IfOk result (λ found.
            found ≡ path_at self.now (slice_index self.now.levels number) number) }
    {
        let level = self.levels[number as usize];
        if level == 0 {
            return Ok(None);
        }
        let mut edges = self.way_back(alloc, number, level - 1)?;
        edges.reverse();
        Ok(Some(List::of(edges)))
    }

    // The last edges of the path to a number, the last one first.
    fn way_back(&self, alloc: Global, number: u32, count: u32) -> Result<Vec<Edge>, OutOfMemory>
        requires { number < length self.now.levels }
        ensures { IfOk result (λ edges. edges.items ≡ way_back self.now count number) }
    {
        let mut edges = Vec::new(alloc);
        let mut at = number;
        for _step in 0..count {
            let last = self.lasts[at as usize];
            edges.push(Edge {
                caller: function_of(self.starts.as_slice(), last.caller),
                offset: last.offset,
                callee: function_of(self.starts.as_slice(), at),
            })?;
            at = last.caller;
        }
        Ok(edges)
    }
}
