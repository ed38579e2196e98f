//! The level of each function, by a search over its callers level by level.
ghost use Rattle.std.specs.Prelude.{◌≡◌, ◌+◌, ◌<◌, ◌≤◌, ◌^◌, ℕ, length, slice_index, IfOk, OnOk};
ghost use Rattle.reach_path.specs.Chains.{AreChains};
ghost use Rattle.reach_path.specs.Search.{AreLevels, IsFollowed, IsSearch, Offered, without_level};

use crate::chains::{Chains, chains_of};
use crate::graph::Graph;
use std::alloc::{AllocError, Global};

// The levels that are known, plus 1, and the functions that have one in the order in which they got it.
#[derive(Drop)]
struct Search {
    levels: Vec<u32>,
    order: Vec<u32>,
}

/// For each function 1 more than its level, or 0 where it has none.
pub(crate) fn levels_of(alloc: Global, graph: &Graph) -> Result<Vec<u32>, AllocError>
    ensures { IfOk result (λ levels. AreLevels graph.now levels.items) }
{
    let chains = chains_of(alloc, graph)?;
    let mut search = Search::from_entry(alloc, graph)?;
    let mut i = 0;
    while i < search.order.len() {
        search.follow(graph, &chains, i)?;
        i += 1;
    }
    let Search { levels, order: _ } = search;
    Ok(levels)
}

impl Search {
    // The entry's body waits, and nothing else.
    fn from_entry(alloc: Global, graph: &Graph) -> Result<Search, AllocError>
        ensures { IfOk result (λ search.
            IsSearch graph.now 0 search.levels.items search.order.items) }
    {
        let begin = graph.begin();
        let mut levels = vec![in alloc; 0u32; graph.nodes() as usize]?;
        let mut order = Vec::with_capacity(alloc, graph.nodes() as usize)?;
        levels[begin as usize] = 1;
        order.push(begin)?;
        Ok(Search { levels, order })
    }

    // Follows the edges from the function at place i of the order.
    fn follow(&mut self, graph: &Graph, chains: &Chains, i: usize) -> Result<(), AllocError>
        requires chains { AreChains graph.now (length graph.now.edges)
            chains.now.heads.items chains.now.nexts.items }
        requires search { IsSearch graph.now i self.old.levels.items self.old.order.items }
        requires here { i < length self.old.order.items }
        ensures { OnOk result
            (IsSearch graph.now (i + 1) self.new.levels.items self.new.order.items) }
    {
        let from = self.order[i];
        let level = self.levels[from as usize];
        let mut next = chains.heads[from as usize];
        while next > 0 {
            let place = next as usize - 1;
            self.offer(graph.to(place), level)?;
            next = chains.nexts[place];
        }
        Ok(())
    }

    // Gives the function the next level, unless it has one.
    fn offer(&mut self, to: u32, level: u32) -> Result<(), AllocError>
        requires inside { to < length self.old.levels.items }
        requires room { slice_index self.old.levels.items to ≡ 0 → level + 1 < 2 ^ 32 }
        ensures { OnOk result (Offered to (level + 1) self.old.levels.items self.old.order.items
            self.new.levels.items self.new.order.items) }
    {
        if self.levels[to as usize] == 0 {
            self.levels[to as usize] = level + 1;
            self.order.push(to)?;
        }
        Ok(())
    }
}
