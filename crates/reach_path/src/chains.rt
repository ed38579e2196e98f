//! The edges of each caller, as a chain from the last of them to the first.
ghost use Rattle.std.specs.Prelude.{◌≡◌, ◌<◌, length, IfOk};
ghost use Rattle.reach_path.specs.Chains.{AreChains};

use crate::graph::Graph;
use std::alloc::{AllocError, Global};

/// For each function 1 more than the place of its last edge, and for each edge 1 more than the place of
/// the one before it that has the same caller; 0 where there is none.
#[derive(Drop)]
pub(crate) struct Chains {
    pub(crate) heads: Vec<u32>,
    pub(crate) nexts: Vec<u32>,
}

/// The chains of all edges, made in one pass.
pub(crate) fn chains_of(alloc: Global, graph: &Graph) -> Result<Chains, AllocError>
    ensures { IfOk result (λ chains.
        AreChains graph.now (length graph.now.edges) chains.heads.items chains.nexts.items) }
{
    let mut heads = vec![in alloc; 0u32; graph.nodes() as usize]?;
    let mut nexts = Vec::with_capacity(alloc, graph.len())?;
    for i in 0..graph.len() {
        let from = graph.from(i) as usize;
        nexts.push(heads[from])?;
        heads[from] = i as u32 + 1;
    }
    Ok(Chains { heads, nexts })
}
