//! The call graph of loaded modules.
ghost use Rattle.std.specs.Prelude.{◌≡◌, ◌<◌, ◌≤◌, length, map, IfErr, IfOk};
ghost use Rattle.composer.specs.Edges.{IsEdgeList};
ghost use Rattle.composer.specs.Graphs.{function_count};
ghost use Rattle.composer.specs.Parts.{AreByPath, AreLinks, lists_of};
ghost use Rattle.composer.specs.Sizes.{made_size, size_limit, size_of};
ghost use Rattle.jam_app.specs.Loading.{part_of};
ghost use Rattle.jam_app.specs.Stops.{StopsWide};

use crate::Stop;
use crate::answers::message::too_wide;
use crate::loading::loaded::Loaded;
use composer::{Graph, Link, Part, SIZE_LIMIT, compose, size_of};
use jam_base::{OutOfMemory, Steps};
use std::alloc::Global;
use std::marker::Brand;
use std::sync::ledger::{Blank, Ledger};

/// The parts that loaded modules are of their application.
pub(crate) fn parts_of(alloc: Global, loaded: Vec<Loaded>) -> Result<Vec<Part>, OutOfMemory>
    ensures { IfOk result (λ parts. parts.items ≡ map part_of loaded.items) }
{
    let mut parts = Vec::new(alloc);
    for one in loaded {
        let Loaded { path, summary, .. } = one;
        parts.push(Part { path, summary })?;
    }
    Ok(parts)
}

/// The call graph of the parts, unless they are too wide.
pub(crate) fn composed(alloc: Global, parts: &[Part], links: &[Link]) -> Result<Graph, Stop>
    requires paths { AreByPath parts.now }
    requires links { AreLinks (lists_of parts.now) links.now }
    requires few { length parts.now ≤ 4294967295 }
    ensures edges { IfOk result (λ graph. IsEdgeList (lists_of parts.now) links.now graph.edges) }
    ensures functions { IfOk result (λ graph. graph.functions ≡ function_count (lists_of parts.now)) }
    ensures narrow { IfOk result (λ graph. made_size parts.now < size_limit) }
    ensures wide { IfErr result (StopsWide (made_size parts.now)) }
{
    let size = size_of(parts);
    if size >= SIZE_LIMIT {
        return Err(too_wide(alloc, size));
    }
    Ok(counted::<Brand>(alloc, parts, links, Blank::new(1))?)
}

// The call graph of the parts, found on a counter of its own.
fn counted<L: Ledger>(
    alloc: Global,
    parts: &[Part],
    links: &[Link],
    blank: Blank,
) -> Result<Graph, OutOfMemory>
    requires name { blank.name ≡ L.name }
    requires shares { blank.parts ≡ L.parts }
    requires some { 0 < L.parts }
    requires paths { AreByPath parts.now }
    requires links { AreLinks (lists_of parts.now) links.now }
    requires size { size_of (lists_of parts.now) < size_limit }
    ensures edges { IfOk result (λ graph. IsEdgeList (lists_of parts.now) links.now graph.edges) }
    ensures functions { IfOk result (λ graph. graph.functions ≡ function_count (lists_of parts.now)) }
{
    let mut steps = Steps::<L>::new(blank);
    compose(alloc, parts, links, &mut steps)
}
