//! A walk over a tree.
ghost use Rattle.std.specs.Prelude.{◌≡◌, ◌<◌, ◌+◌, ◌++◌, [], List, Option, map, reverse, OnOk};
ghost use Rattle.std.specs.List.{AllByRecursion, sum_by};
ghost use Rattle.std.specs.Option.{option_map};
ghost use Rattle.js_tree.specs.Parts.{Node as GhostNode, count, gathered, left_in, node_of};
ghost use Rattle.js_tree.specs.Tokens.{IsInText};

use crate::node::{Node, push_parts};
use jam_base::OutOfMemory;
use std::alloc::Global;

/// What is gathered on a walk over a tree: what each node gives by itself, by what stands around it.
pub trait Gather<'t> {
    /// What stands around a node.
    type Around: Copy + Drop;

    /// What a node gives.
    type Item;

    /// What a contract sees of what stands around a node.
    ghost Place: { Type 0 };

    /// What a contract sees of an item.
    ghost Given: { Type 0 };

    ghost place: { Self.Around → Place };

    ghost given: { Self.Item → Given };

    /// What a node gives by itself.
    ghost own: { Self → GhostNode → Place → List Given };

    /// What stands around its parts, unless they are passed over.
    ghost inside: { Self → GhostNode → Place → Option Place };

    /// Adds what a node gives by itself.
    fn push_own(
        &self,
        alloc: Global,
        node: Node<'t>,
        around: Self::Around,
        out: &mut Vec<Self::Item>,
    ) -> Result<(), OutOfMemory>
        requires { IsInText (node_of node) }
        ensures { OnOk result (map given out.new.items ≡ map given out.old.items ++ own self.now (node_of node.entry) (place around)) };

    /// What stands around the parts of a node, unless they are passed over.
    fn inside(&self, node: Node<'t>, around: Self::Around) -> Option<Self::Around>
        ensures { option_map place result ≡ inside self.now (node_of node.entry) (place around) };
}

/// Adds what is gathered from a node of a text, where this stands around it.
pub fn walk_tree<'t, G: Gather<'t>>(
    alloc: Global,
    by: &G,
    node: Node<'t>,
    around: G::Around,
    out: &mut Vec<G::Item>,
) -> Result<(), OutOfMemory>
    requires { IsInText (node_of node) }
    ensures { OnOk result (map G.given out.new.items ≡ map G.given out.old.items ++ gathered (G.own by.now) (G.inside by.now) (node_of node.entry) (G.place around)) }
{
    let mut parts = Vec::new(alloc);
    let mut left = Vec::new(alloc);
    left.push(Pending { node, around })?;
    while let Some(next) = left.pop() {
        visit(alloc, by, next, &mut parts, &mut left, out)?;
    }
    Ok(())
}

// A node that is to be walked over, and what stands around it.
#[derive(Clone, Copy)]
struct Pending<'t, C> {
    node: Node<'t>,
    around: C,
}

// Adds what a node gives by itself, and puts its parts on top of what is left to do.
fn visit<'t, G: Gather<'t>>(
    alloc: Global,
    by: &G,
    next: Pending<'t, G::Around>,
    parts: &mut Vec<Node<'t>>,
    left: &mut Vec<Pending<'t, G::Around>>,
    out: &mut Vec<G::Item>,
) -> Result<(), OutOfMemory>
    requires empty { parts.old.items ≡ [] }
    requires next { IsInText (node_of next.node) }
    requires left { AllByRecursion (λ p. IsInText (node_of p.node)) left.old.items }
    ensures empty { OnOk result (parts.new.items ≡ []) }
    ensures left { OnOk result (AllByRecursion (λ p. IsInText (node_of p.node)) left.new.items) }
    ensures gathers { OnOk result (map G.given out.new.items ++ left_in (λ p. gathered (G.own by.now) (G.inside by.now) (node_of p.node) (G.place p.around)) left.new.items
        ≡ map G.given out.old.items ++ gathered (G.own by.now) (G.inside by.now) (node_of next.entry.node) (G.place next.entry.around)
        ++ left_in (λ p. gathered (G.own by.now) (G.inside by.now) (node_of p.node) (G.place p.around)) left.old.items) }
    ensures fewer { OnOk result (sum_by (λ p. count (node_of p.node)) left.new.items < count (node_of next.entry.node) + sum_by (λ p. count (node_of p.node)) left.old.items) }
{
    by.push_own(alloc, next.node, next.around, out)?;
    match by.inside(next.node, next.around) {
        None => Ok(()),
        Some(inner) => {
            push_parts(next.node, parts)?;
            push_pending(parts, inner, left)
        }
    }
}

// Moves nodes to the top of what is left to do, the first of them last.
fn push_pending<'t, C: Copy + Drop>(
    nodes: &mut Vec<Node<'t>>,
    around: C,
    left: &mut Vec<Pending<'t, C>>,
) -> Result<(), OutOfMemory>
    ensures empty { OnOk result (nodes.new.items ≡ []) }
    ensures moved { OnOk result (left.new.items ≡ left.old.items ++ reverse (map (λ n. record { node = n; around = around }) nodes.old.items)) }
{
    while let Some(node) = nodes.pop() {
        left.push(Pending { node, around })?;
    }
    Ok(())
}
