//! The trees of texts, and what is said of them.
ghost use Rattle.std.specs.Prelude.{◌≡◌, ◌<◌, IfOk};
ghost use Rattle.js_tree.specs.Spells.{SpellsSome};

use flow_rules::{Constraints, constraints};
use jam_base::{OutOfMemory, Steps, Text};
use js_parser::{ParseFault, parse};
use js_scopes::bind;
use js_tree::Tree;
use std::alloc::Global;
use std::marker::Brand;
use std::sync::ledger::{Blank, Ledger};

fn read_with<L: Ledger>(alloc: Global, text: &Text, blank: Blank) -> Result<Tree, ParseFault>
    requires name { blank.name ≡ L.name }
    requires parts { blank.parts ≡ L.parts }
    requires some { 0 < L.parts }
    ensures { IfOk result SpellsSome }
{
    let mut steps = Steps::<L>::new(blank);
    parse(alloc, text.as_str(), &mut steps)
}

// The tree of the text.
pub(crate) fn tree_of(alloc: Global, text: &str) -> Result<Tree, ParseFault>
    ensures { IfOk result SpellsSome }
{
    let Ok(text) = Text::of(alloc, text) else {
        return Err(ParseFault::OutOfMemory);
    };
    read_with::<Brand>(alloc, &text, Blank::new(1))
}

// What the tree says of its values.
pub(crate) fn constraints_of(alloc: Global, tree: &Tree) -> Result<Constraints, OutOfMemory>
    requires { SpellsSome tree.now }
{
    let bindings = bind(alloc, tree)?;
    constraints(alloc, tree, &bindings)
}
