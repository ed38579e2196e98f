//! What a tree says of its values.
ghost use Rattle.std.specs.Prelude.{◌≡◌, ◌==◌, ℕ, IfOk, drop};
ghost use Rattle.std.specs.List.{list_any};
ghost use Rattle.js_tree.specs.Parts.{ABody};
ghost use Rattle.js_tree.specs.Spells.{SpellsSome};
ghost use Rattle.js_tree.specs.Tokens.{IsInText};
ghost use Rattle.js_scopes.specs.AtHand.{known_in};
ghost use Rattle.js_scopes.specs.Meanings.{meaning_in};
ghost use Rattle.js_scopes.specs.Scopes.{binding_of, functions_of, known_of};
ghost use Rattle.flow_rules.specs.Places.{is_placed, number_in};
ghost use Rattle.flow_rules.specs.Arguments.{arguments_in};
ghost use Rattle.flow_rules.specs.Flows as seen;
ghost use Rattle.flow_rules.specs.Numbered.{numbered_of, place_in};

use crate::facts::{Facts, Numbers};
use crate::flows::Flows;
use crate::notes::{Notes, Standing};
use crate::numbered::Numbered;
use crate::required::Requires;
use crate::used_arguments::UsedArguments;
use crate::{Constraints, Flow, ModuleNote, Require};
use jam_base::{List, OutOfMemory, ascending};
use js_scopes::{Bindings, FunctionInfo, Known, functions, sites_with};
use js_tree::{Node, Tree, walk_tree};
use std::alloc::Global;

/// What a tree with these bindings says of its values: its functions, sites, requires, notes and flows,
/// each list in its order and without repeats.
pub fn constraints(
    alloc: Global,
    tree: &Tree,
    bindings: &Bindings,
) -> Result<Constraints, OutOfMemory>
    requires spelled { SpellsSome tree.now }
    requires bound { (start : ℕ) → meaning_in bindings.now start ≡ binding_of tree.now start }
    ensures { IfOk result (λ made. made ≡ seen.constraints_of tree.now) }
{
    let functions = functions(alloc, tree)?;
    let inner = behind_first(functions.as_slice());
    let known = Known::of(bindings, inner);
    let sites = sites_with(alloc, tree, &known)?;
    let requires_ = requires_of(alloc, tree, &known)?;
    let notes = notes_of(alloc, tree, &known)?;
    let flows = flows_of(alloc, tree, &known)?;
    Ok(Constraints {
        functions,
        sites,
        requires_,
        notes,
        flows,
    })
}

// The functions but the first.
fn behind_first(functions: &[FunctionInfo]) -> &[FunctionInfo]
    ensures { result.now ≡ drop 1 functions.now }
{
    match functions {
        [] => functions,
        [_, inner @ ..] => inner,
    }
}

// The requires of a tree of which this is known.
fn requires_of(alloc: Global, tree: &Tree, known: &Known<'_>) -> Result<List<Require>, OutOfMemory>
    requires spelled { IsInText (ABody tree.now.body) }
    requires known { known_in known.now ≡ known_of tree.now }
    ensures { IfOk result (λ made. made ≡ seen.requires_of tree.now) }
{
    let mut found = Vec::new(alloc);
    let body = Node::Body(tree.body.as_slice());
    walk_tree(alloc, &Requires { known }, body, 0, &mut found)?;
    let found = ascending(alloc, found)?;
    Ok(List::of(found))
}

// Its notes.
fn notes_of(alloc: Global, tree: &Tree, known: &Known<'_>) -> Result<List<ModuleNote>, OutOfMemory>
    requires spelled { IsInText (ABody tree.now.body) }
    requires known { known_in known.now ≡ known_of tree.now }
    ensures { IfOk result (λ made. made ≡ seen.notes_of tree.now) }
{
    let mut found = Vec::new(alloc);
    let body = Node::Body(tree.body.as_slice());
    walk_tree(alloc, &Notes { known }, body, Standing::Value, &mut found)?;
    let found = ascending(alloc, found)?;
    Ok(List::of(found))
}

// Its flows.
fn flows_of(alloc: Global, tree: &Tree, known: &Known<'_>) -> Result<List<Flow>, OutOfMemory>
    requires spelled { IsInText (ABody tree.now.body) }
    requires known { known_in known.now ≡ known_of tree.now }
    ensures { IfOk result (λ made. made ≡ seen.flows_of tree.now) }
{
    let numbers = numbers_of(alloc, tree)?;
    let arguments = arguments_of(alloc, tree, known)?;
    let facts = Facts {
        known,
        numbers: &numbers,
        arguments: &arguments,
    };
    let mut found = Vec::new(alloc);
    let body = Node::Body(tree.body.as_slice());
    walk_tree(alloc, &Flows { facts }, body, 0, &mut found)?;
    let found = ascending(alloc, found)?;
    Ok(List::of(found))
}

// The numbers of its numbered expressions.
fn numbers_of(alloc: Global, tree: &Tree) -> Result<Numbers, OutOfMemory>
    requires { IsInText (ABody tree.now.body) }
    ensures { IfOk result (λ made. (offset : ℕ) → number_in made offset ≡ place_in (numbered_of tree.now) offset) }
{
    let mut numbered = Vec::new(alloc);
    let body = Node::Body(tree.body.as_slice());
    walk_tree(alloc, &Numbered, body, (), &mut numbered)?;
    Numbers::of(alloc, numbered)
}

// The functions whose `arguments` are used.
fn arguments_of(alloc: Global, tree: &Tree, known: &Known<'_>) -> Result<Numbers, OutOfMemory>
    requires { IsInText (ABody tree.now.body) }
    ensures { IfOk result (λ made. (f : ℕ) → is_placed made f ≡ list_any (λ g. g == f) (arguments_in (known_in known.now) (ABody tree.now.body))) }
{
    let mut used = Vec::new(alloc);
    let body = Node::Body(tree.body.as_slice());
    walk_tree(alloc, &UsedArguments { known }, body, (), &mut used)?;
    Numbers::of(alloc, used)
}
