//! The functions of a module whose `arguments` are used.
ghost use Rattle.std.specs.Prelude.{◌≡◌, ◌++◌, OnOk};
ghost use Rattle.js_tree.specs.declared.tree.Expr.{out-Expr};
ghost use Rattle.js_tree.specs.declared.tree.Pattern.{out-Pattern};
ghost use Rattle.js_scopes.specs.AtHand.{known_in};
ghost use Rattle.flow_rules.specs.Arguments as seen;

use jam_base::OutOfMemory;
use js_scopes::{Binding, Known};
use js_tree::{Expr, Gather, Node, Pattern, Token};
use std::alloc::Global;

/// The numbers of the functions whose `arguments` the names in a node mean.
#[derive(Drop)]
pub(crate) struct UsedArguments<'m> {
    pub(crate) known: &'m Known<'m>,
}

impl<'t, 'm> Gather<'t> for UsedArguments<'m> {
    ghost use Rattle.std.specs.Prelude.{ℕ, Some};
    ghost use Rattle.js_scopes.specs.AtHand.{known_in as known_at_hand};
    ghost use Rattle.flow_rules.specs.Arguments.{own_arguments};

    type Around = ();

    type Item = u32;

    ghost Place = { Unit {0} };

    ghost Given = { ℕ };

    ghost place = { λ u. u };

    ghost given = { λ n. n };

    ghost own = { λ a. own_arguments (known_at_hand a.known.now) };

    ghost inside = { λ a node u. Some u };

    fn push_own(
        &self,
        _alloc: Global,
        node: Node<'t>,
        _around: (),
        out: &mut Vec<u32>,
    ) -> Result<(), OutOfMemory> {
        match node {
            Node::Expr(value) => push_used_by_expr(self.known, value, out),
            Node::Pattern(pattern) => push_used_by_pattern(self.known, pattern, out),
            _ => Ok(()),
        }
    }

    fn inside(&self, _node: Node<'t>, around: ()) -> Option<()> {
        Some(around)
    }
}

fn push_used_by_expr(known: &Known<'_>, value: &Expr, out: &mut Vec<u32>) -> Result<(), OutOfMemory>
    ensures { OnOk result (out.new.items ≡ out.old.items ++ seen.arguments_of_expr (known_in known.now) (out-Expr value.now)) }
{
    match value {
        Expr::Name(token) => push_used(known, token, out),
        _ => Ok(()),
    }
}

fn push_used_by_pattern(
    known: &Known<'_>,
    pattern: &Pattern,
    out: &mut Vec<u32>,
) -> Result<(), OutOfMemory>
    ensures { OnOk result (out.new.items ≡ out.old.items ++ seen.arguments_of_pattern (known_in known.now) (out-Pattern pattern.now)) }
{
    match pattern {
        Pattern::Name(token) => push_used(known, token, out),
        _ => Ok(()),
    }
}

fn push_used(known: &Known<'_>, token: &Token, out: &mut Vec<u32>) -> Result<(), OutOfMemory>
    ensures { OnOk result (out.new.items ≡ out.old.items ++ seen.arguments_of_name (known_in known.now) token.now) }
{
    push_meant(known.binding(token), out)
}

fn push_meant(binding: Binding, out: &mut Vec<u32>) -> Result<(), OutOfMemory>
    ensures { OnOk result (out.new.items ≡ out.old.items ++ seen.arguments_meant binding) }
{
    match binding {
        Binding::Arguments(function) => {
            out.push(function)?;
            Ok(())
        }
        _ => Ok(()),
    }
}
