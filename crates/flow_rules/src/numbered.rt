//! The numbered expressions of a module.
ghost use Rattle.std.specs.Prelude.{◌≡◌, ◌==◌, ◌++◌, ◌∷◌, [], if◌then◌else◌, OnOk};
ghost use Rattle.js_tree.specs.declared.tree.Expr.{out-Expr};
ghost use Rattle.js_scopes.specs.Brackets.{listed};
ghost use Rattle.js_scopes.specs.Calls.{last_member};
ghost use Rattle.flow_rules.specs.Numbered as seen;
ghost use Rattle.flow_rules.specs.Values as values;

use crate::values::{OR, choice_mark, is_numbered, operator_mark};
use jam_base::OutOfMemory;
use js_scopes::last_member;
use js_tree::{Expr, Further, Gather, Node, Tail};
use sqlite_items::Boxed;
use std::alloc::Global;

/// The offsets of tokens of their own of the numbered expressions in a node.
pub(crate) struct Numbered;

impl<'t> Gather<'t> for Numbered {
    ghost use Rattle.std.specs.Prelude.{ℕ, Some};
    ghost use Rattle.flow_rules.specs.Numbered.{own_numbered};

    type Around = ();

    type Item = u32;

    ghost Place = { Unit {0} };

    ghost Given = { ℕ };

    ghost place = { λ u. u };

    ghost given = { λ n. n };

    ghost own = { λ n. own_numbered };

    ghost inside = { λ n node u. Some u };

    fn push_own(
        &self,
        alloc: Global,
        node: Node<'t>,
        _around: (),
        out: &mut Vec<u32>,
    ) -> Result<(), OutOfMemory> {
        match node {
            Node::Expr(value) => push_numbered(alloc, value, out),
            _ => Ok(()),
        }
    }

    fn inside(&self, _node: Node<'t>, around: ()) -> Option<()> {
        Some(around)
    }
}

fn push_numbered(alloc: Global, value: &Expr, out: &mut Vec<u32>) -> Result<(), OutOfMemory>
    ensures { OnOk result (out.new.items ≡ out.old.items ++ seen.numbered_in_expr (out-Expr value.now)) }
{
    match value {
        Expr::Chain { head: _, tails } => push_calls(alloc, tails.as_slice(), out),
        Expr::Binary {
            level,
            first: _,
            rest,
        } => push_operands(*level, rest.as_slice(), out),
        Expr::Cond { arms, last: _ } => push_mark(choice_mark(arms.as_slice()), out),
        _ => Ok(()),
    }
}

// Operands have a number with `||` between them.
fn push_operands(
    level: u8,
    rest: &[Further<Boxed<Expr>>],
    out: &mut Vec<u32>,
) -> Result<(), OutOfMemory>
    ensures { OnOk result (out.new.items ≡ out.old.items ++ (if level == values.OR then listed (values.operator_mark rest.now) else [])) }
{
    if level == OR {
        return push_mark(operator_mark(rest), out);
    }
    Ok(())
}

fn push_mark(mark: Option<u32>, out: &mut Vec<u32>) -> Result<(), OutOfMemory>
    ensures { OnOk result (out.new.items ≡ out.old.items ++ listed mark) }
{
    if let Some(offset) = mark {
        out.push(offset)?;
    }
    Ok(())
}

// The calls among the tails that have a number, the last first.
fn push_calls(
    alloc: Global,
    tails: &[Tail<Boxed<Expr>>],
    out: &mut Vec<u32>,
) -> Result<(), OutOfMemory>
    ensures { OnOk result (out.new.items ≡ out.old.items ++ seen.numbered_calls [] tails.now) }
{
    let mut left = tails.len();
    while left > 0 {
        left -= 1;
        push_tail(alloc, &tails[..left], &tails[left], out)?;
    }
    Ok(())
}

fn push_tail(
    alloc: Global,
    before: &[Tail<Boxed<Expr>>],
    tail: &Tail<Boxed<Expr>>,
    out: &mut Vec<u32>,
) -> Result<(), OutOfMemory>
    ensures { OnOk result (out.new.items ≡ out.old.items ++ seen.numbered_call before.now tail.now) }
{
    match tail {
        Tail::Member { dot: _, name: _ } => Ok(()),
        Tail::Index {
            open: _,
            value: _,
            close: _,
        } => Ok(()),
        Tail::Call(arguments) => push_call(alloc, before, arguments.open.start, out),
        Tail::Template(_) => Ok(()),
    }
}

fn push_call(
    alloc: Global,
    before: &[Tail<Boxed<Expr>>],
    offset: u32,
    out: &mut Vec<u32>,
) -> Result<(), OutOfMemory>
    ensures { OnOk result (out.new.items ≡ out.old.items ++ (if values.is_numbered (last_member before.now) then offset ∷ [] else [])) }
{
    let member = last_member(alloc, before)?;
    if is_numbered(&member) {
        out.push(offset)?;
    }
    Ok(())
}
