//! The parts of a node that stand in lists, or may be missing.
ghost use Rattle.std.specs.Prelude.{◌≡◌, ◌++◌, ◌∷◌, [], map, OnOk};
ghost use Rattle.js_tree.specs.Parts.{AnExpr, ASlot, node_of, nodes, tails_behind};
ghost use Rattle.js_tree.specs.Spelling.Rows.{each_of, maybe, bracket_row, template_row};
ghost use Rattle.js_tree.specs.Spelling.Nodes.{unmarked};

use crate::lists::{Arm, Bracket, Element, Further, Listed, Tail, Template};
use crate::node::{Node, push};
use crate::tree::{Expr, Slot, Stmt};
use jam_base::OutOfMemory;
use sqlite_items::Boxed;

/// Adds two nodes.
pub fn push_two<'t>(
    first: Node<'t>,
    second: Node<'t>,
    out: &mut Vec<Node<'t>>,
) -> Result<(), OutOfMemory>
    ensures { OnOk result (map node_of out.new.items ≡ map node_of out.old.items ++ node_of first.entry ∷ node_of second.entry ∷ []) }
{
    push(first, out)?;
    push(second, out)
}

/// Adds what `new` makes something of, and the arguments.
pub fn push_new<'t>(
    head: &'t Expr,
    tails: &'t [Tail<Boxed<Expr>>],
    args: &'t Option<Boxed<Bracket<Boxed<Expr>>>>,
    out: &mut Vec<Node<'t>>,
) -> Result<(), OutOfMemory>
    ensures { OnOk result (map node_of out.new.items ≡ map node_of out.old.items ++ AnExpr head.now ∷ tails_behind head.now [] tails.now (maybe (bracket_row unmarked nodes.expr) args.now [])) }
{
    push_chain(head, tails, out)?;
    push_arguments(args, out)
}

/// Adds the tests and values of a choice.
pub fn push_choice<'t>(
    arms: &'t [Arm<Boxed<Expr>>],
    last: &'t Expr,
    out: &mut Vec<Node<'t>>,
) -> Result<(), OutOfMemory>
    ensures { OnOk result (map node_of out.new.items ≡ map node_of out.old.items ++ each_of (λ x more. AnExpr x.test ∷ AnExpr x.value ∷ more) arms.now (AnExpr last.now ∷ [])) }
{
    push_arms(arms, out)?;
    push(Node::Expr(last), out)
}

/// Adds the substitutions of a template.
pub fn push_template<'t>(
    template: &'t Template<Boxed<Expr>>,
    out: &mut Vec<Node<'t>>,
) -> Result<(), OutOfMemory>
    ensures { OnOk result (map node_of out.new.items ≡ map node_of out.old.items ++ template_row unmarked nodes.expr template.now []) }
{
    push_substitutions(template.parts.as_slice(), out)
}

/// Adds the parameters and the body of a function.
pub fn push_keyword<'t>(
    params: &'t Bracket<Slot>,
    body: &'t [Stmt],
    out: &mut Vec<Node<'t>>,
) -> Result<(), OutOfMemory>
    ensures { OnOk result (map node_of out.new.items ≡ map node_of out.old.items ++ bracket_row unmarked nodes.slot params.now (each_of nodes.stmt body.now [])) }
{
    push_params(params, out)?;
    push_stmts(body, out)
}

/// Adds an expression, where there is one.
pub fn push_value<'t>(
    value: &'t Option<Boxed<Expr>>,
    out: &mut Vec<Node<'t>>,
) -> Result<(), OutOfMemory>
    ensures { OnOk result (map node_of out.new.items ≡ map node_of out.old.items ++ maybe nodes.expr value.now []) }
{
    match value {
        None => Ok(()),
        Some(value) => push(Node::Expr(value.get()), out),
    }
}

/// Adds what stands first in a chain, and its tails.
pub fn push_chain<'t>(
    head: &'t Expr,
    tails: &'t [Tail<Boxed<Expr>>],
    out: &mut Vec<Node<'t>>,
) -> Result<(), OutOfMemory>
    ensures { OnOk result (map node_of out.new.items ≡ map node_of out.old.items ++ AnExpr head.now ∷ tails_behind head.now [] tails.now []) }
{
    push(Node::Expr(head), out)?;
    push_tails(head, tails, out)
}

/// Adds the tails behind this head.
pub fn push_tails<'t>(
    head: &'t Expr,
    tails: &'t [Tail<Boxed<Expr>>],
    out: &mut Vec<Node<'t>>,
) -> Result<(), OutOfMemory>
    ensures { OnOk result (map node_of out.new.items ≡ map node_of out.old.items ++ tails_behind head.now [] tails.now []) }
{
    for at in 0..tails.len() {
        let node = Node::Tail {
            head,
            before: &tails[..at],
            tail: &tails[at],
        };
        push(node, out)?;
    }
    Ok(())
}

/// Adds one or more expressions.
pub fn push_several<'t>(
    first: &'t Expr,
    rest: &'t [Further<Boxed<Expr>>],
    out: &mut Vec<Node<'t>>,
) -> Result<(), OutOfMemory>
    ensures { OnOk result (map node_of out.new.items ≡ map node_of out.old.items ++ AnExpr first.now ∷ each_of (λ x more. AnExpr x.item ∷ more) rest.now []) }
{
    push(Node::Expr(first), out)?;
    push_further(rest, out)
}

/// Adds further expressions.
pub fn push_further<'t>(
    rest: &'t [Further<Boxed<Expr>>],
    out: &mut Vec<Node<'t>>,
) -> Result<(), OutOfMemory>
    ensures { OnOk result (map node_of out.new.items ≡ map node_of out.old.items ++ each_of (λ x more. AnExpr x.item ∷ more) rest.now []) }
{
    for further in rest {
        push(Node::Expr(further.item.get()), out)?;
    }
    Ok(())
}

/// Adds further slots.
pub fn push_further_slots<'t>(
    rest: &'t [Further<Slot>],
    out: &mut Vec<Node<'t>>,
) -> Result<(), OutOfMemory>
    ensures { OnOk result (map node_of out.new.items ≡ map node_of out.old.items ++ each_of (λ x more. ASlot x.item ∷ more) rest.now []) }
{
    for further in rest {
        push(Node::Slot(&further.item), out)?;
    }
    Ok(())
}

/// Adds the arms of a choice.
pub fn push_arms<'t>(
    arms: &'t [Arm<Boxed<Expr>>],
    out: &mut Vec<Node<'t>>,
) -> Result<(), OutOfMemory>
    ensures { OnOk result (map node_of out.new.items ≡ map node_of out.old.items ++ each_of (λ x more. AnExpr x.test ∷ AnExpr x.value ∷ more) arms.now []) }
{
    for arm in arms {
        push_arm(arm, out)?;
    }
    Ok(())
}

/// Adds the test and the value of an arm.
pub fn push_arm<'t>(arm: &'t Arm<Boxed<Expr>>, out: &mut Vec<Node<'t>>) -> Result<(), OutOfMemory>
    ensures { OnOk result (map node_of out.new.items ≡ map node_of out.old.items ++ AnExpr arm.now.test ∷ AnExpr arm.now.value ∷ []) }
{
    push(Node::Expr(arm.test.get()), out)?;
    push(Node::Expr(arm.value.get()), out)
}

/// Adds the substitutions of a template.
pub fn push_substitutions<'t>(
    parts: &'t [Listed<Boxed<Expr>>],
    out: &mut Vec<Node<'t>>,
) -> Result<(), OutOfMemory>
    ensures { OnOk result (map node_of out.new.items ≡ map node_of out.old.items ++ each_of (λ x more. AnExpr x.item ∷ more) parts.now []) }
{
    for part in parts {
        push(Node::Expr(part.item.get()), out)?;
    }
    Ok(())
}

/// Adds arguments, where there are any.
pub fn push_arguments<'t>(
    args: &'t Option<Boxed<Bracket<Boxed<Expr>>>>,
    out: &mut Vec<Node<'t>>,
) -> Result<(), OutOfMemory>
    ensures { OnOk result (map node_of out.new.items ≡ map node_of out.old.items ++ maybe (bracket_row unmarked nodes.expr) args.now []) }
{
    match args {
        None => Ok(()),
        Some(bracket) => push_bracket(bracket.get(), out),
    }
}

/// Adds the items in brackets.
pub fn push_bracket<'t>(
    bracket: &'t Bracket<Boxed<Expr>>,
    out: &mut Vec<Node<'t>>,
) -> Result<(), OutOfMemory>
    ensures { OnOk result (map node_of out.new.items ≡ map node_of out.old.items ++ bracket_row unmarked nodes.expr bracket.now []) }
{
    push_front(bracket.front.as_slice(), out)?;
    push_last(&bracket.last, out)
}

/// Adds the items that have a comma behind them.
pub fn push_front<'t>(
    front: &'t [Listed<Element<Boxed<Expr>>>],
    out: &mut Vec<Node<'t>>,
) -> Result<(), OutOfMemory>
    ensures { OnOk result (map node_of out.new.items ≡ map node_of out.old.items ++ each_of (λ x more. AnExpr x.item.value ∷ more) front.now []) }
{
    for listed in front {
        push(Node::Expr(listed.item.value.get()), out)?;
    }
    Ok(())
}

/// Adds the last item, where it has no comma.
pub fn push_last<'t>(
    last: &'t Option<Element<Boxed<Expr>>>,
    out: &mut Vec<Node<'t>>,
) -> Result<(), OutOfMemory>
    ensures { OnOk result (map node_of out.new.items ≡ map node_of out.old.items ++ maybe (λ x more. AnExpr x.value ∷ more) last.now []) }
{
    match last {
        None => Ok(()),
        Some(element) => push(Node::Expr(element.value.get()), out),
    }
}

/// Adds the items in brackets.
pub fn push_params<'t>(
    bracket: &'t Bracket<Slot>,
    out: &mut Vec<Node<'t>>,
) -> Result<(), OutOfMemory>
    ensures { OnOk result (map node_of out.new.items ≡ map node_of out.old.items ++ bracket_row unmarked nodes.slot bracket.now []) }
{
    push_front_slots(bracket.front.as_slice(), out)?;
    push_last_slot(&bracket.last, out)
}

/// Adds the items that have a comma behind them.
pub fn push_front_slots<'t>(
    front: &'t [Listed<Element<Slot>>],
    out: &mut Vec<Node<'t>>,
) -> Result<(), OutOfMemory>
    ensures { OnOk result (map node_of out.new.items ≡ map node_of out.old.items ++ each_of (λ x more. ASlot x.item.value ∷ more) front.now []) }
{
    for listed in front {
        push(Node::Slot(&listed.item.value), out)?;
    }
    Ok(())
}

/// Adds the last item, where it has no comma.
pub fn push_last_slot<'t>(
    last: &'t Option<Element<Slot>>,
    out: &mut Vec<Node<'t>>,
) -> Result<(), OutOfMemory>
    ensures { OnOk result (map node_of out.new.items ≡ map node_of out.old.items ++ maybe (λ x more. ASlot x.value ∷ more) last.now []) }
{
    match last {
        None => Ok(()),
        Some(element) => push(Node::Slot(&element.value), out),
    }
}

/// Adds statements.
pub fn push_stmts<'t>(body: &'t [Stmt], out: &mut Vec<Node<'t>>) -> Result<(), OutOfMemory>
    ensures { OnOk result (map node_of out.new.items ≡ map node_of out.old.items ++ each_of nodes.stmt body.now []) }
{
    for statement in body {
        push(Node::Stmt(statement), out)?;
    }
    Ok(())
}
