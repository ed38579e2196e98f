//! The line of what stands in lists, or may be missing.
ghost use Rattle.std.specs.Prelude.{◌≡◌, ◌++◌, ◌∷◌, [], map, OnOk};
ghost use Rattle.js_tree.specs.Parts.{AnExpr, ASlot};
ghost use Rattle.js_tree.specs.Line.{AToken, ANode, given_marks, item_of, items, possible, tail_items};
ghost use Rattle.js_tree.specs.Spelling.Rows.{arm_row, bracket_row, each_of, init_row, listed_row, maybe, template_row};

use crate::line::{LineItem, push_node, push_token};
use crate::line_bracket::{push_arguments, push_params};
use crate::lists::{Arm, Block, Bracket, Further, Init, Listed, Tail, Template};
use crate::node::Node;
use crate::token::Token;
use crate::tree::{Expr, Slot, Stmt};
use jam_base::OutOfMemory;
use sqlite_items::Boxed;

/// Adds what `new` makes.
pub fn push_new<'t>(
    word: &'t Token,
    head: &'t Expr,
    tails: &'t [Tail<Boxed<Expr>>],
    args: &'t Option<Boxed<Bracket<Boxed<Expr>>>>,
    out: &mut Vec<LineItem<'t>>,
) -> Result<(), OutOfMemory>
    ensures { OnOk result (map item_of out.new.items ≡ map item_of out.old.items ++ AToken word.now ∷ ANode (AnExpr head.now) ∷ tail_items head.now [] tails.now (maybe (bracket_row given_marks items.expr) args.now [])) }
{
    push_token(word, out)?;
    push_chain(head, tails, out)?;
    push_arguments(args, out)
}

/// Adds a choice.
pub fn push_choice<'t>(
    arms: &'t [Arm<Boxed<Expr>>],
    last: &'t Expr,
    out: &mut Vec<LineItem<'t>>,
) -> Result<(), OutOfMemory>
    ensures { OnOk result (map item_of out.new.items ≡ map item_of out.old.items ++ each_of (arm_row given_marks items.expr) arms.now (ANode (AnExpr last.now) ∷ [])) }
{
    push_arms(arms, out)?;
    push_node(Node::Expr(last), out)
}

/// Adds a function.
pub fn push_keyword<'t>(
    word: &'t Token,
    name: &'t Option<Token>,
    params: &'t Bracket<Slot>,
    body: &'t Block<Stmt>,
    out: &mut Vec<LineItem<'t>>,
) -> Result<(), OutOfMemory>
    ensures { OnOk result (map item_of out.new.items ≡ map item_of out.old.items ++ AToken word.now ∷ possible name.now (bracket_row given_marks items.slot params.now (AToken body.now.begin ∷ each_of items.stmt body.now.body (AToken body.now.end ∷ [])))) }
{
    push_token(word, out)?;
    push_possible(name, out)?;
    push_params(params, out)?;
    push_block(body, out)
}

/// Adds a declaration.
pub fn push_vars<'t>(
    word: &'t Token,
    first: &'t Slot,
    rest: &'t [Further<Slot>],
    semi: &'t Option<Token>,
    out: &mut Vec<LineItem<'t>>,
) -> Result<(), OutOfMemory>
    ensures { OnOk result (map item_of out.new.items ≡ map item_of out.old.items ++ AToken word.now ∷ ANode (ASlot first.now) ∷ each_of (λ x more. AToken x.mark ∷ ANode (ASlot x.item) ∷ more) rest.now (possible semi.now [])) }
{
    push_token(word, out)?;
    push_node(Node::Slot(first), out)?;
    push_further_slots(rest, out)?;
    push_possible(semi, out)
}

/// Adds the end of a function.
pub fn push_return<'t>(
    word: &'t Token,
    value: &'t Option<Boxed<Expr>>,
    semi: &'t Option<Token>,
    out: &mut Vec<LineItem<'t>>,
) -> Result<(), OutOfMemory>
    ensures { OnOk result (map item_of out.new.items ≡ map item_of out.old.items ++ AToken word.now ∷ maybe items.expr value.now (possible semi.now [])) }
{
    push_token(word, out)?;
    push_value(value, out)?;
    push_possible(semi, out)
}

/// Adds a token, where there is one.
pub fn push_possible<'t>(
    token: &'t Option<Token>,
    out: &mut Vec<LineItem<'t>>,
) -> Result<(), OutOfMemory>
    ensures { OnOk result (map item_of out.new.items ≡ map item_of out.old.items ++ possible token.now []) }
{
    match token {
        None => Ok(()),
        Some(token) => push_token(token, out),
    }
}

/// Adds an expression, where there is one.
pub fn push_value<'t>(
    value: &'t Option<Boxed<Expr>>,
    out: &mut Vec<LineItem<'t>>,
) -> Result<(), OutOfMemory>
    ensures { OnOk result (map item_of out.new.items ≡ map item_of out.old.items ++ maybe items.expr value.now []) }
{
    match value {
        None => Ok(()),
        Some(value) => push_node(Node::Expr(value.get()), out),
    }
}

/// Adds what a slot is given.
pub fn push_init<'t>(
    init: &'t Option<Init<Boxed<Expr>>>,
    out: &mut Vec<LineItem<'t>>,
) -> Result<(), OutOfMemory>
    ensures { OnOk result (map item_of out.new.items ≡ map item_of out.old.items ++ maybe (init_row given_marks items.expr) init.now []) }
{
    match init {
        None => Ok(()),
        Some(init) => {
            push_token(&init.equals, out)?;
            push_node(Node::Expr(init.value.get()), out)
        }
    }
}

/// Adds what stands first in a chain, and its tails.
pub fn push_chain<'t>(
    head: &'t Expr,
    tails: &'t [Tail<Boxed<Expr>>],
    out: &mut Vec<LineItem<'t>>,
) -> Result<(), OutOfMemory>
    ensures { OnOk result (map item_of out.new.items ≡ map item_of out.old.items ++ ANode (AnExpr head.now) ∷ tail_items head.now [] tails.now []) }
{
    push_node(Node::Expr(head), out)?;
    push_tails(head, tails, out)
}

/// Adds the tails behind this head.
pub fn push_tails<'t>(
    head: &'t Expr,
    tails: &'t [Tail<Boxed<Expr>>],
    out: &mut Vec<LineItem<'t>>,
) -> Result<(), OutOfMemory>
    ensures { OnOk result (map item_of out.new.items ≡ map item_of out.old.items ++ tail_items head.now [] tails.now []) }
{
    for at in 0..tails.len() {
        let node = Node::Tail {
            head,
            before: &tails[..at],
            tail: &tails[at],
        };
        push_node(node, out)?;
    }
    Ok(())
}

/// Adds one or more expressions, with what stands between them.
pub fn push_several<'t>(
    first: &'t Expr,
    rest: &'t [Further<Boxed<Expr>>],
    out: &mut Vec<LineItem<'t>>,
) -> Result<(), OutOfMemory>
    ensures { OnOk result (map item_of out.new.items ≡ map item_of out.old.items ++ ANode (AnExpr first.now) ∷ each_of (λ x more. AToken x.mark ∷ ANode (AnExpr x.item) ∷ more) rest.now []) }
{
    push_node(Node::Expr(first), out)?;
    push_further(rest, out)
}

/// Adds further expressions, each with its mark.
pub fn push_further<'t>(
    rest: &'t [Further<Boxed<Expr>>],
    out: &mut Vec<LineItem<'t>>,
) -> Result<(), OutOfMemory>
    ensures { OnOk result (map item_of out.new.items ≡ map item_of out.old.items ++ each_of (λ x more. AToken x.mark ∷ ANode (AnExpr x.item) ∷ more) rest.now []) }
{
    for further in rest {
        push_operand(further, out)?;
    }
    Ok(())
}

/// Adds a further expression behind its mark.
pub fn push_operand<'t>(
    further: &'t Further<Boxed<Expr>>,
    out: &mut Vec<LineItem<'t>>,
) -> Result<(), OutOfMemory>
    ensures { OnOk result (map item_of out.new.items ≡ map item_of out.old.items ++ AToken further.now.mark ∷ ANode (AnExpr further.now.item) ∷ []) }
{
    push_token(&further.mark, out)?;
    push_node(Node::Expr(further.item.get()), out)
}

/// Adds further slots, each with its comma.
pub fn push_further_slots<'t>(
    rest: &'t [Further<Slot>],
    out: &mut Vec<LineItem<'t>>,
) -> Result<(), OutOfMemory>
    ensures { OnOk result (map item_of out.new.items ≡ map item_of out.old.items ++ each_of (λ x more. AToken x.mark ∷ ANode (ASlot x.item) ∷ more) rest.now []) }
{
    for further in rest {
        push_further_slot(further, out)?;
    }
    Ok(())
}

/// Adds a further slot behind its comma.
pub fn push_further_slot<'t>(
    further: &'t Further<Slot>,
    out: &mut Vec<LineItem<'t>>,
) -> Result<(), OutOfMemory>
    ensures { OnOk result (map item_of out.new.items ≡ map item_of out.old.items ++ AToken further.now.mark ∷ ANode (ASlot further.now.item) ∷ []) }
{
    push_token(&further.mark, out)?;
    push_node(Node::Slot(&further.item), out)
}

/// Adds the arms of a choice.
pub fn push_arms<'t>(
    arms: &'t [Arm<Boxed<Expr>>],
    out: &mut Vec<LineItem<'t>>,
) -> Result<(), OutOfMemory>
    ensures { OnOk result (map item_of out.new.items ≡ map item_of out.old.items ++ each_of (arm_row given_marks items.expr) arms.now []) }
{
    for arm in arms {
        push_arm(arm, out)?;
    }
    Ok(())
}

/// Adds an arm of a choice.
pub fn push_arm<'t>(
    arm: &'t Arm<Boxed<Expr>>,
    out: &mut Vec<LineItem<'t>>,
) -> Result<(), OutOfMemory>
    ensures { OnOk result (map item_of out.new.items ≡ map item_of out.old.items ++ arm_row given_marks items.expr arm.now []) }
{
    push_node(Node::Expr(arm.test.get()), out)?;
    push_token(&arm.question, out)?;
    push_node(Node::Expr(arm.value.get()), out)?;
    push_token(&arm.colon, out)
}

/// Adds a template.
pub fn push_template<'t>(
    template: &'t Template<Boxed<Expr>>,
    out: &mut Vec<LineItem<'t>>,
) -> Result<(), OutOfMemory>
    ensures { OnOk result (map item_of out.new.items ≡ map item_of out.old.items ++ template_row given_marks items.expr template.now []) }
{
    push_token(&template.head, out)?;
    push_substitutions(template.parts.as_slice(), out)
}

/// Adds the substitutions of a template, each with the part behind it.
pub fn push_substitutions<'t>(
    parts: &'t [Listed<Boxed<Expr>>],
    out: &mut Vec<LineItem<'t>>,
) -> Result<(), OutOfMemory>
    ensures { OnOk result (map item_of out.new.items ≡ map item_of out.old.items ++ each_of (listed_row given_marks items.expr) parts.now []) }
{
    for part in parts {
        push_substitution(part, out)?;
    }
    Ok(())
}

/// Adds a substitution and the part behind it.
pub fn push_substitution<'t>(
    part: &'t Listed<Boxed<Expr>>,
    out: &mut Vec<LineItem<'t>>,
) -> Result<(), OutOfMemory>
    ensures { OnOk result (map item_of out.new.items ≡ map item_of out.old.items ++ listed_row given_marks items.expr part.now []) }
{
    push_node(Node::Expr(part.item.get()), out)?;
    push_token(&part.mark, out)
}

/// Adds statements in braces.
pub fn push_block<'t>(
    block: &'t Block<Stmt>,
    out: &mut Vec<LineItem<'t>>,
) -> Result<(), OutOfMemory>
    ensures { OnOk result (map item_of out.new.items ≡ map item_of out.old.items ++ AToken block.now.begin ∷ each_of items.stmt block.now.body (AToken block.now.end ∷ [])) }
{
    push_token(&block.begin, out)?;
    push_body(block.body.as_slice(), out)?;
    push_token(&block.end, out)
}

/// Adds statements.
pub fn push_body<'t>(body: &'t [Stmt], out: &mut Vec<LineItem<'t>>) -> Result<(), OutOfMemory>
    ensures { OnOk result (map item_of out.new.items ≡ map item_of out.old.items ++ each_of items.stmt body.now []) }
{
    for statement in body {
        push_node(Node::Stmt(statement), out)?;
    }
    Ok(())
}
