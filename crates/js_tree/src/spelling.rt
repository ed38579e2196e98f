//! The tokens of a tree.
ghost use Rattle.std.specs.Prelude.{◌≡◌, ◌<◌, ◌+◌, ◌++◌, ◌∷◌, [], map, reverse, IfOk, OnOk};
ghost use Rattle.std.specs.List.{sum_by};
ghost use Rattle.js_tree.specs.Parts.{left_in};
ghost use Rattle.js_tree.specs.Spelling.{tokens_of};
ghost use Rattle.js_tree.specs.Line.{item_of, tokens_at, work_for};

use crate::line::{LineItem, push_line};
use crate::node::Node;
use crate::token::Token;
use crate::tree::Tree;
use jam_base::{List, OutOfMemory};
use std::alloc::Global;

/// The tokens of a tree, in the order of the text, without the end.
pub fn spell(alloc: Global, tree: &Tree) -> Result<List<Token>, OutOfMemory>
    ensures { IfOk result (λ tokens. tokens ≡ tokens_of tree.now) }
{
    let mut out = Vec::new(alloc);
    let mut line = Vec::new(alloc);
    let mut left = Vec::new(alloc);
    left.push(LineItem::Node(Node::Body(tree.body.as_slice())))?;
    while let Some(next) = left.pop() {
        write_next(alloc, next, &mut line, &mut left, &mut out)?;
    }
    Ok(List::of(out))
}

// Writes a token, or puts the line of a node on top of what is left to do.
fn write_next<'t>(
    alloc: Global,
    next: LineItem<'t>,
    line: &mut Vec<LineItem<'t>>,
    left: &mut Vec<LineItem<'t>>,
    out: &mut Vec<Token>,
) -> Result<(), OutOfMemory>
    requires { line.old.items ≡ [] }
    ensures empty { OnOk result (line.new.items ≡ []) }
    ensures writes { OnOk result (out.new.items ++ left_in (λ p. tokens_at (item_of p)) left.new.items
        ≡ out.old.items ++ tokens_at (item_of next.entry) ++ left_in (λ p. tokens_at (item_of p)) left.old.items) }
    ensures fewer { OnOk result (sum_by (λ p. work_for (item_of p)) left.new.items < work_for (item_of next.entry) + sum_by (λ p. work_for (item_of p)) left.old.items) }
{
    match next {
        LineItem::Token(token) => {
            out.push(copy_of(alloc, token)?)?;
            Ok(())
        }
        LineItem::Node(node) => {
            push_line(node, line)?;
            put_on_top(line, left)
        }
    }
}

// A token equal to this one.
fn copy_of(alloc: Global, token: &Token) -> Result<Token, OutOfMemory>
    ensures { IfOk result (λ copy. copy ≡ token.now) }
{
    Ok(Token {
        text: token.text.copy(alloc)?,
        start: token.start,
        class: token.class,
        nl_before: token.nl_before,
    })
}

// Moves items to the top of what is left to do, the first of them last.
fn put_on_top<'t>(
    line: &mut Vec<LineItem<'t>>,
    left: &mut Vec<LineItem<'t>>,
) -> Result<(), OutOfMemory>
    ensures empty { OnOk result (line.new.items ≡ []) }
    ensures moved { OnOk result (left.new.items ≡ left.old.items ++ reverse line.old.items) }
{
    while let Some(item) = line.pop() {
        left.push(item)?;
    }
    Ok(())
}
