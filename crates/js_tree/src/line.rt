//! The line of a node of any kind: its tokens and the nodes in it, in the order of the text.
ghost use Rattle.std.specs.Prelude.{◌≡◌, ◌++◌, ◌∷◌, [], map, OnOk};
ghost use Rattle.js_tree.specs.Parts.{node_of};
ghost use Rattle.js_tree.specs.Line.{AToken, ANode, item_of, line_of};
ghost use Rattle.js_tree.specs.Parts.{AnExpr, AFunction, APattern, AStmt, ASlot, ATail};
ghost use Rattle.js_tree.specs.Line.{given_marks, items};
ghost use Rattle.js_tree.specs.Spelling.Rows.{tail_row};

use crate::line_bracket::push_bracket;
use crate::line_list::{
    push_body, push_chain, push_choice, push_init, push_keyword, push_new, push_possible,
    push_return, push_several, push_template, push_vars,
};
use crate::lists::Tail;
use crate::node::Node;
use crate::token::Token;
use crate::tree::{Expr, Function, Pattern, Slot, Stmt};
use jam_base::OutOfMemory;
use sqlite_items::Boxed;

/// A token of a line, or a node in it.
#[derive(Clone, Copy)]
pub enum LineItem<'t> {
    /// A token.
    Token(&'t Token),
    /// A node.
    Node(Node<'t>),
}

/// Adds the line of a node.
pub fn push_line<'t>(node: Node<'t>, out: &mut Vec<LineItem<'t>>) -> Result<(), OutOfMemory>
    ensures { OnOk result (map item_of out.new.items ≡ map item_of out.old.items ++ line_of (node_of node.entry)) }
{
    match node {
        Node::Expr(value) => push_expr(value, out),
        Node::Function(function) => push_function(function, out),
        Node::Pattern(pattern) => push_pattern(pattern, out),
        Node::Stmt(statement) => push_stmt(statement, out),
        Node::Slot(slot) => push_slot(slot, out),
        Node::Tail {
            head: _,
            before: _,
            tail,
        } => push_tail(tail, out),
        Node::Body(body) => push_body(body, out),
    }
}

fn push_expr<'t>(value: &'t Expr, out: &mut Vec<LineItem<'t>>) -> Result<(), OutOfMemory>
    ensures { OnOk result (map item_of out.new.items ≡ map item_of out.old.items ++ line_of (AnExpr value.now)) }
{
    match value {
        Expr::Name(token) => push_token(token, out),
        Expr::This(token) => push_token(token, out),
        Expr::Literal(token) => push_token(token, out),
        Expr::Template(template) => push_template(template, out),
        Expr::Paren { open, inner, close } => {
            push_token(open, out)?;
            push_node(Node::Expr(inner.get()), out)?;
            push_token(close, out)
        }
        Expr::Fun { function } => push_node(Node::Function(function.get()), out),
        Expr::Chain { head, tails } => push_chain(head.get(), tails.as_slice(), out),
        Expr::New {
            word,
            head,
            tails,
            args,
        } => push_new(word, head.get(), tails.as_slice(), args, out),
        Expr::NewTarget { word, dot, target } => {
            push_token(word, out)?;
            push_token(dot, out)?;
            push_token(target, out)
        }
        Expr::Postfix { target, op } => {
            push_node(Node::Expr(target.get()), out)?;
            push_token(op, out)
        }
        Expr::Unary { op, operand } => {
            push_token(op, out)?;
            push_node(Node::Expr(operand.get()), out)
        }
        Expr::Power { base, op, exponent } => {
            push_node(Node::Expr(base.get()), out)?;
            push_token(op, out)?;
            push_node(Node::Expr(exponent.get()), out)
        }
        Expr::Binary {
            level: _,
            first,
            rest,
        } => push_several(first.get(), rest.as_slice(), out),
        Expr::Cond { arms, last } => push_choice(arms.as_slice(), last.get(), out),
        Expr::Assign { target, op, value } => {
            push_node(Node::Pattern(target.get()), out)?;
            push_token(op, out)?;
            push_node(Node::Expr(value.get()), out)
        }
        Expr::Comma { first, rest } => push_several(first.get(), rest.as_slice(), out),
    }
}

fn push_function<'t>(function: &'t Function, out: &mut Vec<LineItem<'t>>) -> Result<(), OutOfMemory>
    ensures { OnOk result (map item_of out.new.items ≡ map item_of out.old.items ++ line_of (AFunction function.now)) }
{
    match function {
        Function::Keyword {
            word,
            name,
            params,
            body,
        } => push_keyword(word, name, params, body, out),
    }
}

fn push_pattern<'t>(pattern: &'t Pattern, out: &mut Vec<LineItem<'t>>) -> Result<(), OutOfMemory>
    ensures { OnOk result (map item_of out.new.items ≡ map item_of out.old.items ++ line_of (APattern pattern.now)) }
{
    match pattern {
        Pattern::Name(token) => push_token(token, out),
        Pattern::Member { chain } => push_node(Node::Expr(chain.get()), out),
        Pattern::Paren { open, inner, close } => {
            push_token(open, out)?;
            push_node(Node::Pattern(inner.get()), out)?;
            push_token(close, out)
        }
    }
}

fn push_stmt<'t>(statement: &'t Stmt, out: &mut Vec<LineItem<'t>>) -> Result<(), OutOfMemory>
    ensures { OnOk result (map item_of out.new.items ≡ map item_of out.old.items ++ line_of (AStmt statement.now)) }
{
    match statement {
        Stmt::Plain { value, semi } => {
            push_node(Node::Expr(value.get()), out)?;
            push_possible(semi, out)
        }
        Stmt::Vars {
            word,
            first,
            rest,
            semi,
        } => push_vars(word, first, rest.as_slice(), semi, out),
        Stmt::Return { word, value, semi } => push_return(word, value, semi, out),
        Stmt::Fun { function } => push_node(Node::Function(function.get()), out),
    }
}

fn push_slot<'t>(slot: &'t Slot, out: &mut Vec<LineItem<'t>>) -> Result<(), OutOfMemory>
    ensures { OnOk result (map item_of out.new.items ≡ map item_of out.old.items ++ line_of (ASlot slot.now)) }
{
    push_node(Node::Pattern(&slot.target), out)?;
    push_init(&slot.init, out)
}

fn push_tail<'t>(
    tail: &'t Tail<Boxed<Expr>>,
    out: &mut Vec<LineItem<'t>>,
) -> Result<(), OutOfMemory>
    ensures { OnOk result (map item_of out.new.items ≡ map item_of out.old.items ++ tail_row given_marks items.expr tail.now []) }
{
    match tail {
        Tail::Member { dot, name } => {
            push_token(dot, out)?;
            push_token(name, out)
        }
        Tail::Index { open, value, close } => {
            push_token(open, out)?;
            push_node(Node::Expr(value.get()), out)?;
            push_token(close, out)
        }
        Tail::Call(arguments) => push_bracket(arguments, out),
        Tail::Template(template) => push_template(template, out),
    }
}

/// Adds a token.
pub fn push_token<'t>(token: &'t Token, out: &mut Vec<LineItem<'t>>) -> Result<(), OutOfMemory>
    ensures { OnOk result (map item_of out.new.items ≡ map item_of out.old.items ++ AToken token.now ∷ []) }
{
    out.push(LineItem::Token(token))?;
    Ok(())
}

/// Adds a node.
pub fn push_node<'t>(node: Node<'t>, out: &mut Vec<LineItem<'t>>) -> Result<(), OutOfMemory>
    ensures { OnOk result (map item_of out.new.items ≡ map item_of out.old.items ++ ANode (node_of node.entry) ∷ []) }
{
    out.push(LineItem::Node(node))?;
    Ok(())
}
