//! Nodes of any kind, and their parts.
ghost use Rattle.std.specs.Prelude.{◌≡◌, ◌++◌, ◌∷◌, [], map, OnOk};
ghost use Rattle.js_tree.specs.Parts.{AnExpr, AFunction, APattern, AStmt, ASlot, node_of, nodes, parts};
ghost use Rattle.js_tree.specs.Spelling.Rows.{tail_row};
ghost use Rattle.js_tree.specs.Spelling.Nodes.{unmarked};

use crate::lists::Tail;
use crate::node_list::{
    push_bracket, push_chain, push_choice, push_further_slots, push_keyword, push_new,
    push_several, push_stmts, push_template, push_two, push_value,
};
use crate::tree::{Expr, Function, Pattern, Slot, Stmt};
use jam_base::OutOfMemory;
use sqlite_items::Boxed;

/// A node of a tree.
#[derive(Clone, Copy)]
pub enum Node<'t> {
    /// An expression.
    Expr(&'t Expr),
    /// A function.
    Function(&'t Function),
    /// A pattern.
    Pattern(&'t Pattern),
    /// A statement.
    Stmt(&'t Stmt),
    /// A slot.
    Slot(&'t Slot),
    /// A tail of a chain, or of what `new` makes.
    Tail {
        /// What stands first.
        head: &'t Expr,
        /// The tails before it.
        before: &'t [Tail<Boxed<Expr>>],
        /// The tail.
        tail: &'t Tail<Boxed<Expr>>,
    },
    /// Statements one after another.
    Body(&'t [Stmt]),
}

/// Adds the parts of a node, in the order of the text.
pub fn push_parts<'t>(node: Node<'t>, out: &mut Vec<Node<'t>>) -> Result<(), OutOfMemory>
    ensures { OnOk result (map node_of out.new.items ≡ map node_of out.old.items ++ parts (node_of node.entry)) }
{
    match node {
        Node::Expr(value) => push_expr_parts(value, out),
        Node::Function(function) => push_function_parts(function, out),
        Node::Pattern(pattern) => push_pattern_parts(pattern, out),
        Node::Stmt(statement) => push_stmt_parts(statement, out),
        Node::Slot(slot) => push_slot_parts(slot, out),
        Node::Tail {
            head: _,
            before: _,
            tail,
        } => push_tail_parts(tail, out),
        Node::Body(body) => push_stmts(body, out),
    }
}

fn push_expr_parts<'t>(value: &'t Expr, out: &mut Vec<Node<'t>>) -> Result<(), OutOfMemory>
    ensures { OnOk result (map node_of out.new.items ≡ map node_of out.old.items ++ parts (AnExpr value.now)) }
{
    match value {
        Expr::Name(_) => Ok(()),
        Expr::This(_) => Ok(()),
        Expr::Literal(_) => Ok(()),
        Expr::Template(template) => push_template(template, out),
        Expr::Paren {
            open: _,
            inner,
            close: _,
        } => push(Node::Expr(inner.get()), out),
        Expr::Fun { function } => push(Node::Function(function.get()), out),
        Expr::Chain { head, tails } => push_chain(head.get(), tails.as_slice(), out),
        Expr::New {
            word: _,
            head,
            tails,
            args,
        } => push_new(head.get(), tails.as_slice(), args, out),
        Expr::NewTarget {
            word: _,
            dot: _,
            target: _,
        } => Ok(()),
        Expr::Postfix { target, op: _ } => push(Node::Expr(target.get()), out),
        Expr::Unary { op: _, operand } => push(Node::Expr(operand.get()), out),
        Expr::Power {
            base,
            op: _,
            exponent,
        } => push_two(Node::Expr(base.get()), Node::Expr(exponent.get()), out),
        Expr::Binary {
            level: _,
            first,
            rest,
        } => push_several(first.get(), rest.as_slice(), out),
        Expr::Cond { arms, last } => push_choice(arms.as_slice(), last.get(), out),
        Expr::Assign {
            target,
            op: _,
            value,
        } => push_two(Node::Pattern(target.get()), Node::Expr(value.get()), out),
        Expr::Comma { first, rest } => push_several(first.get(), rest.as_slice(), out),
    }
}

fn push_function_parts<'t>(
    function: &'t Function,
    out: &mut Vec<Node<'t>>,
) -> Result<(), OutOfMemory>
    ensures { OnOk result (map node_of out.new.items ≡ map node_of out.old.items ++ parts (AFunction function.now)) }
{
    match function {
        Function::Keyword {
            word: _,
            name: _,
            params,
            body,
        } => push_keyword(params, body.body.as_slice(), out),
    }
}

fn push_pattern_parts<'t>(pattern: &'t Pattern, out: &mut Vec<Node<'t>>) -> Result<(), OutOfMemory>
    ensures { OnOk result (map node_of out.new.items ≡ map node_of out.old.items ++ parts (APattern pattern.now)) }
{
    match pattern {
        Pattern::Name(_) => Ok(()),
        Pattern::Member { chain } => push(Node::Expr(chain.get()), out),
        Pattern::Paren {
            open: _,
            inner,
            close: _,
        } => push(Node::Pattern(inner.get()), out),
    }
}

fn push_stmt_parts<'t>(statement: &'t Stmt, out: &mut Vec<Node<'t>>) -> Result<(), OutOfMemory>
    ensures { OnOk result (map node_of out.new.items ≡ map node_of out.old.items ++ parts (AStmt statement.now)) }
{
    match statement {
        Stmt::Plain { value, semi: _ } => push(Node::Expr(value.get()), out),
        Stmt::Vars {
            word: _,
            first,
            rest,
            semi: _,
        } => {
            push(Node::Slot(first), out)?;
            push_further_slots(rest.as_slice(), out)
        }
        Stmt::Return {
            word: _,
            value,
            semi: _,
        } => push_value(value, out),
        Stmt::Fun { function } => push(Node::Function(function.get()), out),
    }
}

fn push_slot_parts<'t>(slot: &'t Slot, out: &mut Vec<Node<'t>>) -> Result<(), OutOfMemory>
    ensures { OnOk result (map node_of out.new.items ≡ map node_of out.old.items ++ parts (ASlot slot.now)) }
{
    push(Node::Pattern(&slot.target), out)?;
    match &slot.init {
        None => Ok(()),
        Some(init) => push(Node::Expr(init.value.get()), out),
    }
}

fn push_tail_parts<'t>(
    tail: &'t Tail<Boxed<Expr>>,
    out: &mut Vec<Node<'t>>,
) -> Result<(), OutOfMemory>
    ensures { OnOk result (map node_of out.new.items ≡ map node_of out.old.items ++ tail_row unmarked nodes.expr tail.now []) }
{
    match tail {
        Tail::Member { dot: _, name: _ } => Ok(()),
        Tail::Index {
            open: _,
            value,
            close: _,
        } => push(Node::Expr(value.get()), out),
        Tail::Call(arguments) => push_bracket(arguments, out),
        Tail::Template(template) => push_template(template, out),
    }
}

pub fn push<'t>(node: Node<'t>, out: &mut Vec<Node<'t>>) -> Result<(), OutOfMemory>
    ensures { OnOk result (map node_of out.new.items ≡ map node_of out.old.items ++ node_of node.entry ∷ []) }
{
    out.push(node)?;
    Ok(())
}
