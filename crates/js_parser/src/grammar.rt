//! The rules of the grammar take the readers of what stands in a node as parameters, so that each is proved by itself.
ghost use Rattle.std.specs.Prelude.{◌≡◌, ◌<◌, ◌-◌, true};
ghost use Rattle.js_parser.specs.Nodes.{Knot, is_level, ReadsExpr, ReadsStmts};

use crate::tall::{Tall, Value};
use js_tokens::{TokenFault, TokenReader};
use js_tree::Stmt;
use sqlite_items::Items;
use std::alloc::Global;

/// The rules, over the readers of what stands in a node.
#[derive(Clone, Copy)]
pub struct Grammar<E, S> {
    /// Where nodes are put.
    pub alloc: Global,
    /// How tall the nodes may be.
    pub room: u32,
    /// The reader of an expression of a level in a node.
    pub expr: E,
    /// The reader of the statements in a node.
    pub stmts: S,
}

impl<
    E: Fn(Global, &mut TokenReader<'_>, u32, u8) -> Result<Value, TokenFault>,
    S: Fn(Global, &mut TokenReader<'_>, u32) -> Result<Tall<Items<Stmt>>, TokenFault>,
> Grammar<E, S> {
    /// An expression of the level in a node.
    pub fn inner(&self, reader: &mut TokenReader<'_>, level: u8) -> Result<Value, TokenFault>
        requires knot { Knot E.Fn S.Fn self.now }
        requires some { 0 < self.now.room }
        requires level { is_level level ≡ true }
        ensures reads { ReadsExpr level (self.now.room - 1) reader.old reader.new result }
    {
        (self.expr)(self.alloc, reader, self.room - 1, level)
    }

    /// The statements in a node.
    pub fn inner_stmts(&self, reader: &mut TokenReader<'_>) -> Result<Tall<Items<Stmt>>, TokenFault>
        requires knot { Knot E.Fn S.Fn self.now }
        requires some { 0 < self.now.room }
        ensures reads { ReadsStmts (self.now.room - 1) reader.old reader.new result }
    {
        (self.stmts)(self.alloc, reader, self.room - 1)
    }
}
