//! The knot of the grammar: what stands in a node is read by these functions, with less room.
ghost use Rattle.std.specs.Prelude.{◌≡◌, true};
ghost use Rattle.js_parser.specs.Nodes.{is_level, ReadsExpr, ReadsStmts};

use crate::grammar::Grammar;
use crate::tall::{Tall, Value};
use js_tokens::{TokenFault, TokenReader};
use js_tree::Stmt;
use sqlite_items::Items;
use std::alloc::Global;

/// An expression of the level, no taller than the room.
#[cycle(knot)]
pub fn expr(
    alloc: Global,
    reader: &mut TokenReader<'_>,
    room: u32,
    level: u8,
) -> Result<Value, TokenFault>
    requires level { is_level level ≡ true }
    ensures reads { ReadsExpr level room reader.old reader.new result }
{
    Grammar {
        alloc,
        room,
        expr,
        stmts,
    }
    .expression(reader, level)
}

/// Statements no taller than the room, up to a `}` or the end.
#[cycle(knot)]
pub fn stmts(
    alloc: Global,
    reader: &mut TokenReader<'_>,
    room: u32,
) -> Result<Tall<Items<Stmt>>, TokenFault>
    ensures reads { ReadsStmts room reader.old reader.new result }
{
    Grammar {
        alloc,
        room,
        expr,
        stmts,
    }
    .statements(reader)
}
