//! Values, where they are no taller than the room.
ghost use Rattle.std.specs.Prelude.{◌≤◌};
ghost use Rattle.js_parser.specs.Nodes.{IsSeen, Makes};

use crate::tall::Value;
use js_tokens::{TokenFault, TokenReader};
use js_tree::Expr;
use sqlite_items::Boxed;
use std::alloc::Global;

/// The expression as a value, where the nodes in it are this tall at most.
pub fn value(
    alloc: Global,
    reader: &TokenReader<'_>,
    room: u32,
    node: Expr,
    below: u32,
    rank: u8,
    is_target: bool,
) -> Result<Value, TokenFault>
    requires seen { IsSeen node below rank is_target }
    ensures made { Makes rank room node reader.now result }
{
    if room <= below {
        return Err(reader.refusal());
    }
    Ok(Value {
        node: Boxed::new(alloc, node)?,
        height: below + 1,
        rank,
        is_target,
    })
}
