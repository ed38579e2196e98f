//! Nodes with what the rules around them have to know.
ghost use Rattle.std.specs.Prelude.{◌≡◌, max};

use js_tree::Expr;
use sqlite_items::Boxed;

/// A node and its height: how many statements, expressions and patterns stand on the longest way down from it, itself
/// among them.
#[derive(Drop)]
pub struct Tall<T> {
    /// The node.
    pub node: T,
    /// Its height.
    pub height: u32,
}

/// An expression with its height, its rank (how tightly it holds together), and whether it is a target.
#[derive(Drop)]
pub struct Value {
    /// The expression.
    pub node: Boxed<Expr>,
    /// Its height.
    pub height: u32,
    /// Its rank.
    pub rank: u8,
    /// Whether it is a target.
    pub is_target: bool,
}

/// The greater of two heights.
pub fn higher(a: u32, b: u32) -> u32
    ensures { result ≡ max a b }
{
    if a < b { b } else { a }
}
