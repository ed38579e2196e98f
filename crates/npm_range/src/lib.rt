//! Version ranges as npm writes them: alternatives between `||`, each of comparators between spaces.
//!
//! `Range::read` reads one, and `Range::holds` says for which versions it holds.
#![tactic(auto)]

mod comparator;
mod fault;
mod prefix;
mod range;
mod stretch;

pub use fault::RangeFault;
pub use range::Range;
