//! Sets of numbers that share one region of memory. Read `pool` first; a pool keeps its sets as lists in
//! chunks (`lists`), and for each larger set a table (`table`) of its values, all in one region (`index`).
//!
//! `specs/Sets` says what contracts see of a pool. The other specs serve the proofs.
#![tactic(auto)]

mod index;
mod lists;
mod pool;
mod table;

pub use pool::SetPool;
