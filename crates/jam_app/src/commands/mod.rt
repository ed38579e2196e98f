//! The text that each command owes.
pub(crate) mod audit;
pub(crate) mod graph;
