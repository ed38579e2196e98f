//! Summaries of modules: what an application has to know of a module's flows.
//!
//! `specs/Pairs` says what a module's flows mean to other modules, and `specs/Folds` which summaries say
//! the same; both are promised.
#![tactic(auto)]

mod folding;
mod summary;

pub use folding::fold;
pub use summary::Summary;
