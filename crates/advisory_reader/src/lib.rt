//! Advisories: which functions of which versions of a package are vulnerable.
#![tactic(auto)]

mod advisory;
mod fault;
mod item;
mod read;
mod selectors;

pub use advisory::{Advisory, Selector};
pub use fault::{AdvisoryFault, Field};
pub use read::read_advisories;
