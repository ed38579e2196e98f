//! The texts that the program prints: call edges, reports, and texts taken from files with their escapes.
//! `report` has what a report says, `lines` prints it as text and `values` as JSON; `graph` prints call
//! edges. All specs are promises.
#![tactic(auto)]

mod escape;
mod graph;
mod lines;
mod report;
mod shown;
mod values;

pub use escape::escaped;
pub use graph::graph_text;
pub use lines::text;
pub use report::{Alarm, Counts, LineColumn, Note, Report};
pub use shown::{PathStep, Shown};
pub use values::json;
