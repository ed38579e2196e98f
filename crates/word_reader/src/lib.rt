//! What the words of the command line ask for. `table` has the commands and their options; `given` reads
//! the words one after another by it, `request` all of them, and `help` makes the help text of it.
//! `specs/Requests` is the promise.
#![tactic(auto)]

mod given;
mod help;
mod request;
mod table;

pub use help::help_text;
pub use request::{Request, request_of};
pub use table::Command;
