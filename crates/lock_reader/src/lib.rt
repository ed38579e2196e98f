//! Lockfiles as npm writes them: which packages are installed where, and to which of them a file
//! belongs.
#![tactic(auto)]

mod entries;
mod fault;
mod lock;
mod owner;
mod place;
mod read;

pub use fault::LockFault;
pub use lock::{Lock, LockEntry};
pub use owner::{after_front, within};
pub use read::read_lock;
