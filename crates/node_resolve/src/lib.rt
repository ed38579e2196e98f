//! Where the text of a require leads: to a module, to a file that is no code, to a core module or
//! nowhere, by Node's rules for packages and files. `target` has the calls; below it `packages` walks
//! over folders, `search` looks for files, `exports` and `pick` read the `exports` of a package.json
//! that `manifest` reads, and `shape` and `names` tell what a text is by its characters. Of the specs
//! all are promises: `Targets` first, then what it cites.
#![tactic(auto)]

mod exports;
mod fault;
mod manifest;
mod names;
mod packages;
mod pick;
mod search;
mod shape;
mod target;

pub use fault::ResolveFault;
pub use target::{Target, entry_of, resolve};
