//! Which functions that advisories name an application can call: `alarms` finds them among the reachable
//! functions of the loaded modules, `locations_without_version` the installed packages whose version can't
//! be told, and both are over what was read and computed before. `found` has what an alarm is, `version`
//! and `affected` the two tests, `packages` finds the advisories on a package. `specs/Alarms` is the
//! promise; `specs/Packages` and `specs/Searching` serve proofs, the other specs are words in the promise.
#![tactic(auto)]

mod affected;
mod found;
mod packages;
mod search;
mod unversioned;
mod version;

pub use found::Found;
pub use search::alarms;
pub use unversioned::locations_without_version;
