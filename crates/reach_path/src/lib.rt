//! Which functions can be reached from the entry of an application, and by which calls. `reach` is the
//! first call; below it stand numbers for functions (`numbers`), the edges with their numbers (`graph`),
//! the edges of each caller (`chains`), levels (`search`) and the last edges of paths (`lasts`).
//!
//! `specs/Levels` says what a level and a path are, and `specs/Reached` what a `Reach` says of them: these
//! are the promises. The others serve the proofs.
#![tactic(auto)]

mod chains;
mod follow;
mod graph;
mod lasts;
mod law;
mod numbers;
mod routes;
mod search;

pub use follow::reach;
pub use law::one_path;
pub use routes::Reach;
