//! The least solution: which functions come to which vertices of an application, and the call edges
//! that follow.
//!
//! Read `call_graph` first: it builds the system of all parts (`build`), numbers its vertices (`numbers`),
//! solves it by a worklist (`worklist`, over `carry`, `noted`, `places` and `targets`) and reads the edges off
//! (`edges`). Of the specs `Parts`, `Sizes`, `Application`, `Natives`, `Steps`, `Solution`, `Uses`, `Edges` and
//! `Graphs` are promised, the others serve proofs.
#![tactic(auto)]

mod application;
mod build;
mod call_graph;
mod carry;
mod edges;
mod graph;
mod law;
mod noted;
mod numbers;
mod places;
mod size;
mod system;
mod targets;
mod worklist;

pub use application::{Link, ModuleVertex, Part, Value};
pub use call_graph::compose;
pub use graph::Graph;
pub use law::{least_solution, one_edge_list};
pub use size::{SIZE_LIMIT, size_of};
pub use system::{Arrow, CallSite, Callable, System};
