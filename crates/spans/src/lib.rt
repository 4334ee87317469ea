// Who reaches what in a graph: rows of take paths, spans, and the islands of connected subjects.
#![tactic(auto)]

mod barrier;
mod closure;
mod front;
mod links;
mod paths;
mod turned;

pub use barrier::Barrier;
pub use closure::lead;
pub use graph::width;
pub use links::{Links, reach};
pub use paths::TakePaths;
pub use turned::holders;
