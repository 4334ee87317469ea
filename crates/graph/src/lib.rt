// Protection graphs: how a protection state is stored, and rules applied to it.
// A graph stands for a state of the model (specs/Graphs.antt), and every contract speaks of that state.
#![tactic(auto)]

mod apply;
mod graph;
mod refusal;

pub use apply::Apply;
pub use graph::{Graph, width};
pub use refusal::Refusal;
