// Witnesses: for a question whose answer is yes, the acts that bring the right about, exactly.
#![tactic(auto)]

mod answer;
mod choose;
mod ends;
mod halt;
mod layer;
mod plan;
mod routes;
mod row;
mod steps;
mod tables;
mod unwritten;
mod write;

pub use answer::{longest_answer, write_witness};
pub use halt::Halt;
pub use routes::Routes;
pub use unwritten::Unwritten;
