// A graph that changes, with its rows of take paths: after each rule only those rows are worked out anew that the rule can have changed.
#![tactic(auto)]

mod kept;
mod rows;

pub use kept::ChangingGraph;
pub use rows::WORDS;
