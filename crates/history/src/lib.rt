// A book, and then acts and questions in any order, from bytes: each question is answered of the book as it is then.
#![tactic(auto)]

mod ask;
mod reading;

pub use ask::{answer_lines, answer_records};
