// Questions about a book from bytes, and their answers as they are printed.
#![tactic(auto)]

mod ask;
mod read;
mod record;
mod shared;
mod table;

pub use ask::{answer_lines, line};
pub use codec::InputError;
pub use record::{Answers, answer_records};
pub use table::sharing_table;
