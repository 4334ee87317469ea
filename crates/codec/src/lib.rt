// The bytes of books and acts: reading, with the first fault and its place, and writing.
#![tactic(auto)]

mod act;
mod book;
mod error;
mod fault;
mod history;
mod kind;
mod question;
mod reader;
mod theorems;
mod write;

pub use book::read_book;
pub use error::InputError;
pub use fault::Fault;
pub use history::{apply_act, replay};
pub use kind::{Kind, UnknownKind};
pub use model::{NARROW, Question, RIGHTS};
pub use question::read_narrow_book;
pub use reader::Reader;
pub use theorems::formats_agree;
pub use write::write_book;
