// Sets of vertices as bits: the sets themselves, and tables with a row of words for each vertex.
#![tactic(auto)]

mod big_endian;
mod block;
mod members;
mod rows;
mod select;
mod set;
mod words;

pub use block::transpose;
pub use members::Members;
pub use rows::{
    row_add, row_clear, row_contains, row_count, row_insert, row_is_subset, row_put, row_set,
    row_union, row_word,
};
pub use select::{those, united};
pub use set::{BitSet, VertexSet, WIDE};
pub use words::{has_bit, pop_bit};
