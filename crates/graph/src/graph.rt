// The representation of a graph, with its invariant.
mod apply;
mod build;
mod query;
mod rows;

ghost use Rattle.std.specs.Prelude.{◌≡◌, ◌<◌, length};
ghost use Rattle.graph.specs.Table.{SubjectsFit, RowsFit};

use bits::{VertexSet, WIDE};
use model::{NUMBERS, RIGHTS};
pub use rows::width;

// The most vertices of a graph, so that a byte numbers each and their count fits one too.
const MOST: u8 = 255;

// A row for each right.
const ROWS: usize = RIGHTS as usize;

// The rows of each half of the table: as many as there can be.
const HALF: usize = ROWS * NUMBERS;

// The words of a row of either half.
const WIDTH: usize = WIDE / 2;

const WORDS: usize = 2 * HALF * WIDTH;

// A fixed table with its size beside it: rules cost no allocation, and a graph can be made where memory is short.
#[derive(Drop)]
pub struct Graph {
    size: u8,
    subjects: VertexSet,
    // Whom a vertex has each right to: in one half of the table those below 128, in the other the rest. So what is looked at in a graph of up to 128 vertices
    // lies near, and nothing is moved when there is one more.
    rows: [u64; WORDS],
    ghost some: { 0 < size },
    ghost few: { size < 256 },
    ghost acting: { SubjectsFit size subjects },
    ghost whole: { length rows ≡ 8192 },
    ghost held: { RowsFit size rows },
}
