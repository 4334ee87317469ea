// The table of answers while it is worked out.
mod spread;
mod turn;
mod work;

ghost use Rattle.std.specs.Prelude.{◌≡◌, ℕ, ◌+◌, ◌*◌, ◌<◌, ◌≤◌, length};
ghost use Rattle.graph.specs.Graphs.{state};
ghost use Rattle.graph.specs.Table.{row_width};

use graph::Graph;
use model::{RIGHTS, Right, Vertex};
pub use work::filled;

// Rows of W words for each right to each vertex of a graph, in words that are lent.
#[derive(Drop)]
pub struct Table<'g, 'm, const W: usize> {
    graph: &'g Graph,
    rows: &'m mut [u64],
    ghost fits: { 8 * (state graph.now).size * W ≤ length rows.now },
    ghost exact: { W ≡ row_width (state graph.now).size },
    ghost wide: { (state graph.now).size ≤ 64 * W },
    ghost narrow: { W ≤ 4 },
}

// Where the row of right r to y is. A graph's rows are by the same number, of who has the right; where they are is its own affair, and not told.
pub fn row(r: Right, y: Vertex) -> usize
    ensures { result ≡ 8 * y + r }
{
    row_at(r, usize::from(y))
}

// The same, of a vertex that is counted through words of 64.
fn row_at(r: Right, y: usize) -> usize
    requires { y < 256 }
    ensures { result ≡ 8 * y + r }
{
    RIGHTS as usize * y + usize::from(r)
}
