// The rows of a graph's table, in words.
ghost use Rattle.std.specs.Prelude.{◌≡◌, ℕ, ◌+◌, ◌*◌, ◌/◌, ◌<◌, ◌≤◌, not, ◌&&◌, length, ◌==◌};
ghost use Rattle.bits.specs.Rows.{cell};
ghost use Rattle.graph.specs.Table.{row_width};

use super::{HALF, ROWS};
use bits::{WIDE, row_put, row_word};
use model::{NARROW, Right, Vertex};

// The words of a row that has a bit for each of so many vertices. Who works in rows of W words asks for the size and calls one of two instances, in three places of the crates above:
// a closure can't be generic over a constant, and a trait for what is then done would be no plainer than the three ifs. That a graph fits, and that W is at
// most 4, is asked by each function below the ifs and is a ghost field of each struct that has both graph and W: a struct of a graph that fits would be taken
// apart by each for the graph.
pub fn width(size: u8) -> usize
    ensures { result ≡ row_width size }
{
    if size <= NARROW { 2 } else { WIDE }
}

// Where the row of right r of p is, in the half for targets below 128.
pub fn row(p: Vertex, r: Right) -> usize
    ensures { result ≡ 8 * p + r }
{
    ROWS * usize::from(p) + usize::from(r)
}

// Where the row of right r of p is that has a bit for q.
pub fn row_for(p: Vertex, r: Right, q: Vertex) -> usize
    ensures { result ≡ 2048 * (q / 128) + (8 * p + r) }
{
    HALF * usize::from(q / NARROW) + row(p, r)
}

// Takes k out of row x.
pub fn row_remove(rows: &mut [u64], w: usize, x: usize, k: usize)
    requires { (x * w + w ≤ length rows.old) × (k < 64 * w) }
    ensures { (y j : ℕ) → cell rows.new w y j ≡ (not (y == x && j == k) && cell rows.old w y j) }
{
    let word = row_word(rows, w, x, k / 64) & !(1 << (k % 64));
    row_put(rows, w, x, k / 64, word);
}
