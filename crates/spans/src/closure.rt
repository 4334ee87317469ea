// The closure of take rights, in rows of W words that are lent: n rounds over n rows. Rows of a lent slice are taken by their number, and what they ask
// of its length stands at each function: that tables are slices of words is a rule of the project.
ghost use Rattle.std.specs.Prelude.{◌≡◌, ℕ, ◌*◌, ◌<◌, ◌≤◌, false, ◌&&◌, ◌||◌, length, nat_lt};
ghost use Rattle.bits.specs.Rows.{cell};
ghost use Rattle.graph.specs.Graphs.{state};
ghost use Rattle.spans.specs.Paths.{path_from, step_from, rounds};

use bits::{row_add, row_contains, row_insert, row_union};
use graph::Graph;
use model::TAKE;

// Each of the n rows that has k gets what row k has.
fn round<const W: usize>(rows: &mut [u64], n: usize, k: usize)
    requires { (n * W ≤ length rows.old) × ((k < n) × (n ≤ 64 * W)) }
    ensures { (x y : ℕ) → cell rows.new W x y ≡ (cell rows.old W x y || (nat_lt x n && (cell rows.old W x k && cell rows.old W k y))) }
{
    for i in 0..n {
        if row_contains(rows, W, i, k) {
            row_union(rows, W, i, k);
        }
    }
}

fn close<const W: usize>(rows: &mut [u64], n: usize)
    requires { (n * W ≤ length rows.old) × (n ≤ 64 * W) }
    ensures { (x y : ℕ) → cell rows.new W x y ≡ rounds n (cell rows.old W) n x y }
{
    for k in 0..n {
        round::<W>(rows, n, k);
    }
}

// Adds each vertex, and whom it has take to, to the vertex's row.
fn begin<const W: usize>(graph: &Graph, rows: &mut [u64])
    requires { ((state graph.now).size * W ≤ length rows.old) × (((state graph.now).size ≤ 64 * W) × (W ≤ 4)) }
    ensures { (x y : ℕ) → cell rows.new W x y ≡ (cell rows.old W x y || step_from (state graph.now) x y) }
{
    for x in 0..graph.size() {
        let i = x as usize;
        row_add(rows, W, i, &graph.targets(x, TAKE));
        row_insert(rows, W, i, i);
    }
}

// The rows, which were empty, have whom take paths lead to.
pub fn lead<const W: usize>(graph: &Graph, rows: &mut [u64])
    requires graph_in_bounds { ((state graph.now).size * W ≤ length rows.old) × (((state graph.now).size ≤ 64 * W) × (W ≤ 4)) }
    requires by_index { (x y : ℕ) → cell rows.old W x y ≡ false }
    ensures { (x y : ℕ) → cell rows.new W x y ≡ path_from (state graph.now) x y }
{
    begin::<W>(graph, rows);
    close::<W>(rows, graph.size() as usize);
}
