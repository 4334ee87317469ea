// The answers for a graph.
mod query;
mod work;

ghost use Rattle.std.specs.Prelude.{◌≡◌, ℕ, ◌≤◌, length};
ghost use Rattle.bits.specs.Rows.{cell};
ghost use Rattle.graph.specs.Graphs.{state};
ghost use Rattle.sharing.specs.Table.{shares_row, table_words};
ghost use Rattle.graph.specs.Table.{row_width};

use graph::Graph;

#[derive(Drop)]
pub struct Sharing<'g, 'm> {
    graph: &'g Graph,
    rows: &'m [u64],
    ghost fits: { table_words (state graph.now).size ≤ length rows.now },
    ghost shared: { (i x : ℕ) → cell rows.now (row_width (state graph.now).size) i x ≡ shares_row (state graph.now) i x },
}
