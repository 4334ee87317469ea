// The graph and its rows, with the invariant that ties them.
mod apply;
mod query;
mod search;

ghost use Rattle.std.specs.Prelude.{◌≡◌, ℕ};
ghost use Rattle.changing.specs.Rows.{in_rows};
ghost use Rattle.graph.specs.Graphs.{state};
ghost use Rattle.spans.specs.Paths.{path_from};

use crate::rows::Rows;
use graph::Graph;

#[derive(Drop)]
pub struct ChangingGraph<'a> {
    graph: Graph,
    // Where take paths lead to from each vertex.
    rows: Rows<'a>,
    ghost led: { (x y : ℕ) → in_rows rows x y ≡ path_from (state graph) x y },
}
