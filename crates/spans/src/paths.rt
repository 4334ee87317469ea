// Take paths of a graph, from each vertex and to each.
mod query;
mod work;

ghost use Rattle.std.specs.Prelude.{◌≡◌, ℕ};
ghost use Rattle.graph.specs.Graphs.{state};
ghost use Rattle.bits.specs.Sets.{in_row};
ghost use Rattle.spans.specs.Paths.{path_from};

use bits::VertexSet;
use graph::Graph;
use model::NUMBERS;

#[derive(Drop)]
pub struct TakePaths<'a> {
    graph: &'a Graph,
    // Where take paths lead to from a vertex, and from where they lead to it.
    rows: [VertexSet; NUMBERS],
    back: [VertexSet; NUMBERS],
    ghost led: { (x y : ℕ) → in_row rows x y ≡ path_from (state graph.now) x y },
    ghost reached: { (y x : ℕ) → in_row back y x ≡ path_from (state graph.now) x y },
}
