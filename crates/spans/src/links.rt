// The take and grant rights of a graph, from both ends.
mod query;
mod search;
mod view;

ghost use Rattle.std.specs.Prelude.{◌≡◌, ℕ, length};
ghost use Rattle.graph.specs.Graphs.{state};
ghost use Rattle.bits.specs.Sets.{in_row};

use bits::VertexSet;
use graph::Graph;
use model::NUMBERS;
pub use search::reach;

#[derive(Drop)]
pub struct Links<'a> {
    graph: &'a Graph,
    // Who has take to a vertex, and who has grant to it.
    takers: [VertexSet; NUMBERS],
    granters: [VertexSet; NUMBERS],
    ghost all: { (length takers ≡ 256) × (length granters ≡ 256) },
    ghost taken: { (y k : ℕ) → in_row takers y k ≡ (state graph.now).has k 0 y },
    ghost granted: { (y k : ℕ) → in_row granters y k ≡ (state graph.now).has k 1 y },
}
