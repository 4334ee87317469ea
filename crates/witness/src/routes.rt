// What a plan is chosen from: the take paths, grants and bridges of the graph at the question.
mod query;
mod work;

ghost use Rattle.std.specs.Prelude.{◌≡◌, ℕ};
ghost use Rattle.graph.specs.Graphs.{state};
ghost use Rattle.bits.specs.Sets.{in_row};
ghost use Rattle.model.specs.Spans.{bridge};
ghost use Rattle.spans.specs.Of.{linked, spanned};
ghost use Rattle.witness.specs.Beside.{near};

use bits::VertexSet;
use graph::Graph;
use model::NUMBERS;
use spans::{Links, TakePaths};

#[derive(Drop)]
pub struct Routes<'a> {
    pub(crate) graph: &'a Graph,
    pub(crate) paths: TakePaths<'a>,
    pub(crate) links: Links<'a>,
    // Who is beside a vertex: has grant to it or is granted to by it.
    beside: [VertexSet; NUMBERS],
    bridges: [VertexSet; NUMBERS],
    ghost same_paths: { spanned paths ≡ state graph.now },
    ghost same_links: { linked links ≡ state graph.now },
    ghost sides: { (u v : ℕ) → in_row beside u v ≡ near (state graph.now) u v },
    ghost bridged: { (p q : ℕ) → in_row bridges p q ≡ bridge (state graph.now) p q },
}
