// What links tell of the rights round a vertex.
ghost use Rattle.std.specs.Prelude.{◌≡◌, ℕ};
ghost use Rattle.bits.specs.Sets.{holds, in_row};
ghost use Rattle.graph.specs.Graphs.{state};
ghost use Rattle.model.specs.Spans.{can_grant, can_take};
ghost use Rattle.spans.specs.Of.{linked};

use super::Links;
use crate::turned::holders;
use bits::VertexSet;
use graph::Graph;
use model::{GRANT, NUMBERS, TAKE, Vertex};

impl<'a> Links<'a> {
    pub fn of(graph: &'a Graph) -> Links<'a>
        ensures value { linked result ≡ state graph.now }
    {
        let takers = holders(graph, TAKE);
        let granters = holders(graph, GRANT);
        Links {
            graph,
            takers,
            granters,
        }
    }

    // Who has grant to p.
    pub fn granters(&self, p: Vertex) -> VertexSet
        ensures value { (q : ℕ) → holds result q ≡ can_grant (linked self.now) q p }
    {
        self.granters[p as usize]
    }

    // Who has take to each vertex.
    pub fn takers_of_each(&self) -> &[VertexSet; NUMBERS]
        ensures value { (p q : ℕ) → in_row result.now p q ≡ can_take (linked self.now) q p }
    {
        &self.takers
    }
}
