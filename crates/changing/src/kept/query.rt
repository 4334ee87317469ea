// What the graph and its rows tell.
ghost use Rattle.bits.specs.Sets.{holds};
ghost use Rattle.changing.specs.Of.{tracked};
ghost use Rattle.changing.specs.Reached.{of_some};
ghost use Rattle.graph.specs.Graphs.{state};
ghost use Rattle.model.specs.Sharing.{can_share};
ghost use Rattle.std.specs.Prelude.{◌≡◌};

use super::ChangingGraph;
use bits::VertexSet;
use graph::Graph;
use model::{Question, Right, Vertex};

impl ChangingGraph<'_> {
    // The graph as it is now.
    pub fn graph(&self) -> &Graph
        ensures value { state result.now ≡ tracked self.now }
    {
        &self.graph
    }

    // Has one of the set this right?
    fn one_has(&self, set: VertexSet, r: Right, y: Vertex) -> bool
        ensures value { result ≡ of_some (holds set) (λ t z. (tracked self.now).has t r z) y }
    {
        set.iter().any(|t| self.graph.has(t, r, y))
    }

    // Can the holder come to have the right to the target?
    pub fn can_share(&self, q: Question) -> bool
        ensures value { result ≡ can_share (tracked self.now) q.holder q.right q.target }
    {
        if q.holder >= self.graph.size() {
            return false;
        }
        self.graph.has(q.holder, q.right, q.target)
            || self.one_has(self.out_of(q.holder), q.right, q.target)
    }
}
