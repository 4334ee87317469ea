// What routes tell: the shortest ways, and where they meet.
ghost use Rattle.bits.specs.Sets.{holds};
ghost use Rattle.model.specs.Exact.{far_end, last_holder, lowest, near_end, shortest_path, shortest_row_of};
ghost use Rattle.model.specs.Spans.{bridge, can_grant, connected, initial_span, take_path, terminal_span};
ghost use Rattle.witness.specs.Of.{routed};
ghost use Rattle.witness.specs.Rows.{row_vertices, turned};
ghost use Rattle.std.specs.Prelude.{◌≡◌, ℕ, ◌&&◌};

use super::Routes;
use crate::choose::lowest_of;
use crate::layer::all_leading;
use crate::row::{Row, shortest_row};
use crate::steps::Steps;
use crate::tables::gather;
use bits::VertexSet;
use model::{GRANT, TAKE, Vertex};

impl Routes<'_> {
    // The shortest take path from x to y.
    pub fn path(&self, x: Vertex, y: Vertex) -> Row
        ensures value { row_vertices result ≡ shortest_path (routed self.now) x y }
    {
        let steps = Steps::of(self.links.takers_of_each(), self.graph.size());
        shortest_row(|p| self.graph.targets(p, TAKE), &steps, x, y)
    }

    // Bridges lead both ways, so that their table has from whom one leads, too.
    fn over_bridges(&self) -> Steps<'_>
        ensures steps { (p q : ℕ) → turned result.back.now p q ≡ bridge (routed self.now) p q }
        ensures size { result.size ≡ (routed self.now).size }
    {
        Steps::of(&self.bridges, self.graph.size())
    }

    // The shortest row of bridges from p to q.
    pub fn row(&self, p: Vertex, q: Vertex) -> Row
        ensures value { row_vertices result ≡ shortest_row_of (routed self.now).size (bridge (routed self.now)) p q }
    {
        shortest_row(|v| self.bridges[v as usize], &self.over_bridges(), p, q)
    }

    // Who is connected with q.
    pub fn island(&self, q: Vertex) -> VertexSet
        ensures value { (p : ℕ) → holds result p ≡ connected (routed self.now) p q }
    {
        all_leading(&self.over_bridges(), q)
    }

    // Who spans initially to x.
    pub fn initial(&self, x: Vertex) -> VertexSet
        ensures value { (p : ℕ) → holds result p ≡ initial_span (routed self.now) p x }
    {
        self.paths.initial(x)
    }

    // Who spans terminally to t.
    pub fn terminal(&self, t: Vertex) -> VertexSet
        ensures value { (q : ℕ) → holds result q ≡ terminal_span (routed self.now) q t }
    {
        self.paths.terminal(t)
    }

    // Does a take path lead from x to y?
    pub fn leads(&self, x: Vertex, y: Vertex) -> bool
        ensures value { result ≡ take_path (routed self.now) x y }
    {
        x == y || self.paths.leads(x, y)
    }

    // The lowest vertex of the set that is on a take path from p.
    fn lowest_ahead(&self, p: Vertex, set: &VertexSet) -> Vertex
        ensures value { result ≡ lowest (routed self.now).size (λ u. take_path (routed self.now) p u && holds set.now u) }
    {
        lowest_of(&self.paths.from(p).intersection(set), self.graph.size())
    }

    // The lowest vertex on a take path from p that is beside one on a take path from q.
    pub fn near_end(&self, p: Vertex, q: Vertex) -> Vertex
        ensures value { result ≡ near_end (routed self.now) p q }
    {
        self.lowest_ahead(p, &gather(&self.beside, &self.paths.from(q)))
    }

    // The lowest vertex on a take path from q that is beside u.
    pub fn far_end(&self, q: Vertex, u: Vertex) -> Vertex
        ensures value { result ≡ far_end (routed self.now) q u }
    {
        let sides = self.beside[u as usize];
        self.lowest_ahead(q, &sides)
    }

    // The lowest vertex on a take path from p that has grant to x.
    pub fn last_holder(&self, p: Vertex, x: Vertex) -> Vertex
        ensures value { result ≡ last_holder (routed self.now) p x }
    {
        self.lowest_ahead(p, &self.links.granters(x))
    }

    pub fn grants(&self, u: Vertex, v: Vertex) -> bool
        ensures value { result ≡ can_grant (routed self.now) u v }
    {
        self.graph.has(u, GRANT, v)
    }
}
