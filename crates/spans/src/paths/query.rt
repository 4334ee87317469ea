// What take paths tell: where they lead, and who spans initially or terminally to a vertex.
ghost use Rattle.std.specs.Prelude.{◌≡◌, ℕ, ◌||◌};
ghost use Rattle.bits.specs.Sets.{holds, in_row};
ghost use Rattle.model.specs.Spans.{initial_span, terminal_span};
ghost use Rattle.spans.specs.Of.{spanned};
ghost use Rattle.spans.specs.Paths.{back_from, path_from};

use super::TakePaths;
use bits::{VertexSet, those, united};
use model::{GRANT, NUMBERS, Vertex};

impl TakePaths<'_> {
    // Where take paths lead to from x.
    pub fn from(&self, x: Vertex) -> VertexSet
        ensures value { (k : ℕ) → holds result k ≡ path_from (spanned self.now) x k }
    {
        self.rows[usize::from(x)]
    }

    // From where take paths lead to y.
    pub fn to(&self, y: Vertex) -> VertexSet
        ensures value { (k : ℕ) → holds result k ≡ path_from (spanned self.now) k y }
    {
        self.back[usize::from(y)]
    }

    // From where take paths lead to each vertex.
    pub fn to_each(&self) -> &[VertexSet; NUMBERS]
        ensures value { (y x : ℕ) → in_row result.now y x ≡ path_from (spanned self.now) x y }
    {
        &self.back
    }

    pub fn leads(&self, x: Vertex, y: Vertex) -> bool
        ensures value { result ≡ path_from (spanned self.now) x y }
    {
        self.from(x).contains(y)
    }

    // Who spans terminally to t.
    pub fn terminal(&self, t: Vertex) -> VertexSet
        ensures value { (q : ℕ) → holds result q ≡ terminal_span (spanned self.now) q t }
    {
        self.graph.subjects().intersection(&self.to(t))
    }

    // From where take paths lead to whatever has grant to x, and x itself.
    fn back_from(&self, x: Vertex) -> VertexSet
        ensures value { (q : ℕ) → holds result q ≡ back_from (spanned self.now) x q }
    {
        let givers = those(self.graph.size(), |u| self.graph.has(u, GRANT, x));
        united(&givers, |u| self.to(u)).union(&VertexSet::only(usize::from(x)))
    }

    // Who spans initially to x.
    pub fn initial(&self, x: Vertex) -> VertexSet
        ensures value { (p : ℕ) → holds result p ≡ initial_span (spanned self.now) p x }
    {
        self.graph.subjects().intersection(&self.back_from(x))
    }
}
