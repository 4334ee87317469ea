// What a graph tells of its state.
ghost use Rattle.std.specs.Prelude.{◌≡◌, ℕ, ◌+◌, ◌*◌, ◌<◌, ◌≤◌, Bool, true, false, not, ◌&&◌, ◌||◌};
ghost use Rattle.bits.specs.Sets.{among, holds};
ghost use Rattle.graph.specs.Graphs.{state};
ghost use Rattle.graph.specs.Table.{row_width};

use super::rows::{row, row_for};
use super::{Graph, HALF, WIDTH};
use bits::{BitSet, VertexSet, row_contains};
use model::{NARROW, RIGHTS, Right, Vertex};

impl Graph {
    pub fn size(&self) -> u8
        ensures value { result ≡ (state self.now).size }
    {
        self.size
    }

    pub fn subjects(&self) -> VertexSet
        ensures value { (k : ℕ) → holds result k ≡ (state self.now).subject k }
    {
        self.subjects
    }

    pub fn is_subject(&self, p: Vertex) -> bool
        ensures value { result ≡ (state self.now).subject p }
    {
        self.subjects.contains(p)
    }

    // Whom `p` has right `r` to.
    pub fn targets(&self, p: Vertex, r: Right) -> VertexSet
        ensures value { (k : ℕ) → holds result k ≡ (state self.now).has p r k }
    {
        if r < RIGHTS {
            let low = row(p, r);
            VertexSet::of_halves(
                BitSet::at(&self.rows, low),
                BitSet::at(&self.rows, HALF + low),
            )
        } else {
            VertexSet::empty()
        }
    }

    // Whom `p` has right `r` to, for who knows how wide such sets are.
    pub fn targets_in<const W: usize>(&self, p: Vertex, r: Right) -> BitSet<W>
        requires { W ≡ row_width (state self.now).size }
        ensures value { (k : ℕ) → among W result k ≡ (state self.now).has p r k }
    {
        self.targets(p, r).resized()
    }

    // By numbers, since a rule and a question each name them in a way of their own.
    pub fn has(&self, p: Vertex, r: Right, q: Vertex) -> bool
        ensures value { result ≡ (state self.now).has p r q }
    {
        r < RIGHTS && row_contains(&self.rows, WIDTH, row_for(p, r, q), usize::from(q % NARROW))
    }
}
