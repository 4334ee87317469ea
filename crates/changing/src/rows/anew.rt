// Rows of a set of vertices, worked out anew. `unite_each`, `unite_all`, `begin_each` and `round` are the loop over a set that their name says: a function
// that takes what is done for each vertex as a closure would be no shorter than these three lines. The rounds are like those of `spans::lead`, but only
// the rows of the set are worked on, and a round is left out where it would add nothing; they are gone through by number, as they are defined.
ghost use Rattle.std.specs.Prelude.{◌≡◌, ℕ, ◌<◌, true, false, ◌&&◌, ◌||◌, T, if◌then◌else◌, ◌==◌, nat_eq, nat_lt};
ghost use Rattle.bits.specs.Sets.{holds};
ghost use Rattle.changing.specs.Reached.{of_some};
ghost use Rattle.changing.specs.Rounds.{Shut, begun_row, rounds_of};
ghost use Rattle.changing.specs.Rows.{in_rows};
ghost use Rattle.graph.specs.Graphs.{state};

use super::Rows;
use bits::{VertexSet, those};
use graph::Graph;
use model::{TAKE, Vertex};

impl Rows<'_> {
    // Those of the first n vertices whose rows have k.
    pub fn holding(&self, n: u8, k: Vertex) -> VertexSet
        ensures { (v : ℕ) → holds result v ≡ (nat_lt v n && in_rows self.now v k) }
    {
        those(n, |v| self.has(v, k))
    }

    // Each row of the set gets what row `from` has.
    pub fn unite_each(&mut self, set: VertexSet, from: Vertex)
        ensures { (x y : ℕ) → in_rows self.new x y ≡ (in_rows self.old x y || (holds set x && in_rows self.old from y)) }
    {
        for v in set {
            self.unite(v, from);
        }
    }

    // Row `into` gets what each row of the set has.
    fn unite_all(&mut self, into: Vertex, set: VertexSet)
        requires { holds set into ≡ false }
        ensures { (x y : ℕ) → in_rows self.new x y ≡ (in_rows self.old x y || (x == into && of_some (holds set) (in_rows self.old) y)) }
    {
        for w in set {
            self.unite(into, w);
        }
    }

    // Row v, which is of the set, begins again.
    fn begin(&mut self, graph: &Graph, set: &VertexSet, v: Vertex)
        requires { (v < (state graph.now).size) × (holds set.now v ≡ true) }
        ensures { (x y : ℕ) → in_rows self.new x y ≡ (if nat_eq x v then begun_row (state graph.now) (holds set.now) (in_rows self.old) v y else in_rows self.old x y) }
    {
        let targets = graph.targets(v, TAKE);
        let mut step = targets;
        step.insert(v);
        self.put(v, &step);
        self.unite_all(v, targets.difference(set));
    }

    pub fn begin_each(&mut self, graph: &Graph, set: VertexSet)
        requires { (v : ℕ) → T (holds set v) → v < (state graph.now).size }
        ensures { (x y : ℕ) → in_rows self.new x y ≡ (if holds set x then begun_row (state graph.now) (holds set) (in_rows self.old) x y else in_rows self.old x y) }
    {
        for v in set {
            self.begin(graph, &set, v);
        }
    }

    // Each row of the set that has k gets what row k has.
    fn round(&mut self, set: VertexSet, k: Vertex)
        ensures { (x y : ℕ) → in_rows self.new x y ≡ (in_rows self.old x y || (holds set x && (in_rows self.old x k && in_rows self.old k y))) }
    {
        for v in set {
            if self.has(v, k) {
                self.unite(v, k);
            }
        }
    }

    // A round for each of the set: one for any other vertex would add nothing.
    pub fn close_each(&mut self, n: u8, set: VertexSet)
        requires { Shut (holds set) (in_rows self.old) }
        ensures { (x y : ℕ) → in_rows self.new x y ≡ rounds_of (holds set) (in_rows self.old) n x y }
    {
        for k in 0..n {
            if set.contains(k) {
                self.round(set, k);
            }
        }
    }
}
