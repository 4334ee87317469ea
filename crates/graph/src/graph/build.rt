// Graphs made, and given rights one by one.
ghost use Rattle.std.specs.Prelude.{◌≡◌, ℕ, ◌+◌, ◌*◌, ◌<◌, ◌≤◌, Bool, true, false, not, ◌&&◌, ◌||◌, T, if◌then◌else◌, MatchOption, nat_lt};
ghost use Rattle.bits.specs.Sets.{holds};
ghost use Rattle.graph.specs.Graphs.{state, bare};
ghost use Rattle.model.specs.Rules.{given, removed};

use super::rows::{row_for, row_remove};
use super::{Graph, WIDTH, WORDS};
use bits::{VertexSet, row_insert};
use model::{NARROW, RIGHTS, Right, Vertex};

impl Graph {
    // A graph of so many vertices with these subjects, in which nobody has a right. None if there is no vertex, or a subject is not among them.
    pub fn new(size: u8, subjects: VertexSet) -> Option<Graph>
        ensures cases { MatchOption result (((0 < size) × ((k : ℕ) → T (holds subjects k) → k < size)) → ⊥) (λ g. state g ≡ bare size (holds subjects)) }
    {
        if size == 0 || !subjects.is_subset(&VertexSet::below(size as usize)) {
            return None;
        }
        let rows = [0; WORDS];
        Some(Graph {
            size,
            subjects,
            rows,
        })
    }

    // The same graph again, to work on. It isn't `clone`, which could run out of memory in this language, and a graph is too large to be `Copy`.
    pub fn copy(&self) -> Graph
        ensures value { state result ≡ state self.now }
    {
        // All words at once: with only those in use over zeroes the copy was made twice, since it was then moved to where it is wanted.
        Graph {
            size: self.size,
            subjects: self.subjects,
            rows: self.rows,
        }
    }

    // `p` has right `r` to `q` from now on. False, and nothing is changed, if one of them isn't there: a bool, since there is one refusal and no caller tells it.
    pub fn give(&mut self, p: Vertex, r: Right, q: Vertex) -> bool
        ensures value { result ≡ (nat_lt p (state self.old).size && (nat_lt r 8 && nat_lt q (state self.old).size)) }
        ensures after { state self.new ≡ (if result then given p r q (state self.old) else state self.old) }
    {
        if p >= self.size() || r >= RIGHTS || q >= self.size() {
            return false;
        }
        self.add(p, r, q);
        true
    }

    pub(super) fn add(&mut self, p: Vertex, r: Right, q: Vertex)
        requires { (p < (state self.old).size) × ((r < 8) × (q < (state self.old).size)) }
        ensures after { state self.new ≡ given p r q (state self.old) }
    {
        row_insert(
            &mut self.rows,
            WIDTH,
            row_for(p, r, q),
            usize::from(q % NARROW),
        );
    }

    pub(super) fn withdraw(&mut self, p: Vertex, r: Right, q: Vertex)
        ensures after { state self.new ≡ removed p r q (state self.old) }
    {
        if r < RIGHTS {
            row_remove(
                &mut self.rows,
                WIDTH,
                row_for(p, r, q),
                usize::from(q % NARROW),
            );
        }
    }
}
