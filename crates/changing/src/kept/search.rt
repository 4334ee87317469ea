// Where take paths lead to from those who can come to give something to a vertex: found by the rows, round by round.
ghost use Rattle.std.specs.Prelude.{◌≡◌, ℕ, ◌&&◌};
ghost use Rattle.bits.specs.Sets.{holds};
ghost use Rattle.changing.specs.Of.{kept_row, tracked};
ghost use Rattle.changing.specs.Reached.{beside, giver, leads_into, of_some, reached_from};
ghost use Rattle.model.specs.Bounded.{only, some_below};
ghost use Rattle.model.specs.Certificates.{out_of};
ghost use Rattle.model.specs.Spans.{can_grant};
ghost use Rattle.spans.specs.Paths.{path_from};

use super::ChangingGraph;
use bits::{VertexSet, those, united};
use model::{GRANT, Vertex};

impl ChangingGraph<'_> {
    // Where take paths lead to from q.
    fn row(&self, q: Vertex) -> VertexSet
        ensures value { (k : ℕ) → holds result k ≡ kept_row self.now q k }
    {
        self.rows.row(q)
    }

    fn leads_into(&self, q: Vertex, set: &VertexSet) -> bool
        ensures value { result ≡ leads_into (tracked self.now) (holds set.now) q }
    {
        set.meets(&self.row(q))
    }

    // Where take paths lead to from q, if one leads to one of the set.
    fn brought(&self, q: Vertex, set: &VertexSet) -> VertexSet
        ensures value { (o : ℕ) → holds result o ≡ (leads_into (tracked self.now) (holds set.now) q && path_from (tracked self.now) q o) }
    {
        if self.leads_into(q, set) {
            self.row(q)
        } else {
            VertexSet::empty()
        }
    }

    // Where take paths lead to from those of `from` from which one leads to one of the set.
    fn reached(&self, from: VertexSet, set: &VertexSet) -> VertexSet
        ensures value { (o : ℕ) → holds result o ≡ reached_from (tracked self.now) (holds from) (holds set.now) o }
    {
        united(&from, |q| self.brought(q, set))
    }

    // Whom one of the set has grant to.
    fn granted(&self, set: VertexSet) -> VertexSet
        ensures value { (v : ℕ) → holds result v ≡ of_some (holds set) (can_grant (tracked self.now)) v }
    {
        united(&set, |o| self.graph.targets(o, GRANT))
    }

    fn grants_into(&self, v: Vertex, set: &VertexSet) -> bool
        ensures value { result ≡ of_some (holds set.now) (λ o p. can_grant (tracked self.now) p o) v }
    {
        set.meets(&self.graph.targets(v, GRANT))
    }

    // Who has grant to one of the set.
    fn granters(&self, set: &VertexSet) -> VertexSet
        ensures value { (v : ℕ) → holds result v ≡ of_some (holds set.now) (λ o p. can_grant (tracked self.now) p o) v }
    {
        those(self.graph.size(), |v| self.grants_into(v, set))
    }

    fn givers(&self, set: &VertexSet) -> VertexSet
        ensures value { (v : ℕ) → holds result v ≡ giver (tracked self.now) (holds set.now) v }
    {
        self.granters(set)
            .union(&self.graph.subjects().intersection(set))
    }

    fn beside(&self, set: VertexSet) -> VertexSet
        ensures value { (v : ℕ) → holds result v ≡ beside (tracked self.now) (holds set) v }
    {
        self.givers(&set).union(&self.granted(set))
    }

    // In each round, the subjects that are not in `out` yet and from which a take path leads to an entry bring what their own paths lead to.
    pub(super) fn out_of(&self, x: Vertex) -> VertexSet
        ensures value { (k : ℕ) → holds result k ≡ out_of (tracked self.now) (only x) k }
    {
        let mut entries = self.givers(&VertexSet::only(usize::from(x)));
        let mut out = VertexSet::empty();
        loop {
            let others = self.graph.subjects().difference(&out);
            let fresh = self.reached(others, &entries).difference(&out);
            if fresh.is_empty() {
                return out;
            }
            out.add(&fresh);
            entries.add(&self.beside(fresh));
        }
    }
}
