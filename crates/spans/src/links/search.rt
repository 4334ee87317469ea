// The search for a barrier: from a vertex over single rights, each vertex looked at once from each side.
ghost use Rattle.std.specs.Prelude.{◌≡◌, ℕ, ◌+◌, ◌*◌, ◌<◌, ◌≤◌, true, false, ◌&&◌};
ghost use Rattle.bits.specs.Sets.{among, holds};
ghost use Rattle.graph.specs.Graphs.{state};
ghost use Rattle.graph.specs.Table.{row_width};
ghost use Rattle.model.specs.Bounded.{only};
ghost use Rattle.model.specs.Certificates.{inner_of, out_of, into_of};
ghost use Rattle.model.specs.Spans.{connected};
ghost use Rattle.model.specs.State.{is_subject};
ghost use Rattle.spans.specs.Barriers.{Round};
ghost use Rattle.spans.specs.Fronts.{looked_at, unseen};
ghost use Rattle.spans.specs.Of.{linked};
ghost use Rattle.spans.specs.Sets.{in_sets};
ghost use Rattle.spans.specs.Searching.{Searching};
ghost use Rattle.spans.specs.Viewed.{viewed};
ghost use Rattle.std.proofs.Props.{props};

use super::Links;
use super::view::View;
use crate::barrier::Barrier;
use crate::front::Front;
use bits::{BitSet, VertexSet, WIDE};
use graph::{Graph, width};
use model::{NUMBERS, Vertex};

// How far it has come.
#[derive(Drop)]
struct Search<'l, const W: usize, const V: usize> {
    view: View<'l, W, V>,
    // What the take paths from inside lead to, and from where they lead to whatever can give something.
    out: Front<V>,
    into: Front<V>,
    from: Vertex,
    ghost searching: { Searching (viewed view) from (among V out.found) (among V into.found) (looked_at out) (looked_at into) } by { Prim.hlevel props },
}

impl<'l, const W: usize, const V: usize> Search<'l, W, V> {
    fn of(view: View<'l, W, V>, from: Vertex) -> Search<'l, W, V>
        ensures { (result.view ≡ view.entry) × (result.from ≡ from) }
    {
        Search {
            view,
            out: Front::of(BitSet::empty()),
            into: Front::of(view.givers(from)),
            from,
        }
    }

    // Looks at one more. False if all that was found was looked at.
    fn step(&mut self) -> bool
        ensures same { (self.new.view ≡ self.old.view) × (self.new.from ≡ self.old.from) }
        ensures fewer { result ≡ true → unseen self.new.out + unseen self.new.into < unseen self.old.out + unseen self.old.into }
        ensures over { result ≡ false → ((k : ℕ) → among V self.new.out.left k ≡ false) × ((k : ℕ) → among V self.new.into.left k ≡ false) }
    {
        if let Some(p) = self.out.pop() {
            self.out.add(&self.view.takes(p));
            self.into.add(&self.view.beside(p));
            true
        } else if let Some(p) = self.into.pop() {
            self.into.add(&self.view.takers(p));
            self.out.add(&self.view.itself(p));
            true
        } else {
            false
        }
    }
}

// Where the take paths lead to from the island that can give something to x, of a graph and who has take and grant to each vertex.
pub fn reach<const W: usize>(
    graph: &Graph,
    takers: &[BitSet<W>; NUMBERS],
    granters: &[BitSet<W>; NUMBERS],
    x: Vertex,
) -> BitSet<W>
    requires exact { W ≡ row_width (state graph.now).size }
    requires taken { (y k : ℕ) → in_sets takers.now y k ≡ (state graph.now).has k 0 y }
    requires granted { (y k : ℕ) → in_sets granters.now y k ≡ (state graph.now).has k 1 y }
    ensures value { (k : ℕ) → among W result k ≡ out_of (state graph.now) (only x) k }
{
    let every: BitSet<W> = BitSet::below(graph.size() as usize);
    let view: View<W, W> = View::of(graph, takers, granters);
    let mut search = Search::of(view, x);
    // Nothing can be added to a whole set.
    while !every.is_subset(&search.out.found) && search.step() {}
    search.out.found
}

impl Links<'_> {
    // The least barrier round x, found in sets of V words.
    fn barrier_in<const V: usize>(&self, x: Vertex) -> Barrier
        requires { V ≡ row_width (linked self.now).size }
        ensures { Round (linked self.now) x result }
    {
        let view: View<WIDE, V> = View::of(self.graph, &self.takers, &self.granters);
        let mut search = Search::of(view, x);
        while search.step() {}
        let out: VertexSet = search.out.found.resized();
        Barrier {
            inner: self.graph.subjects().intersection(&out),
            out,
            into: search.into.found.resized(),
        }
    }

    // The least barrier round x, by two words or four: `graph::width` says why the choice stands here.
    #[tactic(auto, unfolding(graph::specs::Table::row_width))]
    pub fn barrier(&self, x: Vertex) -> Barrier
        ensures { Round (linked self.now) x result }
    {
        if width(self.graph.size()) == 2 {
            self.barrier_in::<2>(x)
        } else {
            self.barrier_in::<WIDE>(x)
        }
    }

    // Who is connected with the subject p. If p is no subject, nobody.
    pub fn island(&self, p: Vertex) -> VertexSet
        ensures value { (q : ℕ) → holds result q ≡ (is_subject (linked self.now) p && connected (linked self.now) p q) }
    {
        if self.graph.is_subject(p) {
            self.barrier(p).inner
        } else {
            VertexSet::empty()
        }
    }
}
