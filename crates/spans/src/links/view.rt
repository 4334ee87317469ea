// The rights round a vertex, from both ends, in sets of V words.
ghost use Rattle.std.specs.Prelude.{◌≡◌, ℕ, ◌*◌, ◌≤◌, ◌&&◌, ◌||◌, length, ◌==◌};
ghost use Rattle.bits.specs.Sets.{among};
ghost use Rattle.graph.specs.Graphs.{state};
ghost use Rattle.graph.specs.Table.{row_width};
ghost use Rattle.model.specs.Spans.{can_grant, can_take};
ghost use Rattle.model.specs.State.{is_subject};
ghost use Rattle.spans.specs.Sets.{in_sets};

use bits::BitSet;
use graph::Graph;
use model::{GRANT, NUMBERS, TAKE, Vertex};

// A graph, and who has take and grant to each vertex, which are lent in sets of W words, so that nobody has to move them.
// The sets that are told may be narrower: they have as many words as the graph's rows.
#[derive(Clone, Copy)]
pub struct View<'l, const W: usize, const V: usize> {
    pub(super) graph: &'l Graph,
    takers: &'l [BitSet<W>],
    granters: &'l [BitSet<W>],
    ghost all: { (length takers.now ≡ 256) × (length granters.now ≡ 256) },
    ghost exact: { V ≡ row_width (state graph.now).size },
    ghost wide: { (state graph.now).size ≤ 64 * V },
    ghost narrow: { V ≤ 4 },
    ghost taken: { (y k : ℕ) → in_sets takers.now y k ≡ (state graph.now).has k 0 y },
    ghost granted: { (y k : ℕ) → in_sets granters.now y k ≡ (state graph.now).has k 1 y },
}

impl<'l, const W: usize, const V: usize> View<'l, W, V> {
    ghost use Rattle.spans.specs.Viewed.{viewed};

    pub fn of(
        graph: &'l Graph,
        takers: &'l [BitSet<W>; NUMBERS],
        granters: &'l [BitSet<W>; NUMBERS],
    ) -> View<'l, W, V>
        requires exact { V ≡ row_width (state graph.now).size }
        requires taken { (y k : ℕ) → in_sets takers.now y k ≡ (state graph.now).has k 0 y }
        requires granted { (y k : ℕ) → in_sets granters.now y k ≡ (state graph.now).has k 1 y }
        ensures { viewed result ≡ state graph.now }
    {
        View {
            graph,
            takers: &takers[..],
            granters: &granters[..],
        }
    }

    pub fn subjects(&self) -> BitSet<V>
        ensures { (q : ℕ) → among V result q ≡ is_subject (viewed self.now) q }
    {
        self.graph.subjects().resized()
    }

    // Whom p has take to.
    pub fn takes(&self, p: Vertex) -> BitSet<V>
        ensures { (q : ℕ) → among V result q ≡ can_take (viewed self.now) p q }
    {
        self.graph.targets_in(p, TAKE)
    }

    // Who has take to p.
    pub fn takers(&self, p: Vertex) -> BitSet<V>
        ensures { (q : ℕ) → among V result q ≡ can_take (viewed self.now) q p }
    {
        self.takers[usize::from(p)].resized()
    }

    // p alone, if it is a subject.
    pub fn itself(&self, p: Vertex) -> BitSet<V>
        ensures { (q : ℕ) → among V result q ≡ (q == p && is_subject (viewed self.now) p) }
    {
        self.subjects().pick(usize::from(p))
    }

    // Who has grant to p, and p itself if it is a subject.
    pub fn givers(&self, p: Vertex) -> BitSet<V>
        ensures { (q : ℕ) → among V result q ≡ ((q == p && is_subject (viewed self.now) p) || can_grant (viewed self.now) q p) }
    {
        let granters: BitSet<V> = self.granters[usize::from(p)].resized();
        self.itself(p).union(&granters)
    }

    // Who has grant to p or is granted to by p, and p itself if it is a subject.
    pub fn beside(&self, p: Vertex) -> BitSet<V>
        ensures { (q : ℕ) → among V result q ≡ (can_grant (viewed self.now) p q || ((q == p && is_subject (viewed self.now) p) || can_grant (viewed self.now) q p)) }
    {
        let granted: BitSet<V> = self.graph.targets_in(p, GRANT);
        granted.union(&self.givers(p))
    }
}
