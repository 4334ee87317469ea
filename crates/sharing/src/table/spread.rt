// Rights that an island brings, added to the rows of the table.
ghost use Rattle.std.specs.Prelude.{◌≡◌, ℕ, ◌+◌, ◌*◌, ◌/◌, ◌%◌, ◌<◌, false, ◌≤◌, ◌&&◌, ◌||◌, T, length, ◌==◌};
ghost use Rattle.bits.specs.Rows.{cell};
ghost use Rattle.bits.specs.Sets.{among};
ghost use Rattle.model.specs.Bit.{bit};
ghost use Rattle.spans.specs.Sets.{in_sets};
ghost use Rattle.sharing.specs.Filling.{about, cells, in_word, Becomes};
ghost use Rattle.sharing.specs.Table.{gets, held_by, spreads};

use super::{Table, row_at};
use bits::{BitSet, pop_bit};
use model::{GRANT, RIGHTS, Right, Vertex};

// A set of targets for each right.
type Held<const W: usize> = [BitSet<W>; RIGHTS as usize];

// Adds a set to row x: by whole sets, which are read and written at once where words one by one would not be.
fn add<const W: usize>(rows: &mut [u64], x: usize, set: &BitSet<W>)
    requires { x * W + W ≤ length rows.old }
    ensures { (y k : ℕ) → cell rows.new W y k ≡ (cell rows.old W y k || (y == x && among W set.now k)) }
{
    let row: BitSet<W> = BitSet::at(rows, x);
    row.union(set).write(rows, x);
}

impl<const W: usize> Table<'_, '_, W> {
    // Adds `who` to the rows of right r to each of the targets, of those that word c has: word by word, since a walk through
    // the members of the whole set made the table take half as long again.
    fn share_word(&mut self, r: Right, c: usize, word: u64, who: &BitSet<W>)
        requires bound { (c < 4) × (r < 8) }
        requires there { (j : ℕ) → T (bit word j) → 64 * c + j < (about W self.old).size }
        ensures { Becomes W self.old self.new (λ i x. cells W self.old i x || ((i % 8 == r && (i / 8 / 64 == c && bit word (i / 8 % 64))) && among W who.now x)) }
    {
        let mut rest = word;
        while let Some(b) = pop_bit(&mut rest) {
            add(self.rows, row_at(r, 64 * c + b as usize), who);
        }
    }

    // Adds `who` to the rows of right r to each of the targets.
    pub(super) fn share(&mut self, r: Right, targets: &BitSet<W>, who: &BitSet<W>)
        requires bound { r < 8 }
        requires there { (y : ℕ) → T (among W targets.now y) → y < (about W self.old).size }
        ensures { Becomes W self.old self.new (λ i x. cells W self.old i x || ((i % 8 == r && among W targets.now (i / 8)) && among W who.now x)) }
    {
        for c in 0..W {
            self.share_word(r, c, targets.word(c), who);
        }
    }

    // Adds for each right whom t has it to.
    fn gather_one(&self, t: Vertex, held: &mut Held<W>)
        ensures { (r y : ℕ) → in_sets held.new r y ≡ (in_sets held.old r y || (about W self.now).has t r y) }
    {
        for (r, whom) in held.iter_mut().enumerate() {
            whom.add(&self.targets(t, r as Right));
        }
    }

    // Adds for each right whom those that word c has have it to.
    fn gather_word(&self, c: usize, word: u64, held: &mut Held<W>)
        requires { c < 4 }
        ensures { (r y : ℕ) → in_sets held.new r y ≡ (in_sets held.old r y || held_by (about W self.now) (in_word c word) r y) }
    {
        let mut rest = word;
        while let Some(b) = pop_bit(&mut rest) {
            self.gather_one((64 * c + b as usize) as Vertex, held);
        }
    }

    // For each right, whom some vertex of the set has it to: eight unions in one walk, word by word.
    fn gather(&self, set: &BitSet<W>) -> Held<W>
        ensures { (r y : ℕ) → in_sets result r y ≡ held_by (about W self.now) (among W set.now) r y }
    {
        let mut held = [BitSet::empty(); RIGHTS as usize];
        for c in 0..W {
            self.gather_word(c, set.word(c), &mut held);
        }
        held
    }

    // Adds what an island brings, whose subjects are `inner`, and which reaches `out`. Answers with who gets it.
    pub(super) fn spread(&mut self, inner: &BitSet<W>, out: &BitSet<W>) -> BitSet<W>
        ensures who { (x : ℕ) → among W result x ≡ gets (about W self.old) (among W inner.now) (among W out.now) x }
        ensures rows { Becomes W self.old self.new (λ i x. cells W self.old i x || spreads (about W self.old) (among W inner.now) (among W out.now) i x) }
    {
        let held = self.gather(out);
        let who = inner.union(&held[usize::from(GRANT)]);
        for (r, targets) in held.iter().enumerate() {
            self.share(r as Right, targets, &who);
        }
        who
    }
}
