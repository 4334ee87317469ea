// One side of a search: what was found, and what is looked at next.
ghost use Rattle.std.specs.Prelude.{◌≡◌, ℕ, ◌≤◌, false, ◌&&◌, MatchOption};
ghost use Rattle.bits.specs.Sets.{among};

use bits::BitSet;

#[derive(Clone, Copy)]
pub struct Front<const W: usize> {
    // What was found, and of that what is left to look at.
    pub found: BitSet<W>,
    left: BitSet<W>,
    ghost part: { (k : ℕ) → (among W left k && among W found k) ≡ among W left k },
}

impl<const W: usize> Front<W> {
    ghost use Rattle.spans.specs.Fronts.{Grown, Taken};

    // What a search starts from: all of it is left to look at.
    pub fn of(found: BitSet<W>) -> Front<W>
        ensures { (result.found ≡ found.entry) × (result.left ≡ found.entry) }
    {
        let left = found;
        Front { found, left }
    }

    // Adds what was found.
    pub fn add(&mut self, set: &BitSet<W>)
        ensures { Grown self.old self.new (among W set.now) }
    {
        let new = set.difference(&self.found);
        self.found.add(&new);
        self.left.add(&new);
    }

    // What to look at next, if anything is left.
    pub fn pop(&mut self) -> Option<u8>
        requires { W ≤ 4 }
        ensures { MatchOption result
            (((k : ℕ) → among W self.old.left k ≡ false) × ((k : ℕ) → among W self.new.left k ≡ false) × (self.new.found ≡ self.old.found))
            (Taken self.old self.new) }
    {
        self.left.pop()
    }
}
