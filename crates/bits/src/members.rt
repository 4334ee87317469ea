// The members of a set, one after the other.

ghost use Rattle.std.specs.Prelude.{◌≡◌, ◌*◌, ◌≤◌};
ghost use Rattle.std.specs.Iterator.{at_most};
ghost use Rattle.bits.specs.Members.{TakesLowest, left};
ghost use Rattle.bits.specs.Sets.{among};
ghost use Rattle.model.specs.Bounded.{count_below};

use crate::set::{BitSet, VertexSet, WIDE};

// The members that are left, the lowest first.
#[derive(Clone, Debug, Drop)]
pub struct Members<const W: usize> {
    rest: BitSet<W>,
}

impl<const W: usize> Iterator for Members<W> {
    type Item = u8;

    ghost can_next = { λ _. W ≤ 4 };

    ghost next_gives = { λ s r t. TakesLowest (among W (left s)) r (among W (left t)) };

    ghost remaining = { λ s. at_most (count_below (64 * W) (among W (left s))) };

    fn next(&mut self) -> Option<u8> {
        self.rest.pop()
    }
}

impl<const W: usize> BitSet<W> {
    pub fn iter(&self) -> Members<W>
        ensures { left result ≡ self.now }
    {
        Members { rest: *self }
    }
}

impl IntoIterator for VertexSet {
    type Item = u8;

    type IntoIter = Members<WIDE>;

    ghost into_iter_gives = { λ set members. left members ≡ set };

    fn into_iter(self) -> Members<WIDE> {
        self.iter()
    }
}
