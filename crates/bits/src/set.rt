// Sets of numbers: a bit for each, 64 to a word.

ghost use Rattle.std.specs.Prelude.{◌≡◌, ℕ, ◌-◌, ◌*◌, ◌<◌, ◌≤◌, true, false, not, ◌&&◌, ◌||◌, length, if◌then◌else◌, MatchOption, ◌==◌, nat_lt};
ghost use Rattle.bits.specs.Members.{TakesLowest};
ghost use Rattle.bits.specs.Sets.{among, holds, in_bytes, member, set_bytes};
ghost use Rattle.model.specs.Bounded.{all_below, count_below, implies, some_below};

use crate::{big_endian, words};

// A set of numbers below 64 * W.
#[derive(Clone, Copy, PartialEq, Eq, Debug)]
pub struct BitSet<const W: usize> {
    words: [u64; W],
}

// The words of a set that has a bit for each vertex: a vertex is a byte.
pub const WIDE: usize = 4;

pub type VertexSet = BitSet<WIDE>;

impl<const W: usize> BitSet<W> {
    pub(crate) fn of(words: [u64; W]) -> BitSet<W>
        ensures { (k : ℕ) → among W result k ≡ member words.entry k }
    {
        BitSet { words }
    }

    pub(crate) fn words(&self) -> [u64; W]
        ensures { (k : ℕ) → member result k ≡ among W self.now k }
    {
        self.words
    }

    pub fn empty() -> BitSet<W>
        ensures { (k : ℕ) → among W result k ≡ false }
    {
        BitSet::of([0; W])
    }

    // The numbers below n, as far as there is room.
    pub fn below(n: usize) -> BitSet<W>
        ensures { (k : ℕ) → among W result k ≡ (nat_lt k (64 * W) && nat_lt k n) }
    {
        BitSet::of(std::array::from_fn(|i| words::below_word(n, i)))
    }

    // v alone, as far as there is room.
    pub fn only(v: usize) -> BitSet<W>
        ensures { (k : ℕ) → among W result k ≡ (nat_lt k (64 * W) && k == v) }
    {
        BitSet::of(std::array::from_fn(|i| words::only_word(v, i)))
    }

    // The same numbers in V words, as far as there is room.
    pub fn resized<const V: usize>(&self) -> BitSet<V>
        ensures { (k : ℕ) → among V result k ≡ (nat_lt k (64 * V) && among W self.now k) }
    {
        BitSet::of(words::resized(&self.words()))
    }

    // v alone, if it is there.
    pub fn pick(&self, v: usize) -> BitSet<W>
        ensures { (k : ℕ) → among W result k ≡ (k == v && among W self.now k) }
    {
        self.intersection(&BitSet::only(v))
    }

    pub fn add(&mut self, other: &BitSet<W>)
        ensures { (k : ℕ) → among W self.new k ≡ (among W self.old k || among W other.now k) }
    {
        *self = self.union(other);
    }

    pub fn union(&self, other: &BitSet<W>) -> BitSet<W>
        ensures { (k : ℕ) → among W result k ≡ (among W self.now k || among W other.now k) }
    {
        BitSet::of(words::joined(&self.words(), &other.words(), |a, b| a | b))
    }

    pub fn intersection(&self, other: &BitSet<W>) -> BitSet<W>
        ensures { (k : ℕ) → among W result k ≡ (among W self.now k && among W other.now k) }
    {
        BitSet::of(words::joined(&self.words(), &other.words(), |a, b| a & b))
    }

    pub fn difference(&self, other: &BitSet<W>) -> BitSet<W>
        ensures { (k : ℕ) → among W result k ≡ (among W self.now k && not (among W other.now k)) }
    {
        BitSet::of(words::joined(&self.words(), &other.words(), |a, b| a & !b))
    }

    pub fn is_subset(&self, other: &BitSet<W>) -> bool
        ensures { result ≡ all_below (64 * W) (λ k. implies (among W self.now k) (among W other.now k)) }
    {
        words::is_subset(&self.words(), &other.words())
    }

    pub fn is_empty(&self) -> bool
        ensures { result ≡ all_below (64 * W) (λ k. not (among W self.now k)) }
    {
        words::is_empty(&self.words())
    }

    // Have both a member in common?
    pub fn meets(&self, other: &BitSet<W>) -> bool
        ensures { result ≡ some_below (64 * W) (λ k. among W self.now k && among W other.now k) }
    {
        !self.intersection(other).is_empty()
    }

    // The lowest number. A byte numbers what four words have, so here and where this is called W is at most 4; other sets may be wider.
    pub fn lowest(&self) -> Option<u8>
        requires { W ≤ 4 }
        ensures { MatchOption result
            ((k : ℕ) → among W self.now k ≡ false)
            (λ v. (among W self.now v ≡ true) × ((k : ℕ) → k < v → among W self.now k ≡ false)) }
    {
        words::lowest(&self.words()).map(|v| v as u8)
    }

    // Takes the lowest number out: by whole sets, which stay in registers where a word that is written by its index would not.
    pub fn pop(&mut self) -> Option<u8>
        requires { W ≤ 4 }
        ensures { TakesLowest (among W self.old) result (among W self.new) }
    {
        let v = self.lowest()?;
        let one = BitSet::only(usize::from(v));
        *self = self.difference(&one);
        Some(v)
    }
}

impl VertexSet {
    // The numbers of `low`, and those of `high` as numbers from 128 on.
    pub fn of_halves(low: BitSet<2>, high: BitSet<2>) -> VertexSet
        ensures { (k : ℕ) → holds result k ≡ (if nat_lt k 128 then among 2 low k else among 2 high (k - 128)) }
    {
        let [a, b] = low.words();
        let [c, d] = high.words();
        BitSet::of([a, b, c, d])
    }

    pub fn contains(&self, v: u8) -> bool
        ensures { result ≡ holds self.now v }
    {
        words::has(&self.words, usize::from(v) / 64, usize::from(v) % 64)
    }

    pub fn insert(&mut self, v: u8)
        ensures { (k : ℕ) → holds self.new k ≡ (k == v || holds self.old k) }
    {
        words::put(&mut self.words, usize::from(v) / 64, usize::from(v) % 64);
    }

    pub fn remove(&mut self, v: u8)
        ensures { (k : ℕ) → holds self.new k ≡ (not (k == v) && holds self.old k) }
    {
        words::cut(&mut self.words, usize::from(v) / 64, usize::from(v) % 64);
    }

    pub fn count(&self) -> usize
        ensures { result ≡ count_below 256 (holds self.now) }
    {
        words::count(&self.words())
    }

    // The set that the bytes name, the highest first. More than 32 name no set of vertices.
    pub fn from_be_bytes(bytes: &[u8]) -> Option<VertexSet>
        ensures { MatchOption result
            (32 < length bytes.now)
            (λ s. (length bytes.now ≤ 32) × ((k : ℕ) → holds s k ≡ in_bytes bytes.now k)) }
    {
        if bytes.len() > 32 {
            return None;
        }
        Some(BitSet::of(big_endian::read(bytes)))
    }

    // The set as bytes, the highest first. The last 16 write what it has below 128.
    pub fn to_be_bytes(&self) -> [u8; 32]
        ensures { result ≡ set_bytes 32 (holds self.now) }
    {
        big_endian::write(&self.words())
    }
}
