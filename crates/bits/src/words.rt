// Sets of numbers as slices of 64-bit words: number k is bit k % 64 of word k / 64.
// `has`, `put` and `cut` take word and bit apart: a row of a table begins at a word, so that of one number both would have to be divided out again.

ghost use Rattle.std.specs.Prelude.{◌≡◌, ℕ, ◌+◌, ◌*◌, ◌^◌, ◌<◌, ◌≤◌, Bool, true, false, not, ◌&&◌, ◌||◌, length, IfSome, MatchOption, ◌==◌, nat_lt, slice_index};
ghost use Rattle.bits.specs.Members.{TakesLowest};
ghost use Rattle.bits.specs.Sets.{Same, member};
ghost use Rattle.model.specs.Bit.{bit};
ghost use Rattle.model.specs.Bounded.{all_below, count_below, implies};

// Is the number 64 * at + i there?
pub fn has(words: &[u64], at: usize, i: usize) -> bool
    requires { (at < length words.now) × (i < 64) }
    ensures { result ≡ member words.now (64 * at + i) }
{
    words[at] >> i & 1 == 1
}

// Has the byte bit i?
pub fn has_bit(byte: u8, i: u8) -> bool
    requires { i < 8 }
    ensures { result ≡ bit byte i }
{
    byte >> i & 1 == 1
}

// Adds the number 64 * at + i.
pub fn put(words: &mut [u64], at: usize, i: usize)
    requires { (at < length words.old) × (i < 64) }
    ensures { (k : ℕ) → member words.new k ≡ (k == 64 * at + i || member words.old k) }
{
    words[at] |= 1 << i;
}

// Takes the lowest bit out of a word.
pub fn pop_bit(word: &mut u64) -> Option<u32>
    ensures lowest { TakesLowest (bit word.old) result (bit word.new) }
    ensures bound { IfSome result (λ i. i < 64) }
{
    if *word == 0 {
        return None;
    }
    let i = word.trailing_zeros();
    *word &= *word - 1;
    Some(i)
}

// Word i of the numbers below n.
pub fn below_word(n: usize, i: usize) -> u64
    ensures { (j : ℕ) → j < 64 → bit result j ≡ nat_lt (64 * i + j) n }
{
    let left = n.saturating_sub(i.saturating_mul(64));
    if left < 64 { (1 << left) - 1 } else { u64::MAX }
}

// Word i of the set that has v alone.
pub fn only_word(v: usize, i: usize) -> u64
    ensures { (j : ℕ) → j < 64 → bit result j ≡ (64 * i + j == v) }
{
    if v / 64 == i { 1 << (v % 64) } else { 0 }
}

// Takes the number 64 * at + i out.
pub fn cut(words: &mut [u64], at: usize, i: usize)
    requires { (at < length words.old) × (i < 64) }
    ensures { (k : ℕ) → member words.new k ≡ (not (k == 64 * at + i) && member words.old k) }
{
    words[at] &= !(1 << i);
}

// The words of two sets of one width, joined one by one.
pub fn joined<const W: usize, F: Fn(u64, u64) -> u64>(
    a: &[u64; W],
    b: &[u64; W],
    join: F,
) -> [u64; W]
    requires { F.IsAlwaysCallable join }
    ensures { (i : ℕ) → i < W → F.post join (slice_index a.now i) (slice_index b.now i) (slice_index result i) }
{
    std::array::from_fn(
        |i: usize| -> u64
            requires { (i < W) × F.IsAlwaysCallable join }
            ensures { F.post join (slice_index a.entry.now i) (slice_index b.entry.now i) result }
        { join(a[i], b[i]) },
    )
}

// Has b each bit that a has?
fn is_within(a: u64, b: u64) -> bool
    ensures { result ≡ all_below 64 (λ i. implies (bit a i) (bit b i)) }
{
    a & !b == 0
}

pub fn is_subset(words: &[u64], other: &[u64]) -> bool
    requires { length words.now ≡ length other.now }
    ensures { (n : ℕ) (f : ℕ → Bool) → n ≡ 64 * length words.now → Same f (λ k. implies (member words.now k) (member other.now k)) → result ≡ all_below n f }
{
    words.iter().zip(other).all(|(a, b)| is_within(*a, *b))
}

pub fn is_empty(words: &[u64]) -> bool
    ensures { (n : ℕ) (f : ℕ → Bool) → n ≡ 64 * length words.now → Same f (λ k. not (member words.now k)) → result ≡ all_below n f }
{
    words.iter().all(|w| *w == 0)
}

pub fn count(words: &[u64]) -> usize
    requires { 64 * length words.now < 2 ^ 64 }
    ensures { (n : ℕ) (f : ℕ → Bool) → n ≡ 64 * length words.now → Same f (member words.now) → result ≡ count_below n f }
{
    words.iter().map(|w| w.count_ones() as usize).sum()
}

// The lowest number that is there.
pub fn lowest(words: &[u64]) -> Option<usize>
    requires { 64 * length words.now < 2 ^ 64 }
    ensures { MatchOption result
        ((k : ℕ) → member words.now k ≡ false)
        (λ v. (v < 64 * length words.now) × (member words.now v ≡ true) × ((k : ℕ) → k < v → member words.now k ≡ false)) }
{
    for (i, w) in words.iter().enumerate() {
        if *w != 0 {
            return Some(64 * i + w.trailing_zeros() as usize);
        }
    }
    None
}

// Word i of a set: 0 past the last.
fn word(words: &[u64], i: usize) -> u64
    ensures { result ≡ slice_index words.now i }
{
    words.get(i).copied().unwrap_or(0)
}

// The same set in W words, as far as there is room.
pub fn resized<const W: usize>(words: &[u64]) -> [u64; W]
    ensures { (k : ℕ) → member result k ≡ (nat_lt k (64 * W) && member words.now k) }
{
    std::array::from_fn(|i| word(words, i))
}
