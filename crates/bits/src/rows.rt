// Tables of bits in a lent slice: row x is the w words from x * w on, and writes a set of numbers below 64 * w.
// That they are plain slices with the width beside them, and no struct, is a rule of the project: who asks for a table lends the memory for it.

ghost use Rattle.std.specs.Prelude.{◌≡◌, ℕ, ◌+◌, ◌*◌, ◌/◌, ◌%◌, ◌^◌, ◌<◌, ◌≤◌, not, ◌&&◌, ◌||◌, length, if◌then◌else◌, ◌==◌, nat_eq, nat_lt};
ghost use Rattle.bits.specs.Rows.{cell};
ghost use Rattle.bits.specs.Sets.{among, holds, member};
ghost use Rattle.model.specs.Bit.{bit};
ghost use Rattle.model.specs.Bounded.{all_below, count_below, implies};

use crate::set::{BitSet, VertexSet};
use crate::words;

pub fn row(rows: &[u64], w: usize, x: usize) -> &[u64]
    requires { x * w + w ≤ length rows.now }
    ensures size { length result.now ≡ w }
    ensures same { (k : ℕ) → member result.now k ≡ cell rows.now w x k }
{
    &rows[x * w..x * w + w]
}

pub fn row_contains(rows: &[u64], w: usize, x: usize, k: usize) -> bool
    requires { (x * w + w ≤ length rows.now) × (k < 64 * w) }
    ensures { result ≡ cell rows.now w x k }
{
    words::has(rows, x * w + k / 64, k % 64)
}

pub fn row_count(rows: &[u64], w: usize, x: usize) -> usize
    requires { (x * w + w ≤ length rows.now) × (64 * w < 2 ^ 64) }
    ensures { result ≡ count_below (64 * w) (cell rows.now w x) }
{
    words::count(row(rows, w, x))
}

// Has row y all that row x has?
pub fn row_is_subset(rows: &[u64], w: usize, x: usize, y: usize) -> bool
    requires { (x * w + w ≤ length rows.now) × (y * w + w ≤ length rows.now) }
    ensures { result ≡ all_below (64 * w) (λ k. implies (cell rows.now w x k) (cell rows.now w y k)) }
{
    words::is_subset(row(rows, w, x), row(rows, w, y))
}

pub fn row_insert(rows: &mut [u64], w: usize, x: usize, k: usize)
    requires { (x * w + w ≤ length rows.old) × (k < 64 * w) }
    ensures { (y j : ℕ) → cell rows.new w y j ≡ ((y == x && j == k) || cell rows.old w y j) }
{
    words::put(rows, x * w + k / 64, k % 64);
}

// Adds what row `from` has to row `into`.
pub fn row_union(rows: &mut [u64], w: usize, into: usize, from: usize)
    requires { (into * w + w ≤ length rows.old) × (from * w + w ≤ length rows.old) }
    ensures { (x k : ℕ) → cell rows.new w x k ≡ (cell rows.old w x k || (x == into && cell rows.old w from k)) }
{
    // By index, since both rows are in one slice.
    for i in 0..w {
        rows[into * w + i] |= rows[from * w + i];
    }
}

// Word i of row x: the numbers from 64 * i on.
pub fn row_word(rows: &[u64], w: usize, x: usize, i: usize) -> u64
    requires { (x * w + w ≤ length rows.now) × (i < w) }
    ensures { (j : ℕ) → j < 64 → bit result j ≡ cell rows.now w x (64 * i + j) }
{
    let at = x * w + i;
    rows[at]
}

// Word i of row x from now on.
pub fn row_put(rows: &mut [u64], w: usize, x: usize, i: usize, word: u64)
    requires { (x * w + w ≤ length rows.old) × (i < w) }
    ensures { (y k : ℕ) → cell rows.new w y k ≡ (if nat_eq y x && k / 64 == i then bit word (k % 64) else cell rows.old w y k) }
{
    rows[x * w + i] = word;
}

// Takes all numbers out of row x.
pub fn row_clear(rows: &mut [u64], w: usize, x: usize)
    requires { x * w + w ≤ length rows.old }
    ensures { (y k : ℕ) → cell rows.new w y k ≡ (not (y == x) && cell rows.old w y k) }
{
    rows[x * w..x * w + w].fill(0);
}

// Adds to each word of a row what the word of its place has. One of the two slices is taken by index: of what `iter_mut` is zipped with, the library
// doesn't say what is in the elements afterwards.
fn unite(row: &mut [u64], words: &[u64])
    requires { length row.old ≤ length words.now }
    ensures size { length row.new ≡ length row.old }
    ensures value { (k : ℕ) → member row.new k ≡ (member row.old k || (nat_lt k (64 * length row.old) && member words.now k)) }
{
    for (i, word) in row.iter_mut().enumerate() {
        *word |= words[i];
    }
}

// Adds to row x what the first w words have.
fn add_words(rows: &mut [u64], w: usize, x: usize, words: &[u64])
    requires { (x * w + w ≤ length rows.old) × (w ≤ length words.now) }
    ensures { (y k : ℕ) → cell rows.new w y k ≡ (cell rows.old w y k || (y == x && (nat_lt k (64 * w) && member words.now k))) }
{
    unite(&mut rows[x * w..x * w + w], words);
}

// What row x has, as a set of vertices: `BitSet::at` where the width is known only when the program runs.
pub fn row_set(rows: &[u64], w: usize, x: usize) -> VertexSet
    requires { (x * w + w ≤ length rows.now) × (w ≤ 4) }
    ensures { (k : ℕ) → holds result k ≡ cell rows.now w x k }
{
    BitSet::of(words::resized(row(rows, w, x)))
}

// Adds to row x what the set has, of whatever width the row is; what is past its end is left out. So `add_to` is for a set as wide as the row.
pub fn row_add(rows: &mut [u64], w: usize, x: usize, set: &VertexSet)
    requires { (x * w + w ≤ length rows.old) × (w ≤ 4) }
    ensures { (y k : ℕ) → cell rows.new w y k ≡ (cell rows.old w y k || (y == x && (nat_lt k (64 * w) && holds set.now k))) }
{
    add_words(rows, w, x, &set.words());
}

// Sets that are as wide as a row.
impl<const W: usize> BitSet<W> {
    // What row x has.
    pub fn at(rows: &[u64], x: usize) -> BitSet<W>
        requires { x * W + W ≤ length rows.now }
        ensures { (k : ℕ) → among W result k ≡ cell rows.now W x k }
    {
        BitSet::of(words::resized(row(rows, W, x)))
    }

    // The numbers from 64 * at on.
    pub fn word(&self, at: usize) -> u64
        requires { at < W }
        ensures { (j : ℕ) → j < 64 → bit result j ≡ among W self.now (64 * at + j) }
    {
        self.words()[at]
    }

    // Row x is this set from now on.
    pub fn write(&self, rows: &mut [u64], x: usize)
        requires { x * W + W ≤ length rows.old }
        ensures { (y k : ℕ) → cell rows.new W y k ≡ (if nat_eq y x then among W self.now k else cell rows.old W y k) }
    {
        rows[x * W..x * W + W].copy_from_slice(&self.words());
    }

    // Adds this set to row x.
    pub fn add_to(&self, rows: &mut [u64], x: usize)
        requires { x * W + W ≤ length rows.old }
        ensures { (y k : ℕ) → cell rows.new W y k ≡ (cell rows.old W y k || (y == x && among W self.now k)) }
    {
        add_words(rows, W, x, &self.words());
    }
}
