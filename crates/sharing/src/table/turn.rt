// Who has which right: rows of targets turned round. A block is 64 rows in lent words, by a rule of the project, taken by their index; its rows go eight apart into the table.
ghost use Rattle.std.specs.Prelude.{◌≡◌, ℕ, ◌+◌, ◌*◌, ◌/◌, ◌%◌, ◌<◌, ◌≤◌, not, ◌&&◌, ◌||◌, T, length, ◌==◌, nat_lt};
ghost use Rattle.bits.specs.Rows.{cell};
ghost use Rattle.bits.specs.Sets.{among};
ghost use Rattle.model.specs.Bit.{bit};
ghost use Rattle.sharing.specs.Filling.{about, added, block_row, cells, lacking, of_links, of_rights, placed, Becomes};
ghost use Rattle.sharing.specs.Table.{has_row, shares_row};

use super::{Table, row_at};
use bits::{BitSet, VertexSet, WIDE, row_put, row_word, transpose};
use model::{GRANT, RIGHTS, Right, TAKE, Vertex};

// 64 rows of at most so many words as a set of vertices has.
const BLOCK: usize = 64 * WIDE;

// How many rows of targets are looked at to guess how many rights there are.
const SAMPLE: u8 = 16;

// How many rights in these make it worthwhile to turn whole blocks: a guess, on which only time depends.
const MANY: usize = 43;

// The first of the rights that lead nowhere: those below are take and grant.
const INERT: Right = GRANT + 1;

// From how many vertices on whose rights are left it may be worthwhile to turn whole blocks: a guess too.
const SEVERAL: usize = 8;

// Word i of row x gains these bits.
fn gain(rows: &mut [u64], w: usize, x: usize, i: usize, word: u64)
    requires { (x * w + w ≤ length rows.old) × (i < w) }
    ensures { (y k : ℕ) → cell rows.new w y k ≡ (cell rows.old w y k || ((y == x && k / 64 == i) && bit word (k % 64))) }
{
    let both = word | row_word(rows, w, x, i);
    row_put(rows, w, x, i, both);
}

// Word g of the row of right r to each of n vertices from 64 * c on gains word c of the vertex's row in the block. Of the table it takes the words alone,
// whose place then stays in a register.
fn gain_column<const W: usize>(
    rows: &mut [u64],
    block: &[u64],
    n: usize,
    r: Right,
    g: usize,
    c: usize,
)
    requires bound { (g < W) × (r < 8) × (c < W) × (W ≤ 4) × (n ≤ 64) × (64 * W ≤ length block.now) }
    requires there { (i : ℕ) → i < n → (8 * (64 * c + i) + r) * W + W ≤ length rows.old }
    ensures { (i x : ℕ) → cell rows.new W i x ≡ (cell rows.old W i x || (((i / 8 / 64 == c && (i % 8 == r && x / 64 == g)) && nat_lt (i / 8 % 64) n) && block_row (cell block.now W) i x)) }
{
    for i in 0..n {
        gain(rows, W, row_at(r, 64 * c + i), g, row_word(block, W, i, c));
    }
}

impl<const W: usize> Table<'_, '_, W> {
    // Whom x has right r to.
    pub(super) fn targets(&self, x: Vertex, r: Right) -> BitSet<W>
        ensures { (y : ℕ) → among W result y ≡ (about W self.now).has x r y }
    {
        self.graph.targets_in(x, r)
    }

    // Whom each of the 64 vertices from 64 * g on has right r to.
    fn load(&self, r: Right, g: usize, block: &mut [u64])
        requires { (g < W) × (64 * W ≤ length block.old) }
        ensures { (i y : ℕ) → i < 64 → cell block.new W i y ≡ (about W self.now).has (64 * g + i) r y }
    {
        for i in 0..64 {
            self.targets((64 * g + i) as u8, r).write(block, i);
        }
    }

    // Word g of the row of right r to each vertex from 64 * c on gains word c of the vertex's row in the block.
    fn store_word(&mut self, block: &[u64], r: Right, g: usize, c: usize)
        requires { (g < W) × (r < 8) × (c < W) × (64 * W ≤ length block.now) }
        ensures { Becomes W self.old self.new (placed (about W self.old) (λ i x. i / 8 / 64 == c && (i % 8 == r && x / 64 == g)) (block_row (cell block.now W)) (cells W self.old)) }
    {
        let left = usize::from(self.graph.size()).saturating_sub(64 * c);
        gain_column::<W>(self.rows, block, left.min(64), r, g, c);
    }

    // Word g of the row of right r to each vertex gains what the block has for the vertex.
    fn store(&mut self, block: &[u64], r: Right, g: usize)
        requires { (g < W) × (r < 8) × (64 * W ≤ length block.now) }
        ensures { Becomes W self.old self.new (placed (about W self.old) (λ i x. i % 8 == r && x / 64 == g) (block_row (cell block.now W)) (cells W self.old)) }
    {
        for c in 0..W {
            self.store_word(block, r, g, c);
        }
    }

    // Word g of the row of right r to each vertex gains who has it, of the 64 vertices from 64 * g on.
    fn turn_word(&mut self, r: Right, g: usize, block: &mut [u64])
        requires { (g < W) × (r < 8) × (64 * W ≤ length block.old) }
        ensures { Becomes W self.old self.new (placed (about W self.old) (λ i x. i % 8 == r && x / 64 == g) (has_row (about W self.old)) (cells W self.old)) }
    {
        self.load(r, g, block);
        transpose::<W>(block);
        self.store(block, r, g);
    }

    // Word g of each row of these rights gains who has the right, of the 64 vertices from 64 * g on.
    fn turn_group(&mut self, first: Right, end: Right, g: usize, block: &mut [u64])
        requires { (g < W) × (first ≤ end) × (end ≤ 8) × (64 * W ≤ length block.old) }
        ensures { Becomes W self.old self.new (placed (about W self.old) (λ i x. of_rights first end i && x / 64 == g) (has_row (about W self.old)) (cells W self.old)) }
    {
        for r in first..end {
            self.turn_word(r, g, block);
        }
    }

    // Adds to the rows of these rights who has them: by whole blocks, at a cost that doesn't depend on how many there are.
    // The rights of 64 vertices are all turned before those of the next 64, so that they stay near.
    fn turn_blocks(&mut self, first: Right, end: Right)
        requires { (first ≤ end) × (end ≤ 8) }
        ensures { Becomes W self.old self.new (added (about W self.old) (λ i x. of_rights first end i) (cells W self.old)) }
    {
        let mut block = [0; BLOCK];
        for g in 0..W {
            self.turn_group(first, end, g, &mut block);
        }
    }

    // Adds x to the rows of what it has of these rights.
    fn enter(&mut self, x: Vertex, first: Right, end: Right)
        requires { (x < (about W self.old).size) × (first ≤ end) × (end ≤ 8) }
        ensures { Becomes W self.old self.new (added (about W self.old) (λ i y. of_rights first end i && y == x) (cells W self.old)) }
    {
        let one = BitSet::only(usize::from(x));
        for r in first..end {
            let targets = self.targets(x, r);
            self.share(r, &targets, &one);
        }
    }

    // Adds each vertex to the rows of whom it has take or grant to: right by right, so that few rights cost little.
    fn enter_links(&mut self)
        ensures { Becomes W self.old self.new (added (about W self.old) (λ i y. of_links i) (cells W self.old)) }
    {
        for x in 0..self.graph.size() {
            self.enter(x, TAKE, INERT);
        }
    }

    // Adds each of the set to the rows of what it has of the other rights.
    fn enter_inert(&mut self, set: &BitSet<W>)
        requires { (x : ℕ) → T (among W set.now x) → x < (about W self.old).size }
        ensures { Becomes W self.old self.new (added (about W self.old) (λ i y. not (of_links i) && among W set.now y) (cells W self.old)) }
    {
        for x in set.iter() {
            self.enter(x, INERT, RIGHTS);
        }
    }

    // Are there few rights? A guess by a sample, every eighth vertex with each right in turn, on which nothing depends but the time that is taken.
    pub(super) fn few(&self) -> bool {
        let sample: usize = (0..SAMPLE)
            .map(|k| self.graph.targets(8 * k, k % RIGHTS).count())
            .sum();
        sample < MANY
    }

    // The rows become who has take and grant to what; those of the other rights become empty.
    pub(super) fn turn_links(&mut self, few: bool)
        ensures { Becomes W self.old self.new (λ i x. of_links i && has_row (about W self.old) i x) }
    {
        self.rows.fill(0);
        if few {
            self.enter_links();
        } else {
            self.turn_blocks(TAKE, INERT);
        }
    }

    // The rows become who can come to have what, where they lacked only what those of the set have of the other rights.
    pub(super) fn turn_inert(&mut self, few: bool, set: &BitSet<W>)
        requires there { (x : ℕ) → T (among W set.now x) → x < (about W self.old).size }
        requires lacking { (i x : ℕ) → lacking (about W self.old) (among W set.now) (cells W self.old) i x ≡ shares_row (about W self.old) i x }
        ensures { Becomes W self.old self.new (shares_row (about W self.old)) }
    {
        let all: VertexSet = set.resized();
        if few || all.count() < SEVERAL {
            self.enter_inert(set);
        } else {
            self.turn_blocks(INERT, RIGHTS);
        }
    }
}
