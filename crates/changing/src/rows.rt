// Rows of take paths: one for each number that a vertex can have, with a bit for each vertex.
mod anew;

ghost use Rattle.std.specs.Prelude.{◌≡◌, ℕ, ◌&&◌, ◌||◌, ◌==◌, if◌then◌else◌, length};
ghost use Rattle.bits.specs.Sets.{holds};
ghost use Rattle.changing.specs.declared.rows.TheConstants.{WORDS};
ghost use Rattle.graph.specs.Graphs.{state};
ghost use Rattle.spans.specs.Paths.{path_from};

use bits::{VertexSet, WIDE, row_contains, row_insert, row_union};
use graph::Graph;
use model::{NUMBERS, Vertex};
use spans::lead;

// How many words a changing graph is lent: those of all rows.
pub const WORDS: usize = WIDE * NUMBERS;

// Flat words, since `spans::lead` and the rows of `bits` work in lent slices of words, by a rule of the project; so the field is a slice, with its length, and
// not the array that is lent.
#[derive(Drop)]
pub struct Rows<'a> {
    words: &'a mut [u64],
    ghost whole: { length words.now ≡ WORDS },
}

impl<'a> Rows<'a> {
    ghost use Rattle.changing.specs.Rows.{in_rows};

    // Where take paths of the graph lead to from each vertex, whatever the words had.
    pub fn of(graph: &Graph, words: &'a mut [u64; WORDS]) -> Rows<'a>
        ensures { (x y : ℕ) → in_rows result x y ≡ path_from (state graph.now) x y }
    {
        words.fill(0);
        lead::<WIDE>(graph, words);
        Rows { words }
    }

    pub fn row(&self, x: Vertex) -> VertexSet
        ensures { (y : ℕ) → holds result y ≡ in_rows self.now x y }
    {
        VertexSet::at(self.words, usize::from(x))
    }

    pub fn has(&self, x: Vertex, y: Vertex) -> bool
        ensures { result ≡ in_rows self.now x y }
    {
        row_contains(self.words, WIDE, usize::from(x), usize::from(y))
    }

    // Row x has y from now on.
    pub fn insert(&mut self, x: Vertex, y: Vertex)
        ensures { (p q : ℕ) → in_rows self.new p q ≡ ((p == x && q == y) || in_rows self.old p q) }
    {
        row_insert(self.words, WIDE, usize::from(x), usize::from(y));
    }

    // Row x is the set from now on.
    fn put(&mut self, x: Vertex, set: &VertexSet)
        ensures { (p q : ℕ) → in_rows self.new p q ≡ (if p == x then holds set.now q else in_rows self.old p q) }
    {
        set.write(self.words, usize::from(x));
    }

    // Row `into` gets what row `from` has.
    fn unite(&mut self, into: Vertex, from: Vertex)
        ensures { (x y : ℕ) → in_rows self.new x y ≡ (in_rows self.old x y || (x == into && in_rows self.old from y)) }
    {
        row_union(self.words, WIDE, usize::from(into), usize::from(from));
    }
}
