// The table worked out: who has take and grant to what, then what each island brings, and then what is left of what they have themselves.
ghost use Rattle.std.specs.Prelude.{◌≡◌, ℕ, ◌+◌, ◌*◌, ◌<◌, ◌≤◌, false, ◌&&◌, T, length, nat_lt};
ghost use Rattle.bits.specs.Rows.{cell};
ghost use Rattle.bits.specs.Sets.{among};
ghost use Rattle.graph.specs.Graphs.{state};
ghost use Rattle.graph.specs.Table.{row_width};
ghost use Rattle.spans.specs.Sets.{in_sets};
ghost use Rattle.sharing.specs.Filling.{about, cells, lacking, of_links};
ghost use Rattle.sharing.specs.Table.{has_row, shares_row, table_words};

use super::{Table, row};
use bits::{BitSet, WIDE};
use graph::Graph;
use model::{GRANT, NARROW, NUMBERS, Right, TAKE};
use spans::reach;

impl<const W: usize> Table<'_, '_, W> {
    // Who has right r to each vertex, in sets that were empty and are lent, so that nobody has to move them. By its number, as rows of the lent table are taken.
    fn holders(&self, r: Right, sets: &mut [BitSet<W>])
        requires bound { (r < 8) × ((about W self.now).size ≤ length sets.old) }
        requires empty { (y x : ℕ) → in_sets sets.old y x ≡ false }
        ensures size { length sets.new ≡ length sets.old }
        ensures sets { (y x : ℕ) → in_sets sets.new y x ≡ (nat_lt y (about W self.now).size && cells W self.now (8 * y + r) x) }
    {
        for y in 0..self.graph.size() {
            sets[usize::from(y)] = BitSet::at(self.rows, row(r, y));
        }
    }

    // Adds what each island brings: one pass for each. Answers with those whose own rights it didn't bring: whoever is where
    // the island reaches, and gets what it brings, has got what it has itself.
    fn spread_all(&mut self) -> BitSet<W>
        requires { (i x : ℕ) → cells W self.old i x ≡ (of_links i && has_row (about W self.old) i x) }
        ensures graph { self.new.graph ≡ self.old.graph }
        ensures there { (x : ℕ) → T (among W result x) → x < (about W self.old).size }
        ensures lacking { (i x : ℕ) → lacking (about W self.old) (among W result) (cells W self.new) i x ≡ shares_row (about W self.old) i x }
    {
        let graph = self.graph;
        let mut takers = [BitSet::empty(); NUMBERS];
        let mut granters = [BitSet::empty(); NUMBERS];
        self.holders(TAKE, &mut takers);
        self.holders(GRANT, &mut granters);
        let subjects: BitSet<W> = graph.subjects().resized();
        let mut rest = subjects;
        let mut left = BitSet::below(usize::from(graph.size()));
        while let Some(l) = rest.lowest() {
            let out = reach(graph, &takers, &granters, l);
            let inner = subjects.intersection(&out);
            rest = rest.difference(&inner);
            let who = self.spread(&inner, &out);
            left = left.difference(&who.intersection(&out));
        }
        left
    }
}

// Who can come to have which right to what, in rows of W words.
fn worked_out<'g, 'm, const W: usize>(graph: &'g Graph, rows: &'m mut [u64]) -> &'m [u64]
    requires { (8 * (state graph.now).size * W ≤ length rows.old) × (W ≡ row_width (state graph.now).size) }
    ensures cells { (i x : ℕ) → cell result.now W i x ≡ shares_row (state graph.now) i x }
    ensures size { 8 * (state graph.now).size * W ≤ length result.now }
{
    let mut table: Table<'g, 'm, W> = Table { graph, rows };
    let few = table.few();
    table.turn_links(few);
    let left = table.spread_all();
    table.turn_inert(few, &left);
    let rows = table.rows;
    rows
}

// The same, in rows as wide as the graph's vertices need: two words or four, a choice that is made here and in two places of `spans`. A trait for what is
// then done in rows of W words would be no plainer than three ifs.
pub fn filled<'m>(graph: &Graph, rows: &'m mut [u64]) -> &'m [u64]
    requires { table_words (state graph.now).size ≤ length rows.old }
    ensures cells { (i x : ℕ) → cell result.now (row_width (state graph.now).size) i x ≡ shares_row (state graph.now) i x }
    ensures size { table_words (state graph.now).size ≤ length result.now }
{
    if graph.size() <= NARROW {
        worked_out::<2>(graph, rows)
    } else {
        worked_out::<WIDE>(graph, rows)
    }
}
