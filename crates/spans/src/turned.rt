// Rows of sets, turned round; and who has a right to each vertex.
ghost use Rattle.std.specs.Prelude.{◌≡◌, ℕ, ◌<◌, ◌&&◌, ◌||◌, T, ◌==◌};
ghost use Rattle.bits.specs.Sets.{holds, in_row, VertexSet};
ghost use Rattle.graph.specs.Graphs.{state};

use bits::VertexSet;
use graph::Graph;
use model::{NUMBERS, Right, Vertex};

// Adds x to the set of each of `targets`.
fn enter(sets: &mut [VertexSet; NUMBERS], targets: VertexSet, x: Vertex)
    ensures { (y k : ℕ) → in_row sets.new y k ≡ ((k == x && holds targets y) || in_row sets.old y k) }
{
    for y in targets {
        sets[usize::from(y)].insert(x);
    }
}

// Which of the first n rows have a vertex, for each vertex.
pub fn turned<F: Fn(Vertex) -> VertexSet>(n: u8, row: F) -> [VertexSet; NUMBERS]
    requires { F.IsAlwaysCallable row }
    ensures below { (y x : ℕ) → T (in_row result y x) → x < n }
    ensures rows { (x : ℕ) → x < n → (set : VertexSet) × F.post row x set × ((y : ℕ) → in_row result y x ≡ holds set y) }
{
    let mut sets = [VertexSet::empty(); NUMBERS];
    for x in 0..n {
        enter(&mut sets, row(x), x);
    }
    sets
}

pub fn holders(graph: &Graph, r: Right) -> [VertexSet; NUMBERS]
    ensures { (y k : ℕ) → in_row result y k ≡ (state graph.now).has k r y }
{
    turned(graph.size(), |x| graph.targets(x, r))
}
