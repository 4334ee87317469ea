// Tables of who is beside whom, and of bridges.
ghost use Rattle.std.specs.Prelude.{◌≡◌, ℕ, ◌<◌, ◌≤◌, false, ◌&&◌};
ghost use Rattle.bits.specs.Sets.{holds, in_row, VertexSet};
ghost use Rattle.graph.specs.Graphs.{state};
ghost use Rattle.model.specs.Bounded.{some_below};
ghost use Rattle.model.specs.Spans.{bridge};
ghost use Rattle.spans.specs.Of.{linked, spanned};
ghost use Rattle.witness.specs.Beside.{near};

use bits::{VertexSet, united};
use graph::Graph;
use model::{GRANT, NUMBERS, Vertex};
use spans::{Links, TakePaths};
use std::array;

// What the rows of the table have that belong to one of the set.
pub fn gather(table: &[VertexSet; NUMBERS], set: &VertexSet) -> VertexSet
    ensures { (k : ℕ) → holds result k ≡ some_below 256 (λ u. holds set.now u && in_row table.now u k) }
{
    united(set, |u| table[usize::from(u)])
}

// A row for each number that a vertex can have.
fn each<F: Fn(Vertex) -> VertexSet>(row: F) -> [VertexSet; NUMBERS]
    requires { F.IsAlwaysCallable row }
    ensures rows { (p : ℕ) → p < 256 → (set : VertexSet) × F.post row p set × ((q : ℕ) → in_row result p q ≡ holds set q) }
    ensures past { (p q : ℕ) → 256 ≤ p → in_row result p q ≡ false }
{
    array::from_fn(|p| row(p as Vertex))
}

// Who has grant to each vertex, or is granted to by it.
pub fn beside(graph: &Graph, links: &Links) -> [VertexSet; NUMBERS]
    requires { linked links.now ≡ state graph.now }
    ensures { (u v : ℕ) → in_row result u v ≡ near (state graph.now) u v }
{
    each(|u| graph.targets(u, GRANT).union(&links.granters(u)))
}

// To whom a bridge leads from p.
fn bridges_from(
    graph: &Graph,
    paths: &TakePaths,
    beside: &[VertexSet; NUMBERS],
    p: Vertex,
) -> VertexSet
    requires sides { (u v : ℕ) → in_row beside.now u v ≡ near (state graph.now) u v }
    requires same { spanned paths.now ≡ state graph.now }
    ensures { (q : ℕ) → holds result q ≡ bridge (state graph.now) p q }
{
    if !graph.is_subject(p) {
        return VertexSet::empty();
    }
    let ahead = paths.from(p);
    let met = gather(paths.to_each(), &gather(beside, &ahead));
    let joined = ahead.union(&paths.to(p)).union(&met);
    graph.subjects().intersection(&joined)
}

// To whom a bridge leads, from each vertex.
pub fn bridges(
    graph: &Graph,
    paths: &TakePaths,
    beside: &[VertexSet; NUMBERS],
) -> [VertexSet; NUMBERS]
    requires sides { (u v : ℕ) → in_row beside.now u v ≡ near (state graph.now) u v }
    requires same { spanned paths.now ≡ state graph.now }
    ensures { (p q : ℕ) → in_row result p q ≡ bridge (state graph.now) p q }
{
    each(|p| bridges_from(graph, paths, beside, p))
}
