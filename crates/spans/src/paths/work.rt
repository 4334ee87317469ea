// Take paths worked out.
ghost use Rattle.std.specs.Prelude.{◌≡◌, ℕ, ◌*◌, ◌<◌, ◌≤◌};
ghost use Rattle.bits.specs.Rows.{cell};
ghost use Rattle.bits.specs.Sets.{holds, in_row};
ghost use Rattle.graph.specs.Graphs.{state};
ghost use Rattle.spans.specs.Of.{spanned};
ghost use Rattle.spans.specs.Paths.{path_from};

use super::TakePaths;
use crate::closure::lead;
use crate::turned::turned;
use bits::{BitSet, VertexSet, WIDE};
use graph::Graph;
use model::{NARROW, NUMBERS};
use std::array;

// Where take paths lead to from each vertex, worked out in rows of W words, which have room for each.
fn rows_of<const W: usize>(graph: &Graph) -> [VertexSet; NUMBERS]
    requires { ((state graph.now).size ≤ 64 * W) × (W ≤ 4) }
    ensures { (x y : ℕ) → in_row result x y ≡ path_from (state graph.now) x y }
{
    let mut rows = [0; WIDE * NUMBERS];
    lead::<W>(graph, &mut rows);
    array::from_fn(
        |x: usize| -> VertexSet
            requires { (x < 256) × (W ≤ 4) }
            ensures { (k : ℕ) → holds result k ≡ cell rows W x k }
        { BitSet::<W>::at(&rows, x).resized() },
    )
}

impl<'a> TakePaths<'a> {
    pub fn of(graph: &'a Graph) -> TakePaths<'a>
        ensures value { spanned result ≡ state graph.now }
    {
        let n = graph.size();
        // Two words or four: `graph::width` says why the choice stands here.
        let rows = if n <= NARROW {
            rows_of::<2>(graph)
        } else {
            rows_of::<WIDE>(graph)
        };
        let back = turned(n, |x| rows[usize::from(x)]);
        TakePaths { graph, rows, back }
    }
}
