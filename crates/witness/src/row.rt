// The shortest row of steps from one vertex to another, of equals the first in lexicographic order.
ghost use Rattle.std.specs.Prelude.{◌≡◌, ℕ, ◌+◌, ◌<◌, ◌≤◌, false, [], ◌∷◌, ◌++◌};
ghost use Rattle.bits.specs.Sets.{holds, VertexSet};
ghost use Rattle.model.specs.Closure.{within};
ghost use Rattle.model.specs.Exact.{first_row, shortest_row_of};
ghost use Rattle.witness.specs.Rows.{IsLayer, row_vertices, turned};

use crate::choose::lowest_of;
use crate::layer::Layer;
use crate::steps::Steps;
use bits::VertexSet;
use model::{NUMBERS, Vertex};

// The vertices behind the first one of a row. An array with its length, and no `ArrayVec`: that of the kit can't be copied, and a row can.
#[derive(Clone, Copy)]
pub struct Row {
    vertices: [Vertex; NUMBERS],
    len: u8,
}

impl Row {
    fn new() -> Row
        ensures { result.len ≡ 0 }
    {
        Row {
            vertices: [0; NUMBERS],
            len: 0,
        }
    }

    fn push(&mut self, v: Vertex)
        requires { self.old.len < 255 }
        ensures items { row_vertices self.new ≡ row_vertices self.old ++ v ∷ [] }
        ensures more { self.new.len ≡ self.old.len + 1 }
    {
        self.vertices[usize::from(self.len)] = v;
        self.len += 1;
    }

    pub fn vertices(&self) -> &[Vertex]
        ensures { result.now ≡ row_vertices self.now }
    {
        &self.vertices[..usize::from(self.len)]
    }
}

// A search for the shortest row from x to y, layer by layer round y.
#[derive(Clone, Copy)]
struct Search<'a> {
    steps: Steps<'a>,
    x: Vertex,
    y: Vertex,
}

impl Search<'_> {
    // Goes on from the layer of k steps to that which has x, and comes back: adds the vertices of the row but for those of the last k steps,
    // and answers with the one from which these lead on.
    fn walk<F: Fn(Vertex) -> VertexSet>(
        &self,
        ahead: &F,
        k: u8,
        layer: &Layer,
        row: &mut Row,
    ) -> Vertex
        requires callable { F.IsAlwaysCallable ahead.now }
        requires ahead { (p : ℕ) (set : VertexSet) → p < 256 → F.post ahead.now p set → (z : ℕ) → holds set z ≡ turned self.now.steps.back.now p z }
        requires layer { (k ≤ self.now.steps.size) × IsLayer self.now.steps.size self.now.steps.back.now self.now.y k layer.now }
        requires missed { (j : ℕ) → j < k → within j self.now.steps.size (turned self.now.steps.back.now) self.now.x self.now.y ≡ false }
        requires empty { row.old.len ≡ 0 }
        ensures few { row.new.len + k ≤ self.now.steps.size }
        ensures walked { row_vertices row.new ++ first_row k self.now.steps.size (turned self.now.steps.back.now) result self.now.y ≡ shortest_row_of self.now.steps.size (turned self.now.steps.back.now) self.now.x self.now.y }
    {
        if k == self.steps.size || layer.near.contains(self.x) {
            return self.x;
        }
        let before = self.walk(ahead, k + 1, &layer.next(&self.steps), row);
        let at = lowest_of(&ahead(before).intersection(&layer.near), self.steps.size);
        row.push(at);
        at
    }
}

// The shortest row of steps from x to y; `ahead` tells to whom one leads from a vertex.
pub fn shortest_row<F: Fn(Vertex) -> VertexSet>(
    ahead: F,
    steps: &Steps,
    x: Vertex,
    y: Vertex,
) -> Row
    requires callable { F.IsAlwaysCallable ahead }
    requires ahead { (p : ℕ) (set : VertexSet) → p < 256 → F.post ahead p set → (z : ℕ) → holds set z ≡ turned steps.now.back.now p z }
    ensures { row_vertices result ≡ shortest_row_of steps.now.size (turned steps.now.back.now) x y }
{
    let search = Search {
        steps: *steps,
        x,
        y,
    };
    let mut row = Row::new();
    search.walk(&ahead, 0, &Layer::of(y), &mut row);
    row
}
