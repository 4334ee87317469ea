// The layers round a vertex: from where at most so many steps lead there.
ghost use Rattle.std.specs.Prelude.{◌≡◌, ℕ, ◌+◌, List};
ghost use Rattle.bits.specs.Sets.{holds, VertexSet};
ghost use Rattle.model.specs.Closure.{within};
ghost use Rattle.witness.specs.Rows.{IsLayer, turned};

use crate::steps::Steps;
use crate::tables::gather;
use bits::VertexSet;
use model::Vertex;

#[derive(Clone, Copy)]
pub struct Layer {
    // From where they lead there.
    pub near: VertexSet,
    // From where no fewer do. Of all in `near`, only to these can a step lead from a vertex outside it.
    fresh: VertexSet,
}

impl Layer {
    // No step: the vertex alone.
    pub fn of(y: Vertex) -> Layer
        ensures { (n : ℕ) (back : List VertexSet) → IsLayer n back y 0 result }
    {
        let near = VertexSet::only(usize::from(y));
        Layer { near, fresh: near }
    }

    // A step more.
    pub fn next(&self, steps: &Steps) -> Layer
        ensures { (y k : ℕ) → IsLayer steps.now.size steps.now.back.now y k self.now → IsLayer steps.now.size steps.now.back.now y (k + 1) result }
    {
        let near = self.near.union(&gather(steps.back, &self.fresh));
        let fresh = near.difference(&self.near);
        Layer { near, fresh }
    }
}

// From where any number of steps lead to y. So many steps are enough, as many as there are vertices; mostly fewer.
pub fn all_leading(steps: &Steps, y: Vertex) -> VertexSet
    ensures { (z : ℕ) → holds result z ≡ within steps.now.size steps.now.size (turned steps.now.back.now) z y }
{
    let mut layer = Layer::of(y);
    for _done in 0..steps.size {
        if layer.fresh.is_empty() {
            break;
        }
        layer = layer.next(steps);
    }
    layer.near
}
