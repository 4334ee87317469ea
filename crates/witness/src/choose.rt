// Choices among vertices: the lowest goes first.
ghost use Rattle.bits.specs.Sets.{holds};
ghost use Rattle.model.specs.Exact.{lowest};
ghost use Rattle.std.specs.Prelude.{◌≡◌};

use bits::VertexSet;
use model::Vertex;

// The lowest vertex of the set; `size`, which is no vertex, if the set has none below it.
// A number and no `Option`: so the exact witness is defined, which the choices made with this have to meet.
pub fn lowest_of(set: &VertexSet, size: u8) -> Vertex
    ensures { result ≡ lowest size (holds set.now) }
{
    match set.lowest() {
        Some(v) if v < size => v,
        _ => size,
    }
}
