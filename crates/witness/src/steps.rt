// Steps from vertex to vertex, such as those of take paths.
ghost use Rattle.std.specs.Prelude.{◌≡◌, ◌<◌};
ghost use Rattle.witness.specs.Rows.{Fits};

use bits::VertexSet;
use model::NUMBERS;

#[derive(Clone, Copy)]
pub struct Steps<'a> {
    // From whom one leads to each vertex.
    pub back: &'a [VertexSet; NUMBERS],
    // How many vertices there are.
    pub size: u8,
    ghost few: { size < 256 },
    ghost fits: { Fits size back.now },
}

impl<'a> Steps<'a> {
    pub fn of(back: &'a [VertexSet; NUMBERS], size: u8) -> Steps<'a>
        requires { Fits size back.now }
        ensures back { result.back.now ≡ back.now }
        ensures size { result.size ≡ size }
    {
        Steps { back, size }
    }
}
