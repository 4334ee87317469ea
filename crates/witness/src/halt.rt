// Why a plan is not written to its end.
ghost use Rattle.std.specs.Prelude.{◌≡◌};
ghost use Rattle.witness.specs.declared.halt.Halt.TheVariants.{Refused};

use graph::Refusal;

#[derive(Clone, Copy, PartialEq, Eq, Debug)]
pub enum Halt {
    // The lent memory is too short.
    NoSpace,
    // The graph refuses an act.
    Refused,
}

impl From<Refusal> for Halt {
    ghost from_gives = { λ _ r. r ≡ Refused };

    fn from(_refusal: Refusal) -> Halt
        ensures { result ≡ Halt.Refused }
    {
        Halt::Refused
    }
}
