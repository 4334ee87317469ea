// Why no witness is written.
ghost use Rattle.std.specs.Prelude.{◌≡◌};
ghost use Rattle.witness.specs.declared.unwritten.Unwritten.TheVariants.{Never};

use spans::Barrier;

#[derive(Clone, Copy)]
pub enum Unwritten {
    // There is none: the right never comes about, and these three sets show it.
    Never(Barrier),
    // The lent memory is shorter than the longest answer, or there are more vertices than codec's NARROW, 128.
    NoRoom,
}

impl From<Barrier> for Unwritten {
    ghost from_gives = { λ barrier r. r ≡ Never barrier };

    fn from(barrier: Barrier) -> Unwritten
        ensures { result ≡ Unwritten.Never barrier }
    {
        Unwritten::Never(barrier)
    }
}
