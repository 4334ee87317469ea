// A fault as it is told.
ghost use Rattle.console.specs.Told.{line_text};
ghost use Rattle.anyhow.specs.Error.{IsMadeOf};
ghost use Rattle.std.specs.Prelude.{IsErr};

use anyhow::anyhow;
use std::fmt;

// The line of a fault: its number and its place.
#[derive(Drop)]
struct Line<P> {
    number: u8,
    place: P,
}

impl<P: fmt::Display> fmt::Display for Line<P> {
    ghost output = { λ line. line_text line.number (P.output line.place) };

    fn fmt<W: fmt::Write>(&self, f: &mut fmt::Formatter<W>) -> fmt::Result {
        let number = self.number;
        let place = &self.place;
        write!(f, "{number} {place}")
    }
}

// The fault in words, as the error that ends the program.
fn error_of<F: fmt::Display + Drop>(fault: F) -> anyhow::Error
    ensures { IsMadeOf (F.output fault) result }
{
    anyhow!("{fault}")
}

// Tells a fault: a line with its number and its place, and then in words, as the error that ends the program.
pub fn tell<P: fmt::Display + Drop, F: fmt::Display + Drop>(
    rt: &HostRuntime,
    number: u8,
    place: P,
    fault: F,
) -> anyhow::Result<()>
    ensures { IsErr result }
{
    println!(rt; "{}", Line { number, place })?;
    Err(error_of(fault))
}
