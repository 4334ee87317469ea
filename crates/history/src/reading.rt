// How far an input was read.
mod walk;

ghost use Rattle.std.specs.Prelude.{◌<◌, ◌≤◌, ◌^◌, length};
ghost use Rattle.codec.specs.RoundTrips.{AreBytes};

use codec::Reader;

// The book is beside it and not in it: the book's rows are lent, and the checker has no rule yet for a `Result` of a struct that holds a `&mut` and has
// a ghost field, as `Reading::of` would answer.
#[derive(Drop)]
pub struct Reading<'a> {
    input: Reader<'a>,
    // How many acts were read.
    acts: usize,
    ghost counted: { acts ≤ input.at },
    ghost fit: { AreBytes input.bytes.now },
    ghost short: { length input.bytes.now < 2 ^ 63 },
}
