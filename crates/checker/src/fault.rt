// What can be wrong with an answer, each with its place.
ghost use Rattle.checker.specs.Faults.{check_number, check_place, check_text, place_numbers, place_text};
ghost use Rattle.checker.specs.declared.fault.CheckFault.TheVariants.{Input};
ghost use Rattle.std.specs.Prelude.{◌≡◌, Some};

use codec::Fault;
use model::{Right, Vertex};
use std::fmt;

#[derive(Clone, Copy, PartialEq, Eq, Debug)]
pub enum CheckFault {
    // The input can't be read, or a rule of the witness may not be applied.
    Input(Fault),
    // The input goes on behind the answer.
    LeftOver {
        at: usize,
    },
    // A set of the certificate names a vertex that isn't there.
    NoVertex {
        at: usize,
    },
    // A certificate for a right that this holder has.
    Held {
        vertex: Vertex,
    },
    // This vertex of O has the right.
    OutHolds {
        vertex: Vertex,
    },
    // The sets that this vertex is in don't fit together.
    UnfitVertex {
        vertex: Vertex,
    },
    // This right leads out of the sets.
    UnfitRight {
        vertex: Vertex,
        right: Right,
        to: Vertex,
    },
    // A witness of so many rules is longer than any has to be.
    TooLong {
        count: u32,
    },
    // The right hasn't come about after so many rules.
    NotReached {
        count: u32,
    },
}

// The place of a fault: an offset, a vertex, an act or a count; or a right of one vertex to another.
#[derive(Clone, Copy, PartialEq, Eq, Debug)]
pub enum Place {
    At(usize),
    Right {
        vertex: Vertex,
        right: Right,
        to: Vertex,
    },
}

impl CheckFault {
    // The number by which the formats name the fault.
    pub fn number(&self) -> u8
        ensures { result ≡ check_number self.now }
    {
        match *self {
            CheckFault::Input(fault) => fault.number(),
            CheckFault::LeftOver { .. } => 1,
            CheckFault::NoVertex { .. } => 6,
            CheckFault::Held { .. } => 7,
            CheckFault::UnfitVertex { .. } | CheckFault::UnfitRight { .. } => 8,
            CheckFault::OutHolds { .. } => 9,
            CheckFault::TooLong { .. } | CheckFault::NotReached { .. } => 10,
        }
    }

    pub fn place(&self) -> Place
        ensures { place_numbers result ≡ check_place self.now }
    {
        match *self {
            CheckFault::Input(fault) => Place::At(fault.place()),
            CheckFault::LeftOver { at } | CheckFault::NoVertex { at } => Place::At(at),
            CheckFault::Held { vertex }
            | CheckFault::OutHolds { vertex }
            | CheckFault::UnfitVertex { vertex } => Place::At(usize::from(vertex)),
            CheckFault::UnfitRight { vertex, right, to } => Place::Right { vertex, right, to },
            CheckFault::TooLong { count } | CheckFault::NotReached { count } => {
                Place::At(count as usize)
            }
        }
    }
}

impl From<Fault> for CheckFault {
    ghost from_gives = { λ f r. r ≡ Input f };

    fn from(f: Fault) -> CheckFault
        ensures { result ≡ CheckFault.Input f }
    {
        CheckFault::Input(f)
    }
}

// The numbers of the place, with a space between.
impl fmt::Display for Place {
    ghost output = { λ place. Some (place_text place) };

    fn fmt<W: fmt::Write>(&self, f: &mut fmt::Formatter<W>) -> fmt::Result {
        match *self {
            Place::At(place) => write!(f, "{place}"),
            Place::Right { vertex, right, to } => write!(f, "{vertex} {right} {to}"),
        }
    }
}

// By hand, as codec's faults are.
impl fmt::Display for CheckFault {
    ghost output = { λ fault. Some (check_text fault) };

    fn fmt<W: fmt::Write>(&self, f: &mut fmt::Formatter<W>) -> fmt::Result {
        match *self {
            CheckFault::Input(fault) => write!(f, "{fault}"),
            CheckFault::LeftOver { at } => write!(
                f,
                "byte {at}: the answer ends before it, and the input doesn't"
            ),
            CheckFault::NoVertex { at } => write!(
                f,
                "byte {at}: the sheet names a thing that isn't in the book"
            ),
            CheckFault::Held { vertex } => write!(
                f,
                "thing {vertex} has the right, so no sheet for it is right"
            ),
            CheckFault::OutHolds { vertex } => write!(
                f,
                "thing {vertex} is in O and has the right"
            ),
            CheckFault::UnfitVertex { vertex } => write!(
                f,
                "thing {vertex}: the sets that it is in don't fit together"
            ),
            CheckFault::UnfitRight { vertex, right, to } => write!(
                f,
                "thing {vertex}: its right {right} to thing {to} leads out of the sets"
            ),
            CheckFault::TooLong { count } => write!(
                f,
                "{count} acts are more than a plan for this book may have"
            ),
            CheckFault::NotReached { count } => write!(
                f,
                "the right hasn't come about after the {count} acts of the plan"
            ),
        }
    }
}
