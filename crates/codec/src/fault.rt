// What can be wrong with an input, each with its place.
ghost use Rattle.codec.specs.Faults.{fault_number, fault_place, fault_text};
ghost use Rattle.std.specs.Prelude.{◌≡◌, Some};

use std::fmt;

#[derive(Clone, Copy, PartialEq, Eq, Debug)]
pub enum Fault {
    // No record that may stand here begins with this byte.
    UnknownKind { at: usize },
    // Neither 0 nor 1 where it is said whether a new vertex acts.
    BadFlag { at: usize },
    // The input ends within a record.
    Missing { length: usize },
    // A number of vertices that a book can't have, or a vertex or a right that isn't there.
    OutOfRange { at: usize },
    // The rights of a vertex don't rise.
    NotRising { at: usize },
    // This act, counted from 0, may not be done.
    NotApplicable { act: usize },
    // This act would make a 256th vertex.
    Full { act: usize },
}

impl Fault {
    // The number by which the formats name the fault.
    pub fn number(&self) -> u8
        ensures { result ≡ fault_number self.now }
    {
        match *self {
            Fault::UnknownKind { .. } | Fault::BadFlag { .. } | Fault::Missing { .. } => 1,
            Fault::OutOfRange { .. } => 2,
            Fault::NotRising { .. } => 3,
            Fault::NotApplicable { .. } => 4,
            Fault::Full { .. } => 5,
        }
    }

    // Where it is: an offset into the input, or the number of an act.
    pub fn place(&self) -> usize
        ensures { result ≡ fault_place self.now }
    {
        match *self {
            Fault::UnknownKind { at }
            | Fault::BadFlag { at }
            | Fault::OutOfRange { at }
            | Fault::NotRising { at } => at,
            Fault::Missing { length } => length,
            Fault::NotApplicable { act } | Fault::Full { act } => act,
        }
    }
}

// By hand and not by a library's derive, so that who trusts the checker need read no more than this.
impl fmt::Display for Fault {
    ghost output = { λ fault. Some (fault_text fault) };

    fn fmt<W: fmt::Write>(&self, f: &mut fmt::Formatter<W>) -> fmt::Result {
        let place = self.place();
        match *self {
            Fault::UnknownKind { .. } => write!(
                f,
                "byte {place}: no record that may stand here begins so"
            ),
            Fault::BadFlag { .. } => write!(
                f,
                "byte {place}: whether a new thing acts is said by 0 or 1"
            ),
            Fault::Missing { .. } => write!(
                f,
                "the input ends after {place} bytes, within a record"
            ),
            Fault::OutOfRange { .. } => write!(f, "byte {place}: a number that is out of range"),
            Fault::NotRising { .. } => write!(f, "byte {place}: the rights of a thing must rise"),
            Fault::NotApplicable { .. } => write!(
                f,
                "act {place}, counted from 0, may not be done"
            ),
            Fault::Full { .. } => write!(
                f,
                "act {place}, counted from 0, would make a 256th thing"
            ),
        }
    }
}
