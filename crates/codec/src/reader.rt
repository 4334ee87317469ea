// Reading on through an input.
ghost use Rattle.std.specs.Prelude.{◌≡◌, ◌<◌, ◌≤◌, ◌&&◌, length, drop, MatchResult, ◌==◌, nat_le, nat_lt, slice_index};
ghost use Rattle.codec.specs.declared.fault.Fault.TheVariants.{Missing};
ghost use Rattle.codec.specs.Kinds.{kind_number};

use crate::fault::Fault;
use crate::kind::Kind;

// An input, and how far it is read. Each method that reads goes on behind what was read before it; after a fault there is no reading on.
// How many vertices there are is told to each that asks for one, and is no field, since it changes from act to act; nor is the number of an act, which
// only inputs with acts have.
#[derive(Clone, Copy)]
pub struct Reader<'a> {
    bytes: &'a [u8],
    at: usize,
    ghost within: { at ≤ length bytes.now },
}

impl<'a> Reader<'a> {
    ghost use Rattle.codec.specs.Reads.{Reads};
    ghost use Rattle.codec.specs.Reading.{byte_at, below_at, flag_at, count_at};

    pub fn new(bytes: &'a [u8]) -> Reader<'a>
        ensures input { result.bytes.now ≡ bytes.now }
        ensures start { result.at ≡ 0 }
    {
        Reader { bytes, at: 0 }
    }

    // Reading on from an offset, which may be past the end: then there is nothing to read.
    pub fn starting(bytes: &'a [u8], at: usize) -> Result<Reader<'a>, Fault>
        ensures { MatchResult result
            (λ r. (r.bytes.now ≡ bytes.now) × (r.at ≡ at))
            (λ fault. (length bytes.now < at) × (fault ≡ Missing (length bytes.now))) }
    {
        let length = bytes.len();
        if at > length {
            return Err(Fault::Missing { length });
        }
        Ok(Reader { bytes, at })
    }

    pub fn at(&self) -> usize
        ensures { result ≡ self.now.at }
    {
        self.at
    }

    // Is there no more to read?
    pub fn is_done(&self) -> bool
        ensures { result ≡ nat_le (length self.now.bytes.now) self.now.at }
    {
        self.at >= self.bytes.len()
    }

    // Does the byte of this kind come next?
    pub fn next_is(&self, kind: Kind) -> bool
        ensures { result ≡ (nat_lt self.now.at (length self.now.bytes.now) && slice_index self.now.bytes.now self.now.at == kind_number kind) }
    {
        self.bytes.get(self.at) == Some(&u8::from(kind))
    }

    // What isn't read yet.
    pub(crate) fn rest(&self) -> &'a [u8]
        ensures { result.now ≡ drop self.now.at self.now.bytes.now }
    {
        &self.bytes[self.at..]
    }

    pub fn byte(&mut self) -> Result<u8, Fault>
        ensures { Reads result self.old self.new byte_at }
    {
        let length = self.bytes.len();
        let b = *self.bytes.get(self.at).ok_or(Fault::Missing { length })?;
        self.at += 1;
        Ok(b)
    }

    // The number of a vertex or of a right, of which there are so many.
    pub fn below(&mut self, bound: u8) -> Result<u8, Fault>
        ensures { Reads result self.old self.new (λ bs at. below_at bs at bound) }
    {
        let at = self.at;
        let b = self.byte()?;
        if b < bound {
            Ok(b)
        } else {
            Err(Fault::OutOfRange { at })
        }
    }

    pub(crate) fn flag(&mut self) -> Result<bool, Fault>
        ensures { Reads result self.old self.new flag_at }
    {
        let at = self.at;
        match self.byte()? {
            0 => Ok(false),
            1 => Ok(true),
            _ => Err(Fault::BadFlag { at }),
        }
    }

    pub fn count(&mut self) -> Result<u16, Fault>
        ensures { Reads result self.old self.new count_at }
    {
        let high = self.byte()?;
        let low = self.byte()?;
        Ok(u16::from_be_bytes([high, low]))
    }
}
