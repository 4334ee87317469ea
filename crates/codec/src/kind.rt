// The first byte of a record, by which its kind is known.
ghost use Rattle.codec.specs.Kinds.{kind_number, Decodes, IsKindRead};
ghost use Rattle.codec.specs.Reads.{reached};
ghost use Rattle.std.specs.Prelude.{◌≡◌};

use crate::fault::Fault;
use crate::reader::Reader;

#[derive(Clone, Copy, PartialEq, Eq, Debug)]
pub enum Kind {
    Book = 1,
    Take = 2,
    Grant = 3,
    Create = 4,
    Remove = 5,
    Question = 6,
    WideBook = 7,
    // The answers: a yes with a plan, and a no with a sheet.
    Yes = 16,
    No = 17,
}

// A byte with which no record begins.
#[derive(Clone, Copy, PartialEq, Eq, Debug)]
pub struct UnknownKind(pub u8);

impl TryFrom<u8> for Kind {
    type Error = UnknownKind;

    ghost try_from_gives = { Decodes };

    fn try_from(byte: u8) -> Result<Kind, UnknownKind> {
        match byte {
            1 => Ok(Kind::Book),
            2 => Ok(Kind::Take),
            3 => Ok(Kind::Grant),
            4 => Ok(Kind::Create),
            5 => Ok(Kind::Remove),
            6 => Ok(Kind::Question),
            7 => Ok(Kind::WideBook),
            16 => Ok(Kind::Yes),
            17 => Ok(Kind::No),
            _ => Err(UnknownKind(byte)),
        }
    }
}

impl From<Kind> for u8 {
    ghost from_gives = { λ kind byte. byte ≡ kind_number kind };

    fn from(kind: Kind) -> u8 {
        kind as u8
    }
}

impl Reader<'_> {
    // The kind of the record that begins here.
    pub fn kind(&mut self) -> Result<Kind, Fault>
        ensures input { self.new.bytes.now ≡ self.old.bytes.now }
        ensures value { IsKindRead self.old.bytes.now self.old.at (reached result self.new.at) }
    {
        let at = self.at();
        Kind::try_from(self.byte()?).map_err(|_| Fault::UnknownKind { at })
    }
}
