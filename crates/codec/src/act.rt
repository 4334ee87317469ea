// The bytes of acts.
ghost use Rattle.codec.specs.Acts.{act_at, act_bytes, taken, granted, create_at, remove_at, transfer_at};
ghost use Rattle.codec.specs.Reads.{Reads};
ghost use Rattle.codec.specs.Played.{InRange};
ghost use Rattle.std.specs.Prelude.{◌≡◌, ◌<◌, ◌≤◌, length, IfOk};
ghost use Rattle.std.specs.List.{between};

use crate::fault::Fault;
use crate::kind::Kind;
use crate::reader::Reader;
use model::{Create, Grant, RIGHTS, Remove, Right, Rule, Take, Vertex};

// The numbers of a take or a grant: `other` is whom `who` takes from or grants to.
#[derive(Clone, Copy)]
struct Transfer {
    who: Vertex,
    other: Vertex,
    right: Right,
    to: Vertex,
}

// One function for both would take a constructor for each rule, and be no plainer.
impl Transfer {
    fn take(self) -> Rule
        ensures { result ≡ taken self }
    {
        Rule::Take(Take {
            who: self.who,
            from: self.other,
            right: self.right,
            to: self.to,
        })
    }

    fn grant(self) -> Rule
        ensures { result ≡ granted self }
    {
        Rule::Grant(Grant {
            who: self.who,
            into: self.other,
            right: self.right,
            to: self.to,
        })
    }
}

impl Reader<'_> {
    // An act of a book of so many vertices.
    pub fn act(&mut self, size: u8) -> Result<Rule, Fault>
        ensures value { Reads result self.old self.new (λ bs at. act_at bs size at) }
        ensures bound { IfOk result (λ _. self.old.at < self.new.at) }
        ensures says { IfOk result (λ rule. between self.old.at self.new.at self.old.bytes.now ≡ act_bytes rule) }
        ensures range { IfOk result (λ rule. InRange size rule) }
    {
        let at = self.at();
        match self.kind()? {
            Kind::Take => Ok(self.transfer(size)?.take()),
            Kind::Grant => Ok(self.transfer(size)?.grant()),
            Kind::Create => self.create(size),
            Kind::Remove => self.remove(size),
            _ => Err(Fault::UnknownKind { at }),
        }
    }

    fn transfer(&mut self, size: u8) -> Result<Transfer, Fault>
        ensures { Reads result self.old self.new (λ bs at. transfer_at bs size at) }
    {
        let who = self.below(size)?;
        let other = self.below(size)?;
        let right = self.below(RIGHTS)?;
        let to = self.below(size)?;
        Ok(Transfer {
            who,
            other,
            right,
            to,
        })
    }

    fn create(&mut self, size: u8) -> Result<Rule, Fault>
        ensures { Reads result self.old self.new (λ bs at. create_at bs size at) }
    {
        let who = self.below(size)?;
        let subject = self.flag()?;
        let rights = self.byte()?;
        Ok(Rule::Create(Create {
            who,
            subject,
            rights,
        }))
    }

    fn remove(&mut self, size: u8) -> Result<Rule, Fault>
        ensures { Reads result self.old self.new (λ bs at. remove_at bs size at) }
    {
        let who = self.below(size)?;
        let right = self.below(RIGHTS)?;
        let to = self.below(size)?;
        Ok(Rule::Remove(Remove { who, right, to }))
    }
}
