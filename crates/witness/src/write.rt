// Acts as bytes, at the start of the free end of a lent slice.
ghost use Rattle.codec.specs.Acts.{act_bytes};
ghost use Rattle.witness.specs.Plans.{Wrote};
ghost use Rattle.std.specs.Prelude.{◌≡◌};

use crate::halt::Halt;
use codec::Kind;
use model::Rule;

// Answers with how many bytes were written.
pub fn write(bytes: &[u8], free: &mut [u8]) -> Result<usize, Halt>
    ensures { Wrote result bytes.now free.old free.new }
{
    let count = bytes.len();
    if free.len() < count {
        return Err(Halt::NoSpace);
    }
    free[..count].copy_from_slice(bytes);
    Ok(count)
}

pub fn write_act(rule: Rule, free: &mut [u8]) -> Result<usize, Halt>
    ensures { Wrote result (act_bytes rule) free.old free.new }
{
    match rule {
        Rule::Take(t) => write(&[u8::from(Kind::Take), t.who, t.from, t.right, t.to], free),
        Rule::Grant(g) => write(&[u8::from(Kind::Grant), g.who, g.into, g.right, g.to], free),
        Rule::Create(c) => write(
            &[u8::from(Kind::Create), c.who, u8::from(c.subject), c.rights],
            free,
        ),
        Rule::Remove(d) => write(&[u8::from(Kind::Remove), d.who, d.right, d.to], free),
    }
}
