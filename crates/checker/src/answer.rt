// The bytes of answers.
ghost use Rattle.std.specs.Prelude.{◌≡◌, ◌+◌, ◌*◌};
ghost use Rattle.checker.specs.Reading.{set_at, set_read, certificate_at, certificate_read, length_at, end_at};
ghost use Rattle.codec.specs.Reads.{Reads};

use crate::certificate::Certificate;
use crate::fault::CheckFault;
use bits::VertexSet;
use codec::{Fault, Reader};

// Three sets of vertices below `size`.
pub fn read_certificate(sheet: &mut Reader, size: u8) -> Result<Certificate, CheckFault>
    ensures { Reads (certificate_read result) sheet.old sheet.new (λ bs at. certificate_at bs size at) }
{
    let inner = read_set(sheet, size)?;
    let into = read_set(sheet, size)?;
    let out = read_set(sheet, size)?;
    Ok(Certificate { inner, into, out })
}

fn read_set(sheet: &mut Reader, size: u8) -> Result<VertexSet, CheckFault>
    ensures { Reads (set_read result) sheet.old sheet.new (λ bs at. set_at bs size at) }
{
    sheet.subjects(size, 32).map_err(|fault| match fault {
        Fault::OutOfRange { at } => CheckFault::NoVertex { at },
        _ => CheckFault::Input(fault),
    })
}

// How many rules a witness has: two counts of a reader, since four bytes at once are read nowhere else.
pub fn read_length(plan: &mut Reader) -> Result<u32, Fault>
    ensures { Reads result plan.old plan.new length_at }
{
    let [a, b] = plan.count()?.to_be_bytes();
    let [c, d] = plan.count()?.to_be_bytes();
    Ok(u32::from_be_bytes([a, b, c, d]))
}

// Nothing may follow an answer.
pub fn read_end(answer: &Reader) -> Result<(), CheckFault>
    ensures { result ≡ end_at answer.now.bytes.now answer.now.at }
{
    if answer.is_done() {
        Ok(())
    } else {
        Err(CheckFault::LeftOver { at: answer.at() })
    }
}
