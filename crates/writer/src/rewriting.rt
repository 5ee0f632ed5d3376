// A hand-in is read, and written again record by record.
ghost use Rattle.std.specs.Prelude.{◌≡◌, IfOk, IfErr, OnErr};
ghost use Rattle.writer.specs.Rewriting.{rewritten, BeginsHandIn, NotRewritten};
ghost use Rattle.writer.specs.declared.rewriting.RewriteFault.TheVariants.{Reading, Writing};

use crate::fault::WriteFault;
use crate::writing::Writer;
use reader::{ReadFault, Reader};

// Why a hand-in is not written again.
#[derive(Clone, Copy, PartialEq, Eq, Debug)]
pub enum RewriteFault {
    // The bytes do not begin with a hand-in.
    Reading(ReadFault),
    // The buffer is too small for it.
    Writing(WriteFault),
}

impl From<ReadFault> for RewriteFault {
    ghost from_gives = { λ x r. r ≡ Reading x };

    fn from(fault: ReadFault) -> RewriteFault {
        RewriteFault::Reading(fault)
    }
}

impl From<WriteFault> for RewriteFault {
    ghost from_gives = { λ x r. r ≡ Writing x };

    fn from(fault: WriteFault) -> RewriteFault {
        RewriteFault::Writing(fault)
    }
}

// Writes the hand-in that the bytes begin with into the buffer, record by record as it is read, and answers how many bytes it has.
pub fn rewrite(bytes: &[u8], buffer: &mut [u8]) -> Result<usize, RewriteFault>
    ensures ok { IfOk result (BeginsHandIn bytes.now) }
    ensures copied { IfOk result (λ behind. buffer.new ≡ rewritten behind bytes.now buffer.old) }
    ensures err { IfErr result (NotRewritten bytes.now buffer.old) }
    ensures kept { OnErr result (buffer.new ≡ buffer.old) }
{
    let mut reader = Reader::hand_in(bytes, 0);
    let behind = reader.finish()?;
    if behind > buffer.len() {
        return Err(WriteFault::NoRoom.into());
    }
    let mut writer = Writer::new(buffer);
    while let Some(item) = reader.next_record() {
        writer.put(item)?;
    }
    Ok(behind)
}
