// A writer takes a hand-in record by record into a caller's buffer. A record that it refuses leaves all as it was.
ghost use Rattle.std.specs.Prelude.{◌≡◌, [], IfOk, IfErr, OnOk, OnErr};
ghost use Rattle.writer.specs.Draft.{draft, draft_of, Written};
ghost use Rattle.writer.specs.Answer.{Takes, Refuses, Complete};

use crate::fault::WriteFault;
use encoding::encode;
use grammar::Place;
use records::Record;

// How far a hand-in is written.
#[derive(Clone, Copy)]
struct Reached {
    // How many bytes are written.
    len: usize,
    // What may follow them.
    place: Place,
}

#[derive(Drop)]
pub struct Writer<'a> {
    // The caller's, with how much of it is written beside it: nothing is allocated.
    buffer: &'a mut [u8],
    reached: Reached,
}

// Writes a record behind what is written, and answers how far that is then.
fn put_behind(buffer: &mut [u8], written: Reached, item: Record<'_>) -> Result<Reached, WriteFault>
    ensures ok { IfOk result (λ reached. Takes (draft buffer.old written) item.entry (draft buffer.new reached)) }
    ensures err { IfErr result (Refuses (draft buffer.old written) item.entry) }
    ensures kept { OnErr result (buffer.new ≡ buffer.old) }
{
    let place = written
        .place
        .step(item)
        .map_err(|misfit| WriteFault::of(misfit, written.len))?;
    let len = encode(buffer, written.len, item).ok_or(WriteFault::NoRoom)?;
    Ok(Reached { len, place })
}

impl<'a> Writer<'a> {
    // A writer that has written nothing yet.
    pub fn new(buffer: &'a mut [u8]) -> Writer<'a>
        ensures named { result.buffer.ghost_name ≡ buffer.entry.ghost_name }
        ensures value { Written buffer.old (draft_of result) [] }
    {
        Writer {
            buffer,
            reached: Reached {
                len: 0,
                place: Place::HandInDue,
            },
        }
    }

    // Writes one record more. That no hand-in has it there is found before that the buffer is too small.
    pub fn put(&mut self, item: Record<'_>) -> Result<(), WriteFault>
        ensures named { self.new.buffer.ghost_name ≡ self.old.buffer.ghost_name }
        ensures ok { OnOk result (Takes (draft_of self.old) item.entry (draft_of self.new)) }
        ensures err { IfErr result (Refuses (draft_of self.old) item.entry) }
        ensures kept { OnErr result (draft_of self.new ≡ draft_of self.old) }
    {
        self.reached = put_behind(self.buffer, self.reached, item)?;
        Ok(())
    }

    // How many bytes are written.
    pub fn len(&self) -> usize
        ensures { result ≡ (draft_of self.now).len }
    {
        self.reached.len
    }

    // Whether ZZ is written.
    #[tactic(auto, using(crate::proofs::Drafts::complete_where_over))]
    pub fn is_complete(&self) -> bool
        ensures { Complete (draft_of self.now) result }
    {
        self.reached.place.is_over()
    }
}
