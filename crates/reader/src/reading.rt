// A reader goes through a unit, a hand-in or a model file, record by record, and stops behind its ZZ or at the first fault.
ghost use Rattle.std.specs.Prelude.{◌≡◌};
ghost use Rattle.grammar.specs.HandIn.{HandIn};
ghost use Rattle.grammar.specs.ModelFile.{ModelFile};
ghost use Rattle.reader.specs.Exact.{Exactly};
ghost use Rattle.reader.specs.Format.{IsFile};
ghost use Rattle.reader.specs.Reading.{record_at};
ghost use Rattle.reader.specs.Answer.{rest_of, Next, NextRecord, ReadOn, Sole, Alone, outcome, Behind};

use crate::fault::ReadFault;
use crate::format::Format;
use grammar::Place;
use records::{Record, decode, mark_at};

#[derive(Clone, Copy)]
pub struct Reader<'a> {
    bytes: &'a [u8],
    at: usize,
    place: Place,
}

impl<'a> Reader<'a> {
    // A reader of the unit that begins at an offset of the bytes.
    fn of(format: Format, bytes: &'a [u8], at: usize) -> Reader<'a>
        ensures exact { Exactly (IsFile format) bytes.now at (rest_of result) }
        ensures bytes { result.bytes.now ≡ bytes.now }
    {
        Reader {
            bytes,
            at,
            place: format.start(),
        }
    }

    // A reader of the hand-in that begins at an offset of the bytes.
    pub fn hand_in(bytes: &'a [u8], at: usize) -> Reader<'a>
        ensures exact { Exactly HandIn bytes.now at (rest_of result) }
        ensures bytes { result.bytes.now ≡ bytes.now }
    {
        Reader::of(Format::HandIn, bytes, at)
    }

    // A reader of the model file that begins at an offset of the bytes.
    pub fn model_file(bytes: &'a [u8], at: usize) -> Reader<'a>
        ensures exact { Exactly ModelFile bytes.now at (rest_of result) }
        ensures bytes { result.bytes.now ≡ bytes.now }
    {
        Reader::of(Format::ModelFile, bytes, at)
    }

    // The offset of the next record; behind ZZ, that of the next unit.
    pub fn offset(&self) -> usize
        ensures { result ≡ self.now.at }
    {
        self.at
    }

    // The record that stands here, and the reader behind it.
    fn record(self) -> Result<(Record<'a>, Reader<'a>), ReadFault>
        ensures value { outcome result ≡ record_at self.entry.place self.entry.bytes.now self.entry.at }
        ensures behind { Behind self.entry result }
    {
        let Reader { bytes, at, place } = self;
        let mark = mark_at(bytes, at).map_err(|none| ReadFault::of_mark(none, at))?;
        if !place.allows(mark) {
            return Err(ReadFault::BadMark(at));
        }
        let (item, next) = decode(bytes, at, mark).ok_or(ReadFault::Ends(at))?;
        let behind = place.behind(item).ok_or(ReadFault::BadField(at))?;
        Ok((
            item,
            Reader {
                bytes,
                at: next,
                place: behind,
            },
        ))
    }

    // The next record with its offset; None behind ZZ. No Iterator: a fault is met again at each call, so its items would not end.
    #[tactic(auto, using(crate::proofs::Steps::next_got))]
    pub fn next(&mut self) -> Result<Option<(usize, Record<'a>)>, ReadFault>
        ensures { Next self.old self.new result }
    {
        if self.place.is_over() {
            return Ok(None);
        }
        let (item, behind) = self.record()?;
        let offset = self.at;
        *self = behind;
        Ok(Some((offset, item)))
    }

    // The next record of a unit that is known to read; None behind ZZ, and at a fault.
    pub fn next_record(&mut self) -> Option<Record<'a>>
        ensures { NextRecord self.old self.new result }
    {
        self.next().ok().flatten().map(|(_, item)| item)
    }

    // Reads on to the end of the unit, and answers the offset behind it.
    pub fn finish(mut self) -> Result<usize, ReadFault>
        ensures { ReadOn self.entry result }
    {
        while self.next()?.is_some() {}
        Ok(self.at)
    }

    // Reads on to the end of the unit, which is to be the end of the bytes.
    pub fn finish_all(self) -> Result<(), ReadFault>
        ensures { Alone self.entry result }
    {
        let behind = self.finish()?;
        if behind < self.bytes.len() {
            return Err(ReadFault::Surplus(behind));
        }
        Ok(())
    }
}

// Whether the bytes are a file of that format, and nothing more.
fn read_whole(format: Format, bytes: &[u8]) -> Result<(), ReadFault>
    ensures { Sole (IsFile format) bytes.now result }
{
    Reader::of(format, bytes, 0).finish_all()
}

// Whether the bytes are a hand-in, and nothing more.
pub fn read_hand_in(bytes: &[u8]) -> Result<(), ReadFault>
    ensures { Sole HandIn bytes.now result }
{
    read_whole(Format::HandIn, bytes)
}

// Whether the bytes are a model file, and nothing more.
pub fn read_model_file(bytes: &[u8]) -> Result<(), ReadFault>
    ensures { Sole ModelFile bytes.now result }
{
    read_whole(Format::ModelFile, bytes)
}
