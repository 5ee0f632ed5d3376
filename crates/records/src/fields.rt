// The fields of a record, one after the other, out of a caller's bytes. Numbers have their highest byte first.
ghost use Rattle.std.specs.Prelude.{◌≡◌, ◌↔◌, ◌<◌, ◌≤◌, ◌+◌, ◌-◌, IsSome, IfSome, length, take, drop, slice_index};
ghost use Rattle.records.specs.Decode.{be2, be4, be8};
ghost use Rattle.records.specs.Held.{Decodes, Reads, ReadsEntries};
ghost use Rattle.records.specs.declared.content.Mark.TheVariants.{Ch, Wf};

use crate::content::{BRANCH_SIZE, Mark, PORTION_SIZE, Record};

#[derive(Clone, Copy)]
pub(crate) struct Fields<'a> {
    pub(crate) bytes: &'a [u8],
    // Where the next field begins.
    pub(crate) at: usize,
}

impl<'a> Fields<'a> {
    // Those of the record at `at`: they stand behind its mark.
    pub(crate) fn behind_mark(bytes: &'a [u8], at: usize) -> Option<Fields<'a>>
        ensures there { IsSome result ↔ (at + 2 ≤ length bytes.now) }
        ensures fields { IfSome result (λ fields. (fields.bytes.now ≡ bytes.now) × (fields.at ≡ at + 2)) }
    {
        let mut fields = Fields { bytes, at };
        let _mark = fields.take::<2>()?;
        Some(fields)
    }

    pub(crate) fn take<const N: usize>(&mut self) -> Option<&'a [u8; N]>
        ensures { Reads N (λ field. field.now ≡ take N (drop self.old.at self.old.bytes.now)) self.old result self.new }
    {
        let field = self.bytes.get(self.at..)?.first_chunk()?;
        self.at += N;
        Some(field)
    }

    pub(crate) fn u8(&mut self) -> Option<u8>
        ensures { Reads 1 (λ n. n ≡ slice_index self.old.bytes.now self.old.at) self.old result self.new }
    {
        let [byte] = *self.take::<1>()?;
        Some(byte)
    }

    pub(crate) fn u16(&mut self) -> Option<u16>
        ensures { Reads 2 (λ n. n ≡ be2 self.old.bytes.now self.old.at) self.old result self.new }
    {
        self.take().map(|field| u16::from_be_bytes(*field))
    }

    pub(crate) fn u32(&mut self) -> Option<u32>
        ensures { Reads 4 (λ n. n ≡ be4 self.old.bytes.now self.old.at) self.old result self.new }
    {
        self.take().map(|field| u32::from_be_bytes(*field))
    }

    pub(crate) fn u64(&mut self) -> Option<u64>
        ensures { Reads 8 (λ n. n ≡ be8 self.old.bytes.now self.old.at) self.old result self.new }
    {
        self.take().map(|field| u64::from_be_bytes(*field))
    }

    // The number of entries of that size, and their bytes.
    pub(crate) fn entries(&mut self, size: usize) -> Option<&'a [u8]>
        requires { size < 65536 }
        ensures entries { ReadsEntries size self.old result self.new }
        ensures few { IfSome result (λ entries. be2 self.old.bytes.now self.old.at < 65536) }
    {
        let mut behind = *self;
        let len = size * usize::from(behind.u16()?);
        let entries = behind.bytes[behind.at..].get(..len)?;
        behind.at += len;
        *self = behind;
        Some(entries)
    }
}

// What the fields of a record say, all of them: the first stands behind its mark.
impl<'a> Fields<'a> {
    fn ch(mut self) -> Option<(Record<'a>, usize)>
        requires { 2 ≤ self.at }
        ensures { Decodes self.entry.bytes.now (self.entry.at - 2) Ch result }
    {
        let entries = self.entries(BRANCH_SIZE)?;
        Some((Record::Ch { entries }, self.at))
    }

    fn wf(mut self) -> Option<(Record<'a>, usize)>
        requires { 2 ≤ self.at }
        ensures { Decodes self.entry.bytes.now (self.entry.at - 2) Wf result }
    {
        let item = Record::Wf {
            state: self.u16()?,
            high: self.u8()?,
            choice: self.u16()?,
            matched: self.u16()?,
            entries: self.entries(PORTION_SIZE)?,
        };
        Some((item, self.at))
    }

    // The record of that mark, whatever letters stand there, and where it ends; None where its fields are not all there.
    pub(crate) fn record(mut self, mark: Mark) -> Option<(Record<'a>, usize)>
        requires mark { 2 ≤ self.at }
        requires there { self.at ≤ length self.bytes.now }
        ensures { Decodes self.entry.bytes.now (self.entry.at - 2) mark result }
    {
        let item = match mark {
            Mark::Ch => return self.ch(),
            Mark::Wf => return self.wf(),
            Mark::Md => Record::Md {
                states: self.u16()?,
                denominator: self.u16()?,
            },
            Mark::St => Record::St {
                goal: self.u8()?,
                choices: self.u16()?,
            },
            Mark::Hd => Record::Hd {
                kind: self.u8()?,
                side: self.u8()?,
            },
            Mark::Ce => Record::Ce {
                state: self.u16()?,
                claim: self.u32()?,
            },
            Mark::Fl => Record::Fl {
                state: self.u16()?,
                claim: self.u32()?,
            },
            Mark::Pc => Record::Pc {
                state: self.u16()?,
                class: self.u8()?,
            },
            Mark::Pm => Record::Pm {
                state: self.u16()?,
                choice: self.u16()?,
                matched: self.u16()?,
            },
            Mark::Rw => Record::Rw {
                state: self.u16()?,
                row: self.u64()?,
            },
            Mark::Zz => Record::Zz,
        };
        Some((item, self.at))
    }
}
