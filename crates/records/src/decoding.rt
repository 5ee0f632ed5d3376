// One record out of a caller's bytes: first its mark, then its fields. Nothing is copied but numbers.
ghost use Rattle.std.specs.Prelude.{◌≡◌, slice_index};
ghost use Rattle.records.specs.Decode.{mark_spelled};
ghost use Rattle.records.specs.Held.{Decodes, Stands, known, mark_at};

use crate::content::{Mark, Record};
use crate::fields::Fields;

// Why there is no mark where one is due.
#[derive(Clone, Copy)]
pub enum NoMark {
    // Fewer than two bytes are left.
    Cut,
    Unknown,
}

impl TryFrom<[u8; 2]> for Mark {
    type Error = NoMark;

    ghost try_from_gives = { λ letters r. r ≡ known (mark_spelled (slice_index letters 0) (slice_index letters 1)) };

    fn try_from(letters: [u8; 2]) -> Result<Mark, NoMark> {
        match &letters {
            b"MD" => Ok(Mark::Md),
            b"ST" => Ok(Mark::St),
            b"CH" => Ok(Mark::Ch),
            b"HD" => Ok(Mark::Hd),
            b"CE" => Ok(Mark::Ce),
            b"FL" => Ok(Mark::Fl),
            b"PC" => Ok(Mark::Pc),
            b"PM" => Ok(Mark::Pm),
            b"RW" => Ok(Mark::Rw),
            b"WF" => Ok(Mark::Wf),
            b"ZZ" => Ok(Mark::Zz),
            _ => Err(NoMark::Unknown),
        }
    }
}

// The mark that stands at `at`.
pub fn mark_at(bytes: &[u8], at: usize) -> Result<Mark, NoMark>
    ensures { result ≡ mark_at bytes.now at }
{
    let letters = Fields { bytes, at }.take::<2>().ok_or(NoMark::Cut)?;
    Mark::try_from(*letters)
}

// The record of that mark at `at`, and where it ends; None where the bytes end before it does.
pub fn decode(bytes: &[u8], at: usize, mark: Mark) -> Option<(Record<'_>, usize)>
    ensures value { Decodes bytes.now at mark result }
    ensures exact { Stands bytes.now at mark result }
{
    Fields::behind_mark(bytes, at)?.record(mark)
}
