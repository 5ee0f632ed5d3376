// What a record is refused by that cannot be written: the number, the place, and the words.
ghost use Rattle.std.specs.Prelude.{◌≡◌, Some};
ghost use Rattle.writer.specs.Faults.{fault_of, number_of, place_of};
ghost use Rattle.writer.specs.Words.{fault_words, refusal_words};
ghost use Rattle.refusals.specs.declared.finder.Finder.TheVariants.{Writer};

use grammar::Misfit;
use refusals::{Finder, Refusal, write_refusal};
use std::fmt;

// Why a record is not written. Two of them have the offset at which the record would begin.
#[derive(Clone, Copy, PartialEq, Eq, Debug)]
pub enum WriteFault {
    // No hand-in has a record of this mark there.
    BadMark(usize),
    // No hand-in has this record there.
    BadField(usize),
    // The buffer is too small for it.
    NoRoom,
}

impl WriteFault {
    // The fault of a record that does not fit where it would begin. Not `From`: a pair would not say that the number is the offset.
    pub(crate) fn of(misfit: Misfit, at: usize) -> WriteFault
        ensures { result ≡ fault_of misfit at }
    {
        match misfit {
            Misfit::BadMark => WriteFault::BadMark(at),
            Misfit::BadField => WriteFault::BadField(at),
        }
    }
}

impl Refusal for WriteFault {
    type Place = usize;

    ghost number = { number_of };

    ghost place = { place_of };

    ghost words = { fault_words };

    ghost finder = { λ _. Writer };

    fn number(&self) -> u32 {
        match self {
            WriteFault::BadMark(_) => 2,
            WriteFault::BadField(_) => 3,
            WriteFault::NoRoom => 5,
        }
    }

    fn place(&self) -> usize {
        match self {
            WriteFault::BadMark(at) | WriteFault::BadField(at) => *at,
            WriteFault::NoRoom => 0,
        }
    }

    fn words(&self) -> &'static str {
        match self {
            WriteFault::BadMark(_) => "no hand-in has a record of this mark there",
            WriteFault::BadField(_) =>
                "no hand-in has this record there: a field is out of its range, or the order does not ascend",
            WriteFault::NoRoom => "the buffer is too small",
        }
    }

    fn finder(&self) -> Finder {
        Finder::Writer
    }
}

impl fmt::Display for WriteFault {
    ghost output = { λ f. Some (refusal_words f) };

    fn fmt<W: fmt::Write>(&self, f: &mut fmt::Formatter<W>) -> fmt::Result {
        write_refusal(self, f)
    }
}
