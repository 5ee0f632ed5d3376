// What bytes are refused by that are no readable file: the number, the place, and the words.
ghost use Rattle.std.specs.Prelude.{◌≡◌, Some};
ghost use Rattle.reader.specs.Faults.{fault_of_mark, number_of, place_of};
ghost use Rattle.reader.specs.Words.{fault_words, refusal_words};
ghost use Rattle.refusals.specs.declared.finder.Finder.TheVariants.{Reader};

use records::NoMark;
use refusals::{Finder, Refusal, write_refusal};
use std::fmt;

// Why the bytes do not read, with the offset of the record, or of the byte, that is at fault.
#[derive(Clone, Copy, PartialEq, Eq, Debug)]
pub enum ReadFault {
    // The bytes end before the record is complete.
    Ends(usize),
    // The mark is unknown or not allowed there.
    BadMark(usize),
    // A field is out of its range, or the order does not ascend.
    BadField(usize),
    // There are bytes after ZZ.
    Surplus(usize),
}

impl ReadFault {
    // The fault of a record at an offset where no mark stands.
    pub(crate) fn of_mark(none: NoMark, at: usize) -> ReadFault
        ensures { result ≡ fault_of_mark none at }
    {
        match none {
            NoMark::Cut => ReadFault::Ends(at),
            NoMark::Unknown => ReadFault::BadMark(at),
        }
    }
}

impl Refusal for ReadFault {
    type Place = usize;

    ghost number = { number_of };

    ghost place = { place_of };

    ghost words = { fault_words };

    ghost finder = { λ _. Reader };

    fn number(&self) -> u32 {
        match self {
            ReadFault::Ends(_) => 1,
            ReadFault::BadMark(_) => 2,
            ReadFault::BadField(_) => 3,
            ReadFault::Surplus(_) => 4,
        }
    }

    fn place(&self) -> usize {
        match self {
            ReadFault::Ends(at)
            | ReadFault::BadMark(at)
            | ReadFault::BadField(at)
            | ReadFault::Surplus(at) => *at,
        }
    }

    fn words(&self) -> &'static str {
        match self {
            ReadFault::Ends(_) => "the bytes end before the record is complete",
            ReadFault::BadMark(_) => "the mark is unknown or not allowed there",
            ReadFault::BadField(_) => "a field is out of its range, or the order does not ascend",
            ReadFault::Surplus(_) => "there are bytes after ZZ",
        }
    }

    fn finder(&self) -> Finder {
        Finder::Reader
    }
}

impl fmt::Display for ReadFault {
    ghost output = { λ f. Some (refusal_words f) };

    fn fmt<W: fmt::Write>(&self, f: &mut fmt::Formatter<W>) -> fmt::Result {
        write_refusal(self, f)
    }
}
