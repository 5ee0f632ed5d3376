// What a filling is refused by: the number, the place, and the words.
ghost use Rattle.std.specs.Prelude.{◌≡◌, Some};
ghost use Rattle.filling.specs.Faults.{number_of, place_of, fault_words, finder_of, refusal_words};
ghost use Rattle.filling.specs.declared.fault.FillFault.TheVariants.{Reading};

use reader::ReadFault;
use refusals::{Finder, Refusal, write_refusal};
use std::fmt;

#[derive(Clone, Copy, PartialEq, Eq, Debug)]
pub enum FillFault {
    // The bytes are no model file.
    Reading(ReadFault),
    // A table is too small for the rows.
    NoRoom,
}

impl From<ReadFault> for FillFault {
    ghost from_gives = { λ x r. r ≡ Reading x };

    fn from(read: ReadFault) -> FillFault {
        FillFault::Reading(read)
    }
}

impl Refusal for FillFault {
    type Place = usize;

    ghost number = { number_of };

    ghost place = { place_of };

    ghost words = { fault_words };

    ghost finder = { finder_of };

    fn number(&self) -> u32 {
        match self {
            FillFault::Reading(fault) => fault.number(),
            FillFault::NoRoom => 5,
        }
    }

    // The offset in the bytes; 0 where a table is too small.
    fn place(&self) -> usize {
        match self {
            FillFault::Reading(fault) => fault.place(),
            FillFault::NoRoom => 0,
        }
    }

    fn words(&self) -> &'static str {
        match self {
            FillFault::Reading(fault) => fault.words(),
            FillFault::NoRoom => "a table is too small",
        }
    }

    fn finder(&self) -> Finder {
        match self {
            FillFault::Reading(fault) => fault.finder(),
            FillFault::NoRoom => Finder::Table,
        }
    }
}

impl fmt::Display for FillFault {
    ghost output = { λ f. Some (refusal_words f) };

    fn fmt<W: fmt::Write>(&self, f: &mut fmt::Formatter<W>) -> fmt::Result {
        write_refusal(self, f)
    }
}
