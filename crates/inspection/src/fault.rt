// What an unsound source is refused by: the number, the place, and the words.
ghost use Rattle.std.specs.Prelude.{Some};
ghost use Rattle.inspection.specs.Inspection.{number_of, place_of};
ghost use Rattle.inspection.specs.Words.{fault_words, unsound_words};
ghost use Rattle.refusals.specs.declared.finder.Finder.TheVariants.{Opening};

use refusals::{Finder, Refusal, write_refusal};
use std::fmt;

// Why a model is not sound, with the state that is at fault.
#[derive(Clone, Copy, PartialEq, Eq, Debug)]
pub enum Fault {
    // The number of states or the denominator is out of its limits.
    Limits,
    // The state has no choice, or with its choices there are more than 4,096.
    Choices(u32),
    // The weights of some choice of the state do not add up to the denominator.
    Weights(u32),
}

// The refusal of a source that is not sound.
#[derive(Clone, Copy, PartialEq, Eq, Debug)]
pub struct Unsound {
    pub letter: u8,
    pub fault: Fault,
}

impl Refusal for Unsound {
    type Place = u32;

    ghost number = { λ u. number_of u.fault };

    ghost place = { λ u. place_of u.fault };

    ghost words = { λ u. fault_words u.fault };

    ghost finder = { λ u. Opening u.letter };

    fn number(&self) -> u32 {
        match self.fault {
            Fault::Limits => 6,
            Fault::Choices(_) => 7,
            Fault::Weights(_) => 8,
        }
    }

    fn place(&self) -> u32 {
        match self.fault {
            Fault::Limits => 0,
            Fault::Choices(s) | Fault::Weights(s) => s,
        }
    }

    fn words(&self) -> &'static str {
        match self.fault {
            Fault::Limits =>
                "the number of states is not 1 to 256, or the denominator not 1 to 65535",
            Fault::Choices(_) =>
                "the state has no choice, or with its choices there are more than 4096",
            Fault::Weights(_) =>
                "the weights of a choice of the state do not add up to the denominator",
        }
    }

    fn finder(&self) -> Finder {
        Finder::Opening(self.letter)
    }
}

impl fmt::Display for Unsound {
    ghost output = { λ u. Some (unsound_words u) };

    fn fmt<W: fmt::Write>(&self, f: &mut fmt::Formatter<W>) -> fmt::Result {
        write_refusal(self, f)
    }
}
