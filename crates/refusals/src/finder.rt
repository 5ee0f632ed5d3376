// Who refuses.
ghost use Rattle.std.specs.Prelude.{Some};
ghost use Rattle.refusals.specs.Refusal.{finder_words};

use std::fmt;

#[derive(Clone, Copy, PartialEq, Eq, Debug)]
pub enum Finder {
    Reader,
    Writer,
    Table,
    // The opening of the source of this letter.
    Opening(u8),
    ExactValues,
}

impl fmt::Display for Finder {
    ghost output = { λ x. Some (finder_words x) };

    fn fmt<W: fmt::Write>(&self, f: &mut fmt::Formatter<W>) -> fmt::Result {
        match self {
            Finder::Reader => f.write_str("reader"),
            Finder::Writer => f.write_str("writer"),
            Finder::Table => f.write_str("table"),
            Finder::Opening(letter) => {
                let letter = char::from(*letter);
                write!(f, "opening of source {letter}")
            }
            Finder::ExactValues => f.write_str("exact values"),
        }
    }
}
