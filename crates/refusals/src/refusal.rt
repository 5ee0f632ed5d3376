// What every refusal names, and its text.
ghost use Rattle.std.specs.Prelude.{◌≡◌, ℕ, List};
ghost use Rattle.std.specs.Fmt.{DisplaysOnOk};
ghost use Rattle.refusals.specs.declared.finder.Finder.{Finder};
ghost use Rattle.refusals.specs.Refusal.{refusal_text};

use crate::finder::Finder;
use std::fmt;

pub trait Refusal {
    // The number of a state, or an offset in bytes.
    type Place: fmt::Display + Drop;

    ghost number: { Self → ℕ };

    ghost place: { Self → Self.Place };

    ghost words: { Self → List ℕ };

    ghost finder: { Self → Finder };

    fn number(&self) -> u32
        ensures { result ≡ number self.now };

    fn place(&self) -> Self::Place
        ensures { result ≡ place self.now };

    // Why, in words.
    fn words(&self) -> &'static str
        ensures { result.now ≡ words self.now };

    fn finder(&self) -> Finder
        ensures { result ≡ finder self.now };
}

// The text of a refusal.
pub fn write_refusal<R: Refusal, W: fmt::Write>(
    refusal: &R,
    f: &mut fmt::Formatter<W>,
) -> fmt::Result
    ensures { DisplaysOnOk W.write_str_gives f.old result
        (refusal_text (R.number refusal.now) (R.Place.output (R.place refusal.now)) (R.words refusal.now) (R.finder refusal.now)) f.new }
{
    let number = refusal.number();
    let place = refusal.place();
    let words = refusal.words();
    let finder = refusal.finder();
    write!(
        f,
        "refused by {number} at place {place}: {words} ({finder})"
    )
}
