// Shares of a whole as decimals with six places.
#![tactic(auto)]

ghost use Rattle.std.specs.Prelude.{Some, MatchOption};
ghost use Rattle.decimals.specs.Decimal.{NoShare, Nearest, written};

use std::fmt;

#[derive(Clone, Copy)]
pub struct Decimal {
    millionths: u32,
}

// The side on which a decimal may miss a share.
#[derive(Clone, Copy, PartialEq, Eq, Debug)]
pub enum Rounding {
    Down,
    Up,
}

impl Decimal {
    // The decimal nearest to part ÷ whole on that side; none where that is no share.
    pub fn rounded(part: u64, whole: u64, rounding: Rounding) -> Option<Decimal>
        ensures { MatchOption result (NoShare part whole) (λ d. Nearest rounding part whole d.millionths) }
    {
        if whole == 0 || part > whole {
            return None;
        }
        let part = u128::from(part) * 1_000_000;
        let whole = u128::from(whole);
        let millionths = match rounding {
            Rounding::Down => part / whole,
            Rounding::Up => part.div_ceil(whole),
        };
        Some(Decimal {
            millionths: millionths as u32,
        })
    }
}

impl fmt::Display for Decimal {
    ghost output = { λ x. Some (written x.millionths) };

    #[tactic(auto, using(crate::proofs::Places::written_six))]
    fn fmt<W: fmt::Write>(&self, f: &mut fmt::Formatter<W>) -> fmt::Result {
        let ones = self.millionths / 1_000_000;
        let places = self.millionths % 1_000_000;
        write!(f, "{ones}.{places:06}")
    }
}
