// One row of a table of chances: what holds of state 0 within a number of steps.
#![tactic(auto)]

ghost use Rattle.std.specs.Prelude.{ℕ};
ghost use Rattle.mdp.specs.Model.{Model, Bounded};
ghost use Rattle.mdp.specs.Sound.{Sound};
ghost use Rattle.reach.specs.Reach.{Reaches};
ghost use Rattle.rows.specs.Row.{Exact};

use decimals::{Decimal, Rounding};
use reach::Reach;

mod row;

pub use row::Row;

impl Row {
    // The row of the values reached. There is always one for the values of a sound source.
    pub fn of(reach: &Reach) -> Option<Row>
        ensures { (m : Model) (k : ℕ) → Bounded m → Sound m → Reaches m k reach.now → Exact m k result }
    {
        let values = reach.at(0);
        let low = Decimal::rounded(values.least, values.whole, Rounding::Down)?;
        let high = Decimal::rounded(values.largest, values.whole, Rounding::Up)?;
        Some(Row { values, low, high })
    }
}
