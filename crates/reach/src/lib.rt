// The exact chances of reaching a goal within a number of steps.
#![tactic(auto)]

mod reach;
mod stepping;

pub use reach::{Reach, TooFar, Values};
pub use stepping::exact_values;
