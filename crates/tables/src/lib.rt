// The table: a model that rests on rows, one for each state, choice and branch.
#![tactic(auto)]

mod rows;
mod search;
mod table;

pub use rows::{ChoiceRow, Filled, StateRow};
pub use table::Table;
