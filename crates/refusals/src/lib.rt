// What every refusal names: its number, its place, why, and who refused; and its text.
#![tactic(auto)]

mod finder;
mod refusal;

pub use finder::Finder;
pub use refusal::{Refusal, write_refusal};
