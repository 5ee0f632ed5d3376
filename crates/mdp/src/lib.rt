// Markov decision processes with whole-number weights: what a model is, the sources that answer for one, and sums over a source.
#![tactic(auto)]

mod extreme;
mod source;
mod worth;

pub use extreme::Extreme;
pub use source::Source;
pub use worth::{best_choice, weighted_sum};
