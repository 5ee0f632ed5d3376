// The quotient layer: the states of one class become one state.
#![tactic(auto)]

mod classes;
mod layer;

pub use layer::Quotient;
