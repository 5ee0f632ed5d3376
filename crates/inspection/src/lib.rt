// The inspection of a source: is its model sound, and if not, what is the first fault?
#![tactic(auto)]

mod fault;
mod inspecting;

pub use fault::{Fault, Unsound};
pub use inspecting::inspect;
