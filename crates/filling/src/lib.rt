// Filling: the rows of a table, out of a model file.
#![tactic(auto)]

mod counting;
mod fault;
mod filling;
mod placing;

pub use fault::FillFault;
pub use filling::{Tables, fill};
