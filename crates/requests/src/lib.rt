// A request for chances: a retry sheet and a number of steps, read from a line of numbers.
#![tactic(auto)]

mod line;
mod request;

pub use request::{BadLine, Request};
