// Encoding: one record into a caller's buffer.
#![tactic(auto)]

mod putting;

pub use putting::encode;
