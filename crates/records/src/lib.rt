// The records of a file: what each says, the bytes that it is written as, and one record out of a caller's bytes.
#![tactic(auto)]

mod content;
mod decoding;
mod entries;
mod fields;

pub use content::{BRANCH_SIZE, Branch, Mark, PORTION_SIZE, Portion, Record};
pub use decoding::{NoMark, decode, mark_at};
pub use entries::{Entries, Entry, branch_at, branches, portion_at, portions};
