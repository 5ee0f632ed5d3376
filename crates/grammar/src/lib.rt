// What hand-ins and model files are: which record may follow where.
#![tactic(auto)]

mod kind;
mod order;
mod place;
mod ranges;
mod step;

pub use kind::{Kind, UnknownKind};
pub use order::Key;
pub use place::Place;
pub use step::Misfit;
