// The retry sheet: events are sent one after the other, each with resends, and a request or a receipt may be lost on the way.
#![tactic(auto)]

mod lawful;
mod numbers;
mod sheet;
mod stage;

pub use numbers::Numbers;
pub use sheet::{Sheet, sheet_a};
