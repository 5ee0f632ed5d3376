// Reading files: hand-ins and model files, record by record, exactly or with the first fault.
#![tactic(auto)]

mod fault;
mod format;
mod reading;

pub use fault::ReadFault;
pub use reading::{Reader, read_hand_in, read_model_file};
