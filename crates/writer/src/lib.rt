// Writing hand-ins, record by record, into a caller's buffer.
#![tactic(auto)]

mod fault;
mod rewriting;
mod writing;

pub use fault::WriteFault;
pub use rewriting::{RewriteFault, rewrite};
pub use writing::Writer;
