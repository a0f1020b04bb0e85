//! What programs of cases share: how files of cases are read line by line, and what is told of all cases.
#![tactic(auto)]

mod errors;
mod format;
mod report;
mod running;

pub use errors::CaseError;
pub use format::{Difference, FileCase};
pub use running::run_words;
