//! The scanner generator as one call: from the words of the command line, files and sinks to an exit status.
#![tactic(auto)]

mod compile;
mod delivery;
mod emitted;
pub mod endings;
mod files;
mod jobs;
pub mod laws;
mod report;
pub mod run;
mod source;
mod summary;
mod warnings;

pub use endings::{Ending, Halt};
pub use lx_files::put_all;
pub use lx_run::{Ending as InputEnding, RunEnd, ending_of, run_window};
pub use run::{answer, re2c, refuse_words};
