//! Runs of emitted scanners over an input, and the lines that they print.
#![tactic(auto)]

mod asks;
mod assignments;
mod ends;
pub mod laws;
mod line_sinks;
mod lines;
mod matches;
mod puts;
mod runs;
mod streams;
mod values;
mod windows;

pub use ends::RunEnd;
pub use runs::run_over;
pub use streams::{Ending, ending_of};
pub use windows::run_window;
