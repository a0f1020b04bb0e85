//! Runs the cases of the files that its words name: command lines of the program over files and sinks in memory, each with what is
//! wanted of it. It prints a line for each case that differs, and last how many cases there are and how many of them differ.
#![tactic(auto)]

use anyhow::Result;
use case_reports::run_words;
use cases::Case;
use std::process::ExitCode;

mod cases;
mod escapes;
mod format;
mod formats;
mod lines;
mod outcome;
mod scene;
mod seen;
mod stage;

fn main(rt: HostRuntime) -> Result<ExitCode> {
    run_words::<Case>(rt)
}
