//! Resolves the blocks of cases: it reads the files of cases that its words name, writes down what each block resolves to or its first
//! fault, and compares that with what the file wants. It prints a line for each case that differs, and last how many cases there are and
//! how many of them differ.
#![tactic(auto)]

use anyhow::Result;
use case_reports::run_words;
use cases::Case;
use std::process::ExitCode;

mod cases;
mod comparing;
mod expressions;
mod faults;
mod format;
mod options;
mod points;
mod resolving;
mod running;
mod scanners;

fn main(rt: HostRuntime) -> Result<ExitCode> {
    run_words::<Case>(rt)
}
