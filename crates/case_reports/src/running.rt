//! A program of cases.

use crate::format::FileCase;
use crate::report::Report;
use anyhow::Result;
use lx_files::{Files, RealFiles};
use std::env;
use std::io::Write;
use std::process::ExitCode;

/// Takes the cases of the files that the program's words name, and prints what is told of them. The status is 0 only where none differs.
pub fn run_words<C: FileCase>(rt: HostRuntime) -> Result<ExitCode> {
    let alloc = rt.alloc();
    let mut report = Report::new(alloc);
    let names: Vec<String> = env::args(&rt)?.skip(1).collect(alloc)?;
    for name in names.iter() {
        let bytes = RealFiles::new(&rt).read(alloc, name.as_str())?;
        report.run_file::<C>(alloc, name.as_str(), &bytes)?;
    }
    rt.stdout().write_all(report.text(alloc)?.as_bytes())?;
    Ok(report.status())
}
