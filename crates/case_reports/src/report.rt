//! What is told of all cases.

use crate::format::{FileCase, read_cases};
use std::alloc::{AllocError, Global};
use std::process::ExitCode;

/// The lines on cases that differ, and how many cases there are and how many of them differ. A file that is none of cases counts as a
/// case that differs.
#[derive(Drop)]
pub(crate) struct Report {
    lines: String,
    cases: u64,
    differ: u64,
}

impl Report {
    /// No case.
    pub(crate) fn new(alloc: Global) -> Report {
        Report {
            lines: String::new(alloc),
            cases: 0,
            differ: 0,
        }
    }

    /// Takes the cases of a file.
    pub(crate) fn run_file<C: FileCase>(
        &mut self,
        alloc: Global,
        file: &str,
        bytes: &[u8],
    ) -> Result<(), AllocError> {
        let Ok(text) = str::from_utf8(bytes) else {
            self.cases = self.cases.saturating_add(1);
            return self.tell(file, 1, "", "no text");
        };
        match read_cases::<C>(alloc, text) {
            Ok(cases) => self.run_cases(alloc, file, &cases),
            Err(bad) => {
                self.cases = self.cases.saturating_add(1);
                self.tell(file, bad.line, "", bad.cause.text())
            }
        }
    }

    fn run_cases<C: FileCase>(
        &mut self,
        alloc: Global,
        file: &str,
        cases: &[C],
    ) -> Result<(), AllocError> {
        for case in cases {
            self.run_case(alloc, file, case)?;
        }
        Ok(())
    }

    fn run_case<C: FileCase>(
        &mut self,
        alloc: Global,
        file: &str,
        case: &C,
    ) -> Result<(), AllocError> {
        self.cases = self.cases.saturating_add(1);
        let name = case.name();
        match case.difference(alloc) {
            Ok(None) => Ok(()),
            Ok(Some((line, difference))) => self.tell(file, line, name, difference.as_str()),
            Err(error) => self.tell(file, case.line(), name, error.text()),
        }
    }

    fn tell(
        &mut self,
        file: &str,
        line: usize,
        name: &str,
        difference: &str,
    ) -> Result<(), AllocError> {
        self.differ = self.differ.saturating_add(1);
        write!(self.lines, "{file}:{line}: {name}: {difference}\n")
    }

    /// What is printed of all this.
    pub(crate) fn text(&self, alloc: Global) -> Result<String, AllocError> {
        let (lines, cases, differ) = (self.lines.as_str(), self.cases, self.differ);
        format!(in alloc; "{lines}{cases} cases, {differ} differ\n")
    }

    /// The exit status.
    pub(crate) fn status(&self) -> ExitCode {
        ExitCode::from(if self.differ == 0 { 0 } else { 1 })
    }
}
