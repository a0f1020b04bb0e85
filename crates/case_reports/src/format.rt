//! The format of a file of cases.

use crate::errors::CaseError;
use std::alloc::Global;

/// The number of a line, and how it differs; nothing where all is as it was wanted.
pub type Difference = Option<(usize, String)>;

/// A case of a file.
pub trait FileCase: Drop {
    /// A case with a name, of which no line but its first one was read. Lines are numbered from 1.
    fn begin(alloc: Global, name: &str, line: usize) -> Result<Self, CaseError>;

    /// Takes the next line of the case.
    fn take(&mut self, alloc: Global, line: usize, text: &str) -> Result<(), CaseError>;

    /// Its name.
    fn name(&self) -> &str;

    /// The number of its first line.
    fn line(&self) -> usize;

    /// How it differs from what it wants.
    fn difference(&self, alloc: Global) -> Result<Difference, CaseError>;
}

/// Why a file is none of cases, and the number of the line where this shows.
#[derive(Clone, Copy)]
pub(crate) struct BadLine {
    pub line: usize,
    pub cause: CaseError,
}

/// The cases of a text, in order.
pub(crate) fn read_cases<C: FileCase>(alloc: Global, text: &str) -> Result<Vec<C>, BadLine> {
    let mut cases = Vec::new(alloc);
    for (place, text) in text.split('\n').enumerate() {
        let line = place.saturating_add(1);
        if let Err(cause) = read_line(alloc, &mut cases, line, text) {
            return Err(BadLine { line, cause });
        }
    }
    Ok(cases)
}

fn read_line<C: FileCase>(
    alloc: Global,
    cases: &mut Vec<C>,
    line: usize,
    text: &str,
) -> Result<(), CaseError> {
    if text.is_empty() || text.starts_with('#') {
        return Ok(());
    }
    if let Some(name) = text.strip_prefix("case ") {
        cases.push(C::begin(alloc, name, line)?)?;
        return Ok(());
    }
    match cases.last_mut() {
        Some(case) => case.take(alloc, line, text),
        None => Err(CaseError::Malformed("this line stands before the first case")),
    }
}
