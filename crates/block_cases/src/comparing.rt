//! Texts that were found, beside those that were wanted.

use crate::cases::CaseBlock;
use case_reports::{CaseError, Difference};
use std::alloc::Global;

/// How the text of what a block resolves to differs from the one that is wanted: the first line that differs.
pub fn difference(alloc: Global, block: &CaseBlock, found: &str) -> Result<Difference, CaseError> {
    let Some(wanted) = &block.wanted else {
        return Err(CaseError::Malformed("nothing is wanted of a block"));
    };
    let mut rest = found.split('\n');
    for (place, line) in wanted.text.as_str().split('\n').enumerate() {
        let got = rest.next().unwrap_or("");
        if got != line {
            let number = wanted.line.saturating_add(place).saturating_add(1);
            let told = format!(in alloc; "wanted \"{line}\", found \"{got}\"")?;
            return Ok(Some((number, told)));
        }
    }
    Ok(None)
}
