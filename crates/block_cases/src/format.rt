//! The format of a file of cases.

use crate::cases::{Case, CaseBlock, Opener, Wanted};
use crate::running::difference_of_case;
use case_reports::{CaseError, Difference, FileCase};
use std::alloc::Global;

impl FileCase for Case {
    fn begin(alloc: Global, name: &str, line: usize) -> Result<Case, CaseError> {
        Ok(Case {
            name: String::from_str(alloc, name)?,
            line,
            options: String::new(alloc),
            blocks: Vec::new(alloc),
        })
    }

    fn take(&mut self, alloc: Global, line: usize, text: &str) -> Result<(), CaseError> {
        read_order(alloc, self, line, text)
    }

    fn name(&self) -> &str {
        self.name.as_str()
    }

    fn line(&self) -> usize {
        self.line
    }

    fn difference(&self, alloc: Global) -> Result<Difference, CaseError> {
        difference_of_case(alloc, self)
    }
}

/// A line of a case: an order, or a line of text.
fn read_order(alloc: Global, case: &mut Case, line: usize, text: &str) -> Result<(), CaseError> {
    if let Some(words) = text.strip_prefix("options ") {
        case.options.push_str(words)?;
        return Ok(());
    }
    match text {
        "code" => begin_block(alloc, case, Opener::Code),
        "rules" => begin_block(alloc, case, Opener::Rules),
        "use" => begin_block(alloc, case, Opener::Use),
        "wants" => begin_wanted(alloc, case, line),
        _ => match text.strip_prefix('|') {
            Some(rest) => push_text(case, rest),
            None => Err(CaseError::Malformed("no order")),
        },
    }
}

fn begin_block(alloc: Global, case: &mut Case, opener: Opener) -> Result<(), CaseError> {
    let Ok(file) = u32::try_from(case.blocks.len()) else {
        return Err(CaseError::Malformed("too many blocks"));
    };
    case.blocks.push(CaseBlock {
        opener,
        file,
        body: String::new(alloc),
        wanted: None,
    })?;
    Ok(())
}

/// The last block, which begins before.
fn last_block(case: &mut Case) -> Result<&mut CaseBlock, CaseError> {
    match case.blocks.last_mut() {
        Some(block) => Ok(block),
        None => Err(CaseError::Malformed("no block begins before")),
    }
}

fn begin_wanted(alloc: Global, case: &mut Case, line: usize) -> Result<(), CaseError> {
    let block = last_block(case)?;
    if block.wanted.is_some() {
        return Err(CaseError::Malformed("this stands twice"));
    }
    block.wanted = Some(Wanted {
        line,
        text: String::new(alloc),
    });
    Ok(())
}

/// What stands behind the `|` of a line of text: nothing, or a blank and the text.
fn push_text(case: &mut Case, rest: &str) -> Result<(), CaseError> {
    let line = text_of(rest)?;
    let text = open_text(last_block(case)?);
    text.push_str(line)?;
    text.push('\n')?;
    Ok(())
}

fn text_of(rest: &str) -> Result<&str, CaseError> {
    if rest.is_empty() {
        return Ok(rest);
    }
    match rest.strip_prefix(' ') {
        Some(text) => Ok(text),
        None => Err(CaseError::Malformed("no blank behind |")),
    }
}

/// The text of a block that goes on.
fn open_text(block: &mut CaseBlock) -> &mut String {
    match &mut block.wanted {
        Some(wanted) => &mut wanted.text,
        None => &mut block.body,
    }
}
