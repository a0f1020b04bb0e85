//! The format of a file of cases.

use crate::cases::{Case, Item};
use crate::lines::{order, push_content};
use crate::scene::difference_of_case;
use case_reports::{CaseError, Difference, FileCase};
use std::alloc::Global;

impl FileCase for Case {
    fn begin(alloc: Global, name: &str, line: usize) -> Result<Case, CaseError> {
        let name = String::from_str(alloc, name)?;
        let items = Vec::new(alloc);
        Ok(Case { name, line, items })
    }

    fn take(&mut self, alloc: Global, line: usize, text: &str) -> Result<(), CaseError> {
        read_item(alloc, &mut self.items, line, text)
    }

    fn name(&self) -> &str {
        self.name.as_str()
    }

    fn line(&self) -> usize {
        self.line
    }

    fn difference(&self, alloc: Global) -> Result<Difference, CaseError> {
        difference_of_case(alloc, self)
    }
}

/// A line of a case: one of content, or an order.
fn read_item(
    alloc: Global,
    items: &mut Vec<Item>,
    line: usize,
    text: &str,
) -> Result<(), CaseError> {
    if !text.starts_with(['|', '>', '*']) {
        items.push(new_item(alloc, line, text)?)?;
        return Ok(());
    }
    match items.last_mut() {
        Some(item) if item.order.has_content() => push_content(&mut item.content, text),
        _ => Err(CaseError::Malformed("no content belongs here")),
    }
}

fn new_item(alloc: Global, line: usize, text: &str) -> Result<Item, CaseError> {
    Ok(Item {
        line,
        order: order(alloc, text)?,
        content: Vec::new(alloc),
    })
}
