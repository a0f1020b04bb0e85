//! How faults are written.
ghost use Rattle.std.specs.Prelude.{IsTrue};
ghost use Rattle.lx_base.specs.Message.{IsPlaced};

use case_reports::CaseError;
use lx_base::{Fault, FileNames, Pos, message};
use std::alloc::{AllocError, Global};

/// Whether the place of a fault is in one of these files.
fn is_placed(names: &FileNames, fault: &Fault) -> bool
    ensures { IsTrue result → IsPlaced names.now fault.now }
{
    match fault.place() {
        Some(at) => (at.file as usize) < names.len(),
        None => true,
    }
}

/// The message of a fault, and behind it a line of what else the fault says.
pub fn fault_text(alloc: Global, names: &FileNames, fault: &Fault) -> Result<String, CaseError> {
    if !is_placed(names, fault) {
        return Err(CaseError::Malformed("a fault in no file"));
    }
    let message = message(alloc, names, fault)?;
    let Ok(line) = str::from_utf8(message.as_slice()) else {
        return Err(CaseError::Malformed("a message that is no text"));
    };
    let mut text = String::from_str(alloc, line)?;
    push_details(&mut text, fault)?;
    Ok(text)
}

/// Writes what a fault says beside its message, if it says more.
fn push_details(text: &mut String, fault: &Fault) -> Result<(), AllocError> {
    match fault {
        Fault::Redefined { first, .. } => {
            text.push_str("first ")?;
            push_place(text, *first)?;
            text.push('\n')
        }
        Fault::CodePoint { point, .. } => write!(text, "point 0x{point:X}\n"),
        Fault::Surrogate { point, .. } => write!(text, "point 0x{point:X}\n"),
        Fault::Bounds {
            min,
            max: Some(max),
            ..
        } => write!(text, "bounds {min} {max}\n"),
        Fault::Bounds { min, max: None, .. } => write!(text, "bounds {min}\n"),
        Fault::TooManyParts {
            size,
            nesting,
            tags,
            ..
        } => write!(text, "size {size} nesting {nesting} tags {tags}\n"),
        _ => Ok(()),
    }
}

/// Writes a place.
pub fn push_place(text: &mut String, at: Pos) -> Result<(), AllocError> {
    let Pos { file, line, col } = at;
    write!(text, "{file}:{line}:{col}")
}
