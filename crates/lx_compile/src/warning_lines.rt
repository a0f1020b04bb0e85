//! The line that tells a warning.
ghost use Rattle.std.specs.Prelude.{◌≡◌, ◌++◌, [], IfOk, OnOk, None, Some, slice_index_or};
ghost use Rattle.lx_base.specs.Message.{heading};
ghost use Rattle.lx_compile.specs.Warnings.{condition_text, rule_text, saying, units_text, warning_text};

use crate::warned::PlacedWarning;
use lx_base::{ByteText, FileNames, Memory, Pos, append_parts};
use lx_ccode::hexadecimal;
use lx_shared::SharedText;
use lx_warn::Warning;
use std::alloc::Global;

/// Appends code units, each behind a space.
pub(crate) fn append_units(alloc: Global, text: &mut Vec<u8>, word: &[u32]) -> Result<(), Memory>
    ensures { OnOk result (text.new.items ≡ text.old.items ++ units_text word.now) }
{
    for unit in word {
        let unit = hexadecimal(alloc, *unit)?;
        append_parts(text, &[b" 0x", unit.as_bytes()])?;
    }
    Ok(())
}

/// The name of a file by its place, empty past the list.
fn file_name(names: &FileNames, file: u32) -> &[u8]
    ensures { result.now ≡ slice_index_or names.now file [] }
{
    match names.get(file) {
        None => &[],
        Some(name) => name.as_bytes(),
    }
}

/// Appends the place, as the messages of faults have it.
fn append_heading(
    alloc: Global,
    text: &mut Vec<u8>,
    names: &FileNames,
    at: Pos,
) -> Result<(), Memory>
    ensures { OnOk result (text.new.items ≡ text.old.items ++ heading names.now (Some at)) }
{
    let line = format!(in alloc; "{}", at.line)?;
    let col = format!(in alloc; "{}", at.col)?;
    append_parts(
        text,
        &[
            file_name(names, at.file),
            b":",
            line.as_bytes(),
            b":",
            col.as_bytes(),
            b":",
        ],
    )
}

/// Appends what a warning says of the rule with this number.
fn append_rule(alloc: Global, text: &mut Vec<u8>, number: u32, what: &[u8]) -> Result<(), Memory>
    ensures { OnOk result (text.new.items ≡ text.old.items ++ rule_text number what.now) }
{
    let number = format!(in alloc; "{number}")?;
    append_parts(text, &[b"rule ", number.as_bytes(), what])
}

/// Appends what a warning says.
fn append_saying(alloc: Global, text: &mut Vec<u8>, warning: &Warning) -> Result<(), Memory>
    ensures { OnOk result (text.new.items ≡ text.old.items ++ saying warning.now) }
{
    match warning {
        Warning::Unreachable(number) => append_rule(alloc, text, *number, b" is never chosen"),
        Warning::Empty(number) => append_rule(alloc, text, *number, b" matches the empty string"),
        Warning::Undefined(word) => {
            append_parts(text, &[b"no rule after"])?;
            append_units(alloc, text, word.as_slice())
        }
    }
}

/// Appends in which condition it is.
fn append_condition(text: &mut Vec<u8>, cond: &Option<SharedText>) -> Result<(), Memory>
    ensures { OnOk result (text.new.items ≡ text.old.items ++ condition_text cond.now) }
{
    match cond {
        None => Ok(()),
        Some(name) => append_parts(text, &[b" in condition ", name.as_slice()]),
    }
}

/// The line that tells a warning: `FILE:LINE:COL: warning: TEXT` and a line feed, where files of these names were met.
pub fn warning_line(
    alloc: Global,
    names: &FileNames,
    placed: &PlacedWarning,
) -> Result<ByteText, Memory>
    ensures { IfOk result (λ text. text ≡ warning_text names.now placed.now) }
{
    let mut text = Vec::new(alloc);
    append_heading(alloc, &mut text, names, placed.at)?;
    append_parts(&mut text, &[b" warning: "])?;
    append_saying(alloc, &mut text, &placed.warning)?;
    append_condition(&mut text, &placed.cond)?;
    append_parts(&mut text, &[b"\n"])?;
    Ok(ByteText::from_vec(text))
}
