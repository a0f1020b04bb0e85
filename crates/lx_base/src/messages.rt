//! The text by which a fault is told to the user.
ghost use Rattle.std.specs.Prelude.{◌≡◌, ◌++◌, IfOk, OnOk};
ghost use Rattle.lx_base.specs.Message.{message_text, heading, text_of, window_text, HasFile, IsPlaced};

use crate::faults::Fault;
use crate::lists::{ByteText, Memory, append_parts};
use crate::places::{FileNames, Pos};
use std::alloc::Global;

/// The line that tells a fault: `FILE:LINE:COL: error: TEXT`, or `re2c: error: TEXT` for a fault without
/// a place, and a line feed.
pub fn message(alloc: Global, names: &FileNames, fault: &Fault) -> Result<ByteText, Memory>
    requires { IsPlaced names.now fault.now }
    ensures { IfOk result (λ text. text ≡ message_text names.now fault.now) }
{
    let mut text = Vec::new(alloc);
    append_heading(alloc, &mut text, names, fault.place())?;
    append_parts(&mut text, &[b" error: "])?;
    append_text(alloc, &mut text, fault)?;
    append_parts(&mut text, &[b"\n"])?;
    Ok(ByteText::from_vec(text))
}

fn append_heading(
    alloc: Global,
    text: &mut Vec<u8>,
    names: &FileNames,
    place: Option<Pos>,
) -> Result<(), Memory>
    requires { HasFile names.now place }
    ensures { OnOk result (text.new.items ≡ text.old.items ++ heading names.now place) }
{
    match place {
        None => append_parts(text, &[b"re2c:"]),
        Some(at) => {
            let file = names.get(at.file).unwrap();
            let line = format!(in alloc; "{}", at.line)?;
            let col = format!(in alloc; "{}", at.col)?;
            append_parts(
                text,
                &[
                    file.as_bytes(),
                    b":",
                    line.as_bytes(),
                    b":",
                    col.as_bytes(),
                    b":",
                ],
            )
        }
    }
}

fn append_text(alloc: Global, text: &mut Vec<u8>, fault: &Fault) -> Result<(), Memory>
    ensures { OnOk result (text.new.items ≡ text.old.items ++ text_of fault.now) }
{
    match fault {
        Fault::Usage => append_parts(text, &[b"usage"]),
        Fault::NoFile { .. } => append_parts(text, &[b"no such file"]),
        Fault::IncludeDepth { .. } => append_parts(text, &[b"includes nested too deeply"]),
        Fault::Unclosed { .. } => append_parts(text, &[b"block not closed"]),
        Fault::MarkInSource { .. } => append_parts(text, &[b"emitted mark in source"]),
        Fault::BadToken { .. } => append_parts(text, &[b"no token here"]),
        Fault::Syntax { .. } => append_parts(text, &[b"syntax error"]),
        Fault::UnknownName { name, .. } => append_parts(
            text,
            &[b"unknown name '", name.as_slice(), b"'"],
        ),
        Fault::Redefined { .. } => append_parts(text, &[b"defined twice"]),
        Fault::NotClass { .. } => append_parts(text, &[b"not a class"]),
        Fault::CodePoint { .. } => append_parts(text, &[b"code point too large"]),
        Fault::Surrogate { .. } => append_parts(text, &[b"surrogate"]),
        Fault::Bounds { .. } => append_parts(text, &[b"wrong bounds"]),
        Fault::EmptyClass { .. } => append_parts(text, &[b"empty class"]),
        Fault::NoRules { .. } => append_parts(text, &[b"no rules"]),
        Fault::EofPair { .. } => append_parts(text, &[b"end rule and re2c:eof go together"]),
        Fault::Condition { .. } => append_parts(text, &[b"wrong use of conditions"]),
        Fault::TagsOff { .. } => append_parts(text, &[b"tags need an option"]),
        Fault::DuplicateTag { name, .. } => append_parts(
            text,
            &[b"tag '", name.as_slice(), b"' used twice"],
        ),
        Fault::UnknownConfig { name, .. } => append_parts(
            text,
            &[b"unknown configuration '", name.as_slice(), b"'"],
        ),
        Fault::BadValue { .. } => append_parts(text, &[b"wrong value"]),
        Fault::NoRulesToUse { .. } => append_parts(text, &[b"no rules block to use"]),
        Fault::TooLong { .. } => append_parts(text, &[b"source too long"]),
        Fault::TooManyParts { .. } => append_parts(text, &[b"scanner too large"]),
        Fault::TooManyStates { .. } => append_parts(text, &[b"too many states"]),
        Fault::NotEmitted { .. } => append_parts(text, &[b"not emitted text"]),
        Fault::WindowFull {
            kept,
            need,
            size,
            ..
        } => append_window(alloc, text, *kept, *need, *size),
        Fault::Directive { .. } => append_parts(text, &[b"unknown directive or option missing"]),
        Fault::BadInput { .. } => append_parts(text, &[b"input is no whole number of units"]),
        Fault::CoverTooLong { .. } => append_parts(text, &[b"too many cover words"]),
    }
}

fn append_window(
    alloc: Global,
    text: &mut Vec<u8>,
    kept: u64,
    need: u64,
    size: u64,
) -> Result<(), Memory>
    ensures { OnOk result (text.new.items ≡ text.old.items ++ window_text kept need size) }
{
    let kept = format!(in alloc; "{kept}")?;
    let need = format!(in alloc; "{need}")?;
    let size = format!(in alloc; "{size}")?;
    append_parts(
        text,
        &[
            b"window full: ",
            kept.as_bytes(),
            b" kept, ",
            need.as_bytes(),
            b" needed, ",
            size.as_bytes(),
            b" in all",
        ],
    )
}
