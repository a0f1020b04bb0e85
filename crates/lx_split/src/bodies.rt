//! Where the body of a block ends.
ghost use Rattle.std.specs.Prelude.{◌≡◌, ◌+◌, ◌≤◌, ◌<◌, length, IfSome};
ghost use Rattle.std.specs.Option.{option_copied};
ghost use Rattle.lx_token.specs.Braces.{AreKnown};
ghost use Rattle.lx_split.specs.Bodies.{after_block, after_body, after_file_name, after_include_part, after_part, after_part_of};

use lx_base::BlockKind;
use lx_token::{Unclosed, after_bounds, after_braces, after_closing, after_piece, after_quote};

/// What follows the part of a body at its front, which is no `*/`.
fn after_part<'a>(text: &'a [u8], unclosed: &mut Unclosed) -> Option<&'a [u8]>
    requires known { AreKnown unclosed.old text.now }
    ensures rest { option_copied result ≡ after_part text.now }
    ensures shorter { IfSome result (λ rest. length rest.now < length text.now) }
    ensures known { IfSome result (λ rest. AreKnown unclosed.new rest.now) }
{
    match text.split_first() {
        Some((b'[', tail)) => Some(after_quote(tail, b'[', b']', &mut unclosed.classes)),
        Some((b'{', tail)) => match after_bounds(text) {
            Some(rest) => Some(rest),
            None => after_braces(tail, unclosed),
        },
        _ => after_piece(text, unclosed),
    }
}

/// What follows a file name behind its opening quote, where it is closed in its line. No byte of it is escaped.
pub(crate) fn after_file_name(text: &[u8]) -> Option<&[u8]>
    ensures rest { option_copied result ≡ after_file_name text.now }
    ensures shorter { IfSome result (λ rest. length rest.now < length text.now) }
{
    let mut rest = text;
    while let Some((letter, tail)) = rest.split_first() {
        match *letter {
            b'"' => return Some(tail),
            b'\n' => return None,
            _ => rest = tail,
        }
    }
    None
}

/// What follows the part of an include's body at its front, which is no `*/`.
fn after_include_part<'a>(text: &'a [u8], unclosed: &mut Unclosed) -> Option<&'a [u8]>
    requires known { AreKnown unclosed.old text.now }
    ensures rest { option_copied result ≡ after_include_part text.now }
    ensures shorter { IfSome result (λ rest. length rest.now < length text.now) }
    ensures known { IfSome result (λ rest. AreKnown unclosed.new rest.now) }
{
    match text.split_first() {
        Some((b'"', tail)) => Some(after_file_name(tail).unwrap_or(tail)),
        _ => after_part(text, unclosed),
    }
}

/// What follows the part at the front of the body of a block, which is no `*/`.
fn after_part_of<'a>(kind: BlockKind, text: &'a [u8], unclosed: &mut Unclosed) -> Option<&'a [u8]>
    requires known { AreKnown unclosed.old text.now }
    ensures rest { option_copied result ≡ after_part_of kind text.now }
    ensures shorter { IfSome result (λ rest. length rest.now < length text.now) }
    ensures known { IfSome result (λ rest. AreKnown unclosed.new rest.now) }
{
    match kind {
        BlockKind::Include => after_include_part(text, unclosed),
        _ => after_part(text, unclosed),
    }
}

/// What follows the first `*/` outside of the strings, classes, comments and actions of a body.
fn after_body<'a>(kind: BlockKind, text: &'a [u8], unclosed: &mut Unclosed) -> Option<&'a [u8]>
    requires known { AreKnown unclosed.old text.now }
    ensures rest { option_copied result ≡ after_body kind (length text.now) text.now }
    ensures shorter { IfSome result (λ rest. length rest.now < length text.now) }
    ensures known { IfSome result (λ rest. AreKnown unclosed.new rest.now) }
{
    let mut rest = text;
    while !rest.is_empty() {
        if rest.starts_with(b"*/") {
            return Some(&rest[2..]);
        }
        rest = after_part_of(kind, rest, unclosed)?;
    }
    None
}

/// What follows a block behind its opener.
pub(crate) fn after_block<'a>(
    kind: BlockKind,
    text: &'a [u8],
    unclosed: &mut Unclosed,
) -> Option<&'a [u8]>
    requires known { AreKnown unclosed.old text.now }
    ensures rest { option_copied result ≡ after_block kind text.now }
    ensures shorter { IfSome result (λ rest. length rest.now + 2 ≤ length text.now) }
    ensures known { IfSome result (λ rest. AreKnown unclosed.new rest.now) }
{
    match kind {
        BlockKind::Ignore => after_closing(text),
        _ => after_body(kind, text, unclosed),
    }
}
