//! Lines of source files, and the blocks that jumps name.
ghost use Rattle.std.specs.Prelude.{◌≡◌, false, min, IfOk};
ghost use Rattle.lx_ccode.specs.Reading.{block_at, case_goto, case_tail, file_at, goto_block, goto_tail, line_at, mark_at};
ghost use Rattle.lx_creader.specs.Fitted.{fitted_line, fitted_mark};

use crate::words::{after_digits, byte_at, long_at, short_at, skip};
use lx_base::{ByteText, Memory};
use lx_ccode::LineMark;
use lx_shared::{Shared, SharedText};
use std::alloc::Global;

/// The file's name up to the closing quote, and what comes behind that.
fn file_at(alloc: Global, bytes: &[u8]) -> Result<(SharedText, &[u8]), Memory>
    ensures { IfOk result (λ file. (file.0 ≡ (file_at false bytes.now).0) × (file.1.now ≡ (file_at false bytes.now).1)) }
{
    let mut name = Vec::new(alloc);
    let mut after_slash = false;
    let mut rest = bytes;
    while let Some((letter, tail)) = rest.split_first() {
        rest = tail;
        if !after_slash && *letter == b'"' {
            break;
        }
        after_slash = !after_slash && *letter == b'\\';
        if !after_slash {
            name.push(*letter)?;
        }
    }
    Ok((Shared::of(alloc, ByteText::from_vec(name))?, rest))
}

/// `#line L "FILE"`, at its `#`, and what comes behind its line.
#[tactic(auto, unfolding(lx_ccode::specs::Reading::mark_at))]
pub(crate) fn mark_at(alloc: Global, bytes: &[u8]) -> Result<(LineMark, &[u8]), Memory>
    ensures { IfOk result (λ mark. (mark.0 ≡ fitted_mark (mark_at bytes.now).0) × (mark.1.now ≡ (mark_at bytes.now).1)) }
{
    let number = skip(bytes, 6);
    let (file, rest) = file_at(alloc, skip(after_digits(number), 2))?;
    let mark = LineMark {
        line: short_at(number),
        file,
    };
    Ok((mark, skip(rest, 1)))
}

/// What comes behind the closing quote of a file's name.
fn behind_file(bytes: &[u8]) -> &[u8]
    ensures { result.now ≡ (file_at false bytes.now).1 }
{
    let mut after_slash = false;
    let mut rest = bytes;
    while let Some((letter, tail)) = rest.split_first() {
        rest = tail;
        if !after_slash && *letter == b'"' {
            break;
        }
        after_slash = !after_slash && *letter == b'\\';
    }
    rest
}

/// What comes behind the line of `#line L "FILE"`, at its `#`.
#[tactic(auto, unfolding(lx_ccode::specs::Reading::mark_at))]
pub(crate) fn behind_mark(bytes: &[u8]) -> &[u8]
    ensures { result.now ≡ (mark_at bytes.now).1 }
{
    skip(behind_file(skip(after_digits(skip(bytes, 6)), 2)), 1)
}

/// A `#line`, where one stands, and what comes behind it.
pub(crate) fn line_at(alloc: Global, bytes: &[u8]) -> Result<(Option<LineMark>, &[u8]), Memory>
    ensures { IfOk result (λ line. (line.0 ≡ fitted_line (line_at bytes.now).0) × (line.1.now ≡ (line_at bytes.now).1)) }
{
    if byte_at(bytes, 0) == b'#' {
        let (mark, rest) = mark_at(alloc, bytes)?;
        Ok((Some(mark), rest))
    } else {
        Ok((None, bytes))
    }
}

/// What comes behind `yyN_`.
pub(crate) fn block_at(bytes: &[u8]) -> &[u8]
    ensures { result.now ≡ block_at bytes.now }
{
    skip(after_digits(skip(bytes, 2)), 1)
}

/// The block of ` goto yyN_S;`.
#[tactic(auto, unfolding(lx_ccode::specs::Reading::goto_block))]
pub(crate) fn goto_block(bytes: &[u8]) -> u64
    ensures { result ≡ min (goto_block bytes.now) 18446744073709551615 }
{
    long_at(block_at(skip(bytes, 6)))
}

/// The block of `goto yyN_S;`.
pub(crate) fn case_goto(bytes: &[u8]) -> u64
    ensures { result ≡ min (case_goto bytes.now) 18446744073709551615 }
{
    long_at(block_at(skip(bytes, 5)))
}

/// What comes behind `goto yyN_S;` and its line feed.
pub(crate) fn case_tail(bytes: &[u8]) -> &[u8]
    ensures { result.now ≡ case_tail bytes.now }
{
    skip(after_digits(block_at(skip(bytes, 5))), 2)
}

/// What comes behind ` goto yyN_S;` and its line feed.
#[tactic(auto, unfolding(lx_ccode::specs::Reading::goto_tail))]
pub(crate) fn goto_tail(bytes: &[u8]) -> &[u8]
    ensures { result.now ≡ goto_tail bytes.now }
{
    skip(after_digits(block_at(skip(bytes, 6))), 2)
}
