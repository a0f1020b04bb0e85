//! Counts the lines of a text, so that a `#line` can tell where in its file a text stands.
ghost use Rattle.std.specs.Prelude.{◌≡◌, ◌+◌, min, IfSome};
ghost use Rattle.lx_ccode.specs.Text.{feeds, line_after, line_behind, line_of, mark_of};
ghost use Rattle.lx_ccode.specs.Wording.{file_of};

use crate::piece::LineMark;
use lx_base::Memory;
use lx_shared::SharedText;
use std::alloc::Global;

/// How many lines end in the text.
fn feeds(text: &[u8]) -> usize
    ensures { result ≡ feeds text.now }
{
    let mut count = 0;
    for letter in text {
        if *letter == b'\n' {
            count += 1;
        }
    }
    count
}

/// A number, or the greatest of 32 bits where it is greater.
fn shortened(number: usize) -> u32
    ensures { result ≡ min number 4294967295 }
{
    if number < 4_294_967_295 {
        number as u32
    } else {
        4_294_967_295
    }
}

/// The line where the next text begins, where this text begins in a line: lines are counted from 1, up to 4,294,967,295.
pub fn line_after(line: u32, text: &[u8]) -> u32
    ensures { result ≡ line_after line text.now }
{
    line.saturating_add(shortened(feeds(text)))
}

/// The line where the next text begins, where this text begins in a line; nothing where lines are not counted.
pub(crate) fn line_behind(line: Option<u32>, text: &[u8]) -> Option<u32>
    ensures { result ≡ line_behind line text.now }
{
    match line {
        None => None,
        Some(line) => Some(line_after(line, text)),
    }
}

/// The line of a mark, where there is one.
pub(crate) fn line_of(mark: &Option<LineMark>) -> Option<u32>
    ensures { result ≡ line_of mark.now }
{
    match mark {
        None => None,
        Some(mark) => Some(mark.line),
    }
}

/// The file's name of a mark, or the empty one where there is none.
pub(crate) fn file_of(mark: &Option<LineMark>) -> &[u8]
    ensures { result.now ≡ file_of mark.now }
{
    match mark {
        None => b"",
        Some(mark) => mark.file.as_slice(),
    }
}
