//! Openers that are not closed in their line, of which no line is searched twice.
ghost use Rattle.std.specs.Prelude.{ℕ, List, ◌^◌, ◌≡◌, ◌≢◌, ◌<◌, ◌≤◌, ◌∷◌, false, length, unwrap_or};
ghost use Rattle.lx_token.specs.Braces.{AreKnown, AreUnclosed, after_literal};

use crate::blanks::after_line;
use crate::braces::after_literal;

/// How much is left behind the first opener in a line that is known to be not closed there, for each kind of openers: each
/// later one of the line is not closed either, so no line is searched again for each of them.
#[derive(Clone, Copy, PartialEq, Eq)]
pub struct Unclosed {
    /// In bytes, for `"`.
    pub strings: usize,
    /// In bytes, for `'`.
    pub characters: usize,
    /// In bytes, for `[`, which `]` closes.
    pub classes: usize,
}

impl Unclosed {
    /// What is kept where nothing is known.
    pub fn new() -> Self
        ensures { (text : List ℕ) → length text < 2 ^ 63 → AreKnown result text }
    {
        Unclosed {
            strings: usize::MAX,
            characters: usize::MAX,
            classes: usize::MAX,
        }
    }
}

/// What follows the string or the class behind its opener, or the text itself where it is not closed in its line.
///
/// An opener behind which `unclosed` bytes or more are left is known to be not closed.
pub fn after_quote<'a>(text: &'a [u8], opener: u8, close: u8, unclosed: &mut usize) -> &'a [u8]
    requires line { opener ≢ 10 }
    requires backslash { opener ≢ 92 }
    requires known { AreUnclosed opener close unclosed.old (opener ∷ text.now) }
    ensures rest { result.now ≡ unwrap_or (after_literal close false text.now) text.now }
    ensures shorter { length result.now ≤ length text.now }
    ensures known { AreUnclosed opener close unclosed.new result.now }
{
    if text.len() >= *unclosed {
        return text;
    }
    match after_literal(text, close) {
        Some(rest) => rest,
        None => {
            *unclosed = after_line(text).len();
            text
        }
    }
}
