//! The marks of emitted text, which no source may have.
ghost use Rattle.std.specs.Prelude.{◌≡◌, ◌∷◌, ◌+◌, ◌≤◌, ◌<◌, ◌^◌, length, option_map};
ghost use Rattle.lx_split.specs.Marks.{begins_mark, mark_place};
ghost use Rattle.lx_split.specs.Searches.{from_first};

use crate::searches::from_opening;
use lx_base::{Pos, place_after};

/// Whether the text and a `/` before it begin with a mark.
fn completes_mark(text: &[u8]) -> bool
    ensures { result ≡ begins_mark (47 ∷ text.now) }
{
    text.starts_with(b"*!begin:re2c")
        | text.starts_with(b"*!end:re2c")
        | text.starts_with(b"*!code:re2c")
        | text.starts_with(b"*!names:re2c")
        | text.starts_with(b"*!head:re2c")
}

fn begins_mark(text: &[u8]) -> bool
    ensures { result ≡ begins_mark text.now }
{
    match text.split_first() {
        Some((b'/', tail)) => completes_mark(tail),
        _ => false,
    }
}

/// What is left of the text from its first mark on.
fn from_mark(text: &[u8]) -> &[u8]
    ensures rest { result.now ≡ from_first begins_mark text.now }
    ensures shorter { length result.now ≤ length text.now }
{
    let mut rest = from_opening(text);
    while let Some((_, tail)) = rest.split_first() {
        if begins_mark(rest) {
            break;
        }
        rest = from_opening(tail);
    }
    rest
}

/// The place of the first mark of a source that begins at `start`.
pub(crate) fn mark_place(bytes: &[u8], start: Pos) -> Option<Pos>
    requires line { start.line + length bytes.now < 2 ^ 32 }
    requires col { start.col + length bytes.now < 2 ^ 32 }
    ensures { result ≡ mark_place start bytes.now }
{
    if completes_mark(bytes) {
        return Some(start);
    }
    let rest = from_mark(bytes);
    if rest.is_empty() {
        None
    } else {
        Some(place_after(start, &bytes[..bytes.len() - rest.len()]))
    }
}
