//! Searches of a text.
ghost use Rattle.std.specs.Prelude.{◌≡◌, ◌≤◌, length, codes};
ghost use Rattle.lx_base.specs.Letters.{begins_with};
ghost use Rattle.lx_split.specs.Searches.{from_first};

use memchr::memmem;

/// What is left of the text from its first `/*!` on.
pub(crate) fn from_opening(text: &[u8]) -> &[u8]
    ensures rest { result.now ≡ from_first (begins_with (codes "/*!")) text.now }
    ensures shorter { length result.now ≤ length text.now }
{
    match memmem::find(text, b"/*!") {
        Some(index) => &text[index..],
        None => &text[text.len()..],
    }
}
