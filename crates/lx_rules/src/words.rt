//! Texts among others.
ghost use Rattle.std.specs.Prelude.{◌≡◌, map};
ghost use Rattle.lx_exprs.specs.Checks.{is_among};

/// Whether a text is one of the words.
pub(crate) fn is_among(text: &[u8], words: &[&[u8]]) -> bool
    ensures { result ≡ is_among text.now (map (λ word. word.now) words.now) }
{
    for word in words {
        if text == *word {
            return true;
        }
    }
    false
}
