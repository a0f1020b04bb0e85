//! Words, and lists of words.
ghost use Rattle.std.specs.Prelude.{◌≡◌, [], ◌∷◌, ◌++◌, IfOk};

use lx_base::{Memory, Sequence, Word};
use std::alloc::Global;

/// Words in a list.
pub type Words = Sequence<Word>;

/// A word with one more unit.
pub(crate) fn word_on(alloc: Global, front: &[u32], unit: u32) -> Result<Word, Memory>
    ensures { IfOk result (λ word. word ≡ front.now ++ unit ∷ []) }
{
    let mut word = Word::copy_of(alloc, front)?;
    word.push(unit)?;
    Ok(word)
}
