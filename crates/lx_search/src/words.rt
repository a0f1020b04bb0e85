//! The words of what a search has found.
ghost use Rattle.std.specs.Prelude.{◌≡◌, ℕ, ◌<◌, Option, IfOk, length};
ghost use Rattle.lx_search.specs.Found.{trace_of};
ghost use Rattle.lx_tdfa.specs.Searches.{IsTrace, word_at};

use crate::search::Found;
use lx_base::{Memory, Word};
use std::alloc::Global;

/// The word of a place.
pub fn word_to(alloc: Global, found: &[Found], place: usize) -> Result<Word, Memory>
    requires traced { (step : ℕ → ℕ → Option ℕ) × IsTrace step (trace_of found.now) }
    requires within { place < length found.now }
    ensures { IfOk result (λ word. word ≡ word_at (trace_of found.now) place) }
{
    let mut units = Vec::new(alloc);
    let mut at = place;
    while at > 0 {
        units.push(found[at].unit)?;
        at = found[at].parent as usize;
    }
    units.reverse();
    Ok(Word::from_vec(units))
}
