//! The first word on which an automaton stops before it accepts.
ghost use Rattle.std.specs.Prelude.{ℕ, ◌<◌, List, IfOk, MatchOption, length};
ghost use Rattle.lx_auto.specs.Automaton.{IsAuto};
ghost use Rattle.lx_search.specs.Found.{found_at};
ghost use Rattle.lx_warn.specs.Stops.{HaveNoGap, IsFirstGap, IsFirstStopping, IsStopping};

use crate::gaps::least_gap;
use lx_auto::{Auto, edges_of};
use lx_base::{Enc, Memory, Word};
use lx_search::{Found, Scope, accepts, searched, word_to};
use std::alloc::Global;

/// The first place whose state has no edge on some unit of the encoding, and the least such unit.
fn first_gap(auto: &Auto, enc: Enc, found: &[Found]) -> Option<(usize, u32)>
    requires formed { IsAuto auto.now }
    requires within { (place : ℕ) → place < length found.now → (found_at found.now place).state < length auto.now.states }
    ensures { MatchOption result (HaveNoGap enc auto.now found.now (length found.now))
        (λ gap. IsFirstGap enc auto.now found.now gap.0 gap.1) }
{
    for place in 0..found.len() {
        if let Some(unit) = least_gap(edges_of(auto, found[place].state), enc) {
            return Some((place, unit));
        }
    }
    None
}

/// The first word on which the automaton stops before it accepts, if there is one.
pub(crate) fn first_stopping(alloc: Global, auto: &Auto, enc: Enc) -> Result<Option<Word>, Memory>
    requires { IsAuto auto.now }
    ensures { IfOk result (λ found. MatchOption found ((word : List ℕ) → IsStopping enc auto.now word → ⊥)
        (IsFirstStopping enc auto.now)) }
{
    if accepts(auto, 0) {
        return Ok(None);
    }
    let found = searched(alloc, auto, Scope::Quiet)?;
    match first_gap(auto, enc, &found) {
        None => Ok(None),
        Some((place, unit)) => {
            let mut word = word_to(alloc, &found, place)?;
            word.push(unit)?;
            Ok(Some(word))
        }
    }
}
