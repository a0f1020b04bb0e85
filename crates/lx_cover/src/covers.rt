//! The covering words of a scanner's rules.
ghost use Rattle.std.specs.Prelude.{◌≤◌, List, MatchResult, length, sum_by};
ghost use Rattle.lx_base.specs.declared.settings.Enc.{Enc};
ghost use Rattle.lx_cover.specs.Cover.{IsCover, StopsCover};
ghost use Rattle.lx_cover.specs.declared.covering.TheConstants.{COVER_LIMIT};
ghost use Rattle.lx_regex.specs.ClassLimits.{AllClassesFit};
ghost use Rattle.lx_regex.specs.Pattern.{Pattern, terms_of};
ghost use Rattle.lx_tdfa.specs.Building.{IsBuilt};
ghost use Rattle.lx_tnfa.specs.Tnfa.{IsTnfaOf};

use crate::covering::{Buffers, CoverStop, Covering};
use crate::words::Words;
use lx_tnfa::{Search, Tnfa, Visited};
use std::alloc::Global;

/// The covering words of an automaton's rules.
pub fn cover(alloc: Global, t: &Tnfa) -> Result<Words, CoverStop>
    requires { IsBuilt t.now }
    ensures { (enc : Enc) (patterns : List Pattern) → IsTnfaOf enc patterns t.now → AllClassesFit enc (terms_of patterns)
        → MatchResult result (λ words. IsCover enc (terms_of patterns) words × (sum_by length words ≤ COVER_LIMIT))
        (StopsCover enc (terms_of patterns)) }
{
    let mut buffers = Buffers {
        search: Search::new(alloc),
        seen: Visited::new(alloc),
    };
    let mut covering = Covering::new(alloc)?;
    let mut number = 0;
    while number < covering.kernels.len() {
        covering.pass(t, &mut buffers, number)?;
        number += 1;
    }
    Ok(covering.words)
}
