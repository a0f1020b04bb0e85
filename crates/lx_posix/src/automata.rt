//! The automaton of a rule list under the POSIX order, state by state.
ghost use Rattle.std.specs.Prelude.{◌≡◌, [], ◌∷◌, IfOk, List, MatchResult, length};
ghost use Rattle.lx_base.specs.declared.settings.Enc.{Enc};
ghost use Rattle.lx_regex.specs.ClassLimits.{AllClassesFit};
ghost use Rattle.lx_regex.specs.Order.{posix};
ghost use Rattle.lx_regex.specs.Pattern.{Pattern, terms_of};
ghost use Rattle.lx_tnfa.specs.Tnfa.{IsTnfaOf};
ghost use Rattle.lx_tdfa.specs.Building.{IsBuilt};
ghost use Rattle.lx_tdfa.specs.Making.{StopsBy};
ghost use Rattle.lx_tdfa.specs.Promise.{IsAutoUnder};
ghost use Rattle.lx_posix.specs.Determining.{AreListed, AreStatesOf, Grows, IsSourceOf, TooManyUnder};
ghost use Rattle.lx_posix.specs.KeptKernels.{start_kernel};
ghost use Rattle.lx_posix.specs.PosixKernel.{HasTooManyPosixKernels};

use crate::kept::Kept;
use crate::search::LevelSearch;
use crate::states::{Buffers, Making};
use lx_auto::{Auto, State};
use lx_base::{Memory, Pos, Sequence, Stop};
use lx_encode::Residual;
use lx_tdfa::{Kernels, Source};
use lx_tnfa::{Place, Search, Tnfa, Visited};
use std::alloc::Global;

/// The kernel of the empty word: the place where no rule has begun.
fn start(alloc: Global) -> Result<Kernels<Kept>, Memory>
    ensures { IfOk result (λ kernels. kernels ≡ start_kernel ∷ []) }
{
    let mut kernel = Vec::new(alloc);
    kernel.push(Kept {
        place: Place {
            part: 0,
            rest: Residual(0),
        },
        depth: 0,
        number: 0,
    })?;
    Kernels::of(alloc, kernel)
}

/// A state for each kernel, in the order in which the kernels are found.
fn states(making: &Making<'_>, kernels: &mut Kernels<Kept>) -> Result<Sequence<State>, Stop>
    requires source { IsSourceOf making.now.source }
    requires listed { AreListed making.now.source.t.now kernels.old }
    ensures { MatchResult result (λ states. Grows making.now.source.t.now kernels.old kernels.new × (length states ≡ length kernels.new)
        × AreStatesOf making.now.source.t.now kernels.new states)
        (StopsBy making.now.source.at (TooManyUnder making.now.source.t.now)) }
{
    let alloc = making.source.alloc;
    let mut buffers = Buffers {
        levels: LevelSearch::new(alloc),
        ends: Search::new(alloc),
        seen: Visited::new(alloc),
    };
    let mut states = Sequence::new(alloc);
    let mut number = 0;
    while number < kernels.len() {
        states.push(making.state(kernels, &mut buffers, number)?)?;
        number += 1;
    }
    Ok(states)
}

/// The automaton whose run tells after each word whether the word begins a match, and what is matched: the first rule that takes the
/// word, with the values of the rule's best tree under the POSIX order, which a later fallback reads too.
///
/// Its states are kernels with their numbers (Borsotti and Trofimovich 2021). Where the rules have more than 4,096 of these, or more
/// than 1,048,576 places in them, it answers `TooManyStates` with this place.
pub fn determinize_posix(alloc: Global, t: &Tnfa, at: Pos) -> Result<Auto, Stop>
    requires { IsBuilt t.now }
    ensures { (enc : Enc) (patterns : List Pattern) → IsTnfaOf enc patterns t.now → AllClassesFit enc (terms_of patterns)
        → MatchResult result (λ auto. IsAutoUnder posix enc patterns auto × ¬ HasTooManyPosixKernels enc (terms_of patterns))
        (StopsBy at (HasTooManyPosixKernels enc (terms_of patterns))) }
{
    let making = Making {
        source: Source {
            alloc,
            t,
            width: t.most_tags() as u32,
            at,
        },
    };
    let mut kernels = start(alloc)?;
    let states = states(&making, &mut kernels)?;
    let regs = (kernels.most() as u32 + 1) * making.source.width;
    Ok(Auto {
        states,
        regs,
        mregs: regs + 1,
    })
}
