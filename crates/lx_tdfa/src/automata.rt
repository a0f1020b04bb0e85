//! The automaton of a rule list, state by state.
ghost use Rattle.std.specs.Prelude.{◌≡◌, [], ◌∷◌, IfOk, List, MatchResult, length};
ghost use Rattle.lx_regex.specs.ClassLimits.{AllClassesFit};
ghost use Rattle.lx_base.specs.declared.settings.Enc.{Enc};
ghost use Rattle.lx_regex.specs.Kernel.{HasTooManyKernels};
ghost use Rattle.lx_regex.specs.Pattern.{Pattern, terms_of};
ghost use Rattle.lx_tnfa.specs.Tnfa.{IsTnfaOf};
ghost use Rattle.lx_tdfa.specs.Building.{AreListed, AreStatesOf, Grows, IsBuilt, IsSourceOfRules, TooManyFound};
ghost use Rattle.lx_tdfa.specs.KernelStates.{HasKernelStates};
ghost use Rattle.lx_tdfa.specs.Making.{StopsBy};
ghost use Rattle.lx_tdfa.specs.Promise.{IsAutoOf};
ghost use Rattle.lx_tdfa.specs.Steps.{start_place};

use crate::kernels::Kernels;
use crate::states::{Buffers, Source};
use lx_auto::{Auto, State};
use lx_base::{Memory, Pos, Sequence, Stop};
use lx_encode::Residual;
use lx_tnfa::{Place, Search, Tnfa, Visited};
use std::alloc::Global;

/// The list of the place where no rule has begun.
fn start(alloc: Global) -> Result<Kernels<Place>, Memory>
    ensures { IfOk result (λ kernels. kernels ≡ (start_place ∷ []) ∷ []) }
{
    let mut places = Vec::new(alloc);
    places.push(Place {
        part: 0,
        rest: Residual(0),
    })?;
    Kernels::of(alloc, places)
}

/// A state for each list of places, in the order in which the lists are found.
fn states(source: &Source<'_>, kernels: &mut Kernels<Place>) -> Result<Sequence<State>, Stop>
    requires of_rules { IsSourceOfRules source.now }
    requires listed { AreListed source.now.t.now kernels.old }
    ensures { MatchResult result (λ states. Grows source.now.t.now kernels.old kernels.new × (length states ≡ length kernels.new)
        × AreStatesOf source.now.t.now kernels.new states)
        (StopsBy source.now.at (TooManyFound source.now.t.now)) }
{
    let mut buffers = Buffers {
        search: Search::new(source.alloc),
        seen: Visited::new(source.alloc),
    };
    let mut states = Sequence::new(source.alloc);
    let mut number = 0;
    while number < kernels.len() {
        states.push(source.state(kernels, &mut buffers, number)?)?;
        number += 1;
    }
    Ok(states)
}

/// The automaton whose run tells after each word whether the word begins a match, and what is matched: the first rule that takes the
/// word, with the values of the rule's best tree, which a later fallback reads too. Its states are the kernels of words.
///
/// Registers are those of lookahead TDFA (Trofimovich 2017), one for each tag at each place of a kernel. Where the rules have more
/// than 4,096 kernels, or more than 1,048,576 places in them, it answers `TooManyStates` with this place.
pub fn determinize(alloc: Global, t: &Tnfa, at: Pos) -> Result<Auto, Stop>
    requires { IsBuilt t.now }
    ensures automaton { (enc : Enc) (patterns : List Pattern) → IsTnfaOf enc patterns t.now → AllClassesFit enc (terms_of patterns)
        → MatchResult result (λ auto. IsAutoOf enc patterns auto × ¬ HasTooManyKernels enc (terms_of patterns))
        (StopsBy at (HasTooManyKernels enc (terms_of patterns))) }
    ensures kernels { (enc : Enc) (patterns : List Pattern) → IsTnfaOf enc patterns t.now → AllClassesFit enc (terms_of patterns)
        → IfOk result (λ auto. HasKernelStates enc patterns auto) }
{
    let source = Source {
        alloc,
        t,
        width: t.most_tags() as u32,
        at,
    };
    let mut kernels = start(alloc)?;
    let states = states(&source, &mut kernels)?;
    let regs = (kernels.most() as u32 + 1) * source.width;
    Ok(Auto {
        states,
        regs,
        mregs: regs + 1,
    })
}
