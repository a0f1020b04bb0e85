//! Automata of rule lists, in UTF-8.
ghost use Rattle.std.specs.Prelude.{◌≡◌, IfOk};
ghost use Rattle.lx_base.specs.declared.settings.Enc.TheVariants.{Utf8};
ghost use Rattle.lx_encode.specs.Graph.{numbered};
ghost use Rattle.lx_regex.specs.ClassLimits.{AllClassesFit};
ghost use Rattle.lx_regex.specs.Limits.{IsWithinLimits};
ghost use Rattle.lx_regex.specs.Pattern.{patterns_of, terms_of};
ghost use Rattle.lx_tdfa.specs.Building.{IsBuilt};
ghost use Rattle.lx_tnfa.specs.Tnfa.{IsPlace};

use lx_auto::Auto;
use lx_base::{Enc, Memory, Pos, Stop};
use lx_regex::RuleSet;
use lx_tdfa::determinize;
use lx_tnfa::Tnfa;
use std::alloc::Global;

/// The place that stands in a refusal.
pub(super) fn place() -> Pos {
    Pos {
        file: 7,
        line: 8,
        col: 9,
    }
}

/// The tagged automaton of rules.
pub(super) fn tagged(alloc: Global, set: &RuleSet) -> Result<Tnfa, Memory>
    requires limits { IsWithinLimits set.now.rules }
    requires classes { AllClassesFit Utf8 (terms_of (patterns_of set.now.rules)) }
    ensures built { IfOk result IsBuilt }
    ensures start { IfOk result (λ t. IsPlace t (record { part = 0; rest = numbered 0 })) }
{
    Tnfa::of(alloc, set, Enc::Utf8)
}

/// The tagged automaton of rules, and then the automaton with registers.
pub(super) fn auto_of(alloc: Global, set: &RuleSet) -> Result<Auto, Stop>
    requires limits { IsWithinLimits set.now.rules }
    requires classes { AllClassesFit Utf8 (terms_of (patterns_of set.now.rules)) }
{
    let t = tagged(alloc, set)?;
    determinize(alloc, &t, place())
}
