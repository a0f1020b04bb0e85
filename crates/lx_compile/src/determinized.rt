//! The automaton of a scanner's rules, by the trees that are meant.
ghost use Rattle.std.specs.Prelude.{List, MatchResult};
ghost use Rattle.lx_regex.specs.ClassLimits.{AllClassesFit};
ghost use Rattle.lx_regex.specs.Pattern.{Pattern, terms_of};
ghost use Rattle.lx_tdfa.specs.Building.{IsBuilt};
ghost use Rattle.lx_tdfa.specs.Making.{StopsBy};
ghost use Rattle.lx_tdfa.specs.Promise.{IsAutoUnder};
ghost use Rattle.lx_tnfa.specs.Tnfa.{IsTnfaOf};
ghost use Rattle.lx_compile.specs.Options.{policy_of};
ghost use Rattle.lx_compile.specs.ScannerFaults.{AreTooManyFor};

use lx_auto::Auto;
use lx_base::{Options, Pos, Stop};
use lx_posix::determinize_posix;
use lx_tdfa::determinize;
use lx_tnfa::Tnfa;
use std::alloc::Global;

/// The automaton of rules, by the trees that are meant; or the fault that they have too many kernels, for a block whose opener stands at
/// `at`.
pub(crate) fn determinized(
    alloc: Global,
    options: &Options,
    t: &Tnfa,
    at: Pos,
) -> Result<Auto, Stop>
    requires { IsBuilt t.now }
    ensures { (patterns : List Pattern) → IsTnfaOf options.now.enc patterns t.now → AllClassesFit options.now.enc (terms_of patterns)
        → MatchResult result
        (λ auto. IsAutoUnder (policy_of options.now) options.now.enc patterns auto × ¬ AreTooManyFor options.now (terms_of patterns))
        (StopsBy at (AreTooManyFor options.now (terms_of patterns))) }
{
    if options.posix {
        determinize_posix(alloc, t, at)
    } else {
        determinize(alloc, t, at)
    }
}
