//! What holds of all runs: each law is the contract of a function with an empty body.
ghost use Rattle.std.specs.Prelude.{◌≡◌, ℕ, false, List, Option};
ghost use Rattle.lx_base.specs.declared.faults.Fault.{Fault};
ghost use Rattle.lx_compile.specs.declared.made.Made.{Made};
ghost use Rattle.lx_files.specs.declared.files.HeldFile.{HeldFile};
ghost use Rattle.lx_compile.specs.Options.{tells_warnings};
ghost use Rattle.lx_top.specs.Endings.{EndsSo};
ghost use Rattle.lx_top.specs.FirstFault.{AreMadeBy, IsFirstFault};
ghost use Rattle.lx_top.specs.Jobs.{options_for};
ghost use Rattle.lx_top.specs.Outside.{Outside};
ghost use Rattle.lx_top.specs.declared.endings.Ending.TheVariants as Ending;

/// At most one fault is the first one of words and files, and none is where they have none, where this is made of the source.
pub fn runs_have_one_first_fault()
    ensures { (words : List (List ℕ)) (seen : List HeldFile) (made : List Made) (fault other : Option Fault) →
        IsFirstFault words seen made fault → IsFirstFault words seen made other → fault ≡ other }
{}

/// Words and files have a first fault, or they have none, where this is made of the source: that neither holds cannot be.
pub fn runs_have_a_first_fault_or_none()
    ensures { (words : List (List ℕ)) (seen : List HeldFile) (made : List Made) → AreMadeBy words seen made →
        ((fault : Option Fault) → IsFirstFault words seen made fault → ⊥) → ⊥ }
{}

/// A run that is done and whose words ask for no warnings gives nothing to the standard error.
pub fn runs_tell_no_warnings_unasked()
    ensures { (words : List (List ℕ)) (before after : Outside) → tells_warnings (options_for words) ≡ false →
        EndsSo words before after Ending.Done → after.err.given ≡ before.err.given }
{}
