//! What holds of the faults and the outputs of all sources: each law is the contract of a function with an empty body.
ghost use Rattle.std.specs.Prelude.{◌≡◌, ◌≤◌, ℕ, true, All, List, [], ◌∷◌, ◌++◌, Option, Some, IfSome};
ghost use Rattle.lx_base.specs.Message.{IsPlaced};
ghost use Rattle.lx_base.specs.declared.faults.Fault.{Fault};
ghost use Rattle.lx_base.specs.declared.settings.Options.{Options};
ghost use Rattle.lx_ccode.specs.declared.piece.LineMark.{LineMark};
ghost use Rattle.lx_ccode.specs.declared.piece.Piece.{Piece};
ghost use Rattle.lx_creader.specs.Cut.{AreCut, HasNoOpener, parts_text};
ghost use Rattle.lx_files.specs.Held.{bytes_of};
ghost use Rattle.lx_files.specs.declared.files.HeldFile.{HeldFile};
ghost use Rattle.lx_rules.specs.declared.resolved.Resolved.{Resolved};
ghost use Rattle.lx_run.specs.MatchRuns.{HoldsWhatItReads, IsOfRun, MayStart};
ghost use Rattle.lx_run.specs.Readings.{Reading};
ghost use Rattle.lx_run.specs.Texts.{Between, beginning};
ghost use Rattle.lx_split.specs.Includes.{expansion};
ghost use Rattle.lx_split.specs.Openers.{from_opener};
ghost use Rattle.lx_compile.specs.Cut.{IsFound, output_parts};
ghost use Rattle.lx_compile.specs.FirstFault.{AreMadeOf, IsFirstFault};
ghost use Rattle.lx_compile.specs.Made.{IsScannerPiece, Setting};
ghost use Rattle.lx_compile.specs.Options.{names_output, out_name};
ghost use Rattle.lx_compile.specs.Output.{IsGiven, IsOutput, last_names};
ghost use Rattle.lx_compile.specs.Warnings.{IsPlacedWarning, quiet_made, quiet_options, told_warnings};
ghost use Rattle.lx_compile.specs.declared.made.Made.{Made};

/// At most one fault is the first one of a source of which this is made, and none is where the source has none.
pub fn sources_have_one_first_fault()
    ensures { (options : Options) (seen : List HeldFile) (main : List ℕ) (made : List Made) (fault other : Option Fault) →
        IsFirstFault options seen main made fault → IsFirstFault options seen main made other → fault ≡ other }
{}

/// A source of which this is made has a first fault, or it has none: that neither holds cannot be.
pub fn sources_have_a_first_fault_or_none()
    ensures { (options : Options) (seen : List HeldFile) (main : List ℕ) (made : List Made) → AreMadeOf options seen main made →
        ((fault : Option Fault) → IsFirstFault options seen main made fault → ⊥) → ⊥ }
{}

/// Each fault of a source stands in a file that was met: the source itself is the first of these, or an included one.
pub fn faults_stand_in_files_that_are_met()
    ensures { (options : Options) (seen : List HeldFile) (main : List ℕ) (made : List Made) (fault : Fault) →
        IsFirstFault options seen main made (Some fault) → IsPlaced (expansion options seen main).met.names fault }
{}

/// Each warning that is told of a source stands in a file that was met: the source itself is the first of these, or an included one.
pub fn warnings_stand_in_files_that_are_met()
    ensures { (options : Options) (seen : List HeldFile) (main output : List ℕ) (made : List Made) → IsOutput options seen main made output →
        All (IsPlacedWarning (expansion options seen main).met.names) (told_warnings options made) }
{}

/// Warnings change nothing that is given: what a compilation may give where they are asked for, it may give without them, where the same is
/// made but for its warnings.
pub fn warnings_change_nothing_given()
    ensures { (options : Options) (seen : List HeldFile) (main text : List ℕ) (made : List Made) → IsGiven options seen main made text →
        IsGiven (quiet_options options) seen main (quiet_made made) text }
{}

/// A source in which no block opens has itself as output, and no other one.
pub fn outside_text_stays()
    ensures { (options : Options) (seen : List HeldFile) (main source output : List ℕ) (made : List Made) →
        bytes_of seen main ≡ Some source → from_opener options source ≡ [] → IsOutput options seen main made output → output ≡ source }
{}

/// The output of a source is cut at its marks into the source's texts outside of blocks and one piece for each block, in order,
/// where no begin mark stands but at the front of a piece. So what is read back at a mark is what was emitted there: by the
/// laws of `lx_creader` there is no other cut, and the first begin mark that is asked for is that of the first such piece. The names of the
/// source and of the folder for includes must hold no `/*!`, as words of a command line do not, and so must that of the output where its
/// own text names it.
pub fn outputs_are_cut_as_their_sources()
    ensures { (options : Options) (seen : List HeldFile) (main output : List ℕ) (made : List Made) → HasNoOpener main →
        IfSome options.dir HasNoOpener → (names_output options ≡ true → HasNoOpener (out_name options)) →
        (is : IsOutput options seen main made output) →
        AreCut (output_parts (last_names is) (out_name options) made 1 1 made)
        × (output ≡ parts_text (output_parts (last_names is) (out_name options) made 1 1 made)) }
{}

/// The piece of each block is found in an output by its number: its text stands where the first begin mark of that number does.
/// Without a number the piece of the first block with a scanner is found.
pub fn emitted_pieces_are_found()
    ensures { (options : Options) (seen : List HeldFile) (main output : List ℕ) (made : List Made) → HasNoOpener main →
        IfSome options.dir HasNoOpener → (names_output options ≡ true → HasNoOpener (out_name options)) →
        (is : IsOutput options seen main made output) → (earlier : List Made) (one : Made) (more : List Made) → made ≡ earlier ++ one ∷ more →
        IsFound (last_names is) (out_name options) made earlier one output }
{}

/// Each match of a run of an emitted piece may start: a piece that reads units, and never asks for a refill, has the whole stream in its
/// window.
pub fn matches_of_emitted_pieces_may_start()
    ensures whole { (setting : Setting) (number first_state : ℕ) (line : Option LineMark) (resolved : Resolved) (piece : Piece) (checks : List (List ℕ)) →
        IsScannerPiece setting number first_state line resolved piece checks → HoldsWhatItReads piece }
    ensures start { (setting : Setting) (number first_state : ℕ) (line : Option LineMark) (resolved : Resolved) (piece : Piece) (checks : List (List ℕ)) →
        IsScannerPiece setting number first_state line resolved piece checks → (reading : Reading) (between : Between) → 1 ≤ reading.step →
        IsOfRun reading (beginning piece reading) between → MayStart piece reading between.start between.limit between.leaving }
{}
