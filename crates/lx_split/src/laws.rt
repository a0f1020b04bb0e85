//! What holds of the pieces of all sources: each law is the contract of a function with an empty body.
ghost use Rattle.std.specs.Prelude.{◌≡◌, ℕ, List, Ok, Err, All, IfSome, length};
ghost use Rattle.lx_base.specs.Message.{IsPlaced};
ghost use Rattle.lx_base.specs.Places.{file_start};
ghost use Rattle.lx_base.specs.declared.faults.Fault.{Fault};
ghost use Rattle.lx_base.specs.declared.settings.Options.{Options};
ghost use Rattle.lx_files.specs.declared.files.HeldFile.{HeldFile};
ghost use Rattle.lx_split.specs.declared.pieces.SourcePiece.{SourcePiece};
ghost use Rattle.lx_split.specs.Cuts.{AreCut, AreOpened, IsFaultOf};
ghost use Rattle.lx_split.specs.Expanded.{AreExpanded, HasNoOpening};
ghost use Rattle.lx_split.specs.Includes.{expansion};
ghost use Rattle.lx_split.specs.Pieces.{pieces_of};

/// The pieces of a source put together give the source, each block has the places of its opener and its end, and no mark
/// of emitted text stands in them.
pub fn pieces_are_the_source()
    ensures { (options : Options) (file : ℕ) (bytes : List ℕ) (pieces : List SourcePiece) →
        pieces_of options file bytes ≡ Ok pieces → AreCut (file_start file) bytes pieces }
{}

/// In the pieces of a source, no opener of a block begins in an outside text, also across its end; each block has its opener at
/// its front, and ends where its body does.
pub fn openers_begin_blocks()
    ensures { (options : Options) (file : ℕ) (bytes : List ℕ) (pieces : List SourcePiece) →
        pieces_of options file bytes ≡ Ok pieces → AreOpened options bytes pieces }
{}

/// The fault of a source is that of the first mark of emitted text in it, or else that of the first faulty opener, before
/// which all openers are those of pieces.
pub fn faults_stand_in_the_source()
    ensures { (options : Options) (file : ℕ) (bytes : List ℕ) (fault : Fault) →
        pieces_of options file bytes ≡ Err fault → IsFaultOf options (file_start file) bytes fault }
{}

/// The pieces of a source with its includes put in stand in the files that are met. No mark of emitted text stands in them
/// put together, no include is left, and there are no more of them than a source may have bytes.
pub fn pieces_with_includes_are_expanded()
    ensures { (options : Options) (seen : List HeldFile) (main : List ℕ) (pieces : List SourcePiece) →
        (expansion options seen main).found ≡ Ok pieces → AreExpanded (length (expansion options seen main).met.names) pieces }
{}

/// The fault of a source with its includes put in stands in one of the files that are met.
pub fn faults_stand_in_files_that_are_met()
    ensures { (options : Options) (seen : List HeldFile) (main : List ℕ) (fault : Fault) →
        (expansion options seen main).found ≡ Err fault → IsPlaced (expansion options seen main).met.names fault }
{}

/// No `/*!` stands in the name of a file that is met, where none stands in the name of the main file and in that of the folder
/// of the options.
pub fn no_opener_stands_in_names()
    ensures { (options : Options) (seen : List HeldFile) (main : List ℕ) → IfSome options.dir HasNoOpening → HasNoOpening main
        → All HasNoOpening (expansion options seen main).met.names }
{}
