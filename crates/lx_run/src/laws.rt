//! What holds of all matches over a window: each law is the contract of a function with an empty body.
ghost use Rattle.std.specs.Prelude.{◌≡◌, ◌≤◌, ℕ, Bool, false, true, List, None};
ghost use Rattle.std.specs.List.{list_any};
ghost use Rattle.lx_ccode.specs.declared.piece.Piece.{Piece};
ghost use Rattle.lx_ccode.specs.Statements.{all_statements, is_refill};
ghost use Rattle.lx_ccode.specs.Validity.{IsValid};
ghost use Rattle.lx_step.specs.Calls.{IsEnd};
ghost use Rattle.lx_run.specs.MatchRuns.{EndsAsRun, HoldsWhatItReads, IsOfRun, MayStart};
ghost use Rattle.lx_run.specs.Matches.{match_of};
ghost use Rattle.lx_run.specs.Readings.{Reading};
ghost use Rattle.lx_run.specs.Streams.{holds_all};
ghost use Rattle.lx_run.specs.Texts.{Between, beginning, match_at};

/// A match over a window that ends in no full window ends as the piece's run over the whole stream does, under a legal schedule: one that
/// begins with the units which the window had.
pub fn matches_end_as_runs()
    ensures { (piece : Piece) (reading : Reading) (start : ℕ) (cond : List ℕ) (limit : ℕ) (leaving : Bool) → IsValid piece → MayStart piece reading start limit leaving → IsEnd (match_of piece reading start cond limit leaving).told → EndsAsRun piece reading start cond limit (match_of piece reading start cond limit leaving) }
{}

/// Each match of a run may start, and one that ends in no full window ends as the piece's run over the whole stream does. A piece that reads
/// units and never asks for a refill is to have the whole stream in its window; each such piece without a head has.
pub fn matches_of_runs_end_as_runs()
    ensures start { (piece : Piece) (reading : Reading) (between : Between) → 1 ≤ reading.step → HoldsWhatItReads piece → IsOfRun reading (beginning piece reading) between → MayStart piece reading between.start between.limit between.leaving }
    ensures run { (piece : Piece) (reading : Reading) (between : Between) → IsValid piece → 1 ≤ reading.step → HoldsWhatItReads piece → IsOfRun reading (beginning piece reading) between → IsEnd (match_at reading between).told → EndsAsRun piece reading between.start between.held.cond between.limit (match_at reading between) }
    ensures headless { (piece : Piece) → piece.head ≡ None → list_any is_refill (all_statements piece.blocks) ≡ false → holds_all piece ≡ true }
{}
