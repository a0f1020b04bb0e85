//! What holds of all matches: each law is the contract of a function with an empty body.
ghost use Rattle.std.specs.Prelude.{◌≡◌, ℕ, Bool, false, true, List, length, Option, Some, None};
ghost use Rattle.std.specs.List.{AllByRecursion, last_or, list_any};
ghost use Rattle.lx_ccode.specs.declared.piece.Stmt.{Stmt};
ghost use Rattle.lx_ccode.specs.Machine.{Answer, Value};
ghost use Rattle.lx_ccode.specs.Runs.{run_of};
ghost use Rattle.lx_ccode.specs.Schedules.{IsLegal, ReadsUnasked};
ghost use Rattle.lx_ccode.specs.Statements.{all_statements};
ghost use Rattle.lx_ccode.specs.Validity.{IsValid};
ghost use Rattle.lx_window.specs.Windows.{IsFedBy, IsFormed};
ghost use Rattle.lx_step.specs.declared.answers.Outcome.{Outcome};
ghost use Rattle.lx_step.specs.Assigned.{code_from};
ghost use Rattle.lx_step.specs.Calls.{AreCalls, EndsAsRun, LeavesOpen, schedule_of};
ghost use Rattle.lx_step.specs.Entries.{entry_point};
ghost use Rattle.lx_step.specs.Feeds.{Feed};
ghost use Rattle.lx_step.specs.Given.{Given, after_values, histories_given, history_in, offset_in, offsets_given};
ghost use Rattle.lx_step.specs.Held.{Held};
ghost use Rattle.lx_step.specs.Points.{Point};
ghost use Rattle.lx_step.specs.Reached.{EntersBlock, Reaches};
ghost use Rattle.lx_step.specs.Saved.{IsAssignmentAt};

/// After values were given, a tag has the last one that was given to it, or that of before where there was
/// none; and no tag comes to have values that had none.
pub fn tags_have_the_last_value()
    ensures offset { (names : List (List ℕ)) (values : List Value) (given : Given) (tag : List ℕ) (before : Option ℕ) → offset_in names given tag ≡ Some before → offset_in names (after_values names values given) tag ≡ last_or (Some before) (offsets_given tag values) }
    ensures no_offset { (names : List (List ℕ)) (values : List Value) (given : Given) (tag : List ℕ) → offset_in names given tag ≡ None → offset_in names (after_values names values given) tag ≡ None }
    ensures history { (names : List (List ℕ)) (values : List Value) (given : Given) (tag : List ℕ) (before : List (Option ℕ)) → history_in names given tag ≡ Some before → history_in names (after_values names values given) tag ≡ last_or (Some before) (histories_given tag values) }
    ensures no_history { (names : List (List ℕ)) (values : List Value) (given : Given) (tag : List ℕ) → history_in names given tag ≡ None → history_in names (after_values names values given) tag ≡ None }
{}

/// Where a call that began at a block comes to a point, what is left there of its block is the piece's code from the place on.
pub fn places_follow_the_machine()
    ensures { (held : Held) (before : Feed) (stream : List ℕ) (point : Point) → EntersBlock held → Reaches held before stream point → code_from held.piece.blocks point.place ≡ Some point.code }
{}

/// Where a call comes to a point, the statements that are left there of its block are statements of the piece. The places that were noted
/// by then are those of Tag, Count and Cond statements, where those with which the call began are.
pub fn matches_reach_statements_of_the_piece()
    ensures statements { (held : Held) (before : Feed) (stream : List ℕ) (point : Point) (test : Stmt → Bool) → Reaches held before stream point → list_any test point.code ≡ true → list_any test (all_statements held.piece.blocks) ≡ true }
    ensures assigned { (held : Held) (before : Feed) (stream : List ℕ) (point : Point) → Reaches held before stream point → AllByRecursion (IsAssignmentAt held.piece.blocks) (entry_point held before.window).assigned → AllByRecursion (IsAssignmentAt held.piece.blocks) point.assigned }
{}

/// A match over windows of a stream that is left, and goes on in later calls, ends as a run over the whole stream does: under the
/// schedule of the units that the first window had, the answers of the source, and the refills between the calls. The schedule
/// is legal, where a piece that reads units and never asks had the whole stream first, and where the scanner is not left after it was said
/// that there are no more units.
pub fn left_matches_end_as_runs()
    ensures run { (old new : Held) (before : Feed) (stream : List ℕ) (told : Outcome) (answers : List Answer) → IsValid old.piece → old.left ≡ None → IsFormed before.window → IsFedBy stream before.window before.ahead → AreCalls stream told new old before answers → EndsAsRun old new before.window.start told (run_of old.piece stream before.window.start old.cond (schedule_of before answers)) }
    ensures legal { (old new : Held) (before : Feed) (stream : List ℕ) (told : Outcome) (answers : List Answer) → old.left ≡ None → IsFormed before.window → IsFedBy stream before.window before.ahead → AreCalls stream told new old before answers → (ReadsUnasked old.piece → before.window.limit ≡ length stream) → LeavesOpen false answers → IsLegal old.piece (length stream) before.window.start (schedule_of before answers) }
{}
