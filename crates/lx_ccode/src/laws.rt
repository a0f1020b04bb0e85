//! What holds of all pieces and of all runs: each law is the contract of a function with an empty body.
ghost use Rattle.std.specs.Prelude.{◌≡◌, ◌↔◌, ◌≤◌, ◌+◌, ℕ, List, [], ◌∷◌, ◌++◌, drop, length, Option, Some, None, false, true};
ghost use Rattle.std.specs.List.{AllByRecursion, list_any};
ghost use Rattle.lx_base.specs.Names.{Spellings};
ghost use Rattle.lx_ccode.specs.declared.piece.LineMark.{LineMark};
ghost use Rattle.lx_ccode.specs.Bodies.{body_piece_text};
ghost use Rattle.lx_ccode.specs.declared.bodies.Body.TheVariants.{Empty};
ghost use Rattle.lx_ccode.specs.Marks.{EndsMarks, HasNoBegin, IsUnmarked, IsUnmarkedLine, begins_piece};
ghost use Rattle.lx_ccode.specs.declared.piece.Stmt.{Stmt};
ghost use Rattle.lx_ccode.specs.declared.piece.Piece.{Piece};
ghost use Rattle.lx_ccode.specs.Effects.{ChangesOnly, answers_after, machine_after};
ghost use Rattle.lx_ccode.specs.Front.{BeginsWithPiece, BeginsWithPieceAt, IsPlaced};
ghost use Rattle.lx_ccode.specs.Machine.{Answer, Machine, Outcome, code_at, ends, goes_on, step, stored_block, units_of_answers};
ghost use Rattle.lx_ccode.specs.Reading.{piece_at};
ghost use Rattle.lx_ccode.specs.Runs.{Ended, IsRun, ended, entry_block, fresh_machine, run_of};
ghost use Rattle.lx_ccode.specs.Schedules.{IsLegal, Schedule, without_drops};
ghost use Rattle.lx_ccode.specs.States.{stores};
ghost use Rattle.lx_ccode.specs.Statements.{all_statements, is_refill};
ghost use Rattle.lx_ccode.specs.Stuck.{CannotDo, HasWayBack, IsStuck};
ghost use Rattle.lx_ccode.specs.Text.{piece_text};
ghost use Rattle.lx_ccode.specs.Traces.{IsTold, trace, trace_on};
ghost use Rattle.lx_ccode.specs.Validity.{IsLine, IsShort, IsValid, JumpsBelow};

/// A text has one reading: no text is that of two valid pieces or places, and none is a proper front of another's.
pub fn texts_have_one_reading()
    ensures one_piece { (place mark : Option LineMark) (piece other : Piece) → IsValid piece → IsPlaced place piece → IsValid other → IsPlaced mark other
        → piece_text place piece ≡ piece_text mark other → (piece ≡ other) × (place ≡ mark) }
    ensures no_front { (place mark : Option LineMark) (piece other : Piece) (tail : List ℕ) → IsValid piece → IsPlaced place piece → IsValid other → IsPlaced mark other
        → piece_text place piece ++ tail ≡ piece_text mark other → tail ≡ [] }
    ensures before_any_bytes { (place mark : Option LineMark) (piece other : Piece) (tail rest : List ℕ) → IsValid piece → IsPlaced place piece → IsValid other → IsPlaced mark other
        → piece_text place piece ++ tail ≡ piece_text mark other ++ rest → (piece ≡ other) × (place ≡ mark) × (tail ≡ rest) }
{}

/// Reading the text of a valid piece, with any bytes behind it, gives the piece, its place and those bytes.
pub fn reading_gives_the_piece()
    ensures { (place : Option LineMark) (piece : Piece) (tail : List ℕ) → IsValid piece → IsPlaced place piece → piece_at (piece_text place piece ++ tail) ≡ (piece, place, tail) }
{}

/// Where the text of some valid piece stands at the front of bytes, it is the text of the piece that is
/// read there, at the place that is read. So a reader need only test what it reads: where that piece is not
/// valid, or its text does not stand there, no piece's text does.
pub fn reading_finds_the_piece()
    ensures { (bytes : List ℕ) (piece : Piece) → BeginsWithPiece bytes piece
        → IsValid (piece_at bytes).0 × IsPlaced (piece_at bytes).1 (piece_at bytes).0 × BeginsWithPieceAt bytes (piece_at bytes).1 (piece_at bytes).0 }
{}

/// In the text of a valid piece whose actions and names of files hold no begin mark, none stands but the piece's own: not across its end either,
/// where what stands behind completes none. The same holds of a piece without a scanner.
pub fn begin_marks_stand_at_the_front()
    ensures scanner { (place : Option LineMark) (piece : Piece) (behind : List ℕ) → IsValid piece → IsPlaced place piece → AllByRecursion IsUnmarked (all_statements piece.blocks) → IsUnmarkedLine piece.line → IsUnmarkedLine place
        → begins_piece (47 ∷ behind) ≡ false → HasNoBegin (drop 1 (piece_text place piece)) behind }
    ensures empty { (number : ℕ) (names : Spellings) (line : Option LineMark) (behind : List ℕ) → IsShort number → IsLine line → IsUnmarkedLine line → begins_piece (47 ∷ behind) ≡ false → HasNoBegin (drop 1 (body_piece_text number names Empty line)) behind }
{}

/// Where no begin mark begins in a text before some bytes, none begins in it before bytes into which no mark goes on.
pub fn marks_end_before_other_bytes()
    ensures { (text behind bytes : List ℕ) → EndsMarks bytes → HasNoBegin text behind → HasNoBegin text bytes }
{}

/// A step changes only what its statement is for, and only a refill takes answers from the schedule.
pub fn steps_change_only_their_part()
    ensures machine { (piece : Piece) (stream : List ℕ) (statement : Stmt) (rest : List Stmt) (machine : Machine) (answers : List Answer) → ChangesOnly statement machine (machine_after (step piece stream statement rest machine answers)) }
    ensures answers { (piece : Piece) (stream : List ℕ) (statement : Stmt) (rest : List Stmt) (machine : Machine) (answers : List Answer) → is_refill statement ≡ false → answers_after answers (step piece stream statement rest machine answers) ≡ answers }
{}

/// A schedule determines the run of a match: the steps of the machine, one after another, make that run
/// and no other.
pub fn schedules_determine_runs()
    ensures is_run { (piece : Piece) (stream : List ℕ) (start : ℕ) (cond : List ℕ) (schedule : Schedule) (code : List Stmt) → IsValid piece → code_at piece.blocks (entry_block piece.conds cond) ≡ Some code → IsRun piece stream start 0 code (fresh_machine start schedule.first cond) schedule.answers (run_of piece stream start cond schedule) }
    ensures no_other { (piece : Piece) (stream : List ℕ) (start steps : ℕ) (code : List Stmt) (machine : Machine) (answers : List Answer) (end other : Ended) → IsRun piece stream start steps code machine answers end → IsRun piece stream start steps code machine answers other → end ≡ other }
{}

/// A run is what its traces tell: it ends as the match does behind its first steps, unless so many were made before that they are
/// the count of a loop. What the traces of a match tell is one run.
pub fn runs_are_told_by_traces()
    ensures told { (piece : Piece) (stream : List ℕ) (start : ℕ) (cond : List ℕ) (schedule : Schedule) (code : List Stmt) → IsValid piece → code_at piece.blocks (entry_block piece.conds cond) ≡ Some code → IsTold piece stream start code (fresh_machine start schedule.first cond) schedule.answers (run_of piece stream start cond schedule) }
    ensures no_other { (piece : Piece) (stream : List ℕ) (start : ℕ) (code : List Stmt) (machine : Machine) (answers : List Answer) (end other : Ended) → IsTold piece stream start code machine answers end → IsTold piece stream start code machine answers other → end ≡ other }
{}

/// Traces go on one behind another, with a statement for each step while the match goes on, and a match ends in one way.
pub fn traces_go_on()
    ensures made { (piece : Piece) (stream : List ℕ) (steps more : ℕ) (code : List Stmt) (machine : Machine) (answers : List Answer) → (trace piece stream (steps + more) code machine answers).made ≡ (trace piece stream steps code machine answers).made ++ (trace_on piece stream more (trace piece stream steps code machine answers).next).made }
    ensures next { (piece : Piece) (stream : List ℕ) (steps more : ℕ) (code : List Stmt) (machine : Machine) (answers : List Answer) → (trace piece stream (steps + more) code machine answers).next ≡ (trace_on piece stream more (trace piece stream steps code machine answers).next).next }
    ensures counted { (piece : Piece) (stream : List ℕ) (steps : ℕ) (code next : List Stmt) (machine after : Machine) (answers others : List Answer) → (trace piece stream steps code machine answers).next ≡ goes_on next after others → length (trace piece stream steps code machine answers).made ≡ steps }
    ensures one_end { (piece : Piece) (stream : List ℕ) (steps others : ℕ) (code : List Stmt) (machine after last : Machine) (answers : List Answer) (outcome other : Outcome) → (trace piece stream steps code machine answers).next ≡ ends outcome after → (trace piece stream others code machine answers).next ≡ ends other last → ended outcome after ≡ ended other last }
{}

/// Drops do not matter: under a schedule and under the same one without drops a match makes the same run, and where the one is legal so is
/// the other. A buffer may keep all units of a stream.
pub fn drops_do_not_matter()
    ensures run { (piece : Piece) (stream : List ℕ) (start : ℕ) (cond : List ℕ) (schedule : Schedule) → run_of piece stream start cond (without_drops schedule) ≡ run_of piece stream start cond schedule }
    ensures legal { (piece : Piece) (units start : ℕ) (schedule : Schedule) → IsLegal piece units start schedule → IsLegal piece units start (without_drops schedule) }
{}

/// A run ends between its start and the last unit that its schedule adds to the buffer.
pub fn runs_stay_in_the_buffer()
    ensures { (piece : Piece) (stream : List ℕ) (start : ℕ) (cond : List ℕ) (schedule : Schedule) → start ≤ schedule.first → (start ≤ (run_of piece stream start cond schedule).cursor) × ((run_of piece stream start cond schedule).cursor ≤ schedule.first + units_of_answers schedule.answers) }
{}

/// A step is stuck exactly where its statement cannot do what it is for: in a piece whose jumps all go to
/// its blocks, on a stream that holds the units up to the limit, and with a stored state at each refill.
pub fn steps_are_stuck_where_they_cannot_go()
    ensures { (piece : Piece) (stream : List ℕ) (statement : Stmt) (rest : List Stmt) (machine : Machine) (answers : List Answer) → machine.limit ≤ length stream → JumpsBelow (length piece.blocks) statement → HasWayBack piece statement machine → (IsStuck (step piece stream statement rest machine answers) ↔ CannotDo piece statement machine) }
{}

/// A valid piece that stores a state has a block where it comes back after it was left.
pub fn stored_states_have_a_way_back()
    ensures { (piece : Piece) (state : ℕ) → IsValid piece → list_any (stores state) (all_statements piece.blocks) ≡ true → code_at piece.blocks (stored_block piece.blocks (Some state)) ≡ None → ⊥ }
{}
