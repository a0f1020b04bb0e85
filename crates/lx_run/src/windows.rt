//! Matches over a window, and runs of them.
ghost use Rattle.std.specs.Prelude.{◌≡◌, ◌≤◌, ◌-◌, ◌⊎◌, ◌&&◌, ◌==◌, Bool, ℕ, length, suc, true, Some};
ghost use Rattle.std.specs.List.{list_any};
ghost use Rattle.lx_ccode.specs.Statements.{all_statements};
ghost use Rattle.lx_ccode.specs.Validity.{IsValid};
ghost use Rattle.lx_files.specs.Counts.{Rose};
ghost use Rattle.lx_step.specs.Feeds.{feed_of};
ghost use Rattle.lx_step.specs.Held.{fresh, is_on_histories};
ghost use Rattle.lx_window.specs.MemorySource.{ahead_of};
ghost use Rattle.lx_window.specs.Windows.{IsFormed};
ghost use Rattle.lx_run.specs.Ends.{EndsAs, RunLacksMemory, end_behind};
ghost use Rattle.lx_run.specs.Readings.{Reading};
ghost use Rattle.lx_run.specs.Streams as spec;
ghost use Rattle.lx_run.specs.Streams.{stops_at_end};
ghost use Rattle.lx_run.specs.Texts.{Between, beginning, match_at, run_from};
ghost use Rattle.lx_run.specs.Windows.{HasMatched, IsAt, IsBetween, IsEarly, LinesEnd, MayBegin, MayMatch, MayRun, reading_by};

use crate::ends::RunEnd;
use crate::line_sinks::{put_end_line_together, put_lines_together};
use crate::streams::{InputEnd, ending_of};
use lx_ccode::Piece;
use lx_files::{PutAnswer, Sink};
use lx_step::{Lexer, Outcome};
use lx_window::{Fill, MemRefill, Window};

/// A lexer behind a match, and how the match ended.
#[derive(Drop)]
struct Matched<'p> {
    lexer: Lexer<'p>,
    outcome: Outcome,
}

/// Makes a match over a window, which a source fills. Where the source leaves the scanner, one refill acts on the window, and the lexer
/// comes back to the match.
fn match_over<'p>(
    piece: &'p Piece,
    lexer: Lexer<'p>,
    w: &mut Window<'_>,
    src: &mut MemRefill<'_>,
) -> Matched<'p>
    requires valid { IsValid piece.now }
    requires stands { MayMatch piece.now lexer (feed_of (ahead_of src.old) w.old) src.old.unit }
    ensures matched { (reading : Reading) (leaves : Bool) (between : Between) → IsBetween piece.now reading leaves between lexer.entry (feed_of (ahead_of src.old) w.old)
        → (result.outcome ≡ Outcome.Memory) ⊎ ((result.outcome ≡ (match_at reading between).told) × HasMatched piece.now reading leaves between result.lexer (feed_of (ahead_of src.new) w.new)) }
    ensures memory { result.outcome ≡ Outcome.Memory → list_any is_on_histories (all_statements piece.now.blocks) ≡ true }
    ensures piece { result.lexer.piece ≡ piece.now }
    ensures source_unit { src.new.unit ≡ src.old.unit }
{
    let mut lexer = lexer;
    loop {
        match lexer.advance(w, src) {
            Outcome::NeedFill => {
                let _ = w.refill(src);
            }
            outcome => return Matched { lexer, outcome },
        }
    }
}

/// How a run ends, where a put was made last or refused.
fn ended(put: Result<(), PutAnswer>) -> RunEnd
    ensures { result ≡ end_behind put }
{
    match put {
        Ok(()) => RunEnd::Done,
        Err(PutAnswer::Failed) => RunEnd::PutFailed,
        Err(PutAnswer::Memory) => RunEnd::Memory,
    }
}

/// Lets a source fill a window, where it has room, until there are no more units.
fn fill(w: &mut Window<'_>, src: &mut MemRefill<'_>)
    requires formed { IsFormed w.old }
    requires unit { w.old.unit ≡ src.old.unit }
    ensures filled { (reading : Reading) (unit : ℕ) (leaves : Bool) → IsAt reading unit leaves leaves 0 0 (feed_of (ahead_of src.old) w.old) → length reading.stream ≤ reading.size
        → IsAt reading unit leaves (leaves && (reading.size == length reading.stream)) 0 (length reading.stream) (feed_of (ahead_of src.new) w.new) }
    ensures unit { w.new.unit ≡ src.new.unit }
    ensures source_unit { src.new.unit ≡ src.old.unit }
{
    while w.room() > 0 {
        let Ok(fill) = w.refill(src) else {
            return;
        };
        match fill {
            Fill::More(_) | Fill::Leave => {}
            Fill::NoMore => return,
        }
    }
}

/// Makes a window and its source ready for the first match: where the scanner asks for no units, the window has them all.
fn begin_run(piece: &Piece, holds_all: bool, w: &mut Window<'_>, src: &mut MemRefill<'_>)
    requires begins { MayBegin piece.now w.old src.old }
    requires holds { holds_all ≡ spec.holds_all piece.now }
    ensures between { let reading = reading_by w.old src.old in
        IsBetween piece.now reading src.old.leaves (beginning piece.now reading) (fresh piece.now) (feed_of (ahead_of src.new) w.new) }
    ensures source_unit { src.new.unit ≡ src.old.unit }
{
    if holds_all {
        fill(w, src);
    }
}

/// Puts the lines of the last match, which ended with this outcome, and says how the run ends, if it does not go on.
fn end_of<O: Sink>(
    out: &mut O,
    piece: &Piece,
    lexer: &Lexer<'_>,
    outcome: Outcome,
) -> Option<RunEnd>
    requires { lexer.now.piece ≡ piece.now }
    ensures ends { LinesEnd outcome lexer.now (O.given out.old) (O.given out.new) (O.faults out.old) (O.faults out.new) result }
    ensures memory { outcome ≡ Outcome.Memory → result ≡ Some RunEnd.Memory }
    ensures lacks { result ≡ Some RunEnd.Memory → (outcome ≡ Outcome.Memory) ⊎ Rose (O.wants out.old) (O.wants out.new) }
    ensures never_falls { O.faults out.old ≤ O.faults out.new }
    ensures wants_never_fall { O.wants out.old ≤ O.wants out.new }
{
    match outcome {
        Outcome::WindowFull { kept, need, size } => Some(RunEnd::WindowFull { kept, need, size }),
        Outcome::Memory => Some(RunEnd::Memory),
        _ => match put_lines_together(out, piece, lexer, outcome) {
            Ok(true) => None,
            Ok(false) => Some(RunEnd::Done),
            Err(answer) => Some(ended(Err(answer))),
        },
    }
}

/// Makes one match after another, and puts their lines.
fn run_matches<'p, O: Sink>(
    piece: &'p Piece,
    lexer: Lexer<'p>,
    w: &mut Window<'_>,
    src: &mut MemRefill<'_>,
    input: InputEnd,
    out: &mut O,
) -> RunEnd
    requires valid { IsValid piece.now }
    requires stops { input.stops ≡ stops_at_end piece.now }
    requires stands { MayRun piece.now lexer (feed_of (ahead_of src.old) w.old) src.old.unit }
    ensures ends { (reading : Reading) (leaves : Bool) (between : Between) → IsBetween piece.now reading leaves between lexer.entry (feed_of (ahead_of src.old) w.old) → IsEarly reading
        → EndsAs (run_from reading input.units (suc (length reading.stream - between.start)) between) (O.given out.old) (O.given out.new) (O.faults out.old) (O.faults out.new) result }
    ensures memory { result ≡ RunEnd.Memory → RunLacksMemory piece.now (O.wants out.old) (O.wants out.new) }
    ensures never_falls { O.faults out.old ≤ O.faults out.new }
    ensures wants_never_fall { O.wants out.old ≤ O.wants out.new }
{
    let mut lexer = lexer;
    loop {
        let start = w.start();
        if input.stops && input.units <= start {
            drop(lexer);
            return ended(put_end_line_together(out, b"end ", start, start));
        }
        let matched = match_over(piece, lexer, w, src);
        lexer = matched.lexer;
        match end_of(out, piece, &lexer, matched.outcome) {
            Some(end) => {
                drop(lexer);
                return end;
            }
            None => w.begin(lexer.cursor()),
        }
    }
}

/// Runs a fresh lexer of a scanner over the units of a source, of which so many are input, and gives the sink a line for each match, as
/// soon as it is made, and one for the end of the run.
///
/// The window is empty, and its buffer holds all units where the scanner asks for none. The source has given nothing, and leaves the
/// scanner where the piece stores states; then one refill acts on the window, and the lexer comes back to the match. `Memory` comes only
/// where a statement of the piece is on histories, or where the sink refused a put for want of memory.
pub fn run_window<'p, O: Sink>(
    piece: &'p Piece,
    lexer: Lexer<'p>,
    w: &mut Window<'_>,
    src: &mut MemRefill<'_>,
    units: u64,
    out: &mut O,
) -> RunEnd
    requires valid { IsValid piece.now }
    requires fresh { lexer ≡ fresh piece.now }
    requires begins { MayBegin piece.now w.old src.old }
    ensures ends { let reading = reading_by w.old src.old in
        EndsAs (run_from reading units (suc (length reading.stream)) (beginning piece.now reading)) (O.given out.old) (O.given out.new) (O.faults out.old) (O.faults out.new) result }
    ensures memory { result ≡ RunEnd.Memory → RunLacksMemory piece.now (O.wants out.old) (O.wants out.new) }
    ensures never_falls { O.faults out.old ≤ O.faults out.new }
    ensures wants_never_fall { O.wants out.old ≤ O.wants out.new }
{
    let ending = ending_of(piece);
    begin_run(piece, ending.holds_all, w, src);
    let input = InputEnd {
        units,
        stops: ending.stops,
    };
    run_matches(piece, lexer, w, src, input, out)
}
