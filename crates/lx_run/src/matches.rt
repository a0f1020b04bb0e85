//! The lines of a match.
ghost use Rattle.std.specs.Prelude.{◌≡◌, ◌++◌, not, ◌==◌, false, IfOk};
ghost use Rattle.lx_run.specs.Lines.{end_line, match_line};
ghost use Rattle.lx_run.specs.Puts.{IsPut};
ghost use Rattle.lx_run.specs.Texts.{is_followed, match_lines, stop_behind};

use crate::lines::{put_end_line, put_match_line, put_stop_line};
use lx_ccode::Piece;
use lx_files::{PutAnswer, Sink};
use lx_step::{Lexer, Outcome};

/// Puts the lines of a match that ended by a rule, and says whether another match follows.
fn put_rule<O: Sink>(
    out: &mut O,
    word: &[u8],
    rule: u32,
    piece: &Piece,
    lexer: &Lexer<'_>,
) -> Result<bool, PutAnswer>
    requires { lexer.now.piece ≡ piece.now }
    ensures put { IsPut (O.given out.old) (O.given out.new) (O.faults out.old) (O.faults out.new) (O.wants out.old) (O.wants out.new) (match_line word.now rule lexer.now ++ stop_behind lexer.now) result }
    ensures followed { IfOk result (λ followed. followed ≡ not (lexer.now.cursor == lexer.now.start)) }
{
    put_match_line(out, word, rule, piece, lexer)?;
    if lexer.cursor() == lexer.start() {
        put_stop_line(out, lexer.cursor())?;
        return Ok(false);
    }
    Ok(true)
}

/// Puts the line of a match by which the run ends.
fn put_end<O: Sink>(out: &mut O, word: &[u8], lexer: &Lexer<'_>) -> Result<bool, PutAnswer>
    ensures put { IsPut (O.given out.old) (O.given out.new) (O.faults out.old) (O.faults out.new) (O.wants out.old) (O.wants out.new) (end_line word.now lexer.now.start lexer.now.cursor) result }
    ensures last { IfOk result (λ followed. followed ≡ false) }
{
    put_end_line(out, word, lexer.start(), lexer.cursor())?;
    Ok(false)
}

/// Puts the lines of the last match, which ended with this outcome, and says whether another one follows. A match that has not ended
/// by itself has no lines.
pub fn put_lines<O: Sink>(
    out: &mut O,
    piece: &Piece,
    lexer: &Lexer<'_>,
    outcome: Outcome,
) -> Result<bool, PutAnswer>
    requires { lexer.now.piece ≡ piece.now }
    ensures put { IsPut (O.given out.old) (O.given out.new) (O.faults out.old) (O.faults out.new) (O.wants out.old) (O.wants out.new) (match_lines outcome lexer.now) result }
    ensures followed { IfOk result (λ followed. followed ≡ is_followed outcome lexer.now) }
{
    match outcome {
        Outcome::Rule { number } => put_rule(out, b"rule ", number, piece, lexer),
        Outcome::Jump { number } => put_rule(out, b"jump ", number, piece, lexer),
        Outcome::NoRule => put_end(out, b"none ", lexer),
        Outcome::End => put_end(out, b"end ", lexer),
        Outcome::Stuck => put_end(out, b"stuck ", lexer),
        Outcome::Loop => put_end(out, b"loop ", lexer),
        _ => Ok(false),
    }
}
