//! The lines of a run.
ghost use Rattle.std.specs.Prelude.{◌≡◌, [], ◌∷◌, codes};
ghost use Rattle.std.specs.Fmt.{decimal};
ghost use Rattle.lx_base.specs.Text.{joined};
ghost use Rattle.lx_run.specs.Lines.{end_line, match_line, stop_line};
ghost use Rattle.lx_run.specs.Puts.{IsPut};

use crate::assignments::put_values;
use crate::puts::{put, put_parts};
use itoa::Buffer;
use lx_ccode::Piece;
use lx_files::{PutAnswer, Sink};
use lx_step::Lexer;

/// Puts the front of the line of a match that ended by a rule: all but the values.
fn put_front<O: Sink>(
    out: &mut O,
    word: &[u8],
    rule: u32,
    lexer: &Lexer<'_>,
) -> Result<(), PutAnswer>
    ensures { IsPut (O.given out.old) (O.given out.new) (O.faults out.old) (O.faults out.new) (O.wants out.old) (O.wants out.new)
        (joined (word.now ∷ decimal rule ∷ codes " " ∷ decimal lexer.now.start ∷ codes " " ∷ decimal lexer.now.cursor ∷ []) []) result }
{
    let mut number = Buffer::new();
    let mut start = Buffer::new();
    let mut cursor = Buffer::new();
    put_parts(
        out,
        &[
            word,
            number.format(rule).as_bytes(),
            b" ",
            start.format(lexer.start()).as_bytes(),
            b" ",
            cursor.format(lexer.cursor()).as_bytes(),
        ],
    )
}

/// Puts the line of a match that ended by a rule.
pub fn put_match_line<O: Sink>(
    out: &mut O,
    word: &[u8],
    rule: u32,
    piece: &Piece,
    lexer: &Lexer<'_>,
) -> Result<(), PutAnswer>
    requires { lexer.now.piece ≡ piece.now }
    ensures { IsPut (O.given out.old) (O.given out.new) (O.faults out.old) (O.faults out.new) (O.wants out.old) (O.wants out.new) (match_line word.now rule lexer.now) result }
{
    put_front(out, word, rule, lexer)?;
    put_values(out, piece, lexer)?;
    put(out, b"\n")
}

/// Puts the line that ends a run.
pub fn put_end_line<O: Sink>(
    out: &mut O,
    word: &[u8],
    start: u64,
    cursor: u64,
) -> Result<(), PutAnswer>
    ensures { IsPut (O.given out.old) (O.given out.new) (O.faults out.old) (O.faults out.new) (O.wants out.old) (O.wants out.new) (end_line word.now start cursor) result }
{
    let mut from = Buffer::new();
    let mut to = Buffer::new();
    put_parts(
        out,
        &[
            word,
            from.format(start).as_bytes(),
            b" ",
            to.format(cursor).as_bytes(),
            b"\n",
        ],
    )
}

/// Puts the line of a run that stops.
pub fn put_stop_line<O: Sink>(out: &mut O, cursor: u64) -> Result<(), PutAnswer>
    ensures { IsPut (O.given out.old) (O.given out.new) (O.faults out.old) (O.faults out.new) (O.wants out.old) (O.wants out.new) (stop_line cursor) result }
{
    let mut digits = Buffer::new();
    put_parts(out, &[b"stop ", digits.format(cursor).as_bytes(), b"\n"])
}
