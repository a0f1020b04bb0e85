//! Lines that are put together, and not part by part.
ghost use Rattle.std.specs.Prelude.{◌≡◌, [], Some, IfOk};
ghost use Rattle.lx_run.specs.Lines.{end_line};
ghost use Rattle.lx_run.specs.Puts.{IsPut};
ghost use Rattle.lx_run.specs.Texts.{is_followed, match_lines};

use crate::lines::put_end_line;
use crate::matches::put_lines;
use crate::puts::put;
use arrayvec::ArrayVec;
use lx_ccode::Piece;
use lx_files::{PutAnswer, Sink};
use lx_step::{Lexer, Outcome};
use std::marker::Model;

/// A list of at most 1,024 bytes, which stands on the stack. It answers `Memory` to bytes for which it has no room, and counts no answers:
/// the count of wants stands at its last value.
#[derive(Drop)]
struct LineSink {
    kept: ArrayVec<u8, 1024>,
}

impl Model for LineSink {
    ghost use Rattle.std.specs.Prelude.{List, ℕ};

    ghost Value = { List ℕ };

    ghost view = { λ sink. sink.kept.items };
}

impl LineSink {
    /// An empty list.
    fn new() -> LineSink
        ensures { result ≡ [] }
    {
        LineSink {
            kept: ArrayVec::new(),
        }
    }

    /// What was given so far.
    fn bytes(&self) -> &[u8]
        ensures { result.now ≡ self.now }
    {
        self.kept.as_slice()
    }
}

impl Sink for LineSink {
    ghost given = { λ sink. Some sink };

    ghost faults = { λ _. 0 };

    ghost wants = { λ _. 18446744073709551615 };

    fn put(&mut self, bytes: &[u8]) -> Result<usize, PutAnswer> {
        match self.kept.try_extend_from_slice(bytes) {
            Ok(()) => Ok(bytes.len()),
            Err(_) => Err(PutAnswer::Memory),
        }
    }
}

/// Puts the lines of the last match as `put_lines` does. Lines of at most 1,024 bytes are put together, and longer ones part by part.
pub fn put_lines_together<O: Sink>(
    out: &mut O,
    piece: &Piece,
    lexer: &Lexer<'_>,
    outcome: Outcome,
) -> Result<bool, PutAnswer>
    requires { lexer.now.piece ≡ piece.now }
    ensures put { IsPut (O.given out.old) (O.given out.new) (O.faults out.old) (O.faults out.new) (O.wants out.old) (O.wants out.new) (match_lines outcome lexer.now) result }
    ensures followed { IfOk result (λ followed. followed ≡ is_followed outcome lexer.now) }
{
    let mut lines = LineSink::new();
    match put_lines(&mut lines, piece, lexer, outcome) {
        Ok(followed) => {
            put(out, lines.bytes())?;
            Ok(followed)
        }
        Err(_) => put_lines(out, piece, lexer, outcome),
    }
}

/// Puts the line that ends a run as `put_end_line` does, and its parts together.
pub fn put_end_line_together<O: Sink>(
    out: &mut O,
    word: &[u8],
    start: u64,
    cursor: u64,
) -> Result<(), PutAnswer>
    ensures { IsPut (O.given out.old) (O.given out.new) (O.faults out.old) (O.faults out.new) (O.wants out.old) (O.wants out.new) (end_line word.now start cursor) result }
{
    let mut line = LineSink::new();
    match put_end_line(&mut line, word, start, cursor) {
        Ok(()) => put(out, line.bytes()),
        Err(_) => put_end_line(out, word, start, cursor),
    }
}
