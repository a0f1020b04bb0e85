//! Runs over windows of few units, by refills of each size.
ghost use Rattle.std.specs.Prelude.{◌≡◌};
ghost use Rattle.lx_ccode.specs.Validity.{IsValid};

use super::pieces::piece_of;
use super::windows::{SIGNS, WORDS};
use lx_ccode::Piece;
use lx_files::MemSink;
use lx_run::{RunEnd, ending_of, run_window};
use lx_step::Lexer;
use lx_window::{MemRefill, Window};
use std::alloc::Global;

/// How many units an input and a window have at most.
const MOST: usize = 8;

/// How the run of a piece over an input ends, through a window of so many units and by refills of at most a step; nothing where the
/// input or the window has more than `MOST`, or memory is wanting, or the piece asks for no units.
fn end_of_run(
    alloc: Global,
    piece: &Piece,
    input: &[u8],
    size: usize,
    step: u32,
    out: &mut MemSink,
) -> Option<RunEnd>
    requires valid { IsValid piece.now }
    requires unit { piece.now.unit ≡ 1 }
{
    let ending = ending_of(piece);
    if input.len() > MOST || size > MOST || step == 0 || ending.holds_all {
        return None;
    }
    let lexer = Lexer::load(alloc, piece).ok()?;
    let mut buffer = [0; MOST];
    let mut w = Window::over(&mut buffer[..size], 1, 0);
    let mut src = MemRefill::padded(input, ending.padding, 1, step, ending.states);
    Some(run_window(piece, lexer, &mut w, &mut src, input.len() as u64, out))
}

/// Whether such a run gives these lines and ends so.
fn is_run(
    alloc: Global,
    piece: &Piece,
    input: &[u8],
    size: usize,
    step: u32,
    given: &[u8],
    end: RunEnd,
) -> bool
    requires valid { IsValid piece.now }
    requires unit { piece.now.unit ≡ 1 }
{
    let mut out = MemSink::new(alloc);
    let told = end_of_run(alloc, piece, input, size, step, &mut out);
    told == Some(end) && out.bytes() == given
}

/// The same by refills of each step from 1 to 6.
fn are_runs(
    alloc: Global,
    piece: &Piece,
    input: &[u8],
    size: usize,
    given: &[u8],
    end: RunEnd,
) -> bool
    requires valid { IsValid piece.now }
    requires unit { piece.now.unit ≡ 1 }
{
    for step in 1..7_u32 {
        if !is_run(alloc, piece, input, size, step, given, end) {
            return false;
        }
    }
    true
}

/// The same of the piece of a text.
fn are_runs_of(
    alloc: Global,
    text: &[u8],
    input: &[u8],
    size: usize,
    given: &[u8],
    end: RunEnd,
) -> bool {
    match piece_of(alloc, text) {
        Some(piece) => are_runs(alloc, &piece, input, size, given, end),
        None => false,
    }
}

/// The lines of `WORDS` over `abcd e`, where no window is full.
const WORD_LINES: &[u8] = b"rule 1 0 4\nrule 2 4 5\nrule 1 5 6\nend 6 6\n";

/// How many units the window has; what a run of `WORDS` over `abcd e` gives, and how it ends. A word of four letters asks for a fifth unit.
const WORD_RUNS: [(usize, &[u8], RunEnd); 6] = [
    (
        1,
        b"",
        RunEnd::WindowFull {
            kept: 1,
            need: 1,
            size: 1,
        },
    ),
    (
        2,
        b"",
        RunEnd::WindowFull {
            kept: 2,
            need: 1,
            size: 2,
        },
    ),
    (
        3,
        b"",
        RunEnd::WindowFull {
            kept: 3,
            need: 1,
            size: 3,
        },
    ),
    (
        4,
        b"",
        RunEnd::WindowFull {
            kept: 4,
            need: 1,
            size: 4,
        },
    ),
    (5, WORD_LINES, RunEnd::Done),
    (6, WORD_LINES, RunEnd::Done),
];

/// The lines of `SIGNS` over an `a`, a sign of three units and an `x`, where no window is full.
const SIGN_LINES: &[u8] = b"rule 3 0 1\nrule 2 1 5 t=1 u=4\nrule 1 5 5\nstop 5\n";

/// The same of `SIGNS` over that input. A sign of three units asks for a fourth one, and no match is longer.
const SIGN_RUNS: [(usize, &[u8], RunEnd); 6] = [
    (
        1,
        b"rule 3 0 1\n",
        RunEnd::WindowFull {
            kept: 1,
            need: 1,
            size: 1,
        },
    ),
    (
        2,
        b"rule 3 0 1\n",
        RunEnd::WindowFull {
            kept: 2,
            need: 1,
            size: 2,
        },
    ),
    (
        3,
        b"rule 3 0 1\n",
        RunEnd::WindowFull {
            kept: 3,
            need: 1,
            size: 3,
        },
    ),
    (4, SIGN_LINES, RunEnd::Done),
    (5, SIGN_LINES, RunEnd::Done),
    (6, SIGN_LINES, RunEnd::Done),
];

#[test]
fn runs_with_checks_end_alike_by_each_step(rt: HostRuntime) {
    for (size, given, end) in WORD_RUNS {
        assert!(rt;
            are_runs_of(rt.alloc(), WORDS, b"abcd e", size, given, end),
            "{size}"
        );
    }
}

#[test]
fn runs_that_are_left_end_alike_by_each_step(rt: HostRuntime) {
    for (size, given, end) in SIGN_RUNS {
        assert!(rt;
            are_runs_of(rt.alloc(), SIGNS, b"a\xe2\x82\xacx", size, given, end),
            "{size}"
        );
    }
}
