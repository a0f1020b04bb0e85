//! How fast a scanner steps over a long stream, through a window.
ghost use Rattle.std.specs.Prelude.{◌≡◌, ◌≤◌, IsTrue, None, true};
ghost use Rattle.lx_ccode.specs.Validity.{IsValid};

use super::pieces::piece_of;
use super::timing::micros_since;
use lx_ccode::Piece;
use lx_step::{Lexer, Outcome};
use lx_window::{MemRefill, Window};
use std::alloc::{AllocError, Global};
use std::test::Fail;
use std::time::Instant;

/// An `a`, some `b`s, or a blank, with checks.
const THREE_RULES: &[u8] =
    b"/*!begin:re2c 1*/\n/*!names:re2c 1 0 7:YYCTYPE 8:YYCURSOR 7:YYLIMIT 8:YYMARKER 11:YYCTXMARKER 6:YYFILL 10:YYGETSTATE 10:YYSETSTATE 14:YYGETCONDITION 14:YYSETCONDITION 7:YYMTAGP 7:YYMTAGN 4:yych 8:yyaccept 3:yyt 4:yyc_ 3:yyc*/\n{\n\tYYCTYPE yych;\n\tunsigned int yyaccept = 0;\nyy1_0:\n\tif ((YYLIMIT - YYCURSOR) < 1) YYFILL(1);\n\tyych = *YYCURSOR;\n\tif (yych <= 0x1F) goto yy1_4;\n\tif (yych <= 0x20) goto yy1_1;\n\tif (yych <= 0x60) goto yy1_4;\n\tif (yych <= 0x61) goto yy1_2;\n\tif (yych <= 0x62) goto yy1_3;\n\tgoto yy1_4;\nyy1_1:\n\t++YYCURSOR;\n\t/*!code:re2c 1 0*/\nyy1_2:\n\t++YYCURSOR;\n\t/*!code:re2c 2 0*/\nyy1_3:\n\t++YYCURSOR;\n\tif ((YYLIMIT - YYCURSOR) < 1) YYFILL(1);\n\tyych = *YYCURSOR;\n\tif (yych <= 0x61) goto yy1_5;\n\tif (yych <= 0x62) goto yy1_3;\n\tgoto yy1_5;\nyy1_4:\n\tgoto yy1_none;\nyy1_5:\n\t/*!code:re2c 3 0*/\nyy1_none:;\n}\n/*!end:re2c*/";

/// How often the measured stream repeats seven units; `bench/stepping.sh` takes more.
const COPIES: usize = 600_000;

/// How many units the window has, and how many a refill brings at most.
const WINDOW: usize = 4096;

/// The measured stream.
fn stream(alloc: Global) -> Result<Vec<u8>, AllocError> {
    let mut stream = Vec::with_capacity(alloc, 7 * COPIES)?;
    for _ in 0..COPIES {
        stream.extend_from_slice(b"a bbbb ")?;
    }
    Ok(stream)
}

/// Whether an offset is from a start to a limit, and one to which a token may be moved.
fn is_within(start: u64, limit: u64, at: u64) -> bool
    ensures { IsTrue result → (start ≤ at) × (at ≤ limit) × (at ≤ 0x4000_0000_0000_0000) }
{
    start <= at && at <= limit && at <= 0x4000_0000_0000_0000
}

/// Moves the start of a window's token to an offset, where the window has it.
fn moved(w: &mut Window<'_>, at: u64) -> bool
    ensures { w.new.unit ≡ w.old.unit }
{
    let (start, limit) = (w.start(), w.limit());
    if !is_within(start, limit, at) {
        return false;
    }
    w.begin(at);
    true
}

/// Makes a match, and moves the window to its end, if a rule matched.
fn has_match(lexer: &mut Lexer<'_>, w: &mut Window<'_>, src: &mut MemRefill<'_>) -> bool
    requires over { lexer.old.left ≡ None }
    requires unit { w.old.unit ≡ lexer.old.piece.unit }
    requires source_unit { src.old.unit ≡ lexer.old.piece.unit }
    ensures over { result ≡ true → lexer.new.left ≡ None }
    ensures unit { w.new.unit ≡ lexer.new.piece.unit }
    ensures source_unit { src.new.unit ≡ lexer.new.piece.unit }
{
    let Outcome::Rule { .. } = lexer.advance(w, src) else {
        return false;
    };
    moved(w, lexer.cursor())
}

/// How many matches there are before one that no rule ends, or before so many.
fn count_matches(
    lexer: &mut Lexer<'_>,
    w: &mut Window<'_>,
    src: &mut MemRefill<'_>,
    most: usize,
) -> usize
    requires over { lexer.old.left ≡ None }
    requires unit { w.old.unit ≡ lexer.old.piece.unit }
    requires source_unit { src.old.unit ≡ lexer.old.piece.unit }
{
    let mut matches = 0;
    while matches < most && has_match(lexer, w, src) {
        matches += 1;
    }
    matches
}

/// How many matches a fresh lexer makes on a stream of bytes.
fn count_in(lexer: &mut Lexer<'_>, stream: &[u8]) -> usize
    requires bytes { lexer.old.piece.unit ≡ 1 }
    requires over { lexer.old.left ≡ None }
{
    let mut buffer = [0; WINDOW];
    let mut w = Window::over(&mut buffer, 1, 0);
    let mut src = MemRefill::over(stream, 1, WINDOW as u32, false);
    count_matches(lexer, &mut w, &mut src, stream.len())
}

/// How many matches a piece has on a stream of bytes; none where memory is wanting.
fn match_count(alloc: Global, piece: &Piece, stream: &[u8]) -> Option<usize>
    requires valid { IsValid piece.now }
    requires bytes { piece.now.unit ≡ 1 }
{
    match Lexer::load(alloc, piece) {
        Ok(mut lexer) => Some(count_in(&mut lexer, stream)),
        Err(_) => None,
    }
}

/// How many matches a piece has on a stream of bytes, and how many microseconds they take.
fn measured(rt: &HostRuntime, piece: &Piece, stream: &[u8]) -> Result<(Option<usize>, u128), Fail>
    requires valid { IsValid piece.now }
    requires bytes { piece.now.unit ≡ 1 }
{
    let start = Instant::now(rt)?;
    let count = match_count(rt.alloc(), piece, stream);
    Ok((count, micros_since(rt, start)?))
}

/// The same of the three rules; none where they are no piece.
fn measured_rules(rt: &HostRuntime, stream: &[u8]) -> Result<(Option<usize>, u128), Fail> {
    match piece_of(rt.alloc(), THREE_RULES) {
        Some(piece) => measured(rt, &piece, stream),
        None => Ok((None, 0)),
    }
}

/// Measures 47 statements for each seven units of a stream; `bench/stepping.sh` reads the figures.
#[test]
fn a_long_stream(rt: HostRuntime) -> Result<(), Fail> {
    let stream = stream(rt.alloc())?;
    let (matches, micros) = measured_rules(&rt, &stream)?;
    println!(rt; "stepping: {} statements in {micros} us", 47 * COPIES)?;
    assert!(rt; matches == Some(4 * COPIES));
    Ok(())
}
