//! Lexers over windows that are refilled, left and resumed, and that fail.
ghost use Rattle.std.specs.Prelude.{◌≡◌, ◌≤◌, ℕ, Some, None, IfSome};
ghost use Rattle.lx_ccode.specs.Validity.{IsValid};

use super::pieces::piece_of;
use lx_ccode::Piece;
use lx_step::{Lexer, Outcome, fits, resume};
use lx_window::{Fill, FillFailed, MemRefill, Refill, Window};
use std::alloc::{AllocError, Global};

/// Rule 1 for a word of small letters and rule 2 for any other unit, with checks.
pub(super) const WORDS: &[u8] =
    b"/*!begin:re2c 1*/\n/*!head:re2c 2 byte count 0 0 0*/\n/*!names:re2c 1 - 7:YYCTYPE 8:YYCURSOR 7:YYLIMIT 8:YYMARKER 11:YYCTXMARKER 6:YYFILL 10:YYGETSTATE 10:YYSETSTATE 14:YYGETCONDITION 14:YYSETCONDITION 7:YYMTAGP 7:YYMTAGN 4:yych 8:yyaccept 3:yyt 4:yyc_ 3:yyc*/\n{\n\tYYCTYPE yych;\n\tunsigned int yyaccept = 0;\nyy1_0:\n\tif ((YYLIMIT - YYCURSOR) < 1) YYFILL(1);\n\tyych = *YYCURSOR;\n\tif (yych <= 0x60) goto yy1_1;\n\tif (yych <= 0x7A) goto yy1_2;\n\tgoto yy1_1;\nyy1_1:\n\t++YYCURSOR;\n\tgoto yy1_5;\nyy1_2:\n\t++YYCURSOR;\n\tgoto yy1_3;\nyy1_3:\n\tif ((YYLIMIT - YYCURSOR) < 1) YYFILL(1);\n\tyych = *YYCURSOR;\n\tif (yych <= 0x60) goto yy1_6;\n\tif (yych <= 0x7A) goto yy1_4;\n\tgoto yy1_6;\nyy1_4:\n\t++YYCURSOR;\n\tgoto yy1_3;\nyy1_5:\n\t/*!code:re2c 2 3*/{ }\nyy1_6:\n\t/*!code:re2c 1 3*/{ }\nyy1_none:;\n}\n/*!end:re2c*/";

/// Rule 2 for a sign above ASCII in UTF-8 and maybe an `x` behind it, with tags at both, rule 3 for any other unit, and rule 1 at the end;
/// with stored states.
pub(super) const SIGNS: &[u8] =
    b"/*!begin:re2c 1*/\n/*!head:re2c 2 utf8 eof 2 0 10*/\n/*!names:re2c 1 0 7:YYCTYPE 8:YYCURSOR 7:YYLIMIT 8:YYMARKER 11:YYCTXMARKER 6:YYFILL 10:YYGETSTATE 10:YYSETSTATE 14:YYGETCONDITION 14:YYSETCONDITION 7:YYMTAGP 7:YYMTAGN 4:yych 8:yyaccept 3:yyt 4:yyc_ 3:yyc*/\n{\n\tswitch (YYGETSTATE()) {\n\tcase 0: goto yy1_5;\n\tcase 1: goto yy1_17;\n\tcase 2: goto yy1_22;\n\tcase 3: goto yy1_27;\n\tcase 4: goto yy1_32;\n\tcase 5: goto yy1_37;\n\tcase 6: goto yy1_42;\n\tcase 7: goto yy1_47;\n\tcase 8: goto yy1_53;\n\tcase 9: goto yy1_58;\n\tdefault: goto yy1_0;\n\t}\nyy1_0:\n\tyych = *YYCURSOR;\n\tif (yych <= 0xE0) goto yy1_1;\n\tif (yych <= 0xF0) goto yy1_2;\n\tif (yych <= 0xF3) goto yy1_11;\n\tif (yych <= 0xF4) goto yy1_12;\n\tgoto yy1_6;\nyy1_1:\n\tif (yych <= 0x00) goto yy1_3;\n\tif (yych <= 0xC1) goto yy1_6;\n\tif (yych <= 0xDF) goto yy1_7;\n\tgoto yy1_8;\nyy1_2:\n\tif (yych <= 0xEF) goto yy1_9;\n\tgoto yy1_10;\nyy1_3:\n\tif (YYCURSOR >= YYLIMIT) goto yy1_4;\n\tgoto yy1_6;\nyy1_4:\n\tYYSETSTATE(0);\n\tif (YYFILL() == 0) goto yy1_0;\n\tgoto yy1_63;\nyy1_5:\n\tif (YYCURSOR >= YYLIMIT) goto yy1_63;\n\tgoto yy1_0;\nyy1_6:\n\t++YYCURSOR;\n\tgoto yy1_61;\nyy1_7:\n\tyyt1 = YYCURSOR;\n\t++YYCURSOR;\n\tgoto yy1_13;\nyy1_8:\n\tyyt1 = YYCURSOR;\n\t++YYCURSOR;\n\tgoto yy1_18;\nyy1_9:\n\tyyt1 = YYCURSOR;\n\t++YYCURSOR;\n\tgoto yy1_23;\nyy1_10:\n\tyyt1 = YYCURSOR;\n\t++YYCURSOR;\n\tgoto yy1_28;\nyy1_11:\n\tyyt1 = YYCURSOR;\n\t++YYCURSOR;\n\tgoto yy1_33;\nyy1_12:\n\tyyt1 = YYCURSOR;\n\t++YYCURSOR;\n\tgoto yy1_38;\nyy1_13:\n\tyych = *YYCURSOR;\n\tif (yych <= 0x00) goto yy1_15;\n\tif (yych <= 0x7F) goto yy1_61;\n\tif (yych <= 0xBF) goto yy1_14;\n\tgoto yy1_61;\nyy1_14:\n\t++YYCURSOR;\n\tgoto yy1_43;\nyy1_15:\n\tif (YYCURSOR >= YYLIMIT) goto yy1_16;\n\tgoto yy1_61;\nyy1_16:\n\tYYSETSTATE(1);\n\tif (YYFILL() == 0) goto yy1_13;\n\tgoto yy1_61;\nyy1_17:\n\tif (YYCURSOR >= YYLIMIT) goto yy1_61;\n\tgoto yy1_13;\nyy1_18:\n\tyych = *YYCURSOR;\n\tif (yych <= 0x00) goto yy1_20;\n\tif (yych <= 0x9F) goto yy1_61;\n\tif (yych <= 0xBF) goto yy1_19;\n\tgoto yy1_61;\nyy1_19:\n\tYYMARKER = YYCURSOR;\n\tyyaccept = 1;\n\t++YYCURSOR;\n\tgoto yy1_49;\nyy1_20:\n\tif (YYCURSOR >= YYLIMIT) goto yy1_21;\n\tgoto yy1_61;\nyy1_21:\n\tYYSETSTATE(2);\n\tif (YYFILL() == 0) goto yy1_18;\n\tgoto yy1_61;\nyy1_22:\n\tif (YYCURSOR >= YYLIMIT) goto yy1_61;\n\tgoto yy1_18;\nyy1_23:\n\tyych = *YYCURSOR;\n\tif (yych <= 0x00) goto yy1_25;\n\tif (yych <= 0x7F) goto yy1_61;\n\tif (yych <= 0xBF) goto yy1_24;\n\tgoto yy1_61;\nyy1_24:\n\tYYMARKER = YYCURSOR;\n\tyyaccept = 1;\n\t++YYCURSOR;\n\tgoto yy1_49;\nyy1_25:\n\tif (YYCURSOR >= YYLIMIT) goto yy1_26;\n\tgoto yy1_61;\nyy1_26:\n\tYYSETSTATE(3);\n\tif (YYFILL() == 0) goto yy1_23;\n\tgoto yy1_61;\nyy1_27:\n\tif (YYCURSOR >= YYLIMIT) goto yy1_61;\n\tgoto yy1_23;\nyy1_28:\n\tyych = *YYCURSOR;\n\tif (yych <= 0x00) goto yy1_30;\n\tif (yych <= 0x8F) goto yy1_61;\n\tif (yych <= 0xBF) goto yy1_29;\n\tgoto yy1_61;\nyy1_29:\n\tYYMARKER = YYCURSOR;\n\tyyaccept = 1;\n\t++YYCURSOR;\n\tgoto yy1_54;\nyy1_30:\n\tif (YYCURSOR >= YYLIMIT) goto yy1_31;\n\tgoto yy1_61;\nyy1_31:\n\tYYSETSTATE(4);\n\tif (YYFILL() == 0) goto yy1_28;\n\tgoto yy1_61;\nyy1_32:\n\tif (YYCURSOR >= YYLIMIT) goto yy1_61;\n\tgoto yy1_28;\nyy1_33:\n\tyych = *YYCURSOR;\n\tif (yych <= 0x00) goto yy1_35;\n\tif (yych <= 0x7F) goto yy1_61;\n\tif (yych <= 0xBF) goto yy1_34;\n\tgoto yy1_61;\nyy1_34:\n\tYYMARKER = YYCURSOR;\n\tyyaccept = 1;\n\t++YYCURSOR;\n\tgoto yy1_54;\nyy1_35:\n\tif (YYCURSOR >= YYLIMIT) goto yy1_36;\n\tgoto yy1_61;\nyy1_36:\n\tYYSETSTATE(5);\n\tif (YYFILL() == 0) goto yy1_33;\n\tgoto yy1_61;\nyy1_37:\n\tif (YYCURSOR >= YYLIMIT) goto yy1_61;\n\tgoto yy1_33;\nyy1_38:\n\tyych = *YYCURSOR;\n\tif (yych <= 0x00) goto yy1_40;\n\tif (yych <= 0x7F) goto yy1_61;\n\tif (yych <= 0x8F) goto yy1_39;\n\tgoto yy1_61;\nyy1_39:\n\tYYMARKER = YYCURSOR;\n\tyyaccept = 1;\n\t++YYCURSOR;\n\tgoto yy1_54;\nyy1_40:\n\tif (YYCURSOR >= YYLIMIT) goto yy1_41;\n\tgoto yy1_61;\nyy1_41:\n\tYYSETSTATE(6);\n\tif (YYFILL() == 0) goto yy1_38;\n\tgoto yy1_61;\nyy1_42:\n\tif (YYCURSOR >= YYLIMIT) goto yy1_61;\n\tgoto yy1_38;\nyy1_43:\n\tyych = *YYCURSOR;\n\tif (yych <= 0x00) goto yy1_45;\n\tif (yych <= 0x77) goto yy1_48;\n\tif (yych <= 0x78) goto yy1_44;\n\tgoto yy1_48;\nyy1_44:\n\tyyt2 = YYCURSOR;\n\t++YYCURSOR;\n\tgoto yy1_62;\nyy1_45:\n\tif (YYCURSOR >= YYLIMIT) goto yy1_46;\n\tgoto yy1_48;\nyy1_46:\n\tYYSETSTATE(7);\n\tif (YYFILL() == 0) goto yy1_43;\n\tgoto yy1_48;\nyy1_47:\n\tif (YYCURSOR >= YYLIMIT) goto yy1_48;\n\tgoto yy1_43;\nyy1_48:\n\tyyt2 = NULL;\n\tgoto yy1_62;\nyy1_49:\n\tyych = *YYCURSOR;\n\tif (yych <= 0x00) goto yy1_51;\n\tif (yych <= 0x7F) goto yy1_59;\n\tif (yych <= 0xBF) goto yy1_50;\n\tgoto yy1_59;\nyy1_50:\n\t++YYCURSOR;\n\tgoto yy1_43;\nyy1_51:\n\tif (YYCURSOR >= YYLIMIT) goto yy1_52;\n\tgoto yy1_59;\nyy1_52:\n\tYYSETSTATE(8);\n\tif (YYFILL() == 0) goto yy1_49;\n\tgoto yy1_59;\nyy1_53:\n\tif (YYCURSOR >= YYLIMIT) goto yy1_59;\n\tgoto yy1_49;\nyy1_54:\n\tyych = *YYCURSOR;\n\tif (yych <= 0x00) goto yy1_56;\n\tif (yych <= 0x7F) goto yy1_59;\n\tif (yych <= 0xBF) goto yy1_55;\n\tgoto yy1_59;\nyy1_55:\n\t++YYCURSOR;\n\tgoto yy1_49;\nyy1_56:\n\tif (YYCURSOR >= YYLIMIT) goto yy1_57;\n\tgoto yy1_59;\nyy1_57:\n\tYYSETSTATE(9);\n\tif (YYFILL() == 0) goto yy1_54;\n\tgoto yy1_59;\nyy1_58:\n\tif (YYCURSOR >= YYLIMIT) goto yy1_59;\n\tgoto yy1_54;\nyy1_59:\n\tgoto yy1_60;\nyy1_60:\n\tYYCURSOR = YYMARKER;\n\tgoto yy1_61;\nyy1_61:\n\t/*!code:re2c 3 3*/{ }\nyy1_62:\n\tt = yyt1;\n\tu = yyt2;\n\t/*!code:re2c 2 3*/{ }\nyy1_63:\n\t/*!code:re2c 1 3*/{ }\nyy1_none:;\n}\n/*!end:re2c*/";

/// Calls a lexer over a window. Behind a rule no match is under way, and the next window may begin anywhere.
fn told<S: Refill>(lexer: &mut Lexer<'_>, w: &mut Window<'_>, src: &mut S) -> Outcome
    requires unit { w.old.unit ≡ lexer.old.piece.unit }
    requires source_unit { S.unit src.old ≡ lexer.old.piece.unit }
    requires start { IfSome lexer.old.left (λ left. w.old.start ≡ lexer.old.start) }
    ensures piece { lexer.new.piece ≡ lexer.old.piece }
    ensures unit { w.new.unit ≡ w.old.unit }
    ensures source_unit { S.unit src.new ≡ S.unit src.old }
    ensures same_start { w.new.start ≡ w.old.start }
    ensures start { IfSome lexer.new.left (λ left. w.new.start ≡ lexer.new.start) }
    ensures over { (number : ℕ) → result ≡ Outcome.Rule number → lexer.new.left ≡ None }
{
    lexer.advance(w, src)
}

/// Makes a refill of a window, where it has room.
fn refill(w: &mut Window<'_>, src: &mut MemRefill<'_>)
    requires { src.old.unit ≡ w.old.unit }
    ensures unit { w.new.unit ≡ w.old.unit }
    ensures source_unit { src.new.unit ≡ src.old.unit }
    ensures start { w.new.start ≡ w.old.start }
{
    let (held, size) = (w.limit() - w.start(), w.size());
    if held < size {
        let _ = w.refill(src);
    }
}

/// Makes so many refills of a window, where it has room.
fn fill(w: &mut Window<'_>, src: &mut MemRefill<'_>, refills: usize)
    requires { src.old.unit ≡ w.old.unit }
    ensures unit { w.new.unit ≡ w.old.unit }
    ensures source_unit { src.new.unit ≡ src.old.unit }
    ensures start { w.new.start ≡ w.old.start }
{
    for _ in 0..refills {
        refill(w, src);
    }
}

/// Calls a lexer over a window that begins at an offset, behind so many refills. Its source brings a unit at a time and leaves the scanner
/// before each.
fn outcome_over(
    lexer: &mut Lexer<'_>,
    buffer: &mut [u8],
    at: u64,
    units: &[u8],
    refills: usize,
) -> Outcome
    requires unit { lexer.old.piece.unit ≡ 1 }
    requires start { IfSome lexer.old.left (λ left. at ≡ lexer.old.start) }
    requires early { at ≤ 8 }
    ensures piece { lexer.new.piece ≡ lexer.old.piece }
    ensures start { IfSome lexer.new.left (λ left. at ≡ lexer.new.start) }
    ensures over { (number : ℕ) → result ≡ Outcome.Rule number → lexer.new.left ≡ None }
{
    let mut w = Window::over(buffer, 1, at);
    let mut src = MemRefill::over(units, 1, 1, true);
    fill(&mut w, &mut src, refills);
    told(lexer, &mut w, &mut src)
}

/// How many refills bring so many units, or these and the answer that there are no more.
fn refill_count(units: usize, are_all: bool) -> usize {
    let last = if are_all { 2 } else { 0 };
    units.saturating_mul(2).saturating_add(last)
}

/// Calls a lexer over a window of so many units that begins at an offset, which a rule moves to where it ends. So many units of the input
/// are given before the call, or all of them and the answer that there are no more.
fn call(
    lexer: &mut Lexer<'_>,
    input: &[u8],
    at: &mut u64,
    given: usize,
    size: usize,
) -> Option<Outcome>
    requires unit { lexer.old.piece.unit ≡ 1 }
    requires start { IfSome lexer.old.left (λ left. at.old ≡ lexer.old.start) }
    ensures piece { lexer.new.piece ≡ lexer.old.piece }
    ensures start { IfSome lexer.new.left (λ left. at.new ≡ lexer.new.start) }
{
    let mut buffer = [0; 8];
    let (from, end) = (*at, given.min(input.len()));
    if size > 8 || from > 8 {
        return None;
    }
    let units = input.get(from as usize..end)?;
    let refills = refill_count(units.len(), given > input.len());
    let outcome = outcome_over(lexer, &mut buffer[..size], from, units, refills);
    if let Outcome::Rule { .. } = outcome {
        *at = lexer.cursor();
    }
    Some(outcome)
}

/// Whether the lexer, once it was saved, fits its piece; and the lexer once it was resumed.
fn turned<'p>(piece: &'p Piece, lexer: Lexer<'p>) -> (bool, Lexer<'p>)
    requires valid { IsValid piece.now }
    requires piece { lexer.piece ≡ piece.now }
    ensures { result.1 ≡ lexer.entry }
{
    let saved = lexer.save();
    let is_fit = fits(piece, &saved);
    (is_fit, resume(piece, saved))
}

/// Two inputs of `SIGNS`, where the first match ends, and what its second tag has.
const PARTS: [(&[u8], u64, Option<u64>); 2] = [
    (b"\xe2\x82\xac", 3, None),
    (b"\xe2\x82\xacx", 4, Some(3)),
];

/// Whether the last match ends there and its tags have these values.
fn has_sign(lexer: &Lexer<'_>, cursor: u64, second: Option<u64>) -> bool {
    lexer.start() == 0
        && lexer.cursor() == cursor
        && lexer.value(b"t") == Some(Some(0))
        && lexer.value(b"u") == Some(second)
}

/// How many units are given to the call behind one with this outcome; nothing where the input is not a sign that ends there.
fn given_behind(
    lexer: &Lexer<'_>,
    outcome: Option<Outcome>,
    given: usize,
    cursor: u64,
    second: Option<u64>,
) -> Option<usize> {
    match outcome {
        Some(Outcome::NeedFill) => given.checked_add(1),
        Some(Outcome::Rule { number: 2 }) if has_sign(lexer, cursor, second) => Some(given),
        _ => None,
    }
}

/// Whether the outcome is the rule of the end, there.
fn is_end(lexer: &Lexer<'_>, outcome: Option<Outcome>, cursor: u64) -> bool {
    outcome == Some(Outcome::Rule { number: 1 })
        && lexer.start() == cursor
        && lexer.cursor() == cursor
}

/// Whether the input is a sign and its end, where each unit comes in a window of its own, of 5 to 8 units.
fn is_read_in_parts(
    alloc: Global,
    piece: &Piece,
    input: &[u8],
    cursor: u64,
    second: Option<u64>,
) -> bool
    requires valid { IsValid piece.now }
    requires unit { piece.now.unit ≡ 1 }
{
    let Ok(mut lexer) = Lexer::load(alloc, piece) else {
        return false;
    };
    let (mut at, mut given, mut fits_all) = (0, 0, true);
    for number in 0..7_usize {
        let outcome = call(&mut lexer, input, &mut at, given, 5 + number % 4);
        let Some(more) = given_behind(&lexer, outcome, given, cursor, second) else {
            return fits_all && is_end(&lexer, outcome, cursor);
        };
        given = more;
        let (is_fit, resumed) = turned(piece, lexer);
        fits_all = fits_all && is_fit;
        lexer = resumed;
    }
    false
}

/// The same of the piece of `SIGNS`.
fn is_sign(alloc: Global, input: &[u8], cursor: u64, second: Option<u64>) -> bool {
    match piece_of(alloc, SIGNS) {
        Some(piece) => is_read_in_parts(alloc, &piece, input, cursor, second),
        None => false,
    }
}

#[test]
fn a_match_goes_on_over_other_windows(rt: HostRuntime) {
    for (input, cursor, second) in PARTS {
        assert!(rt; is_sign(rt.alloc(), input, cursor, second), "{cursor}");
    }
}

/// A source of single bytes of which each refill fails.
#[derive(Drop)]
struct Failing {
    faults: u64,
}

impl Refill for Failing {
    ghost use Rattle.std.specs.Prelude.{None};

    ghost unit = { λ _. 1 };

    ghost ahead = { λ _. None };

    ghost faults = { λ source. source.faults };

    ghost pauses = { λ _. 0 };

    fn refill(&mut self, room: &mut [u8]) -> Result<Fill, FillFailed> {
        self.faults = self.faults.saturating_add(1);
        Err(FillFailed)
    }
}

/// Whether a lexer tells this of a source that fails, and is spent by it.
fn is_spent_by(
    lexer: &mut Lexer<'_>,
    w: &mut Window<'_>,
    src: &mut Failing,
    outcome: Outcome,
) -> bool
    requires unit { w.old.unit ≡ 1 }
    requires piece { lexer.old.piece.unit ≡ 1 }
    requires start { IfSome lexer.old.left (λ left. w.old.start ≡ lexer.old.start) }
{
    let mut wanted = outcome;
    for _ in 0..3 {
        if told(lexer, w, src) != wanted {
            return false;
        }
        wanted = Outcome::Spent;
    }
    true
}

/// Moves the token of a window to an offset that it has.
fn begin(w: &mut Window<'_>, at: u64)
    ensures { w.new.unit ≡ w.old.unit }
{
    if w.start() <= at && at <= w.limit() && at <= 8 {
        w.begin(at);
    }
}

/// Makes so many matches, one behind another; whether each ends by a rule.
fn end_by_rules(
    lexer: &mut Lexer<'_>,
    w: &mut Window<'_>,
    src: &mut Failing,
    matches: usize,
) -> bool
    requires unit { w.old.unit ≡ 1 }
    requires piece { lexer.old.piece.unit ≡ 1 }
    requires over { lexer.old.left ≡ None }
    ensures unit { w.new.unit ≡ 1 }
    ensures piece { lexer.new.piece ≡ lexer.old.piece }
    ensures start { IfSome lexer.new.left (λ left. w.new.start ≡ lexer.new.start) }
{
    for _ in 0..matches {
        let Outcome::Rule { .. } = told(lexer, w, src) else {
            return false;
        };
        begin(w, lexer.cursor());
    }
    true
}

/// Of the input `abcd e`, which comes a unit at a time: behind how many refills one fails, how many matches end before, and where the
/// cursor stands then. The last one would answer that there are no more units.
const FAILURES: [(usize, usize, u64); 7] = [
    (0, 0, 0),
    (1, 0, 1),
    (2, 0, 2),
    (3, 0, 3),
    (4, 0, 4),
    (5, 2, 5),
    (6, 2, 6),
];

/// Whether the refill behind so many spends a fresh lexer, as it fails: so many matches end before, and the cursor stands there.
fn is_failed(lexer: &mut Lexer<'_>, refills: usize, matches: usize, cursor: u64) -> bool
    requires unit { lexer.old.piece.unit ≡ 1 }
    requires over { lexer.old.left ≡ None }
{
    let mut buffer = [0; 8];
    let mut w = Window::over(&mut buffer, 1, 0);
    fill(
        &mut w,
        &mut MemRefill::over(b"abcd e", 1, 1, false),
        refills,
    );
    let mut src = Failing { faults: 0 };
    let is_spent = end_by_rules(lexer, &mut w, &mut src, matches)
        && is_spent_by(lexer, &mut w, &mut src, Outcome::ReadFailed);
    let (at, limit) = (lexer.cursor(), w.limit());
    is_spent && at == cursor && limit == refills as u64 && src.faults == 1
}

/// The same of the lexer of a piece.
fn fails_once(alloc: Global, piece: &Piece, refills: usize, matches: usize, cursor: u64) -> bool
    requires valid { IsValid piece.now }
    requires unit { piece.now.unit ≡ 1 }
{
    match Lexer::load(alloc, piece) {
        Ok(mut lexer) => is_failed(&mut lexer, refills, matches, cursor),
        Err(_) => false,
    }
}

/// The same of the piece of `WORDS`.
fn words_fail_once(alloc: Global, refills: usize, matches: usize, cursor: u64) -> bool {
    match piece_of(alloc, WORDS) {
        Some(piece) => fails_once(alloc, &piece, refills, matches, cursor),
        None => false,
    }
}

#[test]
fn a_failed_refill_spends_a_lexer(rt: HostRuntime) {
    for (refills, matches, cursor) in FAILURES {
        assert!(rt;
            words_fail_once(rt.alloc(), refills, matches, cursor),
            "{refills}"
        );
    }
}

/// The front of a piece with a state, a tag and a check.
const FRONT: &[u8] =
    b"/*!begin:re2c 1*/\n/*!names:re2c 1 - 7:YYCTYPE 8:YYCURSOR 7:YYLIMIT 8:YYMARKER 11:YYCTXMARKER 6:YYFILL 10:YYGETSTATE 10:YYSETSTATE 14:YYGETCONDITION 14:YYSETCONDITION 7:YYMTAGP 7:YYMTAGN 4:yych 8:yyaccept 3:yyt 4:yyc_ 3:yyc*/\n{\n";

/// The middle of that piece, which a lexer is saved from.
const TAGGED: &[u8] =
    b"yy1_0:\n\tyyt1 = YYCURSOR;\n\tt = yyt1;\n\tYYSETSTATE(0);\n\tif ((YYLIMIT - YYCURSOR) < 1) YYFILL(1);\n\t++YYCURSOR;\n\t/*!code:re2c 1 0*/\n";

/// Middles of other pieces, and whether the saved lexer fits them: another rule; one tag more; other places; another state.
const OTHERS: [(&[u8], bool); 4] = [
    (
        b"yy1_0:\n\tyyt1 = YYCURSOR;\n\tt = yyt1;\n\tYYSETSTATE(0);\n\tif ((YYLIMIT - YYCURSOR) < 1) YYFILL(1);\n\t++YYCURSOR;\n\t/*!code:re2c 2 0*/\n",
        true,
    ),
    (
        b"yy1_0:\n\tyyt1 = YYCURSOR;\n\tt = yyt1;\n\tYYSETSTATE(0);\n\tif ((YYLIMIT - YYCURSOR) < 1) YYFILL(1);\n\t++YYCURSOR;\n\tu = yyt1;\n\t/*!code:re2c 1 0*/\n",
        false,
    ),
    (
        b"yy1_0:\n\tt = yyt1;\n\tyyt1 = YYCURSOR;\n\tYYSETSTATE(0);\n\tif ((YYLIMIT - YYCURSOR) < 1) YYFILL(1);\n\t++YYCURSOR;\n\t/*!code:re2c 1 0*/\n",
        false,
    ),
    (
        b"yy1_0:\n\tyyt1 = YYCURSOR;\n\tt = yyt1;\n\tYYSETSTATE(1);\n\tif ((YYLIMIT - YYCURSOR) < 1) YYFILL(1);\n\t++YYCURSOR;\n\t/*!code:re2c 1 0*/\n",
        false,
    ),
];

/// The text with this middle.
fn tagged_text(alloc: Global, middle: &[u8]) -> Result<Vec<u8>, AllocError> {
    let mut text = Vec::from_slice(alloc, FRONT)?;
    append_middle(&mut text, middle)?;
    Ok(text)
}

fn append_middle(text: &mut Vec<u8>, middle: &[u8]) -> Result<(), AllocError> {
    text.extend_from_slice(middle)?;
    text.extend_from_slice(b"yy1_none:;\n}\n/*!end:re2c*/")
}

/// Whether a fresh lexer is left before its first unit.
fn is_left(lexer: &mut Lexer<'_>) -> bool
    requires unit { lexer.old.piece.unit ≡ 1 }
    requires over { lexer.old.left ≡ None }
{
    call(lexer, b"", &mut 0, 0, 8) == Some(Outcome::NeedFill)
}

/// Whether the lexer, once it was saved, fits a piece.
fn fits_saved(lexer: Lexer<'_>, piece: &Piece) -> bool
    requires { IsValid piece.now }
{
    let saved = lexer.save();
    fits(piece, &saved)
}

/// Whether a lexer that was left before its first unit fits the other piece; nothing where it was not left.
fn fits_other(alloc: Global, piece: &Piece, other: &Piece) -> Option<bool>
    requires valid { IsValid piece.now }
    requires unit { piece.now.unit ≡ 1 }
    requires other { IsValid other.now }
{
    let mut lexer = Lexer::load(alloc, piece).ok()?;
    if !is_left(&mut lexer) {
        return None;
    }
    Some(fits_saved(lexer, other))
}

/// The same of the piece of another text.
fn fits_piece_of(alloc: Global, piece: &Piece, text: &[u8]) -> Option<bool>
    requires valid { IsValid piece.now }
    requires unit { piece.now.unit ≡ 1 }
{
    let other = piece_of(alloc, text)?;
    fits_other(alloc, piece, &other)
}

/// The same of the pieces of two texts.
fn fits_text(alloc: Global, text: &[u8], other: &[u8]) -> Option<bool> {
    let piece = piece_of(alloc, text)?;
    fits_piece_of(alloc, &piece, other)
}

/// The same of a text and of one with this middle.
fn fits_middle(alloc: Global, text: &[u8], middle: &[u8]) -> Option<bool> {
    let other = tagged_text(alloc, middle).ok()?;
    fits_text(alloc, text, &other)
}

/// The same of the text with the middle `TAGGED`.
fn fits_tagged(alloc: Global, middle: &[u8]) -> Option<bool> {
    let tagged = tagged_text(alloc, TAGGED).ok()?;
    fits_middle(alloc, &tagged, middle)
}

#[test]
fn saved_lexers_fit_some_pieces(rt: HostRuntime) {
    assert!(rt; fits_text(rt.alloc(), SIGNS, WORDS) == Some(false));
    for (middle, want) in OTHERS {
        assert!(rt; fits_tagged(rt.alloc(), middle) == Some(want));
    }
}
