//! The text of what is made of a source.
ghost use Rattle.std.specs.Prelude.{◌≡◌, ◌<◌, ◌∷◌, ◌++◌, All, IfOk, List, MatchResult, OnOk, length, None, Some};
ghost use Rattle.lx_base.specs.declared.faults.Stop.{Stop};
ghost use Rattle.lx_ccode.specs.Bodies.{body_piece_text};
ghost use Rattle.lx_ccode.specs.Text.{piece_text};
ghost use Rattle.lx_ccode.specs.Validity.{IsValid};
ghost use Rattle.lx_compile.specs.Facts.{body_of, directive_fault, directives_fault, fault_among};
ghost use Rattle.lx_compile.specs.Making.{AreAsked, AreFacts, CanAnswer, CanTell};
ghost use Rattle.lx_compile.specs.Writing.{IsPrintable, StopsAs, StopsByDirectives, made_text, number_behind, output_text, place_of};
ghost use Rattle.lx_compile.specs.declared.made.Made.{Made};

use crate::bodies::{body_of, directive_fault};
use crate::facts::{Facts, facts_asked};
use crate::made::Made;
use crate::parts::Directive;
use lx_base::{Fault, Memory, Names, Pos, Stop};
use lx_ccode::{
    Body, LineMark, Piece, append_piece, is_three, line_after, print_body, print_body_piece,
};
use lx_shared::SharedText;
use std::alloc::Global;

/// The fault of a directive whose opener stands at `at`, and which has this body.
fn body_fault(
    alloc: Global,
    names: &Names,
    facts: &Facts,
    at: Pos,
    directive: &Directive,
    body: &Body,
) -> Result<Option<Fault>, Memory>
    ensures { (made : List Made) → AreFacts facts.now made → body.now ≡ body_of made directive.now
        → IfOk result (λ fault. fault ≡ directive_fault names.now made at directive.now) }
{
    let text = print_body(alloc, names, body)?;
    Ok(directive_fault(facts, at, directive, text.as_slice()))
}

/// Appends the piece with this body. Where it is refused a part of it may stand there.
fn append_body(
    alloc: Global,
    output: &mut Vec<u8>,
    names: &Names,
    number: u32,
    body: &Body,
    line: &Option<LineMark>,
) -> Result<(), Memory>
    ensures { OnOk result (output.new.items ≡ output.old.items ++ body_piece_text number names.now body.now line.now) }
{
    let text = print_body_piece(alloc, number, names, body, line)?;
    output.extend_from_slice(text.as_slice())?;
    Ok(())
}

/// Appends the piece in the place of a directive with this body, whose opener stands at `at`, or refuses with the fault of the directive.
/// Where it is refused a part of the piece may stand there.
fn append_faultless(
    alloc: Global,
    output: &mut Vec<u8>,
    names: &Names,
    facts: &Facts,
    number: u32,
    at: Pos,
    line: &Option<LineMark>,
    directive: &Directive,
    body: &Body,
) -> Result<(), Stop>
    ensures { (made : List Made) → AreFacts facts.now made → body.now ≡ body_of made directive.now → MatchResult result
        (λ _. (output.new.items ≡ output.old.items ++ body_piece_text number names.now body.now line.now)
        × (directive_fault names.now made at directive.now ≡ None))
        (StopsAs (directive_fault names.now made at directive.now)) }
{
    if let Some(fault) = body_fault(alloc, names, facts, at, directive, body)? {
        return Err(Stop::Fault(fault));
    }
    append_body(alloc, output, names, number, body, line)?;
    Ok(())
}

/// The same by the directive alone.
fn append_answer(
    alloc: Global,
    output: &mut Vec<u8>,
    names: &Names,
    facts: &Facts,
    number: u32,
    at: Pos,
    line: &Option<LineMark>,
    directive: &Directive,
) -> Result<(), Stop>
    ensures { (made : List Made) → AreFacts facts.now made → MatchResult result
        (λ _. (output.new.items ≡ output.old.items ++ body_piece_text number names.now (body_of made directive.now) line.now)
        × (directive_fault names.now made at directive.now ≡ None))
        (StopsAs (directive_fault names.now made at directive.now)) }
{
    let body = body_of(alloc, facts, directive)?;
    append_faultless(
        alloc, output, names, facts, number, at, line, directive, &body,
    )
}

/// The same where facts are there if the directive asks for any.
fn append_directive(
    alloc: Global,
    output: &mut Vec<u8>,
    names: &Names,
    facts: &Option<Facts>,
    number: u32,
    at: Pos,
    line: &Option<LineMark>,
    directive: &Directive,
) -> Result<(), Stop>
    ensures { (made : List Made) → CanAnswer facts.now made directive.now → MatchResult result
        (λ _. (output.new.items ≡ output.old.items ++ body_piece_text number names.now (body_of made directive.now) line.now)
        × (directive_fault names.now made at directive.now ≡ None))
        (StopsAs (directive_fault names.now made at directive.now)) }
{
    match facts {
        Some(facts) => append_answer(alloc, output, names, facts, number, at, line, directive),
        None => Ok(append_body(alloc, output, names, number, &Body::Empty, line)?),
    }
}

/// The place of a piece in the output, whose begin mark stands in a line, if its text tells one: the line of its brace.
fn place_of(out: &SharedText, line: u32, piece: &Piece) -> Result<Option<LineMark>, Memory>
    ensures { IfOk result (λ place. place ≡ place_of out.now line piece.now) }
{
    if !is_three(&piece.head) || piece.line.is_none() {
        return Ok(None);
    }
    Ok(Some(LineMark {
        line: line.saturating_add(4),
        file: out.share()?,
    }))
}

/// Appends a piece of scanners whose begin mark stands in a line of the output. Where it is refused a part of it may stand there.
fn append_placed(
    alloc: Global,
    output: &mut Vec<u8>,
    out: &SharedText,
    line: u32,
    piece: &Piece,
) -> Result<(), Memory>
    requires valid { IsValid piece.now }
    ensures { OnOk result (output.new.items ≡ output.old.items ++ piece_text (place_of out.now line piece.now) piece.now) }
{
    let place = place_of(out, line, piece)?;
    append_piece(alloc, output, &place, piece)
}

/// Appends the text of one that is made, which begins in a line of the output, or refuses with its fault. Where it is refused a part of the
/// text may stand there.
fn append_made(
    alloc: Global,
    output: &mut Vec<u8>,
    names: &Names,
    facts: &Option<Facts>,
    out: &SharedText,
    number: u32,
    line: u32,
    one: &Made,
) -> Result<(), Stop>
    requires valid { IsPrintable one.now }
    ensures { (all rest : List Made) → CanTell facts.now all one.now → MatchResult result
        (λ _. (output.new.items ≡ output.old.items ++ made_text names.now out.now all number line one.now)
        × (fault_among names.now all (one.now ∷ rest) ≡ fault_among names.now all rest))
        (StopsAs (fault_among names.now all (one.now ∷ rest))) }
{
    match one {
        Made::Outside(text) => Ok(output.extend_from_slice(text.as_slice())?),
        Made::Scanners { piece, .. } => Ok(append_placed(alloc, output, out, line, piece)?),
        Made::Bare {
            at,
            line,
            directive,
        } => append_directive(alloc, output, names, facts, number, *at, line, directive),
    }
}

/// The number of the next piece.
fn number_behind(number: u32, one: &Made) -> u32
    requires { number < 4294967295 }
    ensures { result ≡ number_behind number one.now }
{
    match one {
        Made::Outside(_) => number,
        _ => number + 1,
    }
}

/// Appends the text of all that is made, of which these are the facts if a directive asks for any, or refuses with the fault of the first
/// directive that has one.
fn append_all(
    alloc: Global,
    output: &mut Vec<u8>,
    names: &Names,
    facts: &Option<Facts>,
    out: &SharedText,
    made: &[Made],
) -> Result<(), Stop>
    requires valid { All IsPrintable made.now }
    requires few { length made.now < 4294967295 }
    requires facts { AreAsked facts.now made.now }
    ensures { MatchResult result
        (λ _. (output.new.items ≡ output.old.items ++ output_text names.now out.now made.now)
        × (directives_fault names.now made.now ≡ None))
        (StopsByDirectives names.now made.now) }
{
    let mut number = 1;
    let mut line = 1;
    for one in made {
        let before = output.len();
        append_made(alloc, output, names, facts, out, number, line, one)?;
        line = line_after(line, &output.as_slice()[before..]);
        number = number_behind(number, one);
    }
    Ok(())
}

/// The text of all that is made, of which these are the facts if a directive asks for any, one behind another.
fn text_by_facts(
    alloc: Global,
    names: &Names,
    facts: &Option<Facts>,
    out: &SharedText,
    made: &[Made],
) -> Result<Vec<u8>, Stop>
    requires valid { All IsPrintable made.now }
    requires few { length made.now < 4294967295 }
    requires facts { AreAsked facts.now made.now }
    ensures { MatchResult result
        (λ output. (output.items ≡ output_text names.now out.now made.now) × (directives_fault names.now made.now ≡ None))
        (StopsByDirectives names.now made.now) }
{
    let mut output = Vec::new(alloc);
    append_all(alloc, &mut output, names, facts, out, made)?;
    Ok(output)
}

/// The text of all that is made, one behind another. Pieces are numbered from 1; directives speak of all pieces, by these spellings.
///
/// It refuses with the fault of the first directive that has one; `Memory` may be answered, and no clause ties it to a cause.
pub(crate) fn write(
    alloc: Global,
    names: &Names,
    out: &SharedText,
    made: &[Made],
) -> Result<Vec<u8>, Stop>
    requires valid { All IsPrintable made.now }
    requires few { length made.now < 4294967295 }
    ensures { MatchResult result
        (λ output. (output.items ≡ output_text names.now out.now made.now) × (directives_fault names.now made.now ≡ None))
        (StopsByDirectives names.now made.now) }
{
    let facts = facts_asked(alloc, made)?;
    text_by_facts(alloc, names, &facts, out, made)
}
