//! The bodies of the pieces in the places of directives, and the faults of directives.
ghost use Rattle.std.specs.Prelude.{◌≡◌, List, [], IfOk};
ghost use Rattle.lx_base.specs.Names.{Spellings};
ghost use Rattle.lx_ccode.specs.Bodies.{body_then};
ghost use Rattle.lx_compile.specs.Facts.{body_of, directive_fault, has_wrong_strings, holds_opener, is_wrong_format, missing_fault, pieces_among};
ghost use Rattle.lx_compile.specs.Making.{AreFacts};
ghost use Rattle.lx_compile.specs.declared.made.Made.{Made};
ghost use Rattle.lx_compile.specs.declared.parts.Directive.TheVariants as directive;

use crate::facts::{Facts, copy_cases};
use crate::parts::Directive;
use lx_base::{ByteText, Fault, Memory, Pos, Sequence};
use lx_ccode::{Body, FileState, Format};
use std::alloc::Global;

/// A copy of a format.
fn copy_format(alloc: Global, format: &Format) -> Result<Format, Memory>
    ensures { IfOk result (λ copy. copy ≡ format.now) }
{
    Ok(Format {
        format: ByteText::copy_of(alloc, format.format.as_slice())?,
        separator: ByteText::copy_of(alloc, format.separator.as_slice())?,
    })
}

/// A copy of numbers.
fn copy_numbers(alloc: Global, numbers: &[u32]) -> Result<Sequence<u32>, Memory>
    ensures { IfOk result (λ copies. copies ≡ numbers.now) }
{
    let mut copies = Sequence::new(alloc);
    for number in numbers {
        copies.push(*number)?;
    }
    Ok(copies)
}

/// A copy of the names of conditions.
fn copy_conditions(alloc: Global, conds: &[ByteText]) -> Result<Sequence<ByteText>, Memory>
    ensures { IfOk result (λ copies. copies ≡ conds.now) }
{
    let mut copies = Sequence::new(alloc);
    for cond in conds {
        copies.push(ByteText::copy_of(alloc, cond.as_slice())?)?;
    }
    Ok(copies)
}

/// A copy of states.
fn copy_states(alloc: Global, states: &[FileState]) -> Result<Sequence<FileState>, Memory>
    ensures { IfOk result (λ copies. copies ≡ states.now) }
{
    let mut copies = Sequence::new(alloc);
    for state in states {
        copies.push(FileState {
            number: state.number,
            case: state.case,
        })?;
    }
    Ok(copies)
}

/// A list of registers in a format; nothing without a format.
fn registers_in(alloc: Global, facts: &Facts, format: &Option<Format>) -> Result<Body, Memory>
    ensures { (made : List Made) → AreFacts facts.now made → IfOk result (λ body. body ≡ body_of made (directive.Stags format.now)) }
{
    match format {
        None => Ok(Body::Empty),
        Some(format) => Ok(Body::Registers {
            format: copy_format(alloc, format)?,
            numbers: copy_numbers(alloc, facts.registers.as_slice())?,
        }),
    }
}

/// A list of histories in a format; nothing without a format.
fn histories_in(alloc: Global, facts: &Facts, format: &Option<Format>) -> Result<Body, Memory>
    ensures { (made : List Made) → AreFacts facts.now made → IfOk result (λ body. body ≡ body_of made (directive.Mtags format.now)) }
{
    match format {
        None => Ok(Body::Empty),
        Some(format) => Ok(Body::Histories {
            format: copy_format(alloc, format)?,
            numbers: copy_numbers(alloc, facts.histories.as_slice())?,
        }),
    }
}

/// The switch over the states of a file.
fn state_switch(alloc: Global, facts: &Facts) -> Result<Body, Memory>
    ensures { (made : List Made) → AreFacts facts.now made → IfOk result (λ body. body ≡ body_of made directive.GetState) }
{
    match &facts.start {
        None => Ok(Body::Empty),
        Some(start) => Ok(Body::StateSwitch {
            states: copy_states(alloc, facts.states.as_slice())?,
            start: start.number,
            conds: copy_cases(alloc, start.conds.as_slice())?,
        }),
    }
}

/// The body of the piece in a directive's place.
pub(crate) fn body_of(alloc: Global, facts: &Facts, directive: &Directive) -> Result<Body, Memory>
    ensures { (made : List Made) → AreFacts facts.now made → IfOk result (λ body. body ≡ body_of made directive.now) }
{
    match directive {
        Directive::Nothing => Ok(Body::Empty),
        Directive::Max => Ok(Body::MaxFill(u64::from(facts.units))),
        Directive::MaxNmatch => Ok(Body::MaxGroups(u64::from(facts.groups))),
        Directive::Stags(format) => registers_in(alloc, facts, format),
        Directive::Mtags(format) => histories_in(alloc, facts, format),
        Directive::Types => {
            let conds = copy_conditions(alloc, facts.conds.as_slice())?;
            Ok(Body::Conditions(conds))
        }
        Directive::GetState => state_switch(alloc, facts),
    }
}

/// Whether `/*!` begins somewhere in a text.
fn holds_opener(text: &[u8]) -> bool
    ensures { result ≡ holds_opener text.now }
{
    let mut rest = text;
    while let Some((_, behind)) = rest.split_first() {
        if rest.starts_with(b"/*!") {
            return true;
        }
        rest = behind;
    }
    false
}

/// Whether the strings of a list hold `/*!`, or are none of bytes.
fn is_wrong_format(format: &Option<Format>) -> bool
    ensures { result ≡ is_wrong_format format.now }
{
    match format {
        None => true,
        Some(format) => {
            holds_opener(format.format.as_slice()) || holds_opener(format.separator.as_slice())
        }
    }
}

/// Whether the strings of a directive do.
fn has_wrong_strings(directive: &Directive) -> bool
    ensures { result ≡ has_wrong_strings directive.now }
{
    match directive {
        Directive::Stags(format) | Directive::Mtags(format) => is_wrong_format(format),
        _ => false,
    }
}

/// What is missing that a directive asks for, whose opener stands at `at`.
fn missing_fault(facts: &Facts, at: Pos, directive: &Directive) -> Option<Fault>
    ensures { (made : List Made) → AreFacts facts.now made → result ≡ missing_fault (pieces_among made) at directive.now }
{
    match directive {
        Directive::Types if facts.conds.as_slice().is_empty() => Some(Fault::Condition { at }),
        Directive::GetState if facts.start.is_none() => Some(Fault::NoRules { at }),
        _ => None,
    }
}

/// The fault of a directive whose opener stands at `at`, and whose text is this.
pub(crate) fn directive_fault(
    facts: &Facts,
    at: Pos,
    directive: &Directive,
    text: &[u8],
) -> Option<Fault>
    ensures { (names : Spellings) (made : List Made) → AreFacts facts.now made → text.now ≡ body_then names (body_of made directive.now) []
        → result ≡ directive_fault names made at directive.now }
{
    let missing = missing_fault(facts, at, directive);
    if missing.is_some() {
        return missing;
    }
    if has_wrong_strings(directive) || holds_opener(text) {
        return Some(Fault::BadValue { at });
    }
    None
}
