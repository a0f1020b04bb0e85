//! Reads the head line of a piece.
ghost use Rattle.std.specs.Prelude.{◌≡◌};
ghost use Rattle.lx_ccode.specs.Heads.{is_custom, is_three};
ghost use Rattle.lx_ccode.specs.Reading.{encoding_of, format_of, head_at, head_fields_at, head_line_at, kept_fields_at, mode_of};
ghost use Rattle.lx_creader.specs.Fitted.{fitted_fields, fitted_head};

use crate::words::{
    after_digits, after_identifier, byte_at, front_identifier, long_at, short_at, skip,
};
use lx_base::letters::equal_words;
use lx_base::{Enc, Format};
use lx_ccode::{Head, Mode};

#[tactic(auto, unfolding(lx_ccode::specs::Reading::encoding_of))]
fn encoding_of(word: &[u8]) -> Enc
    ensures { result ≡ encoding_of word.now }
{
    if equal_words(word, b"ucs2") {
        Enc::Ucs2
    } else if equal_words(word, b"utf8") {
        Enc::Utf8
    } else if equal_words(word, b"utf16") {
        Enc::Utf16
    } else if equal_words(word, b"utf32") {
        Enc::Utf32
    } else {
        Enc::Byte
    }
}

#[tactic(auto, unfolding(lx_ccode::specs::Reading::mode_of))]
fn mode_of(word: &[u8]) -> Mode
    ensures { result ≡ mode_of word.now }
{
    if equal_words(word, b"count") {
        Mode::Count
    } else if equal_words(word, b"eoffixed") {
        Mode::EofFixed
    } else if equal_words(word, b"eof") {
        Mode::Eof
    } else {
        Mode::Plain
    }
}

fn format_of(digit: u8) -> Format
    ensures { result ≡ format_of digit }
{
    if digit == b'3' {
        Format::Three
    } else {
        Format::Two
    }
}

/// The head whose encoding stands at the front, and what comes behind its line.
#[tactic(auto, unfolding(lx_ccode::specs::Reading::head_fields_at))]
fn head_fields_at(format: Format, custom: bool, bytes: &[u8]) -> (Head, &[u8])
    ensures { (result.0 ≡ fitted_fields (head_fields_at format custom bytes.now).0) × (result.1.now ≡ (head_fields_at format custom bytes.now).1) }
{
    let mode = skip(after_identifier(bytes), 1);
    let regs = skip(after_identifier(mode), 1);
    let mregs = skip(after_digits(regs), 1);
    let states = skip(after_digits(mregs), 1);
    let head = Head {
        format,
        custom,
        enc: encoding_of(front_identifier(bytes)),
        mode: mode_of(front_identifier(mode)),
        regs: short_at(regs),
        mregs: short_at(mregs),
        states: long_at(states),
    };
    (head, skip(after_digits(states), 3))
}

/// The head, where `kept` may stand before its encoding, whether it does, and what comes behind its line.
#[tactic(auto, unfolding(lx_ccode::specs::Reading::kept_fields_at))]
fn kept_fields_at(format: Format, custom: bool, bytes: &[u8]) -> (Head, bool, &[u8])
    ensures { (result.0 ≡ fitted_fields (kept_fields_at format custom bytes.now).0) × (result.1 ≡ (kept_fields_at format custom bytes.now).1) × (result.2.now ≡ (kept_fields_at format custom bytes.now).2) }
{
    if byte_at(bytes, 0) == b'k' {
        let (head, rest) = head_fields_at(format, custom, skip(bytes, 5));
        (head, true, rest)
    } else {
        let (head, rest) = head_fields_at(format, custom, bytes);
        (head, false, rest)
    }
}

/// The head, behind the first words of its line, whether `kept` stands in it, and what comes behind it.
#[tactic(auto, unfolding(lx_ccode::specs::Reading::head_line_at))]
fn head_line_at(format: Format, bytes: &[u8]) -> (Head, bool, &[u8])
    ensures { (result.0 ≡ fitted_fields (head_line_at format bytes.now).0) × (result.1 ≡ (head_line_at format bytes.now).1) × (result.2.now ≡ (head_line_at format bytes.now).2) }
{
    if byte_at(bytes, 0) == b'c' {
        kept_fields_at(format, true, skip(bytes, 7))
    } else {
        kept_fields_at(format, false, bytes)
    }
}

/// The head, where its line stands, whether `kept` stands in it, and what comes behind it.
#[tactic(auto, unfolding(lx_ccode::specs::Reading::head_at))]
pub(crate) fn head_at(bytes: &[u8]) -> (Option<Head>, bool, &[u8])
    ensures head { result.0 ≡ fitted_head (head_at bytes.now).0 }
    ensures custom { is_custom result.0 ≡ is_custom (head_at bytes.now).0 }
    ensures three { is_three result.0 ≡ is_three (head_at bytes.now).0 }
    ensures kept { result.1 ≡ (head_at bytes.now).1 }
    ensures rest { result.2.now ≡ (head_at bytes.now).2 }
{
    if byte_at(bytes, 3) == b'h' {
        let format = format_of(byte_at(bytes, 13));
        let (head, kept, rest) = head_line_at(format, skip(bytes, 15));
        (Some(head), kept, rest)
    } else {
        (None, false, bytes)
    }
}
