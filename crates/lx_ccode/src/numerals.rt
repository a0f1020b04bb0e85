//! Writes words, numbers, registers and histories, of which lines consist.
ghost use Rattle.std.specs.Prelude.{◌≡◌, ◌<◌, ◌≤◌, ◌++◌, [], ◌∷◌, codes, true, IfOk, OnOk, string_bytes};
ghost use Rattle.std.specs.Fmt.{decimal, digit_glyph};
ghost use Rattle.lx_base.specs.Text.{joined};
ghost use Rattle.lx_ccode.specs.Registers.{register_text, history_text, variable_text};
ghost use Rattle.lx_ccode.specs.Text.{hexadecimal};

use itoa::Buffer;
use lx_base::names::{context_marker, tag_prefix};
use lx_base::{Memory, Names};
use std::alloc::Global;

/// Appends a word between two others. It stands in its callers, where constant bytes are not copied by a call.
#[inline(always)]
pub fn append_word(
    text: &mut Vec<u8>,
    before: &[u8],
    word: &[u8],
    behind: &[u8],
) -> Result<(), Memory>
    ensures { OnOk result (text.new.items ≡ text.old.items ++ joined (before.now ∷ word.now ∷ behind.now ∷ []) []) }
{
    append_bytes(text, before)?;
    text.extend_from_slice(word)?;
    append_bytes(text, behind)
}

/// Appends a number in decimal digits between two words.
#[inline(always)]
pub fn append_number(
    text: &mut Vec<u8>,
    before: &[u8],
    number: u64,
    behind: &[u8],
) -> Result<(), Memory>
    ensures { OnOk result (text.new.items ≡ text.old.items ++ joined (before.now ∷ decimal number ∷ behind.now ∷ []) []) }
{
    append_bytes(text, before)?;
    append_digits(text, number)?;
    append_bytes(text, behind)
}

/// Appends the numbers of a piece and of its block, with `_` between them, between two words.
#[inline(always)]
pub fn append_block(
    text: &mut Vec<u8>,
    before: &[u8],
    number: u32,
    block: u64,
    behind: &[u8],
) -> Result<(), Memory>
    ensures { OnOk result (text.new.items ≡ text.old.items ++ joined (before.now ∷ decimal number ∷ codes "_" ∷ decimal block ∷ behind.now ∷ []) []) }
{
    append_number(text, before, u64::from(number), b"_")?;
    append_digits(text, block)?;
    append_bytes(text, behind)
}

/// Appends bytes, of which one or two are pushed, since to push a byte costs less than to copy bytes.
#[inline(always)]
pub fn append_bytes(text: &mut Vec<u8>, bytes: &[u8]) -> Result<(), Memory>
    ensures { OnOk result (text.new.items ≡ text.old.items ++ bytes.now) }
{
    match bytes {
        [] => Ok(()),
        [one] => Ok(text.push(*one)?),
        [one, two] => {
            text.push(*one)?;
            Ok(text.push(*two)?)
        }
        _ => Ok(text.extend_from_slice(bytes)?),
    }
}

fn append_digits(text: &mut Vec<u8>, number: u64) -> Result<(), Memory>
    ensures { OnOk result (text.new.items ≡ text.old.items ++ decimal number) }
{
    if number < 10 {
        return Ok(text.push(b'0' + number as u8)?);
    }
    if number < 100 {
        text.push(b'0' + (number / 10) as u8)?;
        return Ok(text.push(b'0' + (number % 10) as u8)?);
    }
    let mut digits = Buffer::new();
    text.extend_from_slice(digits.format(number).as_bytes())?;
    Ok(())
}

/// Appends a number in hexadecimal digits, of which those of a byte are pushed.
pub fn append_hexadecimal(alloc: Global, text: &mut Vec<u8>, number: u32) -> Result<(), Memory>
    ensures { OnOk result (text.new.items ≡ text.old.items ++ hexadecimal number) }
{
    if number < 256 {
        text.push(hexadecimal_digit(number / 16))?;
        return Ok(text.push(hexadecimal_digit(number % 16))?);
    }
    let digits = hexadecimal(alloc, number)?;
    Ok(text.extend_from_slice(digits.as_bytes())?)
}

/// Appends a number of more than one digit in hexadecimal digits.
pub fn append_long_hexadecimal(alloc: Global, text: &mut Vec<u8>, number: u64) -> Result<(), Memory>
    requires { 16 ≤ number }
    ensures { OnOk result (text.new.items ≡ text.old.items ++ hexadecimal number) }
{
    let digits = format!(in alloc; "{number:X}")?;
    Ok(text.extend_from_slice(digits.as_bytes())?)
}

fn hexadecimal_digit(digit: u32) -> u8
    requires { digit < 16 }
    ensures { result ≡ digit_glyph true digit }
{
    if digit < 10 {
        b'0' + digit as u8
    } else {
        b'7' + digit as u8
    }
}

/// A register, counted from 1: the context marker where `ctx` says so of register 1, else the prefix and
/// the number.
pub fn append_register(
    text: &mut Vec<u8>,
    names: &Names,
    ctx: bool,
    register: u32,
) -> Result<(), Memory>
    ensures { OnOk result (text.new.items ≡ text.old.items ++ register_text names.now ctx register) }
{
    if ctx && register == 1 {
        Ok(text.extend_from_slice(context_marker(names))?)
    } else {
        text.extend_from_slice(tag_prefix(names))?;
        append_digits(text, u64::from(register))
    }
}

/// A history, counted from 0: the prefix, `m` and the number.
pub fn append_history(text: &mut Vec<u8>, names: &Names, history: u32) -> Result<(), Memory>
    ensures { OnOk result (text.new.items ≡ text.old.items ++ history_text names.now history) }
{
    text.extend_from_slice(tag_prefix(names))?;
    text.push(b'm')?;
    append_digits(text, u64::from(history))
}

/// A history where `history` says so, else a register, which is never the context marker.
pub fn variable_text(
    alloc: Global,
    names: &Names,
    history: bool,
    number: u32,
) -> Result<Vec<u8>, Memory>
    ensures { IfOk result (λ text. text.items ≡ variable_text names.now history number) }
{
    let mut text = Vec::new(alloc);
    if history {
        append_history(&mut text, names, number)?;
    } else {
        append_register(&mut text, names, false, number)?;
    }
    Ok(text)
}

/// A number in hexadecimal digits in upper case, at least two of them.
pub fn hexadecimal(alloc: Global, number: u32) -> Result<String, Memory>
    ensures { IfOk result (λ text. string_bytes text ≡ hexadecimal number) }
{
    if number < 16 {
        Ok(format!(in alloc; "0{number:X}")?)
    } else {
        Ok(format!(in alloc; "{number:X}")?)
    }
}
