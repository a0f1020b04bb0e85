//! Content as lines of printable characters.
ghost use Rattle.std.specs.Prelude.{◌<◌, IfSome};

use case_reports::CaseError;
use std::alloc::{AllocError, Global};

/// Puts the bytes that a text spells behind others: `%` and two digits of base 16 are a byte, and other printable characters and tabs
/// stand for themselves.
pub fn push_spelled(bytes: &mut Vec<u8>, text: &str) -> Result<(), CaseError> {
    for (place, part) in text.split('%').enumerate() {
        if place == 0 {
            push_plain(bytes, part.as_bytes())?;
        } else {
            push_escaped(bytes, part.as_bytes())?;
        }
    }
    Ok(())
}

fn push_plain(bytes: &mut Vec<u8>, part: &[u8]) -> Result<(), CaseError> {
    for byte in part.iter() {
        if !is_plain(*byte) {
            return Err(CaseError::Malformed(
                "a byte that is no printable character is written %XX",
            ));
        }
        bytes.push(*byte)?;
    }
    Ok(())
}

/// What stands behind a sign `%`.
fn push_escaped(bytes: &mut Vec<u8>, part: &[u8]) -> Result<(), CaseError> {
    match part {
        [high, low, rest @ ..] => {
            push_byte(bytes, *high, *low)?;
            push_plain(bytes, rest)
        }
        _ => Err(CaseError::Malformed("no digits behind %")),
    }
}

fn push_byte(bytes: &mut Vec<u8>, high: u8, low: u8) -> Result<(), CaseError> {
    match byte(high, low) {
        Some(byte) => Ok(bytes.push(byte)?),
        None => Err(CaseError::Malformed("no digits behind %")),
    }
}

/// The byte that a text of two digits of base 16 spells.
pub fn spelled_byte(text: &str) -> Option<u8> {
    match text.as_bytes() {
        [high, low] => byte(*high, *low),
        _ => None,
    }
}

/// The byte of two digits of base 16.
fn byte(high: u8, low: u8) -> Option<u8> {
    Some(digit(high)? * 16 + digit(low)?)
}

fn is_plain(byte: u8) -> bool {
    matches!(byte, b' '..=b'~' | b'\t')
}

/// The value of a digit of base 16.
fn digit(unit: u8) -> Option<u8>
    ensures { IfSome result (λ value. value < 16) }
{
    match unit {
        b'0'..=b'9' => Some(unit - b'0'),
        b'A'..=b'F' => Some(unit - b'A' + 10),
        _ => None,
    }
}

/// How many bytes of a text are shown.
const SHOWN: usize = 100;

/// At most a hundred of the bytes from a place on, spelled.
pub fn spelled(alloc: Global, bytes: &[u8], from: usize) -> Result<String, AllocError> {
    let mut text = String::new(alloc);
    if from != 0 {
        text.push_str("..")?;
    }
    for byte in bytes.iter().skip(from).take(SHOWN) {
        push_spelling(&mut text, *byte)?;
    }
    if bytes.len() > from && bytes.len() - from > SHOWN {
        text.push_str("..")?;
    }
    Ok(text)
}

fn push_spelling(text: &mut String, byte: u8) -> Result<(), AllocError> {
    if matches!(byte, b' '..=b'~') && byte != b'%' {
        text.push(byte as char)
    } else {
        write!(text, "%{byte:02X}")
    }
}
