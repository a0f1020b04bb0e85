//! Strings and classes, with their escapes.
ghost use Rattle.std.specs.Prelude.{◌≡◌, ◌<◌, ℕ, false, length, IfSome};
ghost use Rattle.std.specs.Option.{option_copied};
ghost use Rattle.lx_base.specs.Letters.{is_hexadecimal};
ghost use Rattle.lx_token.specs.Quoted.{after_close, after_quoted, begins_with_digits, is_escape, is_hex_digit, is_octal_digit};

use crate::words::after_letter;

fn is_octal_digit(letter: u8) -> bool
    ensures { result ≡ is_octal_digit letter }
{
    b'0' <= letter && letter <= b'7'
}

/// Whether the text begins with two octal digits.
fn begins_with_octal_digits(text: &[u8]) -> bool
    ensures { result ≡ begins_with_digits is_octal_digit 2 text.now }
{
    match text {
        [first, second, ..] => is_octal_digit(*first) && is_octal_digit(*second),
        _ => false,
    }
}

fn is_hex_digit(letter: u8) -> bool
    ensures { result ≡ is_hex_digit letter }
{
    letter.is_ascii_digit() || b'a' <= letter && letter <= b'f' || b'A' <= letter && letter <= b'F'
}

/// Whether the text begins with as many hexadecimal digits.
#[tactic(auto, using(crate::proofs::Digits::digit_rules))]
fn begins_with_hex_digits(text: &[u8], count: usize) -> bool
    ensures { result ≡ begins_with_digits is_hex_digit count text.now }
{
    let mut rest = text;
    let mut left = count;
    while left > 0 {
        match rest.split_first() {
            Some((letter, tail)) if is_hex_digit(*letter) => rest = tail,
            _ => return false,
        }
        left -= 1;
    }
    true
}

/// Whether a backslash, the letter and the text begin an escape.
fn is_escape(letter: u8, text: &[u8]) -> bool
    ensures { result ≡ is_escape letter text.now }
{
    match letter {
        b'x' => begins_with_hex_digits(text, 2),
        b'u' | b'X' => begins_with_hex_digits(text, 4),
        b'U' => begins_with_hex_digits(text, 8),
        b'0'..=b'3' => begins_with_octal_digits(text),
        b'4'..=b'7' | b'\n' => false,
        _ => true,
    }
}

/// What follows the next closing letter, behind plain bytes and escapes.
fn after_close(text: &[u8], close: u8) -> Option<&[u8]>
    ensures rest { option_copied result ≡ after_close close false text.now }
    ensures shorter { IfSome result (λ rest. length rest.now < length text.now) }
{
    let mut rest = text;
    let mut escaped = false;
    while let Some((letter, tail)) = rest.split_first() {
        if escaped {
            if !is_escape(*letter, tail) {
                return None;
            }
            escaped = false;
        } else {
            if *letter == close {
                return Some(tail);
            }
            if *letter == b'\n' {
                return None;
            }
            escaped = *letter == b'\\';
        }
        rest = tail;
    }
    None
}

/// What follows the string or the class that begins here with `opener` and ends with `close`.
pub(crate) fn after_quoted(text: &[u8], opener: u8, close: u8) -> Option<&[u8]>
    ensures rest { option_copied result ≡ after_quoted opener close text.now }
    ensures shorter { IfSome result (λ rest. length rest.now < length text.now) }
{
    after_close(after_letter(text, opener)?, close)
}

/// The digits of an escape are those of hexadecimal numbers, which have a value below 16.
pub fn hexadecimal_digits_are_one_set()
    ensures { (letter : ℕ) → is_hex_digit letter ≡ is_hexadecimal letter }
{}
