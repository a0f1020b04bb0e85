//! The characters of strings and classes.
ghost use Rattle.std.specs.Prelude.{◌≡◌, ℕ, ◌+◌, ◌-◌, ◌*◌, ◌<◌, ◌≤◌, List, [], ◌∷◌, length, take, drop, map, IfOk};
ghost use Rattle.lx_token.specs.Items.{AreItems, Item, character_of, spelled};
ghost use Rattle.lx_token.specs.Characters.{characters_behind, characters_of, digit_value, digits_value, escape_point, escape_size};

use lx_base::{Memory, Sequence};
use std::alloc::Global;

/// A character of a string or a class.
#[derive(Clone, Copy, PartialEq, Eq)]
pub struct Character {
    /// The code point. A byte that is not escaped is the code point of its number.
    pub point: u32,
    /// Whether an escape spells it.
    pub is_escaped: bool,
}

/// The value of a digit; at most 15 for any other byte.
fn digit_value(letter: u8) -> u32
    ensures value { result ≡ digit_value letter }
    ensures small { result < 16 }
{
    let value = match letter {
        ..=b'9' => letter.saturating_sub(b'0'),
        ..=b'F' => letter - 55,
        _ => letter.saturating_sub(87).min(15),
    };
    u32::from(value)
}

/// The value of four hexadecimal digits.
fn four_digits(a: u8, b: u8, c: u8, d: u8) -> u32
    ensures value { result ≡ 16 * (16 * (16 * digit_value a + digit_value b) + digit_value c) + digit_value d }
    ensures small { result < 65536 }
{
    4096 * digit_value(a) + 256 * digit_value(b) + 16 * digit_value(c) + digit_value(d)
}

fn two_hex_digits(text: &[u8]) -> u32
    ensures { result ≡ digits_value 16 2 0 text.now }
{
    match text {
        [a, b, ..] => 16 * digit_value(*a) + digit_value(*b),
        _ => 0,
    }
}

fn four_hex_digits(text: &[u8]) -> u32
    ensures { result ≡ digits_value 16 4 0 text.now }
{
    match text {
        [a, b, c, d, ..] => four_digits(*a, *b, *c, *d),
        _ => 0,
    }
}

fn eight_hex_digits(text: &[u8]) -> u32
    ensures { result ≡ digits_value 16 8 0 text.now }
{
    match text {
        [a, b, c, d, e, f, g, h, ..] => {
            65536 * four_digits(*a, *b, *c, *d) + four_digits(*e, *f, *g, *h)
        }
        _ => 0,
    }
}

/// The value of an octal digit and the two behind it.
fn octal_value(letter: u8, text: &[u8]) -> u32
    ensures { result ≡ digits_value 8 2 (letter - 48) text.now }
{
    match text {
        [a, b, ..] => {
            64 * u32::from(letter.saturating_sub(b'0')) + 8 * digit_value(*a) + digit_value(*b)
        }
        _ => 0,
    }
}

/// The code point of the escape that is spelled so behind its backslash.
fn escape_point(text: &[u8]) -> u32
    ensures { result ≡ escape_point text.now }
{
    let Some((letter, digits)) = text.split_first() else {
        return 0;
    };
    match *letter {
        b'x' => two_hex_digits(digits),
        b'u' | b'X' => four_hex_digits(digits),
        b'U' => eight_hex_digits(digits),
        b'0'..=b'7' => octal_value(*letter, digits),
        b'a' => 7,
        b'b' => 8,
        b'f' => 12,
        b'n' => 10,
        b'r' => 13,
        b't' => 9,
        b'v' => 11,
        other => u32::from(other),
    }
}

/// What follows the escape that is spelled so behind its backslash.
fn after_escape(text: &[u8]) -> &[u8]
    ensures rest { result.now ≡ drop (escape_size text.now) text.now }
    ensures shorter { length result.now ≤ length text.now }
{
    let size = match text.first() {
        None => 0,
        Some(b'x' | b'0'..=b'7') => 3,
        Some(b'u' | b'X') => 5,
        Some(b'U') => 9,
        Some(_) => 1,
    };
    &text[text.len().min(size)..]
}

/// The characters of a token of kind `Str`, `IStr` or `Class`, by its text.
///
/// An escape is one character, and so is any other byte. `Memory` says that memory is
/// wanting; it may be answered at each text, and no clause ties it to a cause.
pub fn characters_of(alloc: Global, text: &[u8]) -> Result<Sequence<Character>, Memory>
    ensures { IfOk result (λ characters. characters ≡ characters_of text.now) }
{
    let mut characters = Sequence::new(alloc);
    let mut rest = between_ends(text);
    while let Some((letter, tail)) = rest.split_first() {
        if *letter == b'\\' {
            characters.push(Character {
                point: escape_point(tail),
                is_escaped: true,
            })?;
            rest = after_escape(tail);
        } else {
            characters.push(Character {
                point: u32::from(*letter),
                is_escaped: false,
            })?;
            rest = tail;
        }
    }
    Ok(characters)
}

/// The text without its first and its last byte.
fn between_ends(text: &[u8]) -> &[u8]
    ensures { result.now ≡ take (length text.now - 2) (drop 1 text.now) }
{
    match text {
        [_, inner @ .., _] => inner,
        _ => &[],
    }
}

/// Which characters a string or class has: it does nothing, and its contract is the law.
pub fn characters_are_those_of_items()
    ensures { (opener close : ℕ) (items : List Item) → AreItems close items →
        characters_of (opener ∷ spelled items (close ∷ [])) ≡ map character_of items }
{}
