//! The values of numbers and of bounds.
ghost use Rattle.std.specs.Prelude.{◌≡◌};
ghost use Rattle.lx_token.specs.Numbers.{greatest_of, number_of, numeral_value, repeat_of};

use crate::words::after_digits;
use lx_base::letters::is_digit;

/// Where kept values end: 2^40 stands for itself and for more.
const MOST: u64 = 1 << 40;

/// The value of a number.
#[derive(Clone, Copy, PartialEq, Eq)]
pub struct Number {
    /// Whether `-` stands before the digits.
    pub is_negative: bool,
    /// The value of the digits; 2^40 stands for itself and for more.
    pub magnitude: u64,
}

/// How often what stands before bounds may be repeated; 2^40 stands for itself and for more.
#[derive(Clone, Copy, PartialEq, Eq)]
pub struct Repeat {
    /// The least count.
    pub min: u64,
    /// The greatest count, which may be less than the least one; `None` where there is no end.
    pub max: Option<u64>,
}

/// The value of the decimal digits at the front of the text.
fn numeral_value(text: &[u8]) -> u64
    ensures { result ≡ numeral_value text.now }
{
    let mut value: u64 = 0;
    for letter in text {
        if !is_digit(*letter) {
            break;
        }
        value = MOST.min(10 * value + u64::from(*letter - b'0'));
    }
    value
}

/// The value of a token of kind `Number`, by its text. A magnitude of 2^40 stands for itself and for more.
pub fn number_of(text: &[u8]) -> Number
    ensures { result ≡ number_of text.now }
{
    match text.split_first() {
        Some((b'-', digits)) => Number {
            is_negative: true,
            magnitude: numeral_value(digits),
        },
        _ => Number {
            is_negative: false,
            magnitude: numeral_value(text),
        },
    }
}

/// The greatest count, by what follows the least one.
fn greatest_of(least: u64, text: &[u8]) -> Option<u64>
    ensures { result ≡ greatest_of least text.now }
{
    if text.starts_with(b",}") {
        None
    } else if text.starts_with(b",") {
        Some(numeral_value(&text[1..]))
    } else {
        Some(least)
    }
}

/// The counts of a token of kind `Bounds`, by its text. A count of 2^40 stands for itself and for more.
pub fn repeat_of(text: &[u8]) -> Repeat
    ensures { result ≡ repeat_of text.now }
{
    let digits = match text.split_first() {
        Some((_, digits)) => digits,
        None => text,
    };
    let min = numeral_value(digits);
    Repeat {
        min,
        max: greatest_of(min, after_digits(digits)),
    }
}
