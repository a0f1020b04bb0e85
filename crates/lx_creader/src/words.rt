//! The words and numbers at the front of bytes.
ghost use Rattle.std.specs.Prelude.{◌≡◌, ◌<◌, ◌≤◌, take, drop, min, slice_index};
ghost use Rattle.std.specs.Str.Parse.{digits_value};
ghost use Rattle.lx_base.specs.Letters.{after_letters, front_letters, is_digit, is_hexadecimal, is_in_identifier, is_in_spelling, is_in_type};
ghost use Rattle.lx_ccode.specs.Reading.{byte_at, hexadecimal_at, number_at};

use lx_base::Letters;
use lx_base::letters::{after_letters, digit_value, front_letters};

/// The byte at a place, or 0 behind the end.
pub(crate) fn byte_at(bytes: &[u8], place: usize) -> u8
    ensures { result ≡ byte_at bytes.now place }
{
    if place < bytes.len() { bytes[place] } else { 0 }
}

/// What comes behind so many bytes.
pub(crate) fn skip(bytes: &[u8], count: usize) -> &[u8]
    ensures { result.now ≡ drop count bytes.now }
{
    if count <= bytes.len() {
        &bytes[count..]
    } else {
        &[]
    }
}

/// What comes behind the digits at the front.
pub(crate) fn after_digits(bytes: &[u8]) -> &[u8]
    ensures { result.now ≡ after_letters is_digit bytes.now }
{
    after_letters(bytes, Letters::Digits)
}

/// What comes behind the hexadecimal digits at the front.
pub(crate) fn after_hexadecimal(bytes: &[u8]) -> &[u8]
    ensures { result.now ≡ after_letters is_hexadecimal bytes.now }
{
    after_letters(bytes, Letters::Hexadecimal)
}

/// What comes behind the letters, digits and `_` at the front.
pub(crate) fn after_identifier(bytes: &[u8]) -> &[u8]
    ensures { result.now ≡ after_letters is_in_identifier bytes.now }
{
    after_letters(bytes, Letters::Identifier)
}

/// What comes behind the letters of a spelling at the front.
pub(crate) fn after_spelling(bytes: &[u8]) -> &[u8]
    ensures { result.now ≡ after_letters is_in_spelling bytes.now }
{
    after_letters(bytes, Letters::Spelling)
}

/// What comes behind the letters of a type at the front.
pub(crate) fn after_type(bytes: &[u8]) -> &[u8]
    ensures { result.now ≡ after_letters is_in_type bytes.now }
{
    after_letters(bytes, Letters::TypeName)
}

/// The digits at the front.
pub(crate) fn front_digits(bytes: &[u8]) -> &[u8]
    ensures { result.now ≡ front_letters is_digit bytes.now }
{
    front_letters(bytes, Letters::Digits)
}

/// The hexadecimal digits at the front.
pub(crate) fn front_hexadecimal(bytes: &[u8]) -> &[u8]
    ensures { result.now ≡ front_letters is_hexadecimal bytes.now }
{
    front_letters(bytes, Letters::Hexadecimal)
}

/// The letters, digits and `_` at the front.
pub(crate) fn front_identifier(bytes: &[u8]) -> &[u8]
    ensures { result.now ≡ front_letters is_in_identifier bytes.now }
{
    front_letters(bytes, Letters::Identifier)
}

/// The letters of a spelling at the front.
pub(crate) fn front_spelling(bytes: &[u8]) -> &[u8]
    ensures { result.now ≡ front_letters is_in_spelling bytes.now }
{
    front_letters(bytes, Letters::Spelling)
}

/// The number that a word writes in a base; the greatest number where it has no room.
fn value_of(word: &[u8], base: u64) -> u64
    requires small { base ≤ 16 }
    requires some { 0 < base }
    ensures { result ≡ min (digits_value base word.now) 18446744073709551615 }
{
    let mut value: u64 = 0;
    for letter in word {
        value = value
            .saturating_mul(base)
            .saturating_add(u64::from(digit_value(*letter)));
    }
    value
}

/// The number that a word writes; the greatest number where it has no room.
pub(crate) fn long_of(word: &[u8]) -> u64
    ensures { result ≡ min (digits_value 10 word.now) 18446744073709551615 }
{
    value_of(word, 10)
}

/// The number, or the greatest one of its type.
pub(crate) fn shortened(number: u64) -> u32
    ensures { result ≡ min number 4294967295 }
{
    number.min(4_294_967_295) as u32
}

/// The number that a word writes; the greatest number where it has no room.
pub(crate) fn short_of(word: &[u8]) -> u32
    ensures { result ≡ min (digits_value 10 word.now) 4294967295 }
{
    shortened(long_of(word))
}

/// The number at the front; the greatest number where it has no room.
pub(crate) fn long_at(bytes: &[u8]) -> u64
    ensures { result ≡ min (number_at bytes.now) 18446744073709551615 }
{
    long_of(front_digits(bytes))
}

/// The number at the front; the greatest number where it has no room.
pub(crate) fn short_at(bytes: &[u8]) -> u32
    ensures { result ≡ min (number_at bytes.now) 4294967295 }
{
    short_of(front_digits(bytes))
}

/// The hexadecimal number at the front; the greatest number where it has no room.
pub(crate) fn hexadecimal_at(bytes: &[u8]) -> u32
    ensures { result ≡ min (hexadecimal_at bytes.now) 4294967295 }
{
    shortened(value_of(front_hexadecimal(bytes), 16))
}

/// The hexadecimal number at the front; the greatest number where it has no room.
pub(crate) fn long_hexadecimal_at(bytes: &[u8]) -> u64
    ensures { result ≡ min (hexadecimal_at bytes.now) 18446744073709551615 }
{
    value_of(front_hexadecimal(bytes), 16)
}

/// The hexadecimal number at the front; the greatest number where it has no room.
pub(crate) fn byte_hexadecimal_at(bytes: &[u8]) -> u8
    ensures { result ≡ min (hexadecimal_at bytes.now) 255 }
{
    long_hexadecimal_at(bytes).min(255) as u8
}

/// The number at the front, or the count of the bytes where it is greater.
pub(crate) fn count_at(bytes: &[u8]) -> usize
    ensures { result ≡ min (number_at bytes.now) 18446744073709551615 }
{
    long_at(bytes) as usize
}

/// The first bytes, so many of them as there are.
pub(crate) fn taken(bytes: &[u8], count: usize) -> &[u8]
    ensures { result.now ≡ take count bytes.now }
{
    &bytes[..bytes.len().min(count)]
}
