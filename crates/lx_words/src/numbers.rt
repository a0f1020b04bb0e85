//! Numbers of the command line.
ghost use Rattle.std.specs.Prelude.{◌≡◌, ◌≤◌, ◌^◌, MatchOption, true};
ghost use Rattle.std.specs.Str.Parse.{digits_value};
ghost use Rattle.lx_words.specs.Points.{is_number, number_within};

use lx_base::Letters;
use lx_base::letters::are_letters;

/// Whether the text is one to ten digits.
fn is_number(text: &str) -> bool
    ensures { result ≡ is_number text.now }
{
    let bytes = text.as_bytes();
    !bytes.is_empty() && bytes.len() <= 10 && are_letters(bytes, Letters::Digits)
}

/// The number that a text of digits spells, where it has 32 bits.
fn value_of(text: &str) -> Option<u32>
    requires { is_number text.now ≡ true }
    ensures { MatchOption result (2 ^ 32 ≤ digits_value 10 text.now) (λ number. number ≡ digits_value 10 text.now) }
{
    match text.parse::<u32>() {
        Ok(number) => Some(number),
        Err(_) => None,
    }
}

/// The number that a text of one to ten digits spells, where it lies within the limits.
pub fn number_within(least: u32, most: u32, text: &str) -> Option<u32>
    ensures { result ≡ number_within least most text.now }
{
    if !is_number(text) {
        return None;
    }
    let number = value_of(text)?;
    if least <= number && number <= most {
        Some(number)
    } else {
        None
    }
}
