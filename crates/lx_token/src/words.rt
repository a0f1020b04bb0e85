//! Names, configuration words, numbers and tags.
ghost use Rattle.std.specs.Prelude.{◌≡◌, ◌<◌, ◌≤◌, length, IfSome};
ghost use Rattle.std.specs.Option.{option_copied};
ghost use Rattle.lx_base.specs.Letters.{after_letters, begins_identifier, is_digit, is_in_identifier};
ghost use Rattle.lx_token.specs.Words.{after_config, after_letter, after_name, after_number, after_numeral, after_tag, after_words, begins_word, is_in_word};

use lx_base::Letters;
use lx_base::letters::{after_letters, begins_identifier, is_digit, is_in_identifier};

fn is_in_word(letter: u8) -> bool
    ensures { result ≡ is_in_word letter }
{
    is_in_identifier(letter) || letter == b'-'
}

/// What follows the letter, if the text begins with it.
pub(crate) fn after_letter(text: &[u8], wanted: u8) -> Option<&[u8]>
    ensures rest { option_copied result ≡ after_letter wanted text.now }
    ensures shorter { IfSome result (λ rest. length rest.now < length text.now) }
{
    match text.split_first() {
        Some((letter, tail)) if *letter == wanted => Some(tail),
        _ => None,
    }
}

/// What is left of the text behind the digits at its front.
pub(crate) fn after_digits(text: &[u8]) -> &[u8]
    ensures rest { result.now ≡ after_letters is_digit text.now }
    ensures shorter { length result.now ≤ length text.now }
{
    after_letters(text, Letters::Digits)
}

/// What follows the longest name that begins here.
pub(crate) fn after_name(text: &[u8]) -> Option<&[u8]>
    ensures rest { option_copied result ≡ after_name text.now }
    ensures shorter { IfSome result (λ rest. length rest.now < length text.now) }
{
    match text.split_first() {
        Some((letter, tail)) if begins_identifier(*letter) => Some(after_letters(
            tail,
            Letters::Identifier,
        )),
        _ => None,
    }
}

fn begins_word(text: &[u8]) -> bool
    ensures { result ≡ begins_word text.now }
{
    match text.split_first() {
        Some((letter, _)) => is_in_word(*letter),
        None => false,
    }
}

/// What is left of the text behind the rest of a word, and behind all further words that a colon leads.
fn after_words(text: &[u8]) -> &[u8]
    ensures rest { result.now ≡ after_words text.now }
    ensures shorter { length result.now ≤ length text.now }
{
    let mut rest = text;
    while let Some((letter, tail)) = rest.split_first() {
        if !is_in_word(*letter) && !(*letter == b':' && begins_word(tail)) {
            break;
        }
        rest = tail;
    }
    rest
}

/// What follows the longest configuration word that begins here.
pub(crate) fn after_config(text: &[u8]) -> Option<&[u8]>
    ensures rest { option_copied result ≡ after_config text.now }
    ensures shorter { IfSome result (λ rest. length rest.now < length text.now) }
{
    if text.starts_with(b"re2c:") && begins_word(&text[5..]) {
        Some(after_words(&text[5..]))
    } else {
        None
    }
}

/// What follows one digit or more.
pub(crate) fn after_numeral(text: &[u8]) -> Option<&[u8]>
    ensures rest { option_copied result ≡ after_numeral text.now }
    ensures shorter { IfSome result (λ rest. length rest.now < length text.now) }
{
    match text.split_first() {
        Some((letter, tail)) if is_digit(*letter) => Some(after_digits(tail)),
        _ => None,
    }
}

/// What follows the longest number that begins here.
pub(crate) fn after_number(text: &[u8]) -> Option<&[u8]>
    ensures rest { option_copied result ≡ after_number text.now }
    ensures shorter { IfSome result (λ rest. length rest.now < length text.now) }
{
    match after_letter(text, b'-') {
        Some(tail) => after_numeral(tail),
        None => after_numeral(text),
    }
}

/// What follows the longest tag with this mark that begins here.
pub(crate) fn after_tag(text: &[u8], mark: u8) -> Option<&[u8]>
    ensures rest { option_copied result ≡ after_tag mark text.now }
    ensures shorter { IfSome result (λ rest. length rest.now < length text.now) }
{
    after_name(after_letter(text, mark)?)
}
