//! Bounds of repetitions, and actions.
ghost use Rattle.std.specs.Prelude.{◌≡◌, ◌<◌, false, length, IfSome};
ghost use Rattle.std.specs.Option.{option_copied};
ghost use Rattle.lx_token.specs.Braces.{AreKnown, after_bounds, after_braces, after_code, after_first_bound, after_literal, after_piece, after_unquoted};

use crate::blanks::after_comment;
use crate::unclosed::{Unclosed, after_quote};
use crate::words::{after_digits, after_letter, after_numeral};

/// What follows bounds behind their first number.
fn after_first_bound(text: &[u8]) -> Option<&[u8]>
    ensures rest { option_copied result ≡ after_first_bound text.now }
    ensures shorter { IfSome result (λ rest. length rest.now < length text.now) }
{
    match text.split_first() {
        Some((b'}', tail)) => Some(tail),
        Some((b',', tail)) => after_letter(after_digits(tail), b'}'),
        _ => None,
    }
}

/// What follows the bounds that begin here.
pub fn after_bounds(text: &[u8]) -> Option<&[u8]>
    ensures rest { option_copied result ≡ after_bounds text.now }
    ensures shorter { IfSome result (λ rest. length rest.now < length text.now) }
{
    after_first_bound(after_numeral(after_letter(text, b'{')?)?)
}

/// What follows a C string or a character literal behind its opening quote, where it is closed in its line.
pub fn after_literal(text: &[u8], quote: u8) -> Option<&[u8]>
    ensures rest { option_copied result ≡ after_literal quote false text.now }
    ensures shorter { IfSome result (λ rest. length rest.now < length text.now) }
{
    let mut rest = text;
    let mut escaped = false;
    while let Some((letter, tail)) = rest.split_first() {
        if *letter == b'\n' {
            return None;
        }
        if !escaped && *letter == quote {
            return Some(tail);
        }
        escaped = !escaped && *letter == b'\\';
        rest = tail;
    }
    None
}

/// What follows the comment or the byte at the front.
pub fn after_unquoted(text: &[u8]) -> Option<&[u8]>
    ensures rest { option_copied result ≡ after_unquoted text.now }
    ensures shorter { IfSome result (λ rest. length rest.now < length text.now) }
{
    let (_, tail) = text.split_first()?;
    if text.starts_with(b"//") || text.starts_with(b"/*") {
        after_comment(text)
    } else {
        Some(tail)
    }
}

/// What follows the string that is closed in its line, the comment or the byte at the front, which is no brace.
pub fn after_piece<'a>(text: &'a [u8], unclosed: &mut Unclosed) -> Option<&'a [u8]>
    requires known { AreKnown unclosed.old text.now }
    ensures rest { option_copied result ≡ after_piece text.now }
    ensures shorter { IfSome result (λ rest. length rest.now < length text.now) }
    ensures known { IfSome result (λ rest. AreKnown unclosed.new rest.now) }
{
    match text.split_first() {
        Some((b'"', tail)) => Some(after_quote(tail, b'"', b'"', &mut unclosed.strings)),
        Some((b'\'', tail)) => Some(after_quote(tail, b'\'', b'\'', &mut unclosed.characters)),
        _ => after_unquoted(text),
    }
}

/// What follows the brace that closes the one before the text.
pub fn after_braces<'a>(text: &'a [u8], unclosed: &mut Unclosed) -> Option<&'a [u8]>
    requires known { AreKnown unclosed.old text.now }
    ensures rest { option_copied result ≡ after_braces (length text.now) 0 text.now }
    ensures shorter { IfSome result (λ rest. length rest.now < length text.now) }
    ensures known { IfSome result (λ rest. AreKnown unclosed.new rest.now) }
{
    let mut rest = text;
    let mut depth: usize = 0;
    while let Some((letter, tail)) = rest.split_first() {
        match *letter {
            b'{' => {
                depth += 1;
                rest = tail;
            }
            b'}' => {
                if depth == 0 {
                    return Some(tail);
                }
                depth -= 1;
                rest = tail;
            }
            _ => rest = after_piece(rest, unclosed)?,
        }
    }
    None
}

/// What follows the action that begins here.
pub(crate) fn after_code(text: &[u8]) -> Option<&[u8]>
    ensures rest { option_copied result ≡ after_code text.now }
    ensures shorter { IfSome result (λ rest. length rest.now < length text.now) }
{
    let tail = after_letter(text, b'{')?;
    if after_bounds(text).is_some() {
        None
    } else {
        after_braces(tail, &mut Unclosed::new())
    }
}
