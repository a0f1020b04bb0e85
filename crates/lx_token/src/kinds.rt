//! The kinds of tokens, and which one is taken where several could stand.
ghost use Rattle.std.specs.Prelude.{◌≡◌, ℕ, ◌<◌, ◌↔◌, List, length, IfSome, Some};
ghost use Rattle.std.specs.Option.{option_copied, option_map};
ghost use Rattle.lx_token.specs.Items.{BeginsQuoted};
ghost use Rattle.lx_token.specs.Rows.{after_token, longer, longest_token};
ghost use Rattle.lx_token.specs.declared.kinds.TokenKind.TheVariants as TokenKind;

use crate::braces::{after_bounds, after_code};
use crate::quoted::after_quoted;
use crate::signs::after_sign;
use crate::words::{after_config, after_name, after_number, after_tag};

/// The kinds of tokens. Which sign a token of kind `Signs` is, its text tells.
#[derive(Clone, Copy, Debug, PartialEq, Eq)]
pub enum TokenKind {
    /// A letter or `_`, then letters, digits and `_`.
    Name,
    /// `re2c`, and one word or more that a colon leads.
    Config,
    /// Digits, or `-` and digits.
    Number,
    /// Characters between `"` and `"`.
    Str,
    /// Characters between `'` and `'`, whose ASCII letters stand for both cases.
    IStr,
    /// Characters between `[` and `]`.
    Class,
    /// `@` and a name.
    STag,
    /// `#` and a name.
    MTag,
    /// `{n}`, `{n,}` or `{n,m}`.
    Bounds,
    /// Any other `{` up to its matching `}`.
    Code,
    /// One of `= ; | \ / ( ) * + ? . $ < > , => :=>`.
    Signs,
}

/// A kind of token, and what follows the token.
pub(crate) type Found<'a> = (TokenKind, &'a [u8]);

/// The longer one of two tokens at one place.
fn longer<'a>(
    found: Option<Found<'a>>,
    kind: TokenKind,
    rest: Option<&'a [u8]>,
) -> Option<Found<'a>>
    ensures found { option_map (λ token. (token.0, token.1.now)) result ≡
        longer (option_map (λ token. (token.0, token.1.now)) found.entry) kind (option_copied rest.entry) }
    ensures within { (size : ℕ) → IfSome found.entry (λ token. length token.1.now < size) →
        IfSome rest.entry (λ rest. length rest.now < size) → IfSome result (λ token. length token.1.now < size) }
{
    match (found, rest) {
        (found, None) => found,
        (Some((_, other)), Some(rest)) if other.len() <= rest.len() => found,
        (_, Some(rest)) => Some((kind, rest)),
    }
}

/// The longest token that begins here: of two kinds that could stand, one is always longer.
pub(crate) fn longest_token(text: &[u8]) -> Option<Found<'_>>
    ensures found { option_map (λ token. (token.0, token.1.now)) result ≡ longest_token text.now }
    ensures shorter { IfSome result (λ token. length token.1.now < length text.now) }
{
    let found = longer(None, TokenKind::Name, after_name(text));
    let found = longer(found, TokenKind::Config, after_config(text));
    let found = longer(found, TokenKind::Number, after_number(text));
    let found = longer(found, TokenKind::Str, after_quoted(text, b'"', b'"'));
    let found = longer(found, TokenKind::IStr, after_quoted(text, b'\'', b'\''));
    let found = longer(found, TokenKind::Class, after_quoted(text, b'[', b']'));
    let found = longer(found, TokenKind::STag, after_tag(text, b'@'));
    let found = longer(found, TokenKind::MTag, after_tag(text, b'#'));
    let found = longer(found, TokenKind::Bounds, after_bounds(text));
    let found = longer(found, TokenKind::Code, after_code(text));
    longer(found, TokenKind::Signs, after_sign(text))
}

/// Which texts strings and classes are: it does nothing, and its contract is the law.
pub fn quoted_texts_are_items()
    ensures strings { (text rest : List ℕ) →
        (after_token TokenKind.Str text ≡ Some rest) ↔ BeginsQuoted 34 34 text rest }
    ensures caseless_strings { (text rest : List ℕ) →
        (after_token TokenKind.IStr text ≡ Some rest) ↔ BeginsQuoted 39 39 text rest }
    ensures classes { (text rest : List ℕ) →
        (after_token TokenKind.Class text ≡ Some rest) ↔ BeginsQuoted 91 93 text rest }
{}
