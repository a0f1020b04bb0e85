//! The sorts of tokens that the grammar of a block tells apart.
ghost use Rattle.std.specs.Prelude.{◌≡◌};
ghost use Rattle.lx_parse.specs.Sorts.{is_atom, is_postfix, is_string, is_value, letter_sort, sign_of, sort_in, sort_of, word_of};

use lx_base::BlockKind;
use lx_token::TokenKind;

/// A terminal of the grammar: the kind of a token, and which sign or which word of a directive it is.
#[derive(Clone, Copy, Debug, PartialEq, Eq)]
pub enum Sort {
    Name,
    /// The name `format`, in a directive.
    Format,
    /// The name `separator`, in a directive.
    Separator,
    Config,
    Number,
    Str,
    IStr,
    Class,
    STag,
    MTag,
    Bounds,
    Code,
    /// `=`
    Equals,
    /// `;`
    Semicolon,
    /// `|`
    Bar,
    /// `\`
    Backslash,
    /// `/`
    Slash,
    /// `(`
    Open,
    /// `)`
    Close,
    /// `*`
    Star,
    /// `+`
    Plus,
    /// `?`
    Question,
    /// `.`
    Dot,
    /// `$`
    Dollar,
    /// `<`
    Less,
    /// `>`
    Greater,
    /// `,`
    Comma,
    /// `=>`
    Arrow,
    /// `:=>`
    Jump,
}

impl Sort {
    /// Whether it is an atom of an expression by itself.
    pub fn is_atom(self) -> bool
        ensures { result ≡ is_atom self }
    {
        matches!(
            self,
            Sort::Str | Sort::IStr | Sort::Class | Sort::Dot | Sort::Name | Sort::STag | Sort::MTag
        )
    }

    /// Whether it repeats what stands before it.
    pub(crate) fn is_postfix(self) -> bool
        ensures { result ≡ is_postfix self }
    {
        matches!(
            self,
            Sort::Star | Sort::Plus | Sort::Question | Sort::Bounds
        )
    }

    /// Whether it is a string.
    pub(crate) fn is_string(self) -> bool
        ensures { result ≡ is_string self }
    {
        matches!(self, Sort::Str | Sort::IStr)
    }

    /// Whether it can be the value of a configuration.
    pub(crate) fn is_value(self) -> bool
        ensures { result ≡ is_value self }
    {
        matches!(self, Sort::Number | Sort::Name | Sort::Str | Sort::IStr)
    }
}

/// The sign of one letter.
fn letter_sort(letter: u8) -> Sort
    ensures { result ≡ letter_sort letter }
{
    match letter {
        b'=' => Sort::Equals,
        b';' => Sort::Semicolon,
        b'|' => Sort::Bar,
        b'\\' => Sort::Backslash,
        b'/' => Sort::Slash,
        b'(' => Sort::Open,
        b')' => Sort::Close,
        b'*' => Sort::Star,
        b'+' => Sort::Plus,
        b'?' => Sort::Question,
        b'.' => Sort::Dot,
        b'$' => Sort::Dollar,
        b'<' => Sort::Less,
        b'>' => Sort::Greater,
        _ => Sort::Comma,
    }
}

/// The sign with this text.
fn sign_of(text: &[u8]) -> Sort
    ensures { result ≡ sign_of text.now }
{
    if text.starts_with(b":=>") {
        return Sort::Jump;
    }
    if text.starts_with(b"=>") {
        return Sort::Arrow;
    }
    match text.first() {
        Some(letter) => letter_sort(*letter),
        None => Sort::Comma,
    }
}

/// The sort of a token of this kind and text. A name is `Sort::Name` whatever its text is.
pub fn sort_of(kind: TokenKind, text: &[u8]) -> Sort
    ensures { result ≡ sort_of kind text.now }
{
    match kind {
        TokenKind::Name => Sort::Name,
        TokenKind::Config => Sort::Config,
        TokenKind::Number => Sort::Number,
        TokenKind::Str => Sort::Str,
        TokenKind::IStr => Sort::IStr,
        TokenKind::Class => Sort::Class,
        TokenKind::STag => Sort::STag,
        TokenKind::MTag => Sort::MTag,
        TokenKind::Bounds => Sort::Bounds,
        TokenKind::Code => Sort::Code,
        TokenKind::Signs => sign_of(text),
    }
}

/// The sort of a name in a directive.
fn word_of(text: &[u8]) -> Sort
    ensures { result ≡ word_of text.now }
{
    if text == b"format".as_slice() {
        Sort::Format
    } else if text == b"separator".as_slice() {
        Sort::Separator
    } else {
        Sort::Name
    }
}

/// The sort of a token in a block: only in the directives `stags` and `mtags` are `format` and `separator` words of
/// their own.
pub(crate) fn sort_in(block: BlockKind, kind: TokenKind, text: &[u8]) -> Sort
    ensures { result ≡ sort_in block kind text.now }
{
    match (block, kind) {
        (BlockKind::Stags | BlockKind::Mtags, TokenKind::Name) => word_of(text),
        _ => sort_of(kind, text),
    }
}
