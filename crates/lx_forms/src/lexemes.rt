//! The tokens of a block with their texts.
ghost use Rattle.std.specs.Prelude.{◌≡◌, ◌-◌, take, drop};

use lx_base::Pos;
use lx_parse::{Sort, sort_of};
use lx_token::{Token, TokenKind};

/// A token with its text.
#[derive(Clone, Copy)]
pub struct Lexeme<'b> {
    pub kind: TokenKind,
    pub text: &'b [u8],
    pub at: Pos,
}

/// The tokens of a block, and its body.
#[derive(Clone, Copy)]
pub struct Lexemes<'b> {
    pub body: &'b [u8],
    pub tokens: &'b [Token],
}

/// The bytes of a body from one offset up to another, as far as they are there.
fn part<'b>(body: &'b [u8], from: usize, to: usize) -> &'b [u8]
    ensures { result.now ≡ take (to - from) (drop from body.now) }
{
    let first = from.min(body.len());
    let last = to.min(body.len()).max(first);
    &body[first..last]
}

impl<'b> Lexemes<'b> {
    ghost use Rattle.std.specs.Prelude.{◌≡◌};
    ghost use Rattle.lx_forms.specs.Seen.{lexeme_view, lexemes_view};
    ghost use Rattle.lx_forms.specs.Lexemes.{nth_lexeme};

    /// The token at a place; behind the last one stands one without a text.
    pub fn at(&self, place: usize) -> Lexeme<'b>
        ensures { lexeme_view result ≡ nth_lexeme (lexemes_view self.now) place }
    {
        match self.tokens.get(place) {
            Some(token) => Lexeme {
                kind: token.kind,
                text: part(self.body, token.from as usize, token.to as usize),
                at: token.at,
            },
            None => Lexeme {
                kind: TokenKind::Signs,
                text: b"",
                at: Pos {
                    file: 0,
                    line: 0,
                    col: 0,
                },
            },
        }
    }
}

impl Lexeme<'_> {
    ghost use Rattle.std.specs.Prelude.{◌≡◌};
    ghost use Rattle.lx_forms.specs.Seen.{lexeme_view};
    ghost use Rattle.lx_forms.specs.Lexemes.{sort_at};

    /// The terminal of the grammar that it is.
    pub fn sort(&self) -> Sort
        ensures { result ≡ sort_at (lexeme_view self.now) }
    {
        sort_of(self.kind, self.text)
    }
}
