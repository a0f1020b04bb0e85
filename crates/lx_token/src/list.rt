//! The tokens of a body.
ghost use Rattle.std.specs.Prelude.{◌≡◌, ℕ, ◌≤◌, List, length, MatchResult, Ok, Err};
ghost use Rattle.lx_base.specs.declared.limits.TheConstants.{SOURCE_LIMIT};
ghost use Rattle.lx_base.specs.declared.faults.Fault.{Fault};
ghost use Rattle.lx_base.specs.declared.places.Pos.{Pos};
ghost use Rattle.lx_token.specs.declared.list.Token.{Token};
ghost use Rattle.lx_token.specs.Spans.{AreTokens, IsBadToken};
ghost use Rattle.lx_token.specs.Tokens.{StopsWith, tokens_of};

use crate::blanks::after_blank;
use crate::kinds::{TokenKind, longest_token};
use lx_base::{Fault, Pos, Sequence, Stop, place_after};
use std::alloc::Global;

/// A token: the bytes of its body from `from` up to `to`.
#[derive(Clone, Copy, PartialEq, Eq)]
pub struct Token {
    pub kind: TokenKind,
    /// How many bytes of the body stand before it.
    pub from: u32,
    /// How many bytes of the body stand before what follows it.
    pub to: u32,
    /// The line and column of its first byte.
    pub at: Pos,
}

/// The tokens of a body, in order.
pub type TokenList = Sequence<Token>;

/// The tokens of a body that begins at the place `at`.
///
/// Blanks and comments are passed over, and then the longest token of all kinds is taken. A comment or an action that is
/// not closed begins no token.
///
/// It refuses with `BadToken` exactly at the first byte where no token begins. `Memory` says that memory is
/// wanting; it may be answered at each body, and no clause ties it to a cause.
pub fn tokens(alloc: Global, body: &[u8], at: Pos) -> Result<TokenList, Stop>
    requires size { length body.now ≤ SOURCE_LIMIT }
    requires line { at.line ≤ 16777217 }
    requires col { at.col ≤ 16777217 }
    ensures { MatchResult result (λ list. tokens_of body.now at ≡ Ok list) (StopsWith (tokens_of body.now at)) }
{
    // A token has a byte at least, so the list never grows: that would take the memory of both lists at once.
    let mut found = Sequence::from_vec(Vec::with_capacity(alloc, body.len())?);
    let mut place = at;
    let mut rest = body;
    while !rest.is_empty() {
        if let Some(tail) = after_blank(rest) {
            place = place_after(place, &rest[..rest.len() - tail.len()]);
            rest = tail;
            continue;
        }
        let (kind, tail) = match longest_token(rest) {
            Some(token) => token,
            None => return Err(Stop::Fault(Fault::BadToken { at: place })),
        };
        found.push(Token {
            kind,
            from: (body.len() - rest.len()) as u32,
            to: (body.len() - tail.len()) as u32,
            at: place,
        })?;
        place = place_after(place, &rest[..rest.len() - tail.len()]);
        rest = tail;
    }
    Ok(found)
}

/// Where the tokens of a body stand, and when there are none: it does nothing, and its contract is the law.
pub fn tokens_stand_in_order()
    ensures tokens { (body : List ℕ) (start : Pos) (tokens : List Token) →
        tokens_of body start ≡ Ok tokens → AreTokens body start tokens }
    ensures fault { (body : List ℕ) (start : Pos) (fault : Fault) →
        tokens_of body start ≡ Err fault → IsBadToken body start fault }
{}
