//! The block tree of a body.
ghost use Rattle.std.specs.Prelude.{◌≡◌, ◌≤◌, length, true, MatchResult, Ok};
ghost use Rattle.lx_base.specs.declared.limits.TheConstants.{SOURCE_LIMIT};
ghost use Rattle.lx_parse.specs.Automaton.{may_end};
ghost use Rattle.lx_parse.specs.Blocks.{IsBody, StopsWith, form_of, has_tokens};
ghost use Rattle.lx_parse.specs.Sorts.{sorts_of};
ghost use Rattle.lx_token.specs.Tokens.{tokens_of};

use crate::forms::{Form, form_of};
use crate::items::BlockTree;
use crate::sorts::sort_in;
use crate::states::{State, Step};
use lx_base::{BlockKind, Fault, Pos, Sequence, Stop, place_after};
use lx_token::{TokenList, tokens_stand_in_order};
use std::alloc::Global;

/// Whether a body may end where the parser stands.
fn may_end(state: State) -> bool
    ensures { result ≡ may_end state }
{
    match state {
        State::Between { form } => form != Form::Format,
        _ => false,
    }
}

/// The items of a block, by the tokens of its body, which begins at the place `at`.
///
/// It refuses with `Syntax` exactly at the first token with which no well-formed block goes on; the block's end counts as
/// a token, and its place is that behind the last byte of the body. `Memory` says that memory is
/// wanting; it may be answered at each body, and no clause ties it to a cause.
pub fn parse(
    alloc: Global,
    body: &[u8],
    tokens: &TokenList,
    kind: BlockKind,
    at: Pos,
) -> Result<BlockTree, Stop>
    requires size { length body.now ≤ SOURCE_LIMIT }
    requires line { at.line ≤ 16777217 }
    requires col { at.col ≤ 16777217 }
    requires tokens { tokens_of body.now at ≡ Ok tokens.now }
    requires kind { has_tokens kind ≡ true }
    ensures { MatchResult result
        (λ tree. IsBody (form_of kind) (sorts_of kind body.now tokens.now) tree.items)
        (StopsWith kind body.now at tokens.now) }
{
    tokens_stand_in_order();
    let mut items = Sequence::new(alloc);
    let mut state = State::Between {
        form: form_of(kind),
    };
    for (place, token) in tokens.as_slice().iter().enumerate() {
        let sort = sort_in(
            kind,
            token.kind,
            &body[token.from as usize..token.to as usize],
        );
        match state.next(sort, place as u32) {
            Step::Refuse => return Err(Stop::Fault(Fault::Syntax { at: token.at })),
            Step::Go(next) => state = next,
            Step::Done(item, form) => {
                items.push(item)?;
                state = State::Between { form };
            }
        }
    }
    if may_end(state) {
        Ok(BlockTree { items })
    } else {
        Err(Stop::Fault(Fault::Syntax {
            at: place_after(at, body),
        }))
    }
}
