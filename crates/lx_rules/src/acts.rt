//! What rules do, and where they go.
ghost use Rattle.std.specs.Prelude.{◌≡◌, ◌-◌, IfOk, MatchResult, None};
ghost use Rattle.std.specs.Option.{option_map};
ghost use Rattle.lx_exprs.specs.Checks.{StopsAt};
ghost use Rattle.lx_forms.specs.Lexemes.{nth_lexeme};
ghost use Rattle.lx_forms.specs.Seen.{lexemes_view};
ghost use Rattle.lx_rules.specs.Items.{TargetChecks, act_of};

use crate::items::Block;
use crate::resolved::Act;
use lx_base::{Fault, Memory, Pos, Stop};
use lx_shared::SharedText;
use std::alloc::Global;

/// The place of the `=>` or `:=>` before a target.
fn sign_place(block: Block<'_>, target: u32) -> Pos
    ensures { result ≡ (nth_lexeme (lexemes_view block.entry.lexemes) (target - 1)).at }
{
    let place = (target as usize).saturating_sub(1);
    block.lexemes.at(place).at
}

/// Refuses a target where conditions are not in use.
pub(crate) fn check_target(block: Block<'_>, goes: Option<u32>) -> Result<(), Stop>
    ensures { MatchResult result
        (λ _. TargetChecks block.entry.options.now (lexemes_view block.entry.lexemes) goes None)
        (StopsAt (TargetChecks block.entry.options.now (lexemes_view block.entry.lexemes) goes)) }
{
    let Some(target) = goes else {
        return Ok(());
    };
    if !block.options.conds {
        let at = sign_place(block, target);
        return Err(Stop::Fault(Fault::Condition { at }));
    }
    Ok(())
}

/// The place of a target, if there is one.
pub(crate) fn target_place(block: Block<'_>, goes: Option<u32>) -> Option<Pos>
    ensures { result ≡ option_map (λ target. (nth_lexeme (lexemes_view block.entry.lexemes) target).at) goes }
{
    match goes {
        Some(target) => Some(block.lexemes.at(target as usize).at),
        None => None,
    }
}

/// The name of a target, if there is one.
fn target_name(
    alloc: Global,
    block: Block<'_>,
    goes: Option<u32>,
) -> Result<Option<SharedText>, Memory>
    ensures { IfOk result (λ name. name ≡ option_map (λ target. (nth_lexeme (lexemes_view block.entry.lexemes) target).text) goes) }
{
    match goes {
        Some(target) => {
            let lexeme = block.lexemes.at(target as usize);
            Ok(Some(SharedText::copy_of(alloc, lexeme.text)?))
        }
        None => Ok(None),
    }
}

/// The place of the `:=>` of a rule without an action.
fn jump_place(block: Block<'_>, goes: Option<u32>) -> Pos
    ensures { result ≡ (act_of block.entry.options.now (lexemes_view block.entry.lexemes) 0 goes None).at }
{
    match goes {
        Some(target) => sign_place(block, target),
        None => block.lexemes.at(0).at,
    }
}

/// What a rule does.
pub(crate) fn act(
    alloc: Global,
    block: Block<'_>,
    number: u32,
    goes: Option<u32>,
    code: Option<u32>,
) -> Result<Act, Memory>
    ensures { IfOk result (λ act. act ≡ act_of block.entry.options.now (lexemes_view block.entry.lexemes) number goes code) }
{
    let name = target_name(alloc, block, goes)?;
    match code {
        Some(code) => {
            let lexeme = block.lexemes.at(code as usize);
            Ok(Act {
                number,
                goes: name,
                code: Some(SharedText::copy_of(alloc, lexeme.text)?),
                at: lexeme.at,
            })
        }
        None => Ok(Act {
            number,
            goes: name,
            code: None,
            at: jump_place(block, goes),
        }),
    }
}
