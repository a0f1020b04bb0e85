//! The lists of conditions of rules.
ghost use Rattle.std.specs.Prelude.{◌≡◌, ◌==◌, IfOk, MatchResult, None, map};
ghost use Rattle.lx_exprs.specs.Checks.{StopsAt};
ghost use Rattle.lx_forms.specs.Lexemes.{nth_lexeme};
ghost use Rattle.lx_forms.specs.Seen.{lexemes_view};
ghost use Rattle.lx_rules.specs.Items.{ListChecks};
ghost use Rattle.lx_rules.specs.Lists.{conds_at, is_comma, listed_words};

use crate::items::Block;
use lx_base::{Fault, Memory, Stop};
use lx_forms::lexemes::Lexemes;
use lx_parse::Sort;
use std::alloc::Global;

/// Refuses a list where conditions are not in use, and a rule without one where they are. The rule and its head begin at these
/// places.
pub(crate) fn check_list(block: Block<'_>, first: u32, head: u32) -> Result<(), Stop>
    ensures { MatchResult result
        (λ _. ListChecks block.entry.options.now (lexemes_view block.entry.lexemes) (first == head) (nth_lexeme (lexemes_view block.entry.lexemes) first).at None)
        (StopsAt (ListChecks block.entry.options.now (lexemes_view block.entry.lexemes) (first == head) (nth_lexeme (lexemes_view block.entry.lexemes) first).at)) }
{
    if block.options.conds == (first == head) {
        let at = block.lexemes.at(first as usize).at;
        return Err(Stop::Fault(Fault::Condition { at }));
    }
    Ok(())
}

/// Whether it is a sign between the words of a list.
fn is_comma(sort: Sort) -> bool
    ensures { result ≡ is_comma sort }
{
    matches!(sort, Sort::Comma)
}

/// The words between the `<` at a place and the `>` before a head.
fn listed_words<'b>(
    alloc: Global,
    lexemes: Lexemes<'b>,
    first: u32,
    head: u32,
) -> Result<Vec<&'b [u8]>, Memory>
    ensures { IfOk result (λ words. map (λ word. word.now) words.items ≡ listed_words (lexemes_view lexemes.entry) first head) }
{
    let mut words = Vec::new(alloc);
    for place in first as usize + 1..(head as usize).saturating_sub(1) {
        let word = lexemes.at(place);
        if is_comma(word.sort()) {
            continue;
        }
        words.push(word.text)?;
    }
    Ok(words)
}

/// The conditions of a rule that begins at a place, and its head at another: the words of its list, or the one without a name
/// where it has none.
pub(crate) fn rule_conditions<'b>(
    alloc: Global,
    lexemes: Lexemes<'b>,
    first: u32,
    head: u32,
) -> Result<Vec<&'b [u8]>, Memory>
    ensures { IfOk result (λ conds. map (λ cond. cond.now) conds.items ≡ conds_at (lexemes_view lexemes.entry) first head) }
{
    if first == head {
        let mut alone = Vec::new(alloc);
        alone.push(b"".as_slice())?;
        return Ok(alone);
    }
    listed_words(alloc, lexemes, first, head)
}
