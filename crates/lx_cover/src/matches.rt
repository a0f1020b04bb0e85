//! The match of a word.
ghost use Rattle.std.specs.Prelude.{◌≡◌, [], IfOk, OnErr, map};
ghost use Rattle.lx_auto.specs.Automaton.{IsAuto};
ghost use Rattle.lx_cover.specs.Cursors.{cursor_at, slash_of};
ghost use Rattle.lx_cover.specs.Matches.{Tells, told, value_of};
ghost use Rattle.lx_cover.specs.Outcomes.{outcome_on};
ghost use Rattle.lx_regex.specs.Kernel.{IsWord};
ghost use Rattle.lx_regex.specs.Match.{IsMatch, Outcome};
ghost use Rattle.lx_regex.specs.Order.{Policy};
ghost use Rattle.lx_regex.specs.Pattern.{patterns_of, terms_of};
ghost use Rattle.lx_rules.specs.Within.{IsScannerWithin};
ghost use Rattle.lx_tdfa.specs.Promise.{IsAutoUnder};

use crate::cursors::{cursor_at, end_at, slash_of};
use crate::machine::{Machine, Taken};
use crate::values::Values;
use lx_auto::Auto;
use lx_base::{Enc, Memory, Sequence, Word};
use lx_regex::Rule;
use lx_rules::{Act, Scanner, numbered_act};
use std::alloc::Global;

/// How the match of a word ends. The cursor counts code units from the start.
#[derive(Clone, Copy)]
pub enum CoverMatch {
    /// The rule with this number is entered, and has an action.
    Rule { number: u32, cursor: u64 },
    /// The rule with this number is entered, and goes on without an action.
    Jump { number: u32, cursor: u64 },
    /// No rule is entered.
    NoRule { cursor: u64 },
}

/// The rule with a number, by whether it has an action.
fn told(acts: &[Act], number: u32, cursor: u64) -> CoverMatch
    ensures { result ≡ told acts.now number cursor }
{
    match numbered_act(acts, number) {
        None => CoverMatch::Jump { number, cursor },
        Some(act) => match &act.code {
            None => CoverMatch::Jump { number, cursor },
            Some(_) => CoverMatch::Rule { number, cursor },
        },
    }
}

/// The match of a rule that was taken, with its values.
fn told_taken(rules: &[Rule], acts: &[Act], taken: Taken, values: &mut Values) -> CoverMatch
    ensures told { result
        ≡ told acts.now taken.rule (cursor_at (slash_of rules.now taken.rule) (map value_of taken.values) taken.offset) }
    ensures values { values.new ≡ taken.values }
{
    let slash = slash_of(rules, taken.rule);
    let cursor = cursor_at(slash, taken.values.as_slice(), taken.offset);
    *values = taken.values;
    told(acts, taken.rule, cursor)
}

/// The match that the run on a word finds, with its values, where there are none before.
fn match_run(
    alloc: Global,
    rules: &[Rule],
    acts: &[Act],
    auto: &Auto,
    word: &[u32],
    values: &mut Values,
) -> Result<CoverMatch, Memory>
    requires formed { IsAuto auto.now }
    requires empty { values.old ≡ [] }
    ensures told { IfOk result (λ answer. Tells acts.now (outcome_on rules.now auto.now word.now) answer values.new) }
    ensures emptied { OnErr result (values.new ≡ []) }
{
    let mut machine = Machine::run(alloc, auto, word)?;
    let end = machine.offset;
    match machine.taken(alloc, auto)? {
        None => Ok(CoverMatch::NoRule { cursor: end }),
        Some(taken) => Ok(told_taken(rules, acts, taken, values)),
    }
}

/// The match of a word from its start, by an automaton of a scanner's rules. `values` gets the values of the rule's tags; what stood there
/// before is gone.
pub fn match_word(
    alloc: Global,
    s: &Scanner,
    enc: Enc,
    acts: &[Act],
    a: &Auto,
    word: &Word,
    values: &mut Values,
) -> Result<CoverMatch, Memory>
    requires automaton { (policy : Policy) × IsAutoUnder policy enc (patterns_of s.now.set.rules) a.now }
    requires within { IsScannerWithin enc s.now }
    requires units { IsWord enc (terms_of (patterns_of s.now.set.rules)) word.now }
    ensures matches { (policy : Policy) → IsAutoUnder policy enc (patterns_of s.now.set.rules) a.now
        → IfOk result (λ answer. (outcome : Outcome) × IsMatch policy enc (patterns_of s.now.set.rules) word.now 0 outcome
        × Tells acts.now outcome answer values.new) }
    ensures emptied { OnErr result (values.new ≡ []) }
{
    *values = Sequence::new(alloc);
    let rules = s.set.rules.as_slice();
    match end_at(rules, word.as_slice()) {
        Some(number) => Ok(told(acts, number, 0)),
        None => match_run(alloc, rules, acts, a, word.as_slice(), values),
    }
}
