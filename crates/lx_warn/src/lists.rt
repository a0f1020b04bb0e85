//! The warnings of a scanner.
ghost use Rattle.std.specs.Prelude.{◌≡◌, ◌↔◌, ℕ, ◌++◌, Contains, IfOk, OnOk};
ghost use Rattle.std.specs.List.Sorted.{IsNonDecreasing, IsStrictlyIncreasing};
ghost use Rattle.lx_regex.specs.Limits.{IsWithinLimits};
ghost use Rattle.lx_regex.specs.Order.{Policy as PolicyValue};
ghost use Rattle.lx_regex.specs.Pattern.{patterns_of};
ghost use Rattle.lx_rules.specs.Within.{IsScannerWithin};
ghost use Rattle.lx_tdfa.specs.Promise.{IsAutoUnder};
ghost use Rattle.lx_warn.specs.Entered.{has_number, is_number, rule_warnings as warnings_by, warnings_of, word_warnings};
ghost use Rattle.lx_warn.specs.Warnings.{AreWarnings, HasNumber};

use crate::dead_words::first_stopping;
use crate::entered::{accepted_rule, entered_rules, start_enters};
use lx_auto::{Auto, met_states};
use lx_base::{Enc, Memory, Sequence, Word};
use lx_regex::{Rule, RuleSet};
use lx_rules::{Scanner, end_rule};
use std::alloc::Global;

/// What a scanner is warned of.
#[derive(Drop)]
pub enum Warning {
    /// No stream enters the rule with this number.
    Unreachable(u32),
    /// The rule with this number is entered by the empty match.
    Empty(u32),
    /// The word goes on to no match, and nothing that it begins with is one. It is the first such word.
    Undefined(Word),
}

/// Warnings, in the order of the rules' numbers, and behind them the one of a word.
pub type WarningList = Sequence<Warning>;

/// The numbers of rules, in ascending order.
fn rule_numbers(alloc: Global, rules: &[Rule]) -> Result<Vec<u32>, Memory>
    ensures numbers { IfOk result (λ numbers. (number : ℕ) → Contains numbers.items number ↔ HasNumber (patterns_of rules.now) number) }
    ensures ascend { IfOk result (λ numbers. IsStrictlyIncreasing numbers.items) }
{
    let mut numbers = Vec::new(alloc);
    for rule in rules {
        numbers.push(rule.number)?;
    }
    numbers.sort_unstable();
    numbers.dedup();
    Ok(numbers)
}

/// Whether the number is one of some, which ascend.
fn is_among(numbers: &[u32], number: u32) -> bool
    requires { IsNonDecreasing numbers.now }
    ensures { result ≡ has_number numbers.now number }
{
    numbers.binary_search(&number).is_ok()
}

/// Whether the number is this one, if there is one.
fn is_start(start: Option<u32>, number: u32) -> bool
    ensures { result ≡ is_number start number }
{
    match start {
        None => false,
        Some(other) => other == number,
    }
}

/// Appends the warnings of the rule with a number, where the rules that are entered and the start's are known.
fn push_warnings(
    list: &mut WarningList,
    number: u32,
    entered: &[u32],
    start: Option<u32>,
) -> Result<(), Memory>
    requires { IsNonDecreasing entered.now }
    ensures { OnOk result (list.new ≡ list.old ++ warnings_of entered.now start number) }
{
    if !is_among(entered, number) {
        list.push(Warning::Unreachable(number))?;
        return Ok(());
    }
    if is_start(start, number) {
        list.push(Warning::Empty(number))?;
        return Ok(());
    }
    Ok(())
}

/// The warnings of the rules with these numbers, where the rules that are entered and the start's are known.
fn rule_warnings(
    alloc: Global,
    numbers: &[u32],
    entered: &[u32],
    start: Option<u32>,
) -> Result<WarningList, Memory>
    requires { IsNonDecreasing entered.now }
    ensures { IfOk result (λ list. list ≡ warnings_by entered.now start numbers.now) }
{
    let mut list = Sequence::new(alloc);
    for number in numbers {
        push_warnings(&mut list, *number, entered, start)?;
    }
    Ok(list)
}

/// Appends the warning of a word, if there is one.
fn push_word(list: &mut WarningList, word: Option<Word>) -> Result<(), Memory>
    ensures { OnOk result (list.new ≡ list.old ++ word_warnings word) }
{
    match word {
        None => Ok(()),
        Some(word) => {
            list.push(Warning::Undefined(word))?;
            Ok(())
        }
    }
}

/// The warnings of a rule list, by its automaton.
fn warnings_of_set(
    alloc: Global,
    set: &RuleSet,
    enc: Enc,
    auto: &Auto,
) -> Result<WarningList, Memory>
    requires automaton { (policy : PolicyValue) × IsAutoUnder policy enc (patterns_of set.now.rules) auto.now }
    requires limits { IsWithinLimits set.now.rules }
    ensures { IfOk result (λ list. (policy : PolicyValue) → AreWarnings policy enc (patterns_of set.now.rules) list) }
{
    let rules = set.rules.as_slice();
    let at_end = end_rule(rules);
    let marks = met_states(alloc, auto)?;
    let start = start_enters(auto, enc, &marks, at_end);
    let entered = entered_rules(alloc, auto, &marks, start, at_end)?;
    let numbers = rule_numbers(alloc, rules)?;
    let mut list = rule_warnings(alloc, &numbers, &entered, accepted_rule(auto, 0))?;
    push_word(&mut list, first_stopping(alloc, auto, enc)?)?;
    Ok(list)
}

/// The warnings of a scanner, by an automaton of its rules: the rules that no stream enters, the rule of the empty match, and the first
/// word that goes on to no match.
pub fn warnings(
    alloc: Global,
    scanner: &Scanner,
    enc: Enc,
    auto: &Auto,
) -> Result<WarningList, Memory>
    requires automaton { (policy : PolicyValue) × IsAutoUnder policy enc (patterns_of scanner.now.set.rules) auto.now }
    requires within { IsScannerWithin enc scanner.now }
    ensures { IfOk result (λ list. (policy : PolicyValue) → AreWarnings policy enc (patterns_of scanner.now.set.rules) list) }
{
    warnings_of_set(alloc, &scanner.set, enc, auto)
}
