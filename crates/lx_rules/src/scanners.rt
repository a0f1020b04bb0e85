//! The scanners of a block: which rules each has, their checks, and how they are built.
ghost use Rattle.std.specs.Prelude.{◌≡◌, ◌++◌, IfOk, MatchResult, length, map, not};
ghost use Rattle.std.specs.List.{AllZip, list_any};
ghost use Rattle.lx_exprs.specs.Checks.{Finds, StopsAt};
ghost use Rattle.lx_rules.specs.Blocks.{cond_name, conditions_of, pair_fault, rules_of, scanner_fault, scanners_fault};
ghost use Rattle.lx_rules.specs.Conditions.{nothing_runs, places_of};
ghost use Rattle.lx_rules.specs.Finishing.{IsBuiltScanner, kept_defaults, kept_fault, kept_at, kept_in_order, kept_others, kept_rules_of, running_fault, running_over};
ghost use Rattle.lx_rules.specs.Environments.{config_of};
ghost use Rattle.lx_regex.specs.Pattern.{is_end};
ghost use Rattle.lx_rules.specs.Items.{State, is_default};
ghost use Rattle.lx_rules.specs.Keeping.{Holds};
ghost use Rattle.lx_rules.specs.Seen.{rules_view};
ghost use Rattle.lx_rules.specs.declared.kept.KeptRule.{KeptRule as kept_rule};

use crate::conditions::Running;
use crate::copies::rule_copies;
use crate::items::Known;
use crate::kept::{KeptRule, is_default, is_end};
use crate::resolved::Scanner;
use lx_base::limits::{NESTING_LIMIT, SIZE_LIMIT, TAG_LIMIT};
use lx_base::{Fault, Memory, Pos, Sequence, Stop};
use lx_regex::RuleSet;
use lx_shared::SharedText;
use std::alloc::Global;

/// The rules that have a condition.
fn rules_under<'k>(
    alloc: Global,
    known: &'k Known,
    cond: &[u8],
) -> Result<Vec<&'k KeptRule>, Memory>
    ensures { IfOk result (λ rules. map (λ one. one.now) rules.items ≡ kept_at (places_of known.now.conds cond.now) (rules_view known.now.rules)) }
{
    let mut rules = Vec::new(alloc);
    let held = known.rules.as_slice();
    let places = known.conds.places(cond);
    for place in places {
        let Some(rule) = held.get(*place) else {
            continue;
        };
        rules.push(&**rule)?;
    }
    Ok(rules)
}

/// Whether one of the rules is `$`.
fn any_end(rules: &[&KeptRule]) -> bool
    ensures { result ≡ list_any (λ (one : kept_rule). is_end one.kind) (map (λ one. one.now) rules.now) }
{
    for rule in rules {
        if is_end(rule.kind) {
            return true;
        }
    }
    false
}

/// Whether one of the rules is another one than `$`.
fn any_other(rules: &[&KeptRule]) -> bool
    ensures { result ≡ list_any (λ (one : kept_rule). not (is_end one.kind)) (map (λ one. one.now) rules.now) }
{
    for rule in rules {
        if !is_end(rule.kind) {
            return true;
        }
    }
    false
}

/// Whether one of the rules is `*`.
fn any_default(rules: &[&KeptRule]) -> bool
    ensures { result ≡ list_any (λ (one : kept_rule). is_default one.kind) (map (λ one. one.now) rules.now) }
{
    for rule in rules {
        if is_default(rule.kind) {
            return true;
        }
    }
    false
}

/// Some rules, and behind them those of others but for `*`, with `$` or without.
fn with_others<'k>(
    rules: Vec<&'k KeptRule>,
    others: &[&'k KeptRule],
    with_end: bool,
) -> Result<Vec<&'k KeptRule>, Memory>
    ensures { IfOk result (λ all. map (λ one. one.now) all.items ≡ map (λ one. one.now) rules.entry.items ++ kept_others with_end (map (λ one. one.now) others.now)) }
{
    let mut all = rules;
    for rule in others {
        if !is_default(rule.kind) && (with_end || !is_end(rule.kind)) {
            all.push(*rule)?;
        }
    }
    Ok(all)
}

/// Some rules, and behind them the rules `*` of others.
fn with_defaults<'k>(
    rules: Vec<&'k KeptRule>,
    others: &[&'k KeptRule],
) -> Result<Vec<&'k KeptRule>, Memory>
    ensures { IfOk result (λ all. map (λ one. one.now) all.items ≡ map (λ one. one.now) rules.entry.items ++ kept_defaults (map (λ one. one.now) others.now)) }
{
    let mut all = rules;
    for rule in others {
        if is_default(rule.kind) {
            all.push(*rule)?;
        }
    }
    Ok(all)
}

/// The rules of a scanner in their order, of its own and those of `<*>`.
fn in_order<'k>(
    alloc: Global,
    own: &[&'k KeptRule],
    shared: &[&'k KeptRule],
) -> Result<Vec<&'k KeptRule>, Memory>
    ensures { IfOk result (λ rules. map (λ one. one.now) rules.items ≡ kept_in_order (map (λ one. one.now) own.now) (map (λ one. one.now) shared.now)) }
{
    let rules = with_others(Vec::new(alloc), own, true)?;
    let rules = with_others(rules, shared, !any_end(own))?;
    let defaults = if any_default(own) { own } else { shared };
    with_defaults(rules, defaults)
}

/// The rules of the scanner of a condition in their order.
fn rules_of<'k>(alloc: Global, known: &'k Known, cond: &[u8]) -> Result<Vec<&'k KeptRule>, Memory>
    ensures { IfOk result (λ rules. map (λ one. one.now) rules.items ≡ kept_rules_of (places_of known.now.conds) cond.now (rules_view known.now.rules)) }
{
    let own = rules_under(alloc, known, cond)?;
    let shared = rules_under(alloc, known, b"*")?;
    in_order(alloc, &own, &shared)
}

/// How far the rules of a scanner go, but for `$`.
fn running(rules: &[&KeptRule]) -> Running
    ensures { result ≡ running_over nothing_runs (map (λ one. one.now) rules.now) }
{
    let mut running = Running::none();
    for rule in rules {
        if !is_end(rule.kind) {
            running = running.with(rule.weight());
        }
    }
    running
}

/// The fault of a scanner whose rules go so far, if they are past a limit; at the opener of the block.
fn running_fault(running: Running, at: Pos) -> Option<Fault>
    ensures { result ≡ running_fault at running }
{
    let Running {
        size,
        nesting,
        tags,
    } = running;
    if size > SIZE_LIMIT || nesting > NESTING_LIMIT || tags > TAG_LIMIT {
        return Some(Fault::TooManyParts {
            at,
            size,
            nesting,
            tags,
        });
    }
    None
}

/// The fault of a scanner that has `$` without a code unit at the end, or the unit without `$`; at the opener of the block.
fn pair_fault(eof: Option<u32>, has_end: bool, at: Pos) -> Option<Fault>
    ensures { result ≡ pair_fault at eof has_end }
{
    if eof.is_some() != has_end {
        return Some(Fault::EofPair { at });
    }
    None
}

/// The fault of a scanner with these rules, if there is one; at the opener of the block.
fn scanner_fault(rules: &[&KeptRule], eof: Option<u32>, at: Pos) -> Option<Fault>
    ensures { result ≡ kept_fault at eof (map (λ one. one.now) rules.now) }
{
    if !any_other(rules) {
        return Some(Fault::NoRules { at });
    }
    if let Some(fault) = pair_fault(eof, any_end(rules), at) {
        return Some(fault);
    }
    running_fault(running(rules), at)
}

/// The name of a scanner, which it has where conditions are in use.
fn cond_name(alloc: Global, named: bool, cond: &[u8]) -> Result<Option<SharedText>, Memory>
    ensures { IfOk result (λ name. name ≡ cond_name named cond.now) }
{
    if named {
        Ok(Some(SharedText::copy_of(alloc, cond)?))
    } else {
        Ok(None)
    }
}

/// The scanner of a condition, in a block whose opener stands at this place. It has a name where conditions are in use.
fn scanner(alloc: Global, known: &Known, named: bool, cond: &[u8], at: Pos) -> Result<Scanner, Stop>
    requires { (state : State) × Holds known.now state }
    ensures { (state : State) → Holds known.now state → MatchResult result
        (IsBuiltScanner named at (config_of state.settings).eof state.rules cond.now)
        (StopsAt (Finds (scanner_fault at (config_of state.settings).eof (rules_of cond.now state.rules)))) }
{
    let held = rules_of(alloc, known, cond)?;
    if let Some(fault) = scanner_fault(&held, known.eof(), at) {
        return Err(Stop::Fault(fault));
    }
    let rules = rule_copies(alloc, &held)?;
    Ok(Scanner {
        cond: cond_name(alloc, named, cond)?,
        set: RuleSet {
            rules: Sequence::from_vec(rules),
        },
    })
}

/// The scanners of a block whose opener stands at this place, in the order of their conditions.
pub(crate) fn scanners(
    alloc: Global,
    known: &Known,
    named: bool,
    at: Pos,
) -> Result<Sequence<Scanner>, Stop>
    requires { (state : State) × Holds known.now state }
    ensures { (state : State) → Holds known.now state → MatchResult result
        (AllZip (IsBuiltScanner named at (config_of state.settings).eof state.rules) (conditions_of state.rules))
        (StopsAt (Finds (scanners_fault at (config_of state.settings).eof state.rules (conditions_of state.rules)))) }
{
    let mut scanners = Sequence::new(alloc);
    for number in 0..known.conds.len() {
        let cond = known.conds.name_at(number);
        scanners.push(scanner(alloc, known, named, cond, at)?)?;
    }
    Ok(scanners)
}
