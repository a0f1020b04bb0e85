//! The rules that some stream enters.
ghost use Rattle.std.specs.Prelude.{◌≡◌, ◌↔◌, ◌==◌, ◌++◌, ◌<◌, All, IfOk, IsTrue, OnOk, length, not};
ghost use Rattle.std.specs.List.{list_any};
ghost use Rattle.std.specs.List.Sorted.{IsNonDecreasing};
ghost use Rattle.lx_auto.specs.Automaton.{IsAuto, state_of};
ghost use Rattle.lx_auto.specs.declared.automaton.Edge.{Edge as EdgeValue};
ghost use Rattle.lx_search.specs.Scopes.{accepts as state_accepts};
ghost use Rattle.lx_warn.specs.Entered.{AreEntered, LeadsToStart, MayStopAtOnce, ReturnsToStart, StartEnters, listed, number_of, rule_at as entered_at};

use crate::gaps::least_gap;
use lx_auto::{Auto, Edge, edges_of};
use lx_base::{Enc, Memory};
use lx_search::accepts;
use std::alloc::Global;

/// Whether one of the edges leads to a state that accepts nothing.
fn any_quiet(auto: &Auto, edges: &[Edge]) -> bool
    requires { All (λ (edge : EdgeValue). edge.to < length auto.now.states) edges.now }
    ensures { result ≡ list_any (λ (edge : EdgeValue). not (state_accepts auto.now edge.to)) edges.now }
{
    for edge in edges {
        if !accepts(auto, edge.to) {
            return true;
        }
    }
    false
}

/// Whether one of the edges leads to the start.
fn any_to_start(edges: &[Edge]) -> bool
    ensures { result ≡ list_any (λ (edge : EdgeValue). edge.to == 0) edges.now }
{
    for edge in edges {
        if edge.to == 0 {
            return true;
        }
    }
    false
}

/// Whether on some unit of the encoding the start has no edge, or one to a state that accepts nothing.
fn may_stop_at_once(auto: &Auto, enc: Enc) -> bool
    requires { IsAuto auto.now }
    ensures { IsTrue result ↔ MayStopAtOnce enc auto.now }
{
    let edges = edges_of(auto, 0);
    match least_gap(edges, enc) {
        None => any_quiet(auto, edges),
        Some(_) => true,
    }
}

/// Whether a state is marked and has an edge to the start.
fn leads_to_start(auto: &Auto, marks: &[bool], state: u32) -> bool
    requires formed { IsAuto auto.now }
    requires within { state < length auto.now.states }
    requires fit { length marks.now ≡ length auto.now.states }
    ensures { IsTrue result ↔ LeadsToStart auto.now marks.now state }
{
    if !marks[state as usize] {
        return false;
    }
    any_to_start(edges_of(auto, state))
}

/// Whether a marked state has an edge to the start.
fn returns_to_start(auto: &Auto, marks: &[bool]) -> bool
    requires formed { IsAuto auto.now }
    requires fit { length marks.now ≡ length auto.now.states }
    ensures { IsTrue result ↔ ReturnsToStart auto.now marks.now }
{
    for state in 0..marks.len() {
        if leads_to_start(auto, marks, state as u32) {
            return true;
        }
    }
    false
}

/// Whether the start enters its rule, where this rule stands at the end of the input.
pub(crate) fn start_enters(auto: &Auto, enc: Enc, marks: &[bool], at_end: Option<u32>) -> bool
    requires formed { IsAuto auto.now }
    requires fit { length marks.now ≡ length auto.now.states }
    ensures { IsTrue result ↔ StartEnters enc auto.now marks.now at_end }
{
    if at_end.is_none() {
        return true;
    }
    if may_stop_at_once(auto, enc) {
        return true;
    }
    returns_to_start(auto, marks)
}

/// The number of the rule that a state accepts, if it accepts.
pub(crate) fn accepted_rule(auto: &Auto, state: u32) -> Option<u32>
    requires { state < length auto.now.states }
    ensures { result ≡ number_of (state_of auto.now.states state).accept }
{
    let state = &auto.states.as_slice()[state as usize];
    match &state.accept {
        None => None,
        Some(accept) => Some(accept.rule),
    }
}

/// The number of the rule that is entered by a state, if it is marked. The start counts only where it is told so.
fn rule_at(auto: &Auto, marks: &[bool], start: bool, state: u32) -> Option<u32>
    requires within { state < length auto.now.states }
    requires fit { length marks.now ≡ length auto.now.states }
    ensures { result ≡ entered_at auto.now marks.now start state }
{
    if marks[state as usize] && (state > 0 || start) {
        accepted_rule(auto, state)
    } else {
        None
    }
}

/// Appends the number of a rule, if there is one.
fn push_rule(numbers: &mut Vec<u32>, rule: Option<u32>) -> Result<(), Memory>
    ensures { OnOk result (numbers.new.items ≡ numbers.old.items ++ listed rule) }
{
    match rule {
        None => Ok(()),
        Some(number) => {
            numbers.push(number)?;
            Ok(())
        }
    }
}

/// The numbers of the rules that are entered, in ascending order: the one at the end of the input, and those of marked states.
pub(crate) fn entered_rules(
    alloc: Global,
    auto: &Auto,
    marks: &[bool],
    start: bool,
    at_end: Option<u32>,
) -> Result<Vec<u32>, Memory>
    requires formed { IsAuto auto.now }
    requires fit { length marks.now ≡ length auto.now.states }
    ensures entered { IfOk result (λ numbers. AreEntered (entered_at auto.now marks.now start) at_end (length auto.now.states) numbers.items) }
    ensures ascend { IfOk result (λ numbers. IsNonDecreasing numbers.items) }
{
    let mut numbers = Vec::new(alloc);
    push_rule(&mut numbers, at_end)?;
    for state in 0..marks.len() {
        push_rule(&mut numbers, rule_at(auto, marks, start, state as u32))?;
    }
    numbers.sort_unstable();
    Ok(numbers)
}
