//! Decides which states and which switch over them a valid piece may have.
ghost use Rattle.std.specs.Prelude.{◌≡◌, ◌↔◌, ◌++◌, ◌<◌, ◌^◌, ℕ, Some, IsTrue, [], length, IfOk, IfSome, OnOk, MatchOption};
ghost use Rattle.std.specs.Ordering.{nat_cmp};
ghost use Rattle.std.specs.List.{AllByRecursion};
ghost use Rattle.lx_ccode.specs.States.{block_of, state_block, states_from, states_in, try_first};
ghost use Rattle.lx_ccode.specs.Validity.{AreAscending, AreOnce, IsStateSwitch};
ghost use Rattle.std.specs.BTreeMap.{get};

use crate::statements::is_try;
use lx_base::{Memory, Sequence};
use lx_ccode::{CodeBlock, StateCase, Stmt};
use std::alloc::Global;
use std::collections::BTreeMap;

fn try_first(statements: &[Stmt]) -> bool
    ensures { result ≡ try_first statements.now }
{
    match statements.first() {
        None => false,
        Some(statement) => is_try(statement),
    }
}

/// Appends the states of a block's statements, each with the block where it goes on: this one, or the next
/// one before a Try.
fn append_states(states: &mut Vec<StateCase>, place: u64, statements: &[Stmt]) -> Result<(), Memory>
    requires { place < 2 ^ 63 }
    ensures { OnOk result (states.new.items ≡ states.old.items ++ states_in place statements.now []) }
{
    for (index, statement) in statements.iter().enumerate() {
        if let Stmt::State(state) = statement {
            let goes_on = try_first(&statements[index + 1..]);
            states.push(StateCase {
                state: *state,
                block: if goes_on { place + 1 } else { place },
            })?;
        }
    }
    Ok(())
}

/// The states of blocks, each with the block where it goes on.
fn states_of(alloc: Global, blocks: &[CodeBlock]) -> Result<Vec<StateCase>, Memory>
    ensures { IfOk result (λ states. states.items ≡ states_from 0 blocks.now) }
{
    let mut states = Vec::new(alloc);
    for (place, block) in blocks.iter().enumerate() {
        append_states(&mut states, place as u64, block.stmts.as_slice())?;
    }
    Ok(states)
}

/// The block of each state; `None` where a state stands twice.
fn by_state(alloc: Global, cases: &[StateCase]) -> Result<Option<BTreeMap<u64, u64>>, Memory>
    ensures { IfOk result (λ found. MatchOption found (AreOnce cases.now → ⊥)
        (λ map. AreOnce cases.now × ((state : ℕ) → get nat_cmp map state ≡ block_of cases.now state))) }
{
    let mut map = BTreeMap::new(alloc);
    let mut place = cases.len();
    while place > 0 {
        place -= 1;
        let case = cases[place];
        if map.insert(case.state, case.block)?.is_some() {
            return Ok(None);
        }
    }
    Ok(Some(map))
}

/// Whether the state is less than that of each case.
fn is_below(state: u64, cases: &[StateCase]) -> bool
    requires { AreAscending cases.now }
    ensures { IsTrue result ↔ AllByRecursion (λ other. state < other.state) cases.now }
{
    match cases.split_first() {
        None => true,
        Some((case, _)) => state < case.state,
    }
}

/// Whether the cases stand in order, each state once.
fn are_ascending(cases: &[StateCase]) -> bool
    ensures { IsTrue result ↔ AreAscending cases.now }
{
    let mut place = cases.len();
    while place > 0 {
        let below = is_below(cases[place - 1].state, &cases[place..]);
        if !below {
            return false;
        }
        place -= 1;
    }
    true
}

fn is_block(found: Option<u64>, block: u64) -> bool
    ensures { IsTrue result ↔ (found ≡ Some block) }
{
    found == Some(block)
}

/// Whether the cases and the map have the same states and blocks.
fn are_those_of(cases: &[StateCase], map: BTreeMap<u64, u64>) -> bool
    requires { AreAscending cases.now }
    ensures { IsTrue result ↔ ((state : ℕ) → block_of cases.now state ≡ get nat_cmp map state) }
{
    let mut map = map;
    for case in cases {
        let found = map.remove(&case.state);
        if !is_block(found, case.block) {
            return false;
        }
    }
    map.is_empty()
}

/// Whether each state is stored at one place, and the switch over the states, where there is one, has
/// exactly these states in order; and how many states the blocks store.
pub(crate) fn keep_state_rules(
    alloc: Global,
    blocks: &[CodeBlock],
    states: &Option<Sequence<StateCase>>,
) -> Result<(bool, usize), Memory>
    ensures { IfOk result (λ keep. (IsTrue keep.0 ↔ (AreOnce (states_from 0 blocks.now) × IfSome states.now (IsStateSwitch blocks.now))) × (keep.1 ≡ length (states_from 0 blocks.now))) }
{
    let stored = states_of(alloc, blocks)?;
    let count = stored.len();
    match by_state(alloc, &stored)? {
        None => Ok((false, count)),
        Some(map) => Ok((is_switch(states, map), count)),
    }
}

fn is_switch(states: &Option<Sequence<StateCase>>, map: BTreeMap<u64, u64>) -> bool
    ensures { IsTrue result ↔ IfSome states.now (λ cases. AreAscending cases × ((state : ℕ) → block_of cases state ≡ get nat_cmp map state)) }
{
    match states {
        None => true,
        Some(cases) => {
            let cases = cases.as_slice();
            if are_ascending(cases) {
                are_those_of(cases, map)
            } else {
                false
            }
        }
    }
}
