//! The states to which walks come, with the groups of the accepting states that were left last.
ghost use Rattle.std.specs.Prelude.{◌≡◌, ℕ, ◌<◌, None, IfOk, OnOk, length, slice_index};
ghost use Rattle.lx_auto.specs.Automaton.{IsAuto, state_of};
ghost use Rattle.lx_regs.specs.Growth.{Grows, IsDueForSome};
ghost use Rattle.lx_regs.specs.Reached.{ArePairs, IsBehind, IsNextPair, left_of};

use crate::found::Found;
use lx_auto::{Auto, Edge, State};
use lx_base::Memory;
use std::alloc::Global;

/// A state, and the group of the accepting states of which one was left last, or 0 where none was.
#[derive(Clone, Copy, PartialEq, Eq, Hash)]
pub(crate) struct Pair {
    pub state: u32,
    pub left: u32,
}

/// The state with this number. It takes no memory.
pub(crate) fn state_at(auto: &Auto, state: u32) -> &State
    requires { state < length auto.now.states }
    ensures { result.now ≡ state_of auto.now.states state }
{
    &auto.states.as_slice()[state as usize]
}

/// The group of what was left last, once the state is left too. It takes no memory.
fn left_of(numbers: &[u32], pair: Pair) -> u32
    requires { pair.state < length numbers.now }
    ensures { result ≡ left_of numbers.now pair.state pair.left }
{
    let own = numbers[pair.state as usize];
    if own == 0 { pair.left } else { own }
}

/// Adds the pairs behind edges.
fn add_behind(found: &mut Found<Pair>, edges: &[Edge], left: u32) -> Result<(), Memory>
    ensures { OnOk result (Grows (IsDueForSome edges.now (IsBehind left)) found.old found.new) }
{
    for edge in edges {
        found.add(Pair {
            state: edge.to,
            left,
        })?;
    }
    Ok(())
}

/// Adds the pairs behind the edges of a pair's state.
fn add_next(found: &mut Found<Pair>, auto: &Auto, numbers: &[u32], pair: Pair) -> Result<(), Memory>
    requires within { pair.state < length auto.now.states }
    requires fit { length numbers.now ≡ length auto.now.states }
    ensures { OnOk result (Grows (IsNextPair auto.now numbers.now pair) found.old found.new) }
{
    let left = left_of(numbers, pair);
    add_behind(found, state_at(auto, pair.state).edges.as_slice(), left)
}

/// The pairs to which walks come.
pub(crate) fn reached_pairs(
    alloc: Global,
    auto: &Auto,
    numbers: &[u32],
) -> Result<Found<Pair>, Memory>
    requires formed { IsAuto auto.now }
    requires fit { length numbers.now ≡ length auto.now.states }
    requires some { (state : ℕ) → slice_index numbers.now state ≡ 0 → (state_of auto.now.states state).accept ≡ None }
    requires none { (state : ℕ) → (state_of auto.now.states state).accept ≡ None → slice_index numbers.now state ≡ 0 }
    ensures { IfOk result (ArePairs auto.now numbers.now) }
{
    let mut found = Found::new(alloc);
    found.add(Pair { state: 0, left: 0 })?;
    let mut done = 0;
    while done < found.len() {
        let pair = found.at(done);
        add_next(&mut found, auto, numbers, pair)?;
        done += 1;
    }
    Ok(found)
}
