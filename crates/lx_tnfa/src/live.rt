//! The states from which an end can be reached.
ghost use Rattle.std.specs.Prelude.{◌≡◌, [], ◌∷◌, ◌++◌, ◌<◌, All, length, true, false, map, replicate, IfOk, OnOk};
ghost use Rattle.lx_tnfa.specs.Live.{AreLive, ArePredecessors, leads_to, marks_each, put_each, put_one, waits_each};
ghost use Rattle.lx_tnfa.specs.declared.states.Move.{Move as Way};

use crate::classes::ClassGraph;
use crate::states::{Move, State};
use lx_base::{Memory, Sequence};
use std::alloc::Global;

/// Appends a state to the list of those that lead to another one, if that is there.
fn put(before: &mut [Sequence<usize>], number: usize, next: usize) -> Result<(), Memory>
    ensures { OnOk result (before.new ≡ put_one before.old number next) }
{
    if next < before.len() {
        before[next].push(number)?;
    }
    Ok(())
}

/// Appends a state to the lists of those to which its moves lead.
fn put_moves(before: &mut [Sequence<usize>], number: usize, ways: &[Move]) -> Result<(), Memory>
    ensures { OnOk result (before.new ≡ put_each before.old number (map (λ (way : Way). way.to) ways.now)) }
{
    for way in ways {
        put(before, number, way.to as usize)?;
    }
    Ok(())
}

/// Appends a state to the lists of those to which it leads: by a move, or by a spelling of its leaf.
fn put_state(
    before: &mut [Sequence<usize>],
    classes: &[ClassGraph],
    number: usize,
    state: &State,
) -> Result<(), Memory>
    requires { number < length before.old }
    ensures { OnOk result (before.new ≡ put_each before.old number (leads_to classes.now number state.now)) }
{
    match state {
        State::Moves(ways) => put_moves(before, number, ways.as_slice()),
        State::Class(class) => match classes.get(*class as usize) {
            Some(class) => {
                if class.graph.starts().is_empty() {
                    return Ok(());
                }
                put(before, number, number + 1)
            }
            None => Ok(()),
        },
        State::AnyUnit => put(before, number, number + 1),
    }
}

/// So many empty lists.
fn empty_lists(alloc: Global, count: usize) -> Result<Vec<Sequence<usize>>, Memory>
    ensures { IfOk result (λ lists. lists.items ≡ replicate count []) }
{
    let mut lists = Vec::new(alloc);
    for _ in 0..count {
        lists.push(Sequence::new(alloc))?;
    }
    Ok(lists)
}

/// Of each state, those that lead to it.
fn predecessors(
    alloc: Global,
    states: &[State],
    classes: &[ClassGraph],
) -> Result<Vec<Sequence<usize>>, Memory>
    ensures count { IfOk result (λ before. length before.items ≡ length states.now) }
    ensures lists { IfOk result (λ before. ArePredecessors classes.now states.now before.items) }
{
    let mut before = empty_lists(alloc, states.len())?;
    for (number, state) in states.iter().enumerate() {
        put_state(&mut before, classes, number, state)?;
    }
    Ok(before)
}

/// A mark, and so many behind it that are not set.
fn first_mark(alloc: Global, others: usize) -> Result<Vec<bool>, Memory>
    ensures { IfOk result (λ marks. marks.items ≡ true ∷ replicate others false) }
{
    let mut marks = Vec::new(alloc);
    marks.push(true)?;
    for _ in 0..others {
        marks.push(false)?;
    }
    Ok(marks)
}

/// Marks states, and appends those that had no mark to the ones that wait.
fn mark_each(numbers: &[usize], marks: &mut [bool], waiting: &mut Vec<usize>) -> Result<(), Memory>
    requires { All (λ number. number < length marks.old) numbers.now }
    ensures marks { OnOk result (marks.new ≡ marks_each marks.old numbers.now) }
    ensures waiting { OnOk result (waiting.new.items ≡ waiting.old.items ++ waits_each marks.old numbers.now) }
{
    for number in numbers {
        if !marks[*number] {
            marks[*number] = true;
            waiting.push(*number)?;
        }
    }
    Ok(())
}

/// Of each state, whether an end can be reached from it. Each marked state waits once, until those that lead to it are marked: so
/// this takes time linear in the states and moves.
pub(crate) fn live_states(
    alloc: Global,
    states: &[State],
    classes: &[ClassGraph],
) -> Result<Vec<bool>, Memory>
    requires { 0 < length states.now }
    ensures count { IfOk result (λ live. length live.items ≡ length states.now) }
    ensures live { IfOk result (λ live. AreLive classes.now states.now live.items) }
{
    let before = predecessors(alloc, states, classes)?;
    let mut live = first_mark(alloc, states.len() - 1)?;
    let mut waiting = Vec::new(alloc);
    waiting.push(0)?;
    while let Some(number) = waiting.pop() {
        mark_each(before[number].as_slice(), &mut live, &mut waiting)?;
    }
    Ok(live)
}
