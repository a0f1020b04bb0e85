//! Automata made from tables, and the numbers that the manual's way gives them.
ghost use Rattle.std.specs.Prelude.{IfOk};
ghost use Rattle.lx_auto.specs.Automaton.{IsAuto, IsState};

use lx_auto::{Auto, Edge, Ops, State};
use lx_base::{Memory, Sequence};
use lx_fill::{CheckList, checks, max_fill};
use std::alloc::Global;
use std::test::Fail;

/// A state with an edge for each pair of its number and that of another state, on units from 0 on.
fn state(alloc: Global, edges: &[(u32, u32)], number: u32, count: u32) -> Result<State, Memory>
    ensures { IfOk result (IsState 0 0 count) }
{
    let mut found = Sequence::new(alloc);
    let mut unit = 0;
    for (from, to) in edges {
        if *from == number && *to < count && unit < 1000 {
            found.push(Edge {
                lo: unit,
                hi: unit,
                ops: Ops::new(alloc),
                to: *to,
            })?;
            unit += 1;
        }
    }
    Ok(State {
        edges: found,
        accept: None,
        leave: Ops::new(alloc),
    })
}

/// An automaton whose states have the numbers from 0 to the last one, with edges by a table.
fn automaton(alloc: Global, last: u16, edges: &[(u32, u32)]) -> Result<Auto, Memory>
    ensures { IfOk result IsAuto }
{
    let count = u32::from(last) + 1;
    let mut states = Sequence::new(alloc);
    for number in 0..count {
        states.push(state(alloc, edges, number, count)?)?;
    }
    Ok(Auto {
        states,
        regs: 0,
        mregs: 0,
    })
}

/// The checks of such an automaton.
fn checks_of(alloc: Global, last: u16, edges: &[(u32, u32)]) -> Result<CheckList, Memory> {
    checks(alloc, &automaton(alloc, last, edges)?)
}

/// Whether these are the checks of such an automaton.
fn are_checks(
    alloc: Global,
    last: u16,
    edges: &[(u32, u32)],
    numbers: &[u32],
) -> Result<bool, Memory> {
    Ok(checks_of(alloc, last, edges)?.as_slice() == numbers)
}

/// An automaton: what it shows, its last state, and its edges; and the checks of its states.
type Row = (&'static str, u16, &'static [(u32, u32)], &'static [u32]);

const ROWS: [Row; 9] = [
    ("no edge", 0, &[], &[0]),
    ("a chain", 3, &[(0, 1), (1, 2), (2, 3)], &[3, 0, 0, 0]),
    ("a loop", 2, &[(0, 1), (1, 2), (2, 0)], &[3, 0, 0]),
    ("a loop of one edge", 1, &[(0, 1), (1, 1)], &[1, 1]),
    (
        "two loops that share a state",
        3,
        &[(0, 1), (1, 2), (2, 1), (1, 3), (3, 1)],
        &[1, 2, 0, 0],
    ),
    (
        "a loop in a loop",
        3,
        &[(0, 1), (1, 2), (2, 3), (3, 2), (3, 1)],
        &[1, 1, 2, 0],
    ),
    (
        "a state that is reached by the start's loop alone",
        2,
        &[(0, 1), (1, 0), (1, 2)],
        &[2, 0, 0],
    ),
    (
        "states that no walk reaches",
        3,
        &[(0, 1), (2, 3), (3, 2), (3, 1)],
        &[1, 0, 2, 0],
    ),
    (
        "the rules \"abc\" and *",
        4,
        &[(0, 1), (0, 4), (1, 2), (2, 3)],
        &[3, 0, 0, 0, 0],
    ),
];

#[test]
fn numbers_are_those_of_the_longest_walks(rt: HostRuntime) -> Result<(), Fail> {
    for (name, last, edges, numbers) in ROWS {
        assert!(rt; are_checks(rt.alloc(), last, edges, numbers)?, "{name}");
    }
    Ok(())
}

/// How many checks such an automaton of 4096 states has, those of two states, and the greatest.
fn told_of(
    alloc: Global,
    edges: &[(u32, u32)],
    first: usize,
    second: usize,
) -> Result<(usize, Option<u32>, Option<u32>, u32), Memory> {
    let list = checks_of(alloc, 4095, edges)?;
    let numbers = list.as_slice();
    let (one, other) = (numbers.get(first).copied(), numbers.get(second).copied());
    Ok((numbers.len(), one, other, max_fill(&list)))
}

/// Edges from each state to the next one, up to the last of 4096.
fn chain(alloc: Global) -> Result<Vec<(u32, u32)>, Memory> {
    let mut edges = Vec::new(alloc);
    for state in 0..4095 {
        edges.push((state, state + 1))?;
    }
    Ok(edges)
}

/// Edges from each state to the next one, and from the last of 4096 to the second.
fn ring(alloc: Global) -> Result<Vec<(u32, u32)>, Memory> {
    let mut edges = chain(alloc)?;
    edges.push((4095, 1))?;
    Ok(edges)
}

#[test]
fn many_states_need_no_deep_calls(rt: HostRuntime) -> Result<(), Fail> {
    let told = told_of(rt.alloc(), &chain(rt.alloc())?, 0, 4095)?;
    assert!(rt; told == (4096, Some(4095), Some(0), 4095));
    let told = told_of(rt.alloc(), &ring(rt.alloc())?, 0, 1)?;
    assert!(rt; told == (4096, Some(1), Some(4095), 4095));
    Ok(())
}
