//! In which states of an automaton a match can end, and from which one falls back.
ghost use Rattle.std.specs.Prelude.{◌≡◌, ℕ, ◌+◌, ◌*◌, ◌<◌, ◌≤◌, ◌&&◌, Bool, true, false, not, nat_eq, IfOk, OnOk, length, slice_index_or, slice_set, if◌then◌else◌};
ghost use Rattle.std.specs.List.{list_any};
ghost use Rattle.lx_auto.specs.Automaton.{IsAuto};
ghost use Rattle.lx_auto.specs.declared.automaton.Edge.{Edge};
ghost use Rattle.lx_layout.specs.Halting.{AreHalting, any_falls, is_entered, is_led_to, is_saved, saves_on};
ghost use Rattle.lx_layout.specs.Marks.{AreFalls, AllFall, IsClosed, bare_from, falls_by, halts_by, halts_from, seen_marks, unmarked};

use lx_auto::{Auto, Edge, State};
use lx_base::{Format, Memory};
use std::alloc::Global;

/// How many states are marked round by round alone: most scanners have no more.
const FEW: usize = 8;

/// Of each state by its number whether a match can end in it, and whether one falls back from it.
#[derive(Drop)]
pub(crate) struct Marks {
    pub halts: Vec<bool>,
    pub falls: Vec<bool>,
    /// The format of the text that is laid out by them.
    pub format: Format,
}

/// Whether the state with this number is marked. One that is not there is not.
fn is_marked(marks: &[bool], number: usize) -> bool
    ensures { result ≡ slice_index_or marks.now number false }
{
    match marks.get(number) {
        Some(mark) => *mark,
        None => false,
    }
}

impl Marks {
    /// Whether a match can end in the state with this number.
    pub fn halts(&self, number: usize) -> bool
        ensures { result ≡ (seen_marks self.now).halts number }
    {
        is_marked(&self.halts, number)
    }

    /// Whether a match falls back from the state with this number.
    pub fn falls(&self, number: usize) -> bool
        ensures { result ≡ (seen_marks self.now).falls number }
    {
        is_marked(&self.falls, number)
    }

    /// Whether a match falls back from one of these states.
    pub fn any_falls(&self, states: &[State]) -> bool
        ensures { result ≡ any_falls (seen_marks self.now) 0 states.now }
    {
        for (number, _state) in states.iter().enumerate() {
            if self.falls(number) {
                return true;
            }
        }
        false
    }

    /// Whether a state is saved on an edge. A match can fall back to it only behind an edge to a state from which one falls back.
    pub fn saves_on(&self, state: &State, edge: &Edge) -> bool
        ensures { result ≡ saves_on (seen_marks self.now) state.now edge.now }
    {
        state.accept.is_some() && self.falls(edge.to as usize)
    }

    /// Whether a state is saved on some edge.
    pub fn is_saved(&self, state: &State) -> bool
        ensures { result ≡ is_saved (seen_marks self.now) state.now }
    {
        for edge in state.edges.as_slice() {
            if self.saves_on(state, edge) {
                return true;
            }
        }
        false
    }
}

/// Whether some edge leads to the state with this number.
fn leads_to(edges: &[Edge], number: u32) -> bool
    ensures { result ≡ list_any (λ (edge : Edge). nat_eq edge.to number) edges.now }
{
    for edge in edges {
        if edge.to == number {
            return true;
        }
    }
    false
}

/// Whether an edge of some state leads to the state with this number.
fn is_led_to(states: &[State], number: u32) -> bool
    ensures { result ≡ is_led_to states.now number }
{
    for state in states {
        if leads_to(state.edges.as_slice(), number) {
            return true;
        }
    }
    false
}

/// Whether a match comes to the code of state 0.
pub(crate) fn start_is_entered(end_rule: Option<u32>, auto: &Auto) -> bool
    requires { IsAuto auto.now }
    ensures { result ≡ is_entered end_rule auto.now 0 }
{
    if end_rule.is_none() {
        return true;
    }
    let states = auto.states.as_slice();
    states[0].edges.as_slice().is_empty() || is_led_to(states, 0)
}

/// Whether some unit up to a greatest one has none of these edges.
fn leaves_bare(edges: &[Edge], greatest: u32) -> bool
    ensures { result ≡ bare_from greatest 0 edges.now }
{
    let mut low = 0;
    for edge in edges {
        if low < u64::from(edge.lo) {
            return low <= u64::from(greatest);
        }
        low = u64::from(edge.hi) + 1;
    }
    low <= u64::from(greatest)
}

/// Whether a match can end in a state with these edges, where it is known whether the input may end there.
fn halts_in(greatest: u32, at_end: bool, edges: &[Edge]) -> bool
    ensures { result ≡ halts_by greatest at_end edges.now }
{
    edges.is_empty() || at_end || leaves_bare(edges, greatest)
}

/// Whether a match can end in each of these states, where it is known whether a unit stands at the end of the input, and whether a
/// match comes to the code of state 0.
fn halts_of(
    alloc: Global,
    greatest: u32,
    stands: bool,
    entered: bool,
    states: &[State],
) -> Result<Vec<bool>, Memory>
    ensures { IfOk result (λ halts. halts.items ≡ halts_from greatest stands entered 0 states.now) }
{
    let mut halts = Vec::with_capacity(alloc, states.len())?;
    for (number, state) in states.iter().enumerate() {
        let at_end = stands && (entered || number != 0);
        halts.push(halts_in(greatest, at_end, state.edges.as_slice()))?;
    }
    Ok(halts)
}

/// Whether an edge leads to a state that is marked.
fn leads_to_marked(falls: &[bool], edges: &[Edge]) -> bool
    ensures { result ≡ list_any (λ (edge : Edge). slice_index_or falls.now edge.to false) edges.now }
{
    for edge in edges {
        if is_marked(falls, edge.to as usize) {
            return true;
        }
    }
    false
}

/// Whether a match falls back from a state, where it is known whether one can end in it, by the states that are marked.
fn falls_here(falls: &[bool], halts: bool, state: &State) -> bool
    ensures { result ≡ falls_by falls.now halts state.now }
{
    state.accept.is_none() && (halts || leads_to_marked(falls, state.edges.as_slice()))
}

/// Marks a state if a match falls back from it, and tells whether it is marked anew.
fn mark(falls: &mut Vec<bool>, number: usize, halts: bool, state: &State) -> bool
    requires { number < length falls.old.items }
    ensures asked { result ≡ (not (slice_index_or falls.old.items number false) && falls_by falls.old.items halts state.now) }
    ensures after { falls.new.items ≡ (if result then slice_set falls.old.items number true else falls.old.items) }
{
    if falls[number] || !falls_here(falls.as_slice(), halts, state) {
        return false;
    }
    falls[number] = true;
    true
}

/// Marks states from which a match falls back, from the last one on, and tells whether one is marked anew.
fn mark_round(falls: &mut Vec<bool>, halts: &[bool], states: &[State]) -> bool
    requires long { length falls.old.items ≡ length states.now }
    requires same { length halts.now ≡ length states.now }
    ensures long { length falls.new.items ≡ length states.now }
    ensures sound { AllFall halts.now states.now falls.old.items → AllFall halts.now states.now falls.new.items }
    ensures fewer { result ≡ true → unmarked falls.new.items < unmarked falls.old.items }
    ensures closed { result ≡ false → IsClosed halts.now states.now falls.new.items }
{
    let count = states.len();
    let mut changed = false;
    for index in 0..count {
        let number = count - 1 - index;
        if mark(falls, number, halts[number], &states[number]) {
            changed = true;
        }
    }
    changed
}

/// So many states, of which none is marked.
fn none_marked(alloc: Global, count: usize) -> Result<Vec<bool>, Memory>
    ensures long { IfOk result (λ marks. length marks.items ≡ count) }
    ensures none { IfOk result (λ marks. (number : ℕ) → slice_index_or marks.items number false ≡ false) }
{
    let mut marks = Vec::with_capacity(alloc, count)?;
    for _number in 0..count {
        marks.push(false)?;
    }
    Ok(marks)
}

/// Marks the state with this number if a match falls back from it, and tells whether it is marked anew.
fn mark_at(falls: &mut Vec<bool>, halts: &[bool], states: &[State], number: usize) -> bool
    requires long { length falls.old.items ≡ length states.now }
    requires same { length halts.now ≡ length states.now }
    ensures long { length falls.new.items ≡ length states.now }
    ensures sound { AllFall halts.now states.now falls.old.items → AllFall halts.now states.now falls.new.items }
    ensures fewer { result ≡ true → unmarked falls.new.items < unmarked falls.old.items }
    ensures most { unmarked falls.new.items ≤ unmarked falls.old.items }
{
    if states.len() <= number {
        return false;
    }
    mark(falls, number, halts[number], &states[number])
}

/// So many empty lists.
fn empty_lists(alloc: Global, count: usize) -> Result<Vec<Vec<usize>>, Memory> {
    let mut lists = Vec::with_capacity(alloc, count)?;
    for _number in 0..count {
        lists.push(Vec::new(alloc))?;
    }
    Ok(lists)
}

/// Notes a state in the lists of those to which its edges lead.
fn note_edges(sources: &mut Vec<Vec<usize>>, number: usize, edges: &[Edge]) -> Result<(), Memory> {
    for edge in edges {
        if let Some(list) = sources.get_mut(edge.to as usize) {
            list.push(number)?;
        }
    }
    Ok(())
}

/// For each state by its number those that do not accept and have an edge to it.
fn sources_of(alloc: Global, states: &[State]) -> Result<Vec<Vec<usize>>, Memory> {
    let mut sources = empty_lists(alloc, states.len())?;
    for (number, state) in states.iter().enumerate() {
        if state.accept.is_none() {
            note_edges(&mut sources, number, state.edges.as_slice())?;
        }
    }
    Ok(sources)
}

/// Marks those of some states from which a match falls back, and puts each that is marked anew on a stack.
fn mark_each(
    falls: &mut Vec<bool>,
    stack: &mut Vec<usize>,
    halts: &[bool],
    states: &[State],
    numbers: &[usize],
) -> Result<(), Memory>
    requires long { length falls.old.items ≡ length states.now }
    requires same { length halts.now ≡ length states.now }
    ensures long { OnOk result (length falls.new.items ≡ length states.now) }
    ensures sound { OnOk result (AllFall halts.now states.now falls.old.items → AllFall halts.now states.now falls.new.items) }
    ensures less { OnOk result (2 * unmarked falls.new.items + length stack.new.items ≤ 2 * unmarked falls.old.items + length stack.old.items) }
{
    for number in numbers {
        if mark_at(falls, halts, states, *number) {
            stack.push(*number)?;
        }
    }
    Ok(())
}

/// The numbers of so many states.
fn all_numbers(alloc: Global, count: usize) -> Result<Vec<usize>, Memory> {
    let mut numbers = Vec::with_capacity(alloc, count)?;
    for number in 0..count {
        numbers.push(number)?;
    }
    Ok(numbers)
}

/// Marks states from which a match falls back: those in which one can end, and then, edge by edge, those that lead to one of them.
/// Each edge is looked at twice.
fn mark_behind(
    alloc: Global,
    falls: &mut Vec<bool>,
    halts: &[bool],
    states: &[State],
) -> Result<(), Memory>
    requires long { length falls.old.items ≡ length states.now }
    requires same { length halts.now ≡ length states.now }
    ensures long { OnOk result (length falls.new.items ≡ length states.now) }
    ensures sound { OnOk result (AllFall halts.now states.now falls.old.items → AllFall halts.now states.now falls.new.items) }
{
    let sources = sources_of(alloc, states)?;
    let numbers = all_numbers(alloc, states.len())?;
    let mut stack = Vec::new(alloc);
    mark_each(falls, &mut stack, halts, states, &numbers)?;
    while let Some(number) = stack.pop() {
        if let Some(list) = sources.get(number) {
            mark_each(falls, &mut stack, halts, states, list)?;
        }
    }
    Ok(())
}

/// Whether a match falls back from each of these states, where it is known whether one can end in it.
fn falls_of(alloc: Global, halts: &[bool], states: &[State]) -> Result<Vec<bool>, Memory>
    requires { length halts.now ≡ length states.now }
    ensures { IfOk result (λ falls. AreFalls halts.now states.now falls.items) }
{
    let mut falls = none_marked(alloc, states.len())?;
    if FEW < states.len() {
        mark_behind(alloc, &mut falls, halts, states)?;
    }
    // Of many states all are found by now, which a round shows that finds no other one.
    while mark_round(&mut falls, halts, states) {}
    Ok(falls)
}

/// In which states of an automaton a match can end, for units up to a greatest one, and from which one falls back.
pub(crate) fn marks_of(
    alloc: Global,
    greatest: u32,
    eof: Option<u32>,
    end_rule: Option<u32>,
    auto: &Auto,
    format: Format,
) -> Result<Marks, Memory>
    requires { IsAuto auto.now }
    ensures marked { IfOk result (λ marks. AreHalting eof end_rule greatest auto.now (seen_marks marks)) }
    ensures format { IfOk result (λ marks. marks.format ≡ format) }
{
    let states = auto.states.as_slice();
    let entered = start_is_entered(end_rule, auto);
    let halts = halts_of(alloc, greatest, eof.is_some(), entered, states)?;
    let falls = falls_of(alloc, halts.as_slice(), states)?;
    Ok(Marks {
        halts,
        falls,
        format,
    })
}
