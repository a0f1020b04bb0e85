//! What is known of a scanner before its blocks are laid: the tests of its states, and how many blocks these need.
ghost use Rattle.std.specs.Prelude.{◌≡◌, ◌<◌, None, IfOk, length, if◌then◌else◌};
ghost use Rattle.lx_auto.specs.Automaton.{AreApart, IsAuto};
ghost use Rattle.lx_layout.specs.Halting.{is_entered};
ghost use Rattle.lx_layout.specs.LaidParts.{ArePlans, AreStatePlans, IsStatePlan, begin_at, entry_size_at, entry_tests_at, fall_at, planned_states, size_at, tests_at, turn_at};
ghost use Rattle.lx_layout.specs.Layout.{end_size, lone_size};
ghost use Rattle.lx_layout.specs.Plans.{HaveOrder};
ghost use Rattle.lx_layout.specs.SuppliedLayout.{lone_number};

use crate::blocks::sum;
use crate::demands::PartInput;
use crate::halting::{Marks, marks_of, start_is_entered};
use crate::readers::reader_size;
use lx_auto::{Accept, State};
use lx_base::Memory;
use lx_dispatch::{Asking, TestTree, TransitionClasses, tests_of, transition_classes};
use std::alloc::Global;

/// The transition classes of a state, and its tests.
#[derive(Drop)]
pub(crate) struct StatePlan<'a> {
    pub state: &'a State,
    pub classes: TransitionClasses<'a>,
    pub tests: TestTree,
}

/// What is known of a scanner.
pub(crate) struct PartPlans<'a> {
    pub input: PartInput<'a>,
    /// The number of its first block.
    pub begin: u64,
    /// The first of the numbers by which what reads is stored.
    pub first: u64,
    /// Whether a match comes to the code of state 0.
    pub entered: bool,
    /// In which states a match can end.
    pub marks: Marks,
    /// The transition classes and the tests of all states. Those of state 0 are those of the entry, too.
    pub states: Vec<StatePlan<'a>>,
}

impl Drop for PartPlans<'_> {
    fn drop(self) {
        let Self {
            input: _,
            begin: _,
            first: _,
            entered: _,
            marks: _,
            states: _,
        } = self;
    }
}

/// The transition classes and the tests of the state with a number for units up to a greatest one, where a unit stands at the end of the
/// input or not.
fn plan_of<'a>(
    alloc: Global,
    asking: Asking<'_>,
    eof: Option<u32>,
    greatest: u32,
    number: usize,
    state: &'a State,
) -> Result<StatePlan<'a>, Memory>
    requires { AreApart state.now.edges }
    ensures state { IfOk result (λ plan. plan.state.now ≡ state.now) }
    ensures planned { IfOk result (λ plan. IsStatePlan asking.entry.format asking.entry.sets.now.table.items eof greatest plan) }
{
    let classes = transition_classes(alloc, state.edges.as_slice())?;
    let tests = tests_of(alloc, asking, eof, greatest, &classes, number, state)?;
    Ok(StatePlan {
        state,
        classes,
        tests,
    })
}

/// The transition classes and the tests of states for units up to a greatest one.
fn plans_of<'a>(
    alloc: Global,
    asking: Asking<'_>,
    eof: Option<u32>,
    greatest: u32,
    states: &'a [State],
) -> Result<Vec<StatePlan<'a>>, Memory>
    requires { HaveOrder states.now }
    ensures states { IfOk result (λ plans. planned_states plans.items ≡ states.now) }
    ensures planned { IfOk result (λ plans. AreStatePlans asking.entry.format asking.entry.sets.now.table.items eof greatest plans.items) }
{
    let mut plans = Vec::with_capacity(alloc, states.len())?;
    for (number, state) in states.iter().enumerate() {
        plans.push(plan_of(alloc, asking, eof, greatest, number, state)?)?;
    }
    Ok(plans)
}

/// What is known of a scanner whose first block has the number `begin`, and which stores what reads by numbers from `first` on.
pub(crate) fn part_plans<'a>(
    alloc: Global,
    input: &PartInput<'a>,
    begin: u64,
    first: u64,
) -> Result<PartPlans<'a>, Memory>
    requires { IsAuto input.now.auto.now }
    ensures plans { IfOk result ArePlans }
    ensures input { IfOk result (λ plans. plans.input ≡ input.now) }
    ensures begin { IfOk result (λ plans. plans.begin ≡ begin) }
    ensures first { IfOk result (λ plans. plans.first ≡ first) }
{
    let input = *input;
    let eof = input.demand.eof;
    let format = input.demand.asking.format;
    let marks = marks_of(
        alloc,
        input.greatest,
        eof,
        input.end_rule,
        input.auto,
        format,
    )?;
    let asking = input.demand.asking;
    let states = plans_of(
        alloc,
        asking,
        eof,
        input.greatest,
        input.auto.states.as_slice(),
    )?;
    let entered = start_is_entered(input.end_rule, input.auto);
    Ok(PartPlans {
        input,
        begin,
        first,
        entered,
        marks,
        states,
    })
}

/// How many blocks of its own the end of a match has, if one can end.
fn end_size(halts: bool, accept: &Option<Accept>) -> u64
    ensures { result ≡ end_size (if halts then accept.now else None) }
{
    match accept {
        Some(accept) if halts && !accept.ops.as_slice().is_empty() => 1,
        _ => 0,
    }
}

/// How many blocks a state without edges has, where a rule stands at the end of the input or not.
fn lone_size(end_rule: Option<u32>, number: usize, accept: &Option<Accept>) -> u64
    ensures { result ≡ lone_size (lone_number end_rule number) accept.now }
{
    if number == 0 && end_rule.is_none() {
        return 1;
    }
    end_size(true, accept)
}

impl PartPlans<'_> {
    /// Whether a match comes to the code of the state with this number.
    pub fn is_entered(&self, number: usize) -> bool
        requires { ArePlans self.now }
        ensures { result ≡ is_entered self.now.input.end_rule self.now.input.auto.now number }
    {
        number != 0 || self.entered
    }

    /// How many blocks a state has for its tests.
    pub fn tests_size(&self, number: usize) -> Result<u64, Memory>
        requires plans { ArePlans self.now }
        requires within { number < length self.now.states.items }
        ensures { IfOk result (λ size. size ≡ tests_at self.now number) }
    {
        if !self.is_entered(number) {
            return Ok(0);
        }
        let demand = self.input.demand;
        reader_size(demand.eof, demand.check(number), &self.states[number].tests)
    }

    /// How many blocks a state has for the end of the input.
    pub fn turn_size(&self, number: usize) -> u64
        requires { ArePlans self.now }
        ensures { result ≡ turn_at self.now number }
    {
        if !self.is_entered(number) {
            return 0;
        }
        self.input.demand.turn_size()
    }

    /// How many blocks a state has.
    pub fn state_size(&self, number: usize) -> Result<u64, Memory>
        requires plans { ArePlans self.now }
        requires within { number < length self.now.states.items }
        ensures { IfOk result (λ size. size ≡ size_at self.now number) }
    {
        let plan = &self.states[number];
        let accept = &plan.state.accept;
        if plan.state.edges.as_slice().is_empty() {
            return Ok(lone_size(self.input.end_rule, number, accept));
        }
        let classes = plan.classes.as_slice().len() as u64;
        let end = end_size(self.marks.halts(number), accept);
        let behind = sum(classes, sum(self.turn_size(number), end)?)?;
        sum(self.tests_size(number)?, behind)
    }

    /// How many blocks the entry has for its tests, where it stands apart.
    pub fn entry_tests_size(&self) -> Result<u64, Memory>
        requires { ArePlans self.now }
        ensures { IfOk result (λ size. size ≡ entry_tests_at self.now) }
    {
        reader_size(self.input.demand.eof, 0, &self.states[0].tests)
    }

    /// How many blocks the entry has, if it stands apart.
    fn entry_size(&self) -> Result<u64, Memory>
        requires { ArePlans self.now }
        ensures { IfOk result (λ size. size ≡ entry_size_at self.now) }
    {
        if self.input.end_rule.is_none() {
            return Ok(0);
        }
        sum(self.entry_tests_size()?, self.input.demand.turn_size())
    }

    /// Where the blocks of states begin.
    pub fn states_begin(&self) -> Result<u64, Memory>
        requires { ArePlans self.now }
        ensures { IfOk result (λ from. from ≡ begin_at self.now) }
    {
        sum(self.begin, self.entry_size()?)
    }

    /// Where the blocks of states end.
    pub fn states_end(&self) -> Result<u64, Memory>
        requires { ArePlans self.now }
        ensures { IfOk result (λ end. end ≡ fall_at self.now) }
    {
        let mut end = self.states_begin()?;
        for number in 0..self.states.len() {
            end = sum(end, self.state_size(number)?)?;
        }
        Ok(end)
    }
}
