//! Whether a proposed automaton, with names for registers, is a translation of the given one.
ghost use Rattle.std.specs.Prelude.{◌≡◌, ◌<◌, All, Contains, IfOk, IsTrue, length};
ghost use Rattle.lx_auto.specs.Automaton.{AreOps, IsAuto, IsHeld, IsOp, IsWritable, state_of};
ghost use Rattle.lx_auto.specs.Effects.{renamed_effect};
ghost use Rattle.lx_regs.specs.LiveSets.{IsLivenessOf};
ghost use Rattle.lx_regs.specs.NameTables.{names_at};
ghost use Rattle.lx_regs.specs.Outcomes.{effect_seen};
ghost use Rattle.lx_regs.specs.Pairs.{AllPairs};
ghost use Rattle.lx_regs.specs.Tested.{CanTest, IsTested, KeepsAccept, KeepsEdge, KeepsEffect, KeepsLive, KeepsState, KeepsValue, KeptAccept};

use crate::effects::Effects;
use crate::list_renaming::ListRenaming;
use crate::live::Liveness;
use crate::name_tables::NameTable;
use crate::outcomes::{Outcome, outcome_of, outcome_of_one};
use lx_auto::{Accept, Auto, Edge, Held, Op, State};
use lx_base::Memory;
use std::alloc::Global;

/// How many registers there are.
#[derive(Clone, Copy)]
struct Counts {
    regs: u32,
    mregs: u32,
}

impl Counts {
    /// Whether a value may be held there.
    fn have(&self, held: Held) -> bool
        ensures { IsTrue result → IsHeld self.now.regs self.now.mregs held }
    {
        match held {
            Held::Reg(reg) => reg < self.regs,
            Held::MReg(mreg) => mreg < self.mregs,
        }
    }

    /// Whether an m-register may be written.
    fn can_write(&self, mreg: u32) -> bool
        ensures { IsTrue result → IsWritable self.now.regs self.now.mregs mreg }
    {
        0 < mreg && mreg < self.mregs
    }

    /// Whether an operation names registers that are there, and does not write m-register 0.
    fn allow(&self, op: Op) -> bool
        ensures { IsTrue result → IsOp self.now.regs self.now.mregs op }
    {
        match op {
            Op::Here(reg) | Op::Null(reg) => reg < self.regs,
            Op::Copy(reg, source) => reg < self.regs && source < self.regs,
            Op::MHere(mreg) | Op::MNull(mreg) => self.can_write(mreg),
            Op::MCopy(mreg, source) => self.can_write(mreg) && source < self.mregs,
        }
    }

    /// The same of a list.
    fn allow_all(&self, ops: &[Op]) -> bool
        ensures { IsTrue result → AreOps self.now.regs self.now.mregs ops.now }
    {
        for op in ops {
            if !self.allow(*op) {
                return false;
            }
        }
        true
    }
}

/// Whether two lists of marks are one.
fn are_same(marks: &[bool], others: &[bool]) -> bool
    ensures { IsTrue result → marks.now ≡ others.now }
{
    if marks.len() != others.len() {
        return false;
    }
    for (index, mark) in marks.iter().enumerate() {
        if *mark != others[index] {
            return false;
        }
    }
    true
}

/// Whether two outcomes are one, where registers at a state have other names in the first.
fn are_alike(table: &NameTable, state: u32, ours: &Outcome, given: &Outcome) -> bool
    ensures { IsTrue result → effect_seen ours.now ≡ renamed_effect (names_at table.now state) (effect_seen given.now) }
{
    match (ours, given) {
        (Outcome::Offset, Outcome::Offset) => true,
        (Outcome::Unset, Outcome::Unset) => true,
        (Outcome::Register(name), Outcome::Register(reg)) => *name == table.reg(state, *reg),
        (Outcome::History(name, marks), Outcome::History(mreg, others)) => {
            *name == table.mreg(state, *mreg) && are_same(marks.as_slice(), others.as_slice())
        }
        _ => false,
    }
}

/// Two lists, one behind the other at one offset.
#[derive(Clone, Copy)]
struct Lists<'a> {
    first: &'a Effects<'a>,
    second: &'a Effects<'a>,
}

/// A state of both automata.
#[derive(Clone, Copy)]
struct Pair<'a> {
    given: &'a State,
    answer: &'a State,
}

/// What is done on leaving a state of both automata.
#[derive(Clone, Copy)]
struct Leaves<'a> {
    given: &'a Effects<'a>,
    answer: &'a Effects<'a>,
}

/// Which registers are looked at on an edge.
#[derive(Clone, Copy)]
pub(crate) enum Looked<'a> {
    /// Those that are live behind it.
    Live(&'a Liveness),
    /// All, list by list, where each has one name at all states.
    All(&'a ListRenaming),
}

/// What a test goes by.
#[derive(Clone, Copy)]
struct Test<'a> {
    alloc: Global,
    given: &'a Auto,
    looked: Looked<'a>,
    table: &'a NameTable,
    counts: Counts,
}

impl<'a> Test<'a> {
    /// Whether along an edge the same happens to a register.
    fn keeps_effect(
        &self,
        state: u32,
        to: u32,
        lists: Lists<'_>,
        new: Lists<'_>,
        held: Held,
    ) -> Result<bool, Memory>
        ensures { IfOk result (λ kept. IsTrue kept → KeepsEffect self.now.table.now state to lists.entry.first.now
            lists.entry.second.now new.entry.first.now new.entry.second.now held) }
    {
        let given = outcome_of(self.alloc, lists.first, lists.second, held)?;
        let name = self.table.name(to, held);
        let ours = outcome_of(self.alloc, new.first, new.second, name)?;
        Ok(are_alike(self.table, state, &ours, &given))
    }

    /// The same of some registers.
    fn keeps_effects(
        &self,
        state: u32,
        to: u32,
        lists: Lists<'_>,
        new: Lists<'_>,
        registers: &[Held],
    ) -> Result<bool, Memory>
        ensures { IfOk result (λ kept. IsTrue kept → All (KeepsEffect self.now.table.now state to lists.entry.first.now
            lists.entry.second.now new.entry.first.now new.entry.second.now) registers.now) }
    {
        for held in registers {
            if !self.keeps_effect(state, to, lists, new, *held)? {
                return Ok(false);
            }
        }
        Ok(true)
    }

    /// Whether along an edge the same happens to some registers, where lists of the given automaton have an index.
    fn keeps_by(
        &self,
        state: u32,
        to: u32,
        lists: Lists<'_>,
        leave: &Effects<'_>,
        ops: &[Op],
        registers: &[Held],
    ) -> Result<bool, Memory>
        ensures { IfOk result (λ kept. IsTrue kept → All (KeepsEffect self.now.table.now state to lists.entry.first.now
            lists.entry.second.now leave.now ops.now) registers.now) }
    {
        let effects = Effects::of(self.alloc, ops)?;
        let new = Lists {
            first: leave,
            second: &effects,
        };
        self.keeps_effects(state, to, lists, new, registers)
    }

    /// Whether along an edge the same happens to some registers.
    fn keeps_registers(
        &self,
        state: u32,
        leaves: Leaves<'_>,
        edge: &Edge,
        other: &Edge,
        registers: &[Held],
    ) -> Result<bool, Memory>
        ensures { IfOk result (λ kept. IsTrue kept → All (KeepsEffect self.now.table.now state edge.now.to leaves.entry.given.now
            edge.now.ops leaves.entry.answer.now other.now.ops) registers.now) }
    {
        let effects = Effects::of(self.alloc, edge.ops.as_slice())?;
        let lists = Lists {
            first: leaves.given,
            second: &effects,
        };
        let ops = other.ops.as_slice();
        self.keeps_by(state, edge.to, lists, leaves.answer, ops, registers)
    }

    /// Whether along an edge the same happens to all that is live behind it.
    fn keeps_live(
        &self,
        live: &Liveness,
        number: u32,
        leaves: Leaves<'_>,
        edge: &Edge,
        other: &Edge,
    ) -> Result<bool, Memory>
        requires live { IsLivenessOf self.now.given.now live.now }
        requires within { number < length self.now.given.now.states }
        requires edge { Contains (state_of self.now.given.now.states number).edges edge.now }
        ensures { IfOk result (λ kept. IsTrue kept → KeepsLive self.now.table.now self.now.given.now number leaves.entry.given.now
            leaves.entry.answer.now edge.now other.now) }
    {
        let registers = live.behind(self.alloc, self.given, number, edge)?;
        self.keeps_registers(number, leaves, edge, other, registers.as_slice())
    }

    /// The same, by those registers that are looked at.
    fn keeps_lists(
        &self,
        number: u32,
        leaves: Leaves<'_>,
        edge: &Edge,
        other: &Edge,
    ) -> Result<bool, Memory>
        requires formed { IsAuto self.now.given.now }
        requires looked { CanTest self.now.given.now self.now.table.now self.now.looked }
        requires within { number < length self.now.given.now.states }
        requires edge { Contains (state_of self.now.given.now.states number).edges edge.now }
        requires leave { leaves.given.now ≡ (state_of self.now.given.now.states number).leave }
        ensures { IfOk result (λ kept. IsTrue kept → KeepsLive self.now.table.now self.now.given.now number leaves.entry.given.now
            leaves.entry.answer.now edge.now other.now) }
    {
        match self.looked {
            Looked::Live(live) => self.keeps_live(live, number, leaves, edge, other),
            Looked::All(renaming) => {
                let (leave, new_leave) = (leaves.given.as_slice(), leaves.answer.as_slice());
                let (ops, others) = (edge.ops.as_slice(), other.ops.as_slice());
                Ok(renaming.keeps_both(leave, new_leave, ops, others))
            }
        }
    }

    /// Whether an edge out of a state is kept.
    fn keeps_edge(
        &self,
        number: u32,
        leaves: Leaves<'_>,
        edge: &Edge,
        other: &Edge,
    ) -> Result<bool, Memory>
        requires formed { IsAuto self.now.given.now }
        requires looked { CanTest self.now.given.now self.now.table.now self.now.looked }
        requires within { number < length self.now.given.now.states }
        requires edge { Contains (state_of self.now.given.now.states number).edges edge.now }
        requires leave { leaves.given.now ≡ (state_of self.now.given.now.states number).leave }
        ensures { IfOk result (λ kept. IsTrue kept → KeepsEdge self.now.table.now self.now.given.now self.now.counts.regs
            self.now.counts.mregs number leaves.entry.given.now leaves.entry.answer.now edge.now other.now) }
    {
        if edge.lo != other.lo || edge.hi != other.hi || edge.to != other.to {
            return Ok(false);
        }
        if !self.counts.allow_all(other.ops.as_slice()) {
            return Ok(false);
        }
        self.keeps_lists(number, leaves, edge, other)
    }

    /// Whether the edges out of a state are kept, each by the one at its place.
    fn keeps_each_edge(
        &self,
        number: u32,
        leaves: Leaves<'_>,
        edges: &[Edge],
        others: &[Edge],
    ) -> Result<bool, Memory>
        requires formed { IsAuto self.now.given.now }
        requires looked { CanTest self.now.given.now self.now.table.now self.now.looked }
        requires within { number < length self.now.given.now.states }
        requires edges { edges.now ≡ (state_of self.now.given.now.states number).edges }
        requires leave { leaves.given.now ≡ (state_of self.now.given.now.states number).leave }
        ensures { IfOk result (λ kept. IsTrue kept → AllPairs (KeepsEdge self.now.table.now self.now.given.now self.now.counts.regs
            self.now.counts.mregs number leaves.entry.given.now leaves.entry.answer.now) edges.now others.now) }
    {
        if edges.len() != others.len() {
            return Ok(false);
        }
        for (index, edge) in edges.iter().enumerate() {
            if !self.keeps_edge(number, leaves, edge, &others[index])? {
                return Ok(false);
            }
        }
        Ok(true)
    }

    /// Whether the edges out of a state are kept, where the list on leaving it in the given automaton has an index.
    fn keeps_edges_by(
        &self,
        number: u32,
        states: Pair<'_>,
        leave: &Effects<'_>,
    ) -> Result<bool, Memory>
        requires formed { IsAuto self.now.given.now }
        requires looked { CanTest self.now.given.now self.now.table.now self.now.looked }
        requires within { number < length self.now.given.now.states }
        requires state { states.given.now ≡ state_of self.now.given.now.states number }
        requires leave { leave.now ≡ (state_of self.now.given.now.states number).leave }
        ensures { IfOk result (λ kept. IsTrue kept → AllPairs (KeepsEdge self.now.table.now self.now.given.now self.now.counts.regs
            self.now.counts.mregs number leave.now states.entry.answer.now.leave)
            states.entry.given.now.edges states.entry.answer.now.edges) }
    {
        let new_leave = Effects::of(self.alloc, states.answer.leave.as_slice())?;
        let leaves = Leaves {
            given: leave,
            answer: &new_leave,
        };
        let others = states.answer.edges.as_slice();
        self.keeps_each_edge(number, leaves, states.given.edges.as_slice(), others)
    }

    /// Whether the edges out of a state are kept.
    fn keeps_edges(&self, number: u32, states: Pair<'_>) -> Result<bool, Memory>
        requires formed { IsAuto self.now.given.now }
        requires looked { CanTest self.now.given.now self.now.table.now self.now.looked }
        requires within { number < length self.now.given.now.states }
        requires state { states.given.now ≡ state_of self.now.given.now.states number }
        ensures { IfOk result (λ kept. IsTrue kept → AllPairs (KeepsEdge self.now.table.now self.now.given.now self.now.counts.regs
            self.now.counts.mregs number states.entry.given.now.leave states.entry.answer.now.leave)
            states.entry.given.now.edges states.entry.answer.now.edges) }
    {
        let leave = Effects::of(self.alloc, states.given.leave.as_slice())?;
        self.keeps_edges_by(number, states, &leave)
    }

    /// Whether a value of what is accepted at a state is kept.
    fn keeps_value(
        &self,
        state: u32,
        effects: &Effects<'_>,
        new: &Effects<'_>,
        value: Held,
        other: Held,
    ) -> Result<bool, Memory>
        ensures { IfOk result (λ kept. IsTrue kept → KeepsValue self.now.table.now self.now.counts.regs self.now.counts.mregs state
            effects.now new.now value other) }
    {
        if !self.counts.have(other) || self.table.fixed(value) != Some(other) {
            return Ok(false);
        }
        let given = outcome_of_one(self.alloc, effects, value)?;
        let ours = outcome_of_one(self.alloc, new, other)?;
        Ok(are_alike(self.table, state, &ours, &given))
    }

    /// The same of all values.
    fn keeps_values(
        &self,
        state: u32,
        effects: &Effects<'_>,
        new: &Effects<'_>,
        values: &[Held],
        others: &[Held],
    ) -> Result<bool, Memory>
        ensures { IfOk result (λ kept. IsTrue kept → AllPairs (KeepsValue self.now.table.now self.now.counts.regs self.now.counts.mregs
            state effects.now new.now) values.now others.now) }
    {
        if values.len() != others.len() {
            return Ok(false);
        }
        for (index, value) in values.iter().enumerate() {
            if !self.keeps_value(state, effects, new, *value, others[index])? {
                return Ok(false);
            }
        }
        Ok(true)
    }

    /// Whether values of what is accepted at a state are kept, where its list in the given automaton has an index.
    fn keeps_values_by(
        &self,
        state: u32,
        effects: &Effects<'_>,
        ops: &[Op],
        values: &[Held],
        others: &[Held],
    ) -> Result<bool, Memory>
        ensures { IfOk result (λ kept. IsTrue kept → AllPairs (KeepsValue self.now.table.now self.now.counts.regs self.now.counts.mregs
            state effects.now ops.now) values.now others.now) }
    {
        let new = Effects::of(self.alloc, ops)?;
        self.keeps_values(state, effects, &new, values, others)
    }

    /// Whether what is accepted at a state is kept.
    fn keeps_accept(&self, state: u32, accept: &Accept, other: &Accept) -> Result<bool, Memory>
        ensures { IfOk result (λ kept. IsTrue kept → KeptAccept self.now.table.now self.now.counts.regs self.now.counts.mregs state
            accept.now other.now) }
    {
        if accept.rule != other.rule || !self.counts.allow_all(other.ops.as_slice()) {
            return Ok(false);
        }
        let effects = Effects::of(self.alloc, accept.ops.as_slice())?;
        let (values, others) = (accept.values.as_slice(), other.values.as_slice());
        self.keeps_values_by(state, &effects, other.ops.as_slice(), values, others)
    }

    /// Whether a state is kept.
    fn keeps_state(&self, number: u32, states: Pair<'_>) -> Result<bool, Memory>
        requires formed { IsAuto self.now.given.now }
        requires looked { CanTest self.now.given.now self.now.table.now self.now.looked }
        requires within { number < length self.now.given.now.states }
        requires state { states.given.now ≡ state_of self.now.given.now.states number }
        ensures { IfOk result (λ kept. IsTrue kept → KeepsState self.now.table.now self.now.given.now self.now.counts.regs
            self.now.counts.mregs number states.entry.given.now states.entry.answer.now) }
    {
        if !self.counts.allow_all(states.answer.leave.as_slice())
            || !self.keeps_edges(number, states)?
        {
            return Ok(false);
        }
        match (&states.given.accept, &states.answer.accept) {
            (None, None) => Ok(true),
            (Some(accept), Some(other)) => self.keeps_accept(number, accept, other),
            (None, Some(_)) | (Some(_), None) => Ok(false),
        }
    }
}

/// Whether the answer is a translation of the given automaton by the names of the table, and well formed.
pub(crate) fn is_translation(
    alloc: Global,
    given: &Auto,
    looked: Looked<'_>,
    table: &NameTable,
    answer: &Auto,
) -> Result<bool, Memory>
    requires formed { IsAuto given.now }
    requires looked { CanTest given.now table.now looked }
    ensures { IfOk result (λ is. IsTrue is → IsTested given.now answer.now table.now) }
{
    let (states, others) = (given.states.as_slice(), answer.states.as_slice());
    if states.len() != others.len()
        || answer.regs > 1073741824
        || answer.mregs > 1073741824
        || table.mreg(0, 0) != 0
    {
        return Ok(false);
    }
    let counts = Counts {
        regs: answer.regs,
        mregs: answer.mregs,
    };
    let test = Test {
        alloc,
        given,
        looked,
        table,
        counts,
    };
    for (number, state) in states.iter().enumerate() {
        let pair = Pair {
            given: state,
            answer: &others[number],
        };
        if !test.keeps_state(number as u32, pair)? {
            return Ok(false);
        }
    }
    Ok(true)
}
