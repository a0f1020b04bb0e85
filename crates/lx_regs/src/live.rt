//! Which registers are live behind the edges of an automaton.
ghost use Rattle.std.specs.Prelude.{◌≡◌, ◌↔◌, ℕ, ◌-◌, ◌<◌, None, Contains, IfOk, IsPermutation, IsTrue, OnOk, length, slice_get, slice_index};
ghost use Rattle.lx_auto.specs.Automaton.{IsAuto, state_of};
ghost use Rattle.lx_regs.specs.Keys.{held_of};
ghost use Rattle.lx_regs.specs.LeftGroups.{AreGroups, lists_of};
ghost use Rattle.lx_regs.specs.LiveSets.{AreAscending, AreInOrder, AreLiveBehind, AreOrdered, AreUpTo, AreUsages, IsLivenessOf};
ghost use Rattle.lx_regs.specs.Liveness.{AddsUsage, AreHeldBehind, AreMarked, AreSorted, MayBeThere};
ghost use Rattle.lx_regs.specs.Reached.{ArePairs};
ghost use Rattle.lx_regs.specs.declared.items.Item.{Item as ItemValue};
ghost use Rattle.lx_regs.specs.declared.reached.Pair.{Pair as PairValue};

use crate::found::Found;
use crate::items::{Item, live_items, may_be_left};
use crate::keys::{Key, held_of};
use crate::left_groups::{LeftGroups, groups_of};
use crate::lists::empty_lists;
use crate::reached::{Pair, reached_pairs};
use lx_auto::{Auto, Edge, Held};
use lx_base::{Memory, Sequence};
use std::alloc::Global;

/// A register that is live at a state: whatever was left last where the group is 0, and else where a state of the group was.
#[derive(Clone, Copy)]
pub(crate) struct Usage {
    pub group: u32,
    pub key: Key,
}

/// What is live in an automaton.
pub(crate) struct Liveness {
    /// For each state the number of its group, counted from 1, or 0 where it does not accept.
    numbers: Vec<u32>,
    /// The states to which walks come, with the groups of what was left last.
    pairs: Found<Pair>,
    /// For each state, whether some walk comes to it.
    marks: Vec<bool>,
    /// For each state what is live there, by registers in ascending order.
    usages: Vec<Sequence<Usage>>,
}

impl Drop for Liveness {
    fn drop(self) {
        let Self {
            numbers: _,
            pairs: _,
            marks: _,
            usages: _,
        } = self;
    }
}

/// For each state what is live there.
fn by_state(alloc: Global, count: usize, items: &[Item]) -> Result<Vec<Sequence<Usage>>, Memory>
    requires { (item : ItemValue) → Contains items.now item → item.state < count }
    ensures { IfOk result (λ lists. AreSorted count items.now lists.items) }
{
    let mut lists = empty_lists(alloc, count)?;
    for item in items {
        lists[item.state as usize].push(Usage {
            group: item.group,
            key: item.key,
        })?;
    }
    Ok(lists)
}

/// The usages of a state, by registers in ascending order.
fn in_order(usages: Sequence<Usage>) -> Sequence<Usage>
    ensures same { IsPermutation usages result }
    ensures order { AreInOrder result }
{
    let mut usages = usages.into_vec();
    usages.sort_unstable_by_key(|usage| usage.key);
    Sequence::from_vec(usages)
}

/// For each state its usages, by registers in ascending order.
fn each_in_order(alloc: Global, lists: Vec<Sequence<Usage>>) -> Result<Vec<Sequence<Usage>>, Memory>
    ensures { IfOk result (λ ordered. AreOrdered lists.items ordered.items) }
{
    let mut ordered = Vec::new(alloc);
    for usages in lists {
        ordered.push(in_order(usages))?;
    }
    Ok(ordered)
}

/// For each state, whether some walk comes to it.
fn marks_of(alloc: Global, count: usize, pairs: &[Pair]) -> Result<Vec<bool>, Memory>
    requires { (pair : PairValue) → Contains pairs.now pair → pair.state < count }
    ensures { IfOk result (λ marks. AreMarked count pairs.now marks.items) }
{
    let mut marks = vec![in alloc; false; count]?;
    for pair in pairs {
        marks[pair.state as usize] = true;
    }
    Ok(marks)
}

/// The pairs to which walks come, and for each state, whether some walk comes to it.
fn pairs_and_marks(
    alloc: Global,
    auto: &Auto,
    numbers: &[u32],
) -> Result<(Found<Pair>, Vec<bool>), Memory>
    requires formed { IsAuto auto.now }
    requires fit { length numbers.now ≡ length auto.now.states }
    requires some { (state : ℕ) → slice_index numbers.now state ≡ 0 → (state_of auto.now.states state).accept ≡ None }
    requires none { (state : ℕ) → (state_of auto.now.states state).accept ≡ None → slice_index numbers.now state ≡ 0 }
    ensures pairs { IfOk result (λ found. ArePairs auto.now numbers.now found.0) }
    ensures marks { IfOk result (λ found. AreMarked (length auto.now.states) found.0 found.1.items) }
{
    let pairs = reached_pairs(alloc, auto, numbers)?;
    let marks = marks_of(alloc, auto.states.as_slice().len(), pairs.as_slice())?;
    Ok((pairs, marks))
}

/// For each state what is live there, by groups and pairs, and by registers in ascending order.
fn usages_of(
    alloc: Global,
    auto: &Auto,
    groups: &LeftGroups,
    pairs: &Found<Pair>,
) -> Result<Vec<Sequence<Usage>>, Memory>
    requires formed { IsAuto auto.now }
    requires groups { AreGroups auto.now groups.now.numbers.items (lists_of groups.now.lists.keys) }
    requires pairs { ArePairs auto.now groups.now.numbers.items pairs.now }
    ensures { IfOk result (λ usages. AreUsages auto.now groups.now.numbers.items (lists_of groups.now.lists.keys) pairs.now usages.items) }
{
    let items = live_items(alloc, auto, groups, pairs)?;
    let lists = by_state(alloc, auto.states.as_slice().len(), items.as_slice())?;
    each_in_order(alloc, lists)
}

/// What is live in an automaton.
pub(crate) fn liveness_of(alloc: Global, auto: &Auto) -> Result<Liveness, Memory>
    requires { IsAuto auto.now }
    ensures { IfOk result (IsLivenessOf auto.now) }
{
    let groups = groups_of(alloc, auto)?;
    let (pairs, marks) = pairs_and_marks(alloc, auto, &groups.numbers)?;
    let usages = usages_of(alloc, auto, &groups, &pairs)?;
    Ok(Liveness {
        numbers: groups.into_numbers(),
        pairs,
        marks,
        usages,
    })
}

/// Whether a list ends with this register.
fn ends_with(registers: &[Held], held: Held) -> bool
    ensures { IsTrue result ↔ (slice_get registers.now (length registers.now - 1) ≡ Some held) }
{
    match registers.last() {
        Some(last) => *last == held,
        None => false,
    }
}

impl Liveness {
    /// Whether what is live at a state where one of the group was left last may be live behind an edge out of another state.
    fn may_be_there(&self, state: u32, group: u32) -> bool
        requires { state < length self.now.numbers.items }
        ensures { IsTrue result ↔ MayBeThere self.now.numbers.items self.now.pairs state group }
    {
        let own = self.numbers[state as usize];
        if own == 0 {
            return may_be_left(&self.pairs, state, group);
        }
        group == 0 || group == own
    }

    /// Adds the register of a usage that may be live behind an edge out of a state, where it is not the last of the list yet.
    fn add_usage(&self, registers: &mut Vec<Held>, state: u32, usage: Usage) -> Result<(), Memory>
        requires within { state < length self.now.numbers.items }
        requires order { AreAscending registers.old.items }
        requires behind { AreUpTo registers.old.items (held_of usage.key) }
        ensures adds { OnOk result (AddsUsage self.now.numbers.items self.now.pairs state usage registers.old.items registers.new.items) }
        ensures order { OnOk result (AreAscending registers.new.items) }
    {
        let held = held_of(usage.key);
        if ends_with(registers, held) || !self.may_be_there(state, usage.group) {
            return Ok(());
        }
        registers.push(held)?;
        Ok(())
    }

    /// The registers of what is live behind an edge out of a state to which some walk comes.
    fn held_behind(&self, alloc: Global, state: u32, usages: &[Usage]) -> Result<Vec<Held>, Memory>
        requires within { state < length self.now.numbers.items }
        requires order { AreInOrder usages.now }
        ensures held { IfOk result (λ registers. AreHeldBehind self.now.numbers.items self.now.pairs state usages.now registers.items) }
        ensures order { IfOk result (λ registers. AreAscending registers.items) }
    {
        let mut registers = Vec::new(alloc);
        for usage in usages {
            self.add_usage(&mut registers, state, *usage)?;
        }
        Ok(registers)
    }

    /// The registers that are live behind an edge out of a state, each once, registers before m-registers, in ascending order.
    pub(crate) fn behind(
        &self,
        alloc: Global,
        auto: &Auto,
        state: u32,
        edge: &Edge,
    ) -> Result<Vec<Held>, Memory>
        requires known { IsLivenessOf auto.now self.now }
        requires within { state < length auto.now.states }
        requires edge { Contains (state_of auto.now.states state).edges edge.now }
        ensures live { IfOk result (λ registers. AreLiveBehind auto.now state edge.now registers.items) }
        ensures order { IfOk result (λ registers. AreAscending registers.items) }
    {
        if !self.marks[state as usize] {
            return Ok(Vec::new(alloc));
        }
        let usages = self.usages[edge.to as usize].as_slice();
        self.held_behind(alloc, state, usages)
    }
}
