//! Groups of accepting states: a fallback to any state of a group reads the same registers.
ghost use Rattle.std.specs.Prelude.{◌≡◌, ℕ, ◌+◌, ◌<◌, ◌≤◌, ◌≢◌, [], ◌++◌, Contains, IfOk, OnOk, length, map, slice_index_or};
ghost use Rattle.lx_auto.specs.Automaton.{IsAuto};
ghost use Rattle.lx_auto.specs.Points.{values_of};
ghost use Rattle.lx_regs.specs.Keys.{held_of};
ghost use Rattle.lx_regs.specs.LeftGroups.{AreGroups, FitsGroup, Widens, keys_in, lists_of};

use crate::keys::{Key, key_of};
use indexmap::IndexSet;
use lx_auto::{Accept, Auto, Held};
use lx_base::Memory;
use std::alloc::Global;

/// The groups of an automaton's accepting states.
pub(crate) struct LeftGroups {
    /// For each state the number of its group, counted from 1, or 0 where it does not accept.
    pub numbers: Vec<u32>,
    /// For each group what holds the values.
    lists: IndexSet<Vec<Key>>,
}

impl Drop for LeftGroups {
    fn drop(self) {
        let Self {
            numbers: _,
            lists: _,
        } = self;
    }
}

/// What holds values, as keys.
fn keys_of(alloc: Global, values: &[Held]) -> Result<Vec<Key>, Memory>
    ensures { IfOk result (λ keys. map held_of keys.items ≡ values.now) }
{
    let mut keys = Vec::new(alloc);
    for held in values {
        keys.push(key_of(*held))?;
    }
    Ok(keys)
}

/// The group of a state that accepts so: one that is there, or a new one.
fn group_of(
    alloc: Global,
    lists: &mut IndexSet<Vec<Key>>,
    accept: &Option<Accept>,
) -> Result<u32, Memory>
    requires { length lists.old.keys < 4294967295 }
    ensures group { IfOk result (λ group. FitsGroup (lists_of lists.new.keys) accept.now group) }
    ensures wider { OnOk result (Widens (lists_of lists.old.keys) (lists_of lists.new.keys)) }
    ensures count { OnOk result (length lists.new.keys ≤ length lists.old.keys + 1) }
{
    match accept {
        None => Ok(0),
        Some(accept) => {
            let keys = keys_of(alloc, accept.values.as_slice())?;
            let (place, _) = lists.insert_full(keys)?;
            Ok(place as u32 + 1)
        }
    }
}

/// The groups of an automaton.
pub(crate) fn groups_of(alloc: Global, auto: &Auto) -> Result<LeftGroups, Memory>
    requires { IsAuto auto.now }
    ensures { IfOk result (λ groups. AreGroups auto.now groups.numbers.items (lists_of groups.lists.keys)) }
{
    let mut lists = IndexSet::new(alloc);
    let mut numbers = Vec::new(alloc);
    for state in auto.states.as_slice() {
        numbers.push(group_of(alloc, &mut lists, &state.accept)?)?;
    }
    Ok(LeftGroups { numbers, lists })
}

impl LeftGroups {
    /// The group of each state.
    pub(crate) fn into_numbers(self) -> Vec<u32>
        ensures { result ≡ self.numbers }
    {
        let Self { numbers, lists: _ } = self;
        numbers
    }

    /// What holds the values of a group, as keys. It takes no memory.
    pub(crate) fn keys(&self, group: u32) -> &[Key]
        ensures { result.now ≡ keys_in (lists_of self.now.lists.keys) group }
    {
        if group == 0 {
            return &[];
        }
        match self.lists.get_index(group as usize - 1) {
            Some(list) => list.as_slice(),
            None => &[],
        }
    }
}
