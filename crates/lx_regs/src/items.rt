//! The registers that are live at a state, with the groups of what was left last.
ghost use Rattle.std.specs.Prelude.{◌≡◌, ◌↔◌, ◌<◌, Contains, IfNone, IfOk, IfSome, IsTrue, OnOk, length};
ghost use Rattle.lx_auto.specs.Automaton.{IsAuto};
ghost use Rattle.lx_regs.specs.Growth.{Grows, IsDueForSome};
ghost use Rattle.lx_regs.specs.Items.{AreItems, IsAccepted, IsAcceptedBy, IsAt, IsBegun, IsLeft, IsReadAt, MayBeLeft, Passes, PassesBy, group_before};
ghost use Rattle.lx_regs.specs.LeftGroups.{AreGroups, lists_of};
ghost use Rattle.lx_regs.specs.Reached.{ArePairs};
ghost use Rattle.lx_regs.specs.declared.arrows.Arrow.{Arrow as ArrowValue};
ghost use Rattle.lx_regs.specs.declared.items.Item.{Item as ItemValue};
ghost use Rattle.lx_regs.specs.declared.reached.Pair.{Pair as PairValue};

use crate::arrows::{Arrow, arrows_of, leaves_of};
use crate::effects::Effects;
use crate::found::Found;
use crate::keys::{Key, key_of};
use crate::left_groups::LeftGroups;
use crate::reached::Pair;
use crate::readers::{read_of, read_of_both};
use lx_auto::{Accept, Auto, Held, Op};
use lx_base::Memory;
use std::alloc::Global;

/// A register that is live at a state: whatever was left last where the group is 0, and else where a state of the group was.
#[derive(Clone, Copy, PartialEq, Eq, Hash)]
pub(crate) struct Item {
    pub state: u32,
    pub group: u32,
    pub key: Key,
}

/// Adds what a list reads for a value.
fn add_read(found: &mut Found<Item>, state: u32, ops: &[Op], value: Held) -> Result<(), Memory>
    ensures { OnOk result (Grows (IsReadAt state ops.now value) found.old found.new) }
{
    match read_of(ops, key_of(value)) {
        Some(key) => {
            found.add(Item {
                state,
                group: 0,
                key,
            })?;
            Ok(())
        }
        None => Ok(()),
    }
}

/// Adds what a list reads for values.
fn add_reads(found: &mut Found<Item>, state: u32, ops: &[Op], values: &[Held]) -> Result<(), Memory>
    ensures { OnOk result (Grows (IsDueForSome values.now (IsReadAt state ops.now)) found.old found.new) }
{
    for value in values {
        add_read(found, state, ops, *value)?;
    }
    Ok(())
}

/// Adds what is read for the values of what a state accepts, if it does.
fn add_accept(found: &mut Found<Item>, state: u32, accept: &Option<Accept>) -> Result<(), Memory>
    ensures { OnOk result (Grows (IsAcceptedBy state accept.now) found.old found.new) }
{
    match accept {
        Some(accept) => {
            add_reads(
                found,
                state,
                accept.ops.as_slice(),
                accept.values.as_slice(),
            )?;
            Ok(())
        }
        None => Ok(()),
    }
}

/// Adds what is read for the values of what states accept.
fn add_accepts(found: &mut Found<Item>, auto: &Auto) -> Result<(), Memory>
    requires { IsAuto auto.now }
    ensures { OnOk result (Grows (IsAccepted auto.now) found.old found.new) }
{
    for (number, state) in auto.states.as_slice().iter().enumerate() {
        add_accept(found, number as u32, &state.accept)?;
    }
    Ok(())
}

/// Adds keys at a pair.
fn add_keys(found: &mut Found<Item>, pair: Pair, keys: &[Key]) -> Result<(), Memory>
    ensures { OnOk result (Grows (IsDueForSome keys.now (IsAt pair)) found.old found.new) }
{
    for key in keys {
        found.add(Item {
            state: pair.state,
            group: pair.left,
            key: *key,
        })?;
    }
    Ok(())
}

/// Adds the values of a pair's group, where its state does not accept.
fn add_left(found: &mut Found<Item>, groups: &LeftGroups, pair: Pair) -> Result<(), Memory>
    requires { pair.state < length groups.now.numbers.items }
    ensures { OnOk result (Grows (IsLeft groups.now.numbers.items (lists_of groups.now.lists.keys) pair) found.old found.new) }
{
    if groups.numbers[pair.state as usize] != 0 {
        return Ok(());
    }
    add_keys(found, pair, groups.keys(pair.left))?;
    Ok(())
}

/// Adds the values of the groups of pairs.
fn add_all_left(found: &mut Found<Item>, groups: &LeftGroups, pairs: &[Pair]) -> Result<(), Memory>
    requires { (pair : PairValue) → Contains pairs.now pair → pair.state < length groups.now.numbers.items }
    ensures { OnOk result (Grows (IsDueForSome pairs.now (IsLeft groups.now.numbers.items (lists_of groups.now.lists.keys))) found.old found.new) }
{
    for pair in pairs {
        add_left(found, groups, *pair)?;
    }
    Ok(())
}

/// Where a register is live before an edge out of a state of a group, if it is live behind the edge where `group` says.
fn group_before(own: u32, group: u32) -> Option<u32>
    ensures { result ≡ group_before own group }
{
    if own == 0 {
        Some(group)
    } else if group == 0 {
        Some(0)
    } else if own == group {
        Some(0)
    } else {
        None
    }
}

/// Whether some walk comes to the state where a state of the group was left last.
pub(crate) fn may_be_left(pairs: &Found<Pair>, state: u32, group: u32) -> bool
    ensures { IsTrue result ↔ MayBeLeft pairs.now state group }
{
    if group == 0 {
        return true;
    }
    pairs.has(&Pair { state, left: group })
}

/// The item before an arrow out of a state that does this where it is left, if there is one.
fn prior_by(
    numbers: &[u32],
    pairs: &Found<Pair>,
    item: Item,
    leave: &Effects<'_>,
    arrow: &Arrow<'_>,
) -> Option<Item>
    requires { arrow.now.state < length numbers.now }
    ensures some { IfSome result (Passes numbers.now pairs.now item arrow.now.state leave.now arrow.now.reader) }
    ensures none { IfNone result ((prior : ItemValue) → ¬ Passes numbers.now pairs.now item arrow.now.state leave.now arrow.now.reader prior) }
{
    let Some(group) = group_before(numbers[arrow.state as usize], item.group) else {
        return None;
    };
    if !may_be_left(pairs, arrow.state, group) {
        return None;
    }
    let key = read_of_both(leave, &arrow.reader, item.key)?;
    Some(Item {
        state: arrow.state,
        group,
        key,
    })
}

/// Adds the item before an arrow, if there is one.
fn add_prior(
    found: &mut Found<Item>,
    numbers: &[u32],
    pairs: &Found<Pair>,
    item: Item,
    leave: &Effects<'_>,
    arrow: &Arrow<'_>,
) -> Result<(), Memory>
    requires { arrow.now.state < length numbers.now }
    ensures { OnOk result (Grows (Passes numbers.now pairs.now item arrow.now.state leave.now arrow.now.reader) found.old found.new) }
{
    match prior_by(numbers, pairs, item, leave, arrow) {
        Some(prior) => {
            found.add(prior)?;
            Ok(())
        }
        None => Ok(()),
    }
}

/// Adds the items before arrows.
fn add_priors(
    found: &mut Found<Item>,
    numbers: &[u32],
    pairs: &Found<Pair>,
    item: Item,
    leaves: &[Effects<'_>],
    arrows: &[Arrow<'_>],
) -> Result<(), Memory>
    requires within { (arrow : ArrowValue) → Contains arrows.now arrow → arrow.state < length numbers.now }
    requires fit { length leaves.now ≡ length numbers.now }
    ensures { OnOk result (Grows (IsDueForSome arrows.now (PassesBy numbers.now pairs.now leaves.now item)) found.old found.new) }
{
    for arrow in arrows {
        let leave = &leaves[arrow.state as usize];
        add_prior(found, numbers, pairs, item, leave, arrow)?;
    }
    Ok(())
}

/// What is live to begin with.
fn first_items(
    alloc: Global,
    auto: &Auto,
    groups: &LeftGroups,
    pairs: &Found<Pair>,
) -> Result<Found<Item>, Memory>
    requires formed { IsAuto auto.now }
    requires groups { AreGroups auto.now groups.now.numbers.items (lists_of groups.now.lists.keys) }
    requires pairs { ArePairs auto.now groups.now.numbers.items pairs.now }
    ensures { IfOk result (IsBegun auto.now groups.now.numbers.items (lists_of groups.now.lists.keys) pairs.now) }
{
    let mut found = Found::new(alloc);
    add_accepts(&mut found, auto)?;
    add_all_left(&mut found, groups, pairs.as_slice())?;
    Ok(found)
}

/// The registers that are live at states: what is read there, and, from state to state against the edges, what is read for those
/// that are found.
pub(crate) fn live_items(
    alloc: Global,
    auto: &Auto,
    groups: &LeftGroups,
    pairs: &Found<Pair>,
) -> Result<Found<Item>, Memory>
    requires formed { IsAuto auto.now }
    requires groups { AreGroups auto.now groups.now.numbers.items (lists_of groups.now.lists.keys) }
    requires pairs { ArePairs auto.now groups.now.numbers.items pairs.now }
    ensures { IfOk result (AreItems auto.now groups.now.numbers.items (lists_of groups.now.lists.keys) pairs.now) }
{
    let numbers = groups.numbers.as_slice();
    let leaves = leaves_of(alloc, auto)?;
    let arrows = arrows_of(alloc, auto)?;
    let mut found = first_items(alloc, auto, groups, pairs)?;
    let mut done = 0;
    while done < found.len() {
        let item = found.at(done);
        let arrows = arrows[item.state as usize].as_slice();
        add_priors(&mut found, numbers, pairs, item, leaves.as_slice(), arrows)?;
        done += 1;
    }
    Ok(found)
}
