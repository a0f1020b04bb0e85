//! An automaton that is proposed in place of a given one.
//!
//! Nothing is proved of it but safety, since it is tested.
ghost use Rattle.lx_auto.specs.Automaton.{IsAuto};
ghost use Rattle.lx_regs.specs.LiveSets.{IsLivenessOf};

use crate::alike::alike_of;
use crate::classes::{Classes, classes_by_value, classes_of};
use crate::flows::{Flows, flows_of};
use crate::hints::{Hints, hints_of};
use crate::live::Liveness;
use crate::name_tables::NameTable;
use crate::naming::note_names;
use crate::order::{Met, order_of};
use crate::renaming::Proposal;
use crate::webs::webs_of;
use crate::written::Writer;
use indexmap::IndexMap;
use lx_auto::Auto;
use lx_base::Memory;
use std::alloc::Global;

/// One more than the greatest name for all states, and at least a count.
fn past_fixed(names: &IndexMap<u32, u32>, count: u32) -> u32 {
    let mut past = count;
    for index in 0..names.len() {
        if let Some((_, name)) = names.get_index(index) {
            past = past.max(name.saturating_add(1));
        }
    }
    past
}

/// The same of names at states.
fn past_chosen(names: &IndexMap<u64, u32>, count: u32) -> u32 {
    let mut past = count;
    for index in 0..names.len() {
        if let Some((_, name)) = names.get_index(index) {
            past = past.max(name.saturating_add(1));
        }
    }
    past
}

/// The hints for names, where registers that hold the same are known.
fn hints_by(
    alloc: Global,
    given: &Auto,
    flows: &Flows,
    order: &[Met],
    equal: &Classes,
) -> Result<Hints, Memory> {
    let alike = alike_of(alloc, flows, equal)?;
    hints_of(alloc, given, flows, order, &alike)
}

/// Notes the names of registers at all states by these hints, where classes of registers that go to one value are known.
fn note_names_of(
    alloc: Global,
    flows: &Flows,
    order: &[Met],
    classes: &Classes,
    hints: &mut Hints,
) -> Result<(), Memory> {
    let mut webs = webs_of(alloc, flows, classes, hints)?;
    note_names(alloc, flows, classes, &mut webs, order, hints)
}

/// Notes the names of registers at all states by these hints, where registers that hold the same are known.
fn note_names_by(
    alloc: Global,
    flows: &Flows,
    order: &[Met],
    equal: &Classes,
    hints: &mut Hints,
) -> Result<(), Memory> {
    let classes = classes_by_value(alloc, flows, order, hints, equal)?;
    note_names_of(alloc, flows, order, &classes, hints)
}

/// The names of registers at all states, where registers that hold the same are known.
fn names_by(
    alloc: Global,
    given: &Auto,
    flows: &Flows,
    order: &[Met],
    equal: &Classes,
) -> Result<NameTable, Memory> {
    let mut hints = hints_by(alloc, given, flows, order, equal)?;
    note_names_by(alloc, flows, order, equal, &mut hints)?;
    Ok(hints.into_table())
}

/// The names of registers at all states, in this order.
fn names_for(
    alloc: Global,
    given: &Auto,
    flows: &Flows,
    order: &[Met],
) -> Result<NameTable, Memory> {
    let equal = classes_of(alloc, flows, order)?;
    names_by(alloc, given, flows, order, &equal)
}

/// The names of registers at all states.
fn names_of(alloc: Global, given: &Auto, flows: &Flows) -> Result<NameTable, Memory> {
    let order = order_of(alloc, flows)?;
    names_for(alloc, given, flows, order.met.as_slice())
}

/// The automaton by these names.
fn answer_by(
    alloc: Global,
    given: &Auto,
    flows: &Flows,
    names: &NameTable,
) -> Result<Auto, Memory> {
    let writer = Writer {
        alloc,
        flows,
        table: names,
    };
    let states = writer.states(given.states.as_slice())?;
    Ok(Auto {
        states,
        regs: past_chosen(&names.regs, past_fixed(&names.fixed_regs, 0)),
        mregs: past_chosen(&names.mregs, past_fixed(&names.fixed_mregs, 1)),
    })
}

/// The automaton in which values that go so stay where they are as far as they can, with the names of registers.
fn proposal_by(alloc: Global, given: &Auto, flows: &Flows) -> Result<Proposal, Memory> {
    let names = names_of(alloc, given, flows)?;
    let answer = answer_by(alloc, given, flows, &names)?;
    Ok(Proposal { answer, names })
}

/// An automaton in which registers that always hold the same are one, and values stay where they are as far as they can.
pub(crate) fn propose(alloc: Global, given: &Auto, live: &Liveness) -> Result<Proposal, Memory>
    requires formed { IsAuto given.now }
    requires live { IsLivenessOf given.now live.now }
{
    let flows = flows_of(alloc, given, live)?;
    proposal_by(alloc, given, &flows)
}
