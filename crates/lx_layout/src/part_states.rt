//! The blocks of the states of a scanner.
ghost use Rattle.std.specs.Prelude.{◌≡◌, ◌<◌, ◌≤◌, [], ◌++◌, None, Some, IfOk, OnOk, length, suc, if◌then◌else◌};
ghost use Rattle.lx_auto.specs.Automaton.{AreOps, IsAccept, LeadWithin, edge_on};
ghost use Rattle.lx_layout.specs.Codes.{save_code};
ghost use Rattle.lx_layout.specs.Fallback.{edge_code};
ghost use Rattle.lx_layout.specs.LaidParts.{ArePartEnds, ArePlaces, ArePlans, IsExits, IsSpot, asked_at, begin_at, class_blocks, fall_at, given_at, rule_at, seen_demand, state_blocks, states_blocks, tests_blocks, turn_blocks};
ghost use Rattle.lx_layout.specs.Layout.{end_blocks, lone_blocks, lone_code};
ghost use Rattle.lx_layout.specs.Marks.{seen_marks};
ghost use Rattle.lx_layout.specs.Parts.{state_asks};
ghost use Rattle.lx_layout.specs.Plans.{unlabelled};
ghost use Rattle.lx_layout.specs.SuppliedLayout.{lone_number};
ghost use Rattle.lx_dispatch.specs.TransitionClasses.{edge_class, transition_classes};
ghost use Rattle.lx_dispatch.specs.Views.{seen_classes};

use crate::blocks::{append_block, sum};
use crate::halting::Marks;
use crate::part_ends::PartEnds;
use crate::part_places::PartPlaces;
use crate::readers::{Exits, Reading, append_reader, class_block};
use crate::refills::{Turn, append_turn};
use crate::state_plans::PartPlans;
use crate::statements::append_list;
use lx_auto::{Accept, Auto, Edge, State};
use lx_base::Memory;
use lx_ccode::{CodeBlock, Stmt};
use lx_dispatch::{TransitionClass, class_place};
use std::alloc::Global;

/// Where a state stands.
#[derive(Clone, Copy)]
pub(crate) struct Spot {
    /// The number of the state.
    pub number: usize,
    /// Its first block.
    pub from: u64,
    /// By which number it is stored, if what reads is stored.
    pub asked: u64,
}

/// Appends the statements that save an accepting state and the cursor, if they are to be saved. A number is kept only where it is asked for.
fn append_save(stmts: &mut Vec<Stmt>, saves: bool, saved: Option<u32>) -> Result<(), Memory>
    ensures { OnOk result (stmts.new.items ≡ stmts.old.items ++ save_code saves saved []) }
{
    if saves {
        stmts.push(Stmt::Backup)?;
        if let Some(number) = saved {
            stmts.push(Stmt::Accept(number))?;
        }
    }
    Ok(())
}

/// The statements of an edge to a block.
fn edge_code(
    alloc: Global,
    marks: &Marks,
    auto: &Auto,
    state: &State,
    saved: Option<u32>,
    edge: &Edge,
    block: u64,
) -> Result<Vec<Stmt>, Memory>
    requires few { auto.now.regs ≤ 1073741824 }
    requires leave { AreOps auto.now.regs auto.now.mregs state.now.leave }
    requires ops { AreOps auto.now.regs auto.now.mregs edge.now.ops }
    ensures { IfOk result (λ stmts. stmts.items ≡ edge_code (seen_marks marks.now) auto.now state.now saved edge.now block) }
{
    let leave = state.leave.as_slice();
    let ops = edge.ops.as_slice();
    let saves = marks.saves_on(state, edge);
    let fixed = if saves { 4 } else { 2 };
    let mut stmts = Vec::with_capacity(alloc, leave.len() + ops.len() + fixed)?;
    append_save(&mut stmts, saves, saved)?;
    append_list(alloc, &mut stmts, auto, leave)?;
    append_list(alloc, &mut stmts, auto, ops)?;
    stmts.push(Stmt::Skip)?;
    stmts.push(Stmt::Goto(block))?;
    Ok(stmts)
}

/// Appends the blocks of the transition classes of a state.
fn append_classes(
    alloc: Global,
    blocks: &mut Vec<CodeBlock>,
    places: &PartPlaces<'_>,
    state: &State,
    classes: &[TransitionClass<'_>],
) -> Result<(), Memory>
    requires places { ArePlaces places.now }
    requires leave { AreOps places.now.ends.plans.input.auto.now.regs places.now.ends.plans.input.auto.now.mregs state.now.leave }
    requires lead { LeadWithin places.now.ends.plans.input.auto.now.regs places.now.ends.plans.input.auto.now.mregs
        (length places.now.ends.plans.input.auto.now.states) (seen_classes classes.now) }
    ensures { OnOk result (blocks.new.items
        ≡ blocks.old.items ++ unlabelled (class_blocks places.now.ends.plans state.now (seen_classes classes.now))) }
{
    let plans = &places.ends.plans;
    let auto = plans.input.auto;
    let saved = places.ends.kept_number(&state.accept);
    for class in classes {
        let block = places.states[class.edge.to as usize];
        append_block(
            blocks,
            edge_code(alloc, &plans.marks, auto, state, saved, class.edge, block)?,
        )?;
    }
    Ok(())
}

/// Appends the block where a match ends in a state, if it has one of its own and one can end.
fn append_end(
    alloc: Global,
    blocks: &mut Vec<CodeBlock>,
    ends: &PartEnds<'_>,
    halts: bool,
    accept: &Option<Accept>,
) -> Result<(), Memory>
    requires ends { ArePartEnds ends.now }
    requires there { IsAccept ends.now.plans.input.auto.now.regs ends.now.plans.input.auto.now.mregs accept.now }
    ensures { OnOk result (blocks.new.items ≡ blocks.old.items
        ++ unlabelled (end_blocks ends.now.plans.input.auto.now (rule_at ends.now.plans) (fall_at ends.now.plans) (if halts then accept.now else None))) }
{
    match accept {
        Some(accept) if halts && !accept.ops.as_slice().is_empty() => {
            append_block(blocks, ends.accept_code(alloc, accept)?)
        }
        _ => Ok(()),
    }
}

/// The statements of state 0 where it has no edge.
fn lone_code(
    alloc: Global,
    ends: &PartEnds<'_>,
    accept: &Option<Accept>,
) -> Result<Vec<Stmt>, Memory>
    requires ends { ArePartEnds ends.now }
    requires there { IsAccept ends.now.plans.input.auto.now.regs ends.now.plans.input.auto.now.mregs accept.now }
    ensures { IfOk result (λ stmts. stmts.items
        ≡ lone_code ends.now.plans.input.auto.now (rule_at ends.now.plans) (fall_at ends.now.plans) accept.now) }
{
    match accept {
        None => {
            let stmts = vec![in alloc; Stmt::Goto(ends.fall)]?;
            Ok(stmts)
        }
        Some(accept) => ends.accept_code(alloc, accept),
    }
}

/// Appends the blocks of a state without edges.
fn append_lone(
    alloc: Global,
    blocks: &mut Vec<CodeBlock>,
    ends: &PartEnds<'_>,
    number: usize,
    accept: &Option<Accept>,
) -> Result<(), Memory>
    requires ends { ArePartEnds ends.now }
    requires there { IsAccept ends.now.plans.input.auto.now.regs ends.now.plans.input.auto.now.mregs accept.now }
    ensures { OnOk result (blocks.new.items ≡ blocks.old.items
        ++ unlabelled (lone_blocks ends.now.plans.input.auto.now (rule_at ends.now.plans) (fall_at ends.now.plans)
        (lone_number ends.now.plans.input.end_rule number) accept.now)) }
{
    if number == 0 && ends.plans.input.end_rule.is_none() {
        return append_block(blocks, lone_code(alloc, ends, accept)?);
    }
    append_end(alloc, blocks, ends, true, accept)
}

/// The number by which what reads is stored, if it is.
pub(crate) fn stored_by(stores: bool, asked: u64) -> Option<u64>
    ensures { result ≡ (if stores then Some asked else None) }
{
    if stores { Some(asked) } else { None }
}

/// Appends the blocks of the tests of a state.
fn append_tests_of(
    alloc: Global,
    blocks: &mut Vec<CodeBlock>,
    plans: &PartPlans<'_>,
    exits: Exits,
    spot: Spot,
) -> Result<(), Memory>
    requires plans { ArePlans plans.now }
    requires spot { IsSpot plans.now spot }
    requires exits { IsExits plans.now spot.number spot.from exits }
    ensures { OnOk result (blocks.new.items ≡ blocks.old.items ++ unlabelled (tests_blocks plans.now spot.number spot.from)) }
{
    let number = spot.number;
    if !plans.is_entered(number) {
        return Ok(());
    }
    let demand = plans.input.demand;
    let stored = stored_by(demand.stores, spot.asked);
    let units = demand.check(number);
    let reading = Reading { stored, units };
    let tests = &plans.states[number].tests;
    append_reader(alloc, blocks, exits, demand.eof, reading, spot.from, tests)
}

/// The place of the class of a unit in a state, if the state has an edge on it.
pub(crate) fn unit_class(plans: &PartPlans<'_>, number: usize, unit: u32) -> Option<usize>
    requires plans { ArePlans plans.now }
    requires within { number < length plans.now.states.items }
    ensures { result ≡ edge_class (transition_classes (given_at plans.now number).edges) (edge_on (given_at plans.now number).edges unit) }
{
    let edge = plans.input.auto.edge(number as u32, unit)?;
    Some(class_place(&plans.states[number].classes, edge))
}

/// Appends the blocks of a state for the end of the input.
fn append_turn_of(
    alloc: Global,
    blocks: &mut Vec<CodeBlock>,
    plans: &PartPlans<'_>,
    exits: Exits,
    spot: Spot,
) -> Result<(), Memory>
    requires plans { ArePlans plans.now }
    requires spot { IsSpot plans.now spot }
    requires exits { IsExits plans.now spot.number spot.from exits }
    ensures { OnOk result (blocks.new.items ≡ blocks.old.items ++ unlabelled (turn_blocks plans.now spot.number spot.from)) }
{
    let number = spot.number;
    let demand = plans.input.demand;
    let Some(unit) = demand.eof else {
        return Ok(());
    };
    if !plans.is_entered(number) {
        return Ok(());
    }
    let class = unit_class(plans, number, unit);
    let turn = Turn {
        stored: stored_by(demand.stores, spot.asked),
        block: spot.from,
        here: exits.turn,
        to: class_block(exits.first, exits.end, class)?,
        end: exits.end,
    };
    append_turn(alloc, blocks, demand.tries, turn)
}

/// Appends the blocks of a state with edges.
fn append_branches(
    alloc: Global,
    blocks: &mut Vec<CodeBlock>,
    places: &PartPlaces<'_>,
    spot: Spot,
) -> Result<(), Memory>
    requires places { ArePlaces places.now }
    requires spot { IsSpot places.now.ends.plans spot }
    requires some { 0 < length (given_at places.now.ends.plans spot.number).edges }
    ensures { OnOk result (blocks.new.items ≡ blocks.old.items
        ++ unlabelled (state_blocks places.now.ends.plans spot.number spot.from (given_at places.now.ends.plans spot.number))) }
{
    let ends = &places.ends;
    let plans = &ends.plans;
    let plan = &plans.states[spot.number];
    let exits = ends.exits(spot.number, spot.from)?;
    append_tests_of(alloc, blocks, plans, exits, spot)?;
    append_classes(alloc, blocks, places, plan.state, plan.classes.as_slice())?;
    append_turn_of(alloc, blocks, plans, exits, spot)?;
    let halts = plans.marks.halts(spot.number);
    append_end(alloc, blocks, ends, halts, &plan.state.accept)
}

/// Appends the blocks of a state.
fn append_state(
    alloc: Global,
    blocks: &mut Vec<CodeBlock>,
    places: &PartPlaces<'_>,
    spot: Spot,
) -> Result<(), Memory>
    requires places { ArePlaces places.now }
    requires spot { IsSpot places.now.ends.plans spot }
    ensures { OnOk result (blocks.new.items ≡ blocks.old.items
        ++ unlabelled (state_blocks places.now.ends.plans spot.number spot.from (given_at places.now.ends.plans spot.number))) }
{
    let ends = &places.ends;
    let state = ends.plans.states[spot.number].state;
    if state.edges.as_slice().is_empty() {
        return append_lone(alloc, blocks, ends, spot.number, &state.accept);
    }
    append_branches(alloc, blocks, places, spot)
}

/// Whether the state with this number asks for a refill.
fn asks(plans: &PartPlans<'_>, number: usize) -> bool
    requires plans { ArePlans plans.now }
    requires within { number < length plans.now.states.items }
    ensures { result ≡ state_asks (seen_demand plans.now.input.demand) plans.now.input.end_rule plans.now.input.auto.now number }
{
    if plans.states[number].state.edges.as_slice().is_empty() {
        return false;
    }
    plans.is_entered(number) && plans.input.demand.asks(number)
}

/// The number by which the next state is stored, if what reads is stored.
fn next_asked(plans: &PartPlans<'_>, number: usize, asked: u64) -> Result<u64, Memory>
    requires plans { ArePlans plans.now }
    requires within { number < length plans.now.states.items }
    requires asked { asked ≡ asked_at plans.now number }
    ensures { IfOk result (λ next. next ≡ asked_at plans.now (suc number)) }
{
    if asks(plans, number) {
        return sum(asked, 1);
    }
    Ok(asked)
}

/// The number by which state 0 is stored, if what reads is stored.
fn first_asked(plans: &PartPlans<'_>) -> Result<u64, Memory>
    ensures { IfOk result (λ asked. asked ≡ asked_at plans.now 0) }
{
    let demand = plans.input.demand;
    if plans.input.end_rule.is_some() && demand.eof.is_some() && demand.tries {
        return sum(plans.first, 1);
    }
    Ok(plans.first)
}

/// Appends the blocks of all states, and tells the first number by which what reads is not stored.
pub(crate) fn append_states(
    alloc: Global,
    blocks: &mut Vec<CodeBlock>,
    places: &PartPlaces<'_>,
) -> Result<u64, Memory>
    requires { ArePlaces places.now }
    ensures laid { OnOk result (blocks.new.items ≡ blocks.old.items ++ unlabelled
        (states_blocks places.now.ends.plans 0 (begin_at places.now.ends.plans) places.now.ends.plans.input.auto.now.states)) }
    ensures asked { IfOk result (λ asked. asked ≡ asked_at places.now.ends.plans (length places.now.ends.plans.input.auto.now.states)) }
{
    let plans = &places.ends.plans;
    let mut from = plans.states_begin()?;
    let mut asked = first_asked(plans)?;
    for number in 0..plans.states.len() {
        append_state(
            alloc,
            blocks,
            places,
            Spot {
                number,
                from,
                asked,
            },
        )?;
        from = sum(from, plans.state_size(number)?)?;
        asked = next_asked(plans, number, asked)?;
    }
    Ok(asked)
}
