//! The blocks of the entry of a scanner, where it stands apart.
ghost use Rattle.std.specs.Prelude.{◌≡◌, ◌++◌, IfOk, OnOk};
ghost use Rattle.lx_layout.specs.LaidParts.{ArePartEnds, IsEntryExits, entry_blocks, entry_tests_blocks, entry_turn_blocks};
ghost use Rattle.lx_layout.specs.Plans.{unlabelled};

use crate::blocks::sum;
use crate::part_ends::PartEnds;
use crate::part_states::{stored_by, unit_class};
use crate::readers::{Exits, Reading, append_reader, class_block};
use crate::refills::{Turn, append_turn};
use lx_base::Memory;
use lx_ccode::CodeBlock;
use std::alloc::Global;

/// Where the tests of the entry lead.
fn entry_exits(ends: &PartEnds<'_>) -> Result<Exits, Memory>
    requires { ArePartEnds ends.now }
    ensures { IfOk result (IsEntryExits ends.now.plans) }
{
    let plans = &ends.plans;
    let turn = sum(plans.begin, plans.entry_tests_size()?)?;
    let Exits {
        first,
        end,
        count,
        ..
    } = ends.exits(0, plans.states_begin()?)?;
    Ok(Exits {
        first,
        end,
        count,
        turn,
    })
}

/// Appends the blocks of the tests of the entry.
fn append_tests_of(
    alloc: Global,
    blocks: &mut Vec<CodeBlock>,
    ends: &PartEnds<'_>,
    exits: Exits,
) -> Result<(), Memory>
    requires ends { ArePartEnds ends.now }
    requires exits { IsEntryExits ends.now.plans exits }
    ensures { OnOk result (blocks.new.items ≡ blocks.old.items ++ unlabelled (entry_tests_blocks ends.now.plans)) }
{
    let plans = &ends.plans;
    let demand = plans.input.demand;
    let stored = stored_by(demand.stores, plans.first);
    let reading = Reading { stored, units: 0 };
    let tests = &plans.states[0].tests;
    append_reader(
        alloc,
        blocks,
        exits,
        demand.eof,
        reading,
        plans.begin,
        tests,
    )
}

/// Appends the blocks of the entry for the end of the input.
fn append_turn_of(
    alloc: Global,
    blocks: &mut Vec<CodeBlock>,
    ends: &PartEnds<'_>,
    exits: Exits,
) -> Result<(), Memory>
    requires ends { ArePartEnds ends.now }
    requires exits { IsEntryExits ends.now.plans exits }
    ensures { OnOk result (blocks.new.items ≡ blocks.old.items ++ unlabelled (entry_turn_blocks ends.now.plans)) }
{
    let plans = &ends.plans;
    let demand = plans.input.demand;
    let Some(unit) = demand.eof else {
        return Ok(());
    };
    let class = unit_class(plans, 0, unit);
    let turn = Turn {
        stored: stored_by(demand.stores, plans.first),
        block: plans.begin,
        here: exits.turn,
        to: class_block(exits.first, exits.end, class)?,
        end: ends.end_rule_block()?,
    };
    append_turn(alloc, blocks, demand.tries, turn)
}

/// Appends the blocks of the entry, if it stands apart.
pub(crate) fn append_entry(
    alloc: Global,
    blocks: &mut Vec<CodeBlock>,
    ends: &PartEnds<'_>,
) -> Result<(), Memory>
    requires { ArePartEnds ends.now }
    ensures { OnOk result (blocks.new.items ≡ blocks.old.items ++ unlabelled (entry_blocks ends.now.plans)) }
{
    if ends.plans.input.end_rule.is_none() {
        return Ok(());
    }
    let exits = entry_exits(ends)?;
    append_tests_of(alloc, blocks, ends, exits)?;
    append_turn_of(alloc, blocks, ends, exits)
}
