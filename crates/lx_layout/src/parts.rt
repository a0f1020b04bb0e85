//! The blocks of a scanner.
ghost use Rattle.std.specs.Prelude.{◌≡◌, ℕ, ◌+◌, List, ◌++◌, IfOk, OnOk, length};
ghost use Rattle.lx_auto.specs.Automaton.{IsAuto};
ghost use Rattle.lx_ccode.specs.declared.piece.CodeBlock.{CodeBlock};
ghost use Rattle.lx_ccode.specs.declared.piece.Stmt.{Stmt};
ghost use Rattle.lx_layout.specs.Copies.{front_at};
ghost use Rattle.lx_layout.specs.LaidParts.{ArePartEnds, ArePlaces, ArePlans, EndIsTold, IsTold, asked_at, codes_at, ended_at, seen_given};
ghost use Rattle.lx_layout.specs.Layout.{ending_blocks};
ghost use Rattle.lx_layout.specs.Parts.{IsPartOf, Part, given_asked, labelled, part_blocks};
ghost use Rattle.lx_layout.specs.Plans.{unlabelled};
ghost use Rattle.lx_layout.specs.RuleEnds.{AreEndsIndexed, endings_of};
ghost use Rattle.lx_layout.specs.SuppliedLayout.{end_rule_part};
ghost use Rattle.lx_layout.specs.declared.state_plans.PartPlans.{PartPlans};

use crate::blocks::append_block;
use crate::demands::PartInput;
use crate::part_ends::{PartEnds, part_ends};
use crate::part_entries::append_entry;
use crate::part_fallback::{append_fallback, append_restores};
use crate::part_places::{PartPlaces, part_places};
use crate::part_states::append_states;
use crate::rule_endings::{end_rule_code, ending_code};
use crate::rule_ends::{EndIndex, index_of};
use crate::state_plans::part_plans;
use lx_base::Memory;
use lx_ccode::CodeBlock;
use lx_shared::SharedText;
use std::alloc::Global;

/// Appends the blocks of the ends of rules.
fn append_endings(
    alloc: Global,
    blocks: &mut Vec<CodeBlock>,
    index: &EndIndex<'_>,
    ends: &PartEnds<'_>,
) -> Result<(), Memory>
    requires ends { ArePartEnds ends.now }
    requires told { IsTold ends.now.plans.input }
    requires indexed { AreEndsIndexed index.now }
    requires same { index.now.ends.now ≡ ends.now.plans.input.ends.now }
    ensures { OnOk result (blocks.new.items ≡ blocks.old.items
        ++ unlabelled (ending_blocks (endings_of ends.now.plans.input.ends.now) (ended_at ends.now.plans))) }
{
    for first in &ends.ended.list {
        let accept = first.accept;
        append_block(
            blocks,
            ending_code(alloc, index, accept.rule, accept.values.as_slice())?,
        )?;
    }
    Ok(())
}

/// Appends the block of the end of the rule that stands at the end of the input, if there is one.
pub(crate) fn append_end_rule(
    alloc: Global,
    blocks: &mut Vec<CodeBlock>,
    index: &EndIndex<'_>,
    end_rule: Option<u32>,
) -> Result<(), Memory>
    requires told { EndIsTold index.now.ends.now end_rule }
    requires indexed { AreEndsIndexed index.now }
    ensures { OnOk result (blocks.new.items ≡ blocks.old.items
        ++ unlabelled (end_rule_part (endings_of index.now.ends.now) end_rule)) }
{
    match end_rule {
        None => Ok(()),
        Some(rule) => append_block(blocks, end_rule_code(alloc, index, rule)?),
    }
}

/// Appends the blocks of the ends of all rules.
fn append_rules(
    alloc: Global,
    blocks: &mut Vec<CodeBlock>,
    ends: &PartEnds<'_>,
) -> Result<(), Memory>
    requires ends { ArePartEnds ends.now }
    requires told { IsTold ends.now.plans.input }
    ensures { OnOk result (blocks.new.items ≡ blocks.old.items
        ++ unlabelled (ending_blocks (endings_of ends.now.plans.input.ends.now) (ended_at ends.now.plans)
        ++ end_rule_part (endings_of ends.now.plans.input.ends.now) ends.now.plans.input.end_rule)) }
{
    let index = index_of(alloc, ends.plans.input.ends)?;
    append_endings(alloc, blocks, &index, ends)?;
    append_end_rule(alloc, blocks, &index, ends.plans.input.end_rule)
}

/// Appends the blocks of a scanner up to the ends of its rules, and tells the first number by which what reads is not stored.
pub(crate) fn append_front(
    alloc: Global,
    blocks: &mut Vec<CodeBlock>,
    places: &PartPlaces<'_>,
) -> Result<u64, Memory>
    requires places { ArePlaces places.now }
    ensures laid { OnOk result (blocks.new.items ≡ blocks.old.items ++ unlabelled (front_at places.now.ends.plans)) }
    ensures asked { IfOk result (λ asked. asked ≡ asked_at places.now.ends.plans (length places.now.ends.plans.input.auto.now.states)) }
{
    let ends = &places.ends;
    append_entry(alloc, blocks, ends)?;
    let asked = append_states(alloc, blocks, places)?;
    append_fallback(alloc, blocks, ends)?;
    append_restores(alloc, blocks, ends)?;
    Ok(asked)
}

/// Appends the blocks of a scanner, of which none begins a condition's, and tells the first number by which what reads is not stored.
fn append_codes(
    alloc: Global,
    blocks: &mut Vec<CodeBlock>,
    places: &PartPlaces<'_>,
) -> Result<u64, Memory>
    requires places { ArePlaces places.now }
    requires told { IsTold places.now.ends.plans.input }
    ensures laid { OnOk result (blocks.new.items ≡ blocks.old.items ++ unlabelled (codes_at places.now.ends.plans)) }
    ensures asked { IfOk result (λ asked. asked ≡ asked_at places.now.ends.plans (length places.now.ends.plans.input.auto.now.states)) }
{
    let asked = append_front(alloc, blocks, places)?;
    append_rules(alloc, blocks, &places.ends)?;
    Ok(asked)
}

/// Where the code of a scanner stands whose first block has the number `begin`, and which stores what reads by numbers from `first` on.
pub(crate) fn input_places<'a>(
    alloc: Global,
    input: &PartInput<'a>,
    begin: u64,
    first: u64,
) -> Result<PartPlaces<'a>, Memory>
    requires { IsAuto input.now.auto.now }
    ensures places { IfOk result ArePlaces }
    ensures input { IfOk result (λ places. places.ends.plans.input ≡ input.now) }
    ensures begin { IfOk result (λ places. places.ends.plans.begin ≡ begin) }
    ensures first { IfOk result (λ places. places.ends.plans.first ≡ first) }
{
    let plans = part_plans(alloc, input, begin, first)?;
    let ends = part_ends(alloc, plans)?;
    part_places(alloc, ends)
}

/// Appends the blocks of a scanner without its label, of which the first one has the number `begin`, and tells the first number behind
/// those by which what reads is stored.
fn append_unlabelled(
    alloc: Global,
    blocks: &mut Vec<CodeBlock>,
    input: &PartInput<'_>,
    begin: u64,
    first: u64,
) -> Result<u64, Memory>
    requires formed { IsAuto input.now.auto.now }
    requires told { IsTold input.now }
    ensures laid { OnOk result ((plans : PartPlans) × ArePlans plans × (plans.input ≡ input.now) × (plans.begin ≡ begin) × (plans.first ≡ first)
        × (blocks.new.items ≡ blocks.old.items ++ unlabelled (codes_at plans))) }
    ensures asked { IfOk result (λ next. next ≡ first + given_asked (seen_given input.now)) }
{
    let places = input_places(alloc, input, begin, first)?;
    append_codes(alloc, blocks, &places)
}

/// Makes the block with the number `begin` that at which the scanner of a condition begins.
pub(crate) fn label(
    blocks: &mut Vec<CodeBlock>,
    begin: usize,
    cond: &Option<SharedText>,
) -> Result<(), Memory>
    ensures { OnOk result ((front : List CodeBlock) (codes : List (List Stmt)) → blocks.old.items ≡ front ++ unlabelled codes → begin ≡ length front
        → blocks.new.items ≡ front ++ labelled cond.now codes) }
{
    let Some(cond) = cond else {
        return Ok(());
    };
    if begin < blocks.len() {
        let name = cond.share()?;
        blocks[begin].cond = Some(name);
    }
    Ok(())
}

/// Appends the blocks of a scanner that stores what reads by numbers from `first` on, and tells the first number behind these.
pub(crate) fn append_part(
    alloc: Global,
    blocks: &mut Vec<CodeBlock>,
    input: &PartInput<'_>,
    first: u64,
) -> Result<u64, Memory>
    requires formed { IsAuto input.now.auto.now }
    requires told { IsTold input.now }
    ensures laid { OnOk result ((part : Part) × IsPartOf input.now.greatest (seen_given input.now) part
        × (blocks.new.items ≡ blocks.old.items ++ part_blocks part (length blocks.old.items) first)) }
    ensures asked { IfOk result (λ next. next ≡ first + given_asked (seen_given input.now)) }
{
    let begin = blocks.len();
    let next = append_unlabelled(alloc, blocks, input, begin as u64, first)?;
    label(blocks, begin, input.cond)?;
    Ok(next)
}
