//! The blocks of scanners whose automata are that of the first one but for the numbers of rules: copies of its blocks, with the ends of their
//! own rules.
ghost use Rattle.std.specs.Prelude.{◌≡◌, ◌+◌, [], ◌∷◌, List, ◌++◌, IfOk, OnOk, Some, length, map};
ghost use Rattle.std.specs.List.{AllByRecursion};
ghost use Rattle.lx_auto.specs.Automaton.{AreHeld, IsAuto};
ghost use Rattle.lx_auto.specs.declared.automaton.State.{State};
ghost use Rattle.lx_ccode.specs.declared.piece.Stmt.{Stmt};
ghost use Rattle.lx_layout.specs.Copies.{AcceptIsToldBy, codes_in, IsFront, IsLikeFront, IsToldBy, copied_codes, given_by, moved, moved_case, moved_codes};
ghost use Rattle.lx_layout.specs.LaidParts.{ended_at, seen_given};
ghost use Rattle.lx_layout.specs.Layout.{ending_blocks};
ghost use Rattle.lx_layout.specs.Parts.{IsPartOf, Part, given_asked, part_blocks};
ghost use Rattle.lx_layout.specs.Plans.{unlabelled};
ghost use Rattle.lx_layout.specs.RuleEnds.{AreEndsIndexed, endings_of};
ghost use Rattle.lx_renumber.specs.Renumbered.{renumbered_accept};

use crate::blocks::{append_block, sum};
use crate::demands::PartInput;
use crate::part_ends::PartEnds;
use crate::parts::{append_end_rule, append_front, input_places, label};
use crate::rule_endings::{ending_code, shared_line};
use crate::rule_ends::{EndIndex, index_of};
use lx_auto::Accept;
use lx_base::{Memory, Sequence};
use lx_ccode::{CodeBlock, Stmt, SwitchCase};
use std::alloc::Global;

/// The blocks of a scanner without the ends of its rules, of which the first one has the number 0; what reads is stored by
/// numbers from 0 on.
pub(crate) struct Front<'a> {
    pub ends: PartEnds<'a>,
    pub blocks: Vec<CodeBlock>,
    /// How many states the scanner stores.
    pub asked: u64,
}

impl Drop for Front<'_> {
    fn drop(self) {
        let Self {
            ends: _,
            blocks: _,
            asked: _,
        } = self;
    }
}

/// The front of a scanner.
pub(crate) fn front_of<'a>(alloc: Global, input: &PartInput<'a>) -> Result<Front<'a>, Memory>
    requires formed { IsAuto input.now.auto.now }
    ensures front { IfOk result IsFront }
    ensures input { IfOk result (λ front. front.ends.plans.input ≡ input.now) }
{
    let places = input_places(alloc, input, 0, 0)?;
    let mut blocks = Vec::new(alloc);
    let asked = append_front(alloc, &mut blocks, &places)?;
    Ok(Front {
        ends: places.into_ends(),
        blocks,
        asked,
    })
}

/// The case of a switch over units, where its block stands so many places further on.
fn moved_case(alloc: Global, case: &SwitchCase, by: u64) -> Result<SwitchCase, Memory>
    ensures { IfOk result (λ copy. copy ≡ moved_case by case.now) }
{
    Ok(SwitchCase {
        units: Sequence::copy_of(alloc, case.units.as_slice())?,
        block: sum(case.block, by)?,
    })
}

/// The same of cases.
fn moved_cases(alloc: Global, cases: &[SwitchCase], by: u64) -> Result<Sequence<SwitchCase>, Memory>
    ensures { IfOk result (λ copy. copy ≡ map (moved_case by) cases.now) }
{
    let mut copy = Vec::with_capacity(alloc, cases.len())?;
    for case in cases {
        copy.push(moved_case(alloc, case, by)?)?;
    }
    Ok(Sequence::from_vec(copy))
}

/// The statement, where the blocks that it names stand so many places further on, and the number of a stored state is greater by so much.
fn moved(alloc: Global, statement: &Stmt, by: u64, stored: u64) -> Result<Stmt, Memory>
    ensures { IfOk result (λ copy. copy ≡ moved by stored statement.now) }
{
    Ok(match statement {
        Stmt::Peek => Stmt::Peek,
        Stmt::Skip => Stmt::Skip,
        Stmt::Backup => Stmt::Backup,
        Stmt::Restore => Stmt::Restore,
        Stmt::Accept(accept) => Stmt::Accept(*accept),
        Stmt::Set(register) => Stmt::Set(*register),
        Stmt::Unset(register) => Stmt::Unset(*register),
        Stmt::Copy(register, source) => Stmt::Copy(*register, *source),
        Stmt::MSet(history) => Stmt::MSet(*history),
        Stmt::MUnset(history) => Stmt::MUnset(*history),
        Stmt::MCopy(history, source) => Stmt::MCopy(*history, *source),
        Stmt::IfUnit(greatest, block) => Stmt::IfUnit(*greatest, sum(*block, by)?),
        Stmt::IfIs(unit, block) => Stmt::IfIs(*unit, sum(*block, by)?),
        Stmt::IfSet(set, block) => Stmt::IfSet(*set, sum(*block, by)?),
        Stmt::IfAccept(accept, block) => Stmt::IfAccept(*accept, sum(*block, by)?),
        Stmt::IfEnd(block) => Stmt::IfEnd(sum(*block, by)?),
        Stmt::State(state) => Stmt::State(sum(*state, stored)?),
        Stmt::Need(units) => Stmt::Need(*units),
        Stmt::Try(block) => Stmt::Try(sum(*block, by)?),
        Stmt::Cond(cond) => Stmt::Cond(cond.share()?),
        Stmt::Tag(tag, many, from) => Stmt::Tag(tag.share()?, *many, *from),
        Stmt::Count(groups) => Stmt::Count(*groups),
        Stmt::End(place, register) => Stmt::End(*place, *register),
        Stmt::Back(register) => Stmt::Back(*register),
        Stmt::Switch(cases, last) => {
            Stmt::Switch(moved_cases(alloc, cases.as_slice(), by)?, sum(*last, by)?)
        }
        Stmt::Goto(block) => Stmt::Goto(sum(*block, by)?),
        Stmt::Leave => Stmt::Leave,
        Stmt::Code(rule, line, code) => Stmt::Code(*rule, shared_line(line)?, code.share()?),
        Stmt::Jump(cond, rule) => Stmt::Jump(cond.share()?, *rule),
    })
}

/// The same of statements.
fn moved_code(alloc: Global, code: &[Stmt], by: u64, stored: u64) -> Result<Vec<Stmt>, Memory>
    ensures { IfOk result (λ copy. copy.items ≡ map (moved by stored) code.now) }
{
    let mut copy = Vec::with_capacity(alloc, code.len())?;
    for statement in code {
        copy.push(moved(alloc, statement, by, stored)?)?;
    }
    Ok(copy)
}

/// Appends the blocks, where those that they name stand so many places further on, and numbers of stored states are greater by so much.
fn append_moved(
    alloc: Global,
    blocks: &mut Vec<CodeBlock>,
    front: &[CodeBlock],
    by: u64,
    stored: u64,
) -> Result<(), Memory>
    ensures { OnOk result (blocks.new.items ≡ blocks.old.items ++ unlabelled (moved_codes by stored (codes_in front.now))) }
{
    for block in front {
        append_block(
            blocks,
            moved_code(alloc, block.stmts.as_slice(), by, stored)?,
        )?;
    }
    Ok(())
}

/// Appends the end of the rule of an accept, where the rule's number is greater by so much.
fn append_ending(
    alloc: Global,
    blocks: &mut Vec<CodeBlock>,
    index: &EndIndex<'_>,
    accept: &Accept,
    by: u32,
) -> Result<(), Memory>
    requires indexed { AreEndsIndexed index.now }
    requires held { AreHeld 1073741824 1073741824 accept.now.values }
    requires told { AcceptIsToldBy index.now.ends.now by (Some accept.now) }
    ensures { OnOk result (blocks.new.items ≡ blocks.old.items
        ++ unlabelled (ending_blocks (endings_of index.now.ends.now) (renumbered_accept by accept.now ∷ []))) }
{
    append_block(
        blocks,
        ending_code(alloc, index, accept.rule + by, accept.values.as_slice())?,
    )
}

/// Appends the ends of the rules by which matches end, where the numbers of rules are greater by so much.
fn append_endings_by(
    alloc: Global,
    blocks: &mut Vec<CodeBlock>,
    index: &EndIndex<'_>,
    front: &Front<'_>,
    by: u32,
) -> Result<(), Memory>
    requires front { IsFront front.now }
    requires told { AllByRecursion (λ (given : State). AcceptIsToldBy index.now.ends.now by given.accept) front.now.ends.plans.input.auto.now.states }
    requires indexed { AreEndsIndexed index.now }
    ensures { OnOk result (blocks.new.items ≡ blocks.old.items
        ++ unlabelled (ending_blocks (endings_of index.now.ends.now) (map (renumbered_accept by) (ended_at front.now.ends.plans)))) }
{
    for first in &front.ends.ended.list {
        append_ending(alloc, blocks, index, first.accept, by)?;
    }
    Ok(())
}

/// Appends the blocks of a scanner without its label, of which the first one has the number `begin`, and which stores what reads by numbers
/// from `first` on.
fn append_copy(
    alloc: Global,
    blocks: &mut Vec<CodeBlock>,
    front: &Front<'_>,
    input: &PartInput<'_>,
    by: u32,
    begin: u64,
    first: u64,
) -> Result<(), Memory>
    requires front { IsFront front.now }
    requires like { IsLikeFront front.now input.now }
    requires told { IsToldBy by input.now }
    ensures { OnOk result (blocks.new.items ≡ blocks.old.items ++ unlabelled (copied_codes front.now input.now by begin first)) }
{
    let index = index_of(alloc, input.ends)?;
    append_moved(alloc, blocks, front.blocks.as_slice(), begin, first)?;
    append_endings_by(alloc, blocks, &index, front, by)?;
    append_end_rule(alloc, blocks, &index, input.end_rule)
}

/// Appends the blocks of a scanner whose automaton is that of the front, with numbers of rules that are greater by so much, and which stores
/// what reads by numbers from `first` on. It tells the first number behind these.
pub(crate) fn append_like(
    alloc: Global,
    blocks: &mut Vec<CodeBlock>,
    front: &Front<'_>,
    input: &PartInput<'_>,
    by: u32,
    first: u64,
) -> Result<u64, Memory>
    requires front { IsFront front.now }
    requires like { IsLikeFront front.now input.now }
    requires told { IsToldBy by input.now }
    ensures laid { OnOk result ((part : Part) × IsPartOf input.now.greatest (given_by (Some by) (seen_given input.now)) part
        × (blocks.new.items ≡ blocks.old.items ++ part_blocks part (length blocks.old.items) first)) }
    ensures asked { IfOk result (λ next. next ≡ first + given_asked (given_by (Some by) (seen_given input.now))) }
{
    let begin = blocks.len();
    append_copy(alloc, blocks, front, input, by, begin as u64, first)?;
    label(blocks, begin, input.cond)?;
    let next = sum(first, front.asked)?;
    Ok(next)
}
