//! The blocks of what reads a unit.
ghost use Rattle.std.specs.Prelude.{◌≡◌, ◌+◌, ◌++◌, ◌∷◌, [], None, IfOk, OnOk, map};
ghost use Rattle.lx_ccode.specs.declared.piece.Stmt.TheVariants as stmt;
ghost use Rattle.lx_layout.specs.Layout.{class_block};
ghost use Rattle.lx_layout.specs.Plans.{unlabelled};
ghost use Rattle.lx_layout.specs.SuppliedLayout.{check_blocks, check_size, read_blocks, reader_blocks, reader_size, with_blocks};
ghost use Rattle.lx_layout.specs.Supplies.{entry, need_code, store_code};
ghost use Rattle.lx_layout.specs.TreeCodes.{asks, inner_blocks, inner_size, switch_cases, tree_code};
ghost use Rattle.lx_dispatch.specs.TestTrees.{cases_by};
ghost use Rattle.lx_dispatch.specs.Views.{seen_case, seen_question, seen_tree};
ghost use Rattle.lx_layout.specs.Ways.{constant, way_of};

use crate::blocks::{append_block, sum};
use lx_base::{Memory, Sequence};
use lx_ccode::{CodeBlock, Stmt, SwitchCase};
use lx_dispatch::{Question, TestTree, UnitCase, same_place};
use std::alloc::Global;

/// Where the tests of a state lead.
#[derive(Clone, Copy)]
pub(crate) struct Exits {
    /// The block of the first transition class. Those of the others follow it.
    pub first: u64,
    /// The block where the match ends.
    pub end: u64,
    /// How many transition classes there are.
    pub count: usize,
    /// The block where the unit at the end of the input leads.
    pub turn: u64,
}

/// How a unit is read.
#[derive(Clone, Copy)]
pub(crate) struct Reading {
    /// By which number what reads is stored, if it is.
    pub stored: Option<u64>,
    /// For how many units is checked before, or 0.
    pub units: u32,
}

/// The block of the class at a place. Without a class the match ends.
pub(crate) fn class_block(first: u64, end: u64, class: Option<usize>) -> Result<u64, Memory>
    ensures { IfOk result (λ block. block ≡ class_block first end class) }
{
    match class {
        None => Ok(end),
        Some(place) => sum(first, place as u64),
    }
}

/// The block of the class at a place, where the place behind those of the classes is that of the unit at the end of the input.
fn way_of(exits: Exits, class: Option<usize>) -> Result<u64, Memory>
    ensures { IfOk result (λ block. block ≡ way_of exits class) }
{
    if same_place(class, Some(exits.count)) {
        return Ok(exits.turn);
    }
    class_block(exits.first, exits.end, class)
}

/// Appends the jump to the class at a place.
fn append_goto(stmts: &mut Vec<Stmt>, exits: Exits, class: Option<usize>) -> Result<(), Memory>
    ensures { OnOk result (stmts.new.items ≡ stmts.old.items ++ stmt.Goto (way_of exits class) ∷ []) }
{
    let block = way_of(exits, class)?;
    stmts.push(Stmt::Goto(block))?;
    Ok(())
}

/// The statement that asks a question of a unit, and jumps to a block where the answer is yes.
fn asks(question: Question, block: u64) -> Stmt
    ensures { result ≡ asks (seen_question question) block }
{
    match question {
        Question::AtMost(greatest) => Stmt::IfUnit(greatest, block),
        Question::Is(unit) => Stmt::IfIs(unit, block),
        Question::Among(set) => Stmt::IfSet(set, block),
    }
}

/// Appends the test that leads units of which a question holds to the class at a place.
fn append_test(
    stmts: &mut Vec<Stmt>,
    exits: Exits,
    question: Question,
    class: Option<usize>,
) -> Result<(), Memory>
    ensures { OnOk result (stmts.new.items ≡ stmts.old.items ++ asks (seen_question question) (way_of exits class) ∷ []) }
{
    let block = way_of(exits, class)?;
    stmts.push(asks(question, block))?;
    Ok(())
}

/// The case of a statement whose units go by a class.
fn switch_case(alloc: Global, exits: Exits, case: &UnitCase) -> Result<SwitchCase, Memory>
    ensures units { IfOk result (λ made. made.units ≡ case.now.units.items) }
    ensures block { IfOk result (λ made. made.block ≡ way_of exits case.now.class) }
{
    Ok(SwitchCase {
        units: Sequence::copy_of(alloc, case.units.as_slice())?,
        block: way_of(exits, case.class)?,
    })
}

/// The cases of a statement.
fn switch_cases(
    alloc: Global,
    exits: Exits,
    cases: &[UnitCase],
) -> Result<Sequence<SwitchCase>, Memory>
    ensures { IfOk result (λ made. made ≡ switch_cases (cases_by (way_of exits) (map seen_case cases.now))) }
{
    let mut made = Vec::with_capacity(alloc, cases.len())?;
    for case in cases {
        made.push(switch_case(alloc, exits, case)?)?;
    }
    Ok(Sequence::from_vec(made))
}

/// Appends the statement by which units go by cases.
fn append_switch(
    alloc: Global,
    stmts: &mut Vec<Stmt>,
    exits: Exits,
    cases: &[UnitCase],
    last: Option<usize>,
) -> Result<(), Memory>
    ensures { OnOk result (stmts.new.items
        ≡ stmts.old.items ++ stmt.Switch (switch_cases (cases_by (way_of exits) (map seen_case cases.now))) (way_of exits last) ∷ []) }
{
    let made = switch_cases(alloc, exits, cases)?;
    let block = way_of(exits, last)?;
    stmts.push(Stmt::Switch(made, block))?;
    Ok(())
}

/// How many blocks a tree needs for its lower tests.
fn inner_size(tree: &TestTree) -> Result<u64, Memory>
    ensures { IfOk result (λ size. size ≡ inner_size (seen_tree tree.now)) }
{
    match tree {
        TestTree::Leaf(_) | TestTree::Switch { .. } => Ok(0),
        TestTree::Test { high, .. } => inner_size(high),
        TestTree::Fork { low, high, .. } => sum(sum(1, inner_size(low)?)?, inner_size(high)?),
    }
}

/// The block behind that of a lower tree's first tests, which has the number `next`, and those of its lower tests.
fn block_behind(next: u64, low: &TestTree) -> Result<u64, Memory>
    ensures { IfOk result (λ block. block ≡ (1 + next) + inner_size (seen_tree low.now)) }
{
    sum(sum(1, next)?, inner_size(low)?)
}

/// Appends the statements of tests. The blocks of the lower tests begin at `next`.
fn append_tests(
    alloc: Global,
    stmts: &mut Vec<Stmt>,
    exits: Exits,
    next: u64,
    tree: &TestTree,
) -> Result<(), Memory>
    ensures { OnOk result (stmts.new.items ≡ stmts.old.items ++ tree_code next (with_blocks (way_of exits) (seen_tree tree.now))) }
{
    match tree {
        TestTree::Leaf(class) => append_goto(stmts, exits, *class),
        TestTree::Test {
            question,
            class,
            high,
        } => {
            append_test(stmts, exits, *question, *class)?;
            append_tests(alloc, stmts, exits, next, high)
        }
        TestTree::Fork {
            greatest,
            low,
            high,
        } => {
            stmts.push(Stmt::IfUnit(*greatest, next))?;
            append_tests(alloc, stmts, exits, block_behind(next, low)?, high)
        }
        TestTree::Switch { cases, last } => append_switch(alloc, stmts, exits, cases, *last),
    }
}

/// Appends the block of a lower tree's first tests. The blocks of its lower tests begin at `next`.
fn append_root(
    alloc: Global,
    blocks: &mut Vec<CodeBlock>,
    exits: Exits,
    next: u64,
    tree: &TestTree,
) -> Result<(), Memory>
    ensures { OnOk result (blocks.new.items
        ≡ blocks.old.items ++ unlabelled (tree_code next (with_blocks (way_of exits) (seen_tree tree.now)) ∷ [])) }
{
    let mut stmts = Vec::with_capacity(alloc, test_count(tree))?;
    append_tests(alloc, &mut stmts, exits, next, tree)?;
    append_block(blocks, stmts)
}

/// Appends the blocks of the lower tests. The first of them has the number `next`.
fn append_lower(
    alloc: Global,
    blocks: &mut Vec<CodeBlock>,
    exits: Exits,
    next: u64,
    tree: &TestTree,
) -> Result<(), Memory>
    ensures { OnOk result (blocks.new.items
        ≡ blocks.old.items ++ unlabelled (inner_blocks next (with_blocks (way_of exits) (seen_tree tree.now)))) }
{
    match tree {
        TestTree::Leaf(_) | TestTree::Switch { .. } => Ok(()),
        TestTree::Test { high, .. } => append_lower(alloc, blocks, exits, next, high),
        TestTree::Fork { low, high, .. } => {
            let inside = sum(1, next)?;
            append_root(alloc, blocks, exits, inside, low)?;
            append_lower(alloc, blocks, exits, inside, low)?;
            append_lower(alloc, blocks, exits, block_behind(next, low)?, high)
        }
    }
}

/// Appends the statement that stores what reads, if it is stored.
pub(crate) fn append_store(stmts: &mut Vec<Stmt>, stored: Option<u64>) -> Result<(), Memory>
    ensures { OnOk result (stmts.new.items ≡ stmts.old.items ++ store_code (constant stored) entry []) }
{
    if let Some(number) = stored {
        stmts.push(Stmt::State(number))?;
    }
    Ok(())
}

/// How many statements a check for units has.
fn need_count(reading: Reading) -> usize {
    match (reading.units, reading.stored) {
        (0, _) => 0,
        (_, None) => 1,
        (_, Some(_)) => 2,
    }
}

/// How many statements the first tests of a tree have.
fn test_count(tree: &TestTree) -> usize {
    match tree {
        TestTree::Leaf(_) | TestTree::Switch { .. } => 1,
        TestTree::Test { high, .. } | TestTree::Fork { high, .. } => {
            test_count(high).saturating_add(1)
        }
    }
}

/// The statements of a check for units, if there is one, with room for so many others.
fn need_code(alloc: Global, reading: Reading, others: usize) -> Result<Vec<Stmt>, Memory>
    ensures { IfOk result (λ stmts. stmts.items ≡ need_code (constant reading.stored) entry reading.units []) }
{
    let count = others.saturating_add(need_count(reading));
    let mut stmts = Vec::with_capacity(alloc, count)?;
    if reading.units != 0 {
        append_store(&mut stmts, reading.stored)?;
        stmts.push(Stmt::Need(reading.units))?;
    }
    Ok(stmts)
}

/// Appends the block that reads the unit and tests it, which has the number `from`, and those of the lower tests.
fn append_read(
    alloc: Global,
    blocks: &mut Vec<CodeBlock>,
    exits: Exits,
    reading: Reading,
    from: u64,
    tree: &TestTree,
) -> Result<(), Memory>
    ensures { OnOk result (blocks.new.items ≡ blocks.old.items
        ++ unlabelled (read_blocks (constant reading.stored) entry reading.units from (with_blocks (way_of exits) (seen_tree tree.now)))) }
{
    let next = sum(1, from)?;
    let tests = test_count(tree).saturating_add(1);
    let mut stmts = need_code(alloc, reading, tests)?;
    stmts.push(Stmt::Peek)?;
    append_tests(alloc, &mut stmts, exits, next, tree)?;
    append_block(blocks, stmts)?;
    append_lower(alloc, blocks, exits, next, tree)
}

/// Appends a block with a check and a jump, if there is a check.
fn append_check(
    alloc: Global,
    blocks: &mut Vec<CodeBlock>,
    reading: Reading,
    block: u64,
) -> Result<(), Memory>
    ensures { OnOk result (blocks.new.items ≡ blocks.old.items ++ unlabelled (check_blocks (constant reading.stored) entry reading.units block)) }
{
    if reading.units == 0 {
        return Ok(());
    }
    let mut stmts = need_code(alloc, reading, 1)?;
    stmts.push(Stmt::Goto(block))?;
    append_block(blocks, stmts)
}

/// Appends the blocks of what reads, where no unit stands at the end of the input.
fn append_plain(
    alloc: Global,
    blocks: &mut Vec<CodeBlock>,
    exits: Exits,
    reading: Reading,
    from: u64,
    tree: &TestTree,
) -> Result<(), Memory>
    ensures { OnOk result (blocks.new.items ≡ blocks.old.items
        ++ unlabelled (reader_blocks (constant reading.stored) entry None reading.units from (with_blocks (way_of exits) (seen_tree tree.now)))) }
{
    match tree {
        TestTree::Leaf(class) => append_check(alloc, blocks, reading, way_of(exits, *class)?),
        TestTree::Test { .. } | TestTree::Fork { .. } | TestTree::Switch { .. } => {
            append_read(alloc, blocks, exits, reading, from, tree)
        }
    }
}

/// Appends the blocks of what reads, of which the first one has the number `from`.
pub(crate) fn append_reader(
    alloc: Global,
    blocks: &mut Vec<CodeBlock>,
    exits: Exits,
    eof: Option<u32>,
    reading: Reading,
    from: u64,
    tree: &TestTree,
) -> Result<(), Memory>
    ensures { OnOk result (blocks.new.items ≡ blocks.old.items
        ++ unlabelled (reader_blocks (constant reading.stored) entry eof reading.units from (with_blocks (way_of exits) (seen_tree tree.now)))) }
{
    if eof.is_none() {
        return append_plain(alloc, blocks, exits, reading, from, tree);
    }
    let stored = reading.stored;
    let unchecked = Reading { stored, units: 0 };
    append_read(alloc, blocks, exits, unchecked, from, tree)
}

/// How many blocks what reads has for a check alone.
fn check_size(units: u32) -> u64
    ensures { result ≡ check_size units }
{
    if units == 0 { 0 } else { 1 }
}

/// How many blocks what reads has for its check and its tests, where no unit stands at the end of the input.
fn plain_size(units: u32, tree: &TestTree) -> Result<u64, Memory>
    ensures { IfOk result (λ size. size ≡ reader_size None units (seen_tree tree.now)) }
{
    match tree {
        TestTree::Leaf(_) => Ok(check_size(units)),
        TestTree::Test { .. } | TestTree::Fork { .. } | TestTree::Switch { .. } => sum(
            1,
            inner_size(tree)?,
        ),
    }
}

/// How many blocks what reads has for its check and its tests.
pub(crate) fn reader_size(eof: Option<u32>, units: u32, tree: &TestTree) -> Result<u64, Memory>
    ensures { IfOk result (λ size. size ≡ reader_size eof units (seen_tree tree.now)) }
{
    if eof.is_none() {
        return plain_size(units, tree);
    }
    sum(1, inner_size(tree)?)
}
