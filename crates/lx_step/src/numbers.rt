//! Registers and histories by their places among those that a piece names.
ghost use Rattle.std.specs.Prelude.{◌≡◌, [], ◌+◌, ◌≤◌, length, IfOk, IsOk, OnOk, None, IfSome};
ghost use Rattle.lx_ccode.specs.Statements.{all_statements};
ghost use Rattle.lx_step.specs.Numbers.{IsNumberingOf, least_in_all, lesser_of, numbers_from, numbers_in, numbers_of, place_of, with_number};
ghost use Rattle.lx_step.specs.Places.{room_of};

use indexmap::IndexSet;
use lx_base::Memory;
use lx_ccode::{CodeBlock, Stmt};
use std::alloc::Global;

/// What statements name by its number.
#[derive(Clone, Copy)]
pub(crate) enum Sort {
    Register,
    History,
}

/// The registers and the histories of a piece, each once, in the order in which the piece names them.
pub(crate) struct Numbering {
    pub(crate) registers: IndexSet<u32>,
    pub(crate) histories: IndexSet<u32>,
}

impl Drop for Numbering {
    fn drop(self) {
        let Self {
            registers: _,
            histories: _,
        } = self;
    }
}

impl Numbering {
    /// That of the statements of all blocks.
    pub(crate) fn of_blocks(alloc: Global, blocks: &[CodeBlock]) -> Result<Numbering, Memory>
        ensures { IfOk result (λ numbering. IsNumberingOf blocks.now numbering) }
    {
        let mut registers = IndexSet::new(alloc);
        add_those_of_blocks(&mut registers, Sort::Register, blocks)?;
        let mut histories = IndexSet::new(alloc);
        add_those_of_blocks(&mut histories, Sort::History, blocks)?;
        Ok(Numbering {
            registers,
            histories,
        })
    }

    /// That of other blocks in its place, which has room for them.
    pub(crate) fn renew(&mut self, blocks: &[CodeBlock])
        requires registers { length (numbers_of Sort.Register blocks.now) ≤ room_of self.old.registers }
        requires histories { length (numbers_of Sort.History blocks.now) ≤ room_of self.old.histories }
        ensures { IsNumberingOf blocks.now self.new }
    {
        self.registers.truncate(0);
        add_those_of_blocks(&mut self.registers, Sort::Register, blocks).unwrap();
        self.histories.truncate(0);
        add_those_of_blocks(&mut self.histories, Sort::History, blocks).unwrap();
    }
}

/// The place of a number: that among the numbers, or one behind them all.
#[tactic(auto, unfolding(crate::specs::Numbers::place_of))]
pub(crate) fn place_of(numbers: &IndexSet<u32>, number: u32) -> u64
    ensures { result ≡ place_of numbers.now.keys number }
{
    match numbers.get_index_of(&number) {
        None => numbers.len() as u64 + u64::from(number),
        Some(place) => place as u64,
    }
}

/// Appends the numbers of a sort that blocks name, each unless it is there. With room for them all it takes no
/// memory.
pub(crate) fn add_those_of_blocks(
    numbers: &mut IndexSet<u32>,
    sort: Sort,
    blocks: &[CodeBlock],
) -> Result<(), Memory>
    ensures keys { OnOk result (numbers.new.keys ≡ numbers_from sort (all_statements blocks.now) numbers.old.keys) }
    ensures room { OnOk result (room_of numbers.old ≤ room_of numbers.new) }
    ensures succeeds { length (numbers_from sort (all_statements blocks.now) numbers.old.keys) ≤ room_of numbers.old → IsOk result }
{
    for block in blocks {
        add_those_of(numbers, sort, block.stmts.as_slice())?;
    }
    Ok(())
}

/// Appends those that statements name.
fn add_those_of(numbers: &mut IndexSet<u32>, sort: Sort, statements: &[Stmt]) -> Result<(), Memory>
    ensures keys { OnOk result (numbers.new.keys ≡ numbers_from sort statements.now numbers.old.keys) }
    ensures room { OnOk result (room_of numbers.old ≤ room_of numbers.new) }
    ensures succeeds { length (numbers_from sort statements.now numbers.old.keys) ≤ room_of numbers.old → IsOk result }
{
    for statement in statements {
        let (first, second) = numbers_in(sort, statement);
        add(numbers, first)?;
        add(numbers, second)?;
    }
    Ok(())
}

/// Appends a number, if there is one, unless it is there.
fn add(numbers: &mut IndexSet<u32>, number: Option<u32>) -> Result<(), Memory>
    ensures keys { OnOk result (numbers.new.keys ≡ with_number number numbers.old.keys) }
    ensures room { OnOk result (room_of numbers.old ≤ room_of numbers.new) }
    ensures succeeds { length (with_number number numbers.old.keys) ≤ room_of numbers.old → IsOk result }
{
    let Some(number) = number else {
        return Ok(());
    };
    if numbers.contains(&number) {
        return Ok(());
    }
    numbers.insert(number)?;
    Ok(())
}

/// The numbers of a sort that a statement names: none, one or two.
fn numbers_in(sort: Sort, statement: &Stmt) -> (Option<u32>, Option<u32>)
    ensures { result ≡ numbers_in sort statement.now }
{
    match sort {
        Sort::Register => registers_in(statement),
        Sort::History => histories_in(statement),
    }
}

fn registers_in(statement: &Stmt) -> (Option<u32>, Option<u32>)
    ensures { result ≡ numbers_in Sort.Register statement.now }
{
    match statement {
        Stmt::Set(register)
        | Stmt::Unset(register)
        | Stmt::Back(register)
        | Stmt::End(_, register)
        | Stmt::Tag(_, false, register) => (Some(*register), None),
        Stmt::Copy(register, source) => (Some(*register), Some(*source)),
        _ => (None, None),
    }
}

fn histories_in(statement: &Stmt) -> (Option<u32>, Option<u32>)
    ensures { result ≡ numbers_in Sort.History statement.now }
{
    match statement {
        Stmt::MSet(history) | Stmt::MUnset(history) | Stmt::Tag(_, true, history) => {
            (Some(*history), None)
        }
        Stmt::MCopy(history, source) => (Some(*history), Some(*source)),
        _ => (None, None),
    }
}

/// How many different numbers of a sort blocks name. It takes no memory, and looks at all statements once for each of them.
pub(crate) fn count_of_blocks(sort: Sort, blocks: &[CodeBlock]) -> u64
    ensures { result ≡ length (numbers_of sort blocks.now) }
{
    let mut count = 0;
    let mut from = 0;
    while let Some(number) = least_of_blocks(sort, blocks, from) {
        count += 1;
        from = behind(number);
    }
    count
}

/// The next number.
fn behind(number: u32) -> u64
    ensures next { result ≡ number + 1 }
    ensures fits { result ≤ 4294967296 }
{
    u64::from(number) + 1
}

/// The least number of a sort that blocks name, from a number on.
fn least_of_blocks(sort: Sort, blocks: &[CodeBlock], from: u64) -> Option<u32>
    ensures { result ≡ least_in_all sort from (all_statements blocks.now) None }
{
    let mut least = None;
    for block in blocks {
        least = least_of(sort, block.stmts.as_slice(), from, least);
    }
    least
}

/// The least of a number and of those that statements name from a number on.
fn least_of(sort: Sort, statements: &[Stmt], from: u64, before: Option<u32>) -> Option<u32>
    ensures { result ≡ least_in_all sort from statements.now before }
{
    let mut least = before;
    for statement in statements {
        let (first, second) = numbers_in(sort, statement);
        least = lesser(second, from, lesser(first, from, least));
    }
    least
}

/// A number, where there is one from another one on and it is less than the least before.
fn lesser(number: Option<u32>, from: u64, least: Option<u32>) -> Option<u32>
    ensures { result ≡ lesser_of number from least }
{
    match (number, least) {
        (None, _) => least,
        (Some(number), None) => from_on(number, from),
        (Some(number), Some(other)) => {
            if number < other && from <= u64::from(number) {
                Some(number)
            } else {
                Some(other)
            }
        }
    }
}

fn from_on(number: u32, from: u64) -> Option<u32>
    ensures { result ≡ lesser_of (Some number) from None }
{
    if from <= u64::from(number) {
        Some(number)
    } else {
        None
    }
}
