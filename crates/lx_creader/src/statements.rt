//! Decides which statements a valid piece may have.
ghost use Rattle.std.specs.Prelude.{◌≡◌, ◌↔◌, IsTrue};
ghost use Rattle.lx_ccode.specs.Counts.{is_peek};
ghost use Rattle.lx_ccode.specs.Statements.{is_ending, is_need, is_of_three, is_refill, is_state, is_switch, is_try, names_table};
ghost use Rattle.lx_ccode.specs.Validity.{HasFewGroups, HasSpelling, IsLine, IsLong, IsRegister, IsShort, JumpsBelow, NamesOneOf};

use crate::cases::{are_switch_cases, lead_below};
use lx_base::Names;
use lx_base::letters::is_identifier;
use lx_base::names::{begins_table, is_tag_name};
use lx_ccode::{LineMark, NameSet, Stmt};

/// Whether the number has at most 32 bits, as each has that a piece can hold.
pub(crate) fn is_short(number: u32) -> bool
    ensures { IsTrue result ↔ IsShort number }
{
    let _number = number;
    true
}

pub(crate) fn is_long(number: u64) -> bool
    ensures { IsTrue result ↔ IsLong number }
{
    let _number = number;
    true
}

fn is_register(number: u32) -> bool
    ensures { IsTrue result ↔ IsRegister number }
{
    number > 0
}

/// Whether the line can be spelled, as each can that a piece can hold.
pub(crate) fn is_line(line: &Option<LineMark>) -> bool
    ensures { IsTrue result ↔ IsLine line.now }
{
    match line {
        None => true,
        Some(mark) => is_short(mark.line),
    }
}

/// Whether the statement has a spelling: its registers are counted from 1, its names are identifiers, and a
/// user's tag is no other variable.
pub(crate) fn has_spelling(names: &Names, statement: &Stmt) -> bool
    ensures { IsTrue result ↔ HasSpelling names.now statement.now }
{
    match statement {
        Stmt::Peek | Stmt::Skip | Stmt::Backup | Stmt::Restore | Stmt::Leave => true,
        Stmt::Accept(number)
        | Stmt::MSet(number)
        | Stmt::MUnset(number)
        | Stmt::Need(number)
        | Stmt::Count(number) => is_short(*number),
        Stmt::Set(register) | Stmt::Unset(register) | Stmt::Back(register) => {
            is_register(*register)
        }
        Stmt::Copy(register, source) => is_register(*register) && is_register(*source),
        Stmt::MCopy(history, source) => is_short(*history) && is_short(*source),
        Stmt::IfUnit(number, block)
        | Stmt::IfIs(number, block)
        | Stmt::IfSet(number, block)
        | Stmt::IfAccept(number, block) => { is_short(*number) && is_long(*block) }
        Stmt::IfEnd(number) | Stmt::State(number) | Stmt::Try(number) | Stmt::Goto(number) => {
            is_long(*number)
        }
        Stmt::Switch(cases, last) => are_switch_cases(cases.as_slice()) && is_long(*last),
        Stmt::Cond(cond) => is_identifier(cond.as_slice()),
        Stmt::Tag(tag, true, history) => is_tag_name(names, tag.as_slice()) && is_short(*history),
        Stmt::Tag(tag, false, register) => {
            is_tag_name(names, tag.as_slice()) && is_register(*register)
        }
        Stmt::End(place, register) => is_short(*place) && is_register(*register),
        Stmt::Code(rule, line, action) => {
            is_short(*rule) && is_line(line) && action.as_slice().len() < 4_294_967_296
        }
        Stmt::Jump(cond, rule) => is_identifier(cond.as_slice()) && is_short(*rule),
    }
}

/// Whether the statement jumps to one of so many blocks, where it jumps.
pub(crate) fn jumps_below(blocks: usize, statement: &Stmt) -> bool
    ensures { IsTrue result ↔ JumpsBelow blocks statement.now }
{
    match statement {
        Stmt::Switch(cases, last) => {
            lead_below(blocks, cases.as_slice()) && *last < blocks as u64
        }
        Stmt::IfUnit(_, block)
        | Stmt::IfIs(_, block)
        | Stmt::IfSet(_, block)
        | Stmt::IfAccept(_, block)
        | Stmt::IfEnd(block)
        | Stmt::Try(block)
        | Stmt::Goto(block) => *block < blocks as u64,
        _ => true,
    }
}

/// Whether a rule's groups are few enough.
pub(crate) fn has_few_groups(statement: &Stmt) -> bool
    ensures { IsTrue result ↔ HasFewGroups statement.now }
{
    match statement {
        Stmt::Count(groups) => *groups <= 65,
        Stmt::End(place, _) => *place <= 129,
        _ => true,
    }
}

/// Whether a condition that the statement sets or goes to is one of these.
pub(crate) fn names_one_of(conds: &NameSet, statement: &Stmt) -> bool
    ensures { IsTrue result ↔ NamesOneOf conds.now statement.now }
{
    match statement {
        Stmt::Cond(cond) | Stmt::Jump(cond, _) => conds.contains(cond.as_slice()),
        _ => true,
    }
}

/// Whether the statement is the last one of a block.
pub(crate) fn is_ending(statement: &Stmt) -> bool
    ensures { result ≡ is_ending statement.now }
{
    matches!(
        statement,
        Stmt::Switch(_, _) | Stmt::Goto(_) | Stmt::Leave | Stmt::Code(_, _, _) | Stmt::Jump(_, _)
    )
}

/// Whether the statement is of format 3.
pub(crate) fn is_of_three(statement: &Stmt) -> bool
    ensures { result ≡ is_of_three statement.now }
{
    matches!(
        statement,
        Stmt::IfIs(_, _) | Stmt::IfSet(_, _) | Stmt::Switch(_, _)
    )
}

/// Whether the statement is a Switch.
pub(crate) fn is_switch(statement: &Stmt) -> bool
    ensures { result ≡ is_switch statement.now }
{
    matches!(statement, Stmt::Switch(_, _))
}

/// Whether the statement gives a value to a user's tag that is called as the table of sets is.
pub(crate) fn names_table(statement: &Stmt) -> bool
    ensures { result ≡ names_table statement.now }
{
    match statement {
        Stmt::Tag(tag, _, _) => begins_table(tag.as_slice()),
        _ => false,
    }
}

/// Whether the statement stores a state.
pub(crate) fn is_state(statement: &Stmt) -> bool
    ensures { result ≡ is_state statement.now }
{
    matches!(statement, Stmt::State(_))
}

/// Whether the statement reads a unit.
pub(crate) fn is_peek(statement: &Stmt) -> bool
    ensures { result ≡ is_peek statement.now }
{
    matches!(statement, Stmt::Peek)
}

/// Whether the statement is a Need.
pub(crate) fn is_need(statement: &Stmt) -> bool
    ensures { result ≡ is_need statement.now }
{
    matches!(statement, Stmt::Need(_))
}

/// Whether the statement is a Try.
pub(crate) fn is_try(statement: &Stmt) -> bool
    ensures { result ≡ is_try statement.now }
{
    matches!(statement, Stmt::Try(_))
}

/// Whether the statement asks for a refill.
pub(crate) fn is_refill(statement: &Stmt) -> bool
    ensures { result ≡ is_refill statement.now }
{
    is_need(statement) || is_try(statement)
}
