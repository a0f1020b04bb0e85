//! How many registers and histories a piece has.
ghost use Rattle.std.specs.Prelude.{◌≡◌, ◌≤◌, max};
ghost use Rattle.lx_ccode.specs.Counts.{greatest_of, groups_in, history_in, mregs_of, register_in, regs_of, table_size};
ghost use Rattle.lx_ccode.specs.Statements.{all_statements, has_register_one};

use crate::piece::{CodeBlock, Stmt};

/// The greatest number of a register that the statement names, or 0.
fn register_in(statement: &Stmt) -> u32
    ensures { result ≡ register_in statement.now }
{
    match statement {
        Stmt::Set(register)
        | Stmt::Unset(register)
        | Stmt::Tag(_, false, register)
        | Stmt::End(_, register)
        | Stmt::Back(register) => *register,
        Stmt::Copy(register, source) => (*register).max(*source),
        _ => 0,
    }
}

/// Whether the statement names register 1. It takes no memory.
pub fn has_register_one(statement: &Stmt) -> bool
    ensures { result ≡ has_register_one statement.now }
{
    match statement {
        Stmt::Set(register)
        | Stmt::Unset(register)
        | Stmt::Tag(_, false, register)
        | Stmt::End(_, register)
        | Stmt::Back(register) => *register == 1,
        Stmt::Copy(register, source) => *register == 1 || *source == 1,
        _ => false,
    }
}

/// One more than the greatest number of a history that the statement names, or 0.
fn history_in(statement: &Stmt) -> u64
    ensures { result ≡ history_in statement.now }
{
    match statement {
        Stmt::MSet(history) | Stmt::MUnset(history) | Stmt::Tag(_, true, history) => {
            u64::from(*history) + 1
        }
        Stmt::MCopy(history, source) => u64::from((*history).max(*source)) + 1,
        _ => 0,
    }
}

fn greatest_register(statements: &[Stmt]) -> u32
    ensures { result ≡ greatest_of register_in statements.now }
{
    let mut greatest = 0;
    for statement in statements {
        greatest = register_in(statement).max(greatest);
    }
    greatest
}

fn greatest_history(statements: &[Stmt]) -> u64
    ensures { result ≡ greatest_of history_in statements.now }
{
    let mut greatest = 0;
    for statement in statements {
        greatest = history_in(statement).max(greatest);
    }
    greatest
}

/// How many groups of eight sets there are up to the set that the statement asks, or 0.
fn groups_in(statement: &Stmt) -> u64
    ensures size { result ≡ groups_in statement.now }
    ensures few { result ≤ 536870912 }
{
    match statement {
        Stmt::IfSet(set, _) => u64::from(*set) / 8 + 1,
        _ => 0,
    }
}

fn greatest_group(statements: &[Stmt]) -> u64
    ensures size { result ≡ greatest_of groups_in statements.now }
    ensures few { result ≤ 536870912 }
{
    let mut greatest = 0;
    for statement in statements {
        greatest = groups_in(statement).max(greatest);
    }
    greatest
}

/// How many bytes the table of the blocks' sets has. It takes no memory.
pub fn table_size(blocks: &[CodeBlock]) -> u64
    ensures { result ≡ table_size blocks.now }
{
    256 * groups_of(blocks)
}

fn groups_of(blocks: &[CodeBlock]) -> u64
    ensures size { result ≡ greatest_of groups_in (all_statements blocks.now) }
    ensures few { result ≤ 536870912 }
{
    let mut greatest = 0;
    for block in blocks {
        greatest = greatest_group(block.stmts.as_slice()).max(greatest);
    }
    greatest
}

/// The greatest number of a register in the blocks, or 0.
pub fn regs_of(blocks: &[CodeBlock]) -> u32
    ensures { result ≡ regs_of blocks.now }
{
    let mut greatest = 0;
    for block in blocks {
        greatest = greatest_register(block.stmts.as_slice()).max(greatest);
    }
    greatest
}

/// One more than the greatest number of a history in the blocks, or 0.
pub fn mregs_of(blocks: &[CodeBlock]) -> u64
    ensures { result ≡ mregs_of blocks.now }
{
    let mut greatest = 0;
    for block in blocks {
        greatest = greatest_history(block.stmts.as_slice()).max(greatest);
    }
    greatest
}
