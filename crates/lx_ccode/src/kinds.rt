//! What sorts of statements a piece of format 3 has.
ghost use Rattle.std.specs.Prelude.{◌≡◌};
ghost use Rattle.std.specs.List.{list_any};
ghost use Rattle.lx_ccode.specs.Statements.{all_statements, ends_in_code, has_accept, has_unit, is_code, is_leave};

use crate::piece::{CodeBlock, Stmt};

/// The statement reads the current unit, or asks it.
fn has_unit(statement: &Stmt) -> bool
    ensures { result ≡ has_unit statement.now }
{
    matches!(
        statement,
        Stmt::Peek | Stmt::IfUnit(_, _) | Stmt::IfIs(_, _) | Stmt::IfSet(_, _) | Stmt::Switch(_, _)
    )
}

/// The statement keeps the number of an accepting state, or asks it.
fn has_accept(statement: &Stmt) -> bool
    ensures { result ≡ has_accept statement.now }
{
    matches!(statement, Stmt::Accept(_) | Stmt::IfAccept(_, _))
}

fn is_leave(statement: &Stmt) -> bool
    ensures { result ≡ is_leave statement.now }
{
    matches!(statement, Stmt::Leave)
}

fn is_code(statement: &Stmt) -> bool
    ensures { result ≡ is_code statement.now }
{
    matches!(statement, Stmt::Code(_, _, _))
}

fn any_has_unit(statements: &[Stmt]) -> bool
    ensures { result ≡ list_any has_unit statements.now }
{
    for statement in statements {
        if has_unit(statement) {
            return true;
        }
    }
    false
}

fn any_has_accept(statements: &[Stmt]) -> bool
    ensures { result ≡ list_any has_accept statements.now }
{
    for statement in statements {
        if has_accept(statement) {
            return true;
        }
    }
    false
}

fn any_is_leave(statements: &[Stmt]) -> bool
    ensures { result ≡ list_any is_leave statements.now }
{
    for statement in statements {
        if is_leave(statement) {
            return true;
        }
    }
    false
}

/// A statement of the blocks reads the current unit, or asks it. It takes no memory.
pub(crate) fn have_unit(blocks: &[CodeBlock]) -> bool
    ensures { result ≡ list_any has_unit (all_statements blocks.now) }
{
    for block in blocks {
        if any_has_unit(block.stmts.as_slice()) {
            return true;
        }
    }
    false
}

/// A statement of the blocks keeps the number of an accepting state, or asks it. It takes no memory.
pub(crate) fn have_accept(blocks: &[CodeBlock]) -> bool
    ensures { result ≡ list_any has_accept (all_statements blocks.now) }
{
    for block in blocks {
        if any_has_accept(block.stmts.as_slice()) {
            return true;
        }
    }
    false
}

/// A statement of the blocks ends the match without a rule. It takes no memory.
pub(crate) fn have_leave(blocks: &[CodeBlock]) -> bool
    ensures { result ≡ list_any is_leave (all_statements blocks.now) }
{
    for block in blocks {
        if any_is_leave(block.stmts.as_slice()) {
            return true;
        }
    }
    false
}

/// The last statement is a user's action. It takes no memory.
pub fn ends_in_code(statements: &[Stmt]) -> bool
    ensures { result ≡ ends_in_code statements.now }
{
    match statements.last() {
        None => false,
        Some(statement) => is_code(statement),
    }
}
