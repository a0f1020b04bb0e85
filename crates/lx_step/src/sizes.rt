//! How many groups a rule of a piece may have.
ghost use Rattle.std.specs.Prelude.{◌≡◌, ◌/◌, ◌+◌, max};
ghost use Rattle.lx_ccode.specs.Statements.{all_statements};
ghost use Rattle.lx_step.specs.Sizes.{groups_of, groups_of_all};

use lx_ccode::{CodeBlock, Stmt};

/// The most groups that a statement of the blocks names.
pub(crate) fn groups_of_blocks(blocks: &[CodeBlock]) -> u64
    ensures { result ≡ groups_of_all (all_statements blocks.now) }
{
    let mut groups = 0;
    for block in blocks {
        groups = groups_of_statements(block.stmts.as_slice()).max(groups);
    }
    groups
}

fn groups_of_statements(statements: &[Stmt]) -> u64
    ensures { result ≡ groups_of_all statements.now }
{
    let mut groups = 0;
    for statement in statements {
        groups = groups_of_statement(statement).max(groups);
    }
    groups
}

fn groups_of_statement(statement: &Stmt) -> u64
    ensures { result ≡ groups_of statement.now }
{
    match statement {
        Stmt::Count(groups) => u64::from(*groups),
        Stmt::End(place, _) => u64::from(*place / 2) + 1,
        _ => 0,
    }
}
