//! The statements of operations.
ghost use Rattle.std.specs.Prelude.{◌≡◌, ◌≤◌, [], ◌++◌, OnOk};
ghost use Rattle.lx_base.specs.declared.limits.TheConstants.{REGISTER_LIMIT};
ghost use Rattle.lx_auto.specs.Automaton.{AreOps};
ghost use Rattle.lx_layout.specs.Codes.{list_code, op_code, ops_code};
ghost use Rattle.lx_layout.specs.Numbers.{AreBelow, IsBelow};

use lx_auto::{Auto, Op};
use lx_base::Memory;
use lx_ccode::Stmt;
use lx_sequence::sequence;
use std::alloc::Global;

/// The statement of an operation. Statements count registers from 1 and histories from 0.
fn op_code(op: &Op) -> Stmt
    requires { IsBelow REGISTER_LIMIT op.now }
    ensures { result ≡ op_code op.now }
{
    match *op {
        Op::Here(reg) => Stmt::Set(reg + 1),
        Op::Null(reg) => Stmt::Unset(reg + 1),
        Op::Copy(reg, source) => Stmt::Copy(reg + 1, source + 1),
        Op::MHere(mreg) => Stmt::MSet(mreg),
        Op::MNull(mreg) => Stmt::MUnset(mreg),
        Op::MCopy(mreg, source) => Stmt::MCopy(mreg, source),
    }
}

/// Appends the statements of operations that act one by one.
pub(crate) fn append_ops(stmts: &mut Vec<Stmt>, ops: &[Op]) -> Result<(), Memory>
    requires { AreBelow REGISTER_LIMIT ops.now }
    ensures { OnOk result (stmts.new.items ≡ stmts.old.items ++ ops_code ops.now []) }
{
    for op in ops {
        stmts.push(op_code(op))?;
    }
    Ok(())
}

/// Appends the statements of operations of an automaton, which act at once,.
pub(crate) fn append_list(
    alloc: Global,
    stmts: &mut Vec<Stmt>,
    auto: &Auto,
    ops: &[Op],
) -> Result<(), Memory>
    requires few { auto.now.regs ≤ 1073741824 }
    requires there { AreOps auto.now.regs auto.now.mregs ops.now }
    ensures { OnOk result (stmts.new.items ≡ stmts.old.items ++ list_code auto.now ops.now []) }
{
    if ops.is_empty() {
        return Ok(());
    }
    let list = sequence(alloc, ops, auto.regs, auto.mregs)?;
    append_ops(stmts, &list)
}
