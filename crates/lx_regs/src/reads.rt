//! What lists of operations read.
ghost use Rattle.std.specs.Prelude.{◌≡◌};
ghost use Rattle.lx_auto.specs.Effects.{effect_of, origin_after, origin_behind};
ghost use Rattle.lx_auto.specs.declared.automaton.Held.TheVariants.{Reg as RegValue};
ghost use Rattle.lx_regs.specs.Reads.{read_behind, read_by};

use lx_auto::{Held, Op};

/// What is read for a register behind an operation, where `read` is what was read before.
fn read_behind(op: Op, reg: u32, read: Option<Held>) -> Option<Held>
    ensures { result ≡ read_behind op reg read }
{
    match op {
        Op::Here(target) if target == reg => None,
        Op::Null(target) if target == reg => None,
        Op::Copy(target, source) if target == reg => Some(Held::Reg(source)),
        _ => read,
    }
}

/// Whose history an m-register has behind an operation, where `origin` is whose it had before.
fn origin_behind(op: Op, mreg: u32, origin: u32) -> u32
    ensures { result ≡ origin_behind op mreg origin }
{
    match op {
        Op::MCopy(target, source) if target == mreg => source,
        _ => origin,
    }
}

/// What a list reads for a register.
fn read_for_reg(ops: &[Op], reg: u32) -> Option<Held>
    ensures { result ≡ read_by (effect_of ops.now (RegValue reg)) }
{
    let mut read = Some(Held::Reg(reg));
    for op in ops {
        read = read_behind(*op, reg, read);
    }
    read
}

/// Whose history a list gives an m-register.
fn origin_of(ops: &[Op], mreg: u32) -> u32
    ensures { result ≡ origin_after ops.now mreg mreg }
{
    let mut origin = mreg;
    for op in ops {
        origin = origin_behind(*op, mreg, origin);
    }
    origin
}

/// What a list reads for a register or an m-register, if it reads something.
pub(crate) fn read_of(ops: &[Op], held: Held) -> Option<Held>
    ensures { result ≡ read_by (effect_of ops.now held) }
{
    match held {
        Held::Reg(reg) => read_for_reg(ops, reg),
        Held::MReg(mreg) => Some(Held::MReg(origin_of(ops, mreg))),
    }
}
