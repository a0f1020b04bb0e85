//! Lists that write registers in ascending order, in which what happens to a register is found by halves, without an index.
ghost use Rattle.std.specs.Prelude.{◌≡◌, IsTrue};
ghost use Rattle.lx_auto.specs.Effects.{effect_of};
ghost use Rattle.lx_auto.specs.declared.automaton.Held.TheVariants.{Reg};
ghost use Rattle.lx_regs.specs.EffectIndexes.{single_effect};
ghost use Rattle.lx_regs.specs.OrderedOps.{Ascend, number_of, writes_register};

use crate::effects::{Single, single_behind};
use lx_auto::Op;

/// The number of the register or the m-register that an operation writes.
pub(crate) fn number_of(op: Op) -> u32
    ensures { result ≡ number_of op }
{
    match op {
        Op::Here(target) | Op::Null(target) | Op::Copy(target, _) => target,
        Op::MHere(target) | Op::MNull(target) | Op::MCopy(target, _) => target,
    }
}

/// Whether an operation writes a register.
fn writes_register(op: Op) -> bool
    ensures { result ≡ writes_register op }
{
    match op {
        Op::Here(_) | Op::Null(_) | Op::Copy(_, _) => true,
        Op::MHere(_) | Op::MNull(_) | Op::MCopy(_, _) => false,
    }
}

/// Whether a list writes registers alone, each of a greater number than those before.
pub(crate) fn ascend(ops: &[Op]) -> bool
    ensures { IsTrue result → Ascend ops.now }
{
    let mut least = 0u64;
    for op in ops {
        let number = u64::from(number_of(*op));
        if !writes_register(*op) || number < least {
            return false;
        }
        least = number + 1;
    }
    true
}

/// What a list in ascending order does to a register.
pub(crate) fn single_by_halves(ops: &[Op], reg: u32) -> Single
    requires { Ascend ops.now }
    ensures { single_effect result ≡ effect_of ops.now (Reg reg) }
{
    let (mut low, mut high) = (0, ops.len());
    while low < high {
        let middle = low + (high - low) / 2;
        let op = ops[middle];
        let number = number_of(op);
        if reg < number {
            high = middle;
        } else if number < reg {
            low = middle + 1;
        } else {
            return single_behind(op, reg, Single::From(reg));
        }
    }
    Single::From(reg)
}

/// The same of a register that is looked for at a place first.
pub(crate) fn single_near(ops: &[Op], reg: u32, place: usize) -> Single
    requires { Ascend ops.now }
    ensures { single_effect result ≡ effect_of ops.now (Reg reg) }
{
    if place < ops.len() {
        let op = ops[place];
        if number_of(op) == reg {
            return single_behind(op, reg, Single::From(reg));
        }
    }
    single_by_halves(ops, reg)
}

/// The first place from a given one on at which a list writes no register of a lesser number. No clause says so: it is where a register is
/// looked for first.
pub(crate) fn place_from(ops: &[Op], place: usize, number: u32) -> usize {
    let mut at = place;
    while at < ops.len() && number_of(ops[at]) < number {
        at += 1;
    }
    at
}
