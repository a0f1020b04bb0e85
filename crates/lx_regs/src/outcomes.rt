//! What lists of operations do to one register.
ghost use Rattle.std.specs.Prelude.{◌≡◌, IfOk};
ghost use Rattle.lx_auto.specs.Effects.{effect_of, effect_of_both};
ghost use Rattle.lx_regs.specs.Outcomes.{effect_seen};

use crate::effects::{Effects, Single};
use lx_auto::Held;
use lx_base::{Memory, Sequence};
use std::alloc::Global;

/// What one list or two do to a register or an m-register.
#[derive(Drop)]
pub(crate) enum Outcome {
    /// It gets the offset.
    Offset,
    /// It gets nothing.
    Unset,
    /// It gets what the register with this number held.
    Register(u32),
    /// It gets the history that the m-register with this number held, and marks behind it, of which each is the offset or nothing.
    History(u32, Sequence<bool>),
}

/// What two lists, one behind the other at one offset, do to a register or an m-register.
pub(crate) fn outcome_of(
    alloc: Global,
    first: &Effects<'_>,
    second: &Effects<'_>,
    held: Held,
) -> Result<Outcome, Memory>
    ensures { IfOk result (λ outcome. effect_seen outcome ≡ effect_of_both first.now second.now held) }
{
    match held {
        Held::Reg(reg) => Ok(match second.single(reg) {
            Single::Now => Outcome::Offset,
            Single::Never => Outcome::Unset,
            Single::From(middle) => match first.single(middle) {
                Single::Now => Outcome::Offset,
                Single::Never => Outcome::Unset,
                Single::From(source) => Outcome::Register(source),
            },
        }),
        Held::MReg(mreg) => {
            let middle = second.origin(mreg);
            let mut marks = Sequence::new(alloc);
            first.push_marks(&mut marks, middle)?;
            second.push_marks(&mut marks, mreg)?;
            Ok(Outcome::History(first.origin(middle), marks))
        }
    }
}

/// What a list alone does to a register or an m-register.
pub(crate) fn outcome_of_one(
    alloc: Global,
    effects: &Effects<'_>,
    held: Held,
) -> Result<Outcome, Memory>
    ensures { IfOk result (λ outcome. effect_seen outcome ≡ effect_of effects.now held) }
{
    let none = Effects::of(alloc, &[])?;
    outcome_of(alloc, &none, effects, held)
}
