//! Registers are shared until no operation copies one to itself.
ghost use Rattle.std.specs.Prelude.{◌≡◌, ◌<◌, IfOk, true};
ghost use Rattle.std.specs.List.{list_any};
ghost use Rattle.lx_auto.specs.Automaton.{IsAuto};
ghost use Rattle.lx_auto.specs.Live.{AllInterfere, EachTargetIsRead};
ghost use Rattle.lx_auto.specs.SameRun.{HasSameRun};
ghost use Rattle.lx_regs.specs.IdleOps.{count_in, some_itself_at};
ghost use Rattle.lx_regs.specs.Shapes.{KeepsShape};
ghost use Rattle.lx_regs.specs.WrittenBeside.{AllMayInterfere};

use crate::dead::drop_dead;
use crate::idle_ops::some_at_states;
use crate::sharing::share_registers;
use lx_auto::Auto;
use lx_base::Memory;
use std::alloc::Global;

/// The automaton without copies of registers to themselves, where registers that do not interfere without these are one.
fn share_again(alloc: Global, auto: Auto) -> Result<Auto, Memory>
    requires { IsAuto auto }
    ensures formed { IfOk result IsAuto }
    ensures run { IfOk result (λ answer. HasSameRun answer auto) }
    ensures apart { IfOk result AllMayInterfere }
    ensures read { IfOk result EachTargetIsRead }
    ensures kept { IfOk result (λ answer. KeepsShape auto answer) }
    ensures fewer { IfOk result (λ answer. list_any some_itself_at auto.states ≡ true → count_in answer.states < count_in auto.states) }
{
    let fewer = drop_dead(alloc, auto)?;
    share_registers(alloc, fewer)
}

/// The automaton in which registers that do not interfere are one, and none is copied to itself. A copy between registers that become one
/// goes, and what interfered by it alone is shared in the next round.
pub(crate) fn share_all(alloc: Global, auto: Auto) -> Result<Auto, Memory>
    requires formed { IsAuto auto }
    requires read { EachTargetIsRead auto }
    ensures formed { IfOk result IsAuto }
    ensures run { IfOk result (λ answer. HasSameRun answer auto) }
    ensures apart { IfOk result AllInterfere }
    ensures read { IfOk result EachTargetIsRead }
    ensures kept { IfOk result (λ answer. KeepsShape auto answer) }
{
    let mut shared = share_registers(alloc, auto)?;
    'rounds: while some_at_states(shared.states.as_slice()) {
        let next = share_again(alloc, shared)?;
        shared = next;
    }
    Ok(shared)
}
