//! The passes that leave few states, registers and operations of an automaton.
ghost use Rattle.std.specs.Prelude.{◌≡◌, ◌≤◌, IfOk, true};
ghost use Rattle.lx_auto.specs.Automaton.{IsAuto};
ghost use Rattle.lx_auto.specs.SameRun.{HasSameRun};
ghost use Rattle.lx_auto.specs.Shapes.{StaysWithin};
ghost use Rattle.lx_compile.specs.Reduced.{IsReduced};

use lx_auto::Auto;
use lx_base::Memory;
use lx_min::minimize;
use lx_regs::allocate;
use std::alloc::Global;

/// Whether there is no register that an operation could write.
fn has_no_registers(auto: &Auto) -> bool
    ensures { result ≡ true → (auto.now.regs ≡ 0) × (auto.now.mregs ≤ 1) }
{
    auto.regs == 0 && auto.mregs <= 1
}

/// The automaton with few operations, registers and states that runs as the given one. Where there is no register, there is no operation.
pub(crate) fn reduced(alloc: Global, auto: Auto) -> Result<Auto, Memory>
    requires { IsAuto auto }
    ensures formed { IfOk result IsAuto }
    ensures run { IfOk result (λ answer. HasSameRun answer auto) }
    ensures within { IfOk result (λ answer. StaysWithin auto answer) }
    ensures reduced { IfOk result IsReduced }
{
    if has_no_registers(&auto) {
        return minimize(alloc, auto);
    }
    let few = allocate(alloc, auto)?;
    minimize(alloc, few)
}
