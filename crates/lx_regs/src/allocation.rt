//! Few registers.
ghost use Rattle.std.specs.Prelude.{IfOk};
ghost use Rattle.lx_auto.specs.Automaton.{IsAuto};
ghost use Rattle.lx_auto.specs.Live.{EachTargetIsRead};
ghost use Rattle.lx_auto.specs.SameRun.{HasSameRun};
ghost use Rattle.lx_auto.specs.Live.{AllInterfere};
ghost use Rattle.lx_regs.specs.Shapes.{KeepsShape};

use crate::dead::drop_dead;
use crate::folding::{folded, unfolded};
use crate::merging::merge_equal;
use crate::needless_nulls::drop_needless_nulls;
use crate::renaming::choose_by_state;
use crate::sharing_rounds::share_all;
use lx_auto::Auto;
use lx_base::Memory;
use std::alloc::Global;

/// What `allocate` does, on the automaton with one edge for each class.
fn allocate_folded(alloc: Global, auto: Auto) -> Result<Auto, Memory>
    requires { IsAuto auto }
    ensures formed { IfOk result IsAuto }
    ensures run { IfOk result (λ answer. HasSameRun answer auto) }
    ensures apart { IfOk result AllInterfere }
    ensures read { IfOk result EachTargetIsRead }
    ensures kept { IfOk result (λ answer. KeepsShape auto answer) }
{
    let merged = merge_equal(alloc, auto)?;
    let read = drop_dead(alloc, merged)?;
    let chosen = choose_by_state(alloc, read)?;
    let needed = drop_needless_nulls(alloc, chosen)?;
    let live = drop_dead(alloc, needed)?;
    share_all(alloc, live)
}

/// The automaton with few registers and few operations: registers that hold the same are one, what no walk reads is dropped, registers are
/// chosen by state, and registers that do not interfere are one (liveness and interference: Trofimovich 2017; Chaitin and others 1981).
/// All that goes over one edge for each class of a state's edges.
///
/// Any two registers of one sort that are left interfere. `Memory` may be answered, and no clause ties it to a cause.
pub fn allocate(alloc: Global, auto: Auto) -> Result<Auto, Memory>
    requires { IsAuto auto }
    ensures formed { IfOk result IsAuto }
    ensures run { IfOk result (λ answer. HasSameRun answer auto) }
    ensures apart { IfOk result AllInterfere }
    ensures read { IfOk result EachTargetIsRead }
    ensures kept { IfOk result (λ answer. KeepsShape auto answer) }
{
    let folding = folded(alloc, auto)?;
    let answer = allocate_folded(alloc, folding.auto)?;
    unfolded(alloc, &answer, folding.lists.as_slice())
}
