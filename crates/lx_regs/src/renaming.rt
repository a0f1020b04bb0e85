//! Registers chosen by state.
ghost use Rattle.std.specs.Prelude.{IfOk, IfSome, IsTrue};
ghost use Rattle.lx_auto.specs.Automaton.{IsAuto};
ghost use Rattle.lx_auto.specs.SameRun.{HasSameRun};
ghost use Rattle.lx_regs.specs.LiveSets.{IsLivenessOf};
ghost use Rattle.lx_regs.specs.Shapes.{KeepsShape, StandsFor};
ghost use Rattle.lx_regs.specs.Tested.{CanTest};

use crate::live::{Liveness, liveness_of};
use crate::name_tables::NameTable;
use crate::proposed::propose;
use crate::translation_test::{Looked, is_translation};
use lx_auto::Auto;
use lx_base::Memory;
use std::alloc::Global;

/// An automaton that is proposed in place of a given one, and the names of that one's registers in it.
#[derive(Drop)]
pub(crate) struct Proposal {
    pub(crate) answer: Auto,
    pub(crate) names: NameTable,
}

/// Whether the proposal may stand for the given automaton.
pub(crate) fn may_stand(
    alloc: Global,
    given: &Auto,
    looked: Looked<'_>,
    proposal: &Proposal,
) -> Result<bool, Memory>
    requires formed { IsAuto given.now }
    requires looked { CanTest given.now proposal.now.names looked }
    ensures { IfOk result (λ may. IsTrue may → StandsFor given.now proposal.now.answer) }
{
    is_translation(alloc, given, looked, &proposal.names, &proposal.answer)
}

/// The automaton that is proposed, if it may stand for the given one.
fn proposed(alloc: Global, given: &Auto, live: &Liveness) -> Result<Option<Auto>, Memory>
    requires formed { IsAuto given.now }
    requires live { IsLivenessOf given.now live.now }
    ensures { IfOk result (λ found. IfSome found (StandsFor given.now)) }
{
    let proposal = propose(alloc, given, live)?;
    let may = may_stand(alloc, given, Looked::Live(live), &proposal)?;
    Ok(may.then_some(proposal.answer))
}

/// The automaton with registers chosen by state, if it may stand for the given one.
fn chosen_by_state(alloc: Global, given: &Auto) -> Result<Option<Auto>, Memory>
    requires { IsAuto given.now }
    ensures { IfOk result (λ found. IfSome found (StandsFor given.now)) }
{
    let live = liveness_of(alloc, given)?;
    proposed(alloc, given, &live)
}

/// The automaton with registers chosen by state, so that few operations are left: what a register of the given automaton holds
/// is held at each state by a register that is chosen there, so that most copies from one to another are not needed.
pub(crate) fn choose_by_state(alloc: Global, auto: Auto) -> Result<Auto, Memory>
    requires { IsAuto auto }
    ensures formed { IfOk result IsAuto }
    ensures run { IfOk result (λ answer. HasSameRun answer auto) }
    ensures kept { IfOk result (λ answer. KeepsShape auto answer) }
{
    match chosen_by_state(alloc, &auto)? {
        Some(answer) => Ok(answer),
        None => Ok(auto),
    }
}
