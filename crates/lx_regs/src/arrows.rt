//! For each state the edges that lead to it.
ghost use Rattle.std.specs.Prelude.{◌≡◌, ◌<◌, All, IfOk, OnOk, length, map};
ghost use Rattle.lx_auto.specs.Automaton.{IsAuto};
ghost use Rattle.lx_auto.specs.declared.automaton.Edge.{Edge as EdgeValue};
ghost use Rattle.lx_auto.specs.declared.automaton.State.{State as StateValue};
ghost use Rattle.lx_regs.specs.Arrows.{AreArrows, Notes, with_arrow};

use crate::effects::Effects;
use crate::lists::empty_lists;
use lx_auto::{Auto, Edge};
use lx_base::{Memory, Sequence};
use std::alloc::Global;

/// An edge, the state out of which it leads, and what its list reads.
#[derive(Drop)]
pub(crate) struct Arrow<'a> {
    pub state: u32,
    pub edge: &'a Edge,
    pub reader: Effects<'a>,
}

/// Notes an arrow in the list of its target.
fn note<'a>(lists: &mut Vec<Sequence<Arrow<'a>>>, arrow: Arrow<'a>) -> Result<(), Memory>
    requires { arrow.edge.now.to < length lists.old.items }
    ensures { OnOk result (lists.new.items ≡ with_arrow lists.old.items arrow.entry) }
{
    lists[arrow.edge.to as usize].push(arrow)
}

/// Notes the edges of a state.
fn note_edges<'a>(
    alloc: Global,
    lists: &mut Vec<Sequence<Arrow<'a>>>,
    state: u32,
    edges: &'a [Edge],
) -> Result<(), Memory>
    requires { All (λ (edge : EdgeValue). edge.to < length lists.old.items) edges.now }
    ensures { OnOk result (Notes state edges.now lists.old.items lists.new.items) }
{
    for edge in edges {
        let reader = Effects::of(alloc, edge.ops.as_slice())?;
        note(
            lists,
            Arrow {
                state,
                edge,
                reader,
            },
        )?;
    }
    Ok(())
}

/// For each state what its list reads where it is left.
pub(crate) fn leaves_of(alloc: Global, auto: &Auto) -> Result<Vec<Effects<'_>>, Memory>
    ensures { IfOk result (λ leaves. leaves.items ≡ map (λ (state : StateValue). state.leave) auto.now.states) }
{
    let mut leaves = Vec::new(alloc);
    for state in auto.states.as_slice() {
        leaves.push(Effects::of(alloc, state.leave.as_slice())?)?;
    }
    Ok(leaves)
}

/// For each state the edges that lead to it.
pub(crate) fn arrows_of(alloc: Global, auto: &Auto) -> Result<Vec<Sequence<Arrow<'_>>>, Memory>
    requires { IsAuto auto.now }
    ensures { IfOk result (λ lists. AreArrows auto.now (length auto.now.states) lists.items) }
{
    let states = auto.states.as_slice();
    let mut lists = empty_lists(alloc, states.len())?;
    for (number, state) in states.iter().enumerate() {
        note_edges(alloc, &mut lists, number as u32, state.edges.as_slice())?;
    }
    Ok(lists)
}
