//! Which registers are copied into one another.
ghost use Rattle.std.specs.Prelude.{◌↔◌, IfOk, IsTrue, OnOk};
ghost use Rattle.lx_regs.specs.HeldGraphs.{IsHeldGraph, IsThere};

use crate::held_graphs::HeldGraph;
use lx_auto::{Accept, Auto, Edge, Held, Op, State};
use lx_base::Memory;
use std::alloc::Global;

/// Whether a graph has such a register or m-register. It takes no memory.
fn is_there(graph: &HeldGraph, held: Held) -> bool
    ensures { IsTrue result ↔ IsThere graph.now held }
{
    match held {
        Held::Reg(reg) => (reg as usize) < graph.regs.size(),
        Held::MReg(mreg) => mreg as usize <= graph.mregs.size(),
    }
}

/// Makes a register and its source neighbours.
fn note_copy(graph: &mut HeldGraph, target: Held, source: Held) -> Result<(), Memory>
    requires { IsHeldGraph graph.old }
    ensures { OnOk result (IsHeldGraph graph.new) }
{
    if is_there(graph, target) && is_there(graph, source) {
        graph.note(target, source)?;
    }
    Ok(())
}

/// Makes those neighbours that an operation of a list copies into one another.
fn note_copies(graph: &mut HeldGraph, ops: &[Op]) -> Result<(), Memory>
    requires { IsHeldGraph graph.old }
    ensures { OnOk result (IsHeldGraph graph.new) }
{
    for op in ops {
        match *op {
            Op::Copy(target, source) => note_copy(graph, Held::Reg(target), Held::Reg(source))?,
            Op::MCopy(target, source) => note_copy(graph, Held::MReg(target), Held::MReg(source))?,
            _ => {}
        }
    }
    Ok(())
}

/// The same of the lists of edges.
fn note_edges(graph: &mut HeldGraph, edges: &[Edge]) -> Result<(), Memory>
    requires { IsHeldGraph graph.old }
    ensures { OnOk result (IsHeldGraph graph.new) }
{
    for edge in edges {
        note_copies(graph, edge.ops.as_slice())?;
    }
    Ok(())
}

/// The same of the list of what is accepted, if something is.
fn note_accept(graph: &mut HeldGraph, accept: &Option<Accept>) -> Result<(), Memory>
    requires { IsHeldGraph graph.old }
    ensures { OnOk result (IsHeldGraph graph.new) }
{
    match accept {
        Some(accept) => note_copies(graph, accept.ops.as_slice()),
        None => Ok(()),
    }
}

/// The same of the lists of a state.
fn note_state(graph: &mut HeldGraph, state: &State) -> Result<(), Memory>
    requires { IsHeldGraph graph.old }
    ensures { OnOk result (IsHeldGraph graph.new) }
{
    note_edges(graph, state.edges.as_slice())?;
    note_accept(graph, &state.accept)?;
    note_copies(graph, state.leave.as_slice())
}

/// The graph in which those are neighbours that some list copies into one another.
pub(crate) fn copies_of(alloc: Global, auto: &Auto) -> Result<HeldGraph, Memory>
    ensures { IfOk result IsHeldGraph }
{
    let mut graph = HeldGraph::new(alloc, auto.regs, auto.mregs)?;
    for state in auto.states.as_slice() {
        note_state(&mut graph, state)?;
    }
    Ok(graph)
}
