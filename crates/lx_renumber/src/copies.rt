//! Automata with greater numbers of rules.
ghost use Rattle.std.specs.Prelude.{◌≡◌, IfOk, IfSome, IsSome};
ghost use Rattle.lx_renumber.specs.Renumbered.{Fits, StateFits, renumbered, renumbered_state};

use lx_auto::{Accept, Auto, Edge, Ops, State};
use lx_base::{Memory, Sequence};
use lx_shared::Shared;
use std::alloc::Global;

/// The same operations.
fn copied_ops(alloc: Global, ops: &Ops) -> Result<Ops, Memory>
    ensures { IfOk result (λ copy. copy ≡ ops.now) }
{
    let mut copy = Ops::new(alloc);
    for op in ops.as_slice() {
        copy.push(*op)?;
    }
    Ok(copy)
}

/// The same edges.
fn copied_edges(alloc: Global, edges: &[Edge]) -> Result<Sequence<Edge>, Memory>
    ensures { IfOk result (λ copy. copy ≡ edges.now) }
{
    let mut copy = Vec::with_capacity(alloc, edges.len())?;
    for edge in edges {
        copy.push(Edge {
            lo: edge.lo,
            hi: edge.hi,
            ops: copied_ops(alloc, &edge.ops)?,
            to: edge.to,
        })?;
    }
    Ok(Sequence::from_vec(copy))
}

/// The state with a greater number of the rule that it accepts, if that fits.
fn copied_state(alloc: Global, state: &State, by: u32) -> Result<Option<State>, Memory>
    ensures copy { IfOk result (λ answer. IfSome answer (λ copy. copy ≡ renumbered_state by state.now)) }
    ensures fits { StateFits by state.now → IfOk result IsSome }
{
    let accept = match &state.accept {
        None => None,
        Some(accept) => {
            let Some(rule) = accept.rule.checked_add(by) else {
                return Ok(None);
            };
            Some(Accept {
                rule,
                ops: copied_ops(alloc, &accept.ops)?,
                values: Sequence::copy_of(alloc, accept.values.as_slice())?,
            })
        }
    };
    Ok(Some(State {
        edges: copied_edges(alloc, state.edges.as_slice())?,
        accept,
        leave: copied_ops(alloc, &state.leave)?,
    }))
}

/// A copy of an automaton in which each number of a rule is greater by so much. `None` where one does not fit into 32 bits.
fn copied_auto(alloc: Global, auto: &Auto, by: u32) -> Result<Option<Auto>, Memory>
    ensures copy { IfOk result (λ answer. IfSome answer (λ copy. copy ≡ renumbered by auto.now)) }
    ensures fits { Fits by auto.now → IfOk result IsSome }
{
    let states = auto.states.as_slice();
    let mut copies = Vec::with_capacity(alloc, states.len())?;
    for state in states {
        let Some(copy) = copied_state(alloc, state, by)? else {
            return Ok(None);
        };
        copies.push(copy)?;
    }
    Ok(Some(Auto {
        states: Sequence::from_vec(copies),
        regs: auto.regs,
        mregs: auto.mregs,
    }))
}

/// The automaton in which each number of a rule is greater by so much: the same one, shared, where that is nothing, and else a copy.
/// `None` only where a number does not fit into 32 bits.
pub fn renumbered(
    alloc: Global,
    auto: &Shared<Auto>,
    by: u32,
) -> Result<Option<Shared<Auto>>, Memory>
    ensures copy { IfOk result (λ answer. IfSome answer (λ copy. copy ≡ renumbered by auto.now)) }
    ensures fits { Fits by auto.now → IfOk result IsSome }
{
    if by == 0 {
        return Ok(Some(auto.share()?));
    }
    match copied_auto(alloc, auto.get(), by)? {
        None => Ok(None),
        Some(copy) => Ok(Some(Shared::of(alloc, copy)?)),
    }
}
