//! Whether an automaton needs no more than so many registers and m-registers.
ghost use Rattle.std.specs.Prelude.{◌≡◌, ℕ, true};
ghost use Rattle.lx_auto.specs.Automaton.{AreHeld, AreOps, AreStates, IsAccept, IsHeld, IsOp, IsState, LeadWithin};

use lx_auto::{Accept, Edge, Held, Op, State};

/// Whether an operation names registers below these counts alone. It takes no memory.
fn op_fits(op: Op, regs: u32, mregs: u32) -> bool
    ensures { result ≡ true → IsOp regs mregs op }
{
    match op {
        Op::Here(target) | Op::Null(target) => target < regs,
        Op::Copy(target, source) => target < regs && source < regs,
        Op::MHere(target) | Op::MNull(target) => 0 < target && target < mregs,
        Op::MCopy(target, source) => 0 < target && target < mregs && source < mregs,
    }
}

/// The same of a list.
fn ops_fit(ops: &[Op], regs: u32, mregs: u32) -> bool
    ensures { result ≡ true → AreOps regs mregs ops.now }
{
    for op in ops {
        if !op_fits(*op, regs, mregs) {
            return false;
        }
    }
    true
}

/// Whether a value is held below these counts. It takes no memory.
fn held_fits(held: Held, regs: u32, mregs: u32) -> bool
    ensures { result ≡ true → IsHeld regs mregs held }
{
    match held {
        Held::Reg(reg) => reg < regs,
        Held::MReg(mreg) => mreg < mregs,
    }
}

/// The same of values.
fn values_fit(values: &[Held], regs: u32, mregs: u32) -> bool
    ensures { result ≡ true → AreHeld regs mregs values.now }
{
    for held in values {
        if !held_fits(*held, regs, mregs) {
            return false;
        }
    }
    true
}

/// The same of the lists of edges.
fn edges_fit(edges: &[Edge], regs: u32, mregs: u32) -> bool
    ensures { result ≡ true → (most mmost count : ℕ) → LeadWithin most mmost count edges.now → LeadWithin regs mregs count edges.now }
{
    for edge in edges {
        if !ops_fit(edge.ops.as_slice(), regs, mregs) {
            return false;
        }
    }
    true
}

/// The same of what is accepted, if something is.
fn accept_fits(accept: &Option<Accept>, regs: u32, mregs: u32) -> bool
    ensures { result ≡ true → IsAccept regs mregs accept.now }
{
    match accept {
        Some(accept) => {
            ops_fit(accept.ops.as_slice(), regs, mregs)
                && values_fit(accept.values.as_slice(), regs, mregs)
        }
        None => true,
    }
}

/// The same of a state.
fn state_fits(state: &State, regs: u32, mregs: u32) -> bool
    ensures { result ≡ true → (most mmost count : ℕ) → IsState most mmost count state.now → IsState regs mregs count state.now }
{
    if !edges_fit(state.edges.as_slice(), regs, mregs) {
        return false;
    }
    if !accept_fits(&state.accept, regs, mregs) {
        return false;
    }
    ops_fit(state.leave.as_slice(), regs, mregs)
}

/// The same of states.
pub(crate) fn states_fit(states: &[State], regs: u32, mregs: u32) -> bool
    ensures { result ≡ true → (most mmost count : ℕ) → AreStates most mmost count states.now → AreStates regs mregs count states.now }
{
    for state in states {
        if !state_fits(state, regs, mregs) {
            return false;
        }
    }
    true
}
