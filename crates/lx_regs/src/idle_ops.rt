//! Operations that copy a register to itself.
ghost use Rattle.std.specs.Prelude.{◌≡◌};
ghost use Rattle.std.specs.List.{list_any};
ghost use Rattle.lx_auto.specs.Effects.{copies_itself};
ghost use Rattle.lx_regs.specs.IdleOps.{some_itself, some_itself_at, some_itself_by};

use lx_auto::{Accept, Edge, Op, State};

/// Whether an operation copies a register, or an m-register, to itself.
pub(crate) fn copies_itself(op: Op) -> bool
    ensures { result ≡ copies_itself op }
{
    match op {
        Op::Copy(target, source) | Op::MCopy(target, source) => target == source,
        Op::Here(_) | Op::Null(_) | Op::MHere(_) | Op::MNull(_) => false,
    }
}

/// Whether some operation of a list does.
fn some_of_ops(ops: &[Op]) -> bool
    ensures { result ≡ list_any copies_itself ops.now }
{
    for op in ops {
        if copies_itself(*op) {
            return true;
        }
    }
    false
}

/// The same of the lists of edges.
fn some_on_edges(edges: &[Edge]) -> bool
    ensures { result ≡ list_any some_itself edges.now }
{
    for edge in edges {
        if some_of_ops(edge.ops.as_slice()) {
            return true;
        }
    }
    false
}

/// The same of what is accepted, if something is.
fn some_of_accept(accept: &Option<Accept>) -> bool
    ensures { result ≡ some_itself_by accept.now }
{
    match accept {
        Some(accept) => some_of_ops(accept.ops.as_slice()),
        None => false,
    }
}

/// The same of a state.
fn some_at_state(state: &State) -> bool
    ensures { result ≡ some_itself_at state.now }
{
    some_of_ops(state.leave.as_slice())
        || some_of_accept(&state.accept)
        || some_on_edges(state.edges.as_slice())
}

/// The same of states.
pub(crate) fn some_at_states(states: &[State]) -> bool
    ensures { result ≡ list_any some_itself_at states.now }
{
    for state in states {
        if some_at_state(state) {
            return true;
        }
    }
    false
}
