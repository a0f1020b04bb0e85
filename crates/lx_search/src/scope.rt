//! The states through which a search passes.
ghost use Rattle.std.specs.Prelude.{◌≡◌, ◌<◌, is_some, length};
ghost use Rattle.lx_auto.specs.Automaton.{state_of};
ghost use Rattle.lx_search.specs.Scopes.{accepts as state_accepts, is_outside as state_is_outside};

use lx_auto::Auto;

/// Through which states a search passes. It begins at the start, whatever that accepts.
#[derive(Clone, Copy)]
pub enum Scope {
    /// Through all.
    Every,
    /// Through those that accept nothing.
    Quiet,
}

/// Whether a state accepts.
pub fn accepts(auto: &Auto, state: u32) -> bool
    requires { state < length auto.now.states }
    ensures { result ≡ state_accepts auto.now state }
{
    let state = &auto.states.as_slice()[state as usize];
    state.accept.is_some()
}

/// Whether a search does not pass through a state.
pub(crate) fn is_outside(scope: Scope, auto: &Auto, state: u32) -> bool
    requires { state < length auto.now.states }
    ensures { result ≡ state_is_outside scope auto.now state }
{
    match scope {
        Scope::Every => false,
        Scope::Quiet => accepts(auto, state),
    }
}
