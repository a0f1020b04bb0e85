//! The closure of a kernel: where its walks begin, the ways that a search finds from there, and their targets.
ghost use Rattle.std.specs.Prelude.{◌≤◌, IfOk, length};
ghost use Rattle.lx_base.specs.declared.limits.TheConstants.{PLACE_LIMIT};
ghost use Rattle.lx_tdfa.specs.Building.{IsBuilt};
ghost use Rattle.lx_posix.specs.Closures.{IsClosure, IsReachedUnder};

use crate::beginnings::beginnings;
use crate::kept::Kept;
use crate::points::Beginning;
use crate::reaches::{Reaches, reaches_of};
use crate::search::{Found, LevelSearch, search};
use crate::starts::starts;
use lx_base::Memory;
use lx_tnfa::Tnfa;
use std::alloc::Global;

/// The first walks from the places of a kernel to all targets, in order.
pub(crate) struct Closure {
    /// Where the walks begin.
    pub beginnings: Vec<Beginning>,
    /// The ways that the search finds.
    pub founds: Vec<Found>,
    /// Their targets.
    pub targets: Reaches,
}

impl Drop for Closure {
    fn drop(self) {
        let Self {
            beginnings: _,
            founds: _,
            targets: _,
        } = self;
    }
}

/// The closure of a kernel, by a search in buffers that the caller lends.
pub(crate) fn closure_of(
    alloc: Global,
    t: &Tnfa,
    buffers: &mut LevelSearch,
    is_first: bool,
    kernel: &[Kept],
) -> Result<Closure, Memory>
    requires built { IsBuilt t.now }
    requires reached { IsReachedUnder t.now is_first kernel.now }
    requires short { length kernel.now ≤ PLACE_LIMIT }
    ensures { IfOk result (IsClosure t.now is_first kernel.now) }
{
    let beginnings = beginnings(alloc, t, is_first, kernel)?;
    let starts = starts(alloc, &beginnings)?;
    let founds = search(alloc, t, buffers, &beginnings, &starts)?;
    let targets = reaches_of(alloc, t, is_first, &beginnings, &founds)?;
    Ok(Closure {
        beginnings,
        founds,
        targets,
    })
}
