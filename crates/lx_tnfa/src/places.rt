//! Places: where a parse may stand.
ghost use Rattle.std.proofs.Common.{rules};
ghost use Rattle.std.specs.Cmp.Rules.{hashing};
ghost use Rattle.std.specs.Hash as fed;
ghost use Rattle.std.specs.Prelude.{◌++◌};

use lx_encode::Residual;
use std::hash::{Hash, Hasher};

/// Where a parse may stand: in a leaf, with what is left of it. Part 0 with residual 0 is the start.
#[derive(Clone, Copy, PartialEq, Eq)]
pub struct Place {
    /// The leaf, or 0 at the start.
    pub part: u32,
    /// What may come next in the leaf. In a leaf that reads any unit it is 1 before the unit and 0 behind it.
    pub rest: Residual,
}

impl Hash for Place {
    ghost hash_input = { λ place. fed.u32 place.part ++ fed.u32 place.rest.0 };

    ghost respects_eq = { Prim.search (hashing, rules) };

    fn hash<H: Hasher>(&self, state: &mut H) {
        self.part.hash(state);
        self.rest.0.hash(state);
    }
}
