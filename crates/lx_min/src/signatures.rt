//! What is known of a state in a round of refinement.
ghost use Rattle.std.specs.Prelude.{◌≡◌, IfOk};
ghost use Rattle.lx_min.specs.Joined.{class_in};
ghost use Rattle.lx_min.specs.Signatures.{seen_sign, sign_of};

use crate::joined::{Step, class_in, joined};
use crate::looks::Look;
use lx_base::Memory;
use std::alloc::Global;

/// What is known of a state, by the class of each state.
#[derive(PartialEq, Eq, Hash, Drop)]
pub(crate) struct Signature {
    /// Its class.
    pub class: u32,
    /// The number of what it accepts.
    pub accept: usize,
    /// Its edges as steps to classes, where neighbours that do the same are one.
    pub steps: Vec<Step>,
}

/// The signature of a state.
pub(crate) fn signature_of(
    alloc: Global,
    classes: &[u32],
    look: &Look,
    state: u32,
) -> Result<Signature, Memory>
    ensures { IfOk result (λ signature. seen_sign signature ≡ sign_of (class_in classes.now) look.now state) }
{
    Ok(Signature {
        class: class_in(classes, state),
        accept: look.accept,
        steps: joined(alloc, classes, look.ways.as_slice())?,
    })
}
