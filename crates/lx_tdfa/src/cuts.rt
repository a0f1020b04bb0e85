//! The units at which steps may change.
ghost use Rattle.std.specs.Prelude.{◌≡◌, ◌<◌, length, IfOk, MatchOption, Some, slice_get};
ghost use Rattle.lx_tnfa.specs.Closure.{AllPlaces};
ghost use Rattle.lx_tdfa.specs.Edges.{CutSteps, IsAscending, IsRangeEmpty, IsRangeEnd};

use lx_base::Memory;
use lx_tnfa::{Reach, Target, Tnfa};
use std::alloc::Global;

/// Zero and the cuts of all leaves among the targets, in no order.
fn gathered_cuts(alloc: Global, t: &Tnfa, reaches: &[Reach]) -> Result<Vec<u32>, Memory>
    requires { AllPlaces t.now reaches.now }
    ensures { IfOk result (λ cuts. CutSteps t.now reaches.now cuts.items × (slice_get cuts.items 0 ≡ Some 0)) }
{
    let mut cuts = Vec::new(alloc);
    cuts.push(0)?;
    for reach in reaches {
        if let Target::Leaf(place) = &reach.to {
            cuts.extend_from_slice(t.unit_cuts(place))?;
        }
    }
    Ok(cuts)
}

/// Zero and the cuts of all leaves among the targets, in ascending order. Its only error is want of memory.
pub fn merged_cuts(alloc: Global, t: &Tnfa, reaches: &[Reach]) -> Result<Vec<u32>, Memory>
    requires { AllPlaces t.now reaches.now }
    ensures cuts { IfOk result (λ cuts. CutSteps t.now reaches.now cuts.items) }
    ensures first { IfOk result (λ cuts. slice_get cuts.items 0 ≡ Some 0) }
    ensures ascending { IfOk result (λ cuts. IsAscending cuts.items) }
{
    let mut cuts = gathered_cuts(alloc, t, reaches)?;
    cuts.sort_unstable();
    Ok(cuts)
}

/// The greatest unit, up to a bound, before the next cut; nothing where none is left between them. It takes no
/// memory.
pub fn last_unit(cuts: &[u32], index: usize, greatest: u32) -> Option<u32>
    requires { index < length cuts.now }
    ensures { MatchOption result (IsRangeEmpty cuts.now index greatest) (IsRangeEnd cuts.now index greatest) }
{
    let last = match cuts.get(index + 1) {
        Some(next) if *next == 0 => return None,
        Some(next) => greatest.min(*next - 1),
        None => greatest,
    };
    if cuts[index] <= last {
        Some(last)
    } else {
        None
    }
}
