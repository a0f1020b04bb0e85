//! From where walks begin.
ghost use Rattle.std.specs.Prelude.{◌≡◌, ◌^◌, ◌<◌, All, IfOk, length};
ghost use Rattle.lx_tnfa.specs.Tnfa.{IsPlace};
ghost use Rattle.lx_posix.specs.Reaching.{beginning_of, beginnings_of, first_beginnings};
ghost use Rattle.lx_posix.specs.KeptKernels.{places_in};

use crate::kept::Kept;
use crate::points::{Beginning, Point};
use lx_base::Memory;
use lx_tnfa::Tnfa;
use std::alloc::Global;

/// The beginnings of the rules.
fn first_beginnings(alloc: Global, t: &Tnfa) -> Result<Vec<Beginning>, Memory>
    ensures { IfOk result (λ beginnings. beginnings.items ≡ first_beginnings t.now) }
{
    let mut beginnings = Vec::new(alloc);
    for begin in t.begins() {
        beginnings.push(Beginning {
            at: Point::State(*begin),
            depth: 1,
            open: 0,
            number: 0,
        })?;
    }
    Ok(beginnings)
}

/// Where walks from a place begin: at the end of its leaf, where that is finished, or else in the middle of the leaf.
fn beginning_of(t: &Tnfa, kept: &Kept) -> Beginning
    requires place { IsPlace t.now kept.now.place }
    requires few { length t.now.states < 2 ^ 32 }
    ensures { result ≡ beginning_of t.now kept.now }
{
    if t.is_finished(&kept.place) {
        Beginning {
            at: Point::State(2 * kept.place.part + 1),
            depth: kept.depth.saturating_sub(1),
            open: kept.depth,
            number: kept.number,
        }
    } else {
        Beginning {
            at: Point::Within(kept.place),
            depth: kept.depth,
            open: kept.depth,
            number: kept.number,
        }
    }
}

/// From where walks begin: from the places of a kernel, and from the rules where it is the first one.
pub(crate) fn beginnings(
    alloc: Global,
    t: &Tnfa,
    is_first: bool,
    kernel: &[Kept],
) -> Result<Vec<Beginning>, Memory>
    requires places { All (IsPlace t.now) (places_in kernel.now) }
    requires few { length t.now.states < 2 ^ 32 }
    ensures { IfOk result (λ beginnings. beginnings.items ≡ beginnings_of t.now is_first kernel.now) }
{
    if is_first {
        return first_beginnings(alloc, t);
    }
    let mut beginnings = Vec::new(alloc);
    for kept in kernel {
        beginnings.push(beginning_of(t, kept))?;
    }
    Ok(beginnings)
}
