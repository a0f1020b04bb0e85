//! The units of a window.
ghost use Rattle.std.specs.Prelude.{◌≡◌, ℕ, ◌<◌, ◌≤◌, List, slice_get, Some};
ghost use Rattle.lx_window.specs.Windows.{IsFormed, IsWindowOf, slid};

use lx_window::Window;

/// The unit at an offset from the token's start to the limit.
pub(crate) fn unit_at(w: &Window<'_>, offset: u64) -> u32
    requires begins { w.now.start ≤ offset }
    requires ends { offset < w.now.limit }
    ensures { (stream : List ℕ) → IsFormed w.now × IsWindowOf stream (slid w.now) → slice_get stream offset ≡ Some result }
{
    match w.unit_at(offset) {
        Some(unit) => unit,
        None => unreachable!(),
    }
}
