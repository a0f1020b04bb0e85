//! What holds of the window of a stream: each law is the contract of a function with an empty body.
ghost use Rattle.std.specs.Prelude.{◌≡◌, ℕ, ◌-◌, ◌<◌, ◌≤◌, List, take, drop, length, Option, Some, slice_get, slice_index};
ghost use Rattle.lx_window.specs.Ahead.{Ahead};
ghost use Rattle.lx_window.specs.Refilling.{IsSpent};
ghost use Rattle.lx_window.specs.Units.{stream_units};
ghost use Rattle.lx_window.specs.WindowView.{WindowView};
ghost use Rattle.lx_window.specs.Windows.{IsFormed, IsWindowOf, IsFedBy, Refills, empty_window, begun, slid, window_units, bytes_between};
ghost use Rattle.lx_window.specs.declared.refills.Fill.{Fill};

/// A window with nothing in it is one of each stream that reaches to its base.
pub fn over_begins_in_the_stream()
    ensures { (stream : List ℕ) (unit base buffer : ℕ) → base ≤ length stream → IsWindowOf stream (empty_window unit base buffer) }
{}

/// A window stays one of its stream, and fed by the rest of it, when the token's start moves.
pub fn begin_stays_in_the_stream()
    ensures holds { (stream : List ℕ) (window : WindowView) (at : ℕ) → IsWindowOf stream window → window.start ≤ at → at ≤ window.limit → IsWindowOf stream (begun window at) }
    ensures fed { (stream : List ℕ) (window : WindowView) (at : ℕ) (ahead : Option Ahead) → IsFedBy stream window ahead → window.start ≤ at → at ≤ window.limit → IsFedBy stream (begun window at) ahead }
{}

/// A window stays one of its stream, and fed by the rest of it, when it slides, also where a refill failed.
pub fn slide_stays_in_the_stream()
    ensures holds { (stream : List ℕ) (window : WindowView) → IsFormed window → IsWindowOf stream window → IsWindowOf stream (slid window) }
    ensures fed { (stream : List ℕ) (window : WindowView) (ahead : Option Ahead) → IsFormed window → IsFedBy stream window ahead → IsFedBy stream (slid window) ahead }
{}

/// A window that is fed by the rest of its stream is so after each refill.
pub fn refill_stays_in_the_stream()
    ensures { (stream : List ℕ) (window after : WindowView) (ahead rest : Option Ahead) (fill : Fill) → IsFormed window → IsFedBy stream window ahead → Refills ahead rest window after fill → IsFedBy stream after rest }
{}

/// Where nothing is ahead, the stream ends at the limit.
pub fn a_spent_source_ends_the_stream()
    ensures { (stream : List ℕ) (window : WindowView) (ahead : Option Ahead) → IsFedBy stream window ahead → IsSpent ahead → window.limit ≡ length stream }
{}

/// The unit at an offset is the stream's.
pub fn units_are_of_the_stream()
    ensures { (stream : List ℕ) (window : WindowView) (at : ℕ) → IsWindowOf stream window → window.start ≤ at → at < window.limit → slice_get stream at ≡ Some (slice_index (window_units window) (at - window.base)) }
{}

/// The units of a token are the stream's from its start on.
pub fn tokens_are_of_the_stream()
    ensures { (stream : List ℕ) (window : WindowView) (to : ℕ) → IsFormed window → IsWindowOf stream window → window.start ≤ to → to ≤ window.limit → stream_units window.unit (bytes_between window window.start to) ≡ take (to - window.start) (drop window.start stream) }
{}
