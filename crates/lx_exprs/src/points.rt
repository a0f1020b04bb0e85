//! The faults of the code points that stand in one token.
ghost use Rattle.std.specs.Prelude.{◌≡◌, IsNone, ◌≤◌, All};
ghost use Rattle.lx_exprs.specs.Points.{least_from, least_with, points_fault, replaced, up_to};

use lx_base::{Enc, Fault, Pos, SurPolicy};
use lx_class::Range;
use lx_encode::{FIRST_SURROGATE, LAST_SURROGATE, REPLACEMENT, greatest_point};

/// The lesser of the least point so far and of the least one of a range from a bound on.
fn least_with(low: u32, range: Range, least: Option<u32>) -> Option<u32>
    ensures { result ≡ least_with low range least }
{
    if range.hi < low {
        return least;
    }
    let point = low.max(range.lo);
    match least {
        None => Some(point),
        Some(other) => Some(point.min(other)),
    }
}

/// The least point of the ranges from a bound on.
fn least_from(low: u32, ranges: &[Range]) -> Option<u32>
    ensures { result ≡ least_from low ranges.now }
{
    let mut rest = ranges;
    let mut least = None;
    while let Some((range, front)) = rest.split_last() {
        least = least_with(low, *range, least);
        rest = front;
    }
    least
}

/// The point, where it is not past a bound.
fn up_to(high: u32, point: Option<u32>) -> Option<u32>
    ensures { result ≡ up_to high point }
{
    match point {
        Some(point) if point <= high => Some(point),
        _ => None,
    }
}

/// The fault of the ranges of one token: a point that the encoding does not have, or a surrogate where these are refused. It
/// names the least one.
pub fn points_fault(enc: Enc, policy: SurPolicy, at: Pos, ranges: &[Range]) -> Option<Fault>
    ensures { result ≡ points_fault enc policy at ranges.now }
{
    if let Some(point) = least_from(greatest_point(enc) + 1, ranges) {
        return Some(Fault::CodePoint { at, point });
    }
    match policy {
        SurPolicy::Ignore | SurPolicy::Substitute => None,
        SurPolicy::Fail => match up_to(LAST_SURROGATE, least_from(FIRST_SURROGATE, ranges)) {
            Some(point) => Some(Fault::Surrogate { at, point }),
            None => None,
        },
    }
}

/// The point that takes the place of one under a policy.
pub fn replaced(policy: SurPolicy, point: u32) -> u32
    ensures { result ≡ replaced policy point }
{
    match policy {
        SurPolicy::Ignore | SurPolicy::Fail => point,
        SurPolicy::Substitute => {
            if FIRST_SURROGATE <= point && point <= LAST_SURROGATE {
                REPLACEMENT
            } else {
                point
            }
        }
    }
}
