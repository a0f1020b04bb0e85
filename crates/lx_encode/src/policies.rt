//! What becomes of surrogates in a class, and which classes an encoding takes.
ghost use Rattle.std.specs.Prelude.{◌≡◌, ℕ, ◌↔◌, ◌+◌, ◌<◌, ◌≤◌, IfOk, MatchOption};
ghost use Rattle.lx_class.specs.Ranges.{InRanges, IsCanonical};
ghost use Rattle.lx_encode.specs.Policy.{FitsEncoding, IsAllowed, IsApplied, IsLeastWithin, IsPoint, IsPolicyOf, NoneWithin};

use crate::units::greatest_point;
use lx_base::{Enc, Memory, SurPolicy};
use lx_class::{ClassSet, Range};
use std::alloc::Global;
use thiserror::Error;

/// The first surrogate (The Unicode Standard, section 3.8).
pub const FIRST_SURROGATE: u32 = 0xD800;

/// The last surrogate.
pub const LAST_SURROGATE: u32 = 0xDFFF;

/// What stands in the place of a surrogate where these are substituted, U+FFFD (The Unicode Standard,
/// section 23.8).
pub const REPLACEMENT: u32 = 0xFFFD;

/// Why a class is refused.
#[derive(Clone, Copy, Debug, PartialEq, Eq, Error)]
pub enum PointStop {
    /// Want of memory. No clause ties it to a cause.
    #[error("out of memory")]
    Memory,
    /// The least point of the class that the encoding does not have.
    #[error("code point {0} is too large")]
    TooLarge(u32),
    /// The least surrogate of the class, where surrogates are refused.
    #[error("code point {0} is a surrogate")]
    Surrogate(u32),
}

/// The least point of a set between two bounds, both among them.
fn least_within(set: &[Range], from: u32, to: u32) -> Option<u32>
    requires { IsCanonical set.now }
    ensures { MatchOption result (NoneWithin set.now from to) (IsLeastWithin set.now from to) }
{
    for range in set {
        if from <= range.hi {
            let point = range.lo.max(from);
            return if point <= to { Some(point) } else { None };
        }
    }
    None
}

/// The set of all code points of the encoding, without the surrogates where they are replaced or refused.
pub fn all_points(alloc: Global, enc: Enc, policy: SurPolicy) -> Result<ClassSet, Memory>
    ensures canonical { IfOk result IsCanonical }
    ensures points { IfOk result (λ set. (point : ℕ) → InRanges set point ↔ IsPoint enc policy point) }
{
    let all = ClassSet::range(alloc, 0, greatest_point(enc))?;
    match policy {
        SurPolicy::Ignore => Ok(all),
        SurPolicy::Substitute | SurPolicy::Fail => {
            let surrogates = ClassSet::range(alloc, FIRST_SURROGATE, LAST_SURROGATE)?;
            all.minus(alloc, &surrogates)
        }
    }
}

/// The set with U+FFFD in the place of its surrogates.
fn substituted(alloc: Global, set: &ClassSet) -> Result<ClassSet, Memory>
    ensures canonical { IfOk result IsCanonical }
    ensures points { IfOk result (IsPolicyOf SurPolicy.Substitute set.now) }
{
    if least_within(set.ranges(), FIRST_SURROGATE, LAST_SURROGATE).is_none() {
        return set.copy(alloc);
    }
    let surrogates = ClassSet::range(alloc, FIRST_SURROGATE, LAST_SURROGATE)?;
    let replacement = ClassSet::range(alloc, REPLACEMENT, REPLACEMENT)?;
    set.minus(alloc, &surrogates)?.union(alloc, &replacement)
}

/// The set that a policy makes of a set that it does not refuse.
fn policy_set(alloc: Global, policy: SurPolicy, set: &ClassSet) -> Result<ClassSet, Memory>
    ensures canonical { IfOk result IsCanonical }
    ensures points { IfOk result (IsPolicyOf policy set.now) }
{
    match policy {
        SurPolicy::Ignore | SurPolicy::Fail => set.copy(alloc),
        SurPolicy::Substitute => substituted(alloc, set),
    }
}

/// Why a set is refused, if it is.
fn refusal(enc: Enc, policy: SurPolicy, set: &[Range]) -> Option<PointStop>
    requires { IsCanonical set.now }
    ensures { MatchOption result (FitsEncoding enc set.now × IsAllowed policy set.now)
        (λ stop. IsApplied enc policy set.now (Err stop)) }
{
    if let Some(point) = least_within(set, greatest_point(enc) + 1, u32::MAX) {
        return Some(PointStop::TooLarge(point));
    }
    match policy {
        SurPolicy::Ignore | SurPolicy::Substitute => None,
        SurPolicy::Fail => match least_within(set, FIRST_SURROGATE, LAST_SURROGATE) {
            Some(point) => Some(PointStop::Surrogate(point)),
            None => None,
        },
    }
}

/// The set that a policy makes of a set: the same one, or the one with U+FFFD in the place of its surrogates.
///
/// `TooLarge` names the least point that the encoding does not have, and comes before `Surrogate`, which
/// names the least surrogate and comes only where surrogates are refused. `Memory` may be answered in place
/// of a set, and no clause ties it to a cause.
pub fn apply(
    alloc: Global,
    enc: Enc,
    policy: SurPolicy,
    set: &ClassSet,
) -> Result<ClassSet, PointStop>
    ensures canonical { IfOk result IsCanonical }
    ensures applied { IsApplied enc policy set.now result }
{
    if let Some(stop) = refusal(enc, policy, set.ranges()) {
        return Err(stop);
    }
    match policy_set(alloc, policy, set) {
        Ok(points) => Ok(points),
        Err(Memory) => Err(PointStop::Memory),
    }
}
