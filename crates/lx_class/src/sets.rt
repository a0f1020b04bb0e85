//! The set of code points, as callers see it.
ghost use Rattle.std.specs.Prelude.{◌≡◌, ℕ, ◌≤◌, ◌⊎◌, ◌↔◌, List, [], ◌∷◌, min, max, IsTrue, IfOk};
ghost use Rattle.lx_class.specs.Ranges.{HaveSamePoints, InRanges, IsCanonical, IsDifference, IsUnion};
ghost use Rattle.lx_class.specs.declared.ranges.Range.{Range};

use crate::ranges::{MAX_POINT, Range, difference_of, holds_point, union_of};
use lx_base::Memory;
use std::alloc::Global;
use std::marker::Model;

/// A set of code points, which contracts see as the list of its ranges.
///
/// The ranges are sorted, and between two neighbours at least one point is missing, so sets with the
/// same points have the same ranges (`same_points_same_ranges`). A call that may answer `Memory`
/// changes neither of its sets where it does; no clause ties that to a cause.
#[derive(Drop)]
pub struct ClassSet {
    ranges: Vec<Range>,
}

impl Model for ClassSet {
    ghost use Rattle.std.specs.Prelude.{List};
    ghost use Rattle.lx_class.specs.Ranges.{IsCanonical};
    ghost use Rattle.lx_class.specs.declared.ranges.Range.{Range};

    ghost Value = { List Range };

    ghost view = { λ set. set.ranges.items };

    ghost invariant = { λ set. IsCanonical set.ranges.items };
}

impl ClassSet {
    /// The empty set. It takes no memory.
    pub fn none(alloc: Global) -> ClassSet
        ensures ranges { result ≡ [] }
        ensures points { (point : ℕ) → ¬ InRanges result point }
    {
        ClassSet {
            ranges: Vec::new(alloc),
        }
    }

    /// The points from the lesser of two bounds to the greater one.
    pub fn range(alloc: Global, a: u32, b: u32) -> Result<ClassSet, Memory>
        requires a_bounded { a ≤ MAX_POINT }
        requires b_bounded { b ≤ MAX_POINT }
        ensures ranges { IfOk result (λ set. set ≡ record { lo = min a b; hi = max a b } ∷ []) }
        ensures canonical { IfOk result IsCanonical }
        ensures points { IfOk result (λ set. (point : ℕ) →
            InRanges set point ↔ ((min a b ≤ point) × (point ≤ max a b))) }
    {
        let range = Range {
            lo: a.min(b),
            hi: a.max(b),
        };
        let ranges = Vec::from_slice(alloc, &[range])?;
        Ok(ClassSet { ranges })
    }

    /// The points that lie in one of two sets or in both.
    pub fn union(&self, alloc: Global, other: &ClassSet) -> Result<ClassSet, Memory>
        ensures canonical { IfOk result IsCanonical }
        ensures points { IfOk result (IsUnion self.now other.now) }
    {
        let ranges = union_of(alloc, &self.ranges, &other.ranges)?;
        Ok(ClassSet { ranges })
    }

    /// The points of this set that do not lie in the other.
    pub fn minus(&self, alloc: Global, other: &ClassSet) -> Result<ClassSet, Memory>
        ensures canonical { IfOk result IsCanonical }
        ensures points { IfOk result (IsDifference self.now other.now) }
    {
        let ranges = difference_of(alloc, &self.ranges, &other.ranges)?;
        Ok(ClassSet { ranges })
    }

    /// The same set again.
    pub fn copy(&self, alloc: Global) -> Result<ClassSet, Memory>
        ensures ranges { IfOk result (λ set. set ≡ self.now) }
        ensures canonical { IfOk result IsCanonical }
        ensures points { IfOk result (HaveSamePoints self.now) }
    {
        let ranges = Vec::from_slice(alloc, &self.ranges)?;
        Ok(ClassSet { ranges })
    }

    /// Whether the point lies in the set, by binary search. It takes no memory.
    pub fn contains(&self, point: u32) -> bool
        ensures { IsTrue result ↔ InRanges self.now point }
    {
        holds_point(&self.ranges, point)
    }

    /// The ranges, sorted and apart. It takes no memory.
    pub fn ranges(&self) -> &[Range]
        ensures ranges { result.now ≡ self.now }
        ensures canonical { IsCanonical self.now }
    {
        &self.ranges
    }
}

/// Sets with the same points have the same ranges: it does nothing, and its contract is the law.
pub fn same_points_same_ranges()
    ensures { (left right : List Range) →
        IsCanonical left → IsCanonical right → HaveSamePoints left right → left ≡ right }
{}
