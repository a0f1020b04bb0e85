//! Sorted lists of ranges, and the one pass by which two of them are united or taken from one another.
ghost use Rattle.std.specs.Prelude.{◌≡◌, ℕ, ◌+◌, ◌<◌, ◌≤◌, ◌⊎◌, ◌↔◌, [], ◌∷◌, length, take, drop, IsTrue, IfOk, OnOk};
ghost use Rattle.lx_class.specs.Ranges.{InRanges, IsCanonical, IsDifference, IsUnion};
ghost use Rattle.lx_class.specs.Bounds.{BeginBy, EndBefore};

use lx_base::Memory;
use std::alloc::Global;

/// The greatest code point (The Unicode Standard, section 3.4).
pub const MAX_POINT: u32 = 0x10_FFFF;

/// The code points from `lo` to `hi`, both among them. In a set `lo` is at most `hi`.
#[derive(Clone, Copy, Debug, PartialEq, Eq)]
pub struct Range {
    pub lo: u32,
    pub hi: u32,
}

/// Whether the point lies in one of the ranges, by binary search.
pub(crate) fn holds_point(ranges: &[Range], point: u32) -> bool
    requires { IsCanonical ranges.now }
    ensures { IsTrue result ↔ InRanges ranges.now point }
{
    let (mut low, mut high) = (0, ranges.len());
    while low < high {
        let middle = low + (high - low) / 2;
        let range = ranges[middle];
        if point < range.lo {
            high = middle;
        } else if range.hi < point {
            low = middle + 1;
        } else {
            return true;
        }
    }
    false
}

/// Appends a range, which begins no earlier than those that are there. One that touches the
/// last range is joined to it.
fn append_range(ranges: &mut Vec<Range>, range: Range) -> Result<(), Memory>
    requires canonical { IsCanonical ranges.old.items }
    requires ordered { range.lo ≤ range.hi }
    requires bounded { range.hi ≤ MAX_POINT }
    requires in_turn { BeginBy ranges.old.items range.lo }
    ensures canonical { OnOk result (IsCanonical ranges.new.items) }
    ensures points { OnOk result (IsUnion ranges.old.items (range ∷ []) ranges.new.items) }
    ensures begin { OnOk result ((point : ℕ) →
        BeginBy ranges.old.items point → range.lo ≤ point → BeginBy ranges.new.items point) }
{
    let len = ranges.len();
    if len > 0 {
        let last = ranges[len - 1];
        if range.lo <= last.hi + 1 {
            ranges[len - 1] = Range {
                lo: last.lo,
                hi: last.hi.max(range.hi),
            };
            return Ok(());
        }
    }
    ranges.push(range)?;
    Ok(())
}

/// Appends ranges, which begin no earlier than those that are there.
fn append_ranges(ranges: &mut Vec<Range>, rest: &[Range]) -> Result<(), Memory>
    requires canonical { IsCanonical ranges.old.items }
    requires canonical_rest { IsCanonical rest.now }
    requires in_turn { (point : ℕ) → InRanges rest.now point → BeginBy ranges.old.items point }
    ensures canonical { OnOk result (IsCanonical ranges.new.items) }
    ensures points { OnOk result (IsUnion ranges.old.items rest.now ranges.new.items) }
    ensures begin { OnOk result ((point : ℕ) →
        BeginBy ranges.old.items point → BeginBy rest.now point → BeginBy ranges.new.items point) }
{
    for range in rest {
        append_range(ranges, *range)?;
    }
    Ok(())
}

/// The ranges of the points that lie in one of two lists or in both.
pub(crate) fn union_of(alloc: Global, left: &[Range], right: &[Range]) -> Result<Vec<Range>, Memory>
    requires left { IsCanonical left.now }
    requires right { IsCanonical right.now }
    ensures canonical { IfOk result (λ ranges. IsCanonical ranges.items) }
    ensures points { IfOk result (λ ranges. IsUnion left.now right.now ranges.items) }
{
    let mut ranges = Vec::new(alloc);
    let (mut i, mut j) = (0, 0);
    while i < left.len() && j < right.len() {
        if left[i].lo <= right[j].lo {
            append_range(&mut ranges, left[i])?;
            i += 1;
        } else {
            append_range(&mut ranges, right[j])?;
            j += 1;
        }
    }
    append_ranges(&mut ranges, &left[i..])?;
    append_ranges(&mut ranges, &right[j..])?;
    Ok(ranges)
}

/// Appends the points from `from` on and before `until`, if there are any.
fn append_points(ranges: &mut Vec<Range>, from: u32, until: u32) -> Result<(), Memory>
    requires canonical { IsCanonical ranges.old.items }
    requires bounded { until ≤ MAX_POINT + 1 }
    requires in_turn { BeginBy ranges.old.items from }
    ensures canonical { OnOk result (IsCanonical ranges.new.items) }
    ensures points { OnOk result ((point : ℕ) → InRanges ranges.new.items point ↔
        (InRanges ranges.old.items point ⊎ ((from ≤ point) × (point < until)))) }
    ensures begin { OnOk result ((point : ℕ) →
        BeginBy ranges.old.items point → from ≤ point → BeginBy ranges.new.items point) }
{
    if from < until {
        append_range(
            ranges,
            Range {
                lo: from,
                hi: until - 1,
            },
        )?;
    }
    Ok(())
}

/// Puts at the end what the holes from a place on leave of a range, and answers the place of the
/// first hole that may reach past the range.
fn append_uncovered(
    ranges: &mut Vec<Range>,
    range: Range,
    holes: &[Range],
    mut place: usize,
) -> Result<usize, Memory>
    requires canonical { IsCanonical ranges.old.items }
    requires canonical_holes { IsCanonical holes.now }
    requires ordered { range.lo ≤ range.hi }
    requires bounded { range.hi ≤ MAX_POINT }
    requires in_turn { BeginBy ranges.old.items range.lo }
    requires within { place ≤ length holes.now }
    requires passed { EndBefore (take place holes.now) range.lo }
    ensures canonical { OnOk result (IsCanonical ranges.new.items) }
    ensures points { OnOk result ((point : ℕ) → InRanges ranges.new.items point ↔
        (InRanges ranges.old.items point ⊎ (InRanges (range ∷ []) point × ¬ InRanges holes.now point))) }
    ensures begin { OnOk result (BeginBy ranges.new.items range.hi) }
    ensures within { IfOk result (λ next. next ≤ length holes.now) }
    ensures passed { IfOk result (λ next. EndBefore (take next holes.now) range.hi) }
{
    let mut lo = range.lo;
    while place < holes.len() && holes[place].lo <= range.hi {
        let hole = holes[place];
        append_points(ranges, lo, hole.lo)?;
        if range.hi <= hole.hi {
            return Ok(place);
        }
        lo = lo.max(hole.hi + 1);
        place += 1;
    }
    append_points(ranges, lo, range.hi + 1)?;
    Ok(place)
}

/// The ranges of the points that lie in the ranges and in no hole.
pub(crate) fn difference_of(
    alloc: Global,
    ranges: &[Range],
    holes: &[Range],
) -> Result<Vec<Range>, Memory>
    requires ranges { IsCanonical ranges.now }
    requires holes { IsCanonical holes.now }
    ensures canonical { IfOk result (λ left. IsCanonical left.items) }
    ensures points { IfOk result (λ left. IsDifference ranges.now holes.now left.items) }
{
    let mut left = Vec::new(alloc);
    let mut place = 0;
    for range in ranges {
        place = append_uncovered(&mut left, *range, holes, place)?;
    }
    Ok(left)
}
