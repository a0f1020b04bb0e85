//! The sets of code points that tokens stand for.
ghost use Rattle.std.specs.Prelude.{◌≡◌, ◌≢◌, ◌≤◌, ◌+◌, ◌∷◌, [], ℕ, List, All, IfOk, length, map};
ghost use Rattle.lx_class.specs.Ranges.{HaveSamePoints, IsCanonical, IsUnion};
ghost use Rattle.lx_encode.specs.Policy.{FitsEncoding, IsAfter, IsAllowed, IsPoint};
ghost use Rattle.lx_exprs.specs.Checks.{ClassHas, range_of};
ghost use Rattle.lx_exprs.specs.Defined.{Definition};
ghost use Rattle.lx_exprs.specs.Meanings.{IsSetOf, character_set};
ghost use Rattle.lx_exprs.specs.Points.{singles};
ghost use Rattle.lx_exprs.specs.Seen.{IsOrdered, points_of};

use crate::points::replaced;
use lx_base::{Memory, Options, SurPolicy};
use lx_class::{ClassSet, Range, same_points_same_ranges};
use lx_encode::{PointStop, all_points, apply};
use lx_token::{Character, PointRange};
use std::alloc::Global;
use std::marker::Model;

/// The characters as ranges of one point each.
pub fn single_ranges(alloc: Global, characters: &[Character]) -> Result<Vec<Range>, Memory>
    ensures { IfOk result (λ ranges. ranges.items ≡ singles (points_of characters.now)) }
{
    let mut ranges = Vec::new(alloc);
    for character in characters {
        ranges.push(Range {
            lo: character.point,
            hi: character.point,
        })?;
    }
    Ok(ranges)
}

/// The ranges of a class.
pub fn ranges_of(alloc: Global, written: &[PointRange]) -> Result<Vec<Range>, Memory>
    ensures { IfOk result (λ ranges. ranges.items ≡ map range_of written.now) }
{
    let mut ranges = Vec::new(alloc);
    for range in written {
        ranges.push(Range {
            lo: range.lo,
            hi: range.hi,
        })?;
    }
    Ok(ranges)
}

/// The set of the points of ranges, which may overlap.
fn set_of(alloc: Global, ranges: &[Range]) -> Result<ClassSet, Memory>
    requires { All IsOrdered ranges.now }
    ensures canonical { IfOk result IsCanonical }
    ensures points { IfOk result (HaveSamePoints ranges.now) }
{
    match ranges {
        [] => Ok(ClassSet::none(alloc)),
        [range] => ClassSet::range(alloc, range.lo, range.hi),
        _ => {
            let (front, back) = ranges.split_at(ranges.len() / 2);
            let front = set_of(alloc, front)?;
            let back = set_of(alloc, back)?;
            front.union(alloc, &back)
        }
    }
}

/// Ranges of a class that is being put together, in any order; they may overlap. Contracts see them as a list.
#[derive(Drop)]
pub struct Collected {
    ranges: Vec<Range>,
    /// How many there were when they were last put in order.
    in_order: usize,
}

impl Model for Collected {
    ghost use Rattle.std.specs.Prelude.{All, List};
    ghost use Rattle.lx_class.specs.declared.ranges.Range.{Range};
    ghost use Rattle.lx_exprs.specs.Seen.{IsOrdered};

    ghost Value = { List Range };

    ghost view = { λ collected. collected.ranges.items };

    ghost invariant = { λ collected. All IsOrdered collected.ranges.items };
}

impl Collected {
    /// No ranges. It takes no memory.
    pub fn none(alloc: Global) -> Collected
        ensures { result ≡ [] }
    {
        Collected {
            ranges: Vec::new(alloc),
            in_order: 0,
        }
    }

    /// The ranges of a set.
    pub fn of_set(alloc: Global, set: &ClassSet) -> Result<Collected, Memory>
        ensures { IfOk result (λ collected. collected ≡ set.now) }
    {
        let ranges = Vec::from_slice(alloc, set.ranges())?;
        let in_order = ranges.len();
        Ok(Collected { ranges, in_order })
    }

    /// The set of their points.
    pub fn into_set(self, alloc: Global) -> Result<ClassSet, Memory>
        ensures canonical { IfOk result IsCanonical }
        ensures points { IfOk result (HaveSamePoints self) }
    {
        set_of(alloc, &self.ranges)
    }

    /// These ranges, and others behind them. Where they are more than twice as many as when they were last put in order, they are put
    /// in order again, which joins those that overlap.
    fn with(self, alloc: Global, others: &[Range]) -> Result<Collected, Memory>
        requires { All IsOrdered others.now }
        ensures { IfOk result (IsUnion self others.now) }
    {
        let mut ranges = self.ranges;
        ranges.extend_from_slice(others)?;
        if ranges.len() > self.in_order.saturating_mul(2) {
            let set = set_of(alloc, &ranges)?;
            return Collected::of_set(alloc, &set);
        }
        Ok(Collected {
            ranges,
            in_order: self.in_order,
        })
    }

    /// These ranges and others. The longer list takes those of the other one.
    pub fn beside(self, alloc: Global, other: Collected) -> Result<Collected, Memory>
        ensures { IfOk result (IsUnion self other) }
    {
        if self.ranges.len() < other.ranges.len() {
            other.with(alloc, &self.ranges)
        } else {
            self.with(alloc, &other.ranges)
        }
    }
}

/// The set as a policy takes it.
fn taken(alloc: Global, options: &Options, set: &ClassSet) -> Result<ClassSet, Memory>
    requires fits { FitsEncoding options.now.enc set.now }
    requires allowed { IsAllowed options.now.surrogates set.now }
    ensures { IfOk result (IsSetOf (IsAfter options.now.surrogates set.now)) }
{
    match apply(alloc, options.enc, options.surrogates, set) {
        Ok(set) => Ok(set),
        Err(PointStop::Memory) => Err(Memory),
        Err(PointStop::TooLarge(_) | PointStop::Surrogate(_)) => unreachable!(),
    }
}

/// The set of the points of a class that is written as these ranges, or of all others.
pub fn class_set(
    alloc: Global,
    options: &Options,
    is_negated: bool,
    ranges: &[Range],
) -> Result<ClassSet, Memory>
    requires ordered { All IsOrdered ranges.now }
    requires fits { FitsEncoding options.now.enc ranges.now }
    requires allowed { IsAllowed options.now.surrogates ranges.now }
    ensures { (definitions : List Definition) → IfOk result (IsSetOf (ClassHas options.now definitions is_negated ranges.now)) }
{
    let set = taken(alloc, options, &set_of(alloc, ranges)?)?;
    if is_negated {
        all_points(alloc, options.enc, options.surrogates)?.minus(alloc, &set)
    } else {
        Ok(set)
    }
}

/// The set of all code points but the line feed.
pub fn line_set(alloc: Global, options: &Options) -> Result<ClassSet, Memory>
    ensures { IfOk result (IsSetOf (λ point. IsPoint options.now.enc options.now.surrogates point × (point ≢ 10))) }
{
    let feed = ClassSet::range(alloc, 10, 10)?;
    all_points(alloc, options.enc, options.surrogates)?.minus(alloc, &feed)
}

/// The set of two points.
fn pair(alloc: Global, lesser: u32, greater: u32) -> Result<ClassSet, Memory>
    requires apart { lesser + 2 ≤ greater }
    requires bounded { greater ≤ 0x10FFFF }
    ensures { IfOk result (λ set. set ≡ singles (lesser ∷ greater ∷ [])) }
{
    same_points_same_ranges();
    let front = ClassSet::range(alloc, lesser, lesser)?;
    let back = ClassSet::range(alloc, greater, greater)?;
    front.union(alloc, &back)
}

/// The set of a character: its point as the policy takes it, and an ASCII letter in both cases where these are one.
pub fn character_set(
    alloc: Global,
    policy: SurPolicy,
    is_caseless: bool,
    point: u32,
) -> Result<ClassSet, Memory>
    requires { point ≤ 0x10FFFF }
    ensures { IfOk result (λ set. set ≡ character_set policy is_caseless point) }
{
    if is_caseless {
        match point {
            65..=90 => return pair(alloc, point, point + 32),
            97..=122 => return pair(alloc, point - 32, point),
            _ => {}
        }
    }
    let point = replaced(policy, point);
    ClassSet::range(alloc, point, point)
}
