//! How long the union of large sets takes.
ghost use Rattle.std.specs.Prelude.{◌+◌, ◌*◌, ◌<◌, ◌≤◌};

use super::timing::micros_since;
use lx_base::Memory;
use lx_class::ClassSet;
use std::alloc::Global;
use std::test::Fail;
use std::time::Instant;

/// `count` ranges of three points each, ten points apart.
fn comb(alloc: Global, first: u32, count: u32) -> Result<ClassSet, Memory>
    requires some { 0 < count }
    requires bounded { first + 10 * count ≤ 0x10_FFFF }
{
    if count == 1 {
        return ClassSet::range(alloc, first, first + 2);
    }
    let half = count / 2;
    let left = comb(alloc, first, half)?;
    let right = comb(alloc, first + 10 * half, count - half)?;
    left.union(alloc, &right)
}

/// How many ranges a union has; none where memory is wanting.
fn range_count(alloc: Global, left: &ClassSet, right: &ClassSet) -> Option<usize> {
    match left.union(alloc, right) {
        Ok(both) => Some(both.ranges().len()),
        Err(_) => None,
    }
}

/// How many ranges a union has, and how many microseconds it takes.
fn measured(
    rt: &HostRuntime,
    left: &ClassSet,
    right: &ClassSet,
) -> Result<(Option<usize>, u128), Fail> {
    let start = Instant::now(rt)?;
    let count = range_count(rt.alloc(), left, right);
    Ok((count, micros_since(rt, start)?))
}

/// Prints how long a union of two sets of 100,000 ranges takes (`bench/class_union.sh`).
#[test]
fn large_sets_are_united_in_one_pass(rt: HostRuntime) -> Result<(), Fail> {
    let left = comb(rt.alloc(), 0, 100_000)?;
    let right = comb(rt.alloc(), 5, 100_000)?;
    let (count, micros) = measured(&rt, &left, &right)?;
    println!(rt; "class_union: {micros} us")?;
    assert!(rt; count == Some(200_000));
    Ok(())
}
