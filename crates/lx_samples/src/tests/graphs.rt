//! How long a large unit graph takes.
ghost use Rattle.std.specs.Prelude.{◌+◌, ◌*◌, ◌<◌, ◌≤◌};

use super::timing::micros_since;
use lx_base::{Enc, Memory, SurPolicy};
use lx_class::ClassSet;
use lx_encode::{UnitGraph, apply};
use std::alloc::Global;
use std::test::Fail;
use std::time::Instant;

/// How many points a range has beside its first one, up to seven.
fn extra_points(number: u32) -> u32
    ensures { result < 8 }
{
    number.wrapping_mul(40503) % 65536 * (number % 1021) / 4096 % 8
}

/// `count` ranges, ten points apart, of one to eight points each.
fn uneven_comb(alloc: Global, first: u32, count: u32) -> Result<ClassSet, Memory>
    requires some { 0 < count }
    requires bounded { first + count ≤ 100000 }
{
    if count == 1 {
        let lo = first * 10;
        return ClassSet::range(alloc, lo, lo + extra_points(first));
    }
    let half = count / 2;
    let left = uneven_comb(alloc, first, half)?;
    let right = uneven_comb(alloc, first + half, count - half)?;
    left.union(alloc, &right)
}

/// How many starts the graph of a class has in UTF-8; none where it has no graph.
fn start_count(alloc: Global, set: &ClassSet) -> Option<usize> {
    let Ok(_) = apply(alloc, Enc::Utf8, SurPolicy::Ignore, set) else {
        return None;
    };
    match UnitGraph::of(alloc, Enc::Utf8, set) {
        Ok(graph) => Some(graph.starts().len()),
        Err(_) => None,
    }
}

/// How many starts the graph of a class has, and how many microseconds it takes.
fn measured(rt: &HostRuntime, set: &ClassSet) -> Result<(Option<usize>, u128), Fail> {
    let start = Instant::now(rt)?;
    let starts = start_count(rt.alloc(), set);
    Ok((starts, micros_since(rt, start)?))
}

/// Prints how long the graph of 100,000 ranges takes in UTF-8 (`bench/unit_graph.sh`).
#[test]
fn a_large_class_is_built(rt: HostRuntime) -> Result<(), Fail> {
    let set = uneven_comb(rt.alloc(), 0, 100_000)?;
    let (starts, micros) = measured(&rt, &set)?;
    println!(rt; "unit_graph: {micros} us")?;
    assert!(rt; starts == Some(1));
    Ok(())
}
