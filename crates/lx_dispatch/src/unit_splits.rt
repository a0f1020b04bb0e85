//! The tests of a unit that choose its transition class.
ghost use Rattle.std.specs.Prelude.{◌≡◌, ◌++◌, ◌∷◌, IfOk, OnOk, None, drop, length};
ghost use Rattle.lx_dispatch.specs.UnitApart.{apart_from, reader_split, stretch_behind, tests_before, unit_stretch};
ghost use Rattle.lx_dispatch.specs.Views.{seen_split, seen_stretch, seen_stretches, class_list, seen_classes};
ghost use Rattle.lx_dispatch.specs.TransitionClasses.{edge_split, first_class, same_place, split_of, stretches, transition_classes};

use crate::classes::{TransitionClasses, class_place};
use lx_auto::Edge;
use lx_base::Memory;
use std::alloc::Global;

/// Units up to a greatest one, behind those of the stretch before, are of one class: the one at a place, counted from 0, or of
/// none.
#[derive(Clone, Copy)]
pub(crate) struct Stretch {
    pub greatest: u32,
    pub class: Option<usize>,
}

/// What is tested, and the place of the class of units behind the last test.
#[derive(Drop)]
pub(crate) struct Split {
    pub tests: Vec<Stretch>,
    pub last: Option<usize>,
}

/// The stretches of units from 0 on, for edges whose classes are known.
fn stretches(
    alloc: Global,
    classes: &TransitionClasses<'_>,
    edges: &[Edge],
) -> Result<Vec<Stretch>, Memory>
    ensures { IfOk result (λ found. seen_stretches found.items ≡ stretches (seen_classes (class_list classes.now)) 0 edges.now) }
{
    let mut found = Vec::new(alloc);
    let mut low = 0;
    for edge in edges {
        push_before(&mut found, low, edge.lo, None)?;
        let greatest = edge.hi;
        let class = Some(class_place(classes, edge));
        found.push(Stretch { greatest, class })?;
        low = u64::from(edge.hi) + 1;
    }
    Ok(found)
}

/// Whether units are of one class.
pub fn same_place(place: Option<usize>, other: Option<usize>) -> bool
    ensures { result ≡ same_place place other }
{
    match (place, other) {
        (None, None) => true,
        (Some(place), Some(other)) => place == other,
        _ => false,
    }
}

/// The class of the stretch at an index; behind the last one there is none.
fn class_at(stretches: &[Stretch], index: usize) -> Option<usize>
    ensures { result ≡ first_class (seen_stretches (drop index stretches.now)) None }
{
    match stretches.get(index) {
        Some(stretch) => stretch.class,
        None => None,
    }
}

/// The tests for units up to a greatest one. A stretch is not tested apart where the next one is of the same class.
fn split_of(alloc: Global, greatest: u32, stretches: &[Stretch]) -> Result<Split, Memory>
    ensures { IfOk result (λ split. seen_split split ≡ split_of greatest (seen_stretches stretches.now)) }
{
    let mut tests = Vec::new(alloc);
    for (index, stretch) in stretches.iter().enumerate() {
        if greatest <= stretch.greatest {
            let last = stretch.class;
            return Ok(Split { tests, last });
        }
        if !same_place(stretch.class, class_at(stretches, index + 1)) {
            tests.push(*stretch)?;
        }
    }
    Ok(Split { tests, last: None })
}

/// The tests of a state for units up to a greatest one, by its edges and their classes.
pub(crate) fn edge_split(
    alloc: Global,
    greatest: u32,
    classes: &TransitionClasses<'_>,
    edges: &[Edge],
) -> Result<Split, Memory>
    requires { seen_classes (class_list classes.now) ≡ transition_classes edges.now }
    ensures { IfOk result (λ split. seen_split split ≡ edge_split greatest edges.now) }
{
    let found = stretches(alloc, classes, edges)?;
    split_of(alloc, greatest, found.as_slice())
}

/// Appends the stretch of the units from a lowest one on that come before a unit, if there are some.
fn push_before(
    tests: &mut Vec<Stretch>,
    low: u64,
    apart: u32,
    class: Option<usize>,
) -> Result<(), Memory>
    ensures { OnOk result (seen_stretches tests.new.items ≡ seen_stretches tests.old.items ++ tests_before apart low class) }
{
    if low < u64::from(apart) {
        let greatest = apart - 1;
        tests.push(Stretch { greatest, class })?;
    }
    Ok(())
}

/// Appends the stretch of a unit, whose class is at a place, and those behind it: what is left of the stretch that it is taken out
/// of, and others.
fn push_unit(
    tests: &mut Vec<Stretch>,
    apart: u32,
    place: usize,
    stretch: Stretch,
    others: &[Stretch],
) -> Result<(), Memory>
    ensures { OnOk result (seen_stretches tests.new.items
        ≡ seen_stretches tests.old.items ++ unit_stretch apart place ∷ stretch_behind 0 apart place (seen_stretch stretch) (seen_stretches others.now)) }
{
    let class = Some(place);
    tests.push(Stretch {
        greatest: apart,
        class,
    })?;
    if apart < stretch.greatest {
        tests.push(stretch)?;
    }
    tests.extend_from_slice(others)?;
    Ok(())
}

/// The tests of a split for units up to a greatest one, where one unit is taken out and goes as the class at a place.
fn apart_from(
    alloc: Global,
    greatest: u32,
    apart: u32,
    place: usize,
    split: &Split,
) -> Result<Split, Memory>
    ensures { IfOk result (λ found. seen_split found
        ≡ apart_from greatest apart place 0 (seen_stretches split.now.tests.items) split.now.last) }
{
    let mut tests = Vec::new(alloc);
    let mut low = 0;
    for (index, stretch) in split.tests.iter().enumerate() {
        if apart <= stretch.greatest {
            push_before(&mut tests, low, apart, stretch.class)?;
            push_unit(
                &mut tests,
                apart,
                place,
                *stretch,
                &split.tests[index + 1..],
            )?;
            let last = split.last;
            return Ok(Split { tests, last });
        }
        tests.push(*stretch)?;
        low = u64::from(stretch.greatest) + 1;
    }
    push_before(&mut tests, low, apart, split.last)?;
    let class = Some(place);
    if greatest <= apart {
        return Ok(Split { tests, last: class });
    }
    tests.push(Stretch {
        greatest: apart,
        class,
    })?;
    let last = split.last;
    Ok(Split { tests, last })
}

/// The tests of a state for units up to a greatest one, by its edges and their classes. A unit that stands at the end of the input
/// has the place behind those of the classes.
pub(crate) fn reader_split(
    alloc: Global,
    eof: Option<u32>,
    greatest: u32,
    classes: &TransitionClasses<'_>,
    edges: &[Edge],
) -> Result<Split, Memory>
    requires { seen_classes (class_list classes.now) ≡ transition_classes edges.now }
    ensures { IfOk result (λ split. seen_split split ≡ reader_split eof greatest edges.now) }
{
    let split = edge_split(alloc, greatest, classes, edges)?;
    match eof {
        None => Ok(split),
        Some(unit) => apart_from(alloc, greatest, unit, classes.as_slice().len(), &split),
    }
}
