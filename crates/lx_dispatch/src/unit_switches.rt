//! Proposes switches over units.
use crate::first_questions::{FirstQuestion, any_holds};
use crate::test_trees::UnitCase;
use crate::unit_splits::{Stretch, same_place};
use lx_base::Memory;
use std::alloc::Global;

/// The place of the case of a class, which is made where there is none.
fn case_place(
    alloc: Global,
    cases: &mut Vec<UnitCase>,
    class: Option<usize>,
) -> Result<usize, Memory> {
    for place in 0..cases.len() {
        if same_place(cases[place].class, class) {
            return Ok(place);
        }
    }
    let units = Vec::new(alloc);
    let place = cases.len();
    cases.push(UnitCase { units, class })?;
    Ok(place)
}

/// The bytes from a lowest one up to a greatest one on which first questions do not decide.
fn left_units(
    alloc: Global,
    table: &[u8],
    first: &[FirstQuestion],
    low: u64,
    greatest: u32,
) -> Result<Vec<u8>, Memory> {
    let mut units = Vec::new(alloc);
    let end = u64::from(greatest.min(0xFF)) + 1;
    for unit in low..end {
        if !any_holds(table, first, unit as u32) {
            units.push(unit as u8)?;
        }
    }
    Ok(units)
}

/// Appends units to the case of their class.
fn push_units(
    alloc: Global,
    cases: &mut Vec<UnitCase>,
    class: Option<usize>,
    units: &[u8],
) -> Result<(), Memory> {
    if units.is_empty() {
        return Ok(());
    }
    let place = case_place(alloc, cases, class)?;
    if let Some(case) = cases.get_mut(place) {
        case.units.extend_from_slice(units)?;
    }
    Ok(())
}

/// A case for each way of the bytes on which first questions do not decide, in the order of their first units.
pub(crate) fn all_cases(
    alloc: Global,
    table: &[u8],
    first: &[FirstQuestion],
    tests: &[Stretch],
    last: Option<usize>,
) -> Result<Vec<UnitCase>, Memory> {
    let mut cases = Vec::new(alloc);
    let mut low = 0;
    for stretch in tests {
        let units = left_units(alloc, table, first, low, stretch.greatest)?;
        push_units(alloc, &mut cases, stretch.class, units.as_slice())?;
        low = u64::from(stretch.greatest) + 1;
    }
    let units = left_units(alloc, table, first, low, 0xFF)?;
    push_units(alloc, &mut cases, last, units.as_slice())?;
    Ok(cases)
}

/// Takes out the case with most units, of equal ones the first, and gives its way.
pub(crate) fn take_most(cases: &mut Vec<UnitCase>) -> Option<usize> {
    let mut most = 0;
    let mut found = None;
    for place in 0..cases.len() {
        let count = cases[place].units.len();
        if most < count {
            most = count;
            found = Some(place);
        }
    }
    match found {
        Some(place) if place < cases.len() => cases.remove(place).class,
        _ => None,
    }
}
