//! Decides which switches over units are right.
ghost use Rattle.std.specs.Prelude.{◌≡◌, ◌<◌, ◌++◌, ◌↔◌, ℕ, List, IsTrue, None, false, length, slice_index_or, true};
ghost use Rattle.std.specs.List.{AllByRecursion};
ghost use Rattle.lx_ccode.specs.Machine.{is_among};
ghost use Rattle.lx_ccode.specs.Validity.{AreUnitsOnce, IsByte};
ghost use Rattle.lx_dispatch.specs.FirstQuestions.{questions_of, seen_first};
ghost use Rattle.lx_dispatch.specs.LeftUnits.{any_holds};
ghost use Rattle.lx_dispatch.specs.TestTrees.{HasWay, class_on};
ghost use Rattle.lx_dispatch.specs.UnitSwitches.{AreNew, IsOwn, IsSwitchOf, units_in, way_in};
ghost use Rattle.lx_dispatch.specs.Views.{seen_stretches};

use crate::first_questions::{FirstQuestion, any_holds, has_way};
use crate::test_trees::UnitCase;
use crate::unit_splits::{Stretch, same_place};
use crate::unit_ways::set_all_ways;

fn is_byte(number: u8) -> bool
    ensures { IsTrue result ↔ IsByte number }
{
    let _number = number;
    true
}

fn are_bytes(numbers: &[u8]) -> bool
    ensures { IsTrue result ↔ AllByRecursion IsByte numbers.now }
{
    for number in numbers {
        if !is_byte(*number) {
            return false;
        }
    }
    true
}

fn is_own(case: &UnitCase) -> bool
    ensures { IsTrue result ↔ IsOwn case.now }
{
    let units = case.units.as_slice();
    let some = !units.is_empty();
    let bytes = are_bytes(units);
    some && bytes
}

fn are_own(cases: &[UnitCase]) -> bool
    ensures { IsTrue result ↔ AllByRecursion IsOwn cases.now }
{
    for case in cases {
        if !is_own(case) {
            return false;
        }
    }
    true
}

/// Whether no unit was seen before, and none stands twice; those that were seen are marked.
fn add_units(seen: &mut [bool], units: &[u8]) -> bool
    requires { length seen.now ≡ 256 }
    ensures count { length seen.new ≡ 256 }
    ensures added { result ≡ true → (more : List ℕ) → (AreNew seen.new more ↔ AreNew seen.old (units.now ++ more)) }
    ensures twice { result ≡ false → (more : List ℕ) → AreNew seen.old (units.now ++ more) → ⊥ }
{
    for unit in units {
        let place = *unit as usize;
        if seen[place] {
            return false;
        }
        seen[place] = true;
    }
    true
}

/// Whether no unit of the cases was seen before, and none stands twice; those that were seen are marked.
fn add_cases(seen: &mut [bool], cases: &[UnitCase]) -> bool
    requires { length seen.now ≡ 256 }
    ensures { IsTrue result ↔ AreNew seen.old (units_in cases.now) }
{
    for case in cases {
        if !add_units(seen, case.units.as_slice()) {
            return false;
        }
    }
    true
}

fn are_units_once(cases: &[UnitCase]) -> bool
    ensures { IsTrue result ↔ AreUnitsOnce (units_in cases.now) }
{
    let mut seen = [false; 256];
    add_cases(&mut seen, cases)
}

/// Whether units go the way of each case, by stretches.
fn have_ways(tests: &[Stretch], last: Option<usize>, cases: &[UnitCase]) -> bool
    ensures { result ≡ true → AllByRecursion (λ case. HasWay (seen_stretches tests.now) last case.class) cases.now }
{
    for case in cases {
        if !has_way(tests, last, case.class) {
            return false;
        }
    }
    true
}

/// How a unit goes by stretches.
pub(crate) fn class_on(tests: &[Stretch], last: Option<usize>, unit: u32) -> Option<usize>
    ensures { result ≡ class_on (seen_stretches tests.now) last unit }
{
    for stretch in tests {
        if unit <= stretch.greatest {
            return stretch.class;
        }
    }
    last
}

/// Whether each byte on which first questions do not decide goes as by stretches.
fn ways_lead(
    table: &[u8],
    first: &[FirstQuestion],
    tests: &[Stretch],
    last: Option<usize>,
    ways: &[Option<usize>],
) -> bool
    requires { length ways.now ≡ 256 }
    ensures { result ≡ true → (unit : ℕ) → unit < 256 → any_holds (is_among table.now) (questions_of (seen_first first.now)) unit ≡ false
        → slice_index_or ways.now unit None ≡ class_on (seen_stretches tests.now) last unit }
{
    for unit in 0..256 {
        let leads = any_holds(table, first, unit)
            || same_place(ways[unit as usize], class_on(tests, last, unit));
        if !leads {
            return false;
        }
    }
    true
}

/// Whether each byte on which first questions do not decide goes by cases as by stretches.
fn cases_lead(
    table: &[u8],
    first: &[FirstQuestion],
    tests: &[Stretch],
    last: Option<usize>,
    cases: &[UnitCase],
    other: Option<usize>,
) -> bool
    ensures { result ≡ true → (unit : ℕ) → unit < 256 → any_holds (is_among table.now) (questions_of (seen_first first.now)) unit ≡ false
        → way_in cases.now other unit ≡ class_on (seen_stretches tests.now) last unit }
{
    let mut ways = [other; 256];
    set_all_ways(&mut ways, cases);
    ways_lead(table, first, tests, last, &ways)
}

/// Whether a switch is right for the bytes on which first questions do not decide, which go by stretches.
pub(crate) fn is_switch(
    table: &[u8],
    first: &[FirstQuestion],
    tests: &[Stretch],
    last: Option<usize>,
    cases: &[UnitCase],
    other: Option<usize>,
) -> bool
    ensures { result ≡ true → IsSwitchOf (any_holds (is_among table.now) (questions_of (seen_first first.now))) (seen_stretches tests.now) last cases.now other }
{
    let some = !cases.is_empty();
    let each = are_own(cases);
    let once = are_units_once(cases);
    let ways = have_ways(tests, last, cases);
    let rest = has_way(tests, last, other);
    let leads = cases_lead(table, first, tests, last, cases, other);
    some && each && once && ways && rest && leads
}
