//! Decides which cases a switch over units may have.
ghost use Rattle.std.specs.Prelude.{◌≡◌, ◌<◌, ◌++◌, ◌↔◌, ℕ, List, IsTrue, false, length, map, true};
ghost use Rattle.std.specs.List.{AllByRecursion};
ghost use Rattle.lx_ccode.specs.Validity.{AreSwitchCases, AreUnitsOnce, IsByte, IsSwitchCase, units_of};
ghost use Rattle.lx_creader.specs.UnitCases.{AreNew};

use crate::statements::is_long;
use lx_ccode::SwitchCase;

/// Whether a switch may have the cases: there is one, each has a unit, and no unit stands twice.
pub(crate) fn are_switch_cases(cases: &[SwitchCase]) -> bool
    ensures { IsTrue result ↔ AreSwitchCases cases.now }
{
    let some = !cases.is_empty();
    let each = are_each_cases(cases);
    let once = are_units_once(cases);
    some && each && once
}

/// Whether each case goes to one of so many blocks.
pub(crate) fn lead_below(blocks: usize, cases: &[SwitchCase]) -> bool
    ensures { IsTrue result ↔ AllByRecursion (λ block. block < blocks) (map (λ case. case.block) cases.now) }
{
    for case in cases {
        if case.block >= blocks as u64 {
            return false;
        }
    }
    true
}

fn are_each_cases(cases: &[SwitchCase]) -> bool
    ensures { IsTrue result ↔ AllByRecursion IsSwitchCase cases.now }
{
    for case in cases {
        if !is_case(case) {
            return false;
        }
    }
    true
}

fn is_case(case: &SwitchCase) -> bool
    ensures { IsTrue result ↔ IsSwitchCase case.now }
{
    let units = case.units.as_slice();
    let some = !units.is_empty();
    let bytes = are_bytes(units);
    let block = is_long(case.block);
    some && bytes && block
}

/// Whether the numbers have at most 8 bits, as each has that a list of bytes can hold.
pub(crate) fn are_bytes(numbers: &[u8]) -> bool
    ensures { IsTrue result ↔ AllByRecursion IsByte numbers.now }
{
    for number in numbers {
        if !is_byte(*number) {
            return false;
        }
    }
    true
}

fn is_byte(number: u8) -> bool
    ensures { IsTrue result ↔ IsByte number }
{
    let _number = number;
    true
}

fn are_units_once(cases: &[SwitchCase]) -> bool
    ensures { IsTrue result ↔ AreUnitsOnce (units_of cases.now) }
{
    let mut seen = [false; 256];
    add_cases(&mut seen, cases)
}

/// Whether no unit of the cases was seen before, and none stands twice; those that were seen are marked.
fn add_cases(seen: &mut [bool], cases: &[SwitchCase]) -> bool
    requires { length seen.now ≡ 256 }
    ensures { IsTrue result ↔ AreNew seen.old (units_of cases.now) }
{
    for case in cases {
        if !add_units(seen, case.units.as_slice()) {
            return false;
        }
    }
    true
}

/// Whether no unit was seen before, and none stands twice; those that were seen are marked.
fn add_units(seen: &mut [bool], units: &[u8]) -> bool
    requires { length seen.now ≡ 256 }
    ensures count { length seen.new ≡ 256 }
    ensures added { result ≡ true → (more : List ℕ) → (AreNew seen.new more ↔ AreNew seen.old (units.now ++ more)) }
    ensures twice { result ≡ false → (more : List ℕ) → AreNew seen.old (units.now ++ more) → ⊥ }
{
    for unit in units {
        let place = *unit as usize;
        if seen[place] {
            return false;
        }
        seen[place] = true;
    }
    true
}
