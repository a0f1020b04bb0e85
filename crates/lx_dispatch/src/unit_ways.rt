//! How each byte goes by the cases of a switch.
ghost use Rattle.std.specs.Prelude.{◌≡◌, ◌<◌, ℕ, None, length, slice_index_or, if◌then◌else◌};
ghost use Rattle.lx_ccode.specs.Machine.{has_unit};
ghost use Rattle.lx_dispatch.specs.UnitSwitches.{way_in};

use crate::test_trees::UnitCase;

/// Sets how some units go.
fn set_ways(ways: &mut [Option<usize>], units: &[u8], class: Option<usize>)
    requires { length ways.now ≡ 256 }
    ensures count { length ways.new ≡ 256 }
    ensures set { (unit : ℕ) → unit < 256
        → slice_index_or ways.new unit None ≡ (if has_unit units.now unit then class else slice_index_or ways.old unit None) }
{
    for unit in units {
        ways[*unit as usize] = class;
    }
}

/// Sets how each unit of some cases goes by them.
pub(crate) fn set_all_ways(ways: &mut [Option<usize>], cases: &[UnitCase])
    requires { length ways.now ≡ 256 }
    ensures count { length ways.new ≡ 256 }
    ensures set { (unit : ℕ) → unit < 256 → slice_index_or ways.new unit None ≡ way_in cases.now (slice_index_or ways.old unit None) unit }
{
    for passed in 0..cases.len() {
        let case = &cases[cases.len() - 1 - passed];
        set_ways(ways, case.units.as_slice(), case.class);
    }
}
