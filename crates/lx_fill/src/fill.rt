//! The checks of an automaton.
ghost use Rattle.std.specs.Prelude.{◌≡◌, ◌<◌, ◌≤◌, ◌≢◌, All, Contains, IfOk, length, slice_index};
ghost use Rattle.lx_auto.specs.Automaton.{IsAuto};
ghost use Rattle.lx_fill.specs.Checks.{AreChecks};

use crate::longest::{keep_chosen, longest_walks};
use crate::search::searched;
use lx_auto::Auto;
use lx_base::Memory;
use std::alloc::Global;
use std::marker::Model;

/// For each state of an automaton its number, or 0 where it has none: contracts see the list of them.
///
/// A number says for how many units a scanner asks at the state, so that it need not ask again before the next number.
#[derive(Drop)]
pub struct CheckList {
    numbers: Vec<u32>,
}

impl Model for CheckList {
    ghost use Rattle.std.specs.Prelude.{List, ℕ};

    ghost Value = { List ℕ };

    ghost view = { λ checks. checks.numbers.items };
}

impl CheckList {
    /// The numbers of the states, in order. It takes no memory.
    pub fn as_slice(&self) -> &[u32]
        ensures { result.now ≡ self.now }
    {
        self.numbers.as_slice()
    }

    /// The number of a state, or 0 where it has none. It takes no memory.
    pub fn get(&self, state: u32) -> u32
        requires { state < length self.now }
        ensures { result ≡ slice_index self.now state }
    {
        self.numbers[state as usize]
    }
}

/// The checks of an automaton, in time linear in its states and edges: few of them, since a state gets one only as the start or where a
/// depth-first search finds that an edge closes a cycle there.
pub fn checks(alloc: Global, auto: &Auto) -> Result<CheckList, Memory>
    requires { IsAuto auto.now }
    ensures { IfOk result (AreChecks auto.now) }
{
    let search = searched(alloc, auto)?;
    let known = longest_walks(alloc, auto, &search.chosen, &search.order)?;
    Ok(CheckList {
        numbers: keep_chosen(known, &search.chosen),
    })
}

/// The greatest number, or 0 where no state has one. It takes no memory.
pub fn max_fill(checks: &CheckList) -> u32
    ensures bound { All (λ number. number ≤ result) checks.now }
    ensures reached { result ≢ 0 → Contains checks.now result }
{
    let mut most = 0;
    for number in &checks.numbers {
        most = most.max(*number);
    }
    most
}
