//! The tests of a state, in text of a format with a table of sets.
ghost use Rattle.std.specs.Prelude.{◌≡◌, IfOk};
ghost use Rattle.lx_auto.specs.Automaton.{AreApart};
ghost use Rattle.lx_base.specs.declared.settings.Format.TheVariants.{Three};
ghost use Rattle.lx_dispatch.specs.Dispatch.{AreTestsOf, top_of};
ghost use Rattle.lx_dispatch.specs.FirstQuestions.{IsRestOf, seen_first};
ghost use Rattle.lx_dispatch.specs.TestTrees.{Ascend};
ghost use Rattle.lx_dispatch.specs.TransitionClasses.{transition_classes};
ghost use Rattle.lx_dispatch.specs.UnitApart.{reader_split};
ghost use Rattle.lx_dispatch.specs.Views.{class_list, seen_classes, seen_split, seen_stretches, seen_tree};

use crate::case_checks::is_switch;
use crate::classes::TransitionClasses;
use crate::first_questions::{FirstQuestion, fronted, right_ones};
use crate::left_splits::left_split;
use crate::proposals::proposed;
use crate::test_trees::{TestTree, split_tree};
use crate::unit_sets::UnitSets;
use crate::unit_splits::{Split, reader_split};
use crate::unit_switches::{all_cases, take_most};
use lx_auto::State;
use lx_base::{Format, Memory};
use std::alloc::Global;

/// From how many tests on a switch stands in place of them.
const MANY: usize = 16;

/// In which text units are tested, and with which sets.
#[derive(Clone, Copy)]
pub struct Asking<'a> {
    pub format: Format,
    pub sets: &'a UnitSets,
}

/// The greatest unit that is read, where one may stand at the end of the input.
fn top_of(eof: Option<u32>, greatest: u32) -> u32
    ensures { result ≡ top_of eof greatest }
{
    match eof {
        None => greatest,
        Some(unit) => unit.max(greatest),
    }
}

/// A tree for the units up to a greatest one on which first questions do not decide.
fn rest_tree(
    alloc: Global,
    table: &[u8],
    first: &[FirstQuestion],
    top: u32,
    greatest: u32,
    split: &Split,
) -> Result<TestTree, Memory>
    requires { Ascend 0 (seen_stretches split.now.tests.items) }
    ensures { IfOk result (λ tree. IsRestOf table.now top greatest (seen_split split.now) (seen_first first.now) (seen_tree tree)) }
{
    let left = left_split(alloc, table, first, top, &split.tests, split.last)?;
    if left.tests.len() < MANY || greatest != 0xFF || top != 0xFF {
        return split_tree(alloc, &left);
    }
    let tests = left.tests.as_slice();
    let mut cases = all_cases(alloc, table, first, tests, left.last)?;
    let last = take_most(&mut cases);
    if is_switch(table, first, tests, left.last, &cases, last) {
        return Ok(TestTree::Switch { cases, last });
    }
    split_tree(alloc, &left)
}

/// A tree of the tests of a split in text of format 3, with first questions that are proposed.
fn fronted_tree(
    alloc: Global,
    table: &[u8],
    eof: Option<u32>,
    greatest: u32,
    split: &Split,
    proposed: &[FirstQuestion],
) -> Result<TestTree, Memory>
    requires { Ascend 0 (seen_stretches split.now.tests.items) }
    ensures { IfOk result (λ tree. AreTestsOf Three table.now eof greatest (seen_split split.now) (seen_tree tree)) }
{
    let top = top_of(eof, greatest);
    let first = right_ones(table, top, &split.tests, split.last, proposed);
    let rest = rest_tree(alloc, table, first, top, greatest, split)?;
    fronted(alloc, first, rest)
}

/// The tests of the state with this number, in text of a format with a table of sets, for units up to a greatest one, where a unit
/// stands at the end of the input or not.
pub fn tests_of(
    alloc: Global,
    asking: Asking<'_>,
    eof: Option<u32>,
    greatest: u32,
    classes: &TransitionClasses<'_>,
    number: usize,
    state: &State,
) -> Result<TestTree, Memory>
    requires order { AreApart state.now.edges }
    requires classes { seen_classes (class_list classes.now) ≡ transition_classes state.now.edges }
    ensures { IfOk result (λ tests.
        AreTestsOf asking.entry.format asking.entry.sets.now.table.items eof greatest (reader_split eof greatest state.now.edges) (seen_tree tests)) }
{
    let edges = state.edges.as_slice();
    let split = reader_split(alloc, eof, greatest, classes, edges)?;
    match asking.format {
        Format::Two => split_tree(alloc, &split),
        Format::Three => {
            let proposed = proposed(
                alloc,
                asking.sets,
                eof,
                number,
                state,
                &split.tests,
                split.last,
            )?;
            fronted_tree(alloc, &asking.sets.table, eof, greatest, &split, &proposed)
        }
    }
}
