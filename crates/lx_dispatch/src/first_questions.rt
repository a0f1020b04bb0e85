//! First questions: whether a unit is one unit, or in a set of a table.
ghost use Rattle.std.specs.Prelude.{◌≡◌, ℕ, ◌≤◌, IfOk, true, slice_index};
ghost use Rattle.lx_ccode.specs.Machine.{is_among};
ghost use Rattle.lx_dispatch.specs.FirstQuestions.{AreAsked, AreFirst, IsFirstQuestion, LeadFrom, first_way, questions_of, seen_first};
ghost use Rattle.lx_dispatch.specs.Dispatch.{fronted};
ghost use Rattle.lx_dispatch.specs.LeftUnits.{any_holds};
ghost use Rattle.lx_dispatch.specs.TestTrees.{HasWay, holds};
ghost use Rattle.lx_dispatch.specs.Views.{seen_question, seen_stretches, seen_tree};

use crate::test_trees::{Question, TestTree};
use crate::unit_splits::{Stretch, same_place};
use lx_base::Memory;
use std::alloc::Global;

/// How many first questions are asked at most.
const MOST: usize = 5;

/// A first question, and the way of the units of which it is the first that holds.
#[derive(Clone, Copy)]
pub(crate) struct FirstQuestion {
    pub question: Question,
    pub class: Option<usize>,
}

/// The byte at a place, or 0 behind the end.
fn byte_at(table: &[u8], place: u64) -> u8
    ensures { result ≡ slice_index table.now place }
{
    let place = place as usize;
    if place < table.len() { table[place] } else { 0 }
}

/// Whether a unit is in a set of a table.
fn is_among(table: &[u8], set: u32, unit: u32) -> bool
    ensures { result ≡ is_among table.now set unit }
{
    if unit > 0xFF {
        return false;
    }
    let place = 256 * u64::from(set / 8) + u64::from(unit);
    (byte_at(table, place) >> (set % 8)) % 2 == 1
}

/// Whether a question holds of a unit.
fn holds(table: &[u8], question: Question, unit: u32) -> bool
    ensures { result ≡ holds (is_among table.now) (seen_question question) unit }
{
    match question {
        Question::AtMost(greatest) => unit <= greatest,
        Question::Is(one) => unit == one,
        Question::Among(set) => is_among(table, set, unit),
    }
}

/// Whether one of some first questions holds of a unit.
pub(crate) fn any_holds(table: &[u8], first: &[FirstQuestion], unit: u32) -> bool
    ensures { result ≡ any_holds (is_among table.now) (questions_of (seen_first first.now)) unit }
{
    for one in first {
        if holds(table, one.question, unit) {
            return true;
        }
    }
    false
}

/// How a unit goes: by the first question that holds, or else another way.
fn first_way(
    table: &[u8],
    first: &[FirstQuestion],
    other: Option<usize>,
    unit: u32,
) -> Option<usize>
    ensures { result ≡ first_way (is_among table.now) (seen_first first.now) other unit }
{
    for one in first {
        if holds(table, one.question, unit) {
            return one.class;
        }
    }
    other
}

/// Whether each unit from a lowest one up to a greatest one, of those up to 0xFF, goes a way by first questions, if it goes on.
fn units_lead(
    table: &[u8],
    first: &[FirstQuestion],
    class: Option<usize>,
    low: u64,
    greatest: u32,
) -> bool
    ensures { result ≡ true → (unit : ℕ) → low ≤ unit → unit ≤ greatest → unit ≤ 0xFF
        → first_way (is_among table.now) (seen_first first.now) class unit ≡ class }
{
    let end = u64::from(greatest.min(0xFF)) + 1;
    for unit in low..end {
        if !same_place(first_way(table, first, class, unit as u32), class) {
            return false;
        }
    }
    true
}

/// Whether first questions lead each unit up to a greatest one, of those up to 0xFF, as stretches do.
fn lead(
    table: &[u8],
    first: &[FirstQuestion],
    top: u32,
    tests: &[Stretch],
    last: Option<usize>,
) -> bool
    ensures { result ≡ true → LeadFrom (is_among table.now) (seen_first first.now) 0 top (seen_stretches tests.now) last }
{
    let mut low = 0;
    for stretch in tests {
        if !units_lead(table, first, stretch.class, low, stretch.greatest) {
            return false;
        }
        low = u64::from(stretch.greatest) + 1;
    }
    units_lead(table, first, last, low, top)
}

/// Whether some units go a way, by stretches and behind the last one.
pub(crate) fn has_way(tests: &[Stretch], last: Option<usize>, class: Option<usize>) -> bool
    ensures { result ≡ true → HasWay (seen_stretches tests.now) last class }
{
    for stretch in tests {
        if same_place(class, stretch.class) {
            return true;
        }
    }
    same_place(class, last)
}

/// Whether a question may come first, with a table of sets that has so many bytes.
fn is_first_question(room: usize, question: Question) -> bool
    ensures { result ≡ true → IsFirstQuestion room (seen_question question) }
{
    match question {
        Question::AtMost(_) => false,
        Question::Is(unit) => unit <= 0xFF,
        Question::Among(set) => 32 * u64::from(set) < room as u64,
    }
}

/// Whether questions may come first, and some units go their ways.
fn are_asked(room: usize, tests: &[Stretch], last: Option<usize>, first: &[FirstQuestion]) -> bool
    ensures { result ≡ true → AreAsked room (record { tests = seen_stretches tests.now; last = last }) (seen_first first.now) }
{
    for one in first {
        if !is_first_question(room, one.question) {
            return false;
        }
        if !has_way(tests, last, one.class) {
            return false;
        }
    }
    true
}

/// Whether first questions are few, may be asked, and lead each unit up to a greatest one as stretches do.
fn are_first(
    table: &[u8],
    top: u32,
    tests: &[Stretch],
    last: Option<usize>,
    first: &[FirstQuestion],
) -> bool
    ensures { result ≡ true → AreFirst table.now top (record { tests = seen_stretches tests.now; last = last }) (seen_first first.now) }
{
    if first.len() > MOST {
        return false;
    }
    if !are_asked(table.len(), tests, last, first) {
        return false;
    }
    lead(table, first, top, tests, last)
}

/// The first questions that are proposed, where they lead right, or else none.
pub(crate) fn right_ones<'a>(
    table: &[u8],
    top: u32,
    tests: &[Stretch],
    last: Option<usize>,
    proposed: &'a [FirstQuestion],
) -> &'a [FirstQuestion]
    ensures { AreFirst table.now top (record { tests = seen_stretches tests.now; last = last }) (seen_first result.now) }
{
    if !proposed.is_empty() && are_first(table, top, tests, last, proposed) {
        return proposed;
    }
    &proposed[..0]
}

/// First questions before a tree.
pub(crate) fn fronted(
    alloc: Global,
    first: &[FirstQuestion],
    rest: TestTree,
) -> Result<TestTree, Memory>
    ensures { IfOk result (λ tree. seen_tree tree ≡ fronted (seen_first first.now) (seen_tree rest)) }
{
    let mut tree = rest;
    for passed in 0..first.len() {
        let FirstQuestion { question, class } = first[first.len() - 1 - passed];
        let high = Box::new(alloc, tree)?;
        tree = TestTree::Test {
            question,
            class,
            high,
        };
    }
    Ok(tree)
}
