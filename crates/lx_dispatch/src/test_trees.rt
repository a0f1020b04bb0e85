//! Tests of a unit as a tree.
ghost use Rattle.std.specs.Prelude.{◌≡◌, ◌+◌, ◌-◌, ◌*◌, ◌^◌, ◌<◌, ◌≤◌, IfOk, length};
ghost use Rattle.lx_dispatch.specs.TestTrees.{Ascend, IsTreeOf, IsTreeWithin};
ghost use Rattle.lx_dispatch.specs.Views.{seen_split, seen_stretches, seen_tree};

use crate::unit_splits::{Split, Stretch};
use lx_base::Memory;
use std::alloc::Global;

/// What a test asks of a unit.
#[derive(Clone, Copy)]
pub enum Question {
    /// Whether it is at most a greatest one.
    AtMost(u32),
    /// Whether it is one unit.
    Is(u32),
    /// Whether it is in the set with a number.
    Among(u32),
}

/// Units that go by the class at a place, or by none.
#[derive(Drop)]
pub struct UnitCase {
    pub units: Vec<u8>,
    pub class: Option<usize>,
}

/// How units go: by the class at a place, counted from 0, or by none.
pub enum TestTree {
    /// All of them by one class.
    Leaf(Option<usize>),
    /// Those of which a question holds by one class, and others by a tree.
    Test {
        question: Question,
        class: Option<usize>,
        high: Box<TestTree>,
    },
    /// Those up to a greatest one by a tree, and others by another one.
    Fork {
        greatest: u32,
        low: Box<TestTree>,
        high: Box<TestTree>,
    },
    /// Each by the first case that has it, and others by a last class.
    Switch {
        cases: Vec<UnitCase>,
        last: Option<usize>,
    },
}

impl Drop for TestTree {
    fn drop(self) {
        match self {
            Self::Leaf(_) => {}
            Self::Test {
                question: _,
                class: _,
                high: _,
            } => {}
            Self::Fork {
                greatest: _,
                low: _,
                high: _,
            } => {}
            Self::Switch { cases: _, last: _ } => {}
        }
    }
}

/// The units behind which a test is wished for, each before the next ones: the last ones before the digits, before the small
/// letters, and before the capital letters, the space, and the last small letter. Texts are made of few such groups of ASCII, whose
/// units are mostly of one class, so that a test between two groups spares others.
const GROUP_ENDS: [u32; 5] = [0x2F, 0x60, 0x40, 0x20, 0x7A];

/// The place of the test that comes first, of those from `low` up to `high`: behind a group of ASCII, or in the middle.
fn chosen_place(tests: &[Stretch], low: usize, high: usize) -> usize
    requires { low ≤ high }
    ensures least { low ≤ result }
    ensures most { result ≤ high }
{
    for unit in GROUP_ENDS {
        match tests.iter().position(|test| test.greatest == unit) {
            Some(place) if low <= place && place <= high => return place,
            _ => {}
        }
    }
    low + (high - low) / 2
}

/// The place of the test that comes first, where a unit may be tested `left` times: one test less has to do on each side of it.
fn first_place(tests: &[Stretch], left: u32) -> usize
    requires some { 0 < length tests.now }
    requires fit { length tests.now < 2 ^ left }
    requires few { left ≤ 64 }
    ensures within { result < length tests.now }
    ensures low { result < 2 ^ (left - 1) }
    ensures high { length tests.now ≤ result + 2 ^ (left - 1) }
{
    // A side has fewer tests than this.
    let most = 2usize.pow(left - 1);
    let low = tests.len().saturating_sub(most);
    if tests.len() <= left as usize {
        // They may come one after another, from the first one on.
        return low;
    }
    let high = tests.len().min(most) - 1;
    chosen_place(tests, low, high)
}

/// A tree of tests that tests no unit more than `left` times.
fn tree_of(
    alloc: Global,
    tests: &[Stretch],
    last: Option<usize>,
    left: u32,
) -> Result<TestTree, Memory>
    requires order { Ascend 0 (seen_stretches tests.now) }
    requires fit { length tests.now < 2 ^ left }
    requires few { left ≤ 64 }
    ensures { IfOk result (λ tree. IsTreeWithin left (record { tests = seen_stretches tests.now; last = last }) (seen_tree tree)) }
{
    if tests.is_empty() {
        return Ok(TestTree::Leaf(last));
    }
    let place = first_place(tests, left);
    let Stretch { greatest, class } = tests[place];
    let high = Box::new(alloc, tree_of(alloc, &tests[place + 1..], last, left - 1)?)?;
    if place == 0 {
        return Ok(TestTree::Test {
            question: Question::AtMost(greatest),
            class,
            high,
        });
    }
    let low = Box::new(alloc, tree_of(alloc, &tests[..place], class, left - 1)?)?;
    Ok(TestTree::Fork {
        greatest,
        low,
        high,
    })
}

/// How many binary digits a number has.
fn digit_count(number: usize) -> u32
    requires { 0 < number }
    ensures least { number < 2 ^ result }
    ensures most { 2 ^ result ≤ 2 * number }
    ensures few { result ≤ 64 }
{
    number.ilog2() + 1
}

/// The tests of a split as a tree, in which no unit is tested more often than the number of the runs has binary digits. The units
/// behind the last test are a run, too.
pub(crate) fn split_tree(alloc: Global, split: &Split) -> Result<TestTree, Memory>
    requires { Ascend 0 (seen_stretches split.now.tests.items) }
    ensures { IfOk result (λ tree. IsTreeOf (seen_split split.now) (seen_tree tree)) }
{
    let runs = split.tests.len() + 1;
    tree_of(alloc, &split.tests, split.last, digit_count(runs))
}
