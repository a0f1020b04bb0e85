//! The runs of units that are left where first questions have decided on some.
ghost use Rattle.std.specs.Prelude.{◌≡◌, ◌++◌, IfOk, OnOk};
ghost use Rattle.lx_ccode.specs.Machine.{is_among};
ghost use Rattle.lx_dispatch.specs.FirstQuestions.{questions_of, seen_first, waiting_tests};
ghost use Rattle.lx_dispatch.specs.LeftUnits.{all_between, any_holds, left_split};
ghost use Rattle.lx_dispatch.specs.Views.{seen_split, seen_stretches};

use crate::first_questions::{FirstQuestion, any_holds};
use crate::unit_splits::{Split, Stretch, same_place};
use lx_base::Memory;
use std::alloc::Global;

/// Whether first questions decide on each unit from a lowest one up to a greatest one.
fn all_decided(table: &[u8], first: &[FirstQuestion], low: u64, greatest: u32) -> bool
    ensures { result ≡ all_between (any_holds (is_among table.now) (questions_of (seen_first first.now))) low greatest }
{
    let end = u64::from(greatest) + 1;
    for unit in low..end {
        if !any_holds(table, first, unit as u32) {
            return false;
        }
    }
    true
}

/// Appends the test of a stretch that waits for the way of the next units, if it waits and these go another way.
fn push_waiting(
    tests: &mut Vec<Stretch>,
    waiting: Option<Stretch>,
    class: Option<usize>,
) -> Result<(), Memory>
    ensures { OnOk result (seen_stretches tests.new.items ≡ seen_stretches tests.old.items ++ waiting_tests waiting class) }
{
    if let Some(stretch) = waiting {
        if !same_place(stretch.class, class) {
            tests.push(stretch)?;
        }
    }
    Ok(())
}

/// The tests for units up to a greatest one on which first questions do not decide.
pub(crate) fn left_split(
    alloc: Global,
    table: &[u8],
    first: &[FirstQuestion],
    top: u32,
    stretches: &[Stretch],
    last: Option<usize>,
) -> Result<Split, Memory>
    ensures { IfOk result (λ left. seen_split left
        ≡ left_split (any_holds (is_among table.now) (questions_of (seen_first first.now))) top
        (record { tests = seen_stretches stretches.now; last = last })) }
{
    let mut tests = Vec::new(alloc);
    let mut waiting = None;
    let mut low = 0;
    for stretch in stretches {
        if !all_decided(table, first, low, stretch.greatest) {
            push_waiting(&mut tests, waiting, stretch.class)?;
            waiting = Some(*stretch);
        }
        low = u64::from(stretch.greatest) + 1;
    }
    if !all_decided(table, first, low, top) {
        push_waiting(&mut tests, waiting, last)?;
        return Ok(Split { tests, last });
    }
    match waiting {
        Some(stretch) => Ok(Split {
            tests,
            last: stretch.class,
        }),
        None => Ok(Split {
            tests: Vec::new(alloc),
            last,
        }),
    }
}
