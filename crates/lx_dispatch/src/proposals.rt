//! Proposes first questions for the tests of a state.
use crate::case_checks::class_on;
use crate::first_questions::FirstQuestion;
use crate::test_trees::Question;
use crate::unit_masks::UnitMask;
use crate::unit_sets::{UnitSets, own_set};
use crate::unit_splits::{Stretch, same_place};
use lx_auto::State;
use lx_base::Memory;
use std::alloc::Global;

/// From how many runs on a way may be asked for by a set.
const LEAST_RUNS: u32 = 3;

/// Of fewer tests no way has so many runs: between two runs of a way stands one of another way, and the last run has no test.
const LEAST_TESTS: usize = 4;

/// How many units of a set may go another way.
const MOST_OTHERS: u32 = 4;

/// A way, and how many runs of units up to 0xFF go it.
#[derive(Clone, Copy)]
struct Way {
    class: Option<usize>,
    runs: u32,
}

/// A set that has all units of a way, and those of its units that go another way.
#[derive(Clone, Copy)]
struct Choice {
    class: Option<usize>,
    runs: u32,
    set: u32,
    others: UnitMask,
    count: u32,
}

/// Counts a run of a way that begins at a unit up to 0xFF.
fn count_run(ways: &mut Vec<Way>, class: Option<usize>) -> Result<(), Memory> {
    for place in 0..ways.len() {
        let mut way = ways[place];
        if same_place(way.class, class) {
            way.runs = way.runs.saturating_add(1);
            ways[place] = way;
            return Ok(());
        }
    }
    let runs = 1;
    ways.push(Way { class, runs })?;
    Ok(())
}

/// The ways of stretches.
fn ways_of(alloc: Global, tests: &[Stretch], last: Option<usize>) -> Result<Vec<Way>, Memory> {
    let mut ways = Vec::new(alloc);
    for stretch in tests {
        count_run(&mut ways, stretch.class)?;
        if stretch.greatest >= 0xFF {
            return Ok(ways);
        }
    }
    count_run(&mut ways, last)?;
    Ok(ways)
}

/// The units up to 0xFF that go a way.
fn units_of(class: Option<usize>, tests: &[Stretch], last: Option<usize>) -> UnitMask {
    let mut units = UnitMask::none();
    let mut low = 0;
    for stretch in tests {
        if same_place(stretch.class, class) {
            units.add(low, stretch.greatest);
        }
        low = stretch.greatest.saturating_add(1);
    }
    if same_place(last, class) {
        units.add(low, 0xFF);
    }
    units
}

/// The number of a set, if it is one of some.
fn set_number(masks: &[UnitMask], set: &UnitMask) -> Option<u32> {
    for (place, mask) in masks.iter().enumerate() {
        if place < 64 && mask.equals(set) {
            return Some(place as u32);
        }
    }
    None
}

/// Which set is to be asked for a way: one that lacks fewest units of it, of equal ones the first.
fn chosen_set(masks: &[UnitMask], way: &Way, units: &UnitMask) -> Option<Choice> {
    let mut chosen: Option<Choice> = None;
    let mut least = MOST_OTHERS + 1;
    for (place, mask) in masks.iter().enumerate() {
        let others = mask.without(units);
        let count = others.count();
        if place < 64 && count < least && units.without(mask).is_empty() {
            least = count;
            chosen = Some(Choice {
                class: way.class,
                runs: way.runs,
                set: place as u32,
                others,
                count,
            });
        }
    }
    chosen
}

/// Whether a choice comes before another one: it is for more runs, or for as many with fewer other units, or with a lower set.
fn comes_before(choice: &Choice, other: &Choice) -> bool {
    if choice.runs != other.runs {
        return choice.runs > other.runs;
    }
    if choice.count != other.count {
        return choice.count < other.count;
    }
    choice.set < other.set
}

/// The better one of a choice and one that was found before, if there are such.
fn better(found: Option<Choice>, choice: Option<Choice>) -> Option<Choice> {
    match (found, choice) {
        (Some(found), Some(choice)) => {
            if comes_before(&choice, &found) {
                Some(choice)
            } else {
                Some(found)
            }
        }
        (None, choice) => choice,
        (found, None) => found,
    }
}

/// Which way is to be asked for first, and by which set.
fn chosen_way(
    masks: &[UnitMask],
    ways: &[Way],
    tests: &[Stretch],
    last: Option<usize>,
) -> Option<Choice> {
    let mut chosen = None;
    for way in ways {
        if way.runs >= LEAST_RUNS {
            let units = units_of(way.class, tests, last);
            chosen = better(chosen, chosen_set(masks, way, &units));
        }
    }
    chosen
}

/// Questions for single units of a choice, and then for its set.
fn questions_for(
    alloc: Global,
    choice: &Choice,
    tests: &[Stretch],
    last: Option<usize>,
) -> Result<Vec<FirstQuestion>, Memory> {
    let mut first = Vec::new(alloc);
    let mut low = 0;
    for _ in 0..MOST_OTHERS {
        if let Some(unit) = choice.others.first_from(low) {
            let question = Question::Is(unit);
            let class = class_on(tests, last, unit);
            first.push(FirstQuestion { question, class })?;
            low = unit.saturating_add(1);
        }
    }
    let question = Question::Among(choice.set);
    let class = choice.class;
    first.push(FirstQuestion { question, class })?;
    Ok(first)
}

/// The question for the own set of a state, if it has a number.
fn own_question(
    masks: &[UnitMask],
    own: &UnitMask,
    tests: &[Stretch],
    last: Option<usize>,
) -> Option<FirstQuestion> {
    if own.is_empty() {
        return None;
    }
    match (own.first_from(0), set_number(masks, own)) {
        (Some(unit), Some(set)) => Some(FirstQuestion {
            question: Question::Among(set),
            class: class_on(tests, last, unit),
        }),
        _ => None,
    }
}

/// First questions for the tests of the state with this number, where a unit stands at the end of the input or not.
pub(crate) fn proposed(
    alloc: Global,
    sets: &UnitSets,
    eof: Option<u32>,
    number: usize,
    state: &State,
    tests: &[Stretch],
    last: Option<usize>,
) -> Result<Vec<FirstQuestion>, Memory> {
    let mut first = Vec::new(alloc);
    let masks = sets.masks();
    if tests.is_empty() || masks.is_empty() {
        return Ok(first);
    }
    let own = own_set(eof, number, state);
    if let Some(question) = own_question(masks, &own, tests, last) {
        first.push(question)?;
        return Ok(first);
    }
    if tests.len() < LEAST_TESTS {
        return Ok(first);
    }
    let ways = ways_of(alloc, tests, last)?;
    match chosen_way(masks, &ways, tests, last) {
        Some(choice) => questions_for(alloc, &choice, tests, last),
        None => Ok(first),
    }
}
