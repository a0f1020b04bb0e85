//! Where the code of each state of a scanner stands.
ghost use Rattle.std.specs.Prelude.{◌≡◌, ◌<◌, ◌++◌, IfOk, OnOk, length};
ghost use Rattle.lx_layout.specs.LaidParts.{ArePartEnds, ArePlaces, begin_at, place_at, places_from};

use crate::blocks::sum;
use crate::part_ends::PartEnds;
use lx_base::Memory;
use std::alloc::Global;

/// The blocks where matches end, and where the code of each state stands.
#[derive(Drop)]
pub(crate) struct PartPlaces<'a> {
    pub ends: PartEnds<'a>,
    pub states: Vec<u64>,
}

impl<'a> PartPlaces<'a> {
    /// The blocks where matches end.
    pub fn into_ends(self) -> PartEnds<'a>
        ensures { result ≡ self.entry.ends }
    {
        let Self { ends, states: _ } = self;
        ends
    }
}

/// Where the code of a state stands, whose blocks begin with `from`.
fn place_at(ends: &PartEnds<'_>, number: usize, from: u64) -> Result<u64, Memory>
    requires ends { ArePartEnds ends.now }
    requires within { number < length ends.now.plans.states.items }
    ensures { IfOk result (λ place. place ≡ place_at ends.now.plans number from) }
{
    let plans = &ends.plans;
    let state = plans.states[number].state;
    if !state.edges.as_slice().is_empty() {
        return Ok(if plans.is_entered(number) {
            from
        } else {
            plans.begin
        });
    }
    if number == 0 && plans.input.end_rule.is_none() {
        return Ok(from);
    }
    ends.end_block(from, &state.accept)
}

/// Appends where the code of each state stands.
fn append_places(places: &mut Vec<u64>, ends: &PartEnds<'_>) -> Result<(), Memory>
    requires { ArePartEnds ends.now }
    ensures { OnOk result (places.new.items ≡ places.old.items
        ++ places_from ends.now.plans 0 (begin_at ends.now.plans) ends.now.plans.input.auto.now.states) }
{
    let mut from = ends.plans.states_begin()?;
    for number in 0..ends.plans.states.len() {
        places.push(place_at(ends, number, from)?)?;
        from = sum(from, ends.plans.state_size(number)?)?;
    }
    Ok(())
}

/// Where the code of each state stands.
fn state_places(alloc: Global, ends: &PartEnds<'_>) -> Result<Vec<u64>, Memory>
    requires { ArePartEnds ends.now }
    ensures { IfOk result (λ places. places.items
        ≡ places_from ends.now.plans 0 (begin_at ends.now.plans) ends.now.plans.input.auto.now.states) }
{
    let mut places = Vec::with_capacity(alloc, ends.plans.states.len())?;
    append_places(&mut places, ends)?;
    Ok(places)
}

/// Where the code of each state of a scanner stands, by where its matches end.
pub(crate) fn part_places<'a>(alloc: Global, ends: PartEnds<'a>) -> Result<PartPlaces<'a>, Memory>
    requires { ArePartEnds ends }
    ensures places { IfOk result ArePlaces }
    ensures ends { IfOk result (λ places. places.ends ≡ ends.entry) }
{
    let states = state_places(alloc, &ends)?;
    Ok(PartPlaces { ends, states })
}
