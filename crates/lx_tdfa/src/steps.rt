//! Steps over a unit, and the first ending.
ghost use Rattle.std.specs.Prelude.{◌≡◌, IfOk, map, option_map};
ghost use Rattle.lx_tnfa.specs.Closure.{AllPlaces, IsTarget};
ghost use Rattle.lx_tdfa.specs.Making.{seen_ending, seen_step};
ghost use Rattle.lx_tdfa.specs.Steps.{first_ending, next_steps, places_of, step_indices, step_on};

use lx_base::Memory;
use lx_tnfa::{Place, Reach, Target, Tnfa, Visited};
use std::alloc::Global;

/// A step over a unit: by the walk to a target, and on to a place.
#[derive(Clone, Copy)]
pub struct Step<'a> {
    /// The target, with the walk there.
    pub reach: &'a Reach,
    /// The index of the target among those of its closure.
    pub index: usize,
    /// The place behind the unit.
    pub to: Place,
}

/// The end of the rule with this number, and the walk there.
#[derive(Clone, Copy)]
pub struct Ending<'a> {
    /// The number of the rule.
    pub rule: u32,
    /// The target, with the walk there.
    pub reach: &'a Reach,
}

/// The place to which a target leads over a unit, if there is one.
fn place_behind(t: &Tnfa, reach: &Reach, unit: u32) -> Option<Place>
    requires { IsTarget t.now reach.now.to }
    ensures { step_on t.now unit reach.now ≡ option_map (λ to. record { from = reach.now.from; events = reach.now.events; to = to }) result }
{
    match reach.to {
        Target::Leaf(place) => t.next(&place, unit),
        Target::End(_) => None,
    }
}

/// The steps over a unit by the targets of a closure: for each place the first one that leads there. `seen` may hold anything.
/// Its only error is want of memory.
pub fn next_steps<'a>(
    alloc: Global,
    t: &Tnfa,
    seen: &mut Visited<Place>,
    reaches: &'a [Reach],
    unit: u32,
) -> Result<Vec<Step<'a>>, Memory>
    requires { AllPlaces t.now reaches.now }
    ensures steps { IfOk result (λ steps. map seen_step steps.items ≡ next_steps t.now unit reaches.now) }
    ensures indices { IfOk result (λ steps. map (λ step. step.index) steps.items ≡ step_indices t.now unit reaches.now) }
{
    seen.clear();
    let mut steps = Vec::new(alloc);
    for (index, reach) in reaches.iter().enumerate() {
        if let Some(to) = place_behind(t, reach, unit) {
            if seen.add(to)? {
                steps.push(Step { reach, index, to })?;
            }
        }
    }
    Ok(steps)
}

/// The first end among the targets of a closure. It takes no memory.
pub fn first_ending(reaches: &[Reach]) -> Option<Ending<'_>>
    ensures { option_map seen_ending result ≡ first_ending reaches.now }
{
    for reach in reaches {
        if let Target::End(rule) = reach.to {
            return Some(Ending { rule, reach });
        }
    }
    None
}

/// The places to which steps lead. Its only error is want of memory.
pub fn step_places(alloc: Global, steps: &[Step<'_>]) -> Result<Vec<Place>, Memory>
    ensures { IfOk result (λ places. places.items ≡ places_of (map seen_step steps.now)) }
{
    let mut places = Vec::new(alloc);
    for step in steps {
        places.push(step.to)?;
    }
    Ok(places)
}
