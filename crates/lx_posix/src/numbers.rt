//! The numbers of neighbours of the next kernel, read off the ways that lead to them.
ghost use Rattle.std.specs.Prelude.{◌≡◌, ◌<◌, ◌^◌, ℕ, List, length, min};
ghost use Rattle.lx_base.specs.declared.settings.Enc.{Enc};
ghost use Rattle.lx_posix.specs.Beginnings.{AreBeginnings, AreByRule};
ghost use Rattle.lx_posix.specs.Comparing.{Ranked, compared};
ghost use Rattle.lx_posix.specs.LevelSearch.{ArePlaceDepths};
ghost use Rattle.lx_posix.specs.Finding.{IsSearchable, beginning_at};
ghost use Rattle.lx_posix.specs.Spots.{spots_to};
ghost use Rattle.lx_posix.specs.WayNumbers.{FitsOnWay, IsFound, depth_behind, lowest_on_way, lowest_to, next_state, number_of_fork, number_of_ways, numbers_between, state_number, walk_to};
ghost use Rattle.lx_regex.specs.Automaton.{automaton};
ghost use Rattle.lx_regex.specs.Pattern.{Pattern, terms_of};
ghost use Rattle.lx_tnfa.specs.Live.{state_of};
ghost use Rattle.lx_tnfa.specs.Moves.{moves_in};
ghost use Rattle.lx_tnfa.specs.Tnfa.{IsTnfaOf};

use crate::courses::shared;
use crate::points::{Beginning, Point};
use crate::search::Found;
use crate::spots::Spot;
use lx_tnfa::Tnfa;

/// The state to which the move with this index leads.
pub(crate) fn next_state(t: &Tnfa, state: u32, index: u32) -> u32
    requires { index < length (moves_in (state_of t.now.states state)) }
    ensures { result ≡ next_state t.now state index }
{
    t.moves(state)[index as usize].to
}

/// How many parts are open behind a state to which a move leads from such a depth: at an even state a part begins, at an odd one it ends.
pub(crate) fn depth_behind(depth: u32, state: u32) -> u32
    requires { depth_behind depth state < 2 ^ 32 }
    ensures { result ≡ depth_behind depth state }
{
    if state % 2 == 0 {
        depth + 1
    } else {
        depth.saturating_sub(1)
    }
}

/// The lowest depth on a way from a state with this depth, where `low` was the lowest so far. It takes no memory.
fn lowest_on_way(t: &Tnfa, state: u32, depth: u32, low: u32, way: &[u32]) -> u32
    requires { FitsOnWay t.now state depth way.now }
    ensures { result ≡ lowest_on_way t.now state depth low way.now }
{
    let mut at = state;
    let mut here = depth;
    let mut lowest = low;
    let mut left = way;
    while let Some((index, behind)) = left.split_first() {
        at = next_state(t, at, *index);
        here = depth_behind(here, at);
        lowest = lowest.min(here);
        left = behind;
    }
    lowest
}

/// The number of two ways from one state with this depth: the lowest depth on either from where they part. It takes no memory.
fn number_of_fork(t: &Tnfa, state: u32, depth: u32, way: &[u32], other: &[u32]) -> u32
    requires way { FitsOnWay t.now state depth way.now }
    requires other { FitsOnWay t.now state depth other.now }
    ensures { result ≡ number_of_fork t.now state depth way.now other.now }
{
    let mut at = state;
    let mut here = depth;
    let mut left = way;
    let mut others = other;
    while let Some((index, behind)) = left.split_first() {
        let Some((second, rest)) = others.split_first() else {
            return here;
        };
        if *index != *second {
            let lowest = lowest_on_way(t, at, here, here, left);
            return lowest.min(lowest_on_way(t, at, here, here, others));
        }
        at = next_state(t, at, *index);
        here = depth_behind(here, at);
        left = behind;
        others = rest;
    }
    here
}

/// The number of two places of one rule: the least of those behind the first up to the last. Of different rules it is 0. It takes no
/// memory.
fn number_between(beginnings: &[Beginning], first: u32, last: u32) -> u32
    requires order { first < last }
    requires within { last < length beginnings.now }
    ensures { result ≡ numbers_between beginnings.now first last }
{
    let mut least = beginnings[last as usize].number;
    for beginning in &beginnings[first as usize + 1..last as usize] {
        least = least.min(beginning.number);
    }
    least
}

/// The state from which moves lead on; from within a leaf none do.
pub(crate) fn state_number(at: Point) -> u32
    ensures { result ≡ state_number at }
{
    match at {
        Point::State(number) => number,
        Point::Within(_) => 0,
    }
}

/// The lowest depth on the way to a point, that of the place included from which it begins. It takes no memory.
fn lowest_to(t: &Tnfa, beginnings: &[Beginning], found: &Found) -> u32
    requires depths { IsSearchable t.now beginnings.now }
    requires way { IsFound t.now beginnings.now found.now }
    ensures { result ≡ lowest_to t.now beginnings.now found.now }
{
    let beginning = &beginnings[found.from as usize];
    let low = beginning.open.min(beginning.depth);
    lowest_on_way(
        t,
        state_number(beginning.at),
        beginning.depth,
        low,
        found.way.as_slice(),
    )
}

/// The number of two ways from one beginning, by the spots of the first. It takes no memory.
fn number_of_one(
    t: &Tnfa,
    beginnings: &[Beginning],
    spots: &[Spot],
    found: &Found,
    other: &Found,
) -> u32
    requires depths { IsSearchable t.now beginnings.now }
    requires spots { spots.now ≡ spots_to t.now beginnings.now found.now }
    requires way { IsFound t.now beginnings.now found.now }
    requires other_way { IsFound t.now beginnings.now other.now }
    requires one { found.now.from ≡ other.now.from }
    ensures { let beginning = beginning_at beginnings.now found.now.from
        in result ≡ number_of_fork t.now (state_number beginning.at) beginning.depth found.now.way other.now.way }
{
    let way = found.way.as_slice();
    let others = other.way.as_slice();
    let count = shared(way, others);
    let spot = spots[count];
    let left = &way[count..];
    let behind = &others[count..];
    number_of_fork(t, spot.state, spot.depth, left, behind)
}

/// The number of two ways to neighbours of the next kernel, whichever units are read there: how many parts stay open that are open on
/// both before they part. The spots are those of the first way. It takes no memory.
pub(crate) fn number(
    t: &Tnfa,
    beginnings: &[Beginning],
    spots: &[Spot],
    found: &Found,
    other: &Found,
) -> u32
    requires depths { IsSearchable t.now beginnings.now }
    requires spots { spots.now ≡ spots_to t.now beginnings.now found.now }
    requires way { IsFound t.now beginnings.now found.now }
    requires other_way { IsFound t.now beginnings.now other.now }
    ensures is { result ≡ number_of_ways t.now beginnings.now found.now other.now }
    ensures compared { (enc : Enc) (patterns : List Pattern) (deep : ℕ → ℕ) (ranks : List Ranked) (unit pick second : ℕ)
        → IsTnfaOf enc patterns t.now → ArePlaceDepths (automaton (terms_of patterns)) ranks deep
        → AreBeginnings t.now deep beginnings.now ranks → AreByRule ranks
        → result ≡ (compared ranks found.now.from (walk_to t.now (terms_of patterns) ranks found.now unit pick)
        other.now.from (walk_to t.now (terms_of patterns) ranks other.now unit second)).number }
{
    if found.from == other.from {
        return number_of_one(t, beginnings, spots, found, other);
    }
    let first = found.from.min(other.from);
    let last = found.from.max(other.from);
    number_between(beginnings, first, last)
        .min(lowest_to(t, beginnings, found))
        .min(lowest_to(t, beginnings, other))
}
