//! Where the moves of a way lead, and how many parts are open there, for one way after another. Behind the moves that a way has in
//! common with the one before it, only the others are looked at.
ghost use Rattle.std.specs.Prelude.{◌≡◌, ◌++◌, OnOk};
ghost use Rattle.lx_posix.specs.Finding.{IsSearchable};
ghost use Rattle.lx_posix.specs.Spots.{spots_on, spots_to};
ghost use Rattle.lx_posix.specs.WayNumbers.{FitsOnWay, IsFound};

use crate::courses::shared;
use crate::numbers::{depth_behind, next_state, state_number};
use crate::points::Beginning;
use crate::search::Found;
use lx_base::Memory;
use lx_tnfa::Tnfa;

/// Where a way stands: at a state, with so many parts open.
#[derive(Clone, Copy)]
pub(crate) struct Spot {
    pub state: u32,
    pub depth: u32,
}

/// Appends where a way stands before each move and behind the last one.
fn walk(t: &Tnfa, spots: &mut Vec<Spot>, begin: Spot, way: &[u32]) -> Result<(), Memory>
    requires { FitsOnWay t.now begin.state begin.depth way.now }
    ensures { OnOk result (spots.new.items ≡ spots.old.items ++ spots_on t.now begin.state begin.depth way.now) }
{
    let mut at = begin;
    let mut left = way;
    while let Some((index, behind)) = left.split_first() {
        spots.push(at)?;
        let state = next_state(t, at.state, *index);
        at = Spot {
            state,
            depth: depth_behind(at.depth, state),
        };
        left = behind;
    }
    spots.push(at)?;
    Ok(())
}

/// Goes to a way, whatever the way before it is.
pub(crate) fn begin(
    t: &Tnfa,
    spots: &mut Vec<Spot>,
    beginnings: &[Beginning],
    found: &Found,
) -> Result<(), Memory>
    requires searchable { IsSearchable t.now beginnings.now }
    requires found { IsFound t.now beginnings.now found.now }
    ensures { OnOk result (spots.new.items ≡ spots_to t.now beginnings.now found.now) }
{
    let beginning = &beginnings[found.from as usize];
    let first = Spot {
        state: state_number(beginning.at),
        depth: beginning.depth,
    };
    spots.clear();
    walk(t, spots, first, found.way.as_slice())?;
    Ok(())
}

/// Goes over from one way to another.
pub(crate) fn go_over(
    t: &Tnfa,
    spots: &mut Vec<Spot>,
    beginnings: &[Beginning],
    last: &Found,
    found: &Found,
) -> Result<(), Memory>
    requires searchable { IsSearchable t.now beginnings.now }
    requires last { IsFound t.now beginnings.now last.now }
    requires found { IsFound t.now beginnings.now found.now }
    requires spots { spots.old.items ≡ spots_to t.now beginnings.now last.now }
    ensures { OnOk result (spots.new.items ≡ spots_to t.now beginnings.now found.now) }
{
    if last.from != found.from {
        return begin(t, spots, beginnings, found);
    }
    let way = found.way.as_slice();
    let count = shared(last.way.as_slice(), way);
    let spot = spots[count];
    spots.truncate(count);
    let behind = &way[count..];
    walk(t, spots, spot, behind)?;
    Ok(())
}
