//! One search from all beginnings over points and levels: depth first, with what it visited kept for all starts together.
ghost use Rattle.std.specs.Prelude.{◌≡◌, ◌+◌, ◌^◌, ◌<◌, [], ◌∷◌, ◌++◌, All, Contains, IfOk, OnOk, length, map, reverse, take};
ghost use Rattle.std.specs.Bool.{MatchBool};
ghost use Rattle.lx_regex.specs.Pattern.{terms_of};
ghost use Rattle.lx_regex.specs.Walk.{mark};
ghost use Rattle.lx_posix.specs.Finding.{AreStarts, IsFoundAt, IsSearchable, found_entries, move_entries, moves_from, node_at, shown_found, start_entries, step_entries, trail_to, ways_from};
ghost use Rattle.lx_posix.specs.Sweeps.{shown_start};
ghost use Rattle.lx_posix.specs.Walks.{depth};

use crate::points::{Beginning, Point};
use crate::starts::Start;
use lx_base::{Memory, Sequence};
use lx_tnfa::{Move, Tnfa, Visited};
use std::alloc::Global;

/// A point that the search finds at the depth of the point, with the way there.
#[derive(Drop)]
pub(crate) struct Found {
    /// The index of the beginning of the way.
    pub from: u32,
    pub at: Point,
    /// How many parts are open behind the point.
    pub depth: u32,
    /// For each move of the way its place among the moves of its state.
    pub way: Sequence<u32>,
}

/// A point at a level.
#[derive(Clone, Copy, PartialEq, Eq, Hash)]
pub(crate) struct Node {
    pub at: Point,
    pub level: u32,
}

/// A node that is still to be looked at. The way to it is the trail up to a prefix, and a move.
#[derive(Clone, Copy)]
pub(crate) struct Entry {
    pub at: Point,
    /// How many parts are open behind the point.
    pub depth: u32,
    pub level: u32,
    /// The index of the beginning of the way.
    pub from: u32,
    /// How many moves of the trail the way has.
    pub prefix: usize,
    /// The last move, by its place among the moves of its state; none where the way has no move but those of the trail.
    pub last: Option<u32>,
}

/// The buffers of a search, which a caller lends.
///
/// They may hold anything from call to call: no answer depends on what they held. They are kept, and grow to what the largest call
/// needed.
pub(crate) struct LevelSearch {
    visited: Visited<Node>,
    waiting: Vec<Entry>,
    trail: Vec<u32>,
}

impl Drop for LevelSearch {
    fn drop(self) {
        let Self {
            visited: _,
            waiting: _,
            trail: _,
        } = self;
    }
}

impl LevelSearch {
    /// Empty buffers. It takes no memory.
    pub(crate) fn new(alloc: Global) -> LevelSearch {
        LevelSearch {
            visited: Visited::new(alloc),
            waiting: Vec::new(alloc),
            trail: Vec::new(alloc),
        }
    }
}

/// How many parts are open behind a state to which a move leads: one more behind a beginning, and one less behind an end.
fn depth_after(before: u32, state: u32) -> u32
    requires { before + 1 < 2 ^ 32 }
    ensures { result ≡ depth before (mark state ∷ []) }
{
    if state % 2 == 0 {
        before + 1
    } else {
        before.saturating_sub(1)
    }
}

/// Appends the nodes at which the search begins to those that wait, the last one first.
fn push_starts(
    waiting: &mut Vec<Entry>,
    beginnings: &[Beginning],
    starts: &[Start],
) -> Result<(), Memory>
    requires { AreStarts beginnings.now starts.now }
    ensures { OnOk result (waiting.new.items ≡ waiting.old.items ++ reverse (start_entries beginnings.now starts.now)) }
{
    for index in (0..starts.len()).rev() {
        let start = starts[index];
        let beginning = beginnings[start.from as usize];
        waiting.push(Entry {
            at: beginning.at,
            depth: beginning.depth,
            level: start.level,
            from: start.from,
            prefix: 0,
            last: None,
        })?;
    }
    Ok(())
}

/// Appends the states to which moves lead, at the level of the node before, to the nodes that wait, the last one first. States that
/// are less deep than the level are left out. So many moves are on the trail.
fn push_moves(
    waiting: &mut Vec<Entry>,
    before: &Entry,
    walked: usize,
    ways: &[Move],
) -> Result<(), Memory>
    requires few { length ways.now < 2 ^ 32 }
    requires room { before.now.depth + 1 < 2 ^ 32 }
    ensures { OnOk result (waiting.new.items ≡ waiting.old.items ++ reverse (move_entries before.now walked 0 ways.now)) }
{
    for index in (0..ways.len()).rev() {
        let to = ways[index].to;
        let deep = depth_after(before.depth, to);
        if before.level <= deep {
            waiting.push(Entry {
                at: Point::State(to),
                depth: deep,
                level: before.level,
                from: before.from,
                prefix: walked,
                last: Some(index as u32),
            })?;
        }
    }
    Ok(())
}

/// Appends the nodes one step on to those that wait, the last one first. The first of them is the same state one level higher.
fn push_steps(
    t: &Tnfa,
    waiting: &mut Vec<Entry>,
    before: &Entry,
    walked: usize,
) -> Result<(), Memory>
    requires few { length (moves_from t.now before.now.at) < 2 ^ 32 }
    requires room { before.now.depth + 1 < 2 ^ 32 }
    ensures { OnOk result (waiting.new.items ≡ waiting.old.items ++ reverse (step_entries t.now before.now walked)) }
{
    let Point::State(state) = before.at else {
        return Ok(());
    };
    push_moves(waiting, before, walked, t.moves(state))?;
    if before.level < before.depth {
        waiting.push(Entry {
            at: before.at,
            depth: before.depth,
            level: before.level + 1,
            from: before.from,
            prefix: walked,
            last: None,
        })?;
    }
    Ok(())
}

/// Cuts the trail back to the prefix of a node that waits, and goes on to it.
fn follow(trail: &mut Vec<u32>, entry: &Entry) -> Result<(), Memory>
    ensures { OnOk result (trail.new.items ≡ trail_to trail.old.items entry.now) }
{
    trail.truncate(entry.prefix);
    if let Some(index) = entry.last {
        trail.push(index)?;
    }
    Ok(())
}

/// Whether a node is to be entered, which then counts as visited: only once.
fn enters(visited: &mut Visited<Node>, entry: &Entry) -> Result<bool, Memory>
    ensures { IfOk result (λ new. MatchBool new
        (¬ Contains visited.old (node_at entry.now) × (visited.new ≡ visited.old ++ node_at entry.now ∷ []))
        (Contains visited.old (node_at entry.now) × (visited.new ≡ visited.old))) }
{
    visited.add(Node {
        at: entry.at,
        level: entry.level,
    })
}

/// Appends the point of a node to what is found, with the way there, if the node is at the depth of the point.
fn push_found(
    alloc: Global,
    founds: &mut Vec<Found>,
    entry: &Entry,
    trail: &[u32],
) -> Result<(), Memory>
    ensures { OnOk result (founds.new.items ≡ founds.old.items ++ found_entries entry.now trail.now) }
{
    if entry.level == entry.depth {
        founds.push(Found {
            from: entry.from,
            at: entry.at,
            depth: entry.depth,
            way: Sequence::copy_of(alloc, trail)?,
        })?;
    }
    Ok(())
}

/// The points that one search from all starts finds at their depths, each once, with the ways there, in the order in which it finds
/// them. They are those that the definition lists, for each width and all depths of states.
///
/// The search is depth first, with a stack of the nodes that wait, and a trail of the moves on the way to the node where it is. It
/// takes time linear in the nodes and steps that it visits, and the answer.
pub(crate) fn search(
    alloc: Global,
    t: &Tnfa,
    buffers: &mut LevelSearch,
    beginnings: &[Beginning],
    starts: &[Start],
) -> Result<Vec<Found>, Memory>
    requires searchable { IsSearchable t.now beginnings.now }
    requires starts { AreStarts beginnings.now starts.now }
    ensures listed { IfOk result (λ founds. (is : IsSearchable t.now beginnings.now)
        → map (shown_found t.now) founds.items
        ≡ ways_from (terms_of is.patterns) is.deep is.width is.ranks (map shown_start starts.now)) }
    ensures found { IfOk result (λ founds. (is : IsSearchable t.now beginnings.now)
        → All (IsFoundAt t.now beginnings.now is.deep) founds.items) }
{
    let LevelSearch {
        visited,
        waiting,
        trail,
    } = buffers;
    visited.clear();
    trail.clear();
    waiting.clear();
    push_starts(waiting, beginnings, starts)?;
    let mut founds = Vec::new(alloc);
    while let Some(entry) = waiting.pop() {
        if !enters(visited, &entry)? {
            continue;
        }
        follow(trail, &entry)?;
        push_found(alloc, &mut founds, &entry, trail)?;
        push_steps(t, waiting, &entry, trail.len())?;
    }
    Ok(founds)
}
