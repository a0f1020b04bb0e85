//! The choice of states with a check, by a depth-first search.
ghost use Rattle.std.specs.Prelude.{◌≡◌, ℕ, ◌+◌, ◌-◌, ◌<◌, ◌≤◌, ◌≢◌, [], ◌∷◌, ◌++◌, All, Contains, true, MatchOption, IfOk, OnOk, length, slice_index, slice_set, map};
ghost use Rattle.lx_auto.specs.Automaton.{IsAuto, state_of};
ghost use Rattle.lx_auto.specs.declared.automaton.Edge.{Edge as EdgeValue};
ghost use Rattle.lx_fill.specs.Checks.{graph_of};
ghost use Rattle.lx_fill.specs.Search.{HasMet, IsSearch, IsTop, KeepsMet, MakesChoice, chosen_at, colour_at, is_new};
ghost use Rattle.lx_fill.specs.declared.search.Colour.TheVariants.{New as NewColour, Open as OpenColour};

use lx_auto::{Auto, Edge};
use lx_base::Memory;
use std::alloc::Global;

/// How far a search has come with a state.
#[derive(Clone, Copy, PartialEq, Eq)]
pub(crate) enum Colour {
    /// It was not met yet.
    New,
    /// It was met, and some of its edges are still to be looked at.
    Open,
    /// All its edges were looked at.
    Closed,
}

/// A depth-first search over the states of an automaton.
pub(crate) struct Search {
    /// For each state, how far the search has come with it.
    colours: Vec<Colour>,
    /// For each state, how many of its edges were passed: each leads to a closed state or to a chosen one.
    passed: Vec<usize>,
    /// For each state, whether it gets a check.
    pub chosen: Vec<bool>,
    /// The open states; each has an edge to the next one.
    path: Vec<u32>,
    /// The closed states, in the order in which they were closed.
    pub order: Vec<u32>,
}

impl Drop for Search {
    fn drop(self) {
        let Self {
            colours: _,
            passed: _,
            chosen: _,
            path: _,
            order: _,
        } = self;
    }
}

/// The edges out of the state with this number.
pub(crate) fn edges_of(auto: &Auto, state: u32) -> &[Edge]
    requires formed { IsAuto auto.now }
    requires within { state < length auto.now.states }
    ensures edges { result.now ≡ (state_of auto.now.states state).edges }
    ensures targets { All (λ (edge : EdgeValue). edge.to < length auto.now.states) result.now }
{
    let state = &auto.states.as_slice()[state as usize];
    state.edges.as_slice()
}

/// How many edges a state has.
fn edge_count(auto: &Auto, state: u32) -> usize
    requires formed { IsAuto auto.now }
    requires within { state < length auto.now.states }
    ensures { result ≡ length (graph_of auto.now state) }
{
    edges_of(auto, state).len()
}

/// Where an edge of a state leads.
fn target(auto: &Auto, state: u32, place: usize) -> u32
    requires formed { IsAuto auto.now }
    requires within { state < length auto.now.states }
    requires place { place < length (graph_of auto.now state) }
    ensures target { result ≡ slice_index (graph_of auto.now state) place }
    ensures within { result < length auto.now.states }
{
    edges_of(auto, state)[place].to
}

impl Search {
    /// A search that has met no state. The start is chosen where it has an edge.
    fn new(alloc: Global, auto: &Auto) -> Result<Search, Memory>
        requires { IsAuto auto.now }
        ensures search { IfOk result (IsSearch auto.now) }
        ensures empty { IfOk result (λ search. search.path.items ≡ []) }
    {
        let count = auto.states.as_slice().len();
        let mut chosen = vec![in alloc; false; count]?;
        chosen[0] = edge_count(auto, 0) != 0;
        Ok(Search {
            colours: vec![in alloc; Colour::New; count]?,
            passed: vec![in alloc; 0; count]?,
            chosen,
            path: Vec::new(alloc),
            order: Vec::new(alloc),
        })
    }

    /// Whether a state was not met yet.
    fn is_new(&self, state: u32) -> bool
        requires { state < length self.now.colours.items }
        ensures { result ≡ is_new (colour_at self.now.colours.items state) }
    {
        matches!(self.colours[state as usize], Colour::New)
    }

    /// Meets a new state: a first one, or one to which an edge of the last open state leads.
    fn open(&mut self, auto: &Auto, state: u32) -> Result<(), Memory>
        requires search { IsSearch auto.now self.old }
        requires within { state < length auto.now.states }
        requires new { colour_at self.old.colours.items state ≡ NewColour }
        requires edge { (last : ℕ) → IsTop self.old.path.items last → Contains (graph_of auto.now last) state }
        ensures search { OnOk result (IsSearch auto.now self.new) }
        ensures met { OnOk result (KeepsMet self.old self.new × HasMet self.new state) }
        ensures path { OnOk result (self.new.path.items ≡ self.old.path.items ++ state ∷ []) }
        ensures order { OnOk result (self.new.order.items ≡ self.old.order.items) }
    {
        self.path.push(state)?;
        self.colours[state as usize] = Colour::Open;
        Ok(())
    }

    /// Closes the last open state, of which all edges were passed.
    fn close(&mut self, auto: &Auto, state: u32) -> Result<(), Memory>
        requires search { IsSearch auto.now self.old }
        requires last { IsTop self.old.path.items state }
        requires passed { length (graph_of auto.now state) ≤ slice_index self.old.passed.items state }
        ensures search { OnOk result (IsSearch auto.now self.new) }
        ensures met { OnOk result (KeepsMet self.old self.new) }
        ensures path { OnOk result (length self.new.path.items + 1 ≡ length self.old.path.items) }
        ensures order { OnOk result (length self.new.order.items ≡ length self.old.order.items + 1) }
    {
        self.order.push(state)?;
        let _last = self.path.pop();
        self.colours[state as usize] = Colour::Closed;
        Ok(())
    }

    /// Chooses a state to which an edge of the last open state leads, where it is open: there the edge closes a cycle.
    fn choose(&mut self, auto: &Auto, state: u32, target: u32)
        requires search { IsSearch auto.now self.old }
        requires last { IsTop self.old.path.items state }
        requires edge { Contains (graph_of auto.now state) target }
        requires within { target < length auto.now.states }
        ensures search { IsSearch auto.now self.new }
        ensures chosen { colour_at self.old.colours.items target ≡ OpenColour → chosen_at self.new.chosen.items target ≡ true }
        ensures passed { self.new.passed.items ≡ self.old.passed.items }
        ensures colours { self.new.colours.items ≡ self.old.colours.items }
        ensures path { self.new.path.items ≡ self.old.path.items }
        ensures order { self.new.order.items ≡ self.old.order.items }
    {
        if let Colour::Open = self.colours[target as usize] {
            self.chosen[target as usize] = true;
        }
    }

    /// Passes the next edge of the last open state, which leads to no new one. So many of its edges are passed then.
    fn pass(&mut self, auto: &Auto, state: u32, target: u32, passed: usize)
        requires formed { IsAuto auto.now }
        requires search { IsSearch auto.now self.old }
        requires last { IsTop self.old.path.items state }
        requires within { state < length auto.now.states }
        requires next { slice_index self.old.passed.items state < length (graph_of auto.now state) }
        requires target { target ≡ slice_index (graph_of auto.now state) (slice_index self.old.passed.items state) }
        requires met { HasMet self.old target }
        requires passed { passed ≡ slice_index self.old.passed.items state + 1 }
        ensures search { IsSearch auto.now self.new }
        ensures passed { slice_index self.new.passed.items state ≡ passed }
        ensures colours { self.new.colours.items ≡ self.old.colours.items }
        ensures path { self.new.path.items ≡ self.old.path.items }
        ensures order { self.new.order.items ≡ self.old.order.items }
    {
        self.choose(auto, state, target);
        self.passed[state as usize] = passed;
    }

    /// Passes edges of the last open state up to one that leads to a new state, which it gives, or all of them.
    fn advance(&mut self, auto: &Auto, state: u32) -> Option<u32>
        requires formed { IsAuto auto.now }
        requires search { IsSearch auto.now self.old }
        requires last { IsTop self.old.path.items state }
        requires within { state < length auto.now.states }
        ensures search { IsSearch auto.now self.new }
        ensures next { MatchOption result
            (length (graph_of auto.now state) ≤ slice_index self.new.passed.items state)
            (λ next. Contains (graph_of auto.now state) next × (colour_at self.new.colours.items next ≡ NewColour)) }
        ensures colours { self.new.colours.items ≡ self.old.colours.items }
        ensures path { self.new.path.items ≡ self.old.path.items }
        ensures order { self.new.order.items ≡ self.old.order.items }
    {
        let first = self.passed[state as usize];
        for place in first..edge_count(auto, state) {
            let next = target(auto, state, place);
            if self.is_new(next) {
                return Some(next);
            }
            self.pass(auto, state, next, place + 1);
        }
        None
    }

    /// Meets a first state and all that walks from it reach, and closes them.
    fn walk(&mut self, auto: &Auto, root: u32) -> Result<(), Memory>
        requires formed { IsAuto auto.now }
        requires search { IsSearch auto.now self.old }
        requires empty { self.old.path.items ≡ [] }
        requires within { root < length auto.now.states }
        requires new { colour_at self.old.colours.items root ≡ NewColour }
        ensures search { OnOk result (IsSearch auto.now self.new) }
        ensures empty { OnOk result (self.new.path.items ≡ []) }
        ensures met { OnOk result (KeepsMet self.old self.new × HasMet self.new root) }
    {
        self.open(auto, root)?;
        while let Some(state) = self.path.last().copied() {
            match self.advance(auto, state) {
                Some(next) => self.open(auto, next)?,
                None => self.close(auto, state)?,
            }
        }
        Ok(())
    }
}

/// A search from the start, and then from each state that was not met yet.
pub(crate) fn searched(alloc: Global, auto: &Auto) -> Result<Search, Memory>
    requires { IsAuto auto.now }
    ensures { IfOk result (MakesChoice auto.now) }
{
    let mut search = Search::new(alloc, auto)?;
    for root in 0..auto.states.as_slice().len() {
        let root = root as u32;
        if search.is_new(root) {
            search.walk(auto, root)?;
        }
    }
    Ok(search)
}
