//! The tagged automaton of a rule list, with ordered moves.
#![tactic(auto)]

mod building;
mod classes;
mod closure;
pub mod laws;
mod live;
mod making;
mod places;
mod search;
mod shape;
mod states;
mod stops;
mod tags;
mod tnfa;
mod visited;

pub use closure::{Reach, Target};
pub use places::Place;
pub use search::Search;
pub use states::{Event, Move};
pub use tnfa::Tnfa;
pub use visited::Visited;
