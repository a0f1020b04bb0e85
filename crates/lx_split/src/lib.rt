//! Cuts a source into outside texts and blocks, and puts the pieces of included files in.
#![tactic(auto)]

mod bodies;
mod expanding;
mod includes;
mod laws;
mod library;
mod marks;
mod openers;
mod pieces;
mod searches;
mod walk;

pub use expanding::{ExpandStop, expand};
pub use laws::{
    faults_stand_in_files_that_are_met, faults_stand_in_the_source, no_opener_stands_in_names,
    openers_begin_blocks, pieces_are_the_source, pieces_with_includes_are_expanded,
};
pub use pieces::{Pieces, SourcePiece, split};
