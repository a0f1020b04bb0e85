//! What every layer of the scanner generator speaks of: lists with a plain view, letters and words, the
//! names of a scanner, places in files, the options of the command line, the faults by which a source is
//! refused, and the text of each refusal.
#![tactic(auto)]

pub mod blocks;
pub mod faults;
pub mod laws;
pub mod letters;
pub mod limits;
pub mod lists;
pub mod messages;
pub mod names;
pub mod places;
pub mod settings;

pub use blocks::BlockKind;
pub use faults::{Fault, Stop};
pub use letters::Letters;
pub use lists::{ByteText, Memory, Sequence, Word, append_parts};
pub use messages::message;
pub use names::Names;
pub use places::{FileName, FileNames, Pos, place_after};
pub use settings::{EmptyPolicy, Enc, Format, Job, Options, SurPolicy};
