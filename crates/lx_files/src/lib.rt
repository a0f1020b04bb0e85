//! The outside of the program: the files that it reads and writes, and the sinks that take what it prints.
//!
//! Two traits say what a file system and a sink mean, and count their faults; the rest implements them in
//! memory, for tests, and over the system.
#![tactic(auto)]

pub mod counts;
pub mod files;
pub mod memory_files;
pub mod memory_sinks;
pub mod puts;
pub mod real;
pub mod sinks;

pub use files::{Files, HeldFile, ReadAnswer, WriteAnswer};
pub use memory_files::{MemFiles, QuietFiles};
pub use memory_sinks::{MemSink, QuietSink};
pub use puts::put_all;
pub use real::{RealFiles, RealSink};
pub use sinks::{PutAnswer, Sink};
