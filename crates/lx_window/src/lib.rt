//! The input of a scanner: a window that slides over it in a borrowed buffer, and the sources that refill it.
//!
//! A trait says what a refill may answer, and counts its faults and its pauses; `MemRefill` implements it over borrowed bytes and
//! the padding behind them.
#![tactic(auto)]

pub mod laws;
pub mod refills;
pub mod sources;
mod units;
pub mod windows;

pub use refills::{Fill, FillFailed, Refill};
pub use sources::MemRefill;
pub use windows::Window;
