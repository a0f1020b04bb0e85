//! The automata of the scanners of a block.
use lx_auto::Auto;
use lx_fill::CheckList;
use lx_shared::Shared;

/// The automaton of a scanner of a block with its checks.
#[derive(Drop)]
pub enum ScannerAuto {
    /// One of its own.
    Own {
        auto: Shared<Auto>,
        checks: CheckList,
    },
    /// Those of the first scanner, with numbers of rules that are greater by so much.
    AsFirst(u32),
}
