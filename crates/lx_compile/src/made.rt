//! What is made of the parts of a source, before the text of any directive.
use crate::parts::Directive;
use crate::warned::PlacedWarning;
use lx_base::{ByteText, Pos, Sequence};
use lx_ccode::{LineMark, Piece};
use lx_fill::CheckList;
use lx_renumber::Repeats;

/// What is made of a part of a source.
#[derive(Drop)]
pub enum Made {
    /// Text outside of blocks.
    Outside(ByteText),
    /// The piece of a block's scanners.
    Scanners {
        piece: Piece,
        /// The checks of the automaton of each scanner.
        checks: Repeats<CheckList>,
        /// What the scanners are warned of, one scanner behind another; none where warnings are not asked for.
        warnings: Sequence<PlacedWarning>,
        /// The text that tells the covering words of the scanners; empty where they are not asked for.
        cover: ByteText,
        /// The greatest number of groups of a rule of the scanners, also of one that is never chosen; 0 without captures.
        groups: u32,
    },
    /// A block without scanners.
    Bare {
        /// The place of its opener.
        at: Pos,
        /// The line behind it, where lines are told.
        line: Option<LineMark>,
        directive: Directive,
    },
}
