//! The parts of a source.
use lx_base::{ByteText, Pos};
use lx_ccode::Format;
use lx_rules::Resolved;

/// What stands in an output in the place of a block without scanners (re2c manual, "Blocks and directives").
pub enum Directive {
    /// Nothing: the block has no rules, or rules that other blocks use, or it is ignored, or stands around an included file.
    Nothing,
    /// The greatest number of units that a check asks for.
    Max,
    /// The greatest number of groups.
    MaxNmatch,
    /// A list of the registers of tags, in this format; without one where a string has a character that is no byte.
    Stags(Option<Format>),
    /// The same of histories.
    Mtags(Option<Format>),
    /// An enumeration of the conditions.
    Types,
    /// A switch over the states of all scanners.
    GetState,
}

impl Drop for Directive {
    fn drop(self) {
        match self {
            Self::Nothing => {}
            Self::Max => {}
            Self::MaxNmatch => {}
            Self::Stags(_) => {}
            Self::Mtags(_) => {}
            Self::Types => {}
            Self::GetState => {}
        }
    }
}

/// What a block gives.
#[derive(Drop)]
pub enum Content {
    /// Scanners, one at least.
    Scanners(Resolved),
    /// What a directive asks for.
    Asks(Directive),
}

/// A part of a source whose blocks are resolved.
#[derive(Drop)]
pub enum Part {
    /// Text outside of blocks.
    Outside(ByteText),
    /// A block.
    Block {
        /// The place of its opener.
        at: Pos,
        /// The line of its end in the file of its opener.
        line: u32,
        content: Content,
    },
}
