//! Why a command line, a source, an emitted file or an input is refused.
ghost use Rattle.std.specs.Prelude.{◌≡◌};
ghost use Rattle.lx_base.specs.Message.{place_of};

use crate::lists::{ByteText, Memory};
use crate::places::Pos;
use std::alloc::AllocError;

/// A refusal with its place and what it keeps.
///
/// `message` gives the text of each.
#[derive(Drop)]
pub enum Fault {
    /// The words of the command line are none that the program takes.
    Usage,
    /// There is no such file.
    NoFile {
        at: Pos,
        name: ByteText,
    },
    /// An include would reach this nesting.
    IncludeDepth {
        at: Pos,
        depth: u32,
    },
    /// A block, a comment or an action is not closed.
    Unclosed {
        at: Pos,
    },
    /// A mark of emitted text stands in a source.
    MarkInSource {
        at: Pos,
    },
    /// No token begins here.
    BadToken {
        at: Pos,
    },
    /// No well-formed block goes on with this token.
    Syntax {
        at: Pos,
    },
    /// A name has no definition.
    UnknownName {
        at: Pos,
        name: ByteText,
    },
    /// What is defined here was defined first at `first`.
    Redefined {
        at: Pos,
        first: Pos,
    },
    /// An operand of a difference is no class.
    NotClass {
        at: Pos,
    },
    /// The least code point that the encoding does not have.
    CodePoint {
        at: Pos,
        point: u32,
    },
    /// The least surrogate, where surrogates are refused.
    Surrogate {
        at: Pos,
        point: u32,
    },
    /// The bounds of a repetition are in the wrong order or too large; a kept bound ends at 2^40, which
    /// stands for more.
    Bounds {
        at: Pos,
        min: u64,
        max: Option<u64>,
    },
    /// A class is empty where this is refused.
    EmptyClass {
        at: Pos,
    },
    /// A scanner has no rules.
    NoRules {
        at: Pos,
    },
    /// A scanner has an end rule and no end unit, or the reverse.
    EofPair {
        at: Pos,
    },
    /// Conditions are used where there are none, or the wrong way.
    Condition {
        at: Pos,
    },
    /// A tag stands where tags are off.
    TagsOff {
        at: Pos,
    },
    /// A tag is used twice in one rule.
    DuplicateTag {
        at: Pos,
        name: ByteText,
    },
    /// There is no such configuration.
    UnknownConfig {
        at: Pos,
        name: ByteText,
    },
    /// A value is not allowed where it stands.
    BadValue {
        at: Pos,
    },
    /// A use block has no rules block before it.
    NoRulesToUse {
        at: Pos,
    },
    /// The source has this many bytes with its includes so far.
    TooLong {
        at: Pos,
        total: u64,
    },
    /// A scanner is past the limits on size, nesting or tags; kept numbers end at 2^40, which stands
    /// for more.
    TooManyParts {
        at: Pos,
        size: u64,
        nesting: u64,
        tags: u64,
    },
    /// A scanner has too many kernels, or too many places in them.
    TooManyStates {
        at: Pos,
    },
    /// No emitted scanner stands at this byte offset of the file.
    NotEmitted {
        at: Pos,
        offset: u64,
    },
    /// A token does not fit the window; all three count code units.
    WindowFull {
        at: Pos,
        kept: u64,
        need: u64,
        size: u64,
    },
    /// A directive is unknown, or its option is missing.
    Directive {
        at: Pos,
    },
    /// The input has this many bytes, which is no whole number of code units.
    BadInput {
        at: Pos,
        length: u64,
    },
    /// The covering words of a scanner have this many units, up to and with the first word that passes
    /// the limit.
    CoverTooLong {
        at: Pos,
        sum: u64,
    },
}

impl Fault {
    /// Where the fault stands; `None` for a fault of the command line.
    pub fn place(&self) -> Option<Pos>
        ensures { result ≡ place_of self.now }
    {
        match self {
            Fault::Usage => None,
            Fault::NoFile { at, .. } => Some(*at),
            Fault::IncludeDepth { at, .. } => Some(*at),
            Fault::Unclosed { at } => Some(*at),
            Fault::MarkInSource { at } => Some(*at),
            Fault::BadToken { at } => Some(*at),
            Fault::Syntax { at } => Some(*at),
            Fault::UnknownName { at, .. } => Some(*at),
            Fault::Redefined { at, .. } => Some(*at),
            Fault::NotClass { at } => Some(*at),
            Fault::CodePoint { at, .. } => Some(*at),
            Fault::Surrogate { at, .. } => Some(*at),
            Fault::Bounds { at, .. } => Some(*at),
            Fault::EmptyClass { at } => Some(*at),
            Fault::NoRules { at } => Some(*at),
            Fault::EofPair { at } => Some(*at),
            Fault::Condition { at } => Some(*at),
            Fault::TagsOff { at } => Some(*at),
            Fault::DuplicateTag { at, .. } => Some(*at),
            Fault::UnknownConfig { at, .. } => Some(*at),
            Fault::BadValue { at } => Some(*at),
            Fault::NoRulesToUse { at } => Some(*at),
            Fault::TooLong { at, .. } => Some(*at),
            Fault::TooManyParts { at, .. } => Some(*at),
            Fault::TooManyStates { at } => Some(*at),
            Fault::NotEmitted { at, .. } => Some(*at),
            Fault::WindowFull { at, .. } => Some(*at),
            Fault::Directive { at } => Some(*at),
            Fault::BadInput { at, .. } => Some(*at),
            Fault::CoverTooLong { at, .. } => Some(*at),
        }
    }
}

/// Why a call on a source stopped: memory ran out, or the source has a fault.
#[derive(Drop)]
pub enum Stop {
    Memory,
    Fault(Fault),
}

impl From<Memory> for Stop {
    ghost use Rattle.std.specs.Prelude.{◌≡◌};
    ghost use Rattle.lx_base.specs.declared.faults.Stop.TheVariants as stop;

    ghost from_gives = { λ _ stopped. stopped ≡ stop.Memory };

    fn from(_error: Memory) -> Stop {
        Stop::Memory
    }
}

impl From<AllocError> for Stop {
    ghost use Rattle.std.specs.Prelude.{◌≡◌};
    ghost use Rattle.lx_base.specs.declared.faults.Stop.TheVariants as stop;

    ghost from_gives = { λ _ stopped. stopped ≡ stop.Memory };

    fn from(_error: AllocError) -> Stop {
        Stop::Memory
    }
}
