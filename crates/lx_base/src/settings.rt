//! What the command line asks for.
use crate::places::FileName;

/// The encoding of a scanner's input, by which a code point is spelled in code units.
///
/// `Byte` and `Ucs2` have one unit of one and of two bytes for each code point that they have; the
/// others are the Unicode encoding forms (Unicode 15, section 3.9).
#[derive(Clone, Copy, Debug, PartialEq, Eq)]
pub enum Enc {
    Byte,
    Ucs2,
    Utf8,
    Utf16,
    Utf32,
}

/// A format of emitted text, which the head of a piece tells. Pieces of format 3 may have tests of sets of
/// units, of single units, and switches over units.
#[derive(Clone, Copy, Debug, PartialEq, Eq)]
pub enum Format {
    Two,
    Three,
}

/// What becomes of the surrogates, 0xD800 to 0xDFFF, in a literal or a class: they are code points like
/// others, each is replaced by U+FFFD, or they are refused.
#[derive(Clone, Copy, PartialEq, Eq)]
pub enum SurPolicy {
    Ignore,
    Substitute,
    Fail,
}

/// What an empty class stands for: the empty string, nothing, or a refusal.
#[derive(Clone, Copy, PartialEq, Eq)]
pub enum EmptyPolicy {
    MatchEmpty,
    MatchNone,
    Error,
}

/// What the program is to do.
#[derive(Drop)]
pub enum Job {
    /// Compile `file` to the file `to`, or to the standard output.
    Compile {
        file: FileName,
        to: Option<FileName>,
    },
    /// Step a scanner of the emitted file over `input`: the scanner of piece `block`, or the first. The
    /// window and what one refill adds count code units.
    Run {
        input: FileName,
        emitted: FileName,
        block: Option<u32>,
        window: u32,
        piece: u32,
    },
    /// Generate the source of `n` rules, compile it to the file `to`, and run it.
    Source {
        n: u32,
        to: FileName,
    },
}

/// The options of the command line.
#[derive(Drop)]
pub struct Options {
    pub job: Job,
    /// The format of emitted text.
    pub format: Format,
    /// Whether `#line` is written.
    pub lines: bool,
    /// Whether rules stand under conditions.
    pub conds: bool,
    /// Whether a scanner's state can be stored at each refill.
    pub states: bool,
    /// Whether rules may have tags.
    pub tags: bool,
    /// Whether parentheses are groups of captures, leftmost greedy.
    pub captures: bool,
    /// Whether parentheses are groups of captures, by the POSIX order.
    pub posix: bool,
    /// Whether a scanner reads its input by primitives of the user's, and not through pointers.
    pub custom: bool,
    /// Whether warnings of scanners are told.
    pub warn: bool,
    /// Whether the covering words of the scanners are given in the output's place.
    pub cover: bool,
    pub enc: Enc,
    pub surrogates: SurPolicy,
    pub empty: EmptyPolicy,
    /// The folder in which an include is looked for after the including file's own.
    pub dir: Option<FileName>,
}
