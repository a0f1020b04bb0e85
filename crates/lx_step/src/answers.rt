//! What a lexer answers.
ghost use Rattle.std.specs.Prelude.{◌≡◌};
ghost use Rattle.lx_step.specs.Held.{is_last};

/// How a match ended.
#[derive(Clone, Copy, PartialEq, Eq)]
pub enum Outcome {
    /// By the rule with this number.
    Rule { number: u32 },
    /// By the rule with this number, which goes on at a condition's start.
    Jump { number: u32 },
    /// Without a rule.
    NoRule,
    /// Fewer units were left than a check asked for.
    End,
    /// The source asked to leave the scanner where it wanted units: the match goes on in the next call.
    NeedFill,
    /// The window has not so many units as are to be kept and are needed beside them: the lexer is spent.
    WindowFull { kept: u64, need: u64, size: u64 },
    /// The source failed: the lexer is spent.
    ReadFailed,
    /// A statement could not do what it is for: the lexer is spent.
    Stuck,
    /// There were `2 * (u + 2) * n` steps, for u units from the start on and n statements of the piece, and
    /// the last of them did not end the match: the lexer is spent.
    Loop,
    /// The lexer was spent before, and did nothing.
    Spent,
    /// Memory ran out at a statement on histories, which was not made: the lexer is spent.
    Memory,
}

impl Outcome {
    /// Whether no further match may be made after it.
    pub(crate) fn is_last(self) -> bool
        ensures { result ≡ is_last self }
    {
        matches!(
            self,
            Outcome::WindowFull { .. }
                | Outcome::ReadFailed
                | Outcome::Stuck
                | Outcome::Loop
                | Outcome::Memory
        )
    }
}

/// The place of a statement: its block, and its place in that block, both counted from 0.
#[derive(Clone, Copy, PartialEq, Eq, Hash)]
pub struct StmtAt {
    pub block: u64,
    pub stmt: u64,
}

/// The ends of a group of a match, in units from the stream's beginning; none where it took no part in the
/// match, or where that end was never set.
#[derive(Clone, Copy, PartialEq, Eq)]
pub struct Group {
    pub from: Option<u64>,
    pub to: Option<u64>,
}
