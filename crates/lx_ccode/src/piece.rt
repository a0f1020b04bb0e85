//! Emitted pieces: what stands in an output in the place of a block with rules.
ghost use Rattle.std.specs.Prelude.{◌≡◌, [], IfOk, slice_index_or};

use lx_base::{Enc, Format, Memory, Names, Sequence};
use lx_shared::SharedText;
use std::alloc::Global;

/// A scanner as it is emitted: a brace block of C between a begin mark and an end mark.
///
/// Which pieces are valid is said in `specs/Validity.antt`, how a piece is spelled in `specs/Text.antt`,
/// and what it does in `specs/Machine.antt` and `specs/Runs.antt`.
pub struct Piece {
    /// The number of the piece in its output, counted from 1. Its labels begin with it.
    pub number: u32,
    /// What the piece tells of itself; a piece of an older output has none.
    pub head: Option<Head>,
    /// The seventeen spellings.
    pub names: Names,
    /// The bytes of a code unit: 1, 2 or 4.
    pub unit: u32,
    /// The unit that a user's buffer holds at its end, if there is one.
    pub eof: Option<u32>,
    /// Whether the piece declares the current unit and the last accepting state itself.
    pub declares: bool,
    /// Whether register 1 is spelled as the context marker.
    pub ctx: bool,
    /// The table of sets: bit `set % 8` of the byte at `256 * (set / 8) + unit` says whether a unit is in a set.
    pub table: Sequence<u8>,
    /// The cases of the switch over stored states, if the piece has one.
    pub states: Option<Sequence<StateCase>>,
    /// The cases of the switch over conditions; none where the piece has no conditions.
    pub conds: Sequence<CondCase>,
    /// The blocks of statements, which jumps name by their place, counted from 0.
    pub blocks: Sequence<CodeBlock>,
    /// The place in the source behind the block, told to the C compiler where there is one.
    pub line: Option<LineMark>,
}

impl Drop for Piece {
    fn drop(self) {
        let Self {
            number: _,
            head: _,
            names: _,
            unit: _,
            eof: _,
            declares: _,
            ctx: _,
            table: _,
            states: _,
            conds: _,
            blocks: _,
            line: _,
        } = self;
    }
}

/// How a scanner finds the end of its input.
///
/// Which unit at the end and which refills a piece of each mode has is said in `specs/Agreement.antt`.
#[derive(Clone, Copy, Debug, PartialEq, Eq)]
pub enum Mode {
    /// It does not: a unit that no rule takes stands behind the input.
    Plain,
    /// It asks for as many units as it may read before the next check.
    Count,
    /// A unit stands at the end of a buffer that holds the whole input.
    EofFixed,
    /// A unit stands at the end of the buffer, where the scanner asks for a refill.
    Eof,
}

/// What a piece tells of itself in its head line. It has to agree with the piece.
#[derive(Clone, Copy, Debug)]
pub struct Head {
    /// The format of the piece's text.
    pub format: Format,
    /// Whether the input is read by primitives of the user's, as `YYPEEK`, and not through pointers.
    pub custom: bool,
    /// The encoding of the input.
    pub enc: Enc,
    pub mode: Mode,
    /// The greatest number of a register in the piece, or 0.
    pub regs: u32,
    /// One more than the greatest number of a history in the piece, or 0.
    pub mregs: u32,
    /// How many states the piece stores.
    pub states: u64,
}

/// A stored state, and the block where a scanner that stored it goes on.
#[derive(Clone, Copy)]
pub struct StateCase {
    pub state: u64,
    pub block: u64,
}

/// A condition's name, and the block where its scanner starts.
#[derive(Drop)]
pub struct CondCase {
    pub cond: SharedText,
    pub block: u64,
}

/// Statements under one label, and a condition's name where they are the start of its scanner.
pub struct CodeBlock {
    pub cond: Option<SharedText>,
    pub stmts: Sequence<Stmt>,
}

impl Drop for CodeBlock {
    fn drop(self) {
        let Self { cond: _, stmts: _ } = self;
    }
}

/// Units of a switch over units, and the block where the scanner goes on for each of them.
pub struct SwitchCase {
    pub units: Sequence<u8>,
    pub block: u64,
}

impl Drop for SwitchCase {
    fn drop(self) {
        let Self { units: _, block: _ } = self;
    }
}

/// A line of a file, counted from 1, as a `#line` names it.
#[derive(Drop)]
pub struct LineMark {
    pub line: u32,
    pub file: SharedText,
}

impl LineMark {
    /// The line of the file whose name stands at this place, counted from 0; past the names the file's name is empty.
    pub fn of(alloc: Global, names: &[SharedText], file: u32, line: u32) -> Result<LineMark, Memory>
        ensures line { IfOk result (λ mark. mark.line ≡ line) }
        ensures file { IfOk result (λ mark. mark.file ≡ slice_index_or names.now file []) }
    {
        let file = match names.get(file as usize) {
            None => SharedText::copy_of(alloc, b"")?,
            Some(name) => name.share()?,
        };
        Ok(LineMark { line, file })
    }
}

/// A statement: one line of a piece, or the lines of a switch. The values stand in the order in which it has them.
///
/// A register holds an offset or nothing, and is counted from 1. A history holds the offsets and the
/// negative events of a tag that may match often, and is counted from 0; history 0 is never written.
pub enum Stmt {
    /// Reads the unit at the cursor.
    Peek,
    /// Moves the cursor on by one unit.
    Skip,
    /// Keeps the cursor in the marker.
    Backup,
    /// Moves the cursor to the marker.
    Restore,
    /// Keeps the number of an accepting state.
    Accept(u32),
    /// Puts the cursor into a register.
    Set(u32),
    /// Empties a register.
    Unset(u32),
    /// Puts the second register's content into the first.
    Copy(u32, u32),
    /// Appends the cursor to a history.
    MSet(u32),
    /// Appends a negative event to a history.
    MUnset(u32),
    /// Puts the second history into the first.
    MCopy(u32, u32),
    /// Jumps to a block where the unit is at most the number.
    IfUnit(u32, u64),
    /// Jumps to a block where the unit is the number.
    IfIs(u32, u64),
    /// Jumps to a block where the unit is in the set with this number, counted from 0.
    IfSet(u32, u64),
    /// Jumps to a block where the number is the accepting state kept last.
    IfAccept(u32, u64),
    /// Jumps to a block where the cursor is at or past the limit.
    IfEnd(u64),
    /// Stores a state, so that the scanner can come back after it was left.
    State(u64),
    /// Asks for a refill until so many units stand between the cursor and the limit.
    Need(u32),
    /// Asks for a refill, and jumps to a block where it added units.
    Try(u64),
    /// Sets the condition.
    Cond(SharedText),
    /// Gives a user's tag the content of a register, or of a history where the truth value says so.
    Tag(SharedText, bool, u32),
    /// Tells how many groups the rule has.
    Count(u32),
    /// Gives an end of a group the content of a register.
    End(u32, u32),
    /// Moves the cursor back to a register, before the trailing context.
    Back(u32),
    /// Jumps to the block of the case that has the unit, or else to the last block.
    Switch(Sequence<SwitchCase>, u64),
    /// Jumps to a block.
    Goto(u64),
    /// Ends the match without a rule.
    Leave,
    /// Ends the match by the rule with this number, and does the user's action.
    Code(u32, Option<LineMark>, SharedText),
    /// Ends the match by the rule with this number, and goes on at the condition's start.
    Jump(SharedText, u32),
}

impl Drop for Stmt {
    fn drop(self) {
        match self {
            Self::Peek => {}
            Self::Skip => {}
            Self::Backup => {}
            Self::Restore => {}
            Self::Accept(_) => {}
            Self::Set(_) => {}
            Self::Unset(_) => {}
            Self::Copy(_, _) => {}
            Self::MSet(_) => {}
            Self::MUnset(_) => {}
            Self::MCopy(_, _) => {}
            Self::IfUnit(_, _) => {}
            Self::IfIs(_, _) => {}
            Self::IfSet(_, _) => {}
            Self::IfAccept(_, _) => {}
            Self::IfEnd(_) => {}
            Self::State(_) => {}
            Self::Need(_) => {}
            Self::Try(_) => {}
            Self::Cond(_) => {}
            Self::Tag(_, _, _) => {}
            Self::Count(_) => {}
            Self::End(_, _) => {}
            Self::Back(_) => {}
            Self::Switch(_, _) => {}
            Self::Goto(_) => {}
            Self::Leave => {}
            Self::Code(_, _, _) => {}
            Self::Jump(_, _) => {}
        }
    }
}
