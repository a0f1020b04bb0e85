//! A lexer: a piece, and what it holds from match to match.
ghost use Rattle.std.specs.Prelude.{◌≡◌, ◌<◌, length, take, option_map, IfOk, IfSome, is_some, true, false};
ghost use Rattle.std.specs.List.{list_any};
ghost use Rattle.lx_ccode.specs.Statements.{all_statements};
ghost use Rattle.lx_ccode.specs.Validity.{IsValid};
ghost use Rattle.lx_window.specs.Counts.{Rose};
ghost use Rattle.lx_window.specs.Windows.{KeepsStart};
ghost use Rattle.lx_step.specs.Advances.{IsAdvance};
ghost use Rattle.lx_step.specs.Asking.{KeepsSource};
ghost use Rattle.lx_step.specs.Feeds.{feed_of};
ghost use Rattle.lx_step.specs.Firsts.{is_first};
ghost use Rattle.lx_step.specs.Held.{cond_of, fresh, history_of, is_on_histories, offset_of};
ghost use Rattle.lx_step.specs.LexerParts.{IsProgram, told};
ghost use Rattle.lx_step.specs.Saved.{Fits, kept_of, resumed};
ghost use Rattle.lx_step.specs.Tags.{gives_history, gives_offset};

use crate::answers::{Group, Outcome, StmtAt};
use crate::assignments::count_of_assignments;
use crate::calls::{enter, leave};
use crate::conds::cond_name;
use crate::firsts::{First, is_first, note_firsts};
use crate::matches::Program;
use crate::numbers::Numbering;
use crate::saved::Saved;
use crate::scanner::Scanner;
use crate::sizes::groups_of_blocks;
use crate::slots::Slots;
use crate::states::return_of;
use crate::tags::TagTable;
use indexmap::IndexSet;
use lx_base::Memory;
use lx_ccode::{Piece, StateCase, statements};
use lx_window::{Refill, Window};
use std::alloc::Global;
use std::marker::Model;

/// A piece at work: what it holds from match to match, which contracts see as a `Held` of
/// `specs/Held.antt`.
///
/// A match is made over a window, call by call: the steps of the machine that `specs/Machine.antt` of lx_ccode defines,
/// where each refill that they ask is answered by a source.
pub struct Lexer<'p> {
    program: Program<'p>,
    spent: bool,
    start: u64,
    steps: u128,
    scanner: Scanner,
    slots: Slots,
    tags: TagTable,
    assigned: IndexSet<StmtAt>,
    firsts: Vec<First>,
    known: Option<StateCase>,
}

impl Drop for Lexer<'_> {
    fn drop(self) {
        let Self {
            program: _,
            spent: _,
            start: _,
            steps: _,
            scanner: _,
            slots: _,
            tags: _,
            assigned: _,
            firsts: _,
            known: _,
        } = self;
    }
}

impl<'p> Model for Lexer<'p> {
    ghost use Rattle.lx_step.specs.Held.{Held};
    ghost use Rattle.lx_step.specs.Places.{room_of};

    ghost Value = { Held };

    ghost use Rattle.lx_step.specs.Conds.{cond_name};
    ghost use Rattle.lx_step.specs.Left.{left_of};
    ghost use Rattle.lx_step.specs.LexerParts.{IsLexerOf};

    ghost view = { λ lexer. record {
      piece = lexer.program.piece.now;
      spent = lexer.spent;
      start = lexer.start;
      cursor = lexer.scanner.cursor;
      cond = cond_name lexer.program.piece.now.conds lexer.scanner.cond;
      given = lexer.slots;
      assigned = lexer.assigned.keys;
      left = left_of lexer.scanner lexer.steps;
    } };

    ghost invariant = { λ lexer. IsLexerOf lexer.program lexer.start lexer.scanner lexer.slots lexer.tags lexer.assigned.keys lexer.firsts.items (room_of lexer.assigned) lexer.known };
}

impl<'p> Lexer<'p> {
    /// A fresh lexer of a valid piece, in the piece's first condition. It takes all the memory that matches
    /// without histories need.
    pub fn load(alloc: Global, piece: &'p Piece) -> Result<Lexer<'p>, Memory>
        requires { IsValid piece.now }
        ensures { IfOk result (λ lexer. lexer ≡ fresh piece.now) }
    {
        let program = Program {
            alloc,
            piece,
            statements: statements(piece),
            assignments: count_of_assignments(piece.blocks.as_slice()),
        };
        Lexer::of(program)
    }

    /// A fresh lexer of a program.
    fn of(program: Program<'p>) -> Result<Lexer<'p>, Memory>
        requires { IsProgram program }
        ensures { IfOk result (λ lexer. lexer ≡ fresh program.entry.piece.now) }
    {
        let alloc = program.alloc;
        let blocks = program.piece.blocks.as_slice();
        let mut tags = TagTable::new(alloc, program.assignments)?;
        tags.list(blocks)?;
        Ok(Lexer {
            program,
            spent: false,
            start: 0,
            steps: 0,
            scanner: Scanner::new(alloc, Numbering::of_blocks(alloc, blocks)?)?,
            slots: Slots::new(alloc, tags.tags.len(), groups_of_blocks(blocks))?,
            firsts: vec![in alloc; First {
                offset: 0,
                history: 0
            }; tags.tags.len()]?,
            tags,
            assigned: IndexSet::with_capacity(alloc, program.statements as usize)?,
            known: None,
        })
    }

    /// Goes on with a match over a window: with the one that was left, or with a fresh one from the window's start
    /// on. A source fills the window where a statement asks for units.
    ///
    /// The call ends with the match, or where the source asks to leave the scanner, with `NeedFill`. Where a state was
    /// stored by then, the next call comes back to it, on the same or on another window that holds the units from the
    /// match's start on; else the match begins afresh. After `WindowFull`, `ReadFailed`, `Stuck`, `Loop` or `Memory`
    /// the lexer is spent, and each further call answers `Spent` and changes nothing. `Memory` comes only where a
    /// statement of the piece is on histories, which was not made: the readers tell what the machine held before it, and
    /// `assigned` has the places of what was made.
    pub fn advance<S: Refill>(&mut self, w: &mut Window<'_>, src: &mut S) -> Outcome
        requires unit { w.old.unit ≡ self.old.piece.unit }
        requires source_unit { S.unit src.old ≡ self.old.piece.unit }
        requires start { IfSome self.old.left (λ left. w.old.start ≡ self.old.start) }
        ensures spent { self.old.spent ≡ true → (result ≡ Outcome.Spent) × (self.new ≡ self.old) × (w.new ≡ w.old) × (src.new ≡ src.old) }
        ensures advance { self.old.spent ≡ false → IsAdvance self.old self.new (feed_of (S.ahead src.old) w.old) (feed_of (S.ahead src.new) w.new) result }
        ensures start_kept { KeepsStart w.old w.new }
        ensures leaves { result ≡ Outcome.NeedFill → Rose (S.pauses src.old) (S.pauses src.new) }
        ensures fails { result ≡ Outcome.ReadFailed → Rose (S.faults src.old) (S.faults src.new) }
        ensures source { KeepsSource (S.unit src.old) (S.unit src.new) (S.faults src.old) (S.faults src.new) (S.pauses src.old) (S.pauses src.new) }
        ensures memory { result ≡ Outcome.Memory → list_any is_on_histories (all_statements self.old.piece.blocks) ≡ true }
    {
        if self.spent {
            return Outcome::Spent;
        }
        self.start = w.start();
        let at = enter(
            self.program.piece,
            &mut self.scanner,
            &mut self.assigned,
            &mut self.steps,
            self.known,
            w.start(),
            w.limit(),
        );
        let outcome = told(
            self.program.advance(
                at,
                w,
                src,
                &self.tags,
                &mut self.scanner,
                &mut self.slots,
                &mut self.assigned,
                &mut self.steps,
                &mut self.known,
            ),
        );
        note_firsts(
            self.program.piece.blocks.as_slice(),
            &self.tags,
            self.assigned.as_slice(),
            &mut self.firsts,
        );
        self.spent = outcome.is_last();
        leave(&mut self.scanner, outcome);
        outcome
    }

    /// Gives up the piece, and keeps all else. It takes no memory.
    pub fn save(self) -> Saved
        ensures kept { result ≡ kept_of self.entry }
        ensures fits { Fits self.entry.piece result }
        ensures back { resumed self.entry.piece result ≡ self.entry }
    {
        let Self {
            program,
            spent,
            start,
            steps,
            scanner,
            slots,
            tags,
            assigned,
            firsts,
            known: _,
        } = self;
        Saved {
            alloc: program.alloc,
            conds: program.piece.conds.as_slice().len() as u64,
            assignments: program.assignments,
            spent,
            start,
            steps,
            scanner,
            slots,
            tags,
            assigned,
            firsts,
        }
    }

    /// The start of the last match, in units; 0 before the first.
    pub fn start(&self) -> u64
        ensures { result ≡ self.now.start }
    {
        self.start
    }

    /// Where the last match ended, in units; 0 before the first.
    pub fn cursor(&self) -> u64
        ensures { result ≡ self.now.cursor }
    {
        self.scanner.cursor
    }

    /// The offset that was given last to a tag, in this match or in an earlier one; `Some(None)` before the
    /// first. `None` exactly where no statement of the piece gives the tag an offset.
    pub fn value(&self, name: &[u8]) -> Option<Option<u64>>
        ensures value { result ≡ offset_of self.now name.now }
        ensures known { is_some result ≡ list_any (gives_offset name.now) (all_statements self.now.piece.blocks) }
    {
        let number = self
            .tags
            .number_of(self.program.piece.blocks.as_slice(), name)?;
        if !self.tags.tags[number].has_offset {
            return None;
        }
        self.slots.offset(number)
    }

    /// The history that was given last to a tag, in this match or in an earlier one; the empty one before the
    /// first. `None` exactly where no statement of the piece gives the tag a history.
    pub fn history(&self, name: &[u8]) -> Option<&[Option<u64>]>
        ensures history { option_map (λ entries. entries.now) result ≡ history_of self.now name.now }
        ensures known { is_some result ≡ list_any (gives_history name.now) (all_statements self.now.piece.blocks) }
    {
        let number = self
            .tags
            .number_of(self.program.piece.blocks.as_slice(), name)?;
        if !self.tags.tags[number].has_history {
            return None;
        }
        self.slots.history(number)
    }

    /// The groups of the rule that was matched last, as many as the last Count said; none before the first. An
    /// end that was never set is `None`, and ends stay from match to match.
    pub fn groups(&self) -> &[Group]
        ensures groups { result.now ≡ take self.now.given.groups self.now.given.entries }
        ensures count { length result.now ≡ self.now.given.groups }
    {
        self.slots.groups()
    }

    /// The name of the present condition; `None` exactly where the piece has no conditions.
    pub fn cond(&self) -> Option<&[u8]>
        ensures { option_map (λ cond. cond.now) result ≡ cond_of self.now }
    {
        let conds = self.program.piece.conds.as_slice();
        if conds.is_empty() {
            return None;
        }
        Some(cond_name(conds, self.scanner.cond))
    }

    /// The places of the Tag, Count and Cond statements that the last match made, each once, in the order in
    /// which they were first made; none before the first match.
    pub fn assigned(&self) -> &[StmtAt]
        ensures { result.now ≡ self.now.assigned }
    {
        self.assigned.as_slice()
    }

    /// Whether the statement at one of these places, which are counted from 0, is the first of them that gives its tag an offset, or the
    /// first that gives it a history; it is also true where it gives no tag a value.
    pub fn is_first(&self, index: usize) -> bool
        requires { index < length self.now.assigned }
        ensures { result ≡ is_first self.now.piece.blocks self.now.assigned index }
    {
        is_first(
            self.program.piece.blocks.as_slice(),
            &self.tags,
            self.assigned.as_slice(),
            self.firsts.as_slice(),
            index,
        )
    }
}

/// The lexer that was saved, on a valid piece that it fits. It takes no memory.
pub fn resume<'p>(piece: &'p Piece, saved: Saved) -> Lexer<'p>
    requires valid { IsValid piece.now }
    requires fits { Fits piece.now saved }
    ensures { result ≡ resumed piece.now saved }
{
    let blocks = piece.blocks.as_slice();
    let program = Program {
        alloc: saved.alloc,
        piece,
        statements: statements(piece),
        assignments: saved.assignments,
    };
    let mut scanner = saved.scanner;
    scanner.numbering.renew(blocks);
    let mut tags = saved.tags;
    tags.clear();
    tags.list(blocks).unwrap();
    let known = return_of(blocks, scanner.state);
    let mut firsts = saved.firsts;
    note_firsts(blocks, &tags, saved.assigned.as_slice(), &mut firsts);
    Lexer {
        program,
        spent: saved.spent,
        start: saved.start,
        steps: saved.steps,
        scanner,
        slots: saved.slots,
        tags,
        assigned: saved.assigned,
        firsts,
        known,
    }
}

/// What a run tells.
fn told(run: Result<Outcome, Memory>) -> Outcome
    ensures { result ≡ told run }
{
    match run {
        Ok(outcome) => outcome,
        Err(Memory) => Outcome::Memory,
    }
}
