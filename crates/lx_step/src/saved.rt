//! What is saved of a lexer.
ghost use Rattle.std.specs.Prelude.{◌≡◌, ◌↔◌, IfSome, IsTrue, true};
ghost use Rattle.std.specs.List.{list_any};
ghost use Rattle.lx_ccode.specs.States.{stores};
ghost use Rattle.lx_ccode.specs.Statements.{all_statements};
ghost use Rattle.lx_ccode.specs.Validity.{IsValid};
ghost use Rattle.lx_step.specs.Saved.{Fits, counts_of};

use crate::answers::StmtAt;
use crate::assignments::{are_assignments, count_of_assignments};
use crate::firsts::First;
use crate::numbers::{Sort, count_of_blocks};
use crate::scanner::Scanner;
use crate::sizes::groups_of_blocks;
use crate::slots::Slots;
use crate::states::has_state;
use crate::tags::{TagTable, count_of_tags};
use indexmap::IndexSet;
use lx_ccode::Piece;
use std::alloc::Global;
use std::marker::Model;

/// A lexer without its piece: numbers alone, which contracts see as a `Kept` of `specs/Saved.antt`.
///
/// It keeps the memory that the lexer had, so that it takes none to go on.
#[derive(Drop)]
pub struct Saved {
    pub(crate) alloc: Global,
    pub(crate) conds: u64,
    pub(crate) assignments: u64,
    pub(crate) spent: bool,
    pub(crate) start: u64,
    pub(crate) steps: u128,
    pub(crate) scanner: Scanner,
    pub(crate) slots: Slots,
    pub(crate) tags: TagTable,
    pub(crate) assigned: IndexSet<StmtAt>,
    pub(crate) firsts: Vec<First>,
}

impl Model for Saved {
    ghost use Rattle.std.specs.Prelude.{length};
    ghost use Rattle.lx_step.specs.Left.{left_of};
    ghost use Rattle.lx_step.specs.Places.{room_of};
    ghost use Rattle.lx_step.specs.Saved.{Kept};

    ghost Value = { Kept };

    ghost use Rattle.lx_step.specs.LexerParts.{IsSaved};

    ghost view = { λ saved. record {
      counts = record {
        registers = length saved.scanner.registers.items;
        histories = length saved.scanner.histories;
        conds = saved.conds;
        tags = length saved.slots.offsets;
        groups = length saved.slots.entries;
        assignments = saved.assignments;
      };
      spent = saved.spent;
      start = saved.start;
      cursor = saved.scanner.cursor;
      cond = saved.scanner.cond;
      given = saved.slots;
      assigned = saved.assigned.keys;
      left = left_of saved.scanner saved.steps;
    } };

    ghost invariant = { λ saved. IsSaved saved.conds saved.assignments saved.start saved.tags saved.scanner saved.slots saved.assigned.keys saved.firsts.items (room_of saved.assigned) };
}

/// How many registers, histories, conditions, tags, groups, and statements that assign something of the user's a piece
/// or a saved lexer has.
#[derive(Clone, Copy, PartialEq, Eq)]
struct Counts {
    registers: u64,
    histories: u64,
    conds: u64,
    tags: u64,
    groups: u64,
    assignments: u64,
}

/// Those of a piece. It takes no memory.
fn counts_of(piece: &Piece) -> Counts
    requires { IsValid piece.now }
    ensures { result ≡ counts_of piece.now }
{
    let blocks = piece.blocks.as_slice();
    Counts {
        registers: count_of_blocks(Sort::Register, blocks),
        histories: count_of_blocks(Sort::History, blocks),
        conds: piece.conds.as_slice().len() as u64,
        tags: count_of_tags(blocks),
        groups: groups_of_blocks(blocks),
        assignments: count_of_assignments(blocks),
    }
}

/// Those of a saved lexer.
fn counts_in(saved: &Saved) -> Counts
    ensures { result ≡ saved.now.counts }
{
    Counts {
        registers: saved.scanner.registers.len() as u64,
        histories: saved.scanner.histories.len() as u64,
        conds: saved.conds,
        tags: saved.slots.tags(),
        groups: saved.slots.room(),
        assignments: saved.assignments,
    }
}

/// Whether the state that a saved lexer stores, if it stores one, is one of the piece's.
fn has_its_state(piece: &Piece, saved: &Saved) -> bool
    ensures { IsTrue result ↔ IfSome saved.now.left (λ left. list_any (stores left.state) (all_statements piece.now.blocks) ≡ true) }
{
    match saved.scanner.state {
        None => true,
        Some(state) => has_state(piece.blocks.as_slice(), state),
    }
}

/// Whether a saved lexer may go on on a valid piece. It takes no memory.
///
/// The piece has as many registers, histories, conditions, tags of the user's, groups, and Tag, Count and Cond
/// statements as the lexer's own; the places of statements that the match has made are those of such statements; and
/// the stored state, if there is one, is one of the piece's.
pub fn fits(piece: &Piece, saved: &Saved) -> bool
    requires { IsValid piece.now }
    ensures { IsTrue result ↔ Fits piece.now saved.now }
{
    if counts_of(piece) != counts_in(saved) {
        return false;
    }
    if !are_assignments(piece.blocks.as_slice(), saved.assigned.as_slice()) {
        return false;
    }
    has_its_state(piece, saved)
}
