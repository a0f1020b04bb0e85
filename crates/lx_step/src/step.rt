//! One step: a statement, and where it goes.
ghost use Rattle.std.specs.Prelude.{◌≡◌, ◌≤◌, ℕ, List, [], false, map, true, IfOk, OnErr};
ghost use Rattle.lx_ccode.specs.Statements.{is_refill};
ghost use Rattle.lx_ccode.specs.Validity.{NamesOneOf};
ghost use Rattle.lx_window.specs.Windows.{IsFormed, IsWindowOf, slid};
ghost use Rattle.lx_step.specs.Conds.{IsCond};
ghost use Rattle.lx_step.specs.Held.{is_on_histories};
ghost use Rattle.lx_step.specs.Steps.{HasRoomFor, IsStep, KeepsLengths, KeepsTables, Moves, given_after, machine_of};
ghost use Rattle.lx_step.specs.Tags.{AreTags, tag_names};

use crate::answers::Outcome;
use crate::scanner::{Going, Scanner};
use crate::slots::Slots;
use crate::tags::TagTable;
use lx_base::Memory;
use lx_ccode::{Piece, Stmt};
use lx_window::Window;
use std::alloc::Global;

/// A piece, and the tags that it names.
#[derive(Clone, Copy)]
pub(crate) struct Names<'n> {
    pub(crate) piece: &'n Piece,
    pub(crate) tags: &'n TagTable,
}

/// Does a statement that asks for no refill.
pub(crate) fn step(
    alloc: Global,
    names: Names<'_>,
    stmt: &Stmt,
    w: &Window<'_>,
    scanner: &mut Scanner,
    slots: &mut Slots,
) -> Result<Going, Memory>
    requires asks { is_refill stmt.now ≡ false }
    requires room { HasRoomFor stmt.now scanner.old slots.old }
    requires named { NamesOneOf (map (λ case. case.cond) names.piece.now.conds) stmt.now }
    requires tags { AreTags names.piece.now.blocks names.tags.now }
    requires from { w.now.start ≤ scanner.old.cursor }
    requires to { scanner.old.limit ≡ w.now.limit }
    ensures step { IfOk result (λ going. (stream : List ℕ) → IsFormed w.now × IsWindowOf stream (slid w.now) → IsStep stream names.entry.piece.now.eof names.entry.piece.now.table names.entry.piece.now.conds stmt.now scanner.old scanner.new going) }
    ensures moves { IfOk result (λ going. Moves names.entry.piece.now.table names.entry.piece.now.conds stmt.now scanner.old scanner.new going) }
    ensures given { IfOk result (λ going. slots.new ≡ given_after (tag_names names.entry.piece.now.blocks) stmt.now (machine_of names.entry.piece.now.conds scanner.old []) slots.old) }
    ensures tables { KeepsTables scanner.old scanner.new }
    ensures cond { IsCond names.entry.piece.now.conds scanner.old.cond → IsCond names.entry.piece.now.conds scanner.new.cond }
    ensures lengths { KeepsLengths slots.old slots.new }
    ensures kept { OnErr result (slots.new ≡ slots.old) }
    ensures stays { OnErr result (scanner.new ≡ scanner.old) }
    ensures memory { OnErr result (is_on_histories stmt.now ≡ true) }
{
    match stmt {
        Stmt::Peek => Ok(scanner.peek(w, names.piece.eof)),
        Stmt::Skip => Ok(scanner.skip()),
        Stmt::Backup => Ok(scanner.backup()),
        Stmt::Restore => Ok(scanner.restore()),
        Stmt::Accept(accept) => Ok(scanner.accept(*accept)),
        Stmt::Set(register) => Ok(scanner.set(*register)),
        Stmt::Unset(register) => Ok(scanner.unset(*register)),
        Stmt::Copy(register, source) => Ok(scanner.copy(*register, *source)),
        Stmt::MSet(history) => scanner.append(*history),
        Stmt::MUnset(history) => scanner.append_none(*history),
        Stmt::MCopy(history, source) => Ok(scanner.copy_history(*history, *source)),
        Stmt::IfUnit(greatest, block) => Ok(scanner.if_unit(*greatest, *block)),
        Stmt::IfIs(unit, block) => Ok(scanner.if_is(*unit, *block)),
        Stmt::IfSet(set, block) => {
            Ok(scanner.if_set(names.piece.table.as_slice(), *set, *block))
        }
        Stmt::IfAccept(accept, block) => Ok(scanner.if_accept(*accept, *block)),
        Stmt::IfEnd(block) => Ok(scanner.if_end(*block)),
        Stmt::State(state) => Ok(scanner.state(*state)),
        Stmt::Need(_) | Stmt::Try(_) => unreachable!(),
        Stmt::Cond(cond) => Ok(scanner.set_cond(names.piece.conds.as_slice(), cond)),
        Stmt::Tag(name, is_history, place) => {
            let blocks = names.piece.blocks.as_slice();
            let number = names.tags.number_of(blocks, name.as_slice());
            if *is_history {
                scanner.give_history(alloc, slots, number, *place)
            } else {
                Ok(scanner.give_offset(slots, number, *place))
            }
        }
        Stmt::Count(groups) => Ok(scanner.count(slots, *groups)),
        Stmt::End(place, register) => Ok(scanner.set_end(slots, *place, *register)),
        Stmt::Back(register) => Ok(scanner.back(*register)),
        Stmt::Switch(cases, last) => Ok(scanner.switch(cases.as_slice(), *last)),
        Stmt::Goto(block) => Ok(Going::To(*block)),
        Stmt::Leave => Ok(Going::Ends(Outcome::NoRule)),
        Stmt::Code(rule, _, _) => Ok(Going::Ends(Outcome::Rule { number: *rule })),
        Stmt::Jump(_, rule) => Ok(Going::Ends(Outcome::Jump { number: *rule })),
    }
}
