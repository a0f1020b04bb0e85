//! A match over a window: its steps, and the refills that they ask for.
ghost use Rattle.std.specs.Prelude.{◌≡◌, ◌<◌, ◌≤◌, ◌+◌, ◌-◌, ℕ, List, [], Ok, false, length, map, true, IfOk, OnErr};
ghost use Rattle.lx_ccode.specs.declared.piece.Stmt.TheVariants as stmt;
ghost use Rattle.lx_ccode.specs.Validity.{NamesOneOf};
ghost use Rattle.lx_window.specs.Counts.{Rose};
ghost use Rattle.lx_window.specs.Windows.{IsFormed, KeepsStart};
ghost use Rattle.lx_step.specs.Asking.{IsAsked, IsMade, KeepsSource};
ghost use Rattle.lx_step.specs.Conds.{IsCond};
ghost use Rattle.lx_step.specs.Feeds.{feed_of};
ghost use Rattle.lx_step.specs.Held.{is_on_histories};
ghost use Rattle.lx_step.specs.Left.{IsFrom};
ghost use Rattle.lx_step.specs.Steps.{HasRoomFor, KeepsLengths, KeepsTables, given_after, machine_of};
ghost use Rattle.lx_step.specs.Tags.{AreTags, tag_names};

use crate::answers::Outcome;
use crate::scanner::{Going, Scanner};
use crate::slots::Slots;
use crate::step::{Names, step};
use lx_base::Memory;
use lx_ccode::{Piece, Stmt};
use lx_window::{Fill, Refill, Window};
use std::alloc::Global;

/// What a source answers: it brought units, there are no more, or the call stops.
#[derive(Clone, Copy)]
pub(crate) enum Asked {
    More,
    NoMore,
    Stops(Outcome),
}

/// What a statement does: it waits for more units, stops the call, or goes somewhere.
#[derive(Clone, Copy)]
pub(crate) enum Made {
    Waits,
    Stops(Outcome),
    Goes(Going),
}

/// Asks a source for units, where so many are to be kept in the window and so many are needed beside them.
fn ask<S: Refill>(kept: u64, need: u64, w: &mut Window<'_>, src: &mut S) -> Asked
    requires unit { S.unit src.old ≡ w.old.unit }
    requires formed { IsFormed w.old }
    requires some { 0 < need }
    requires short { kept + need ≤ w.old.size → w.old.limit < w.old.start + w.old.size }
    ensures asked { IsAsked result kept need (feed_of (S.ahead src.old) w.old) (feed_of (S.ahead src.new) w.new) }
    ensures formed { IsFormed w.new }
    ensures start_kept { KeepsStart w.old w.new }
    ensures leaves { result ≡ Asked.Stops Outcome.NeedFill → Rose (S.pauses src.old) (S.pauses src.new) }
    ensures fails { result ≡ Asked.Stops Outcome.ReadFailed → Rose (S.faults src.old) (S.faults src.new) }
    ensures source { KeepsSource (S.unit src.old) (S.unit src.new) (S.faults src.old) (S.faults src.new) (S.pauses src.old) (S.pauses src.new) }
{
    let size = w.size();
    if size.saturating_sub(kept) < need {
        return Asked::Stops(Outcome::WindowFull { kept, need, size });
    }
    match w.refill(src) {
        Ok(Fill::More(_)) => Asked::More,
        Ok(Fill::NoMore) => Asked::NoMore,
        Ok(Fill::Leave) => Asked::Stops(Outcome::NeedFill),
        Err(_) => Asked::Stops(Outcome::ReadFailed),
    }
}

/// Sees that so many units stand between the cursor and the limit, or asks for them once.
fn need<S: Refill>(
    piece: &Piece,
    units: u32,
    w: &mut Window<'_>,
    src: &mut S,
    scanner: &mut Scanner,
) -> Made
    requires unit { S.unit src.old ≡ w.old.unit }
    requires formed { IsFormed w.old }
    requires from { IsFrom w.old.start scanner.old }
    requires limit { scanner.old.limit ≡ w.old.limit }
    ensures made { IsMade piece.now (stmt.Need units) scanner.old scanner.new (feed_of (S.ahead src.old) w.old) (feed_of (S.ahead src.new) w.new) result }
    ensures formed { IsFormed w.new }
    ensures start_kept { KeepsStart w.old w.new }
    ensures leaves { result ≡ Made.Stops Outcome.NeedFill → Rose (S.pauses src.old) (S.pauses src.new) }
    ensures fails { result ≡ Made.Stops Outcome.ReadFailed → Rose (S.faults src.old) (S.faults src.new) }
    ensures source { KeepsSource (S.unit src.old) (S.unit src.new) (S.faults src.old) (S.faults src.new) (S.pauses src.old) (S.pauses src.new) }
{
    if u64::from(units) <= scanner.limit.saturating_sub(scanner.cursor) {
        return Made::Goes(Going::Next);
    }
    let kept = scanner.cursor - w.start();
    match ask(kept, u64::from(units), w, src) {
        Asked::Stops(outcome) => Made::Stops(outcome),
        Asked::NoMore => Made::Goes(Going::Ends(Outcome::End)),
        Asked::More => {
            scanner.limit = w.limit();
            Made::Waits
        }
    }
}

/// Asks for units once, and goes to a block where there are some.
fn try_refill<S: Refill>(
    piece: &Piece,
    block: u64,
    w: &mut Window<'_>,
    src: &mut S,
    scanner: &mut Scanner,
) -> Made
    requires unit { S.unit src.old ≡ w.old.unit }
    requires formed { IsFormed w.old }
    requires limit { scanner.old.limit ≡ w.old.limit }
    ensures made { IsMade piece.now (stmt.Try block) scanner.old scanner.new (feed_of (S.ahead src.old) w.old) (feed_of (S.ahead src.new) w.new) result }
    ensures formed { IsFormed w.new }
    ensures start_kept { KeepsStart w.old w.new }
    ensures leaves { result ≡ Made.Stops Outcome.NeedFill → Rose (S.pauses src.old) (S.pauses src.new) }
    ensures fails { result ≡ Made.Stops Outcome.ReadFailed → Rose (S.faults src.old) (S.faults src.new) }
    ensures source { KeepsSource (S.unit src.old) (S.unit src.new) (S.faults src.old) (S.faults src.new) (S.pauses src.old) (S.pauses src.new) }
{
    let kept = scanner.limit - w.start();
    match ask(kept, 1, w, src) {
        Asked::Stops(outcome) => Made::Stops(outcome),
        Asked::NoMore => Made::Goes(Going::Next),
        Asked::More => {
            scanner.limit = w.limit();
            Made::Goes(Going::To(block))
        }
    }
}

/// Does a statement over a window, and asks the source where the statement asks for a refill.
pub(crate) fn make<S: Refill>(
    alloc: Global,
    names: Names<'_>,
    stmt: &Stmt,
    w: &mut Window<'_>,
    src: &mut S,
    scanner: &mut Scanner,
    slots: &mut Slots,
) -> Result<Made, Memory>
    requires unit { S.unit src.old ≡ w.old.unit }
    requires formed { IsFormed w.old }
    requires from { IsFrom w.old.start scanner.old }
    requires limit { scanner.old.limit ≡ w.old.limit }
    requires room { HasRoomFor stmt.now scanner.old slots.old }
    requires named { NamesOneOf (map (λ case. case.cond) names.piece.now.conds) stmt.now }
    requires tags { AreTags names.piece.now.blocks names.tags.now }
    ensures made { IfOk result (IsMade names.entry.piece.now stmt.now scanner.old scanner.new (feed_of (S.ahead src.old) w.old) (feed_of (S.ahead src.new) w.new)) }
    ensures still { OnErr result (feed_of (S.ahead src.new) w.new ≡ feed_of (S.ahead src.old) w.old) }
    ensures given { IfOk result (λ made. slots.new ≡ given_after (tag_names names.entry.piece.now.blocks) stmt.now (machine_of names.entry.piece.now.conds scanner.old []) slots.old) }
    ensures tables { KeepsTables scanner.old scanner.new }
    ensures cond { IsCond names.entry.piece.now.conds scanner.old.cond → IsCond names.entry.piece.now.conds scanner.new.cond }
    ensures lengths { KeepsLengths slots.old slots.new }
    ensures kept { OnErr result (slots.new ≡ slots.old) }
    ensures stays { OnErr result (scanner.new ≡ scanner.old) }
    ensures memory { OnErr result (is_on_histories stmt.now ≡ true) }
    ensures formed { IsFormed w.new }
    ensures start_kept { KeepsStart w.old w.new }
    ensures leaves { result ≡ Ok (Made.Stops Outcome.NeedFill) → Rose (S.pauses src.old) (S.pauses src.new) }
    ensures fails { result ≡ Ok (Made.Stops Outcome.ReadFailed) → Rose (S.faults src.old) (S.faults src.new) }
    ensures source { KeepsSource (S.unit src.old) (S.unit src.new) (S.faults src.old) (S.faults src.new) (S.pauses src.old) (S.pauses src.new) }
{
    match stmt {
        Stmt::Need(units) => Ok(need(names.piece, *units, w, src, scanner)),
        Stmt::Try(block) => Ok(try_refill(names.piece, *block, w, src, scanner)),
        _ => Ok(Made::Goes(step(alloc, names, stmt, w, scanner, slots)?)),
    }
}
