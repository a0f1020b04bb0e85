//! A match over a window, from where it is entered to where it ends or is left.
ghost use Rattle.std.specs.Prelude.{◌≡◌, ◌<◌, ◌≤◌, ◌+◌, ◌-◌, ◌*◌, ◌^◌, Ok, Err, Some, length, true, nat_le, IfSome, IfOk, OnErr, if◌then◌else◌};
ghost use Rattle.std.specs.List.{list_any};
ghost use Rattle.lx_base.specs.declared.limits.TheConstants.{STATEMENT_LIMIT};
ghost use Rattle.lx_ccode.specs.Machine.{code_at};
ghost use Rattle.lx_ccode.specs.Statements.{all_statements};
ghost use Rattle.lx_window.specs.Counts.{Rose};
ghost use Rattle.lx_window.specs.Windows.{IsFormed, KeepsStart};
ghost use Rattle.lx_step.specs.Asking.{KeepsSource};
ghost use Rattle.lx_step.specs.Conds.{IsCond};
ghost use Rattle.lx_step.specs.Entries.{Enters, entry_by};
ghost use Rattle.lx_step.specs.Feeds.{Feed, feed_of};
ghost use Rattle.lx_step.specs.Given.{Given};
ghost use Rattle.lx_step.specs.Held.{is_on_histories};
ghost use Rattle.lx_step.specs.Left.{IsFrom, IsLeftFrom, IsReturnOf, IsStored, left_of};
ghost use Rattle.lx_step.specs.LexerParts.{IsProgram, told};
ghost use Rattle.lx_step.specs.Matches.{condition_of};
ghost use Rattle.lx_step.specs.Numbers.{IsNumberingOf};
ghost use Rattle.lx_step.specs.Places.{AreRoomy, StaysIn, room_of};
ghost use Rattle.lx_step.specs.Points.{Point};
ghost use Rattle.lx_step.specs.Steps.{KeepsTables};
ghost use Rattle.lx_step.specs.Tags.{AreTags};
ghost use Rattle.lx_step.specs.Ways.{Comes, HasParts, HasStopped, IsNearer, IsOnWay, IsPassed, ReadsWindow, left_by};

use crate::advances::{Made, make};
use crate::answers::{Outcome, StmtAt};
use crate::matches::{Position, Program, entry, next_position, note, start_of, statement_at};
use crate::scanner::Scanner;
use crate::slots::Slots;
use crate::states::{return_before, return_block};
use crate::step::Names;
use crate::tags::TagTable;
use indexmap::IndexSet;
use lx_base::Memory;
use lx_ccode::{Piece, StateCase};
use lx_window::{Refill, Window};

/// What comes of a statement: the match goes on at a place, or it ends or is left.
#[derive(Clone, Copy)]
pub(crate) enum Passed<'p> {
    On(Position<'p>),
    Ends(Outcome),
}

/// Enters a match from a start on, in a window with this limit: goes on where it was left, or begins it. The block where it goes on may
/// be known.
pub(crate) fn enter<'p>(
    piece: &'p Piece,
    scanner: &mut Scanner,
    assigned: &mut IndexSet<StmtAt>,
    steps: &mut u128,
    known: Option<StateCase>,
    start: u64,
    limit: u64,
) -> Option<Position<'p>>
    requires cond { IsCond piece.now.conds scanner.old.cond }
    requires numbering { IsNumberingOf piece.now.blocks scanner.old.numbering }
    requires within { StaysIn piece.now.blocks assigned.old.keys }
    requires returns { IsReturnOf piece.now.blocks known }
    ensures enters { Enters piece.now (entry_by piece.now scanner.old.cursor (condition_of piece.now scanner.old) assigned.old.keys (left_of scanner.old steps.old) start limit) result scanner.new steps.new assigned.new.keys }
    ensures tables { KeepsTables scanner.old scanner.new }
    ensures cond { scanner.new.cond ≡ scanner.old.cond }
    ensures limit { scanner.new.limit ≡ limit }
    ensures state { IsStored piece.now.blocks scanner.old.state → IsStored piece.now.blocks scanner.new.state }
    ensures from { IsLeftFrom start scanner.old → IsFrom start scanner.new }
    ensures places { AreRoomy piece.now.blocks (room_of assigned.old) → AreRoomy piece.now.blocks (room_of assigned.new) }
    ensures within { StaysIn piece.now.blocks assigned.new.keys }
{
    let Some(state) = scanner.state else {
        scanner.begin(start, limit);
        assigned.truncate(0);
        *steps = 0;
        return entry(piece, scanner.cond);
    };
    scanner.come_back(limit);
    let block = return_block(piece.blocks.as_slice(), known, state)?;
    start_of(piece, block)
}

/// Forgets the state that was stored, unless the call left the match.
pub(crate) fn leave(scanner: &mut Scanner, outcome: Outcome)
    ensures { scanner.new ≡ left_by outcome scanner.old }
{
    match outcome {
        Outcome::NeedFill => {}
        _ => scanner.state = None,
    }
}

impl<'p> Program<'p> {
    /// Makes the steps of a match over a window from a place on, until it ends or is left. Where it is left, it is noted where
    /// it goes on.
    pub(crate) fn advance<S: Refill>(
        &self,
        at: Option<Position<'p>>,
        w: &mut Window<'_>,
        src: &mut S,
        tags: &TagTable,
        scanner: &mut Scanner,
        slots: &mut Slots,
        assigned: &mut IndexSet<StmtAt>,
        steps: &mut u128,
        known: &mut Option<StateCase>,
    ) -> Result<Outcome, Memory>
        requires program { IsProgram self.now }
        requires tags { AreTags self.now.piece.now.blocks tags.now }
        requires block { IfSome at (λ one. code_at self.now.piece.now.blocks (Some one.block) ≡ Some one.code.now) }
        requires parts { HasParts self.now.piece.now scanner.old slots.old assigned.old.keys (room_of assigned.old) }
        requires ready { ReadsWindow self.now.piece.now (S.unit src.old) w.old scanner.old }
        requires returns { IsReturnOf self.now.piece.now.blocks known.old }
        ensures stopped { (entry : Point) → Enters self.now.piece.now entry at.entry scanner.old steps.old assigned.old.keys → HasStopped self.now.piece.now entry (feed_of (S.ahead src.old) w.old) (feed_of (S.ahead src.new) w.new) slots.old (told result) scanner.new slots.new steps.new assigned.new.keys }
        ensures parts { HasParts self.now.piece.now scanner.new slots.new assigned.new.keys (room_of assigned.new) }
        ensures ready { IfOk result (λ outcome. ReadsWindow self.now.piece.now (S.unit src.new) w.new scanner.new) }
        ensures formed { IsFormed w.new }
        ensures start_kept { KeepsStart w.old w.new }
        ensures leaves { result ≡ Ok Outcome.NeedFill → Rose (S.pauses src.old) (S.pauses src.new) }
        ensures fails { result ≡ Ok Outcome.ReadFailed → Rose (S.faults src.old) (S.faults src.new) }
        ensures source { KeepsSource (S.unit src.old) (S.unit src.new) (S.faults src.old) (S.faults src.new) (S.pauses src.old) (S.pauses src.new) }
        ensures memory { told result ≡ Outcome.Memory → list_any is_on_histories (all_statements self.now.piece.now.blocks) ≡ true }
        ensures returns { IsReturnOf self.now.piece.now.blocks known.new }
    {
        let Some(mut at) = at else {
            return Ok(self.without_code(scanner.limit - w.start(), *steps));
        };
        while *steps < self.most_steps(scanner.limit - w.start()) {
            match self.pass(at, w, src, tags, scanner, slots, assigned, steps)? {
                Passed::On(next) => at = next,
                Passed::Ends(outcome) => {
                    *known = return_before(self.piece.blocks.as_slice(), at);
                    return Ok(outcome);
                }
            }
        }
        Ok(Outcome::Loop)
    }

    /// Makes the statement at a place, unless it waits for more units.
    fn pass<S: Refill>(
        &self,
        at: Position<'p>,
        w: &mut Window<'_>,
        src: &mut S,
        tags: &TagTable,
        scanner: &mut Scanner,
        slots: &mut Slots,
        assigned: &mut IndexSet<StmtAt>,
        steps: &mut u128,
    ) -> Result<Passed<'p>, Memory>
        requires program { IsProgram self.now }
        requires tags { AreTags self.now.piece.now.blocks tags.now }
        requires block { code_at self.now.piece.now.blocks (Some at.block) ≡ Some at.code.now }
        requires parts { HasParts self.now.piece.now scanner.old slots.old assigned.old.keys (room_of assigned.old) }
        requires ready { ReadsWindow self.now.piece.now (S.unit src.old) w.old scanner.old }
        requires unlooped { steps.old < 2 * ((w.old.limit - w.old.start) + 2) * self.now.statements }
        requires few { steps.old + 1 < 2 ^ 128 }
        ensures comes { (entry : Point) (before : Feed) (given : Given) → before.window.start ≡ w.old.start → before.window.size ≡ w.old.size → IsOnWay self.now.piece.now entry before given at.entry scanner.old slots.old steps.old assigned.old.keys (feed_of (S.ahead src.old) w.old) → Comes self.now.piece.now entry before (feed_of (S.ahead src.new) w.new) given result scanner.new slots.new steps.new assigned.new.keys }
        ensures nearer { IsNearer self.now.piece.now.blocks result steps.old steps.new w.old.limit w.new.limit }
        ensures parts { HasParts self.now.piece.now scanner.new slots.new assigned.new.keys (room_of assigned.new) }
        ensures ready { IfOk result (λ passed. ReadsWindow self.now.piece.now (S.unit src.new) w.new scanner.new) }
        ensures formed { IsFormed w.new }
        ensures start_kept { KeepsStart w.old w.new }
        ensures leaves { result ≡ Ok (Passed.Ends Outcome.NeedFill) → Rose (S.pauses src.old) (S.pauses src.new) }
        ensures fails { result ≡ Ok (Passed.Ends Outcome.ReadFailed) → Rose (S.faults src.old) (S.faults src.new) }
        ensures source { KeepsSource (S.unit src.old) (S.unit src.new) (S.faults src.old) (S.faults src.new) (S.pauses src.old) (S.pauses src.new) }
        ensures memory { OnErr result (list_any is_on_histories (all_statements self.now.piece.now.blocks) ≡ true) }
        ensures other { result ≡ Ok (Passed.Ends Outcome.Memory) → ⊥ }
    {
        let Some(stmt) = statement_at(at.code, at.stmt) else {
            return Ok(Passed::Ends(Outcome::Stuck));
        };
        let names = Names {
            piece: self.piece,
            tags,
        };
        let made = make(self.alloc, names, stmt, w, src, scanner, slots)?;
        note(self.piece, assigned, at, stmt);
        Ok(self.passed(at, made, steps))
    }

    /// What comes of what a statement at a place did, and one step more.
    fn passed(&self, at: Position<'p>, made: Made, steps: &mut u128) -> Passed<'p>
        requires place { at.stmt < length at.code.now }
        requires few { steps.old + 1 < 2 ^ 128 }
        ensures { IsPassed self.now.piece.now.blocks at.entry made result steps.old steps.new }
    {
        match made {
            Made::Waits => Passed::On(at),
            Made::Stops(outcome) => {
                *steps += 1;
                Passed::Ends(outcome)
            }
            Made::Goes(going) => {
                *steps += 1;
                match next_position(self.piece, at, going) {
                    Ok(next) => Passed::On(next),
                    Err(outcome) => Passed::Ends(outcome),
                }
            }
        }
    }

    /// How a match ends that has so many units before it, and stands where there is no code.
    fn without_code(&self, units: u64, steps: u128) -> Outcome
        requires { self.now.statements ≤ STATEMENT_LIMIT }
        ensures { result ≡ (if nat_le (2 * (units + 2) * self.now.statements) steps then Outcome.Loop else Outcome.Stuck) }
    {
        if steps < self.most_steps(units) {
            Outcome::Stuck
        } else {
            Outcome::Loop
        }
    }
}
