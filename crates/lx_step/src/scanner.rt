//! The machine that runs a piece, statement by statement.
ghost use Rattle.std.specs.Prelude.{◌≡◌, ℕ, ◌+◌, ◌<◌, ◌≤◌, List, [], Option, None, length, slice_index, IfOk, OnErr, if◌then◌else◌};
ghost use Rattle.lx_ccode.specs.declared.piece.CondCase.{CondCase};
ghost use Rattle.lx_ccode.specs.declared.piece.Stmt.TheVariants as stmt;
ghost use Rattle.lx_ccode.specs.Machine.{case_block, has_unit, is_among};
ghost use Rattle.lx_ccode.specs.Runs.{fresh_machine};
ghost use Rattle.lx_window.specs.Windows.{IsFormed, IsWindowOf, slid};
ghost use Rattle.lx_step.specs.Conds.{cond_name};
ghost use Rattle.lx_step.specs.Left.{IsFrom};
ghost use Rattle.lx_step.specs.Numbers.{place_of};
ghost use Rattle.lx_step.specs.Steps.{IsStep, KeepsTables, Moves, SetsRegister, content_of, machine_of};

use crate::answers::Outcome;
use crate::histories::Histories;
use crate::numbers::{Numbering, place_of};
use crate::units::unit_at;
use lx_base::Memory;
use lx_ccode::SwitchCase;
use lx_window::Window;
use std::alloc::Global;

/// Where a step goes: to the next statement, to a block, or nowhere.
#[derive(Clone, Copy)]
pub(crate) enum Going {
    Next,
    To(u64),
    Ends(Outcome),
}

/// What the machine holds: the registers and histories by their places, and the condition by its number. Offsets
/// count units from the stream's beginning.
pub(crate) struct Scanner {
    pub(crate) cursor: u64,
    pub(crate) marker: u64,
    pub(crate) limit: u64,
    pub(crate) unit: Option<u32>,
    pub(crate) accept: u32,
    pub(crate) numbering: Numbering,
    pub(crate) registers: Vec<Option<u64>>,
    pub(crate) histories: Histories,
    pub(crate) cond: u64,
    pub(crate) state: Option<u64>,
}

impl Drop for Scanner {
    fn drop(self) {
        let Self {
            cursor: _,
            marker: _,
            limit: _,
            unit: _,
            accept: _,
            numbering: _,
            registers: _,
            histories: _,
            cond: _,
            state: _,
        } = self;
    }
}

impl Scanner {
    /// One for the registers and histories of a numbering, in the first condition.
    pub(crate) fn new(alloc: Global, numbering: Numbering) -> Result<Scanner, Memory>
        ensures numbering { IfOk result (λ scanner. scanner.numbering ≡ numbering) }
        ensures registers { IfOk result (λ scanner. length scanner.registers.items ≡ length numbering.registers.keys) }
        ensures histories { IfOk result (λ scanner. length scanner.histories ≡ length numbering.histories.keys) }
        ensures cond { IfOk result (λ scanner. scanner.cond ≡ 0) }
        ensures cursor { IfOk result (λ scanner. scanner.cursor ≡ 0) }
        ensures state { IfOk result (λ scanner. scanner.state ≡ None) }
    {
        Ok(Scanner {
            cursor: 0,
            marker: 0,
            limit: 0,
            unit: None,
            accept: 0,
            registers: vec![in alloc; None; numbering.registers.len()]?,
            histories: Histories::new(alloc, numbering.histories.len())?,
            numbering,
            cond: 0,
            state: None,
        })
    }

    /// Begins a match.
    pub(crate) fn begin(&mut self, start: u64, limit: u64)
        ensures fresh { (conds : List CondCase) → machine_of conds self.new [] ≡ fresh_machine start limit (cond_name conds self.old.cond) }
        ensures tables { KeepsTables self.old self.new }
        ensures cond { self.new.cond ≡ self.old.cond }
        ensures from { IsFrom start self.new }
    {
        self.cursor = start;
        self.marker = start;
        self.limit = limit;
        self.unit = None;
        self.accept = 0;
        self.registers.fill(None);
        self.histories.clear();
        self.state = None;
    }

    /// Comes back to a match that was left: the unit is forgotten, and the limit may have moved.
    pub(crate) fn come_back(&mut self, limit: u64)
        ensures { self.new ≡ record self.old { limit = limit; unit = None } }
    {
        self.limit = limit;
        self.unit = None;
    }

    /// Reads the unit at the cursor.
    pub(crate) fn peek(&mut self, w: &Window<'_>, eof: Option<u32>) -> Going
        requires from { w.now.start ≤ self.old.cursor }
        requires to { self.old.limit ≡ w.now.limit }
        ensures step { (stream table : List ℕ) (conds : List CondCase) → IsFormed w.now × IsWindowOf stream (slid w.now) → IsStep stream eof table conds stmt.Peek self.old self.new result }
        ensures moves { (table : List ℕ) (conds : List CondCase) → Moves table conds stmt.Peek self.old self.new result }
    {
        if self.cursor < self.limit {
            self.unit = Some(unit_at(w, self.cursor));
            return Going::Next;
        }
        if self.cursor == self.limit && eof.is_some() {
            self.unit = eof;
            return Going::Next;
        }
        Going::Ends(Outcome::Stuck)
    }

    /// Moves the cursor on by one unit.
    pub(crate) fn skip(&mut self) -> Going
        ensures { (stream : List ℕ) (eof : Option ℕ) (table : List ℕ) (conds : List CondCase) → IsStep stream eof table conds stmt.Skip self.old self.new result }
    {
        if self.cursor >= self.limit {
            return Going::Ends(Outcome::Stuck);
        }
        self.cursor += 1;
        Going::Next
    }

    /// Keeps the cursor in the marker.
    pub(crate) fn backup(&mut self) -> Going
        ensures { (stream : List ℕ) (eof : Option ℕ) (table : List ℕ) (conds : List CondCase) → IsStep stream eof table conds stmt.Backup self.old self.new result }
    {
        self.marker = self.cursor;
        Going::Next
    }

    /// Moves the cursor to the marker.
    pub(crate) fn restore(&mut self) -> Going
        ensures { (stream : List ℕ) (eof : Option ℕ) (table : List ℕ) (conds : List CondCase) → IsStep stream eof table conds stmt.Restore self.old self.new result }
    {
        self.cursor = self.marker;
        Going::Next
    }

    /// Keeps an accepting state.
    pub(crate) fn accept(&mut self, accept: u32) -> Going
        ensures { (stream : List ℕ) (eof : Option ℕ) (table : List ℕ) (conds : List CondCase) → IsStep stream eof table conds (stmt.Accept accept) self.old self.new result }
    {
        self.accept = accept;
        Going::Next
    }

    /// Keeps a state.
    pub(crate) fn state(&mut self, state: u64) -> Going
        ensures { (stream : List ℕ) (eof : Option ℕ) (table : List ℕ) (conds : List CondCase) → IsStep stream eof table conds (stmt.State state) self.old self.new result }
    {
        self.state = Some(state);
        Going::Next
    }

    /// Puts an offset, or nothing, into a register.
    fn set_register(&mut self, register: u32, value: Option<u64>)
        requires { place_of self.old.numbering.registers.keys register < length self.old.registers.items }
        ensures { SetsRegister self.old self.new register value }
    {
        let place = self.place_of_register(register);
        self.registers[place] = value;
    }

    /// The content of a register.
    pub(crate) fn content(&self, register: u32) -> Option<u64>
        requires { place_of self.now.numbering.registers.keys register < length self.now.registers.items }
        ensures { result ≡ content_of self.now register }
    {
        self.registers[self.place_of_register(register)]
    }

    /// The place of a register.
    fn place_of_register(&self, register: u32) -> usize
        ensures { result ≡ place_of self.now.numbering.registers.keys register }
    {
        place_of(&self.numbering.registers, register) as usize
    }

    /// The place of a history.
    pub(crate) fn place_of_history(&self, history: u32) -> usize
        ensures { result ≡ place_of self.now.numbering.histories.keys history }
    {
        place_of(&self.numbering.histories, history) as usize
    }

    /// Puts the cursor into a register.
    pub(crate) fn set(&mut self, register: u32) -> Going
        requires { place_of self.old.numbering.registers.keys register < length self.old.registers.items }
        ensures { (stream : List ℕ) (eof : Option ℕ) (table : List ℕ) (conds : List CondCase) → IsStep stream eof table conds (stmt.Set register) self.old self.new result }
    {
        self.set_register(register, Some(self.cursor));
        Going::Next
    }

    /// Empties a register.
    pub(crate) fn unset(&mut self, register: u32) -> Going
        requires { place_of self.old.numbering.registers.keys register < length self.old.registers.items }
        ensures { (stream : List ℕ) (eof : Option ℕ) (table : List ℕ) (conds : List CondCase) → IsStep stream eof table conds (stmt.Unset register) self.old self.new result }
    {
        self.set_register(register, None);
        Going::Next
    }

    /// Puts one register's content into another.
    pub(crate) fn copy(&mut self, register: u32, source: u32) -> Going
        requires register { place_of self.old.numbering.registers.keys register < length self.old.registers.items }
        requires source { place_of self.old.numbering.registers.keys source < length self.old.registers.items }
        ensures { (stream : List ℕ) (eof : Option ℕ) (table : List ℕ) (conds : List CondCase) → IsStep stream eof table conds (stmt.Copy register source) self.old self.new result }
    {
        let value = self.content(source);
        self.set_register(register, value);
        Going::Next
    }

    /// Moves the cursor back to a register.
    pub(crate) fn back(&mut self, register: u32) -> Going
        requires { place_of self.old.numbering.registers.keys register < length self.old.registers.items }
        ensures { (stream : List ℕ) (eof : Option ℕ) (table : List ℕ) (conds : List CondCase) → IsStep stream eof table conds (stmt.Back register) self.old self.new result }
    {
        match self.content(register) {
            None => Going::Ends(Outcome::Stuck),
            Some(offset) => {
                self.cursor = offset;
                Going::Next
            }
        }
    }

    /// Appends the cursor to a history.
    pub(crate) fn append(&mut self, history: u32) -> Result<Going, Memory>
        requires { place_of self.old.numbering.histories.keys history < length self.old.histories }
        ensures step { IfOk result (λ going. (stream : List ℕ) (eof : Option ℕ) (table : List ℕ) (conds : List CondCase) → IsStep stream eof table conds (stmt.MSet history) self.old self.new going) }
        ensures stays { OnErr result (self.new ≡ self.old) }
        ensures tables { KeepsTables self.old self.new }
        ensures cond { self.new.cond ≡ self.old.cond }
    {
        if history == 0 {
            return Ok(Going::Ends(Outcome::Stuck));
        }
        let place = self.place_of_history(history);
        self.histories.append(place, Some(self.cursor))?;
        Ok(Going::Next)
    }

    /// Appends a negative event to a history.
    pub(crate) fn append_none(&mut self, history: u32) -> Result<Going, Memory>
        requires { place_of self.old.numbering.histories.keys history < length self.old.histories }
        ensures step { IfOk result (λ going. (stream : List ℕ) (eof : Option ℕ) (table : List ℕ) (conds : List CondCase) → IsStep stream eof table conds (stmt.MUnset history) self.old self.new going) }
        ensures stays { OnErr result (self.new ≡ self.old) }
        ensures tables { KeepsTables self.old self.new }
        ensures cond { self.new.cond ≡ self.old.cond }
    {
        if history == 0 {
            return Ok(Going::Ends(Outcome::Stuck));
        }
        let place = self.place_of_history(history);
        self.histories.append(place, None)?;
        Ok(Going::Next)
    }

    /// Puts one history into another.
    pub(crate) fn copy_history(&mut self, history: u32, source: u32) -> Going
        requires history { place_of self.old.numbering.histories.keys history < length self.old.histories }
        requires source { place_of self.old.numbering.histories.keys source < length self.old.histories }
        ensures { (stream : List ℕ) (eof : Option ℕ) (table : List ℕ) (conds : List CondCase) → IsStep stream eof table conds (stmt.MCopy history source) self.old self.new result }
    {
        if history == 0 {
            return Going::Ends(Outcome::Stuck);
        }
        let place = self.place_of_history(history);
        let source = self.place_of_history(source);
        self.histories.copy(place, source);
        Going::Next
    }

    /// Tests the unit that was read last.
    pub(crate) fn if_unit(&self, greatest: u32, block: u64) -> Going
        ensures { (stream : List ℕ) (eof : Option ℕ) (table : List ℕ) (conds : List CondCase) → IsStep stream eof table conds (stmt.IfUnit greatest block) self.now self.now result }
    {
        match self.unit {
            None => Going::Ends(Outcome::Stuck),
            Some(unit) => jump_where(unit <= greatest, block),
        }
    }

    /// Tests whether the unit that was read last is this one.
    pub(crate) fn if_is(&self, unit: u32, block: u64) -> Going
        ensures { (stream : List ℕ) (eof : Option ℕ) (table : List ℕ) (conds : List CondCase) → IsStep stream eof table conds (stmt.IfIs unit block) self.now self.now result }
    {
        match self.unit {
            None => Going::Ends(Outcome::Stuck),
            Some(read) => jump_where(read == unit, block),
        }
    }

    /// Tests whether the unit that was read last is in a set of the table.
    pub(crate) fn if_set(&self, table: &[u8], set: u32, block: u64) -> Going
        ensures { (stream : List ℕ) (eof : Option ℕ) (conds : List CondCase) → IsStep stream eof table.now conds (stmt.IfSet set block) self.now self.now result }
    {
        match self.unit {
            None => Going::Ends(Outcome::Stuck),
            Some(unit) => jump_where(is_among(table, set, unit), block),
        }
    }

    /// Goes to the block of the case that has the unit that was read last, or else to the last block.
    pub(crate) fn switch(&self, cases: &[SwitchCase], last: u64) -> Going
        ensures { (stream : List ℕ) (eof : Option ℕ) (table : List ℕ) (conds : List CondCase) → IsStep stream eof table conds (stmt.Switch cases.now last) self.now self.now result }
    {
        match self.unit {
            None => Going::Ends(Outcome::Stuck),
            Some(unit) => Going::To(case_block(cases, last, unit)),
        }
    }

    /// Tests the accepting state that was kept last.
    pub(crate) fn if_accept(&self, accept: u32, block: u64) -> Going
        ensures { (stream : List ℕ) (eof : Option ℕ) (table : List ℕ) (conds : List CondCase) → IsStep stream eof table conds (stmt.IfAccept accept block) self.now self.now result }
    {
        jump_where(self.accept == accept, block)
    }

    /// Tests whether no unit is left.
    pub(crate) fn if_end(&self, block: u64) -> Going
        ensures { (stream : List ℕ) (eof : Option ℕ) (table : List ℕ) (conds : List CondCase) → IsStep stream eof table conds (stmt.IfEnd block) self.now self.now result }
    {
        jump_where(self.limit <= self.cursor, block)
    }
}

/// Whether the unit is in a set of the table.
fn is_among(table: &[u8], set: u32, unit: u32) -> bool
    ensures { result ≡ is_among table.now set unit }
{
    if unit > 0xFF {
        return false;
    }
    let place = 256 * u64::from(set / 8) + u64::from(unit);
    (byte_at(table, place) >> (set % 8)) % 2 == 1
}

/// The byte at a place, or 0 behind the end.
fn byte_at(table: &[u8], place: u64) -> u8
    ensures { result ≡ slice_index table.now place }
{
    let place = place as usize;
    if place < table.len() { table[place] } else { 0 }
}

/// The block of the first case that has the unit, or else the last block.
fn case_block(cases: &[SwitchCase], last: u64, unit: u32) -> u64
    ensures { result ≡ case_block cases.now last unit }
{
    for case in cases {
        if has_unit(case.units.as_slice(), unit) {
            return case.block;
        }
    }
    last
}

/// Whether the unit stands in the list.
fn has_unit(units: &[u8], unit: u32) -> bool
    ensures { result ≡ has_unit units.now unit }
{
    for other in units {
        if u32::from(*other) == unit {
            return true;
        }
    }
    false
}

/// To the block where the test holds, else to the next statement.
fn jump_where(test: bool, block: u64) -> Going
    ensures { result ≡ (if test then Going.To block else Going.Next) }
{
    if test { Going::To(block) } else { Going::Next }
}
