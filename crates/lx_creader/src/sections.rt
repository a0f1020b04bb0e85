//! Reads what stands before the blocks of a piece.
ghost use Rattle.std.specs.Prelude.{◌≡◌, ◌==◌, drop, map, if◌then◌else◌, IfOk};
ghost use Rattle.lx_ccode.specs.Reading.{byte_at, cells_at, cond_cases_at, cond_switch_at, declarations_at, eof_at, is_tab, names_at, state_cases_at, state_switch_at, table_at};
ghost use Rattle.lx_creader.specs.Fitted.{fitted_cond, fitted_eof, fitted_state, fitted_states, tiny};

use crate::lines::Scope;
use crate::marks::{block_at, goto_block, goto_tail};
use crate::words::{
    after_digits, after_hexadecimal, after_identifier, after_spelling, after_type, byte_at,
    byte_hexadecimal_at, count_at, front_identifier, long_at, short_at, skip, taken,
};
use lx_base::letters::is_digit;
use lx_base::{ByteText, Memory, Names, Sequence, names};
use lx_ccode::{CondCase, StateCase};
use std::alloc::Global;

/// So many spellings ` L:T`, and what comes behind them.
#[tactic(auto, unfolding(lx_ccode::specs::Reading::names_at))]
pub(crate) fn names_at(alloc: Global, count: usize, bytes: &[u8]) -> Result<(Names, &[u8]), Memory>
    ensures { IfOk result (λ names. (names.0 ≡ (names_at count bytes.now).0) × (names.1.now ≡ (names_at count bytes.now).1)) }
{
    let mut words = Vec::new(alloc);
    let mut left = count;
    let mut bytes = bytes;
    while left > 0 {
        left -= 1;
        let number = skip(bytes, 1);
        let size = count_at(number);
        let text = skip(after_digits(number), 1);
        let name = Vec::from_slice(alloc, taken(text, size))?;
        words.push(ByteText::from_vec(name))?;
        bytes = skip(text, size);
    }
    Ok((Names::of(words), bytes))
}

/// The unit that the buffer holds at its end, or nothing for `-`, and what comes behind it.
#[tactic(auto, unfolding(lx_ccode::specs::Reading::eof_at))]
pub(crate) fn eof_at(bytes: &[u8]) -> (Option<u32>, &[u8])
    ensures { (result.0 ≡ fitted_eof (eof_at bytes.now).0) × (result.1.now ≡ (eof_at bytes.now).1) }
{
    if byte_at(bytes, 0) == b'-' {
        (None, skip(bytes, 1))
    } else {
        (Some(short_at(bytes)), after_digits(bytes))
    }
}

pub(crate) fn is_tab(bytes: &[u8]) -> bool
    ensures { result ≡ is_tab bytes.now }
{
    byte_at(bytes, 0) == b'\t'
}

/// The bytes of the table, at most as many as the fuel, and what comes behind them.
#[tactic(auto, unfolding(lx_ccode::specs::Reading::cells_at))]
fn cells_at(alloc: Global, fuel: usize, bytes: &[u8]) -> Result<(Vec<u8>, &[u8]), Memory>
    ensures { IfOk result (λ cells. (cells.0.items ≡ map tiny (cells_at fuel bytes.now).0) × (cells.1.now ≡ (cells_at fuel bytes.now).1)) }
{
    let mut cells = Vec::new(alloc);
    let mut left = fuel;
    let mut bytes = bytes;
    while left > 0 && byte_at(bytes, 1) != b'}' {
        left -= 1;
        let number = skip(behind_tab(bytes), 2);
        cells.push(byte_hexadecimal_at(number))?;
        bytes = behind_feed(skip(after_hexadecimal(number), 1));
    }
    Ok((cells, bytes))
}

/// What comes behind a tab, where one stands.
fn behind_tab(bytes: &[u8]) -> &[u8]
    ensures { result.now ≡ (if is_tab bytes.now then drop 1 bytes.now else bytes.now) }
{
    if is_tab(bytes) { skip(bytes, 1) } else { bytes }
}

/// What comes behind a line feed, where one stands.
fn behind_feed(bytes: &[u8]) -> &[u8]
    ensures { result.now ≡ (if byte_at bytes.now 0 == 10 then drop 1 bytes.now else bytes.now) }
{
    if byte_at(bytes, 0) == b'\n' {
        skip(bytes, 1)
    } else {
        bytes
    }
}

/// The table of sets, where it stands, and what comes behind it.
#[tactic(auto, unfolding(lx_ccode::specs::Reading::table_at))]
pub(crate) fn table_at(
    alloc: Global,
    fuel: usize,
    bytes: &[u8],
) -> Result<(Sequence<u8>, &[u8]), Memory>
    ensures { IfOk result (λ table. (table.0 ≡ map tiny (table_at fuel bytes.now).0) × (table.1.now ≡ (table_at fuel bytes.now).1)) }
{
    let rest = after_type(skip(bytes, 1));
    if !(is_tab(bytes) && byte_at(rest, 0) == b'[') {
        return Ok((Sequence::new(alloc), bytes));
    }
    let start = skip(after_digits(skip(rest, 1)), 6);
    let (cells, rest) = cells_at(alloc, fuel, start)?;
    Ok((Sequence::from_vec(cells), skip(rest, 4)))
}

/// Whether the declarations stand here, and what comes behind them.
#[tactic(auto, unfolding(lx_ccode::specs::Reading::declarations_at))]
pub(crate) fn declarations_at(bytes: &[u8]) -> (bool, &[u8])
    ensures { (result.0 ≡ (declarations_at bytes.now).0) × (result.1.now ≡ (declarations_at bytes.now).1) }
{
    let rest = after_type(skip(bytes, 1));
    if is_tab(bytes) && byte_at(rest, 0) == b';' {
        (true, skip(after_identifier(skip(rest, 16)), 6))
    } else {
        (false, bytes)
    }
}

/// The cases of a switch over stored states, at most as many as the fuel, and what comes behind them.
#[tactic(auto, unfolding(lx_ccode::specs::Reading::state_cases_at))]
fn state_cases_at(
    alloc: Global,
    fuel: usize,
    bytes: &[u8],
) -> Result<(Vec<StateCase>, &[u8]), Memory>
    ensures { IfOk result (λ cases. (cases.0.items ≡ map fitted_state (state_cases_at fuel bytes.now).0) × (cases.1.now ≡ (state_cases_at fuel bytes.now).1)) }
{
    let mut cases = Vec::new(alloc);
    let mut left = fuel;
    let mut bytes = bytes;
    while left > 0 && byte_at(bytes, 1) == b'c' {
        left -= 1;
        let number = skip(bytes, 6);
        let next = skip(after_digits(number), 1);
        cases.push(StateCase {
            state: long_at(number),
            block: goto_block(next),
        })?;
        bytes = goto_tail(next);
    }
    Ok((cases, bytes))
}

/// The switch over stored states, where it stands, and what comes behind it.
#[tactic(auto, unfolding(lx_ccode::specs::Reading::state_switch_at))]
pub(crate) fn state_switch_at(
    alloc: Global,
    fuel: usize,
    bytes: &[u8],
) -> Result<(Option<Sequence<StateCase>>, &[u8]), Memory>
    ensures { IfOk result (λ states. (states.0 ≡ fitted_states (state_switch_at fuel bytes.now).0) × (states.1.now ≡ (state_switch_at fuel bytes.now).1)) }
{
    if !is_tab(bytes) {
        return Ok((None, bytes));
    }
    let start = skip(after_spelling(skip(bytes, 9)), 3);
    let (cases, rest) = state_cases_at(alloc, fuel, start)?;
    let rest = skip(after_identifier(skip(rest, 15)), 5);
    Ok((Some(Sequence::from_vec(cases)), rest))
}

impl Scope<'_> {
    /// The cases of the switch over conditions, at most as many as the fuel, and what comes behind them.
    #[tactic(auto, unfolding(lx_ccode::specs::Reading::cond_cases_at))]
    fn cond_cases_at<'b>(
        &self,
        fuel: usize,
        bytes: &'b [u8],
    ) -> Result<(Vec<CondCase>, &'b [u8]), Memory>
        ensures { IfOk result (λ cases. (cases.0.items ≡ map fitted_cond (cond_cases_at fuel self.now.names.now bytes.now).0) × (cases.1.now ≡ (cond_cases_at fuel self.now.names.now bytes.now).1)) }
    {
        let mut cases = Vec::new(self.alloc);
        let mut left = fuel;
        let mut bytes = bytes;
        while left > 0 && byte_at(bytes, 1) == b'c' {
            left -= 1;
            let word = skip(bytes, 6);
            let next = skip(after_identifier(word), 1);
            let prefix = names::condition_prefix(self.names);
            let cond = self.text(skip(front_identifier(word), prefix.len()))?;
            cases.push(CondCase {
                cond,
                block: goto_block(next),
            })?;
            bytes = goto_tail(next);
        }
        Ok((cases, bytes))
    }

    /// The switch over conditions, where it stands, and what comes behind it.
    #[tactic(auto, unfolding(lx_ccode::specs::Reading::cond_switch_at))]
    pub(crate) fn cond_switch_at<'b>(
        &self,
        fuel: usize,
        bytes: &'b [u8],
    ) -> Result<(Sequence<CondCase>, &'b [u8]), Memory>
        ensures { IfOk result (λ conds. (conds.0 ≡ map fitted_cond (cond_switch_at fuel self.now.names.now bytes.now).0) × (conds.1.now ≡ (cond_switch_at fuel self.now.names.now bytes.now).1)) }
    {
        let block = block_at(bytes);
        if is_digit(byte_at(block, 0)) {
            return Ok((Sequence::new(self.alloc), bytes));
        }
        let start = skip(after_spelling(skip(block, 15)), 3);
        let (cases, rest) = self.cond_cases_at(fuel, start)?;
        Ok((Sequence::from_vec(cases), skip(rest, 3)))
    }
}
