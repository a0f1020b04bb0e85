//! Reads switches over units.
ghost use Rattle.std.specs.Prelude.{◌≡◌, map, IfOk};
ghost use Rattle.lx_ccode.specs.Reading.{switch_at, switch_cases_at, units_at};
ghost use Rattle.lx_creader.specs.Fitted.{fitted_case, fitted_statement, tiny};

use crate::lines::Read;
use crate::marks::{case_goto, case_tail, goto_block, goto_tail};
use crate::words::{after_hexadecimal, after_spelling, byte_at, byte_hexadecimal_at, skip};
use lx_base::{Memory, Sequence};
use lx_ccode::{Stmt, SwitchCase};
use std::alloc::Global;

/// The units of a case, at most as many as the fuel, and what comes behind them.
#[tactic(auto, unfolding(lx_ccode::specs::Reading::units_at))]
fn units_at(alloc: Global, fuel: usize, bytes: &[u8]) -> Result<(Vec<u8>, &[u8]), Memory>
    ensures { IfOk result (λ units. (units.0.items ≡ map tiny (units_at fuel bytes.now).0) × (units.1.now ≡ (units_at fuel bytes.now).1)) }
{
    let mut units = Vec::new(alloc);
    let mut left = fuel;
    let mut bytes = bytes;
    while left > 0 && byte_at(bytes, 0) == b'c' {
        left -= 1;
        let number = skip(bytes, 7);
        units.push(byte_hexadecimal_at(number))?;
        bytes = skip(after_hexadecimal(number), 2);
    }
    Ok((units, bytes))
}

/// The cases of a switch over units, at most as many as the first fuel, and what comes behind them.
#[tactic(auto, unfolding(lx_ccode::specs::Reading::switch_cases_at))]
fn switch_cases_at(
    alloc: Global,
    cases: usize,
    fuel: usize,
    bytes: &[u8],
) -> Result<(Vec<SwitchCase>, &[u8]), Memory>
    ensures { IfOk result (λ read. (read.0.items ≡ map fitted_case (switch_cases_at cases fuel bytes.now).0) × (read.1.now ≡ (switch_cases_at cases fuel bytes.now).1)) }
{
    let mut found = Vec::new(alloc);
    let mut left = cases;
    let mut bytes = bytes;
    while left > 0 && byte_at(bytes, 1) == b'c' {
        left -= 1;
        let (units, rest) = units_at(alloc, fuel, skip(bytes, 1))?;
        found.push(SwitchCase {
            units: Sequence::from_vec(units),
            block: case_goto(rest),
        })?;
        bytes = case_tail(rest);
    }
    Ok((found, bytes))
}

/// A switch over units, behind its `switch (`.
#[tactic(auto, unfolding(lx_ccode::specs::Reading::switch_at))]
pub(crate) fn switch_at(alloc: Global, bytes: &[u8]) -> Result<Read<'_>, Memory>
    ensures { IfOk result (λ read. (read.0 ≡ fitted_statement (switch_at bytes.now).0) × (read.1 ≡ (switch_at bytes.now).1) × (read.2.now ≡ (switch_at bytes.now).2)) }
{
    let fuel = bytes.len();
    let (cases, rest) = switch_cases_at(alloc, fuel, fuel, skip(after_spelling(bytes), 3))?;
    let last = skip(rest, 9);
    let switch = Stmt::Switch(Sequence::from_vec(cases), goto_block(last));
    Ok((switch, false, skip(goto_tail(last), 3)))
}
