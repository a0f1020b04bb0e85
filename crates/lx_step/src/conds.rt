//! Conditions by their numbers: their places among the cases of a piece.
ghost use Rattle.std.specs.Prelude.{◌≡◌, option_map, slice_get};
ghost use Rattle.lx_ccode.specs.Runs.{entry_block};
ghost use Rattle.lx_step.specs.Conds.{IsCond, cond_name, cond_number};

use lx_base::letters::equal_words;
use lx_ccode::CondCase;

/// The case at a place.
fn case_at(conds: &[CondCase], number: u64) -> Option<&CondCase>
    ensures { option_map (λ case. case.now) result ≡ slice_get conds.now number }
{
    conds.get(number as usize)
}

/// The name of a condition, or no name.
pub(crate) fn cond_name(conds: &[CondCase], number: u64) -> &[u8]
    ensures { result.now ≡ cond_name conds.now number }
{
    match case_at(conds, number) {
        None => b"",
        Some(case) => case.cond.as_slice(),
    }
}

/// The number of a condition: the place of the first case with its name, or behind them all.
pub(crate) fn cond_number(conds: &[CondCase], cond: &[u8]) -> u64
    ensures { result ≡ cond_number conds.now cond.now }
{
    for (number, case) in conds.iter().enumerate() {
        if equal_words(case.cond.as_slice(), cond) {
            return number as u64;
        }
    }
    conds.len() as u64
}

/// The block of a condition, or block 0 where there are none.
pub(crate) fn entry_block(conds: &[CondCase], cond: u64) -> Option<u64>
    requires { IsCond conds.now cond }
    ensures { result ≡ entry_block conds.now (cond_name conds.now cond) }
{
    if conds.is_empty() {
        return Some(0);
    }
    let case = case_at(conds, cond)?;
    Some(case.block)
}
