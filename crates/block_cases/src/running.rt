//! The blocks of a case, one behind another.
ghost use Rattle.std.specs.Prelude.{IfOk, IfSome};
ghost use Rattle.lx_rules.specs.Environments.{Environment};
ghost use Rattle.lx_rules.specs.Represents.{Represents};

use crate::cases::{Case, CaseBlock};
use crate::comparing::difference;
use crate::faults::fault_text;
use crate::options::read_options;
use crate::resolving::resolve_block;
use crate::scanners::resolved_text;
use case_reports::{CaseError, Difference};
use lx_base::limits::SOURCE_LIMIT;
use lx_base::{FileNames, Options, Stop};
use lx_rules::Env;
use std::alloc::Global;

/// How a case differs from what it wants.
pub fn difference_of_case(alloc: Global, case: &Case) -> Result<Difference, CaseError> {
    let options = read_options(alloc, case.options.as_str())?;
    let names = file_names(alloc, &case.blocks)?;
    difference_of_blocks(alloc, &options, &names, &case.blocks)
}

/// The names of the files of some blocks: their numbers, from 0.
fn file_names(alloc: Global, blocks: &[CaseBlock]) -> Result<FileNames, CaseError> {
    let mut names = FileNames::new(alloc);
    for number in 0..blocks.len() {
        if names.len() >= 1000 {
            return Err(CaseError::Malformed("too many blocks"));
        }
        let name = format!(in alloc; "{number}")?;
        names.add(name.as_str())?;
    }
    Ok(names)
}

/// How some blocks differ, each in the environment that those before it left.
fn difference_of_blocks(
    alloc: Global,
    options: &Options,
    names: &FileNames,
    blocks: &[CaseBlock],
) -> Result<Difference, CaseError> {
    let mut env = Env::new(alloc);
    for block in blocks {
        let (after, found) = compare_block(alloc, options, names, block, env)?;
        match after {
            Some(next) if found.is_none() => env = next,
            _ => return last_difference(blocks, block, found),
        }
    }
    Ok(None)
}

/// How a block differs, and what holds behind it; nothing does behind a fault.
fn compare_block(
    alloc: Global,
    options: &Options,
    names: &FileNames,
    block: &CaseBlock,
    env: Env,
) -> Result<(Option<Env>, Difference), CaseError>
    requires { (environment : Environment) × Represents env environment }
    ensures { IfOk result (λ answer. IfSome answer.0 (λ after. (environment : Environment) × Represents after environment)) }
{
    let (after, text) = block_text(alloc, options, names, block, env)?;
    let found = difference(alloc, block, text.as_str())?;
    Ok((after, found))
}

/// The text of what a block resolves to, and what holds behind it; or that of its fault.
fn block_text(
    alloc: Global,
    options: &Options,
    names: &FileNames,
    block: &CaseBlock,
    env: Env,
) -> Result<(Option<Env>, String), CaseError>
    requires { (environment : Environment) × Represents env environment }
    ensures { IfOk result (λ answer. IfSome answer.0 (λ after. (environment : Environment) × Represents after environment)) }
{
    let body = block.body.as_bytes();
    if body.len() > SOURCE_LIMIT {
        return Err(CaseError::Malformed("a block is too long"));
    }
    match resolve_block(alloc, block.opener, body, block.file, env, options) {
        Ok((after, resolved)) => Ok((Some(after), resolved_text(alloc, &resolved)?)),
        Err(Stop::Fault(fault)) => Ok((None, fault_text(alloc, names, &fault)?)),
        Err(Stop::Memory) => Err(CaseError::Memory),
    }
}

/// How a case differs in a block that has a fault, which is to be the last one, or in one that differs.
fn last_difference(
    blocks: &[CaseBlock],
    block: &CaseBlock,
    found: Difference,
) -> Result<Difference, CaseError> {
    if found.is_none() && blocks.len() > (block.file as usize).saturating_add(1) {
        return Err(CaseError::Malformed("blocks stand behind a fault"));
    }
    Ok(found)
}
