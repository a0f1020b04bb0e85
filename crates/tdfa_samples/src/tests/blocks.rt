//! Rule lists of blocks, in UTF-8.
ghost use Rattle.std.specs.Prelude.{◌≡◌, ◌≤◌, IfOk, IfSome, Ok, length};
ghost use Rattle.std.specs.List.{AllByRecursion};
ghost use Rattle.lx_base.specs.declared.limits.TheConstants.{SOURCE_LIMIT};
ghost use Rattle.lx_base.specs.declared.blocks.BlockKind.TheVariants.{Code};
ghost use Rattle.lx_base.specs.declared.places.Pos.{Pos};
ghost use Rattle.lx_base.specs.declared.settings.Enc.TheVariants.{Utf8};
ghost use Rattle.lx_parse.specs.Blocks.{IsBody, form_of};
ghost use Rattle.lx_parse.specs.Sorts.{sorts_of};
ghost use Rattle.lx_rules.specs.WellFormed.{IsWellFormed};
ghost use Rattle.lx_rules.specs.Within.{IsScannerWithin};
ghost use Rattle.lx_token.specs.Tokens.{tokens_of};

use lx_base::limits::SOURCE_LIMIT;
use lx_base::{BlockKind, EmptyPolicy, Enc, FileName, Format, Job, Options, Pos, Stop, SurPolicy};
use lx_parse::{BlockTree, parse};
use lx_rules::{Env, Resolved, resolve};
use lx_token::{TokenList, tokens};
use std::alloc::Global;

/// Where bodies start.
const START: Pos = Pos {
    file: 0,
    line: 1,
    col: 1,
};

/// No options but UTF-8.
fn options(alloc: Global) -> Options
    ensures { result.enc ≡ Utf8 }
{
    Options {
        job: Job::Source {
            n: 1,
            to: FileName::from_string(String::new(alloc)),
        },
        format: Format::Two,
        lines: false,
        conds: false,
        states: false,
        tags: false,
        captures: false,
        posix: false,
        custom: false,
        warn: false,
        cover: false,
        enc: Enc::Utf8,
        surrogates: SurPolicy::Ignore,
        empty: EmptyPolicy::MatchEmpty,
        dir: None,
    }
}

/// What a block with this tree resolves to, where no block stands before it.
fn resolve_tree(
    alloc: Global,
    body: &[u8],
    list: &TokenList,
    tree: &BlockTree,
    options: &Options,
) -> Result<Resolved, Stop>
    requires size { length body.now ≤ SOURCE_LIMIT }
    requires tokens { (start : Pos) × (tokens_of body.now start ≡ Ok list.now) }
    requires tree { IsBody (form_of Code) (sorts_of Code body.now list.now) tree.now.items }
    ensures { IfOk result (IsWellFormed options.now) }
{
    let env = Env::new(alloc);
    match resolve(
        alloc,
        body,
        list,
        tree,
        BlockKind::Code,
        START,
        env,
        options,
    ) {
        Ok((_, resolved)) => Ok(resolved),
        Err(stop) => Err(stop),
    }
}

/// What a block with these tokens resolves to.
fn resolve_tokens(
    alloc: Global,
    body: &[u8],
    list: &TokenList,
    start: Pos,
    options: &Options,
) -> Result<Resolved, Stop>
    requires size { length body.now ≤ SOURCE_LIMIT }
    requires line { start.line ≤ 16777217 }
    requires column { start.col ≤ 16777217 }
    requires tokens { tokens_of body.now start ≡ Ok list.now }
    ensures { IfOk result (IsWellFormed options.now) }
{
    let tree = parse(alloc, body, list, BlockKind::Code, start)?;
    resolve_tree(alloc, body, list, &tree, options)
}

/// What a block with this body resolves to.
fn resolve_body(alloc: Global, body: &[u8], options: &Options) -> Result<Resolved, Stop>
    requires { length body.now ≤ SOURCE_LIMIT }
    ensures { IfOk result (IsWellFormed options.now) }
{
    let list = tokens(alloc, body, START)?;
    resolve_tokens(alloc, body, &list, START, options)
}

/// What a block with this body resolves to; nothing where it has a fault.
pub(super) fn resolved(alloc: Global, body: &str) -> Option<Resolved>
    ensures { IfSome result (λ resolved. AllByRecursion (IsScannerWithin Utf8) resolved.scanners) }
{
    if body.len() > SOURCE_LIMIT {
        return None;
    }
    match resolve_body(alloc, body.as_bytes(), &options(alloc)) {
        Ok(resolved) => Some(resolved),
        Err(_) => None,
    }
}
