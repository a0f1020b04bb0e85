//! One block of a source.
ghost use Rattle.std.specs.Prelude.{◌≡◌, ◌≤◌, IfOk, MatchResult, length};
ghost use Rattle.lx_base.specs.declared.limits.TheConstants.{SOURCE_LIMIT};
ghost use Rattle.lx_rules.specs.Blocks.{HasRules, StandsUnder};
ghost use Rattle.lx_rules.specs.Environments.{Environment};
ghost use Rattle.lx_rules.specs.Represents.{Represents};
ghost use Rattle.lx_compile.specs.Blocks.{IsBlock, IsRead, StopsAt, content_of};
ghost use Rattle.lx_compile.specs.Emittable.{HasMakeable, IsNear};

use crate::directives::{read, read_directive};
use crate::parts::{Content, Directive};
use lx_base::{BlockKind, Options, Pos, Stop};
use lx_parse::BlockTree;
use lx_rules::{Env, Resolved, resolve};
use lx_token::TokenList;
use std::alloc::Global;
use std::mem::replace;

/// What a block of rules gives that resolves so.
fn content_of(resolved: Resolved) -> Content
    ensures { result ≡ content_of resolved resolved.scanners }
{
    if resolved.scanners.as_slice().is_empty() {
        Content::Asks(Directive::Nothing)
    } else {
        Content::Scanners(resolved)
    }
}

/// What a block of rules with these tokens and items gives, or the first fault of the items. What holds behind it is left in `env`.
fn resolve_read(
    alloc: Global,
    kind: BlockKind,
    body: &[u8],
    tokens: &TokenList,
    tree: &BlockTree,
    at: Pos,
    env: &mut Env,
    options: &Options,
) -> Result<Content, Stop>
    requires kind { HasRules kind }
    requires size { length body.now ≤ SOURCE_LIMIT }
    requires read { (start : Pos) × IsRead kind body.now start tokens.now tree.now.items }
    requires env { (environment : Environment) × Represents env.old environment }
    ensures makeable { (environment : Environment) → Represents env.old environment → StandsUnder options.now environment
        → IfOk result (HasMakeable options.now) }
    ensures block { (environment : Environment) (start : Pos) → Represents env.old environment → IsRead kind body.now start tokens.now tree.now.items
        → MatchResult result
        (λ content. (after : Environment) × Represents env.new after × IsBlock options.now environment kind body.now at start after content)
        (StopsAt options.now environment kind body.now at start) }
{
    let held = replace(env, Env::new(alloc));
    let (after, resolved) = resolve(alloc, body, tokens, tree, kind, at, held, options)?;
    *env = after;
    Ok(content_of(resolved))
}

/// What a block of rules gives; what holds behind it is left in `env`.
///
/// It refuses with the first fault of the block; `Memory` may be answered, and no clause ties it to a cause.
fn resolve_rules(
    alloc: Global,
    kind: BlockKind,
    body: &[u8],
    at: Pos,
    start: Pos,
    env: &mut Env,
    options: &Options,
) -> Result<Content, Stop>
    requires kind { HasRules kind }
    requires near { IsNear body.now start }
    requires env { (environment : Environment) × Represents env.old environment }
    ensures makeable { (environment : Environment) → Represents env.old environment → StandsUnder options.now environment
        → IfOk result (HasMakeable options.now) }
    ensures block { (environment : Environment) → Represents env.old environment → MatchResult result
        (λ content. (after : Environment) × Represents env.new after × IsBlock options.now environment kind body.now at start after content)
        (StopsAt options.now environment kind body.now at start) }
{
    let (tokens, tree) = read(alloc, kind, body, start)?;
    resolve_read(alloc, kind, body, &tokens, &tree, at, env, options)
}

/// What a block gives; what holds behind it is left in `env`.
///
/// Its opener stands at `at`, and its body begins at `start`. It refuses with the first fault of the block; `Memory` may be
/// answered, and no clause ties it to a cause.
pub(crate) fn resolve_block(
    alloc: Global,
    kind: BlockKind,
    body: &[u8],
    at: Pos,
    start: Pos,
    env: &mut Env,
    options: &Options,
) -> Result<Content, Stop>
    requires near { IsNear body.now start }
    requires env { (environment : Environment) × Represents env.old environment }
    ensures makeable { (environment : Environment) → Represents env.old environment → StandsUnder options.now environment
        → IfOk result (HasMakeable options.now) }
    ensures block { (environment : Environment) → Represents env.old environment → MatchResult result
        (λ content. (after : Environment) × Represents env.new after × IsBlock options.now environment kind body.now at start after content)
        (StopsAt options.now environment kind body.now at start) }
{
    match kind {
        BlockKind::Code | BlockKind::Rules | BlockKind::Use => {
            resolve_rules(alloc, kind, body, at, start, env, options)
        }
        BlockKind::Ignore | BlockKind::Include | BlockKind::Enter | BlockKind::Leave => {
            Ok(Content::Asks(Directive::Nothing))
        }
        _ => {
            let directive = read_directive(alloc, kind, body, start)?;
            Ok(Content::Asks(directive))
        }
    }
}
