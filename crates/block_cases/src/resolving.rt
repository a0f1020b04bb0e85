//! One block of a case.
ghost use Rattle.std.specs.Prelude.{◌≤◌, IfOk, length};
ghost use Rattle.lx_base.specs.declared.limits.TheConstants.{SOURCE_LIMIT};
ghost use Rattle.lx_rules.specs.Environments.{Environment};
ghost use Rattle.lx_rules.specs.Represents.{Represents};

use crate::cases::Opener;
use lx_base::{Options, Pos, Stop};
use lx_parse::parse;
use lx_rules::{Env, Resolved, resolve};
use lx_token::tokens;
use std::alloc::Global;

/// What a block with this body resolves to, and what holds behind it. Its opener stands at the beginning of the file with this number,
/// and its body right behind that.
pub fn resolve_block(
    alloc: Global,
    opener: Opener,
    body: &[u8],
    file: u32,
    env: Env,
    options: &Options,
) -> Result<(Env, Resolved), Stop>
    requires size { length body.now ≤ SOURCE_LIMIT }
    requires env { (environment : Environment) × Represents env environment }
    ensures { IfOk result (λ answer. (after : Environment) × Represents answer.0 after) }
{
    let kind = opener.kind();
    let start = opener.place_behind(file);
    let tokens = tokens(alloc, body, start)?;
    let tree = parse(alloc, body, &tokens, kind, start)?;
    let at = Pos::start_of(file);
    resolve(alloc, body, &tokens, &tree, kind, at, env, options)
}
