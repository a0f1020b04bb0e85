//! The blocks of a source, in order.
ghost use Rattle.std.specs.Prelude.{◌≡◌, ◌∷◌, ◌++◌, ◌≤◌, [], All, IfOk, MatchResult, OnOk, length};
ghost use Rattle.lx_rules.specs.Blocks.{StandsUnder};
ghost use Rattle.lx_rules.specs.Environments.{Environment, config_of, first_environment};
ghost use Rattle.lx_rules.specs.Represents.{Represents};
ghost use Rattle.lx_compile.specs.Blocks.{IsBlock, StopsAt};
ghost use Rattle.lx_compile.specs.Emittable.{HasMakeable, IsMakeable, IsNear, IsNearPiece};
ghost use Rattle.lx_compile.specs.Parts.{AreParts, StopsAmong, asks_for_states, switch_themselves};
ghost use Rattle.lx_compile.specs.declared.parts.Content.{Content};
ghost use Rattle.lx_compile.specs.declared.parts.Part.TheVariants.{Block};

use crate::blocks::resolve_block;
use crate::parts::{Content, Directive, Part};
use lx_base::{BlockKind, Names, Options, Pos, Sequence, Stop};
use lx_rules::Env;
use lx_split::{Pieces, SourcePiece};
use std::alloc::Global;

/// The parts of a source, and the spellings that hold at its end.
#[derive(Drop)]
pub(crate) struct Resolution {
    pub parts: Sequence<Part>,
    pub names: Names,
}

/// Appends what a block gives; what holds behind it is left in `env`.
fn append_block(
    alloc: Global,
    kind: BlockKind,
    body: &[u8],
    at: Pos,
    start: Pos,
    line: u32,
    env: &mut Env,
    options: &Options,
    parts: &mut Sequence<Part>,
) -> Result<(), Stop>
    requires near { IsNear body.now start }
    requires env { (environment : Environment) × Represents env.old environment }
    ensures { (environment : Environment) → Represents env.old environment → MatchResult result
        (λ _. (after : Environment) × (content : Content) × Represents env.new after × IsBlock options.now environment kind body.now at start after content
        × (StandsUnder options.now environment → HasMakeable options.now content) × (parts.new ≡ parts.old ++ Block at line content ∷ []))
        (StopsAt options.now environment kind body.now at start) }
{
    let content = resolve_block(alloc, kind, body, at, start, env, options)?;
    parts.push(Part::Block { at, line, content })?;
    Ok(())
}

/// Appends the parts of a source; what holds at its end is left in `env`.
fn append_parts(
    alloc: Global,
    pieces: Pieces,
    options: &Options,
    env: &mut Env,
    parts: &mut Sequence<Part>,
) -> Result<(), Stop>
    requires near { All IsNearPiece pieces }
    requires env { Represents env.old first_environment }
    requires empty { parts.old ≡ [] }
    ensures makeable { OnOk result (All (IsMakeable options.now) parts.new) }
    ensures few { OnOk result (length parts.new ≤ length pieces) }
    ensures parts { MatchResult result
        (λ _. (last : Environment) × Represents env.new last × AreParts options.now first_environment pieces parts.new last)
        (StopsAmong options.now first_environment pieces) }
{
    for piece in pieces.into_vec() {
        match piece {
            SourcePiece::Outside(text) => parts.push(Part::Outside(text))?,
            SourcePiece::Block {
                kind,
                body,
                at,
                body_at,
                end_line,
            } => {
                append_block(
                    alloc,
                    kind,
                    body.as_slice(),
                    at,
                    body_at,
                    end_line,
                    env,
                    options,
                    parts,
                )?;
            }
        }
    }
    Ok(())
}

/// The parts of a source, before which `env` holds.
fn resolve_behind(
    alloc: Global,
    pieces: Pieces,
    options: &Options,
    env: &mut Env,
) -> Result<Resolution, Stop>
    requires near { All IsNearPiece pieces }
    requires env { Represents env.old first_environment }
    ensures makeable { IfOk result (λ resolution. All (IsMakeable options.now) resolution.parts) }
    ensures few { IfOk result (λ resolution. length resolution.parts ≤ length pieces) }
    ensures parts { MatchResult result
        (λ resolution. (last : Environment) × AreParts options.now first_environment pieces resolution.parts last
        × (resolution.names ≡ (config_of last.settings).names))
        (StopsAmong options.now first_environment pieces) }
{
    let mut parts = Sequence::new(alloc);
    append_parts(alloc, pieces, options, env, &mut parts)?;
    let names = env.names(alloc)?;
    Ok(Resolution { parts, names })
}

/// The parts of a source: each block is resolved in the environment that the blocks before it left.
///
/// It refuses with the first fault of the first block that has one; `Memory` may be answered, and no clause
/// ties it to a cause.
pub(crate) fn resolve_blocks(
    alloc: Global,
    pieces: Pieces,
    options: &Options,
) -> Result<Resolution, Stop>
    requires near { All IsNearPiece pieces }
    ensures makeable { IfOk result (λ resolution. All (IsMakeable options.now) resolution.parts) }
    ensures few { IfOk result (λ resolution. length resolution.parts ≤ length pieces) }
    ensures parts { MatchResult result
        (λ resolution. (last : Environment) × AreParts options.now first_environment pieces resolution.parts last
        × (resolution.names ≡ (config_of last.settings).names))
        (StopsAmong options.now first_environment pieces) }
{
    let mut env = Env::new(alloc);
    resolve_behind(alloc, pieces, options, &mut env)
}

/// Whether a part asks for a switch over the states of all scanners.
fn asks_for_states(part: &Part) -> bool
    ensures { result ≡ asks_for_states part.now }
{
    matches!(
        part,
        Part::Block {
            content: Content::Asks(Directive::GetState),
            ..
        }
    )
}

/// Whether the pieces of scanners switch over their states themselves.
pub(crate) fn switch_themselves(parts: &[Part]) -> bool
    ensures { result ≡ switch_themselves parts.now }
{
    for part in parts {
        if asks_for_states(part) {
            return false;
        }
    }
    true
}
