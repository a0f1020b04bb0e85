//! The compilation of one source.
ghost use Rattle.std.specs.Prelude.{◌≡◌, ◌<◌, ◌≤◌, ℕ, List, [], All, IfErr, IfOk, MatchResult, length, None, Ok};
ghost use Rattle.lx_base.specs.declared.faults.Stop.{Stop};
ghost use Rattle.lx_files.specs.Counts.{Rose};
ghost use Rattle.lx_files.specs.Held.{Sees};
ghost use Rattle.lx_files.specs.declared.files.HeldFile.{HeldFile};
ghost use Rattle.lx_split.specs.Includes.{expansion};
ghost use Rattle.lx_compile.specs.Emittable.{IsNearPiece};
ghost use Rattle.lx_compile.specs.FirstFault.{IsFaultOfBlocks, IsFirstFault, StopsBehind, StopsWith};
ghost use Rattle.lx_compile.specs.Options.{out_name};
ghost use Rattle.lx_compile.specs.Output.{IsGiven, IsGivenOf, given_text};
ghost use Rattle.lx_compile.specs.Warnings.{told_warnings};
ghost use Rattle.lx_compile.specs.declared.made.Made.{Made as made_type};

use crate::covered::{asks_for_cover, cover_of};
use crate::made::Made;
use crate::making::{Frame, make};
use crate::walk::{Resolution, resolve_blocks, switch_themselves};
use crate::warned::{PlacedWarning, told_warnings};
use crate::writing::write;
use lx_base::{FileNames, Job, Memory, Options, Sequence, Stop};
use lx_files::Files;
use lx_shared::SharedText;
use lx_split::{ExpandStop, Pieces, expand};
use std::alloc::Global;

/// What a compilation gives.
#[derive(Drop)]
pub struct Compiled {
    /// The output, or the text of the covering words where they are asked for.
    pub output: Vec<u8>,
    /// The warnings, in the order of the pieces; none where they are not asked for.
    pub warnings: Sequence<PlacedWarning>,
}

/// What is given where this is made and this is the output: the output; or, where covering words are asked for, their text in its place.
fn given_text(
    alloc: Global,
    options: &Options,
    made: &[Made],
    output: Vec<u8>,
) -> Result<Vec<u8>, Memory>
    ensures { IfOk result (λ text. text.items ≡ given_text options.now made.now output.items) }
{
    if asks_for_cover(options) {
        cover_of(alloc, made)
    } else {
        Ok(output)
    }
}

/// The names, each of which many lines may share. More of them than 32 bits can count are want of memory.
fn shared_names(alloc: Global, names: &FileNames) -> Result<Vec<SharedText>, Memory>
    ensures { IfOk result (λ shared. shared.items ≡ names.now) }
{
    let Ok(count) = u32::try_from(names.len()) else {
        return Err(Memory);
    };
    let mut shared = Vec::with_capacity(alloc, names.len())?;
    for file in 0..count {
        let Some(name) = names.get(file) else {
            unreachable!()
        };
        shared.push(SharedText::copy_of(alloc, name.as_bytes())?)?;
    }
    Ok(shared)
}

/// The name of the output, as its lines tell it: that of its file, or `<stdout>`.
fn out_name(alloc: Global, options: &Options) -> Result<SharedText, Memory>
    ensures { IfOk result (λ name. name ≡ out_name options.now) }
{
    match &options.job {
        Job::Compile { to: Some(name), .. } => SharedText::copy_of(alloc, name.as_str().as_bytes()),
        _ => SharedText::copy_of(alloc, b"<stdout>"),
    }
}

/// What is given of the pieces of a source, and its warnings, where files of these names were met.
fn output_of(
    alloc: Global,
    pieces: Pieces,
    names: &FileNames,
    options: &Options,
) -> Result<Compiled, Stop>
    requires near { All IsNearPiece pieces }
    requires few { length pieces < 4294967295 }
    ensures { MatchResult result
        (λ compiled. (made : List made_type) × IsFaultOfBlocks options.now names.now pieces made None × IsGivenOf options.now names.now pieces made compiled.output.items
        × (compiled.warnings ≡ told_warnings options.now made))
        (StopsBehind options.now names.now pieces) }
{
    let resolution = resolve_blocks(alloc, pieces, options)?;
    let own_switch = switch_themselves(resolution.parts.as_slice());
    let names = shared_names(alloc, names)?;
    let frame = Frame {
        options,
        names: names.as_slice(),
        own_switch,
    };
    let made = make(alloc, &frame, resolution.parts)?;
    let out = out_name(alloc, options)?;
    let whole = write(alloc, &resolution.names, &out, made.as_slice())?;
    let output = given_text(alloc, options, made.as_slice(), whole)?;
    let warnings = told_warnings(alloc, options, made)?;
    Ok(Compiled { output, warnings })
}

/// The output of a source: the text outside of its blocks and of the files that it includes, unchanged, with one emitted piece in the place of
/// each block. With it come the warnings of its scanners, where they are asked for. Where covering words are asked for, the text that tells
/// them is given in the output's place: for each scanner in order a line `scanner N`, N the number of its piece, with ` NAME` for a condition,
/// and a line for each of its covering words, with the match of that.
///
/// The source is the file `main`, which is the first of the file names; those of included files follow in the order in which they are met.
/// It refuses with the first fault of the source, whose place is one of a file that was met. `ReadFailed` says that a read failed, and the
/// count of faults of `files` rose. `Memory` may be answered, also for a piece that would have more than 2^62 statements or a state with a
/// number over 2^62; no clause ties it to a cause.
pub fn compile<F: Files>(
    alloc: Global,
    files: &mut F,
    names: &mut FileNames,
    options: &Options,
    main: &str,
) -> Result<Compiled, ExpandStop>
    requires new { names.old ≡ [] }
    ensures compiles { (seen : List HeldFile) × Sees (F.held files.old) seen × MatchResult result
        (λ compiled. (made : List made_type) × IsFirstFault options.now seen main.now made None × IsGiven options.now seen main.now made compiled.output.items
        × (compiled.warnings ≡ told_warnings options.now made) × (names.new ≡ (expansion options.now seen main.now).met.names))
        (StopsWith options.now seen main.now (Rose (F.faults files.old) (F.faults files.new)) names.new) }
    ensures never_falls { F.faults files.old ≤ F.faults files.new }
    ensures held_stays { F.held files.new ≡ F.held files.old }
    ensures write_faults_stay { F.write_faults files.new ≡ F.write_faults files.old }
{
    let pieces = expand(alloc, files, names, options, main)?;
    Ok(output_of(alloc, pieces, names, options)?)
}
