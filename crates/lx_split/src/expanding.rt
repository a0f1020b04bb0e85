//! The pieces of a source with its includes put in.
ghost use Rattle.std.specs.Prelude.{◌≡◌, ℕ, ◌<◌, ◌≤◌, List, [], ◌∷◌, Some, length, IfOk, MatchResult, OnOk};
ghost use Rattle.lx_base.specs.declared.limits.TheConstants.{SOURCE_LIMIT};
ghost use Rattle.lx_base.specs.declared.settings.Options.{Options};
ghost use Rattle.lx_files.specs.Counts.{Rose};
ghost use Rattle.lx_files.specs.Held.{Sees};
ghost use Rattle.lx_files.specs.declared.files.HeldFile.{HeldFile};
ghost use Rattle.lx_split.specs.IncludeNames.{file_name_of, names_for};
ghost use Rattle.lx_split.specs.Includes.{Expands, FailsAs, IsNoFile, StopsAs, StopsExpansion, expansion, first_file, found_view, met};
ghost use Rattle.lx_split.specs.Libraries.{Agrees, ReadsOn};
ghost use Rattle.lx_split.specs.Walks.{IsNewWalk, IsWanted, Starts, StopsWhole, Takes, inner_folder, open_files, whole_from, whole_of};

use crate::includes::{IncludeBlock, enter_block, file_name_of, leave_block, names_for};
use crate::library::{FoundFile, Library};
use crate::pieces::Pieces;
use crate::walk::Walk;
use lx_base::{ByteText, Fault, FileName, FileNames, Memory, Options, Pos, Stop};
use lx_files::Files;
use std::alloc::Global;

/// How deep includes may be nested; in the main file none is.
const MOST_NESTED: usize = 32;

/// Why a source was not expanded: memory ran out, the source or its includes have a fault, or a read failed.
#[derive(Drop)]
pub enum ExpandStop {
    Memory,
    Fault(Fault),
    ReadFailed,
}

impl From<Memory> for ExpandStop {
    ghost use Rattle.std.specs.Prelude.{◌≡◌};
    ghost use Rattle.lx_split.specs.declared.expanding.ExpandStop.TheVariants as stop;

    ghost from_gives = { λ _ given. given ≡ stop.Memory };

    fn from(_error: Memory) -> ExpandStop {
        ExpandStop::Memory
    }
}

impl From<Stop> for ExpandStop {
    ghost use Rattle.std.specs.Prelude.{◌≡◌};
    ghost use Rattle.lx_split.specs.Includes.{expand_stop};

    ghost from_gives = { λ stop given. given ≡ expand_stop stop };

    fn from(stop: Stop) -> ExpandStop {
        match stop {
            Stop::Memory => ExpandStop::Memory,
            Stop::Fault(fault) => ExpandStop::Fault(fault),
        }
    }
}

/// An include, and what it asks for.
pub struct WantedFile {
    include: IncludeBlock,
    /// The name of its file.
    name: FileName,
    /// The names under which the file is looked for, in order.
    looked_for: Vec<FileName>,
}

impl Drop for WantedFile {
    fn drop(self) {
        let Self {
            include: _,
            name: _,
            looked_for: _,
        } = self;
    }
}

/// A name with these characters.
fn file_name_from(alloc: Global, name: &str) -> Result<FileName, Memory>
    ensures { IfOk result (λ copied. copied ≡ name.now) }
{
    Ok(FileName::from_string(String::from_str(alloc, name)?))
}

/// The refusal of a file that is not there.
fn no_file(alloc: Global, at: Pos, name: &str) -> ExpandStop
    ensures { IsNoFile at name.now result }
{
    match ByteText::copy_of(alloc, name.as_bytes()) {
        Ok(name) => ExpandStop::Fault(Fault::NoFile { at, name }),
        Err(Memory) => ExpandStop::Memory,
    }
}

/// The file name of an include of the innermost file, if it is well-formed and the include is not nested too deeply.
fn name_at<'a>(walk: &Walk, include: &'a IncludeBlock) -> Result<&'a str, ExpandStop>
    requires inside { 0 < length walk.now.stack.items }
    requires depth { length walk.now.stack.items ≤ 33 }
    ensures { MatchResult result (λ name. (file_name_of include.now.body ≡ Some name.now) × (length walk.now.stack.items ≤ 32))
        (λ stop. (options : Options) (seen : List HeldFile) (names : List (List ℕ)) → FailsAs (whole_from options seen names walk.now (Some include.now)) (met names walk.now.total) stop) }
{
    let at = include.at;
    match file_name_of(include.body.as_slice()) {
        None => Err(ExpandStop::Fault(Fault::Syntax { at })),
        Some(_) if walk.depth() > MOST_NESTED => {
            Err(ExpandStop::Fault(Fault::IncludeDepth { at, depth: 33 }))
        }
        Some(name) => Ok(name),
    }
}

/// What an include of the innermost file asks for.
fn wanted_file(
    alloc: Global,
    opts: &Options,
    walk: &Walk,
    include: IncludeBlock,
) -> Result<WantedFile, ExpandStop>
    requires inside { 0 < length walk.now.stack.items }
    requires depth { length walk.now.stack.items ≤ 33 }
    ensures { MatchResult result (IsWanted opts.now walk.now include)
        (λ stop. (options : Options) (seen : List HeldFile) (names : List (List ℕ)) → StopsAs (whole_from options seen names walk.now (Some include)) (met names walk.now.total) stop) }
{
    let name = file_name_from(alloc, name_at(walk, &include)?)?;
    let looked_for = names_for(alloc, opts, walk.folder(), name.as_str())?;
    Ok(WantedFile {
        include,
        name,
        looked_for,
    })
}

/// Enters the file that was found for an include of the innermost file.
fn enter_include(
    alloc: Global,
    names: &mut FileNames,
    opts: &Options,
    walk: &mut Walk,
    include: &IncludeBlock,
    found: FoundFile<'_>,
) -> Result<(), Stop>
    requires names { length names.old ≤ walk.old.total }
    requires total { walk.old.total ≤ SOURCE_LIMIT }
    requires inside { 0 < length walk.old.stack.items }
    requires depth { length walk.old.stack.items ≤ 32 }
    ensures expands { (seen : List HeldFile) (name : List ℕ) → file_name_of include.now.body ≡ Some name
        → first_file seen (names_for opts.now (inner_folder (open_files walk.old)) name) ≡ Some (found_view found.entry)
        → MatchResult result (λ _. whole_from opts.now seen names.old walk.old (Some include.now) ≡ whole_of opts.now seen names.new walk.new)
        (StopsWhole (whole_from opts.now seen names.old walk.old (Some include.now)) names.new) }
    ensures takes { OnOk result (Takes names.old names.new walk.old walk.new) }
{
    let file = names.add(found.name)?;
    walk.push(enter_block(alloc, file))?;
    let leave = leave_block(alloc, include);
    walk.enter(alloc, opts, include.at, file, found, Some(leave))?;
    Ok(())
}

/// Reads the file that an include of the innermost file asks for, and enters it.
fn take_include<F: Files>(
    alloc: Global,
    files: &mut F,
    names: &mut FileNames,
    opts: &Options,
    library: &mut Library,
    walk: &mut Walk,
    wanted: &WantedFile,
) -> Result<(), ExpandStop>
    requires names { length names.old ≤ walk.old.total }
    requires total { walk.old.total ≤ SOURCE_LIMIT }
    requires inside { 0 < length walk.old.stack.items }
    requires wanted { IsWanted opts.now walk.old wanted.now.include wanted.now }
    ensures expands { (seen : List HeldFile) → Agrees seen library.new → MatchResult result
        (λ _. whole_from opts.now seen names.old walk.old (Some wanted.now.include) ≡ whole_of opts.now seen names.new walk.new)
        (StopsExpansion (whole_from opts.now seen names.old walk.old (Some wanted.now.include)) (Rose (F.faults files.old) (F.faults files.new)) names.new) }
    ensures takes { OnOk result (Takes names.old names.new walk.old walk.new) }
    ensures reads { ReadsOn (F.held files.old) library.old library.new }
    ensures never_falls { F.faults files.old ≤ F.faults files.new }
    ensures held_stays { F.held files.new ≡ F.held files.old }
    ensures write_faults_stay { F.write_faults files.new ≡ F.write_faults files.old }
{
    let first = library.find(alloc, files, wanted.looked_for.as_slice())?;
    let Some(found) = library.file_of(first) else {
        return Err(no_file(alloc, wanted.include.at, wanted.name.as_str()));
    };
    enter_include(alloc, names, opts, walk, &wanted.include, found)?;
    Ok(())
}

/// Reads the main file and enters it, where nothing is open and no file is met but this.
fn take_main<F: Files>(
    alloc: Global,
    files: &mut F,
    opts: &Options,
    library: &mut Library,
    walk: &mut Walk,
    main: &str,
) -> Result<(), ExpandStop>
    requires { IsNewWalk walk.old }
    ensures expands { (seen : List HeldFile) → Agrees seen library.new → MatchResult result
        (λ _. expansion opts.now seen main.now ≡ whole_of opts.now seen (main.now ∷ []) walk.new)
        (StopsExpansion (expansion opts.now seen main.now) (Rose (F.faults files.old) (F.faults files.new)) (main.now ∷ [])) }
    ensures starts { OnOk result (Starts walk.new) }
    ensures reads { ReadsOn (F.held files.old) library.old library.new }
    ensures never_falls { F.faults files.old ≤ F.faults files.new }
    ensures held_stays { F.held files.new ≡ F.held files.old }
    ensures write_faults_stay { F.write_faults files.new ≡ F.write_faults files.old }
{
    library.learn(alloc, files, main)?;
    let Some(bytes) = library.get(main) else {
        return Err(no_file(alloc, Pos::start_of(0), main));
    };
    let found = FoundFile { name: main, bytes };
    walk.enter(alloc, opts, Pos::start_of(0), 0, found, None)?;
    Ok(())
}

/// The pieces of a source with its includes put in.
///
/// Each include stands for the pieces of its file, between a block of the kind `Enter` at the start of the file and one of the
/// kind `Leave` at the include. Its file is looked for in the folder of the file that includes it, and then in the folder of
/// the options; a name that begins with `/` as it is. A file is read once. `names` is empty before, and gets the name of each
/// file where it is met, so one that is included twice stands there twice.
///
/// Files are taken in the order in which they are met, and the first fault is told. For each file that is `NoFile`, then
/// `TooLong` where the files so far have more than 16,777,216 bytes, then a fault of `split`. At an include it is `Syntax`
/// where its name is not well-formed, then `IncludeDepth` where it would be nested deeper than 32, and then its file. These
/// four stand at the include, or at the start of the main file.
///
/// `ReadFailed` comes only where the count of faults of reads rose. `Memory` says that memory is wanting; no clause ties it to
/// a cause. No file is changed.
pub fn expand<F: Files>(
    alloc: Global,
    files: &mut F,
    names: &mut FileNames,
    opts: &Options,
    main: &str,
) -> Result<Pieces, ExpandStop>
    requires { names.old ≡ [] }
    ensures expands { (seen : List HeldFile) × Sees (F.held files.old) seen × MatchResult result
        (Expands (expansion opts.now seen main.now) names.new)
        (StopsExpansion (expansion opts.now seen main.now) (Rose (F.faults files.old) (F.faults files.new)) names.new) }
    ensures never_falls { F.faults files.old ≤ F.faults files.new }
    ensures held_stays { F.held files.new ≡ F.held files.old }
    ensures write_faults_stay { F.write_faults files.new ≡ F.write_faults files.old }
{
    names.add(main)?;
    let mut library = Library::new(alloc);
    let mut walk = Walk::new(alloc);
    take_main(alloc, files, opts, &mut library, &mut walk, main)?;
    while let Some(include) = walk.next_include()? {
        let wanted = wanted_file(alloc, opts, &walk, include)?;
        take_include(alloc, files, names, opts, &mut library, &mut walk, &wanted)?;
    }
    Ok(walk.into_pieces())
}
