//! The way through a source and the files that it includes.
ghost use Rattle.std.specs.Prelude.{◌≡◌, ◌+◌, ◌≤◌, ◌++◌, ◌∷◌, List, [], length, option_to_list, IfOk, MatchResult, Ok, OnOk};
ghost use Rattle.lx_base.specs.declared.limits.TheConstants.{SOURCE_LIMIT};
ghost use Rattle.lx_split.specs.Includes.{found_view, pieces_within};
ghost use Rattle.lx_split.specs.Pieces.{StopsWith};
ghost use Rattle.lx_split.specs.Walks.{Advances, Enters, Opens, inner_folder, open_files};
ghost use Rattle.lx_split.specs.declared.pieces.SourcePiece.{SourcePiece};

use crate::includes::{IncludeBlock, folder_of, include_of};
use crate::library::FoundFile;
use crate::pieces::{Pieces, SourcePiece, split};
use lx_base::limits::SOURCE_LIMIT;
use lx_base::{Fault, FileName, Memory, Options, Pos, Sequence, Stop};
use std::alloc::Global;
use std::collections::VecDeque;

/// A file of which pieces are still to be taken.
pub struct OpenFile {
    /// These pieces, in order.
    rest: VecDeque<SourcePiece>,
    /// Its folder.
    folder: FileName,
    /// The piece that stands behind its last one, if one does.
    leave: Option<SourcePiece>,
}

impl Drop for OpenFile {
    fn drop(self) {
        let Self {
            rest: _,
            folder: _,
            leave: _,
        } = self;
    }
}

impl OpenFile {
    /// The piece that stands behind its last one, if one does.
    fn into_leave(self) -> Option<SourcePiece>
        ensures { result ≡ self.leave }
    {
        let Self {
            rest: _,
            folder: _,
            leave,
        } = self;
        leave
    }
}

/// The pieces of a source so far, and the files that are open: the main file, then the one that it includes, and so on.
#[derive(Drop)]
pub struct Walk {
    pieces: Pieces,
    stack: Vec<OpenFile>,
    /// How many bytes the files have that were met so far.
    total: usize,
}

/// The pieces of a file, where `before` bytes are met before it.
fn pieces_within(
    alloc: Global,
    opts: &Options,
    at: Pos,
    file: u32,
    before: usize,
    bytes: &[u8],
) -> Result<Pieces, Stop>
    requires { before ≤ SOURCE_LIMIT }
    ensures { MatchResult result (λ pieces. (pieces_within opts.now at file before bytes.now ≡ Ok pieces) × (length pieces ≤ length bytes.now) × (before + length bytes.now ≤ SOURCE_LIMIT)) (StopsWith (pieces_within opts.now at file before bytes.now)) }
{
    let total = before + bytes.len();
    if total > SOURCE_LIMIT {
        return Err(Stop::Fault(Fault::TooLong {
            at,
            total: total as u64,
        }));
    }
    split(alloc, bytes, file, opts)
}

impl Walk {
    /// No file is met. It takes no memory.
    pub(crate) fn new(alloc: Global) -> Walk
        ensures pieces { result.pieces ≡ [] }
        ensures stack { result.stack.items ≡ [] }
        ensures total { result.total ≡ 0 }
    {
        Walk {
            pieces: Sequence::new(alloc),
            stack: Vec::new(alloc),
            total: 0,
        }
    }

    /// The pieces so far.
    pub(crate) fn into_pieces(self) -> Pieces
        ensures { result ≡ self.pieces }
    {
        self.pieces
    }

    /// How many files are open.
    pub(crate) fn depth(&self) -> usize
        ensures { result ≡ length self.now.stack.items }
    {
        self.stack.len()
    }

    /// The folder of the innermost file.
    pub(crate) fn folder(&self) -> &str
        ensures { result.now ≡ inner_folder (open_files self.now) }
    {
        match self.stack.last() {
            Some(file) => file.folder.as_str(),
            None => "",
        }
    }

    /// Puts a piece behind the pieces so far.
    pub(crate) fn push(&mut self, piece: SourcePiece) -> Result<(), Memory>
        ensures { OnOk result (self.new ≡ record self.old { pieces = self.old.pieces ++ piece ∷ [] }) }
    {
        self.pieces.push(piece)?;
        Ok(())
    }

    /// The same of a piece, if there is one.
    fn push_if(&mut self, piece: Option<SourcePiece>) -> Result<(), Memory>
        ensures { OnOk result (self.new ≡ record self.old { pieces = self.old.pieces ++ option_to_list piece }) }
    {
        match piece {
            Some(piece) => self.push(piece),
            None => Ok(()),
        }
    }

    /// Opens a file of this name and these pieces, behind which another may stand.
    fn open_file(
        &mut self,
        alloc: Global,
        name: &str,
        pieces: Pieces,
        leave: Option<SourcePiece>,
    ) -> Result<(), Memory>
        ensures { OnOk result (Opens self.old self.new name.now pieces leave) }
    {
        let folder = String::from_str(alloc, folder_of(name))?;
        self.stack.push(OpenFile {
            rest: VecDeque::from_vec(pieces.into_vec()),
            folder: FileName::from_string(folder),
            leave,
        })?;
        Ok(())
    }

    /// Enters a file, which is met with this number, and behind whose pieces another may stand. The faults that do not stand
    /// in it stand at `at`.
    pub(crate) fn enter(
        &mut self,
        alloc: Global,
        opts: &Options,
        at: Pos,
        file: u32,
        found: FoundFile<'_>,
        leave: Option<SourcePiece>,
    ) -> Result<(), Stop>
        requires { self.old.total ≤ SOURCE_LIMIT }
        ensures { MatchResult result (λ _. (pieces : List SourcePiece) × (pieces_within opts.now at file self.old.total found.entry.bytes.now ≡ Ok pieces) × Enters self.old self.new (found_view found.entry) pieces leave)
            (StopsWith (pieces_within opts.now at file self.old.total found.entry.bytes.now)) }
    {
        let pieces = pieces_within(alloc, opts, at, file, self.total, found.bytes)?;
        self.open_file(alloc, found.name, pieces, leave)?;
        self.total += found.bytes.len();
        Ok(())
    }

    /// Takes pieces up to the next include, and then that, or all if there is none.
    pub(crate) fn next_include(&mut self) -> Result<Option<IncludeBlock>, Memory>
        ensures { IfOk result (Advances self.old self.new) }
    {
        while let Some(mut file) = self.stack.pop() {
            let Some(piece) = file.rest.pop_front() else {
                self.push_if(file.into_leave())?;
                continue;
            };
            self.stack.push(file)?;
            match include_of(piece) {
                Ok(include) => return Ok(Some(include)),
                Err(piece) => self.push(piece)?,
            }
        }
        Ok(None)
    }
}
