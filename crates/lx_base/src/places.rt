//! Places in source files, and the files' names.
ghost use Rattle.std.specs.Prelude.{◌≡◌, ◌+◌, ◌^◌, ◌<◌, ◌↔◌, IsTrue, ◌≤◌, [], ◌∷◌, ◌++◌, length, string_bytes, IfOk, OnErr, MatchOption, Some, slice_get};
ghost use Rattle.lx_base.specs.Places.{file_start, next_place, place_after};

use crate::lists::Memory;
use std::alloc::Global;
use std::marker::Model;

/// A place in a source file.
///
/// `file` is the place of the file's name in `FileNames`. Lines and columns count from 1, columns in
/// bytes, and a line feed ends a line.
#[derive(Clone, Copy, PartialEq, Eq)]
pub struct Pos {
    pub file: u32,
    pub line: u32,
    pub col: u32,
}

impl Pos {
    /// Line 1, column 1 of a file, by its place in `FileNames`.
    pub fn start_of(file: u32) -> Pos
        ensures { result ≡ file_start file }
    {
        Pos {
            file,
            line: 1,
            col: 1,
        }
    }
}

/// The place behind a byte.
fn next_place(at: Pos, letter: u8) -> Pos
    requires line { at.line + 1 < 2 ^ 32 }
    requires col { at.col + 1 < 2 ^ 32 }
    ensures { result ≡ next_place at letter }
{
    if letter == b'\n' {
        Pos {
            file: at.file,
            line: at.line + 1,
            col: 1,
        }
    } else {
        Pos {
            file: at.file,
            line: at.line,
            col: at.col + 1,
        }
    }
}

/// The place behind a text that begins at a place.
pub fn place_after(at: Pos, text: &[u8]) -> Pos
    requires line { at.line + length text.now < 2 ^ 32 }
    requires col { at.col + length text.now < 2 ^ 32 }
    ensures place { result ≡ place_after at text.now }
    ensures line { result.line ≤ at.line + length text.now }
    ensures col { result.col ≤ at.col + length text.now }
{
    let mut place = at;
    for letter in text {
        place = next_place(place, *letter);
    }
    place
}

/// The name of a file or a folder, as the command line spells it.
#[derive(Drop)]
pub struct FileName {
    name: String,
}

impl Model for FileName {
    ghost use Rattle.std.specs.Prelude.{List, ℕ};
    ghost use Rattle.std.specs.Coded.{coded_ℕ, coded_list};
    ghost use Rattle.std.specs.Prelude.{string_bytes};

    ghost Value = { List ℕ };

    ghost coded = { coded_list coded_ℕ };

    ghost view = { λ file. string_bytes file.name };
}

impl FileName {
    /// The name with these characters. It takes no memory.
    pub fn from_string(name: String) -> Self
        ensures { result ≡ string_bytes name }
    {
        FileName { name }
    }

    /// The name's characters.
    pub fn as_str(&self) -> &str
        ensures { result.now ≡ self.now }
    {
        self.name.as_str()
    }
}

/// The names of the files met so far, in order; contracts see the list of their bytes.
#[derive(Drop)]
pub struct FileNames {
    names: Vec<FileName>,
}

impl Model for FileNames {
    ghost use Rattle.std.specs.Prelude.{List, ℕ};
    ghost use Rattle.std.specs.Coded.{coded_ℕ, coded_list};

    ghost Value = { List (List ℕ) };

    ghost coded = { coded_list (coded_list coded_ℕ) };

    ghost view = { λ files. files.names.items };
}

impl FileNames {
    /// The empty list. It takes no memory.
    pub fn new(alloc: Global) -> FileNames
        ensures { result ≡ [] }
    {
        FileNames {
            names: Vec::new(alloc),
        }
    }

    /// Appends a name and answers its place, counted from 0.
    ///
    /// Where memory runs out the list stays as it was.
    pub fn add(&mut self, name: &str) -> Result<u32, Memory>
        requires { length self.old < 4294967295 }
        ensures added { IfOk result (λ file. (file ≡ length self.old) × (self.new ≡ self.old ++ name.now ∷ [])) }
        ensures kept { OnErr result (self.new ≡ self.old) }
    {
        let file = self.names.len() as u32;
        let name = String::from_str(*self.names.allocator(), name)?;
        self.names.push(FileName::from_string(name))?;
        Ok(file)
    }

    /// How many names there are.
    pub fn len(&self) -> usize
        ensures { result ≡ length self.now }
    {
        self.names.len()
    }

    /// Whether there is no name.
    pub fn is_empty(&self) -> bool
        ensures { IsTrue result ↔ (self.now ≡ []) }
    {
        self.names.is_empty()
    }

    /// The name at a place; `None` exactly where the place is past the list.
    pub fn get(&self, file: u32) -> Option<&str>
        ensures { MatchOption result (length self.now ≤ file) (λ name. slice_get self.now file ≡ Some name.now) }
    {
        match self.names.get(file as usize) {
            None => None,
            Some(name) => Some(name.as_str()),
        }
    }
}
