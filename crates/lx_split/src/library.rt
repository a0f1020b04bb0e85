//! The files that were read, each once.
ghost use Rattle.std.specs.Prelude.{◌≡◌, ◌≤◌, ℕ, List, [], Some, None, IfOk, IfErr, OnOk, OnErr, IsSome, is_some, option_map, if◌then◌else◌};
ghost use Rattle.std.specs.Option.{option_copied};
ghost use Rattle.std.specs.Str.{bytes_eq};
ghost use Rattle.lx_files.specs.Counts.{Rose};
ghost use Rattle.lx_files.specs.declared.files.HeldFile.{HeldFile};
ghost use Rattle.lx_split.specs.Includes.{StopsRead, first_file, found_view};
ghost use Rattle.lx_split.specs.Libraries.{Agrees, ReadsOn, known, known_bytes, known_file};

use crate::expanding::ExpandStop;
use indexmap::IndexMap;
use lx_base::{ByteText, FileName, Memory};
use lx_files::{Files, ReadAnswer};
use std::alloc::Global;

/// A file that was found: its name and its bytes.
#[derive(Clone, Copy)]
pub struct FoundFile<'a> {
    pub name: &'a str,
    pub bytes: &'a [u8],
}

/// What is known of files by their names: their bytes, or that there is no such file. What was read once is not read again.
pub struct Library {
    by_name: IndexMap<Vec<u8>, Option<ByteText>>,
}

impl Drop for Library {
    fn drop(self) {
        let Self { by_name: _ } = self;
    }
}

impl Library {
    /// Nothing is known. It takes no memory.
    pub(crate) fn new(alloc: Global) -> Library
        ensures { result.by_name.entries ≡ [] }
    {
        Library {
            by_name: IndexMap::new(alloc),
        }
    }

    /// Whether it is known what stands under a name.
    fn is_known(&self, name: &str) -> bool
        ensures { result ≡ is_some (known self.now name.now) }
    {
        self.by_name.get(name.as_bytes()).is_some()
    }

    /// The bytes that are known of a name.
    pub(crate) fn get(&self, name: &str) -> Option<&[u8]>
        ensures { option_copied result ≡ known_bytes self.now name.now }
    {
        match self.by_name.get(name.as_bytes()) {
            Some(Some(bytes)) => Some(bytes.as_slice()),
            _ => None,
        }
    }

    /// Whether bytes are known of a name.
    fn has(&self, name: &str) -> bool
        ensures { result ≡ is_some (known_bytes self.now name.now) }
    {
        self.get(name).is_some()
    }

    /// Puts in what stands under a name of which nothing is known. Where memory runs out nothing changed.
    fn add(&mut self, alloc: Global, name: &str, bytes: Option<ByteText>) -> Result<(), Memory>
        requires { known self.old name.now ≡ None }
        ensures added { OnOk result ((other : List ℕ) → known self.new other ≡ (if bytes_eq other name.now then Some bytes else known self.old other)) }
        ensures kept { OnErr result ((other : List ℕ) → known self.new other ≡ known self.old other) }
    {
        let name = Vec::from_slice(alloc, name.as_bytes())?;
        self.by_name.insert(name, bytes)?;
        Ok(())
    }

    /// Reads the file of a name, if nothing is known of it.
    pub(crate) fn learn<F: Files>(
        &mut self,
        alloc: Global,
        files: &mut F,
        name: &str,
    ) -> Result<(), ExpandStop>
        ensures known { OnOk result (IsSome (known self.new name.now)) }
        ensures reads { ReadsOn (F.held files.old) self.old self.new }
        ensures refuses { IfErr result (StopsRead (Rose (F.faults files.old) (F.faults files.new))) }
        ensures never_falls { F.faults files.old ≤ F.faults files.new }
        ensures held_stays { F.held files.new ≡ F.held files.old }
        ensures write_faults_stay { F.write_faults files.new ≡ F.write_faults files.old }
    {
        if self.is_known(name) {
            return Ok(());
        }
        let bytes = match files.read(alloc, name) {
            Ok(bytes) => Some(ByteText::from_vec(bytes)),
            Err(ReadAnswer::Missing) => None,
            Err(ReadAnswer::Failed) => return Err(ExpandStop::ReadFailed),
            Err(ReadAnswer::Memory) => return Err(ExpandStop::Memory),
        };
        self.add(alloc, name, bytes)?;
        Ok(())
    }

    /// The first of the names under which there is a file, of which the names before are read.
    pub(crate) fn find<'n, F: Files>(
        &mut self,
        alloc: Global,
        files: &mut F,
        names: &'n [FileName],
    ) -> Result<Option<&'n FileName>, ExpandStop>
        ensures found { IfOk result (λ found. (seen : List HeldFile) → Agrees seen self.new → first_file seen names.now ≡ known_file self.new (option_copied found)) }
        ensures reads { ReadsOn (F.held files.old) self.old self.new }
        ensures refuses { IfErr result (StopsRead (Rose (F.faults files.old) (F.faults files.new))) }
        ensures never_falls { F.faults files.old ≤ F.faults files.new }
        ensures held_stays { F.held files.new ≡ F.held files.old }
        ensures write_faults_stay { F.write_faults files.new ≡ F.write_faults files.old }
    {
        for name in names {
            self.learn(alloc, files, name.as_str())?;
            if self.has(name.as_str()) {
                return Ok(Some(name));
            }
        }
        Ok(None)
    }

    /// The file of a name, if there is a name and its bytes are known.
    pub(crate) fn file_of<'a>(&'a self, name: Option<&'a FileName>) -> Option<FoundFile<'a>>
        ensures { option_map found_view result ≡ known_file self.now (option_copied name.entry) }
    {
        let name = name?.as_str();
        let bytes = self.get(name)?;
        Some(FoundFile { name, bytes })
    }
}
