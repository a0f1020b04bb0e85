//! The state of a case between two orders.

use crate::cases::{Alteration, Case, Extent, Item, Order, Outside, Place};
use crate::formats::{extent_of_emitted, is_compiling, is_covering, is_of_both, words_of};
use crate::outcome::{Difference, difference};
use crate::seen::Seen;
use crate::stage::{Failing, NONE, Stage};
use case_reports::CaseError;
use std::alloc::{AllocError, Global};

/// The files, what the last run left, its status where this was not compared yet, the number of its line, which is 0 before a run, whether
/// compilations are tried in format 3, and whether the last run was one that emitted text so.
struct Scene {
    files: Vec<Seen>,
    out: Seen,
    err: Seen,
    status: Option<u8>,
    failing: Failing,
    line: usize,
    in_three: bool,
    emitted: bool,
}

impl Drop for Scene {
    fn drop(self) {
        let Self {
            files: _,
            out: _,
            err: _,
            status: _,
            failing: _,
            line: _,
            in_three: _,
            emitted: _,
        } = self;
    }
}

/// How a case differs from what it wants, behind the number of the line of the run that differs: as it stands, or in format 3.
pub fn difference_of_case(
    alloc: Global,
    case: &Case,
) -> Result<Option<(usize, String)>, CaseError> {
    if let Some(difference) = difference_in(alloc, case, false)? {
        return Ok(Some(difference));
    }
    if !is_of_both(case) {
        return Ok(None);
    }
    match difference_in(alloc, case, true)? {
        Some((line, text)) => Ok(Some((line, format!(in alloc; "in format 3: {text}")?))),
        None => Ok(None),
    }
}

fn difference_in(
    alloc: Global,
    case: &Case,
    in_three: bool,
) -> Result<Option<(usize, String)>, CaseError> {
    let mut scene = Scene::new(alloc, in_three)?;
    for item in case.items.iter() {
        if let Some(difference) = scene.step(alloc, item)? {
            return Ok(Some((scene.line, difference)));
        }
    }
    if scene.line == 0 {
        return Err(CaseError::Malformed("no run"));
    }
    match scene.close(alloc)? {
        Some(difference) => Ok(Some((scene.line, difference))),
        None => Ok(None),
    }
}

impl Scene {
    fn new(alloc: Global, in_three: bool) -> Result<Scene, AllocError> {
        Ok(Scene {
            files: Vec::new(alloc),
            out: Seen::new(alloc, "standard output", None)?,
            err: Seen::new(alloc, "standard error", None)?,
            status: None,
            failing: NONE,
            line: 0,
            in_three,
            emitted: false,
        })
    }

    /// Does what an order asks for. Each order that begins the next run first closes the last one.
    fn step(&mut self, alloc: Global, item: &Item) -> Result<Difference, CaseError> {
        match &item.order {
            Order::Status(wanted) => self.compare_status(alloc, *wanted),
            Order::Want(place, extent) => self.compare(
                alloc,
                place,
                *extent,
                item.content.as_slice(),
            ),
            Order::Given(_) | Order::Fail(_, _) | Order::Alter(_, _) | Order::Run(_) => {
                let difference = self.close(alloc)?;
                self.prepare(alloc, item)?;
                Ok(difference)
            }
        }
    }

    fn prepare(&mut self, alloc: Global, item: &Item) -> Result<(), CaseError> {
        match &item.order {
            Order::Given(name) => self.give(alloc, name.as_str(), item.content.as_slice())?,
            Order::Fail(outside, call) => self.fail(*outside, *call),
            Order::Alter(name, alteration) => self.alter(alloc, name.as_str(), *alteration)?,
            Order::Run(words) => {
                self.run(alloc, words.as_slice())?;
                self.line = item.line;
            }
            _ => {}
        }
        Ok(())
    }

    fn give(&mut self, alloc: Global, name: &str, bytes: &[u8]) -> Result<(), AllocError> {
        let bytes = Vec::from_slice(alloc, bytes)?;
        for seen in self.files.iter_mut() {
            if seen.name.as_str() == name {
                seen.give(bytes);
                return Ok(());
            }
        }
        let seen = Seen::new(alloc, name, Some(bytes))?;
        self.files.push(seen)?;
        Ok(())
    }

    fn fail(&mut self, outside: Outside, call: u64) {
        match outside {
            Outside::Files => self.failing.files = Some(call),
            Outside::Out => self.failing.out = Some(call),
            Outside::Err => self.failing.err = Some(call),
        }
    }

    fn alter(
        &mut self,
        alloc: Global,
        name: &str,
        alteration: Alteration,
    ) -> Result<(), CaseError> {
        for seen in self.files.iter_mut() {
            if seen.name.as_str() == name {
                return seen.alter(alloc, alteration);
            }
        }
        Err(CaseError::Malformed("no such file is there"))
    }

    fn run(&mut self, alloc: Global, words: &[String]) -> Result<(), CaseError> {
        self.note_words(alloc, words)?;
        let mut stage = self.stage(alloc)?;
        let is_third = self.in_three && is_compiling(words);
        let asked = words_of(alloc, is_third, words)?;
        self.status = Some(stage.run(alloc, asked.as_slice()));
        self.emitted = is_third && !is_covering(words);
        self.failing = NONE;
        self.look(alloc, &mut stage)
    }

    /// Each word may be the name of a file that the run makes, or end with it.
    fn note_words(&mut self, alloc: Global, words: &[String]) -> Result<(), AllocError> {
        for word in words.iter() {
            let word = word.as_str();
            self.note_name(alloc, word)?;
            self.note_name(alloc, word.strip_prefix("-o").unwrap_or(word))?;
            self.note_name(alloc, word.strip_prefix("--output=").unwrap_or(word))?;
        }
        Ok(())
    }

    fn note_name(&mut self, alloc: Global, name: &str) -> Result<(), AllocError> {
        if !self.is_known(name) {
            let seen = Seen::new(alloc, name, None)?;
            self.files.push(seen)?;
        }
        Ok(())
    }

    fn is_known(&self, name: &str) -> bool {
        self.files.iter().any(|seen| seen.name.as_str() == name)
    }

    /// The files as they stand, and empty sinks.
    fn stage(&self, alloc: Global) -> Result<Stage, CaseError> {
        let mut stage = Stage::new(alloc, self.failing)?;
        for seen in self.files.iter() {
            if let Some(bytes) = seen.found() {
                stage.files.add(seen.name.as_str(), bytes)?;
            }
        }
        Ok(stage)
    }

    /// Takes note of what a run left.
    fn look(&mut self, alloc: Global, stage: &mut Stage) -> Result<(), CaseError> {
        for seen in self.files.iter_mut() {
            let bytes = stage.read(alloc, seen.name.as_str())?;
            seen.leave(bytes);
        }
        self.out.give(Vec::new(alloc));
        self.out
            .leave(Some(Vec::from_slice(alloc, stage.out.bytes())?));
        self.err.give(Vec::new(alloc));
        self.err
            .leave(Some(Vec::from_slice(alloc, stage.err.bytes())?));
        Ok(())
    }

    fn compare_status(&mut self, alloc: Global, wanted: u8) -> Result<Difference, CaseError> {
        match self.status.take() {
            None => Err(CaseError::Malformed("a status without a run")),
            Some(got) => Ok(difference_of_status(alloc, wanted, got)?),
        }
    }

    fn compare(
        &mut self,
        alloc: Global,
        place: &Place,
        extent: Extent,
        content: &[u8],
    ) -> Result<Difference, CaseError> {
        if self.line == 0 {
            return Err(CaseError::Malformed("nothing is left without a run"));
        }
        let at_output = if self.emitted {
            extent_of_emitted(extent)
        } else {
            extent
        };
        let difference = match place {
            Place::Out => self.out.compare(alloc, at_output, content)?,
            Place::Err => self.err.compare(alloc, extent, content)?,
            Place::File(name) => self.compare_file(alloc, name.as_str(), at_output, content)?,
        };
        Ok(difference)
    }

    fn compare_file(
        &mut self,
        alloc: Global,
        name: &str,
        extent: Extent,
        content: &[u8],
    ) -> Result<Difference, AllocError> {
        for seen in self.files.iter_mut() {
            if seen.name.as_str() == name {
                return seen.compare(alloc, extent, content);
            }
        }
        difference(alloc, name, extent, content, None)
    }

    /// How the last run differs in what no order named: its status is 0, its sinks are empty, and its files are as they were.
    fn close(&mut self, alloc: Global) -> Result<Difference, AllocError> {
        if let Some(got) = self.status.take()
            && got != 0
        {
            return difference_of_status(alloc, 0, got);
        }
        for seen in self.files.iter_mut() {
            if let Some(difference) = seen.compare_unchanged(alloc)? {
                return Ok(Some(difference));
            }
        }
        if let Some(difference) = self.out.compare_unchanged(alloc)? {
            return Ok(Some(difference));
        }
        self.err.compare_unchanged(alloc)
    }
}

fn difference_of_status(alloc: Global, wanted: u8, got: u8) -> Result<Difference, AllocError> {
    if wanted == got {
        return Ok(None);
    }
    Ok(Some(format!(in alloc; "status: wanted {wanted}, got {got}")?))
}
