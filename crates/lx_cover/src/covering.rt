//! Covering words, one behind another, with the kernels that are found by them.
ghost use Rattle.std.specs.Bool.{MatchBool};
ghost use Rattle.std.specs.Prelude.{◌≡◌, ◌≢◌, ◌⊎◌, ℕ, ◌+◌, ◌<◌, ◌≤◌, List, [], ◌∷◌, ◌++◌, IfOk, MatchResult, OnOk, length, map, Some, slice_get};
ghost use Rattle.lx_base.specs.Spelling.{greatest_unit};
ghost use Rattle.lx_cover.specs.Progress.{HasCome, HasComeTo, HasLed, HasPassed, IsCounted, IsOver, IsTarget, Keeps, Notes, OfRules, Stops, least_word};
ghost use Rattle.lx_tdfa.specs.Building.{IsBuilt};
ghost use Rattle.lx_tdfa.specs.Making.{seen_step};
ghost use Rattle.lx_tdfa.specs.Steps.{next_steps, places_of, start_place};
ghost use Rattle.lx_tnfa.specs.Closure.{AllPlaces, IsClosureOf};
ghost use Rattle.lx_tnfa.specs.declared.places.Place.{Place as PlaceValue};

use crate::words::{Words, word_on};
use lx_base::{Memory, Word};
use lx_encode::Residual;
use lx_tdfa::{Lists, Step, last_unit, merged_cuts, next_steps, step_places};
use lx_tnfa::{Place, Reach, Search, Tnfa, Visited};
use std::alloc::Global;

/// How many units the covering words of a scanner may have together.
pub const COVER_LIMIT: u64 = 1_048_576;

/// Why there is no list of covering words.
#[derive(Clone, Copy)]
pub enum CoverStop {
    /// Memory ran out.
    Memory,
    /// The words have more units together than the limit: the first sum of their lengths, in the order of the list, that is more.
    TooLong(u64),
}

impl From<Memory> for CoverStop {
    ghost use Rattle.std.specs.Prelude.{◌≡◌};
    ghost use Rattle.lx_cover.specs.declared.covering.CoverStop.TheVariants as stop;

    ghost from_gives = { λ _ stopped. stopped ≡ stop.Memory };

    fn from(_error: Memory) -> CoverStop {
        CoverStop::Memory
    }
}

/// Buffers for the work on one kernel after another.
#[derive(Drop)]
pub(crate) struct Buffers {
    pub search: Search,
    pub seen: Visited<Place>,
}

/// Covering words, and the kernels of which some of them are the least words.
#[derive(Drop)]
pub(crate) struct Covering {
    alloc: Global,
    pub words: Words,
    /// How many units they have together.
    sum: u64,
    /// The kernels, each by its list of places.
    pub kernels: Lists<Place>,
    /// For each kernel, where its least word stands among the words.
    firsts: Vec<usize>,
}

/// The number of the list of places to which steps lead, if there are any; it comes behind the others where it is new.
fn target(
    alloc: Global,
    kernels: &mut Lists<Place>,
    steps: &[Step<'_>],
) -> Result<Option<usize>, Memory>
    ensures { IfOk result (λ to. IsTarget kernels.old (places_of (map seen_step steps.now)) kernels.new to) }
{
    if steps.is_empty() {
        return Ok(None);
    }
    let (number, _) = kernels.put(step_places(alloc, steps)?)?;
    Ok(Some(number))
}

/// Whether a unit begins a run: the first one does, and one that leads elsewhere than the unit before it.
fn begins_run(unit: u32, to: Option<usize>, last: Option<usize>) -> bool
    ensures { MatchBool result ((unit ≡ 0) ⊎ (to ≢ last)) ((0 < unit) × (to ≡ last)) }
{
    unit == 0 || to != last
}

impl Covering {
    /// The empty word alone, and its kernel.
    pub(crate) fn new(alloc: Global) -> Result<Covering, Memory>
        ensures counted { IfOk result IsCounted }
        ensures words { IfOk result (λ covering. covering.words ≡ [] ∷ []) }
        ensures kernels { IfOk result (λ covering. covering.kernels ≡ (start_place ∷ []) ∷ []) }
        ensures firsts { IfOk result (λ covering. covering.firsts.items ≡ 0 ∷ []) }
    {
        let mut words = Words::new(alloc);
        words.push(Word::new(alloc))?;
        let mut start = Vec::new(alloc);
        start.push(Place {
            part: 0,
            rest: Residual(0),
        })?;
        let mut firsts = Vec::new(alloc);
        firsts.push(0)?;
        Ok(Covering {
            alloc,
            words,
            sum: 0,
            kernels: Lists::of(alloc, start)?,
            firsts,
        })
    }

    /// Appends a word, with which there are not too many units.
    fn push(&mut self, word: Word) -> Result<(), CoverStop>
        requires { IsCounted self.old }
        ensures words { MatchResult result (λ _. (self.new.words ≡ self.old.words ++ word ∷ []) × IsCounted self.new)
            (IsOver (self.old.words) word) }
        ensures kernels { self.new.kernels ≡ self.old.kernels }
        ensures firsts { self.new.firsts.items ≡ self.old.firsts.items }
    {
        let sum = self.sum + word.as_slice().len() as u64;
        if sum > COVER_LIMIT {
            return Err(CoverStop::TooLong(sum));
        }
        self.words.push(word)?;
        self.sum = sum;
        Ok(())
    }

    /// The last word is the least one of the last kernel, where there are more kernels than so many.
    fn note(&mut self, known: usize) -> Result<(), Memory>
        requires { 0 < length self.old.words }
        ensures { OnOk result (Notes known self.old self.new) }
    {
        if self.kernels.len() > known {
            self.firsts.push(self.words.as_slice().len() - 1)?;
        }
        Ok(())
    }

    /// Takes units out of a kernel that lead alike: from this one on, where those before it lead to `last`. The least word of the kernel is
    /// the front.
    fn take(
        &mut self,
        t: &Tnfa,
        seen: &mut Visited<Place>,
        reaches: &[Reach],
        front: &[u32],
        unit: u32,
        last: Option<usize>,
    ) -> Result<Option<usize>, CoverStop>
        requires built { IsBuilt t.now }
        requires places { AllPlaces t.now reaches.now }
        requires kernel { (number : ℕ) × (list : List PlaceValue) × (number < length self.old.kernels)
            × (slice_get self.old.kernels number ≡ Some list) × IsClosureOf t.now list reaches.now × (front.now ≡ least_word self.old number) }
        requires counted { IsCounted self.old }
        requires come { OfRules t.now (λ enc rules. HasCome enc rules t.now self.old (front.now ++ unit ∷ [])) }
        requires led { HasLed t.now self.old.kernels front.now unit last }
        requires unit { unit ≤ greatest_unit t.now.enc }
        ensures { MatchResult result
            (λ to. Keeps self.old self.new × IsCounted self.new × (unit ≡ 0 → self.old.sum < self.new.sum)
            × ((hi : ℕ) → unit ≤ hi → ((other : ℕ) → unit ≤ other → other ≤ hi → next_steps t.now other reaches.now ≡ next_steps t.now unit reaches.now)
            → OfRules t.now (λ enc rules. HasCome enc rules t.now self.new (front.now ++ (hi + 1) ∷ []))
            × HasLed t.now self.new.kernels front.now (hi + 1) to))
            (Stops t.now) }
    {
        let steps = next_steps(self.alloc, t, seen, reaches, unit)?;
        let known = self.kernels.len();
        let to = target(self.alloc, &mut self.kernels, &steps)?;
        if !begins_run(unit, to, last) {
            return Ok(to);
        }
        self.push(word_on(self.alloc, front, unit)?)?;
        self.note(known)?;
        Ok(to)
    }

    /// Appends the least word of a kernel followed by the first unit of each run out of it. A kernel of 2^32 - 1 places or more is no memory
    /// that there is.
    pub(crate) fn pass(
        &mut self,
        t: &Tnfa,
        buffers: &mut Buffers,
        number: usize,
    ) -> Result<(), CoverStop>
        requires built { IsBuilt t.now }
        requires within { number < length self.old.kernels }
        requires counted { IsCounted self.old }
        requires come { HasComeTo t.now self.old number }
        ensures { MatchResult result
            (λ _. Keeps self.old self.new × IsCounted self.new × (self.old.sum < self.new.sum) × HasPassed t.now self.new number)
            (Stops t.now) }
    {
        let kernel = self.kernels.get(number);
        if kernel.len() >= u32::MAX as usize {
            return Err(CoverStop::Memory);
        }
        let targets = t.closure_with(self.alloc, &mut buffers.search, kernel)?;
        let reaches = targets.as_slice();
        let cuts = merged_cuts(self.alloc, t, reaches)?;
        let least = self.words.as_slice()[self.firsts[number]].as_slice();
        let copy = Word::copy_of(self.alloc, least)?;
        let front = copy.as_slice();
        let mut last = None;
        for index in 0..cuts.len() {
            if last_unit(&cuts, index, t.greatest()).is_some() {
                last = self.take(t, &mut buffers.seen, reaches, front, cuts[index], last)?;
            }
        }
        Ok(())
    }
}
