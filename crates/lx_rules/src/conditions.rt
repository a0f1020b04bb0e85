//! The conditions of a block, and what is kept of the rules of each.
ghost use Rattle.std.specs.Prelude.{◌≡◌, map};
ghost use Rattle.lx_exprs.specs.Values.{IsRoom};
ghost use Rattle.lx_rules.specs.Conditions.{earlier, wider};

use crate::words::is_among;
use indexmap::IndexMap;
use lx_base::limits::{NESTING_LIMIT, SIZE_LIMIT, TAG_LIMIT};
use lx_base::{Memory, Pos};
use lx_exprs::values::{Room, sum};
use std::alloc::Global;

/// How far some rules go. 2^40 stands for itself and for more.
#[derive(Clone, Copy)]
pub(crate) struct Running {
    /// Their size.
    pub size: u64,
    /// The greatest of their nestings.
    pub nesting: u64,
    /// How many tags they have.
    pub tags: u64,
}

impl Running {
    ghost use Rattle.std.specs.Prelude.{◌≡◌};
    ghost use Rattle.lx_exprs.specs.Values.{IsRoom};
    ghost use Rattle.lx_rules.specs.Conditions.{nothing_runs, room_behind, running_with};

    /// There are no rules.
    pub fn none() -> Running
        ensures { result ≡ nothing_runs }
    {
        Running {
            size: 0,
            nesting: 0,
            tags: 0,
        }
    }

    /// These rules and others.
    pub fn with(self, more: Running) -> Running
        ensures { result ≡ running_with self more }
    {
        Running {
            size: sum(self.size, more.size),
            nesting: self.nesting.max(more.nesting),
            tags: sum(self.tags, more.tags),
        }
    }

    /// What the next rule may have. It may have nothing behind a nesting or a number of tags that is past the limit.
    fn room(self) -> Room
        ensures room { result ≡ room_behind self }
        ensures within { IsRoom result }
    {
        let is_past = self.nesting > NESTING_LIMIT || self.tags > TAG_LIMIT;
        Room {
            size: if is_past {
                0
            } else {
                SIZE_LIMIT.saturating_sub(self.size)
            },
            tags: TAG_LIMIT.saturating_sub(self.tags),
        }
    }
}

/// The greater room.
fn wider(room: Room, other: Room) -> Room
    ensures room { result ≡ wider room other }
    ensures within { IsRoom room → IsRoom other → IsRoom result }
{
    Room {
        size: room.size.max(other.size),
        tags: room.tags.max(other.tags),
    }
}

/// The first rule of a kind.
#[derive(Clone, Copy)]
pub(crate) struct FirstRule {
    /// Its number, which is its place in the block, from 1.
    pub number: u32,
    /// Where its head stands.
    pub at: Pos,
}

/// Of two rules the one with the less number.
fn earlier(one: Option<FirstRule>, other: Option<FirstRule>) -> Option<FirstRule>
    ensures { result ≡ earlier one other }
{
    let Some(first) = one else {
        return other;
    };
    let Some(second) = other else {
        return one;
    };
    if second.number < first.number {
        other
    } else {
        one
    }
}

/// How rules stand under a condition.
#[derive(Clone, Copy)]
pub(crate) struct Standing {
    /// How far they go, but for `*` and `$`.
    pub running: Running,
    /// The first `*`.
    pub first_default: Option<FirstRule>,
    /// The first `$`.
    pub first_end: Option<FirstRule>,
}

impl Standing {
    ghost use Rattle.std.specs.Prelude.{◌≡◌};
    ghost use Rattle.lx_rules.specs.Conditions.{nothing_stands, standing_with};

    /// There are no rules.
    pub fn none() -> Standing
        ensures { result ≡ nothing_stands }
    {
        Standing {
            running: Running::none(),
            first_default: None,
            first_end: None,
        }
    }

    /// These rules, and others behind them.
    pub fn with(self, more: Standing) -> Standing
        ensures { result ≡ standing_with self more }
    {
        Standing {
            running: self.running.with(more.running),
            first_default: self.first_default.or(more.first_default),
            first_end: self.first_end.or(more.first_end),
        }
    }
}

/// What is kept of the rules of a condition.
#[derive(Drop)]
struct KeptCondition {
    /// How they stand.
    standing: Standing,
    /// Their places among the rules of the block, in order, counted from 0.
    places: Vec<usize>,
}

impl KeptCondition {
    ghost use Rattle.std.specs.Prelude.{◌≡◌, IfOk, OnOk};
    ghost use Rattle.lx_rules.specs.Conditions.{condition_view, is_last, nothing_kept, taken};

    /// There are no rules.
    fn none(alloc: Global) -> KeptCondition
        ensures { condition_view result ≡ nothing_kept }
    {
        KeptCondition {
            standing: Standing::none(),
            places: Vec::new(alloc),
        }
    }

    /// The same rules.
    fn copy(&self, alloc: Global) -> Result<KeptCondition, Memory>
        ensures { IfOk result (λ copy. condition_view copy ≡ condition_view self.now) }
    {
        Ok(KeptCondition {
            standing: self.standing,
            places: Vec::from_slice(alloc, self.places.as_slice())?,
        })
    }

    /// Whether the rule at a place is the last one.
    fn ends_with(&self, place: usize) -> bool
        ensures { result ≡ is_last place self.now.places.items }
    {
        match self.places.last() {
            Some(last) => *last == place,
            None => false,
        }
    }

    /// Takes up the rule at a place, which stands so; but only once, since a list may name a condition twice.
    fn take(&mut self, place: usize, rule: Standing) -> Result<(), Memory>
        ensures { OnOk result (condition_view self.new ≡ taken place rule (condition_view self.old)) }
    {
        if self.ends_with(place) {
            return Ok(());
        }
        self.standing = self.standing.with(rule);
        self.places.push(place)?;
        Ok(())
    }
}

/// The conditions of a rule.
#[derive(Drop)]
pub(crate) enum Conds {
    /// All of them, by `<*>`.
    Every,
    /// Those with these numbers.
    Listed(Vec<usize>),
}

/// The conditions so far, each with a number: its place in the order in which they first appear, from 0. That of `<*>` has none.
pub(crate) struct Conditions {
    /// Their names, and what is kept of the rules of each.
    named: IndexMap<Vec<u8>, KeptCondition>,
    /// What is kept of the rules of `<*>`.
    shared: KeptCondition,
}

impl Drop for Conditions {
    fn drop(self) {
        let Self {
            named: _,
            shared: _,
        } = self;
    }
}

impl Conditions {
    ghost use Rattle.std.specs.Prelude.{◌≡◌, ◌<◌, ℕ, List, [], ◌∷◌, IfOk, OnOk, false, length, map, slice_index_or, if◌then◌else◌};
    ghost use Rattle.std.specs.List.{AllByRecursion, position_or_len};
    ghost use Rattle.std.specs.Map.{keys_of};
    ghost use Rattle.std.specs.Str.{bytes_eq};
    ghost use Rattle.lx_exprs.specs.Checks.{is_among};
    ghost use Rattle.lx_exprs.specs.Values.{IsRoom};
    ghost use Rattle.lx_rules.specs.Blocks.{add_conds, every};
    ghost use Rattle.lx_rules.specs.Conditions.{AreConds, AreNumbers, cond_names, conds_seen, earliest_default, earliest_end, kept_of, nothing_kept, places_of, room_under, standing_of, taken};

    /// No conditions. It takes no memory.
    pub fn new(alloc: Global) -> Conditions
        ensures names { cond_names result ≡ [] }
        ensures kept { (cond : List ℕ) → kept_of result cond ≡ nothing_kept }
    {
        Conditions {
            named: IndexMap::new(alloc),
            shared: KeptCondition::none(alloc),
        }
    }

    /// The same conditions.
    pub fn copy(&self, alloc: Global) -> Result<Conditions, Memory>
        ensures names { IfOk result (λ copy. cond_names copy ≡ cond_names self.now) }
        ensures kept { IfOk result (λ copy. (cond : List ℕ) → kept_of copy cond ≡ kept_of self.now cond) }
    {
        let shared = self.shared.copy(alloc)?;
        let mut named = IndexMap::new(alloc);
        for number in 0..self.named.len() {
            if let Some((name, kept)) = self.named.get_index(number) {
                named.insert(Vec::from_slice(alloc, name.as_slice())?, kept.copy(alloc)?)?;
            }
        }
        Ok(Conditions { named, shared })
    }

    /// How many conditions there are.
    pub fn len(&self) -> usize
        ensures { result ≡ length (cond_names self.now) }
    {
        self.named.len()
    }

    /// Whether a condition of this name is there.
    pub fn contains(&self, name: &[u8]) -> bool
        ensures { result ≡ is_among name.now (cond_names self.now) }
    {
        self.named.get(name).is_some()
    }

    /// The name of the condition with a number.
    pub fn name_at(&self, number: usize) -> &[u8]
        ensures { result.now ≡ slice_index_or (cond_names self.now) number [] }
    {
        match self.named.get_index(number) {
            Some((name, _)) => name.as_slice(),
            None => b"",
        }
    }

    /// How the rules of a condition stand.
    fn standing(&self, name: &[u8]) -> Standing
        ensures { result ≡ standing_of self.now name.now }
    {
        if name == b"*".as_slice() {
            return self.shared.standing;
        }
        match self.named.get(name) {
            Some(kept) => kept.standing,
            None => Standing::none(),
        }
    }

    /// The places of the rules of a condition, in order.
    pub fn places(&self, name: &[u8]) -> &[usize]
        ensures { result.now ≡ places_of self.now name.now }
    {
        if name == b"*".as_slice() {
            return self.shared.places.as_slice();
        }
        match self.named.get(name) {
            Some(kept) => kept.places.as_slice(),
            None => &[],
        }
    }

    /// The first rule `*` that has one of some conditions.
    pub fn first_default(&self, conds: &[&[u8]]) -> Option<FirstRule>
        ensures { result ≡ earliest_default self.now (map (λ cond. cond.now) conds.now) }
    {
        let mut first = None;
        for cond in conds {
            first = earlier(first, self.standing(cond).first_default);
        }
        first
    }

    /// The first rule `$` that has one of some conditions.
    pub fn first_end(&self, conds: &[&[u8]]) -> Option<FirstRule>
        ensures { result ≡ earliest_end self.now (map (λ cond. cond.now) conds.now) }
    {
        let mut first = None;
        for cond in conds {
            first = earlier(first, self.standing(cond).first_end);
        }
        first
    }

    /// The greatest room that one of some conditions has for a rule.
    pub fn room(&self, conds: &[&[u8]]) -> Room
        ensures room { result ≡ room_under self.now (map (λ cond. cond.now) conds.now) }
        ensures within { IsRoom result }
    {
        let mut room = Room { size: 0, tags: 0 };
        for cond in conds {
            room = wider(room, self.standing(cond).running.room());
        }
        room
    }

    /// The number of a condition, which is appended where it is new.
    fn number_of(&mut self, alloc: Global, cond: &[u8]) -> Result<usize, Memory>
        requires { bytes_eq cond.now every ≡ false }
        ensures names { OnOk result (cond_names self.new ≡ add_conds (cond.now ∷ []) (cond_names self.old)) }
        ensures number { IfOk result (λ number. number ≡ position_or_len (λ key. bytes_eq cond.now key.items) (keys_of self.new.named.entries)) }
        ensures within { IfOk result (λ number. number < length (cond_names self.new)) }
        ensures kept { OnOk result ((other : List ℕ) → kept_of self.new other ≡ kept_of self.old other) }
    {
        if let Some(number) = self.named.get_index_of(cond) {
            return Ok(number);
        }
        let name = Vec::from_slice(alloc, cond)?;
        let (number, _) = self.named.insert_full(name, KeptCondition::none(alloc))?;
        Ok(number)
    }

    /// Counts the rule at a place, which stands so, for a condition; that is appended where it is new. Gives its number.
    fn count(
        &mut self,
        alloc: Global,
        cond: &[u8],
        place: usize,
        rule: Standing,
    ) -> Result<usize, Memory>
        requires { bytes_eq cond.now every ≡ false }
        ensures names { OnOk result (cond_names self.new ≡ add_conds (cond.now ∷ []) (cond_names self.old)) }
        ensures number { IfOk result (λ number. slice_index_or (cond_names self.new) number [] ≡ cond.now) }
        ensures within { IfOk result (λ number. number < length (cond_names self.new)) }
        ensures kept { OnOk result ((other : List ℕ) → kept_of self.new other
            ≡ (if bytes_eq other cond.now then taken place rule (kept_of self.old other) else kept_of self.old other)) }
    {
        let number = self.number_of(alloc, cond)?;
        self.named[number].take(place, rule)?;
        Ok(number)
    }

    /// Counts the rule at a place, which stands so, for each of some conditions, and appends those that are new. Gives their
    /// numbers.
    fn count_each(
        &mut self,
        alloc: Global,
        conds: &[&[u8]],
        place: usize,
        rule: Standing,
    ) -> Result<Vec<usize>, Memory>
        requires { is_among every (map (λ cond. cond.now) conds.now) ≡ false }
        ensures names { OnOk result (cond_names self.new ≡ add_conds (map (λ cond. cond.now) conds.now) (cond_names self.old)) }
        ensures numbers { IfOk result (λ numbers. map (λ number. slice_index_or (cond_names self.new) number []) numbers.items ≡ map (λ cond. cond.now) conds.now) }
        ensures within { IfOk result (λ numbers. AllByRecursion (λ number. number < length (cond_names self.new)) numbers.items) }
        ensures kept { OnOk result ((cond : List ℕ) → kept_of self.new cond
            ≡ (if is_among cond (map (λ one. one.now) conds.now) then taken place rule (kept_of self.old cond) else kept_of self.old cond)) }
    {
        let mut numbers = Vec::new(alloc);
        for cond in conds {
            numbers.push(self.count(alloc, cond, place, rule)?)?;
        }
        Ok(numbers)
    }

    /// Takes up the rule at a place, which has some conditions and stands so: counts it for each, once, and appends those that are
    /// new.
    pub fn enter(
        &mut self,
        alloc: Global,
        conds: &[&[u8]],
        place: usize,
        rule: Standing,
    ) -> Result<Conds, Memory>
        requires { AreConds (map (λ cond. cond.now) conds.now) }
        ensures names { OnOk result (cond_names self.new ≡ add_conds (map (λ cond. cond.now) conds.now) (cond_names self.old)) }
        ensures conds { IfOk result (λ listed. conds_seen (cond_names self.new) listed ≡ map (λ cond. cond.now) conds.now) }
        ensures within { IfOk result (λ listed. AreNumbers (length (cond_names self.new)) listed) }
        ensures kept { OnOk result ((cond : List ℕ) → kept_of self.new cond
            ≡ (if is_among cond (map (λ one. one.now) conds.now) then taken place rule (kept_of self.old cond) else kept_of self.old cond)) }
    {
        if is_among(b"*", conds) {
            self.shared.take(place, rule)?;
            return Ok(Conds::Every);
        }
        Ok(Conds::Listed(self.count_each(alloc, conds, place, rule)?))
    }
}
