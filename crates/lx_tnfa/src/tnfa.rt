//! The automaton of a rule list.
ghost use Rattle.std.specs.Prelude.{◌≡◌, ◌↔◌, [], ◌∷◌, ℕ, List, length, IfOk, IfSome, IsNone, MatchOption, Some, slice_index};
ghost use Rattle.std.specs.Option.{unwrap_or};
ghost use Rattle.std.specs.List.Sorted.{IsStrictlyIncreasing};
ghost use Rattle.lx_base.specs.Spelling.{greatest_unit};
ghost use Rattle.lx_encode.specs.Graph.{Separates};
ghost use Rattle.lx_regex.specs.Limits.{IsWithinLimits};
ghost use Rattle.lx_regex.specs.Pattern.{patterns_of, terms_of};

use crate::classes::ClassGraph;
use crate::live::live_states;
use crate::making::Making;
use crate::places::Place;
use crate::states::{Move, State};
use lx_base::{Enc, Memory};
use lx_encode::{Residual, greatest_unit};
use lx_regex::RuleSet;
use std::alloc::Global;
use std::marker::Model;

/// The number of a rule, and of each of its tags and group ends whether it is an m-tag.
#[derive(Drop)]
pub(crate) struct RuleTags {
    pub number: u32,
    pub many: Vec<bool>,
}

/// The tagged automaton of a rule list, for one encoding. State 2 p is the beginning of part p and state 2 p + 1 its end.
///
/// `IsTnfaOf` in `specs/Tnfa.antt` says what its states, their moves and its leaves are.
pub struct Tnfa {
    pub(crate) enc: Enc,
    pub(crate) states: Vec<State>,
    pub(crate) classes: Vec<ClassGraph>,
    /// For each part the index of its rule; none for the rule list itself.
    pub(crate) owners: Vec<Option<u32>>,
    pub(crate) rules: Vec<RuleTags>,
    pub(crate) begins: Vec<u32>,
    pub(crate) live: Vec<bool>,
}

impl Drop for Tnfa {
    fn drop(self) {
        let Self {
            enc: _,
            states: _,
            classes: _,
            owners: _,
            rules: _,
            begins: _,
            live: _,
        } = self;
    }
}

impl Model for Tnfa {
    ghost use Rattle.std.specs.Prelude.{◌<◌, ◌^◌, length};
    ghost use Rattle.lx_tnfa.specs.Making.{seen_owners, seen_tags};
    ghost use Rattle.lx_tnfa.specs.RuleNumbers.{HaveApartNumbers};
    ghost use Rattle.lx_tnfa.specs.Tnfa as spec;
    ghost use Rattle.lx_tnfa.specs.Tnfa.{AreNumbered, IsFormed};

    ghost Value = { spec.Tnfa };

    ghost view = { λ t. record {
      enc = t.enc;
      states = t.states.items;
      classes = t.classes.items;
      owners = seen_owners (seen_tags t.rules.items) t.owners.items;
      rules = seen_tags t.rules.items;
      begins = t.begins.items;
      live = t.live.items;
    } };

    ghost invariant = { λ t. AreNumbered (length t.classes.items) t.states.items × (length t.states.items < 2 ^ 32)
        × IsFormed t.enc t.classes.items t.states.items × HaveApartNumbers (seen_tags t.rules.items) };
}

impl Tnfa {
    ghost use Rattle.lx_regex.specs.ClassLimits.{AllClassesFit};
    ghost use Rattle.lx_tnfa.specs.Live.{mark_at, starts_in, state_of};
    ghost use Rattle.lx_tnfa.specs.Moves.{moves_in};
    ghost use Rattle.lx_tnfa.specs.PlaceNumbers.{is_finished};
    ghost use Rattle.lx_tnfa.specs.Tnfa.{FinishesPlace, IsPlace, IsTnfaOf, kinds_for, most_tags, place_after, rest_after, state_at};

    /// The automaton of a rule list within the limits of a scanner, of whose classes the encoding has each point.
    /// Want of memory may be answered in its place, and no clause ties it to a cause.
    pub fn of(alloc: Global, set: &RuleSet, enc: Enc) -> Result<Tnfa, Memory>
        requires limits { IsWithinLimits set.now.rules }
        requires classes { AllClassesFit enc (terms_of (patterns_of set.now.rules)) }
        ensures { IfOk result (IsTnfaOf enc (patterns_of set.now.rules)) }
    {
        let mut making = Making::start(alloc, enc)?;
        for rule in set.rules.as_slice() {
            making.add_rule(alloc, rule)?;
        }
        let Making {
            building,
            owners,
            rules,
            begins,
        } = making;
        let live = live_states(alloc, &building.states, &building.classes.list)?;
        Ok(Tnfa {
            enc,
            states: building.states,
            classes: building.classes.list,
            owners,
            rules,
            begins,
            live,
        })
    }

    /// The place in the same leaf after one more unit; nothing exactly where no units that begin with this one finish the leaf,
    /// and always at the start. It takes no memory.
    pub fn next(&self, place: &Place, unit: u32) -> Option<Place>
        requires { IsPlace self.now place.now }
        ensures next { result ≡ place_after self.now place.now unit }
        ensures none { IsNone result ↔ ((units : List ℕ) → ¬ FinishesPlace self.now place.now (unit ∷ units)) }
        ensures place { IfSome result (IsPlace self.now) }
    {
        match &self.states[2 * place.part as usize] {
            State::Moves(_) => None,
            State::Class(number) => {
                let graph = &self.classes[*number as usize].graph;
                let rest = graph.step(place.rest, unit)?;
                Some(Place {
                    part: place.part,
                    rest,
                })
            }
            State::AnyUnit => {
                if place.rest != Residual(1) {
                    return None;
                }
                Some(Place {
                    part: place.part,
                    rest: Residual(0),
                })
            }
        }
    }

    /// The units at which `next` may change its answer, in order: for any two units without one of these that is greater than
    /// the lesser and at most the greater it is the same. It takes no memory.
    pub fn unit_cuts(&self, place: &Place) -> &[u32]
        requires { IsPlace self.now place.now }
        ensures sorted { IsStrictlyIncreasing result.now }
        ensures separating { Separates result.now (rest_after self.now.classes (state_at self.now place.now) place.now.rest.0) }
    {
        match &self.states[2 * place.part as usize] {
            State::Class(number) => self.classes[*number as usize].graph.cuts(place.rest),
            State::Moves(_) | State::AnyUnit => &[],
        }
    }

    /// The states at which the rules begin, in the order of the rules. It takes no memory.
    pub fn begins(&self) -> &[u32]
        ensures { result.now ≡ self.now.begins }
    {
        &self.begins
    }

    /// The moves of the state with this number, in order: an earlier one is preferred to a later one. There are none at a leaf, and
    /// where there is no such state. It takes no memory.
    pub fn moves(&self, state: u32) -> &[Move]
        ensures { result.now ≡ moves_in (state_of self.now.states state) }
    {
        match self.states.get(state as usize) {
            Some(State::Moves(ways)) => ways.as_slice(),
            Some(State::Class(_)) | Some(State::AnyUnit) | None => &[],
        }
    }

    /// What may come next where a leaf begins, for each way to begin it, in order. There is nothing where the state with this number
    /// is no leaf, and where there is no such state. It takes no memory.
    pub fn starts(&self, state: u32) -> &[Residual]
        ensures { result.now ≡ starts_in self.now.classes (state_of self.now.states state) }
    {
        match self.states.get(state as usize) {
            Some(State::Class(class)) => match self.classes.get(*class as usize) {
                Some(class) => class.graph.starts(),
                None => &[],
            },
            Some(State::AnyUnit) => &[Residual(1)],
            Some(State::Moves(_)) | None => &[],
        }
    }

    /// Whether an end can be reached from the state with this number; not where there is no such state. It takes no memory.
    pub fn is_live(&self, state: u32) -> bool
        ensures { result ≡ mark_at self.now.live state }
    {
        match self.live.get(state as usize) {
            Some(live) => *live,
            None => false,
        }
    }

    /// Whether no unit is left to be read at a place: then the walks from it begin at the state behind its leaf. It takes no memory.
    pub fn is_finished(&self, place: &Place) -> bool
        requires { IsPlace self.now place.now }
        ensures { result ≡ is_finished self.now.classes (state_at self.now place.now) place.now.rest.0 }
    {
        match &self.states[2 * place.part as usize] {
            State::Moves(_) => false,
            State::Class(class) => self.classes[*class as usize].graph.done(place.rest),
            State::AnyUnit => place.rest == Residual(0),
        }
    }

    /// The rule of a part; nothing for the rule list itself, and where there is no such part.
    fn rule_at(&self, part: u32) -> Option<&RuleTags>
        ensures number { MatchOption result (slice_index self.now.owners part ≡ 0) (λ rule. rule.now.number ≡ slice_index self.now.owners part) }
        ensures tags { IfSome result (λ rule. kinds_for self.now.rules rule.now.number ≡ Some rule.now.many.items) }
    {
        match self.owners.get(part as usize) {
            Some(Some(index)) => self.rules.get(*index as usize),
            Some(None) | None => None,
        }
    }

    /// The number of the rule of a part; 0 for the rule list itself, and where there is no such part. It takes no memory.
    pub fn rule_of(&self, part: u32) -> u32
        ensures { result ≡ slice_index self.now.owners part }
    {
        match self.rule_at(part) {
            Some(rule) => rule.number,
            None => 0,
        }
    }

    /// What `tags_of` answers for the number that `rule_of` gives for a part. Where a rule has the part, it takes constant time. It
    /// takes no memory.
    pub fn tags_at(&self, part: u32) -> &[bool]
        ensures { result.now ≡ unwrap_or (kinds_for self.now.rules (slice_index self.now.owners part)) [] }
    {
        match self.rule_at(part) {
            Some(rule) => &rule.many,
            None => self.tags_of(0),
        }
    }

    /// Of each tag number of a rule, the ends of its groups included, whether it is an m-tag; none where no rule has the number. It
    /// takes no memory.
    pub fn tags_of(&self, rule: u32) -> &[bool]
        ensures { result.now ≡ unwrap_or (kinds_for self.now.rules rule) [] }
    {
        for known in &self.rules {
            if known.number == rule {
                return &known.many;
            }
        }
        &[]
    }

    /// The most tags that a rule has, the ends of its groups included. It takes no memory.
    pub fn most_tags(&self) -> usize
        ensures { result ≡ most_tags self.now.rules }
    {
        let mut most = 0;
        for rule in &self.rules {
            most = rule.many.len().max(most);
        }
        most
    }

    /// How many parts there are, the rule list among them. It takes no memory.
    pub fn part_count(&self) -> usize
        ensures { result ≡ length self.now.owners }
    {
        self.owners.len()
    }

    /// The greatest code unit of the encoding. It takes no memory.
    pub fn greatest(&self) -> u32
        ensures { result ≡ greatest_unit self.now.enc }
    {
        greatest_unit(self.enc)
    }
}
