//! What a scanner is made of, and how it gets its units.
ghost use Rattle.std.specs.Prelude.{◌≡◌, ℕ, Option, slice_index};
ghost use Rattle.lx_auto.specs.declared.automaton.Auto.{Auto};
ghost use Rattle.lx_layout.specs.LaidParts.{seen_demand};
ghost use Rattle.lx_layout.specs.Parts.{asks_by, checked};
ghost use Rattle.lx_layout.specs.RefillCounts.{turn_count};

use crate::rule_ends::RuleEnd;
use lx_auto::Auto;
use lx_dispatch::Asking;
use lx_shared::SharedText;

/// How a scanner gets its units, before the states that it stores have numbers.
#[derive(Clone, Copy)]
pub(crate) struct Demand<'a> {
    /// The unit that stands at the end of the input, if one does.
    pub eof: Option<u32>,
    /// Whether a refill is tried there.
    pub tries: bool,
    /// For how many units the states check, by their numbers, if they check; 0 where a state has no number.
    pub checks: Option<&'a [u32]>,
    /// Whether what reads is stored before a refill.
    pub stores: bool,
    /// The format of the text, and the sets that are tested.
    pub asking: Asking<'a>,
}

/// What a scanner is made of.
#[derive(Clone, Copy)]
pub(crate) struct PartInput<'a> {
    /// The name of its condition, if it has one.
    pub cond: &'a Option<SharedText>,
    pub demand: Demand<'a>,
    /// The greatest unit.
    pub greatest: u32,
    /// What its rules do at their ends.
    pub ends: &'a [RuleEnd<'a>],
    /// The number of the rule at the end of the input, if there is one.
    pub end_rule: Option<u32>,
    pub auto: &'a Auto,
}

/// The number of a list, or 0 where there is none.
fn number_at(checks: &[u32], number: usize) -> u32
    ensures { result ≡ slice_index checks.now number }
{
    match checks.get(number) {
        Some(units) => *units,
        None => 0,
    }
}

/// For how many units a state checks by a list.
fn checked(checks: &[u32], number: usize) -> u32
    ensures { result ≡ checked checks.now number }
{
    if number_at(checks, 0) == 0 && number != 0 {
        return 1;
    }
    number_at(checks, number)
}

impl Demand<'_> {
    /// For how many units the state with this number checks.
    pub fn check(&self, number: usize) -> u32
        ensures { result ≡ (seen_demand self.now).check number }
    {
        match self.checks {
            None => 0,
            Some(checks) => checked(checks, number),
        }
    }

    /// Whether the state with this number asks for a refill, if it reads.
    pub fn asks(&self, number: usize) -> bool
        ensures { (end_rule : Option ℕ) (auto : Auto) → result ≡ asks_by (seen_demand self.now) end_rule auto self.now.eof number }
    {
        match self.eof {
            None => self.check(number) != 0,
            Some(_) => self.tries,
        }
    }

    /// How many blocks what reads has for the end of the input.
    pub fn turn_size(&self) -> u64
        ensures { result ≡ turn_count self.now.eof self.now.tries self.now.stores }
    {
        match (self.eof, self.tries, self.stores) {
            (None, _, _) => 0,
            (Some(_), false, _) => 1,
            (Some(_), true, false) => 2,
            (Some(_), true, true) => 3,
        }
    }
}
