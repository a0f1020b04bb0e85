//! Where the matches of a scanner end: in the end of a rule, or in the fallback.
ghost use Rattle.std.specs.Prelude.{◌≡◌, ◌<◌, IfOk, length};
ghost use Rattle.lx_auto.specs.Automaton.{AreOps};
ghost use Rattle.lx_layout.specs.Codes.{accept_code};
ghost use Rattle.lx_layout.specs.Halting.{keeps_numbers, kept_number};
ghost use Rattle.lx_layout.specs.LaidParts.{ArePartEnds, ArePlans, IsExits, end_at, end_rule_at, first_at, halting_at, own_at, rule_at, saved_at, turn_begin_at};
ghost use Rattle.lx_layout.specs.Layout.{saved_number};
ghost use Rattle.lx_layout.specs.SuppliedLayout.{sized};

use crate::accepts::{Firsts, ended_accepts, saved_accepts};
use crate::blocks::sum;
use crate::readers::Exits;
use crate::state_plans::PartPlans;
use crate::statements::append_list;
use lx_auto::Accept;
use lx_base::{Format, Memory};
use lx_ccode::Stmt;
use std::alloc::Global;

/// The blocks where matches of a scanner end.
pub(crate) struct PartEnds<'a> {
    pub plans: PartPlans<'a>,
    /// The first accept of each rule by which a match can end.
    pub ended: Firsts<'a>,
    /// The first accept of each rule to which a match can fall back.
    pub saved: Firsts<'a>,
    /// The block of the fallback, if there is one. The blocks of states end before it.
    pub fall: u64,
    /// The block of what is done in the fallback for the first saved accept.
    pub restores: u64,
    /// The block of the end of the first rule.
    pub rules: u64,
}

impl Drop for PartEnds<'_> {
    fn drop(self) {
        let Self {
            plans: _,
            ended: _,
            saved: _,
            fall: _,
            restores: _,
            rules: _,
        } = self;
    }
}

/// How many blocks the fallback has.
fn fallback_size(falls: bool) -> u64
    ensures { result ≡ sized falls 1 }
{
    if falls { 1 } else { 0 }
}

/// Where matches of a scanner end, without what was known of it before.
#[derive(Drop)]
struct EndPlaces<'a> {
    ended: Firsts<'a>,
    saved: Firsts<'a>,
    fall: u64,
    restores: u64,
    rules: u64,
}

/// Where matches of a scanner end, by what is known of it.
fn end_places<'a>(alloc: Global, plans: &PartPlans<'a>) -> Result<EndPlaces<'a>, Memory>
    requires { ArePlans plans.now }
    ensures { IfOk result (λ places. ArePartEnds (record {
      plans = plans.now;
      ended = places.ended;
      saved = places.saved;
      fall = places.fall;
      restores = places.restores;
      rules = places.rules;
    })) }
{
    let states = plans.input.auto.states.as_slice();
    let fall = plans.states_end()?;
    let restores = sum(fall, fallback_size(plans.marks.any_falls(states)))?;
    let saved = saved_accepts(alloc, &plans.marks, states)?;
    let rules = sum(restores, saved.list.len() as u64)?;
    let ended = ended_accepts(alloc, &plans.marks, states)?;
    Ok(EndPlaces {
        ended,
        saved,
        fall,
        restores,
        rules,
    })
}

/// The blocks where matches of a scanner end.
pub(crate) fn part_ends<'a>(alloc: Global, plans: PartPlans<'a>) -> Result<PartEnds<'a>, Memory>
    requires { ArePlans plans }
    ensures ends { IfOk result ArePartEnds }
    ensures plans { IfOk result (λ ends. ends.plans ≡ plans.entry) }
{
    let places = end_places(alloc, &plans)?;
    Ok(PartEnds {
        plans,
        ended: places.ended,
        saved: places.saved,
        fall: places.fall,
        restores: places.restores,
        rules: places.rules,
    })
}

impl PartEnds<'_> {
    /// The block of the end of a rule.
    pub fn rule_block(&self, rule: u32) -> Result<u64, Memory>
        requires { ArePartEnds self.now }
        ensures { IfOk result (λ block. block ≡ rule_at self.now.plans rule) }
    {
        sum(self.rules, self.ended.rule_place(rule) as u64)
    }

    /// The block of the end of the rule that stands at the end of the input.
    pub fn end_rule_block(&self) -> Result<u64, Memory>
        requires { ArePartEnds self.now }
        ensures { IfOk result (λ block. block ≡ end_rule_at self.now.plans) }
    {
        sum(self.rules, self.ended.list.len() as u64)
    }

    /// The block where a match ends in a state, whose own block for that is known.
    pub fn end_block(&self, own: u64, accept: &Option<Accept>) -> Result<u64, Memory>
        requires { ArePartEnds self.now }
        ensures { IfOk result (λ block. block ≡ end_at self.now.plans own accept.now) }
    {
        match accept {
            None => Ok(self.fall),
            Some(accept) if accept.ops.as_slice().is_empty() => self.rule_block(accept.rule),
            Some(_) => Ok(own),
        }
    }

    /// The number by which an accepting state is saved.
    fn saved_number(&self, accept: &Option<Accept>) -> u32
        requires { ArePartEnds self.now }
        ensures { result ≡ saved_number (saved_at self.now.plans) accept.now }
    {
        match accept {
            None => 0,
            Some(accept) => self.saved.rule_place(accept.rule) as u32 + 1,
        }
    }

    /// Whether the numbers of states that are saved are kept.
    fn keeps_numbers(&self) -> bool
        requires { ArePartEnds self.now }
        ensures { result ≡ keeps_numbers (halting_at self.now.plans) self.now.plans.marks.format (saved_at self.now.plans) }
    {
        match self.plans.marks.format {
            Format::Two => true,
            Format::Three => self.plans.marks.falls(0) || 1 < self.saved.list.len(),
        }
    }

    /// The number by which an accepting state is saved, if it is kept.
    pub fn kept_number(&self, accept: &Option<Accept>) -> Option<u32>
        requires { ArePartEnds self.now }
        ensures { result ≡ kept_number (halting_at self.now.plans) (saved_at self.now.plans) accept.now }
    {
        if self.keeps_numbers() {
            Some(self.saved_number(accept))
        } else {
            None
        }
    }

    /// The statements of the end of a match by an accept.
    pub fn accept_code(&self, alloc: Global, accept: &Accept) -> Result<Vec<Stmt>, Memory>
        requires ends { ArePartEnds self.now }
        requires there { AreOps self.now.plans.input.auto.now.regs self.now.plans.input.auto.now.mregs accept.now.ops }
        ensures { IfOk result (λ stmts. stmts.items
            ≡ accept_code self.now.plans.input.auto.now accept.now.ops (rule_at self.now.plans accept.now.rule)) }
    {
        let block = self.rule_block(accept.rule)?;
        let ops = accept.ops.as_slice();
        let mut stmts = Vec::with_capacity(alloc, ops.len() + 1)?;
        let auto = self.plans.input.auto;
        append_list(alloc, &mut stmts, auto, ops)?;
        stmts.push(Stmt::Goto(block))?;
        Ok(stmts)
    }

    /// The block of the first transition class of a state, whose blocks begin with `from`.
    fn first_class(&self, number: usize, from: u64) -> Result<u64, Memory>
        requires ends { ArePartEnds self.now }
        requires within { number < length self.now.plans.states.items }
        ensures { IfOk result (λ block. block ≡ first_at self.now.plans number from) }
    {
        let plan = &self.plans.states[number];
        if plan.state.edges.as_slice().is_empty() {
            return Ok(from);
        }
        sum(from, self.plans.tests_size(number)?)
    }

    /// The block of a state where a match ends in it, whose blocks begin with `from`, if it has one of its own. The blocks for the end of
    /// the input begin with `turn`.
    fn own_end(&self, number: usize, from: u64, turn: u64) -> Result<u64, Memory>
        requires ends { ArePartEnds self.now }
        requires within { number < length self.now.plans.states.items }
        requires turn { turn ≡ turn_begin_at self.now.plans number from }
        ensures { IfOk result (λ block. block ≡ own_at self.now.plans number from) }
    {
        let plan = &self.plans.states[number];
        if plan.state.edges.as_slice().is_empty() {
            return Ok(from);
        }
        sum(turn, self.plans.turn_size(number))
    }

    /// Where the tests of a state lead, whose blocks begin with `from`.
    pub fn exits(&self, number: usize, from: u64) -> Result<Exits, Memory>
        requires ends { ArePartEnds self.now }
        requires within { number < length self.now.plans.states.items }
        ensures { IfOk result (IsExits self.now.plans number from) }
    {
        let plan = &self.plans.states[number];
        let count = plan.classes.as_slice().len();
        let start = self.first_class(number, from)?;
        let turn = sum(start, count as u64)?;
        let own = self.own_end(number, from, turn)?;
        let end = self.end_block(own, &plan.state.accept)?;
        let first = start;
        Ok(Exits {
            first,
            end,
            count,
            turn,
        })
    }
}
