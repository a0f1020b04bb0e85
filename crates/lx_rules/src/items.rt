//! Takes the items of a block in order.
ghost use Rattle.std.specs.Prelude.{◌≡◌, IfOk, Some};
ghost use Rattle.lx_base.specs.declared.limits.TheConstants.{SOURCE_LIMIT};

use crate::acts::{act, check_target, target_place};
use crate::conditions::Conditions;
use crate::configurations::read_config;
use crate::environment::{Env, KeptBlock, Settings};
use crate::heads::{Head, read_head};
use crate::kept::KeptRule;
use crate::lists::{check_list, rule_conditions};
use crate::resolved::Act;
use lx_base::limits::{SIZE_LIMIT, TAG_LIMIT};
use lx_base::{Fault, Memory, Options, Pos, Stop};
use lx_exprs::definitions::{Definitions, Kept, Scope};
use lx_exprs::expressions::{Reading, read_expression};
use lx_exprs::leaves::Reader;
use lx_exprs::values::Room;
use lx_forms::lexemes::Lexemes;
use lx_parse::Item;
use std::alloc::Global;
use std::rc::Rc;

/// What does not change while the items of a block are taken.
#[derive(Clone, Copy)]
pub(crate) struct Block<'b> {
    pub options: &'b Options,
    pub lexemes: Lexemes<'b>,
}

/// What is known behind some items of a block.
pub(crate) struct Known {
    /// What holds before the block, but for definitions that it takes over.
    pub before: Env,
    /// Whether the rules block that is kept is used.
    pub is_use: bool,
    /// The definitions of the block, behind those that it takes over.
    pub own: Definitions,
    pub settings: Settings,
    /// The rules, in order.
    pub rules: Vec<Rc<KeptRule>>,
    /// What they do, in the same order.
    pub acts: Vec<Act>,
    /// Their conditions.
    pub conds: Conditions,
}

impl Drop for Known {
    fn drop(self) {
        let Self {
            before: _,
            is_use: _,
            own: _,
            settings: _,
            rules: _,
            acts: _,
            conds: _,
        } = self;
    }
}

impl Known {
    ghost use Rattle.std.specs.Prelude.{length, ◌≡◌, MatchResult, OnOk, ◌<◌, ◌≤◌, ◌*◌, map, suc};
    ghost use Rattle.lx_parse.specs.Expressions.{alt};
    ghost use Rattle.lx_parse.specs.Ranges.{IsPart, HasExpressions};
    ghost use Rattle.lx_parse.specs.declared.items.Item.TheVariants as item;
    ghost use Rattle.lx_rules.specs.Conditions.{AreConds, HasConds};
    ghost use Rattle.lx_regex.specs.Pattern.{is_end};
    ghost use Rattle.lx_rules.specs.Items.{State, ItemChecks, first_of, is_default, with_rule};
    ghost use Rattle.lx_rules.specs.Rules.{RuleOf};
    ghost use Rattle.lx_rules.specs.Keeping.{Holds, IsTaken, IsNew};
    ghost use Rattle.lx_exprs.specs.Checks.{StopsAt};
    ghost use Rattle.lx_forms.specs.Lexemes.{sorts_at};
    ghost use Rattle.lx_forms.specs.Seen.{lexemes_view};
    ghost use Rattle.lx_exprs.specs.Seen.{definitions_view, scope_view, seen_in};
    ghost use Rattle.lx_exprs.specs.FitDefinitions.{AreFit, ScopeFits};
    ghost use Rattle.lx_rules.specs.Environments.{config_of};
    ghost use Rattle.lx_rules.specs.Seen.{known_definitions, settings_view, used_definitions};
    ghost use Rattle.lx_rules.specs.FitScanners.{HasFitDefinitions};
    ghost use Rattle.lx_rules.specs.Finishing.{env_keeping, env_left};

    /// What holds behind a rules block, with what is kept of it.
    pub fn into_kept(self) -> Env
        ensures { result ≡ env_keeping self }
    {
        let Self {
            before,
            is_use: _,
            own,
            settings,
            rules,
            acts,
            conds,
        } = self;
        let (earlier, defaults, _kept) = before.into_parts();
        Env {
            definitions: earlier,
            settings: defaults,
            kept: Some(KeptBlock {
                definitions: own,
                settings,
                rules,
                acts,
                conds,
            }),
        }
    }

    /// What holds behind a block of scanners: what it knows, or what held before a block that uses a rules block. With it comes what the rules do.
    pub fn into_left(self) -> (Env, Vec<Act>)
        ensures env { result.0 ≡ env_left self.before self.is_use self.own self.settings }
        ensures acts { result.1 ≡ self.acts }
    {
        let Self {
            before,
            is_use,
            own,
            settings,
            rules: _,
            acts,
            conds: _,
        } = self;
        if is_use {
            return (before, acts);
        }
        let (_definitions, _settings, kept) = before.into_parts();
        let env = Env {
            definitions: own,
            settings,
            kept,
        };
        (env, acts)
    }

    /// The definitions of the rules block that is used, if there is one.
    fn used(&self) -> Option<&Definitions>
        ensures seen { seen_in result ≡ used_definitions self.now.is_use self.now.before }
        ensures fit { HasFitDefinitions self.now → AreFit result }
    {
        if !self.is_use {
            return None;
        }
        match &self.before.kept {
            Some(kept) => Some(&kept.definitions),
            None => None,
        }
    }

    /// The definitions that the block sees.
    pub fn scope(&self) -> Scope<'_>
        ensures seen { scope_view result ≡ known_definitions self.now }
        ensures fit { HasFitDefinitions self.now → ScopeFits result }
    {
        Scope {
            kept: self.used(),
            outer: Some(&self.before.definitions),
            own: &self.own,
        }
    }

    /// The code unit that stands at the end of the input, if there is one.
    pub fn eof(&self) -> Option<u32>
        ensures { result ≡ (config_of (settings_view self.now.settings)).eof }
    {
        self.settings.eof.unwrap_or(None)
    }

    /// The place of the first rule `*` that has one of some conditions.
    pub fn first_default(&self, conds: &[&[u8]]) -> Option<Pos>
        ensures { (state : State) → Holds self.now state → result ≡ first_of is_default (map (λ cond. cond.now) conds.now) state.rules }
    {
        match self.conds.first_default(conds) {
            Some(rule) => Some(rule.at),
            None => None,
        }
    }

    /// The place of the first rule `$` that has one of some conditions.
    pub fn first_end(&self, conds: &[&[u8]]) -> Option<Pos>
        ensures { (state : State) → Holds self.now state → result ≡ first_of is_end (map (λ cond. cond.now) conds.now) state.rules }
    {
        match self.conds.first_end(conds) {
            Some(rule) => Some(rule.at),
            None => None,
        }
    }

    /// Takes a definition.
    fn define(
        &mut self,
        alloc: Global,
        block: Block<'_>,
        name: u32,
        from: u32,
        until: u32,
    ) -> Result<(), Stop>
        requires part { IsPart (sorts_at (lexemes_view block.lexemes)) alt from until }
        requires fit { HasFitDefinitions self.old }
        ensures acts { OnOk result (self.new.acts ≡ self.old.acts) }
        ensures before { OnOk result ((self.new.before ≡ self.old.before) × (self.new.is_use ≡ self.old.is_use)) }
        ensures taken { (state : State) → Holds self.old state → MatchResult result
            (λ _. IsTaken block.entry.options.now (lexemes_view block.entry.lexemes) state (item.Define name from until) self.new)
            (StopsAt (ItemChecks block.entry.options.now (lexemes_view block.entry.lexemes) state (item.Define name from until))) }
    {
        let name = block.lexemes.at(name as usize);
        let scope = self.scope();
        if let Some(kept) = scope.get(name.text) {
            return Err(Stop::Fault(Fault::Redefined {
                at: name.at,
                first: kept.at,
            }));
        }
        let reader = Reader {
            options: block.options,
            scope,
            room: Room {
                size: SIZE_LIMIT,
                tags: TAG_LIMIT,
            },
        };
        let reading = read_expression(alloc, reader, block.lexemes, from as usize, until as usize)?;
        let Reading { value, tags } = reading;
        let kept = Kept {
            at: name.at,
            size: value.size,
            nesting: value.nesting,
            tags,
            groups: value.groups,
            expr: value.into_kept(alloc)?,
        };
        self.own.add(alloc, name.text, kept)?;
        Ok(())
    }

    /// Takes a configuration.
    fn configure(
        &mut self,
        alloc: Global,
        block: Block<'_>,
        name: u32,
        value: u32,
    ) -> Result<(), Stop>
        ensures acts { OnOk result (self.new.acts ≡ self.old.acts) }
        ensures before { OnOk result ((self.new.before ≡ self.old.before) × (self.new.is_use ≡ self.old.is_use)) }
        ensures taken { (state : State) → Holds self.old state → MatchResult result
            (λ _. IsTaken block.entry.options.now (lexemes_view block.entry.lexemes) state (item.Configure name value) self.new)
            (StopsAt (ItemChecks block.entry.options.now (lexemes_view block.entry.lexemes) state (item.Configure name value))) }
    {
        let name = block.lexemes.at(name as usize);
        let value = block.lexemes.at(value as usize);
        let setting = read_config(alloc, block.options.enc, &name, &value)?;
        self.settings.set(setting)?;
        Ok(())
    }

    /// Adds a rule of some conditions with its target and its action; its head stands at a place.
    fn add_rule(
        &mut self,
        alloc: Global,
        conds: &[&[u8]],
        head: Head,
        at: Pos,
        target: Option<Pos>,
        act: Act,
    ) -> Result<(), Memory>
        requires { AreConds (map (λ cond. cond.now) conds.now) }
        ensures few { OnOk result (length self.new.acts.items ≤ suc (length self.old.acts.items)) }
        ensures before { OnOk result ((self.new.before ≡ self.old.before) × (self.new.is_use ≡ self.old.is_use)) }
        ensures added { (state : State) (rule : RuleOf) → Holds self.old state → IsNew self.old (map (λ cond. cond.now) conds.now) head at target act rule
            → OnOk result (Holds self.new (with_rule state rule)) }
    {
        let number = act.number;
        self.acts.push(act)?;
        let place = self.rules.len();
        let standing = head.standing(number, at);
        let listed = self.conds.enter(alloc, conds, place, standing)?;
        let mut rule = head.into_rule(alloc, number, listed, at);
        rule.target = target;
        self.rules.push(Rc::new(alloc, rule)?)?;
        Ok(())
    }

    /// Takes a rule.
    fn take_rule(
        &mut self,
        alloc: Global,
        block: Block<'_>,
        first: u32,
        head: u32,
        slash: Option<u32>,
        until: u32,
        goes: Option<u32>,
        code: Option<u32>,
    ) -> Result<(), Stop>
        requires few { length self.old.acts.items < 2 * SOURCE_LIMIT }
        requires short { length block.lexemes.body.now ≤ SOURCE_LIMIT }
        requires expressions { HasExpressions (sorts_at (lexemes_view block.lexemes)) (item.Rule first head slash until goes code) }
        requires conds { HasConds (lexemes_view block.lexemes) (item.Rule first head slash until goes code) }
        requires fit { HasFitDefinitions self.old }
        ensures few { OnOk result (length self.new.acts.items ≤ suc (length self.old.acts.items)) }
        ensures before { OnOk result ((self.new.before ≡ self.old.before) × (self.new.is_use ≡ self.old.is_use)) }
        ensures taken { (state : State) → Holds self.old state → MatchResult result
            (λ _. IsTaken block.entry.options.now (lexemes_view block.entry.lexemes) state (item.Rule first head slash until goes code) self.new)
            (StopsAt (ItemChecks block.entry.options.now (lexemes_view block.entry.lexemes) state (item.Rule first head slash until goes code))) }
    {
        check_list(block, first, head)?;
        let conds = rule_conditions(alloc, block.lexemes, first, head)?;
        let read = read_head(alloc, self, block, &conds, head, slash, until)?;
        check_target(block, goes)?;
        let number = self.acts.len() as u32 + 1;
        let act = act(alloc, block, number, goes, code)?;
        let at = block.lexemes.at(head as usize).at;
        self.add_rule(alloc, &conds, read, at, target_place(block, goes), act)?;
        Ok(())
    }

    /// Takes an item.
    pub fn take(&mut self, alloc: Global, block: Block<'_>, item: Item) -> Result<(), Stop>
        requires few { length self.old.acts.items < 2 * SOURCE_LIMIT }
        requires short { length block.lexemes.body.now ≤ SOURCE_LIMIT }
        requires expressions { HasExpressions (sorts_at (lexemes_view block.lexemes)) item }
        requires conds { HasConds (lexemes_view block.lexemes) item }
        requires fit { HasFitDefinitions self.old }
        ensures few { OnOk result (length self.new.acts.items ≤ suc (length self.old.acts.items)) }
        ensures before { OnOk result ((self.new.before ≡ self.old.before) × (self.new.is_use ≡ self.old.is_use)) }
        ensures taken { (state : State) → Holds self.old state → MatchResult result
            (λ _. IsTaken block.entry.options.now (lexemes_view block.entry.lexemes) state item self.new)
            (StopsAt (ItemChecks block.entry.options.now (lexemes_view block.entry.lexemes) state item)) }
    {
        match item {
            Item::Define { name, from, until } => self.define(alloc, block, name, from, until),
            Item::Configure { name, value } => self.configure(alloc, block, name, value),
            Item::Rule {
                first,
                head,
                slash,
                until,
                goes,
                code,
            } => self.take_rule(alloc, block, first, head, slash, until, goes, code),
            Item::Text { .. } => Ok(()),
        }
    }
}
