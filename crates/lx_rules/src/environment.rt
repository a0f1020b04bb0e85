//! What holds from block to block.
ghost use Rattle.std.specs.Prelude.{◌≡◌, IfOk, None, slice_index_or};
ghost use Rattle.std.specs.Option.{option_or};
ghost use Rattle.lx_rules.specs.Environments.{Environment, config_of, first_environment, name_at};
ghost use Rattle.lx_rules.specs.Represents.{Represents};

use crate::conditions::Conditions;
use crate::items::Known;
use crate::kept::KeptRule;
use crate::resolved::Act;
use lx_base::{ByteText, Memory, Names};
use lx_exprs::definitions::Definitions;
use std::alloc::Global;
use std::rc::Rc;

/// A configuration that a block sets.
#[derive(Drop)]
pub(crate) enum Setting {
    /// How a name of the scanner is spelled, which is known by its place among the names, counted from 0.
    Spelling { place: usize, word: ByteText },
    /// The code unit that stands at the end of the input, if there is one.
    Eof(Option<u32>),
    /// Whether refills are enabled.
    Fill(bool),
    /// It has no effect.
    Nothing,
}

/// The configurations that are set, each with its last value. Contracts see them by `settings_view`.
#[derive(Drop)]
pub(crate) struct Settings {
    /// The spellings of names, in the order of the usual ones; names behind the end of the list are not set.
    pub names: Vec<Option<ByteText>>,
    /// The code unit that stands at the end of the input; it may be set to none.
    pub eof: Option<Option<u32>>,
    /// Whether refills are enabled.
    pub fill: Option<bool>,
}

/// The spelling at a place, if one is set there, and else the usual one.
fn name_at<'n>(names: &'n [Option<ByteText>], place: usize, usual: &'n [u8]) -> &'n [u8]
    ensures { result.now ≡ name_at names.now place usual.now }
{
    match names.get(place) {
        Some(Some(word)) => word.as_slice(),
        _ => usual,
    }
}

/// A copy of the spelling at a place here, if one is set there, and else of the other one.
fn copy_over(
    alloc: Global,
    here: &[Option<ByteText>],
    there: &[Option<ByteText>],
    place: usize,
) -> Result<Option<ByteText>, Memory>
    ensures { IfOk result (λ word. word ≡ option_or (slice_index_or here.now place None) (slice_index_or there.now place None)) }
{
    match here.get(place) {
        Some(Some(word)) => Ok(Some(ByteText::copy_of(alloc, word.as_slice())?)),
        _ => match there.get(place) {
            Some(Some(word)) => Ok(Some(ByteText::copy_of(alloc, word.as_slice())?)),
            _ => Ok(None),
        },
    }
}

impl Settings {
    ghost use Rattle.std.specs.Prelude.{◌≡◌, IfOk, OnOk};
    ghost use Rattle.lx_rules.specs.Environments.{config_of, no_settings, settings_over, with_setting};
    ghost use Rattle.lx_rules.specs.Seen.{settings_view};
    ghost use Rattle.lx_rules.specs.declared.environment.Setting.TheVariants.{Spelling};

    /// Nothing is set. It takes no memory.
    pub fn new(alloc: Global) -> Settings
        ensures { settings_view result ≡ no_settings }
    {
        Settings {
            names: Vec::new(alloc),
            eof: None,
            fill: None,
        }
    }

    /// What is set here, and else there.
    pub fn over(&self, alloc: Global, other: &Settings) -> Result<Settings, Memory>
        ensures { IfOk result (λ settings. settings_view settings ≡ settings_over (settings_view self.now) (settings_view other.now)) }
    {
        let count = self.names.len().max(other.names.len());
        let mut names = Vec::new(alloc);
        for place in 0..count {
            names.push(copy_over(alloc, &self.names, &other.names, place)?)?;
        }
        Ok(Settings {
            names,
            eof: self.eof.or(other.eof),
            fill: self.fill.or(other.fill),
        })
    }

    /// Spells the name at a place.
    fn spell(&mut self, place: usize, word: ByteText) -> Result<(), Memory>
        ensures { OnOk result (settings_view self.new ≡ with_setting (settings_view self.old) (Spelling place word)) }
    {
        while self.names.len() <= place {
            self.names.push(None)?;
        }
        self.names[place] = Some(word);
        Ok(())
    }

    /// Sets a configuration.
    pub fn set(&mut self, setting: Setting) -> Result<(), Memory>
        ensures { OnOk result (settings_view self.new ≡ with_setting (settings_view self.old) setting) }
    {
        match setting {
            Setting::Spelling { place, word } => self.spell(place, word)?,
            Setting::Eof(unit) => self.eof = Some(unit),
            Setting::Fill(is_enabled) => self.fill = Some(is_enabled),
            Setting::Nothing => {}
        }
        Ok(())
    }

    /// The seventeen spellings: those that are set, and else the usual ones.
    pub fn names(&self, alloc: Global) -> Result<Names, Memory>
        ensures { IfOk result (λ names. names ≡ (config_of (settings_view self.now)).names) }
    {
        let usual = Names::usual();
        if self.names.is_empty() {
            return Ok(usual);
        }
        let mut words = Vec::with_capacity(alloc, usual.len())?;
        for place in 0..usual.len() {
            let word = name_at(&self.names, place, usual.spelling(place));
            words.push(ByteText::copy_of(alloc, word)?)?;
        }
        Ok(Names::of(words))
    }
}

/// What is kept of a rules block.
pub(crate) struct KeptBlock {
    pub definitions: Definitions,
    pub settings: Settings,
    /// Its rules, in order. They are shared with the blocks that use it.
    pub rules: Vec<Rc<KeptRule>>,
    /// What they do, in the same order.
    pub acts: Vec<Act>,
    /// Their conditions.
    pub conds: Conditions,
}

impl Drop for KeptBlock {
    fn drop(self) {
        let Self {
            definitions: _,
            settings: _,
            rules: _,
            acts: _,
            conds: _,
        } = self;
    }
}

impl KeptBlock {
    ghost use Rattle.std.specs.Prelude.{◌≡◌};
    ghost use Rattle.lx_rules.specs.Opening.{known_over};

    /// What is known before the items of a block that takes this over.
    pub fn into_known(self, before: Env) -> Known
        ensures { result ≡ known_over before self }
    {
        let Self {
            definitions,
            settings,
            rules,
            acts,
            conds,
        } = self;
        Known {
            before,
            is_use: true,
            own: definitions,
            settings,
            rules,
            acts,
            conds,
        }
    }
}

/// What holds behind a block for the blocks after it: its definitions, its configuration, and the last rules block. Contracts see
/// what it represents.
pub struct Env {
    pub(crate) definitions: Definitions,
    pub(crate) settings: Settings,
    pub(crate) kept: Option<KeptBlock>,
}

impl Drop for Env {
    fn drop(self) {
        let Self {
            definitions: _,
            settings: _,
            kept: _,
        } = self;
    }
}

impl Env {
    /// The definitions, the settings, and the last rules block, if there is one.
    pub(crate) fn into_parts(self) -> (Definitions, Settings, Option<KeptBlock>)
        ensures definitions { result.0 ≡ self.definitions }
        ensures settings { result.1 ≡ self.settings }
        ensures kept { result.2 ≡ self.kept }
    {
        let Self {
            definitions,
            settings,
            kept,
        } = self;
        (definitions, settings, kept)
    }

    /// What holds before the first block: no definitions, and the default configuration. It takes no memory.
    pub fn new(alloc: Global) -> Env
        ensures { Represents result first_environment }
    {
        Env {
            definitions: Definitions::new(alloc),
            settings: Settings::new(alloc),
            kept: None,
        }
    }

    /// The seventeen spellings of the names of a scanner that hold here, in the order of `Names`.
    pub fn names(&self, alloc: Global) -> Result<Names, Memory>
        ensures { (environment : Environment) → Represents self.now environment → IfOk result (λ names. names ≡ (config_of environment.settings).names) }
    {
        self.settings.names(alloc)
    }
}
