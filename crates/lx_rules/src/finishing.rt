//! What a block resolves to, by what is known behind its items.
ghost use Rattle.std.specs.Prelude.{◌≡◌, ◌≢◌, ◌↔◌, ◌+◌, ◌*◌, ◌≤◌, Bool, IfOk, IsTrue, List, MatchResult, None, is_some, length};
ghost use Rattle.std.specs.List.{AllByRecursion, AllZip};
ghost use Rattle.lx_base.specs.declared.blocks.BlockKind.TheVariants as block;
ghost use Rattle.lx_base.specs.declared.limits.TheConstants.{SOURCE_LIMIT};
ghost use Rattle.lx_rules.specs.Blocks.{BlockChecks, HasRules, IsResolvedAs, LabelsDiffer, MayBeNamed, MayBeTag, ScannerChecks, no_rules_fault, SpellingsDiffer, conditions_of, lonely_fault, target_fault};
ghost use Rattle.lx_rules.specs.Conditions.{cond_names};
ghost use Rattle.lx_rules.specs.Environments.{Environment, config_of};
ghost use Rattle.lx_rules.specs.FitScanners.{FitsLimits};
ghost use Rattle.lx_rules.specs.Finishing.{IsFinished, IsBuiltScanner, WholeChecks, kept_targets_fault};
ghost use Rattle.lx_rules.specs.Items.{State};
ghost use Rattle.lx_rules.specs.Keeping.{Holds};
ghost use Rattle.lx_rules.specs.Opening.{most_before};
ghost use Rattle.lx_rules.specs.Represents.{IsBefore};
ghost use Rattle.lx_rules.specs.Rules.{RuleOf};
ghost use Rattle.lx_rules.specs.Seen.{rules_view, settings_view};
ghost use Rattle.lx_exprs.specs.Checks.{Finds, StopsAt};

use crate::conditions::Conditions;
use crate::environment::{Env, Settings};
use crate::items::Known;
use crate::kept::KeptRule;
use crate::labels::labels_differ;
use crate::resolved::{Act, Config, Resolved, Scanner};
use crate::scanners::scanners;
use lx_base::names::{begins_table, do_not_clash, is_tag_name, name_primitives, name_table};
use lx_base::{BlockKind, Fault, Format, Memory, Names, Options, Pos, Sequence, Stop};
use lx_exprs::definitions::Definitions;
use lx_exprs::tags::SharedTags;
use lx_regex::Tag;
use std::alloc::Global;
use std::rc::Rc;

/// Whether no two spellings clash, none is the name of an input primitive where the input is custom, and
/// none of a variable that of the table of sets in text of format 3.
fn spellings_differ(names: &Names, custom: bool, format: Format) -> bool
    ensures { IsTrue result ↔ SpellingsDiffer custom format names.now }
{
    let primitive = custom && name_primitives(names);
    let table = format == Format::Three && name_table(names);
    do_not_clash(names) && !primitive && !table
}

/// Whether a tag has a name that it may have beside the spellings; that of a slash has none.
fn may_be_named(names: &Names, has_slash: bool, tag: &Tag) -> bool
    ensures { IsTrue result ↔ MayBeNamed names.now has_slash tag.now }
{
    let name = tag.name.as_slice();
    has_slash && name.is_empty() || is_tag_name(names, name)
}

/// Whether it also is not called as the table of sets in text of format 3.
fn may_be_tag(names: &Names, format: Format, has_slash: bool, tag: &Tag) -> bool
    ensures { IsTrue result ↔ MayBeTag format names.now has_slash tag.now }
{
    let table = format == Format::Three && begins_table(tag.name.as_slice());
    may_be_named(names, has_slash, tag) && !table
}

/// Whether each of some tags has a name that it may have.
fn are_tag_names(names: &Names, format: Format, has_slash: bool, tags: &[Tag]) -> bool
    ensures { IsTrue result ↔ AllByRecursion (MayBeTag format names.now has_slash) tags.now }
{
    for tag in tags {
        if !may_be_tag(names, format, has_slash, tag) {
            return false;
        }
    }
    true
}

/// Whether each of all tags of a rule has a name that it may have.
fn are_all_tag_names(names: &Names, format: Format, has_slash: bool, tags: &SharedTags) -> bool
    ensures { IsTrue result ↔ AllByRecursion (MayBeTag format names.now has_slash) tags.now }
{
    let segments = tags.segments();
    for segment in segments {
        if !are_tag_names(names, format, has_slash, segment.tags()) {
            return false;
        }
    }
    true
}

/// Whether each tag of each rule has a name that it may have.
fn have_tag_names(names: &Names, format: Format, rules: &Vec<Rc<KeptRule>>) -> bool
    ensures { IsTrue result ↔ AllByRecursion (λ one. AllByRecursion (MayBeTag format names.now (is_some one.value.slash)) one.value.tags) rules.now.items }
{
    let held = rules.as_slice();
    for rule in held {
        if !are_all_tag_names(names, format, rule.slash.is_some(), &rule.tags) {
            return false;
        }
    }
    true
}

/// The fault of the target of a rule, if it has no rules of its own.
fn target_fault(conds: &Conditions, rule: &KeptRule, act: &Act) -> Option<Fault>
    ensures { result ≡ target_fault act.now.goes rule.now.target (cond_names conds.now) }
{
    let Some(goes) = &act.goes else {
        return None;
    };
    let Some(place) = rule.target else {
        return None;
    };
    if conds.contains(goes.as_slice()) {
        return None;
    }
    Some(Fault::Condition { at: place })
}

/// The fault of the first target that has no rules of its own.
fn targets_fault(known: &Known) -> Option<Fault>
    ensures { result ≡ kept_targets_fault (cond_names known.now.conds) (rules_view known.now.rules) known.now.acts.items }
{
    let rules = known.rules.as_slice();
    let acts = known.acts.as_slice();
    for place in 0..rules.len() {
        let Some(act) = acts.get(place) else {
            return None;
        };
        let fault = target_fault(&known.conds, &rules[place], act);
        if fault.is_some() {
            return fault;
        }
    }
    None
}

/// Whether the spellings differ, each tag has a name that it may have, and so has each condition a label.
fn names_differ(
    alloc: Global,
    known: &Known,
    names: &Names,
    options: &Options,
) -> Result<bool, Memory>
    ensures { IfOk result (λ differ. IsTrue differ ↔ (SpellingsDiffer options.now.custom options.now.format names.now
        × AllByRecursion (λ one. AllByRecursion (MayBeTag options.now.format names.now (is_some one.value.slash)) one.value.tags) known.now.rules.items
        × LabelsDiffer options.now.format names.now (cond_names known.now.conds))) }
{
    let format = options.format;
    let spellings = spellings_differ(names, options.custom, format);
    let tags = have_tag_names(names, format, &known.rules);
    let labels = labels_differ(alloc, names, format, &known.conds)?;
    Ok(spellings && tags && labels)
}

/// The fault of rules that are all of `<*>`; at the opener of the block.
fn lonely_fault(known: &Known, at: Pos) -> Option<Fault>
    ensures { (rules : List RuleOf) → length rules ≡ length (rules_view known.now.rules) → result ≡ lonely_fault at rules (cond_names known.now.conds) }
{
    if known.rules.len() > 0 && known.conds.len() == 0 {
        return Some(Fault::Condition { at });
    }
    None
}

/// The fault of a block as a whole, before those of its scanners, if there is one; its opener stands at this place.
fn whole_fault(
    alloc: Global,
    known: &Known,
    names: &Names,
    options: &Options,
    at: Pos,
) -> Result<Option<Fault>, Memory>
    ensures { IfOk result (λ found. (state : State) → Holds known.now state → names.now ≡ (config_of state.settings).names
        → WholeChecks options.now.custom options.now.format at state found) }
{
    let differ = names_differ(alloc, known, names, options)?;
    if !differ {
        return Ok(Some(Fault::BadValue { at }));
    }
    if let Some(fault) = lonely_fault(known, at) {
        return Ok(Some(fault));
    }
    Ok(targets_fault(known))
}

/// The scanners of a block whose opener stands at this place, where its checks find nothing.
fn checked_scanners(
    alloc: Global,
    known: &Known,
    names: &Names,
    options: &Options,
    at: Pos,
) -> Result<Sequence<Scanner>, Stop>
    requires { (state : State) × Holds known.now state }
    ensures { (state : State) → Holds known.now state → names.now ≡ (config_of state.settings).names → MatchResult result
        (λ scanners. WholeChecks options.now.custom options.now.format at state None
        × AllZip (IsBuiltScanner options.now.conds at (config_of state.settings).eof state.rules) (conditions_of state.rules) scanners)
        (StopsAt (ScannerChecks options.now.custom options.now.format at state)) }
{
    let whole = whole_fault(alloc, known, names, options, at)?;
    if let Some(fault) = whole {
        return Err(Stop::Fault(fault));
    }
    scanners(alloc, known, options.conds, at)
}

/// The configuration of a block.
fn config(alloc: Global, known: &Known) -> Result<Config, Memory>
    ensures { IfOk result (λ config. config ≡ config_of (settings_view known.now.settings)) }
{
    let names = known.settings.names(alloc)?;
    let eof = known.eof();
    let fill = known.settings.fill.unwrap_or(true);
    Ok(Config { names, eof, fill })
}

/// What a rules block resolves to.
fn rules_resolved(alloc: Global, known: &Known, at: Pos) -> Result<Resolved, Stop>
    ensures { (state : State) → Holds known.now state → MatchResult result
        (λ resolved. (no_rules_fault at state.rules ≡ None) × ((named : Bool) → IsResolvedAs block.Rules named state resolved) × FitsLimits resolved)
        (StopsAt (Finds (no_rules_fault at state.rules))) }
{
    if known.rules.len() == 0 {
        return Err(Stop::Fault(Fault::NoRules { at }));
    }
    let config = config(alloc, known)?;
    Ok(Resolved {
        scanners: Sequence::new(alloc),
        acts: Sequence::new(alloc),
        config,
    })
}

/// What a rules block resolves to, and what holds behind it.
fn finish_rules(
    alloc: Global,
    known: Known,
    options: &Options,
    at: Pos,
) -> Result<(Env, Resolved), Stop>
    requires few { length known.acts.items ≤ SOURCE_LIMIT }
    requires holds { (state : State) × Holds known state }
    ensures { (state : State) (environment : Environment) → Holds known state → IsBefore block.Rules environment known.before known.is_use → MatchResult result
        (IsFinished options.now block.Rules at environment state)
        (StopsAt (BlockChecks options.now.custom options.now.format block.Rules at state)) }
{
    let resolved = rules_resolved(alloc, &known, at)?;
    Ok((known.into_kept(), resolved))
}

/// What a block of scanners resolves to, and what holds behind it.
fn finish_scanners(
    alloc: Global,
    known: Known,
    kind: BlockKind,
    options: &Options,
    at: Pos,
) -> Result<(Env, Resolved), Stop>
    requires few { length known.acts.items ≤ 2 * SOURCE_LIMIT }
    requires holds { (state : State) × Holds known state }
    requires kind { HasRules kind }
    requires other { kind ≢ block.Rules }
    ensures { (state : State) (environment : Environment) → Holds known state → IsBefore kind environment known.before known.is_use → MatchResult result
        (IsFinished options.now kind at environment state)
        (StopsAt (BlockChecks options.now.custom options.now.format kind at state)) }
{
    let config = config(alloc, &known)?;
    let scanners = checked_scanners(alloc, &known, &config.names, options, at)?;
    let (env, acts) = known.into_left();
    let resolved = Resolved {
        scanners,
        acts: Sequence::from_vec(acts),
        config,
    };
    Ok((env, resolved))
}

/// What the block of this kind resolves to whose opener stands at this place, and what holds behind it.
pub(crate) fn finish(
    alloc: Global,
    known: Known,
    kind: BlockKind,
    options: &Options,
    at: Pos,
) -> Result<(Env, Resolved), Stop>
    requires few { length known.acts.items ≤ SOURCE_LIMIT + most_before kind }
    requires holds { (state : State) × Holds known state }
    requires kind { HasRules kind }
    ensures { (state : State) (environment : Environment) → Holds known state → IsBefore kind environment known.before known.is_use → MatchResult result
        (IsFinished options.now kind at environment state)
        (StopsAt (BlockChecks options.now.custom options.now.format kind at state)) }
{
    if kind == BlockKind::Rules {
        finish_rules(alloc, known, options, at)
    } else {
        finish_scanners(alloc, known, kind, options, at)
    }
}
