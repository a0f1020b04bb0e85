//! What the scanners of a source are warned of.
ghost use Rattle.std.specs.Prelude.{◌≡◌, ◌++◌, List, IfOk, OnOk, map};
ghost use Rattle.std.specs.List.{AllByRecursion};
ghost use Rattle.lx_gen.specs.Automata.{auto_by, seen_autos};
ghost use Rattle.lx_rules.specs.Numbered.{numbered_act};
ghost use Rattle.lx_regex.specs.Pattern.{patterns_of};
ghost use Rattle.lx_rules.specs.Within.{IsScannerWithin};
ghost use Rattle.lx_warn.specs.Warnings.{AreWarnings};
ghost use Rattle.lx_warn.specs.declared.lists.Warning.{Warning as warning_type};
ghost use Rattle.lx_compile.specs.Emittable.{AreAutosOf, IsMadeFor};
ghost use Rattle.lx_compile.specs.Options.{policy_of, tells_warnings};
ghost use Rattle.lx_compile.specs.Warnings.{AreWarned, act_place, placed, told_warnings, warning_place, warnings_in, warnings_of};

use crate::automata::first_of;
use crate::made::Made;
use lx_auto::Auto;
use lx_base::{Memory, Options, Pos, Sequence};
use lx_gen::ScannerAuto;
use lx_renumber::renumbered;
use lx_rules::{Act, Resolved, Scanner, numbered_act};
use lx_shared::{Shared, SharedText};
use lx_warn::{Warning, warnings};
use std::alloc::Global;

/// A warning of a scanner.
pub struct PlacedWarning {
    /// The place of the rule's action, or that of the block's opener.
    pub at: Pos,
    /// The name of the scanner's condition.
    pub cond: Option<SharedText>,
    pub warning: Warning,
}

impl Drop for PlacedWarning {
    fn drop(self) {
        let Self {
            at: _,
            cond: _,
            warning: _,
        } = self;
    }
}

/// Whether warnings are asked for.
pub fn tells_warnings(options: &Options) -> bool
    ensures { result ≡ tells_warnings options.now }
{
    options.warn
}

/// The place of the action of a rule; where there is none, that of the block's opener, which is `at`.
fn act_place(at: Pos, acts: &[Act], number: u32) -> Pos
    ensures { result ≡ act_place at (numbered_act acts.now number) }
{
    match numbered_act(acts, number) {
        None => at,
        Some(act) => act.at,
    }
}

/// Where a warning of a scanner stands whose block opens at `at`.
fn warning_place(at: Pos, acts: &[Act], warning: &Warning) -> Pos
    ensures { result ≡ warning_place at acts.now warning.now }
{
    match warning {
        Warning::Unreachable(number) | Warning::Empty(number) => act_place(at, acts, *number),
        Warning::Undefined(_) => at,
    }
}

/// A warning of the scanner of a condition, at its place.
fn placed(
    at: Pos,
    acts: &[Act],
    cond: &Option<SharedText>,
    warning: Warning,
) -> Result<PlacedWarning, Memory>
    ensures { IfOk result (λ one. one ≡ placed at acts.now cond.now warning) }
{
    let at = warning_place(at, acts, &warning);
    let cond = SharedText::share_option(cond)?;
    Ok(PlacedWarning { at, cond, warning })
}

/// Appends the warnings of a scanner.
fn append_warnings(
    alloc: Global,
    options: &Options,
    at: Pos,
    acts: &[Act],
    scanner: &Scanner,
    auto: &Auto,
    all: &mut Sequence<PlacedWarning>,
) -> Result<(), Memory>
    requires within { IsScannerWithin options.now.enc scanner.now }
    requires automaton { IsMadeFor options.now scanner.now auto.now }
    ensures { OnOk result ((own : List warning_type) × AreWarnings (policy_of options.now) options.now.enc (patterns_of scanner.now.set.rules) own
        × (all.new ≡ all.old ++ map (placed at acts.now scanner.now.cond) own)) }
{
    let own = warnings(alloc, scanner, options.enc, auto)?;
    for warning in own.into_vec() {
        all.push(placed(at, acts, &scanner.cond, warning)?)?;
    }
    Ok(())
}

/// Appends the warnings of a scanner, where the first one of its block has an automaton.
///
/// A number of a rule that does not fit into 32 bits counts as want of memory; no rule has one.
fn append_item_warnings(
    alloc: Global,
    options: &Options,
    at: Pos,
    acts: &[Act],
    scanner: &Scanner,
    first: &Shared<Auto>,
    item: &ScannerAuto,
    all: &mut Sequence<PlacedWarning>,
) -> Result<(), Memory>
    requires within { IsScannerWithin options.now.enc scanner.now }
    requires automaton { IsMadeFor options.now scanner.now (auto_by first.now item.now) }
    ensures { OnOk result ((own : List warning_type) × AreWarnings (policy_of options.now) options.now.enc (patterns_of scanner.now.set.rules) own
        × (all.new ≡ all.old ++ map (placed at acts.now scanner.now.cond) own)) }
{
    match item {
        ScannerAuto::Own { auto, .. } => {
            append_warnings(alloc, options, at, acts, scanner, auto.get(), all)
        }
        ScannerAuto::AsFirst(by) => {
            let auto = renumbered(alloc, first, *by)?.ok_or(Memory)?;
            append_warnings(alloc, options, at, acts, scanner, auto.get(), all)
        }
    }
}

/// The warnings of a block's scanners, whose opener stands at `at`, by their automata; none where they are not asked for.
pub(crate) fn block_warnings(
    alloc: Global,
    options: &Options,
    at: Pos,
    resolved: &Resolved,
    autos: &[ScannerAuto],
) -> Result<Sequence<PlacedWarning>, Memory>
    requires within { AllByRecursion (IsScannerWithin options.now.enc) resolved.now.scanners }
    requires automata { AreAutosOf options.now resolved.now.scanners (seen_autos autos.now) }
    ensures { IfOk result (AreWarned options.now at resolved.now) }
{
    let mut all = Sequence::new(alloc);
    if !tells_warnings(options) {
        return Ok(all);
    }
    let Some(first) = first_of(autos) else {
        return Ok(all);
    };
    let acts = resolved.acts.as_slice();
    for (place, scanner) in resolved.scanners.as_slice().iter().enumerate() {
        let item = &autos[place];
        append_item_warnings(alloc, options, at, acts, scanner, first, item, &mut all)?;
    }
    Ok(all)
}

/// Appends all of some warnings.
fn append_all(
    all: &mut Sequence<PlacedWarning>,
    some: Sequence<PlacedWarning>,
) -> Result<(), Memory>
    ensures { OnOk result (all.new ≡ all.old ++ some) }
{
    for one in some.into_vec() {
        all.push(one)?;
    }
    Ok(())
}

/// The warnings that stand with what is made of a part. It takes no memory.
fn warnings_in(alloc: Global, one: Made) -> Sequence<PlacedWarning>
    ensures { result ≡ warnings_in one }
{
    match one {
        Made::Scanners {
            piece: _piece,
            checks: _checks,
            warnings,
            cover: _cover,
            groups: _groups,
        } => warnings,
        Made::Outside(_text) => Sequence::new(alloc),
        Made::Bare {
            line: _line,
            directive: _directive,
            ..
        } => Sequence::new(alloc),
    }
}

/// The warnings of all that is made, in order.
fn warnings_of(alloc: Global, made: Sequence<Made>) -> Result<Sequence<PlacedWarning>, Memory>
    ensures { IfOk result (λ all. all ≡ warnings_of made) }
{
    let mut all = Sequence::new(alloc);
    for one in made.into_vec() {
        append_all(&mut all, warnings_in(alloc, one))?;
    }
    Ok(all)
}

/// The same where warnings are asked for, and else none.
pub(crate) fn told_warnings(
    alloc: Global,
    options: &Options,
    made: Sequence<Made>,
) -> Result<Sequence<PlacedWarning>, Memory>
    ensures { IfOk result (λ all. all ≡ told_warnings options.now made) }
{
    if tells_warnings(options) {
        warnings_of(alloc, made)
    } else {
        Ok(Sequence::new(alloc))
    }
}
