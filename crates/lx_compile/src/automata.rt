//! The automata of the scanners of a block.
ghost use Rattle.std.specs.Prelude.{◌≡◌, ◌++◌, ℕ, List, All, IfOk, IfSome, MatchResult, false, length, option_copied};
ghost use Rattle.std.specs.List.{AllByRecursion};
ghost use Rattle.lx_base.specs.declared.settings.Options.{Options as options_type};
ghost use Rattle.lx_gen.specs.Automata.{seen_checks};
ghost use Rattle.lx_rules.specs.FitScanners.{IsFit};
ghost use Rattle.lx_rules.specs.Within.{IsScannerWithin};
ghost use Rattle.lx_compile.specs.Covering.{AreCoveredBy, IsCoveredWhere};
ghost use Rattle.lx_compile.specs.Emittable.{IsMadeFor};
ghost use Rattle.lx_compile.specs.Models.{AreMadeFor, BeginOwn, Differs, HasFirst, IsFirst, IsItemFor, IsKept, IsModel, first_auto};
ghost use Rattle.lx_compile.specs.Options.{asks_for_cover};
ghost use Rattle.lx_compile.specs.ScannerFaults.{AreFaultless, IsFaultOfScanners, IsFaultless, IsScannerFault, StopsWithFault};

use crate::covered::{BlockFrame, append_cover, asks_for_cover};
use crate::determinized::determinized;
use crate::reduction::reduced;
use lx_auto::Auto;
use lx_base::{Memory, Options, Sequence, Stop};
use lx_fill::{CheckList, checks};
use lx_gen::ScannerAuto;
use lx_regex::Rule;
use lx_renumber::{Repeats, difference, renumbered};
use lx_rules::{Resolved, Scanner};
use lx_shared::Shared;
use lx_tnfa::Tnfa;
use std::alloc::Global;

/// Rules with their automaton, of which those of other rules are made that are the same but for their numbers.
#[derive(Clone, Copy)]
pub(crate) struct Model<'a> {
    pub rules: &'a [Rule],
    pub auto: &'a Shared<Auto>,
}

/// A scanner with its automaton, which is kept as a model for the blocks behind its own.
#[derive(Drop)]
pub(crate) struct Kept {
    scanner: Scanner,
    auto: Shared<Auto>,
}

/// What is kept, as a model.
pub(crate) fn kept_model(kept: &Option<Kept>) -> Option<Model<'_>>
    ensures { (options : options_type) → IfSome kept.now (IsKept options) → IfSome result (IsModel options) }
{
    match kept {
        None => None,
        Some(kept) => Some(Model {
            rules: kept.scanner.set.rules.as_slice(),
            auto: &kept.auto,
        }),
    }
}

/// The first scanner of a block with its automaton, if it has one.
pub(crate) fn first_kept(scanners: Sequence<Scanner>, auto: Option<Shared<Auto>>) -> Option<Kept>
    ensures { (options : options_type) → HasFirst options scanners auto → IfSome result (IsKept options) }
{
    let scanner = scanners.into_vec().into_iter().next();
    match (scanner, auto) {
        (Some(scanner), Some(auto)) => Some(Kept { scanner, auto }),
        _ => None,
    }
}

/// The automaton of the first scanner of a block, if there is one.
pub(crate) fn first_of(autos: &[ScannerAuto]) -> Option<&Shared<Auto>>
    ensures { option_copied result ≡ first_auto autos.now }
{
    match autos.first() {
        None => None,
        Some(ScannerAuto::Own { auto, .. }) => Some(auto),
        Some(ScannerAuto::AsFirst(_)) => None,
    }
}

/// The first scanner of a block as a model, where its automaton is made already.
fn block_model<'a>(scanners: &'a [Scanner], autos: &'a [ScannerAuto]) -> Option<Model<'a>>
    ensures model { (options : options_type) → HasFirst options scanners.now (first_auto autos.now) → IfSome result (IsModel options) }
    ensures first { IfSome result (IsFirst scanners.now autos.now) }
{
    match (scanners.first(), autos.first()) {
        (Some(scanner), Some(ScannerAuto::Own { auto, .. })) => Some(Model {
            rules: scanner.set.rules.as_slice(),
            auto,
        }),
        _ => None,
    }
}

/// By how much the numbers of a scanner's rules are greater than those of a model, where its rules are those of the model but for their
/// numbers, and no covering words are asked for, which are found while an automaton is made.
fn difference_by(options: &Options, model: Option<Model<'_>>, scanner: &Scanner) -> Option<u32>
    requires { IfSome model (IsModel options.now) }
    ensures { IfSome result (Differs options.now model.entry scanner.now) }
{
    match model {
        Some(model) if !asks_for_cover(options) => {
            difference(model.rules, model.auto.get(), scanner.set.rules.as_slice())
        }
        _ => None,
    }
}

/// The automaton of a scanner by a model, where that serves.
fn automaton_by(
    alloc: Global,
    options: &Options,
    model: Option<Model<'_>>,
    scanner: &Scanner,
) -> Result<Option<Shared<Auto>>, Memory>
    requires { IfSome model (IsModel options.now) }
    ensures { IfOk result (λ answer. IfSome answer (λ auto. IsMadeFor options.now scanner.now auto × IsFaultless options.now scanner.now
        × (asks_for_cover options.now ≡ false))) }
{
    match (difference_by(options, model, scanner), model) {
        (Some(by), Some(model)) => renumbered(alloc, model.auto, by),
        _ => Ok(None),
    }
}

/// The automaton of a scanner, with few states, registers and operations; or the scanner's fault. The text of its covering words is appended,
/// where they are asked for.
fn made_automaton(
    alloc: Global,
    frame: &BlockFrame<'_>,
    scanner: &Scanner,
    cover: &mut Vec<u8>,
) -> Result<Auto, Stop>
    requires fit { IsFit (length frame.now.acts.now) scanner.now }
    requires within { IsScannerWithin frame.now.options.now.enc scanner.now }
    ensures { MatchResult result
        (λ auto. IsMadeFor frame.now.options.now scanner.now auto × IsFaultless frame.now.options.now scanner.now
        × ((own : List ℕ) × IsCoveredWhere frame.now.options.now frame.now.acts.now scanner.now (asks_for_cover frame.now.options.now) frame.now.number own
        × (cover.new.items ≡ cover.old.items ++ own)))
        (StopsWithFault (IsScannerFault frame.now.options.now frame.now.at scanner.now)) }
{
    let automaton = Tnfa::of(alloc, &scanner.set, frame.options.enc)?;
    let found = determinized(alloc, frame.options, &automaton, frame.at)?;
    let few = reduced(alloc, found)?;
    append_cover(alloc, frame, scanner, &automaton, &few, cover)?;
    Ok(few)
}

/// The same by a model, where that serves.
fn automaton_of(
    alloc: Global,
    frame: &BlockFrame<'_>,
    model: Option<Model<'_>>,
    scanner: &Scanner,
    cover: &mut Vec<u8>,
) -> Result<Shared<Auto>, Stop>
    requires fit { IsFit (length frame.now.acts.now) scanner.now }
    requires within { IsScannerWithin frame.now.options.now.enc scanner.now }
    requires model { IfSome model (IsModel frame.now.options.now) }
    ensures { MatchResult result
        (λ auto. IsMadeFor frame.now.options.now scanner.now auto × IsFaultless frame.now.options.now scanner.now
        × ((own : List ℕ) × IsCoveredWhere frame.now.options.now frame.now.acts.now scanner.now (asks_for_cover frame.now.options.now) frame.now.number own
        × (cover.new.items ≡ cover.old.items ++ own)))
        (StopsWithFault (IsScannerFault frame.now.options.now frame.now.at scanner.now)) }
{
    match automaton_by(alloc, frame.options, model, scanner)? {
        Some(auto) => Ok(auto),
        None => {
            let auto = made_automaton(alloc, frame, scanner, cover)?;
            Ok(Shared::of(alloc, auto)?)
        }
    }
}

/// The automaton of a scanner of a block, by that of the block's first scanner, where that serves, or else by the one from before the block.
fn scanner_auto(
    alloc: Global,
    frame: &BlockFrame<'_>,
    first: Option<Model<'_>>,
    before: Option<Model<'_>>,
    scanner: &Scanner,
    cover: &mut Vec<u8>,
) -> Result<ScannerAuto, Stop>
    requires fit { IsFit (length frame.now.acts.now) scanner.now }
    requires within { IsScannerWithin frame.now.options.now.enc scanner.now }
    requires first { IfSome first (IsModel frame.now.options.now) }
    requires before { IfSome before (IsModel frame.now.options.now) }
    ensures { MatchResult result
        (λ item. IsItemFor frame.now.options.now first.entry scanner.now item × IsFaultless frame.now.options.now scanner.now
        × ((own : List ℕ) × IsCoveredWhere frame.now.options.now frame.now.acts.now scanner.now (asks_for_cover frame.now.options.now) frame.now.number own
        × (cover.new.items ≡ cover.old.items ++ own)))
        (StopsWithFault (IsScannerFault frame.now.options.now frame.now.at scanner.now)) }
{
    if let Some(by) = difference_by(frame.options, first, scanner) {
        return Ok(ScannerAuto::AsFirst(by));
    }
    let auto = automaton_of(alloc, frame, before, scanner, cover)?;
    let checks = checks(alloc, auto.get())?;
    Ok(ScannerAuto::Own { auto, checks })
}

/// What the scanners of a block give.
#[derive(Drop)]
pub(crate) struct Automata {
    pub autos: Sequence<ScannerAuto>,
    /// The text of their covering words.
    pub cover: Vec<u8>,
}

/// The automata of scanners, with the text of their covering words, where they are asked for; or the fault of the first scanner that has one.
pub(crate) fn automata_of(
    alloc: Global,
    frame: &BlockFrame<'_>,
    before: Option<Model<'_>>,
    scanners: &[Scanner],
) -> Result<Automata, Stop>
    requires fit { All (IsFit (length frame.now.acts.now)) scanners.now }
    requires within { AllByRecursion (IsScannerWithin frame.now.options.now.enc) scanners.now }
    requires before { IfSome before (IsModel frame.now.options.now) }
    ensures { MatchResult result
        (λ answer. AreMadeFor frame.now.options.now scanners.now answer.autos × AreFaultless frame.now.options.now scanners.now
        × AreCoveredBy frame.now.options.now frame.now.number frame.now.acts.now scanners.now answer.cover.items)
        (StopsWithFault (IsFaultOfScanners frame.now.options.now frame.now.at scanners.now)) }
{
    let mut autos = Sequence::new(alloc);
    let mut cover = Vec::new(alloc);
    for scanner in scanners {
        let first = block_model(scanners, autos.as_slice());
        let auto = scanner_auto(alloc, frame, first, before, scanner, &mut cover)?;
        autos.push(auto)?;
    }
    Ok(Automata { autos, cover })
}

/// The first automaton of a block, if there is one, and the checks of all.
pub(crate) fn taken_apart(
    alloc: Global,
    autos: Sequence<ScannerAuto>,
) -> Result<(Option<Shared<Auto>>, Repeats<CheckList>), Memory>
    requires { BeginOwn autos }
    ensures first { IfOk result (λ parts. parts.0 ≡ first_auto autos) }
    ensures checks { IfOk result (λ parts. parts.1 ≡ seen_checks autos) }
{
    let mut first = None;
    let mut lists = Repeats::new(alloc);
    for item in autos.into_vec() {
        match item {
            ScannerAuto::Own { auto, checks } => {
                lists.push(checks)?;
                if first.is_none() {
                    first = Some(auto);
                }
            }
            ScannerAuto::AsFirst(_) => lists.repeat_first()?,
        }
    }
    Ok((first, lists))
}
