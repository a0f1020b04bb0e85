//! The emitted piece of a block of scanners.
ghost use Rattle.std.specs.Prelude.{◌≡◌, ◌<◌, ◌≤◌, All, IfOk, IfSome, length, map};
ghost use Rattle.std.specs.List.{AllByRecursion};
ghost use Rattle.lx_ccode.specs.Validity.{IsLine};
ghost use Rattle.lx_layout.specs.LikeScanners.{AreLike};
ghost use Rattle.lx_layout.specs.PieceViews.{seen_form, seen_source, seen_sources};
ghost use Rattle.lx_layout.specs.RuleEnds.{endings_of};
ghost use Rattle.lx_renumber.specs.Renumbered.{based};
ghost use Rattle.lx_rules.specs.FitScanners.{IsFit};
ghost use Rattle.lx_rules.specs.WellFormed.{IsWellFormed};
ghost use Rattle.lx_rules.specs.declared.resolved.Resolved.{Resolved as resolved_type};
ghost use Rattle.lx_rules.specs.declared.resolved.Scanner.{Scanner as scanner_type};
ghost use Rattle.lx_regex.specs.Order.{Policy};
ghost use Rattle.lx_regex.specs.Pattern.{end_rule, patterns_of};
ghost use Rattle.lx_gen.specs.Automata.{AreAlike, auto_by, by_of, checks_by, seen_autos, seen_checks};
ghost use Rattle.lx_gen.specs.Generated.{AreAutomata, AreAutomataUnder, AreRightUnder, IsGenerated, endings_by, form_of, marks_of};
ghost use Rattle.lx_gen.specs.Seen.{HaveShortLines, seen_marks, source_with, sources_with};

use crate::automata::ScannerAuto;
use crate::contexts::has_context_marker;
use crate::scanner_ends::{Marks, rule_ends};
use lx_auto::Auto;
use lx_base::{Memory, Options, Sequence};
use lx_ccode::{LineMark, Piece};
use lx_fill::CheckList;
use lx_layout::{PieceForm, RuleEnd, ScannerInput, piece_of};
use lx_rules::{Act, Config, Resolved, Scanner, end_rule};
use lx_shared::SharedText;
use std::alloc::Global;

/// The ends of the rules of each scanner.
fn ends_of<'a>(
    alloc: Global,
    marks: Marks<'_>,
    scanners: &'a [Scanner],
    acts: &'a [Act],
) -> Result<Vec<Vec<RuleEnd<'a>>>, Memory>
    requires { All (IsFit (length acts.now)) scanners.now }
    ensures endings { IfOk result (λ all. map (λ one. endings_of one.items) all.items
        ≡ map (λ (scanner : scanner_type). endings_by (seen_marks marks.entry) acts.now scanner.set.rules) scanners.now) }
    ensures lines { IfOk result (λ all. AllByRecursion HaveShortLines (map (λ one. endings_of one.items) all.items)) }
{
    let mut all = Vec::with_capacity(alloc, scanners.len())?;
    for scanner in scanners {
        let rules = scanner.set.rules.as_slice();
        all.push(rule_ends(alloc, marks, rules, acts)?)?;
    }
    Ok(all)
}

/// An automaton with its checks, and by how much the numbers of rules are greater than there, where it is that of the first scanner.
#[derive(Clone, Copy)]
struct GivenAuto<'a> {
    auto: &'a Auto,
    checks: &'a CheckList,
    by: Option<u32>,
}

/// What a scanner is given, by the automaton of the first scanner and its checks.
fn given_auto<'a>(auto: &'a Auto, checks: &'a CheckList, item: &'a ScannerAuto) -> GivenAuto<'a>
    ensures by { result.by ≡ by_of item.now }
    ensures auto { based result.by result.auto.now ≡ auto_by auto.now item.now }
    ensures checks { result.checks.now ≡ checks_by checks.now item.now }
    ensures first { IfSome result.by (λ by. result.auto.now ≡ auto.now) }
{
    match item {
        ScannerAuto::Own { auto, checks } => GivenAuto {
            auto: auto.get(),
            checks,
            by: None,
        },
        ScannerAuto::AsFirst(by) => GivenAuto {
            auto,
            checks,
            by: Some(*by),
        },
    }
}

/// What is given of a scanner.
fn input<'a, 'b>(
    scanner: &'a Scanner,
    given: GivenAuto<'a>,
    ends: &'b [RuleEnd<'a>],
) -> ScannerInput<'a, 'b>
    ensures source { seen_source result ≡ source_with (endings_of ends.now) scanner.now (based given.entry.by given.entry.auto.now) given.entry.checks.now }
    ensures by { result.by ≡ given.entry.by }
    ensures auto { result.auto.now ≡ given.entry.auto.now }
    ensures checks { result.checks.now ≡ given.entry.checks.now }
    ensures end_rule { result.end_rule ≡ end_rule (patterns_of scanner.now.set.rules) }
{
    ScannerInput {
        cond: &scanner.cond,
        auto: given.auto,
        by: given.by,
        checks: given.checks.as_slice(),
        ends,
        end_rule: end_rule(scanner.set.rules.as_slice()),
    }
}

/// What is given of each scanner.
fn inputs<'a, 'b>(
    alloc: Global,
    scanners: &'a [Scanner],
    autos: &'a [ScannerAuto],
    ends: &'b [Vec<RuleEnd<'a>>],
) -> Result<Vec<ScannerInput<'a, 'b>>, Memory>
    requires autos { length (seen_autos autos.now) ≡ length scanners.now }
    requires ends { length ends.now ≡ length scanners.now }
    requires alike { AreAlike scanners.now autos.now }
    ensures sources { IfOk result (λ inputs. seen_sources inputs.items
        ≡ sources_with (map (λ one. endings_of one.items) ends.now) scanners.now (seen_autos autos.now) (seen_checks autos.now)) }
    ensures like { IfOk result (λ inputs. AreLike inputs.items) }
{
    let mut inputs = Vec::with_capacity(alloc, scanners.len())?;
    let Some(
        ScannerAuto::Own {
            auto: first,
            checks,
        },
    ) = autos.first()
    else {
        return Ok(inputs);
    };
    let auto = first.get();
    for place in 0..scanners.len() {
        let given = given_auto(auto, checks, &autos[place]);
        inputs.push(input(&scanners[place], given, ends[place].as_slice()))?;
    }
    Ok(inputs)
}

/// Where the lines of actions are told: where the line behind the block is.
fn marks_of<'a>(line: &Option<LineMark>, names: &'a [SharedText]) -> Marks<'a>
    ensures marks { seen_marks result ≡ marks_of line.now names.now }
    ensures line { IsLine line.now }
{
    match line {
        None => Marks { names: None },
        Some(mark) => {
            let _line = mark.line;
            Marks { names: Some(names) }
        }
    }
}

/// What the piece is beside its scanners.
fn piece_form(
    options: &Options,
    scanners: &[Scanner],
    config: Config,
    number: u32,
    first_state: u64,
    own_switch: bool,
    line: Option<LineMark>,
) -> PieceForm
    ensures { (resolved : resolved_type) → resolved.scanners ≡ scanners.now → resolved.config ≡ config
        → seen_form result ≡ form_of options.now resolved number first_state own_switch line }
{
    PieceForm {
        number,
        format: options.format,
        names: config.names,
        enc: options.enc,
        custom: options.custom,
        eof: config.eof,
        fill: config.fill,
        stores: options.states,
        first_state,
        switches: options.states && own_switch,
        context: has_context_marker(options, scanners),
        line,
    }
}

/// The piece of a block of scanners.
#[derive(Drop)]
pub struct Generated {
    pub piece: Piece,
    /// The scanners of the block.
    pub scanners: Sequence<Scanner>,
}

/// The piece of a block of scanners, with an automaton and a list of checks for each, and the scanners again.
///
/// The number is the piece's in its output, counted from 1. The states that it stores are numbered from `first_state` on. It has the
/// switch over its states where states are stored and `own_switch` is true. The line is that behind the block; where it is told, those
/// of the actions are told too.
///
/// It may answer want of memory, which no clause ties to a cause; a piece that would have more than 2^62 statements counts as that.
pub fn generate(
    alloc: Global,
    resolved: Resolved,
    autos: &[ScannerAuto],
    options: &Options,
    names: &[SharedText],
    number: u32,
    first_state: u64,
    own_switch: bool,
    line: Option<LineMark>,
) -> Result<Generated, Memory>
    requires formed { IsWellFormed options.now resolved }
    requires automata { AreAutomata options.now.enc resolved.scanners (seen_autos autos.now) (seen_checks autos.now) }
    requires alike { AreAlike resolved.scanners autos.now }
    requires some { 0 < length resolved.scanners }
    requires first_state { first_state ≤ 4611686018427387904 }
    ensures scanners { IfOk result (λ made. made.scanners ≡ resolved.scanners) }
    ensures piece { IfOk result (λ made. IsGenerated options.now resolved (seen_autos autos.now) (seen_checks autos.now) names.now number first_state
        own_switch line made.piece) }
    ensures right { (policy : Policy) → AreAutomataUnder policy options.now.enc resolved.scanners (seen_autos autos.now) (seen_checks autos.now)
        → IfOk result (λ made. AreRightUnder policy options.now (marks_of line names.now) resolved made.piece) }
{
    let Resolved {
        scanners,
        acts,
        config,
    } = resolved;
    let piece = {
        let items = scanners.as_slice();
        let ends = ends_of(alloc, marks_of(&line, names), items, acts.as_slice())?;
        let inputs = inputs(alloc, items, autos, &ends)?;
        let form = piece_form(
            options,
            items,
            config,
            number,
            first_state,
            own_switch,
            line,
        );
        piece_of(alloc, form, &inputs)?
    };
    Ok(Generated { piece, scanners })
}
