//! The pieces of the scanners of a source.
ghost use Rattle.std.specs.Prelude.{◌≡◌, ◌<◌, ◌+◌, All, IfOk, IfSome, IsSome, MatchResult, OnOk, length, None};
ghost use Rattle.lx_ccode.specs.Counts.{state_count};
ghost use Rattle.lx_ccode.specs.Validity.{IsLine};
ghost use Rattle.lx_compile.specs.Covering.{AreCovered};
ghost use Rattle.lx_compile.specs.Emittable.{CanBeMade, HasMakeable, IsMakeable};
ghost use Rattle.lx_compile.specs.Made.{AreMade, IsMadeOf, IsScannerPiece, groups_in_rules, groups_in_scanners, line_mark};
ghost use Rattle.lx_compile.specs.Making.{seen_frame};
ghost use Rattle.lx_compile.specs.Models.{AreMadeFor, IsKept, IsModel};
ghost use Rattle.lx_compile.specs.Warnings.{AreWarned};
ghost use Rattle.lx_compile.specs.Parts.{IsScanningFault, StopsByScanners};
ghost use Rattle.lx_compile.specs.ScannerFaults.{AreFaultless, IsFaultOfContent, IsFaultOfScanners, IsFaultlessContent, StopsWithFault};

use crate::automata::{Automata, Kept, Model, automata_of, first_kept, kept_model, taken_apart};
use crate::covered::BlockFrame;
use crate::made::Made;
use crate::parts::{Content, Part};
use crate::warned::{PlacedWarning, block_warnings};
use lx_base::{ByteText, Memory, Options, Pos, Sequence, Stop};
use lx_ccode::{LineMark, Piece};
use lx_fill::CheckList;
use lx_gen::{Generated, generate};
use lx_regex::Rule;
use lx_renumber::Repeats;
use lx_rules::{Resolved, Scanner};
use lx_shared::SharedText;
use std::alloc::Global;

/// The greatest number that the first state of a piece may have.
const STATE_LIMIT: u64 = 4611686018427387904;

/// What holds for all pieces of an output.
#[derive(Clone, Copy)]
pub(crate) struct Frame<'a> {
    pub options: &'a Options,
    /// The names of the files met.
    pub names: &'a [SharedText],
    /// Whether pieces switch over their states themselves.
    pub own_switch: bool,
}

/// The number of the next piece, and that of its first state.
#[derive(Clone, Copy)]
struct Numbers {
    piece: u32,
    state: u64,
}

/// The line of a place's file that is told behind a piece, where lines are told.
fn line_mark(
    alloc: Global,
    frame: &Frame<'_>,
    at: Pos,
    line: u32,
) -> Result<Option<LineMark>, Memory>
    ensures mark { IfOk result (λ mark. mark ≡ line_mark (seen_frame frame.now) at line) }
    ensures line { IfOk result IsLine }
{
    if !frame.options.lines {
        return Ok(None);
    }
    Ok(Some(LineMark::of(alloc, frame.names, at.file, line)?))
}

/// The automata of a block whose opener stands at `at`.
fn block_automata(
    alloc: Global,
    options: &Options,
    numbers: Numbers,
    at: Pos,
    before: Option<Model<'_>>,
    resolved: &Resolved,
) -> Result<Automata, Stop>
    requires makeable { CanBeMade options.now resolved.now }
    requires before { IfSome before (IsModel options.now) }
    ensures { MatchResult result
        (λ answer. AreMadeFor options.now resolved.now.scanners answer.autos × AreFaultless options.now resolved.now.scanners
        × AreCovered options.now numbers.piece resolved.now answer.cover.items)
        (StopsWithFault (IsFaultOfScanners options.now at resolved.now.scanners)) }
{
    let frame = BlockFrame {
        options,
        number: numbers.piece,
        at,
        acts: resolved.acts.as_slice(),
    };
    automata_of(alloc, &frame, before, resolved.scanners.as_slice())
}

/// The greatest number of groups of a rule, the whole match counted, or 0.
fn groups_in_rules(rules: &[Rule]) -> u32
    ensures { result ≡ groups_in_rules rules.now }
{
    let mut most = 0;
    for rule in rules {
        most = most.max(rule.groups);
    }
    most
}

/// The same of all rules of scanners.
fn groups_in_scanners(scanners: &[Scanner]) -> u32
    ensures { result ≡ groups_in_scanners scanners.now }
{
    let mut most = 0;
    for scanner in scanners {
        most = most.max(groups_in_rules(scanner.set.rules.as_slice()));
    }
    most
}

/// The greatest number of groups of a rule of a block's scanners, also of one that is never chosen; 0 without captures.
fn block_groups(resolved: &Resolved) -> u32
    ensures { result ≡ groups_in_scanners resolved.now.scanners }
{
    groups_in_scanners(resolved.scanners.as_slice())
}

/// What is made of a block's scanners.
#[derive(Drop)]
struct Scanned {
    kept: Option<Kept>,
    piece: Piece,
    checks: Repeats<CheckList>,
    warnings: Sequence<PlacedWarning>,
    cover: ByteText,
    groups: u32,
}

/// The piece of a block's scanners, whose opener stands at `at`, the checks of its automata, the warnings, and the text of the covering words;
/// the first scanner is kept.
///
/// A number over 2^62 counts as want of memory.
fn scanner_piece(
    alloc: Global,
    frame: &Frame<'_>,
    numbers: Numbers,
    at: Pos,
    line: Option<LineMark>,
    before: Option<Model<'_>>,
    resolved: Resolved,
) -> Result<Scanned, Stop>
    requires makeable { CanBeMade frame.now.options.now resolved }
    requires line { IsLine line }
    requires before { IfSome before (IsModel frame.now.options.now) }
    ensures { MatchResult result
        (λ answer. IsScannerPiece (seen_frame frame.now) numbers.piece numbers.state line resolved answer.piece answer.checks
        × AreWarned frame.now.options.now at resolved answer.warnings
        × AreCovered frame.now.options.now numbers.piece resolved answer.cover
        × (answer.groups ≡ groups_in_scanners resolved.scanners)
        × AreFaultless frame.now.options.now resolved.scanners
        × IfSome answer.kept (IsKept frame.now.options.now))
        (StopsWithFault (IsFaultOfScanners frame.now.options.now at resolved.scanners)) }
{
    let options = frame.options;
    let Automata { autos, cover } = block_automata(alloc, options, numbers, at, before, &resolved)?;
    if numbers.state > STATE_LIMIT {
        return Err(Stop::Memory);
    }
    let warnings = block_warnings(alloc, options, at, &resolved, autos.as_slice())?;
    let groups = block_groups(&resolved);
    let Generated { piece, scanners } = generate(
        alloc,
        resolved,
        autos.as_slice(),
        options,
        frame.names,
        numbers.piece,
        numbers.state,
        frame.own_switch,
        line,
    )?;
    let (first, checks) = taken_apart(alloc, autos)?;
    Ok(Scanned {
        kept: first_kept(scanners, first),
        piece,
        checks,
        warnings,
        cover: ByteText::from_vec(cover),
        groups,
    })
}

/// The number behind those of the states that a piece stores, if the first one has this number.
fn next_state(first_state: u64, piece: &Piece) -> Result<u64, Memory>
    requires { IfSome piece.now.head (λ head. head.states ≡ state_count piece.now.blocks) × IsSome piece.now.head }
    ensures { IfOk result (λ next. next ≡ first_state + state_count piece.now.blocks) }
{
    let Some(head) = &piece.head else {
        unreachable!()
    };
    first_state.checked_add(head.states).ok_or(Memory)
}

/// What is made of a block whose opener stands at `at`, and the number of the next state. The block's first scanner is kept.
fn make_block(
    alloc: Global,
    frame: &Frame<'_>,
    numbers: Numbers,
    at: Pos,
    line: u32,
    content: Content,
    kept: &mut Option<Kept>,
) -> Result<(Made, u64), Stop>
    requires makeable { HasMakeable frame.now.options.now content }
    requires kept { IfSome kept.old (IsKept frame.now.options.now) }
    ensures made { MatchResult result
        (λ answer. IsMadeOf (seen_frame frame.now) numbers.piece numbers.state answer.1 at line content answer.0
        × IsFaultlessContent frame.now.options.now content)
        (StopsWithFault (IsFaultOfContent frame.now.options.now at content)) }
    ensures kept { OnOk result (IfSome kept.new (IsKept frame.now.options.now)) }
{
    let line = line_mark(alloc, frame, at, line)?;
    match content {
        Content::Asks(directive) => {
            let made = Made::Bare {
                at,
                line,
                directive,
            };
            Ok((made, numbers.state))
        }
        Content::Scanners(resolved) => {
            let before = kept_model(kept);
            let Scanned {
                kept: first,
                piece,
                checks,
                warnings,
                cover,
                groups,
            } = scanner_piece(alloc, frame, numbers, at, line, before, resolved)?;
            let next = next_state(numbers.state, &piece)?;
            *kept = first;
            let made = Made::Scanners {
                piece,
                checks,
                warnings,
                cover,
                groups,
            };
            Ok((made, next))
        }
    }
}

/// What is made of the parts of a source. Pieces are numbered from 1, and the states that they store from 0.
///
/// It refuses the first scanner that has too many kernels, with `TooManyStates` at its block's opener, or whose covering words are asked for
/// and too long, with `CoverTooLong` there; `Memory` may be answered, also for a piece that would have more than 2^62 statements; no clause ties
/// it to a cause.
pub(crate) fn make(
    alloc: Global,
    frame: &Frame<'_>,
    parts: Sequence<Part>,
) -> Result<Sequence<Made>, Stop>
    requires makeable { All (IsMakeable frame.now.options.now) parts }
    requires few { length parts < 4294967295 }
    ensures { MatchResult result
        (λ made. AreMade (seen_frame frame.now) 1 0 parts made × IsScanningFault frame.now.options.now parts None × (length made ≡ length parts))
        (StopsByScanners frame.now.options.now parts) }
{
    let mut all = Sequence::new(alloc);
    let mut numbers = Numbers { piece: 1, state: 0 };
    let mut kept = None;
    for part in parts.into_vec() {
        match part {
            Part::Outside(text) => all.push(Made::Outside(text))?,
            Part::Block { at, line, content } => {
                let (made, next) = make_block(alloc, frame, numbers, at, line, content, &mut kept)?;
                all.push(made)?;
                numbers = Numbers {
                    piece: numbers.piece + 1,
                    state: next,
                };
            }
        }
    }
    Ok(all)
}
