//! The covering words of the scanners of a source, and the text that tells them.
ghost use Rattle.std.specs.Prelude.{◌≡◌, ◌≤◌, ◌++◌, ℕ, All, List, None, IfOk, MatchResult, OnOk, length, sum_by};
ghost use Rattle.lx_base.specs.declared.faults.Fault.TheVariants.{CoverTooLong};
ghost use Rattle.lx_base.specs.declared.settings.Enc.{Enc as Encoding};
ghost use Rattle.lx_cover.specs.Cover.{IsCover, IsFirstSumOver};
ghost use Rattle.lx_cover.specs.Matches.{Tells};
ghost use Rattle.lx_cover.specs.declared.covering.TheConstants.{COVER_LIMIT};
ghost use Rattle.lx_gen.specs.Generated.{endings_by};
ghost use Rattle.lx_layout.specs.RuleEnds.{AreEndsIndexed, endings_of};
ghost use Rattle.lx_regex.specs.ClassLimits.{AllClassesFit};
ghost use Rattle.lx_regex.specs.Kernel.{IsWord};
ghost use Rattle.lx_regex.specs.Match.{Outcome};
ghost use Rattle.lx_regex.specs.Pattern.{Pattern, patterns_of, terms_of};
ghost use Rattle.lx_rules.specs.FitScanners.{IsFit};
ghost use Rattle.lx_rules.specs.Within.{IsScannerWithin};
ghost use Rattle.lx_rules.specs.declared.resolved.Act.{Act as act_type};
ghost use Rattle.lx_tdfa.specs.Building.{IsBuilt};
ghost use Rattle.lx_tnfa.specs.Tnfa.{IsTnfaOf};
ghost use Rattle.lx_compile.specs.Covering.{AreWordLines, IsCoverText, IsCoveredWhere, IsWordLine, cover_of, match_text};
ghost use Rattle.lx_compile.specs.Emittable.{IsMadeFor};
ghost use Rattle.lx_compile.specs.Options.{asks_for_cover};
ghost use Rattle.lx_compile.specs.ScannerFaults.{IsTooLong, StopsWithFault};

use crate::cover_lines::{append_heading, append_rule, append_word};
use crate::made::Made;
use lx_auto::Auto;
use lx_base::{Fault, Memory, Options, Pos, Stop, Word, append_parts};
use lx_cover::{CoverMatch, CoverStop, TagValue, Values, Words, cover, match_word};
use lx_gen::{Marks, rule_ends};
use lx_layout::{EndIndex, index_of};
use lx_rules::{Act, Scanner};
use lx_tnfa::Tnfa;
use std::alloc::Global;

/// What holds for all scanners of a block.
#[derive(Clone, Copy)]
pub(crate) struct BlockFrame<'a> {
    pub options: &'a Options,
    /// The number of the block's piece.
    pub number: u32,
    /// The place of the block's opener.
    pub at: Pos,
    /// What its rules do.
    pub acts: &'a [Act],
}

/// Whether covering words are asked for.
pub(crate) fn asks_for_cover(options: &Options) -> bool
    ensures { result ≡ asks_for_cover options.now }
{
    options.cover
}

/// The covering words of an automaton's rules, or the fault that they are too long for a block whose opener stands at `at`.
fn covering_words(alloc: Global, t: &Tnfa, at: Pos) -> Result<Words, Stop>
    requires { IsBuilt t.now }
    ensures { (enc : Encoding) (patterns : List Pattern) → IsTnfaOf enc patterns t.now → AllClassesFit enc (terms_of patterns)
        → MatchResult result (λ words. IsCover enc (terms_of patterns) words × (sum_by length words ≤ COVER_LIMIT))
        (StopsWithFault (λ fault. (sum : ℕ) × IsFirstSumOver enc (terms_of patterns) COVER_LIMIT sum × (fault ≡ CoverTooLong at sum))) }
{
    match cover(alloc, t) {
        Ok(words) => Ok(words),
        Err(CoverStop::Memory) => Err(Stop::Memory),
        Err(CoverStop::TooLong(sum)) => Err(Stop::Fault(Fault::CoverTooLong { at, sum })),
    }
}

/// Appends what a match gave, where the ends of rules stand in an index.
fn append_match(
    alloc: Global,
    text: &mut Vec<u8>,
    index: &EndIndex<'_>,
    found: CoverMatch,
    values: &[TagValue],
) -> Result<(), Memory>
    requires indexed { AreEndsIndexed index.now }
    ensures { (acts : List act_type) (outcome : Outcome) → Tells acts outcome found values.now
        → OnOk result (text.new.items ≡ text.old.items ++ match_text (endings_of index.now.ends.now) outcome) }
{
    match found {
        CoverMatch::Rule { number, cursor } => {
            append_rule(alloc, text, index, number, cursor, values)
        }
        CoverMatch::Jump { number, cursor } => {
            append_rule(alloc, text, index, number, cursor, values)
        }
        CoverMatch::NoRule { cursor } => {
            let cursor = format!(in alloc; "{cursor}")?;
            append_parts(text, &[b"none 0 ", cursor.as_bytes()])
        }
    }
}

/// A scanner with its automaton, by the options, and what its rules do.
#[derive(Clone, Copy)]
struct Matching<'a> {
    options: &'a Options,
    acts: &'a [Act],
    scanner: &'a Scanner,
    auto: &'a Auto,
}

/// Appends the line of a word.
fn append_line(
    alloc: Global,
    text: &mut Vec<u8>,
    index: &EndIndex<'_>,
    matching: &Matching<'_>,
    word: &Word,
    values: &mut Values,
) -> Result<(), Memory>
    requires indexed { AreEndsIndexed index.now }
    requires endings { endings_of index.now.ends.now ≡ endings_by None matching.now.acts.now matching.now.scanner.now.set.rules }
    requires within { IsScannerWithin matching.now.options.now.enc matching.now.scanner.now }
    requires automaton { IsMadeFor matching.now.options.now matching.now.scanner.now matching.now.auto.now }
    requires units { IsWord matching.now.options.now.enc (terms_of (patterns_of matching.now.scanner.now.set.rules)) word.now }
    ensures { OnOk result ((line : List ℕ) × IsWordLine matching.now.options.now matching.now.acts.now matching.now.scanner.now word.now line
        × (text.new.items ≡ text.old.items ++ line)) }
{
    let found = match_word(
        alloc,
        matching.scanner,
        matching.options.enc,
        matching.acts,
        matching.auto,
        word,
        values,
    )?;
    append_word(alloc, text, word.as_slice())?;
    append_parts(text, &[b" : "])?;
    append_match(alloc, text, index, found, values.as_slice())?;
    append_parts(text, &[b"\n"])
}

/// Appends the lines of words.
fn append_lines(
    alloc: Global,
    text: &mut Vec<u8>,
    index: &EndIndex<'_>,
    matching: &Matching<'_>,
    words: &[Word],
) -> Result<(), Memory>
    requires indexed { AreEndsIndexed index.now }
    requires endings { endings_of index.now.ends.now ≡ endings_by None matching.now.acts.now matching.now.scanner.now.set.rules }
    requires within { IsScannerWithin matching.now.options.now.enc matching.now.scanner.now }
    requires automaton { IsMadeFor matching.now.options.now matching.now.scanner.now matching.now.auto.now }
    requires units { All (IsWord matching.now.options.now.enc (terms_of (patterns_of matching.now.scanner.now.set.rules))) words.now }
    ensures { OnOk result ((lines : List ℕ) × AreWordLines matching.now.options.now matching.now.acts.now matching.now.scanner.now words.now lines
        × (text.new.items ≡ text.old.items ++ lines)) }
{
    let mut values = Values::new(alloc);
    for word in words {
        append_line(alloc, text, index, matching, word, &mut values)?;
    }
    Ok(())
}

/// Appends the text of a scanner's covering words.
fn append_words(
    alloc: Global,
    text: &mut Vec<u8>,
    number: u32,
    matching: &Matching<'_>,
    words: &[Word],
) -> Result<(), Memory>
    requires fit { IsFit (length matching.now.acts.now) matching.now.scanner.now }
    requires within { IsScannerWithin matching.now.options.now.enc matching.now.scanner.now }
    requires automaton { IsMadeFor matching.now.options.now matching.now.scanner.now matching.now.auto.now }
    requires cover { IsCover matching.now.options.now.enc (terms_of (patterns_of matching.now.scanner.now.set.rules)) words.now }
    ensures { OnOk result ((own : List ℕ) × IsCoverText matching.now.options.now matching.now.acts.now matching.now.scanner.now number own
        × (text.new.items ≡ text.old.items ++ own)) }
{
    let rules = matching.scanner.set.rules.as_slice();
    let ends = rule_ends(alloc, Marks { names: None }, rules, matching.acts)?;
    let index = index_of(alloc, &ends)?;
    append_heading(alloc, text, number, &matching.scanner.cond)?;
    append_lines(alloc, text, &index, matching, words)
}

/// Appends the text of a scanner's covering words, where they are asked for; or it answers the fault that they are too long.
pub(crate) fn append_cover(
    alloc: Global,
    frame: &BlockFrame<'_>,
    scanner: &Scanner,
    t: &Tnfa,
    auto: &Auto,
    text: &mut Vec<u8>,
) -> Result<(), Stop>
    requires fit { IsFit (length frame.now.acts.now) scanner.now }
    requires within { IsScannerWithin frame.now.options.now.enc scanner.now }
    requires built { IsTnfaOf frame.now.options.now.enc (patterns_of scanner.now.set.rules) t.now }
    requires automaton { IsMadeFor frame.now.options.now scanner.now auto.now }
    ensures { MatchResult result
        (λ _. ((sum : ℕ) → IsTooLong frame.now.options.now scanner.now sum → ⊥)
        × ((own : List ℕ) × IsCoveredWhere frame.now.options.now frame.now.acts.now scanner.now (asks_for_cover frame.now.options.now) frame.now.number own
        × (text.new.items ≡ text.old.items ++ own)))
        (StopsWithFault (λ fault. (sum : ℕ) × IsTooLong frame.now.options.now scanner.now sum × (fault ≡ CoverTooLong frame.now.at sum))) }
{
    if !asks_for_cover(frame.options) {
        return Ok(());
    }
    let options = frame.options;
    let words = covering_words(alloc, t, frame.at)?;
    let matching = Matching {
        options,
        acts: frame.acts,
        scanner,
        auto,
    };
    append_words(alloc, text, frame.number, &matching, words.as_slice())?;
    Ok(())
}

/// The text of all that is made: that of covering words.
pub(crate) fn cover_of(alloc: Global, made: &[Made]) -> Result<Vec<u8>, Memory>
    ensures { IfOk result (λ text. text.items ≡ cover_of made.now) }
{
    let mut text = Vec::new(alloc);
    for one in made {
        if let Made::Scanners { cover, .. } = one {
            text.extend_from_slice(cover.as_slice())?;
        }
    }
    Ok(text)
}
