//! Generated sources: their text, their compilation, and a run of their scanner.
ghost use Rattle.std.specs.Prelude.{◌≡◌, ℕ, ◌≤◌, ◌%◌, false, List, Some, None, IfOk, MatchResult, length};
ghost use Rattle.lx_compile.specs.declared.made.Made.{Made};
ghost use Rattle.lx_run.specs.Texts.{run_text};
ghost use Rattle.lx_source.specs.Sources.{source_options, source_text};
ghost use Rattle.lx_top.specs.Outside.{files_view, sink_view};
ghost use Rattle.lx_top.specs.Sources.{IsSourceOutput, IsSourceText, usual_units, words_of};
ghost use Rattle.lx_top.specs.Steps.{CompilesSource, HaltsScan, JobEnds};
ghost use Rattle.lx_top.specs.Emitted.{Scans};
ghost use Rattle.lx_ccode.specs.Validity.{IsValid};

use crate::delivery::deliver;
use crate::emitted::{MOST_BYTES, read_scanner};
use crate::endings::Halt;
use crate::summary::summary;
use lx_base::{
    EmptyPolicy, Enc, FileName, FileNames, Format, Job, Memory, Options, SurPolicy, append_parts,
};
use lx_ccode::Piece;
use lx_files::{Files, QuietFiles, QuietSink, Sink};
use lx_run::{RunEnd, run_over};
use std::alloc::Global;

/// The name under which a generated source is compiled.
const SOURCE_NAME: &str = "source.re";

/// How many units a window has, and how many a refill brings at most, where nothing else is asked for.
const USUAL_UNITS: u32 = 4096;

/// The source of so many rules: a word and its number, once to three times, and a numeral each.
fn source_text(alloc: Global, rules: u32) -> Result<Vec<u8>, Memory>
    ensures { IfOk result (λ text. text.items ≡ source_text rules) }
{
    let mut text = Vec::new(alloc);
    text.extend_from_slice(b"/*!re2c\nre2c:yyfill:enable = 0;\n")?;
    for number in 1..u64::from(rules) + 1 {
        let number = format!(in alloc; "{number}")?;
        append_parts(
            &mut text,
            &[b"\"w", number.as_bytes(), b"x\"{1,3} [0-9]+ { }\n"],
        )?;
    }
    text.extend_from_slice(b"* { }\n*/\n")?;
    Ok(text)
}

/// The words that its scanner is run over, one of each rule.
fn words_of(alloc: Global, rules: u32) -> Result<Vec<u8>, Memory>
    ensures { IfOk result (λ text. text.items ≡ words_of rules) }
{
    let mut text = Vec::new(alloc);
    for number in 1..u64::from(rules) + 1 {
        let number = format!(in alloc; "{number}")?;
        append_parts(&mut text, &[b"w", number.as_bytes(), b"x7"])?;
    }
    Ok(text)
}

/// What a generated source is compiled with: no line marks, and else what a command line asks for that names it alone.
fn source_options(alloc: Global) -> Result<Options, Memory>
    ensures { IfOk result (λ options. options ≡ source_options) }
{
    let file = FileName::from_string(String::from_str(alloc, SOURCE_NAME)?);
    Ok(Options {
        job: Job::Compile { file, to: None },
        format: Format::Two,
        lines: false,
        conds: false,
        states: false,
        tags: false,
        captures: false,
        posix: false,
        custom: false,
        warn: false,
        cover: false,
        enc: Enc::Byte,
        surrogates: SurPolicy::Ignore,
        empty: EmptyPolicy::MatchEmpty,
        dir: None,
    })
}

/// The output of a generated source, which has no fault.
fn source_output(alloc: Global, source: &[u8]) -> Result<Vec<u8>, Halt>
    ensures compiles { (rules : ℕ) → rules ≤ 200 → source.now ≡ source_text rules → CompilesSource rules result }
{
    let mut files = QuietFiles::new(alloc);
    files.add(SOURCE_NAME, source)?;
    let options = source_options(alloc)?;
    let mut names = FileNames::new(alloc);
    let compiled = lx_compile::compile(alloc, &mut files, &mut names, &options, SOURCE_NAME)?;
    Ok(compiled.output)
}

/// The first scanner of an output. That of a generated source has one, whose units are bytes.
fn scanner_of(alloc: Global, output: &[u8]) -> Result<Piece, Halt>
    ensures scans { MatchResult result (Scans output.now None) (HaltsScan output.now None) }
    ensures found { (rules : ℕ) (made : List Made) → rules ≤ 200 → IsSourceOutput rules made output.now →
        MatchResult result (λ piece. piece.unit ≡ 1) (λ halted. halted ≡ Halt.OutOfMemory) }
{
    if output.len() > MOST_BYTES {
        return Err(Halt::OutOfMemory);
    }
    read_scanner(alloc, output, None)
}

/// The lines of a run of a scanner over an input.
fn run_of(alloc: Global, piece: &Piece, input: Vec<u8>) -> Result<Vec<u8>, Memory>
    requires valid { IsValid piece.now }
    requires whole { length input.items % piece.now.unit ≡ 0 }
    ensures { IfOk result (λ text. text.items ≡ (run_text piece.now input.items usual_units usual_units).text) }
{
    let mut sink = QuietSink::new(alloc);
    match run_over(alloc, piece, input, USUAL_UNITS, USUAL_UNITS, &mut sink) {
        RunEnd::Done | RunEnd::WindowFull { .. } => Ok(Vec::from_slice(alloc, sink.bytes())?),
        RunEnd::PutFailed | RunEnd::Memory => Err(Memory),
    }
}

/// Generates the source of so many rules, compiles it, and runs its scanner over a word of each rule. Its output is given to the file, and what
/// is told of the run to the standard output. No such source has a fault.
pub(crate) fn run_source<F: Files, O: Sink>(
    alloc: Global,
    rules: u32,
    target: &str,
    files: &mut F,
    out: &mut O,
) -> Result<(), Halt>
    requires few { rules ≤ 200 }
    ensures ends { let files_before = files_view (F.held files.old) (F.faults files.old) (F.write_faults files.old) in
        let files_after = files_view (F.held files.new) (F.faults files.new) (F.write_faults files.new) in
        let before = sink_view (O.given out.old) (O.faults out.old) (O.wants out.old) in
        let after = sink_view (O.given out.new) (O.faults out.new) (O.wants out.new) in
        (made : List Made)
        × JobEnds false (λ fault. fault ≡ None) (Some target.now) (λ bytes text. IsSourceOutput rules made bytes × IsSourceText rules bytes text) files_before files_after before after result }
{
    let source = source_text(alloc, rules)?;
    let output = source_output(alloc, &source)?;
    let piece = scanner_of(alloc, &output)?;
    let words = words_of(alloc, rules)?;
    let run = run_of(alloc, &piece, words)?;
    let text = summary(alloc, source.len(), &run)?;
    deliver(files, out, Some(target), &output, &text)
}
