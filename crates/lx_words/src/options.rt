//! The options that a line gives.
ghost use Rattle.std.specs.Prelude.{◌≡◌, IfOk};
ghost use Rattle.clap.specs.Words.{found_of, rows_of};
ghost use Rattle.lx_words.specs.Line.{value};
ghost use Rattle.lx_words.specs.Options as spec;

use crate::line::{has_flag, has_value, value};
use crate::numbers::number_within;
use crate::points::asks_for_three;
use clap::ArgMatches;
use lx_base::{EmptyPolicy, Enc, FileName, Format, Job, Memory, Options, SurPolicy};
use std::alloc::Global;

/// How many units a window has, and how many a refill adds, where nothing else is asked for.
const USUAL_UNITS: u32 = 4096;

fn encoding_of(line: &ArgMatches<'_>) -> Enc
    ensures { result ≡ spec.encoding_of (rows_of (found_of line.now)) }
{
    if has_flag(line, "utf-8") {
        Enc::Utf8
    } else if has_flag(line, "utf-16") {
        Enc::Utf16
    } else if has_flag(line, "utf-32") {
        Enc::Utf32
    } else if has_flag(line, "ucs-2") {
        Enc::Ucs2
    } else {
        Enc::Byte
    }
}

fn format_of(line: &ArgMatches<'_>) -> Format
    ensures { result ≡ spec.format_of (rows_of (found_of line.now)) }
{
    if asks_for_three(line) {
        Format::Three
    } else {
        Format::Two
    }
}

fn encoding_policy_named(text: &str) -> SurPolicy
    ensures { result ≡ spec.encoding_policy_named text.now }
{
    if text == "substitute" {
        SurPolicy::Substitute
    } else if text == "fail" {
        SurPolicy::Fail
    } else {
        SurPolicy::Ignore
    }
}

fn empty_policy_named(text: &str) -> EmptyPolicy
    ensures { result ≡ spec.empty_policy_named text.now }
{
    if text == "match-none" {
        EmptyPolicy::MatchNone
    } else if text == "error" {
        EmptyPolicy::Error
    } else {
        EmptyPolicy::MatchEmpty
    }
}

fn number_of(line: &ArgMatches<'_>, id: &str, least: u32, most: u32) -> Option<u32>
    ensures { result ≡ spec.number_of (rows_of (found_of line.now)) id.now least most }
{
    match value(line, id) {
        Some(text) => number_within(least, most, text),
        None => None,
    }
}

fn file_name(alloc: Global, name: &str) -> Result<FileName, Memory>
    ensures { IfOk result (λ file. file ≡ name.now) }
{
    Ok(FileName::from_string(String::from_str(alloc, name)?))
}

/// The name that an option has, where it stands in the line.
fn optional_name(alloc: Global, line: &ArgMatches<'_>, id: &str) -> Result<Option<FileName>, Memory>
    ensures { IfOk result (λ name. name ≡ value (rows_of (found_of line.now)) id.now) }
{
    match value(line, id) {
        Some(name) => Ok(Some(file_name(alloc, name)?)),
        None => Ok(None),
    }
}

/// The name that an option has, or the empty one.
fn name_of(alloc: Global, line: &ArgMatches<'_>, id: &str) -> Result<FileName, Memory>
    ensures { IfOk result (λ name. name ≡ spec.name_of (rows_of (found_of line.now)) id.now) }
{
    match value(line, id) {
        Some(name) => file_name(alloc, name),
        None => file_name(alloc, ""),
    }
}

fn job_of(alloc: Global, line: &ArgMatches<'_>) -> Result<Job, Memory>
    ensures { IfOk result (λ job. job ≡ spec.job_of (rows_of (found_of line.now))) }
{
    if let Some(n) = number_of(line, "x-source", 1, 200) {
        let to = name_of(alloc, line, "output")?;
        return Ok(Job::Source { n, to });
    }
    let file = name_of(alloc, line, "file")?;
    match optional_name(alloc, line, "x-run")? {
        Some(input) => Ok(Job::Run {
            input,
            emitted: file,
            block: number_of(line, "x-block", 1, u32::MAX),
            window: number_of(line, "x-window", 1, 1 << 20).unwrap_or(USUAL_UNITS),
            piece: number_of(line, "x-piece", 1, 1 << 20).unwrap_or(USUAL_UNITS),
        }),
        None => Ok(Job::Compile {
            file,
            to: optional_name(alloc, line, "output")?,
        }),
    }
}

/// The options that a line gives.
#[tactic(auto, unfolding(crate::specs::Options::options_of))]
pub fn options_of(alloc: Global, line: &ArgMatches<'_>) -> Result<Options, Memory>
    ensures { IfOk result (λ options. options ≡ spec.options_of (rows_of (found_of line.now))) }
{
    let surrogates = match value(line, "encoding-policy") {
        Some(text) => encoding_policy_named(text),
        None => SurPolicy::Ignore,
    };
    let empty = match value(line, "empty-class") {
        Some(text) => empty_policy_named(text),
        None => EmptyPolicy::MatchEmpty,
    };
    Ok(Options {
        job: job_of(alloc, line)?,
        format: format_of(line),
        lines: !has_flag(line, "no-debug-info"),
        conds: has_flag(line, "conditions"),
        states: has_flag(line, "storable-state"),
        tags: has_flag(line, "tags"),
        captures: has_flag(line, "captures"),
        posix: has_flag(line, "posix"),
        custom: has_value(line, "input"),
        warn: has_flag(line, "warnings"),
        cover: has_flag(line, "x-cover"),
        enc: encoding_of(line),
        surrogates,
        empty,
        dir: optional_name(alloc, line, "include")?,
    })
}
