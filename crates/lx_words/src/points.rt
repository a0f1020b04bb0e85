//! Lines that the command reads, and that are wrong all the same.
ghost use Rattle.std.specs.Prelude.{◌≡◌};
ghost use Rattle.clap.specs.Words.{found_of, rows_of};
ghost use Rattle.lx_words.specs.Points as point;

use crate::line::{has_flag, has_value, value};
use crate::numbers::number_within;
use clap::ArgMatches;

fn has_wrong_number(line: &ArgMatches<'_>, id: &str, least: u32, most: u32) -> bool
    ensures { result ≡ point.has_wrong_number (rows_of (found_of line.now)) id.now least most }
{
    match value(line, id) {
        Some(text) => number_within(least, most, text).is_none(),
        None => false,
    }
}

fn has_wrong_numbers(line: &ArgMatches<'_>) -> bool
    ensures { result ≡ point.has_wrong_numbers (rows_of (found_of line.now)) }
{
    has_wrong_number(line, "x-block", 1, u32::MAX)
        || has_wrong_number(line, "x-window", 1, 1 << 20)
        || has_wrong_number(line, "x-piece", 1, 1 << 20)
        || has_wrong_number(line, "x-source", 1, 200)
}

fn misses_file(line: &ArgMatches<'_>) -> bool
    ensures { result ≡ point.misses_file (rows_of (found_of line.now)) }
{
    if has_value(line, "x-source") {
        has_value(line, "file")
    } else {
        !has_value(line, "file")
    }
}

/// How many encodings the line asks for.
fn encoding_count(line: &ArgMatches<'_>) -> u32
    ensures { result ≡ point.encoding_count (rows_of (found_of line.now)) }
{
    u32::from(has_flag(line, "utf-8"))
        + u32::from(has_flag(line, "utf-16"))
        + u32::from(has_flag(line, "utf-32"))
        + u32::from(has_flag(line, "ucs-2"))
}

/// Whether the line asks for captures by both orders.
fn mixes_captures(line: &ArgMatches<'_>) -> bool
    ensures { result ≡ point.mixes_captures (rows_of (found_of line.now)) }
{
    has_flag(line, "captures") && has_flag(line, "posix")
}

fn is_encoding_policy(text: &str) -> bool
    ensures { result ≡ point.is_encoding_policy text.now }
{
    text == "ignore" || text == "substitute" || text == "fail"
}

fn is_empty_policy(text: &str) -> bool
    ensures { result ≡ point.is_empty_policy text.now }
{
    text == "match-empty" || text == "match-none" || text == "error"
}

fn has_wrong_policy(line: &ArgMatches<'_>) -> bool
    ensures { result ≡ point.has_wrong_policy (rows_of (found_of line.now)) }
{
    let encoding = match value(line, "encoding-policy") {
        Some(text) => !is_encoding_policy(text),
        None => false,
    };
    let empty = match value(line, "empty-class") {
        Some(text) => !is_empty_policy(text),
        None => false,
    };
    encoding || empty
}

fn has_wrong_input(line: &ArgMatches<'_>) -> bool
    ensures { result ≡ point.has_wrong_input (rows_of (found_of line.now)) }
{
    match value(line, "input") {
        Some(text) => text != "custom",
        None => false,
    }
}

fn is_format(text: &str) -> bool
    ensures { result ≡ point.is_format text.now }
{
    text == "2" || text == "3"
}

fn has_wrong_format(line: &ArgMatches<'_>) -> bool
    ensures { result ≡ point.has_wrong_format (rows_of (found_of line.now)) }
{
    match value(line, "x-format") {
        Some(text) => !is_format(text),
        None => false,
    }
}

/// Whether the line asks for text of format 3.
pub(crate) fn asks_for_three(line: &ArgMatches<'_>) -> bool
    ensures { result ≡ point.asks_for_three (rows_of (found_of line.now)) }
{
    match value(line, "x-format") {
        Some(text) => text == "3",
        None => false,
    }
}

fn says_how_to_run(line: &ArgMatches<'_>) -> bool
    ensures { result ≡ point.says_how_to_run (rows_of (found_of line.now)) }
{
    has_value(line, "x-block") || has_value(line, "x-window") || has_value(line, "x-piece")
}

fn says_how_to_compile(line: &ArgMatches<'_>) -> bool
    ensures { result ≡ point.says_how_to_compile (rows_of (found_of line.now)) }
{
    has_flag(line, "no-debug-info")
        || has_flag(line, "conditions")
        || has_flag(line, "storable-state")
        || has_flag(line, "reusable")
        || has_flag(line, "tags")
        || has_flag(line, "nested-ifs")
        || has_flag(line, "captures")
        || has_flag(line, "posix")
        || has_flag(line, "warnings")
        || has_flag(line, "x-cover")
        || encoding_count(line) > 0
        || has_value(line, "include")
        || has_value(line, "encoding-policy")
        || has_value(line, "empty-class")
        || has_value(line, "input")
        || has_value(line, "x-format")
}

fn mixes_run(line: &ArgMatches<'_>) -> bool
    ensures { result ≡ point.mixes_run (rows_of (found_of line.now)) }
{
    if has_value(line, "x-run") {
        says_how_to_compile(line) || has_value(line, "output") || has_value(line, "x-source")
    } else {
        says_how_to_run(line)
    }
}

fn mixes_source(line: &ArgMatches<'_>) -> bool
    ensures { result ≡ point.mixes_source (rows_of (found_of line.now)) }
{
    has_value(line, "x-source")
        && (!has_value(line, "output") || says_how_to_compile(line) || has_value(line, "x-run"))
}

/// Whether a line ends in the text, or a block opens there.
fn is_odd_name(text: &[u8]) -> bool
    ensures { result ≡ point.is_odd_name text.now }
{
    let mut rest = text;
    while let Some((letter, tail)) = rest.split_first() {
        if *letter == b'\n' || *letter == b'\r' || rest.starts_with(b"/*!") {
            return true;
        }
        rest = tail;
    }
    false
}

fn has_odd_name(line: &ArgMatches<'_>, id: &str) -> bool
    ensures { result ≡ point.has_odd_name (rows_of (found_of line.now)) id.now }
{
    match value(line, id) {
        Some(name) => is_odd_name(name.as_bytes()),
        None => false,
    }
}

/// Whether the output is named in what is printed, by `#line` in text of format 3.
fn prints_output(line: &ArgMatches<'_>) -> bool
    ensures { result ≡ point.prints_output (rows_of (found_of line.now)) }
{
    asks_for_three(line) && !has_flag(line, "no-debug-info") && !has_flag(line, "x-cover")
}

/// Whether it is named so, and a line would end in the name or a block open there.
fn has_odd_output(line: &ArgMatches<'_>) -> bool
    ensures { result ≡ point.has_odd_output (rows_of (found_of line.now)) }
{
    prints_output(line) && has_odd_name(line, "output")
}

/// Whether a line is wrong that the command reads.
pub fn is_wrong(line: &ArgMatches<'_>) -> bool
    ensures { result ≡ point.is_wrong (rows_of (found_of line.now)) }
{
    misses_file(line)
        || encoding_count(line) > 1
        || mixes_captures(line)
        || has_wrong_numbers(line)
        || has_wrong_policy(line)
        || has_wrong_input(line)
        || has_wrong_format(line)
        || mixes_run(line)
        || mixes_source(line)
        || has_odd_name(line, "file")
        || has_odd_name(line, "x-run")
        || has_odd_name(line, "include")
        || has_odd_output(line)
}
