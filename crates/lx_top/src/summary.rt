//! What is told of a run of the scanner of a generated source.
ghost use Rattle.std.specs.Prelude.{◌≡◌, ◌≢◌, ◌<◌, ◌≤◌, [], ◌∷◌, drop, length, take, IfOk};
ghost use Rattle.lx_top.specs.Sources.{last_of, lines_of, rule_lines, summary};

use lx_base::letters::begins_with;
use lx_base::{Memory, append_parts};
use std::alloc::Global;

/// The lines of a run that are told.
#[derive(Clone, Copy)]
struct RunLines<'a> {
    /// How many lines tell of a rule.
    matches: usize,
    /// The last one of them.
    last_match: &'a [u8],
    /// The last line.
    last: &'a [u8],
}

/// How many bytes the first line of a text has, with its line feed.
fn line_length(text: &[u8]) -> usize
    ensures within { result ≤ length text.now }
    ensures progress { text.now ≢ [] → 0 < result }
    ensures first { text.now ≢ [] → lines_of text.now ≡ take result text.now ∷ lines_of (drop result text.now) }
{
    for (place, letter) in text.iter().enumerate() {
        if *letter == b'\n' {
            return place + 1;
        }
    }
    text.len()
}

/// The lines of a run that are told.
fn run_lines(run: &[u8]) -> RunLines<'_>
    ensures matches { result.matches ≡ length (rule_lines run.now) }
    ensures last_match { result.last_match.now ≡ last_of (rule_lines run.now) }
    ensures last { result.last.now ≡ last_of (lines_of run.now) }
{
    let mut lines = RunLines {
        matches: 0,
        last_match: b"",
        last: b"",
    };
    let mut rest = run;
    while !rest.is_empty() {
        let (line, behind) = rest.split_at(line_length(rest));
        if begins_with(line, b"rule ") {
            lines.matches += 1;
            lines.last_match = line;
        }
        lines.last = line;
        rest = behind;
    }
    lines
}

/// The size of a source, how many matches a run of its scanner has, the line of the last one, and the line that ends the run.
pub(crate) fn summary(alloc: Global, size: usize, run: &[u8]) -> Result<Vec<u8>, Memory>
    ensures { IfOk result (λ text. text.items ≡ summary size run.now) }
{
    let lines = run_lines(run);
    let mut text = Vec::new(alloc);
    let size = format!(in alloc; "{size}")?;
    let matches = format!(in alloc; "{}", lines.matches)?;
    append_parts(
        &mut text,
        &[
            b"source ",
            size.as_bytes(),
            b"\nmatches ",
            matches.as_bytes(),
            b"\n",
            lines.last_match,
            lines.last,
        ],
    )?;
    Ok(text)
}
