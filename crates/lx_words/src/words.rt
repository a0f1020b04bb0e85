//! The reading of the command line.
ghost use Rattle.std.specs.Prelude.{◌≡◌, map, string_bytes, MatchResult, None, false};
ghost use Rattle.clap.specs.Words.{found_of, rows_of};
ghost use Rattle.lx_words.specs.Line.{is_refused, line_of};
ghost use Rattle.lx_words.specs.Options.{IsRefusal, StopsBy, options_of, refusal_of, words_fault};

use crate::command::words_command;
use crate::options::options_of;
use crate::points::is_wrong;
use clap::ArgMatches;
use clap::error::ErrorKind;
use lx_base::{Fault, Options, Stop};
use std::alloc::Global;

/// The words as the command reads them; `Usage` comes exactly where it refuses them.
fn read_line<'a>(alloc: Global, words: &'a [String]) -> Result<ArgMatches<'a>, Stop>
    ensures { let texts = map string_bytes words.entry.now in
        MatchResult result (λ line. (is_refused texts ≡ false) × (rows_of (found_of line) ≡ line_of texts)) (StopsBy (refusal_of texts)) }
{
    let command = words_command(alloc)?;
    match command.try_get_matches_from(words) {
        Ok(line) => Ok(line),
        Err(error) => Err(refused(error.kind())),
    }
}

/// Why the command does not read the words.
fn refused(kind: ErrorKind) -> Stop
    ensures { IsRefusal kind result }
{
    match kind {
        ErrorKind::OutOfMemory => Stop::Memory,
        _ => Stop::Fault(Fault::Usage),
    }
}

/// The options of a command line, by the words behind the program's name.
///
/// `Usage` comes exactly where the words are no line of the command (an option that there is not, one without its value
/// or with one too many, one with a value that stands twice, a second file), or a wrong one: a file is missing or too much,
/// two encodings or captures by two orders are asked for, a number or a policy is none or out of its limits, options of a run,
/// of a compilation and of a generated source are mixed, or a name would end a line or open a block where it is printed.
#[tactic(auto, unfolding(crate::specs::Options::words_fault))]
pub fn read_words(alloc: Global, words: &[String]) -> Result<Options, Stop>
    ensures { let texts = map string_bytes words.now in
        MatchResult result (λ options. (words_fault texts ≡ None) × (options ≡ options_of (line_of texts))) (StopsBy (words_fault texts)) }
{
    let line = read_line(alloc, words)?;
    if is_wrong(&line) {
        return Err(Stop::Fault(Fault::Usage));
    }
    Ok(options_of(alloc, &line)?)
}
