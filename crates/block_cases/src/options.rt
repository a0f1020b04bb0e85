//! The options of a case.

use case_reports::CaseError;
use lx_base::{EmptyPolicy, Enc, FileName, Format, Job, Options, SurPolicy};
use std::alloc::Global;

/// The options that hold where a case names none.
fn usual_options(alloc: Global) -> Options {
    Options {
        job: Job::Compile {
            file: FileName::from_string(String::new(alloc)),
            to: None,
        },
        format: Format::Two,
        lines: false,
        conds: false,
        states: false,
        tags: false,
        captures: false,
        posix: false,
        custom: false,
        warn: false,
        cover: false,
        enc: Enc::Byte,
        surrogates: SurPolicy::Ignore,
        empty: EmptyPolicy::MatchEmpty,
        dir: None,
    }
}

/// The options of some words.
pub fn read_options(alloc: Global, words: &str) -> Result<Options, CaseError> {
    let mut options = usual_options(alloc);
    for word in words.split_whitespace() {
        set_option(&mut options, word)?;
    }
    Ok(options)
}

fn set_option(options: &mut Options, word: &str) -> Result<(), CaseError> {
    match word {
        "-c" => options.conds = true,
        "-T" => options.tags = true,
        "-P" => options.posix = true,
        "--captures" => options.captures = true,
        "--input=custom" => options.custom = true,
        "--x-format=3" => options.format = Format::Three,
        _ => return set_choice(options, word),
    }
    Ok(())
}

/// Sets an encoding or a policy.
fn set_choice(options: &mut Options, word: &str) -> Result<(), CaseError> {
    match word {
        "-8" => options.enc = Enc::Utf8,
        "-x" => options.enc = Enc::Utf16,
        "-u" => options.enc = Enc::Utf32,
        "-w" => options.enc = Enc::Ucs2,
        "--empty-class=match-none" => options.empty = EmptyPolicy::MatchNone,
        "--empty-class=error" => options.empty = EmptyPolicy::Error,
        "--encoding-policy=substitute" => options.surrogates = SurPolicy::Substitute,
        "--encoding-policy=fail" => options.surrogates = SurPolicy::Fail,
        _ => return Err(CaseError::Malformed("no option")),
    }
    Ok(())
}
