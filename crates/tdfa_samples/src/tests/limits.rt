//! The limits on states and on their places, and how long it takes up to these and beyond (`bench/tdfa.sh`).
ghost use Rattle.std.specs.Prelude.{◌≡◌};
ghost use Rattle.std.specs.List.{AllByRecursion};
ghost use Rattle.lx_base.specs.declared.settings.Enc.TheVariants.{Utf8};
ghost use Rattle.lx_rules.specs.Within.{IsScannerWithin};

use super::automata::{auto_of, place};
use super::blocks::resolved;
use super::timing::micros_since;
use lx_base::{Fault, Memory, Stop};
use lx_rules::Scanner;
use std::alloc::Global;
use std::test::Fail;
use std::time::Instant;

/// Whether it stops by the fault of too many states, at the place that was given.
fn is_refusal(stop: &Stop) -> bool {
    match stop {
        Stop::Fault(Fault::TooManyStates { at }) => *at == place(),
        _ => false,
    }
}

/// How many states the automaton of the first scanner has: none where it has too many, and 0 where there is no automaton.
fn state_count(alloc: Global, scanners: &[Scanner]) -> Option<usize>
    requires { AllByRecursion (IsScannerWithin Utf8) scanners.now }
{
    let Some(scanner) = scanners.first() else {
        return Some(0);
    };
    match auto_of(alloc, &scanner.set) {
        Ok(auto) => Some(auto.states.as_slice().len()),
        Err(stop) if is_refusal(&stop) => None,
        Err(_) => Some(0),
    }
}

/// How many states the automaton of the first scanner has, and how many microseconds it takes with the one that it is made from.
fn time_states(rt: &HostRuntime, scanners: &[Scanner]) -> Result<(Option<usize>, u128), Fail>
    requires { AllByRecursion (IsScannerWithin Utf8) scanners.now }
{
    let start = Instant::now(rt)?;
    let count = state_count(rt.alloc(), scanners);
    Ok((count, micros_since(rt, start)?))
}

/// The same of the rules of a body; 0 states where it has a fault.
fn measured(rt: &HostRuntime, body: &str) -> Result<(Option<usize>, u128), Fail> {
    match resolved(rt.alloc(), body) {
        Some(resolved) => time_states(rt, resolved.scanners.as_slice()),
        None => Ok((Some(0), 0)),
    }
}

/// Prints how long the automaton of a body's rules takes, and tells how many states it has.
fn timed(rt: &HostRuntime, name: &str, body: &str) -> Result<Option<usize>, Fail> {
    let (count, micros) = measured(rt, body)?;
    println!(rt; "{name}: {micros} us")?;
    Ok(count)
}

/// A lexer of 40 rules like those of C: keywords, operators, names, numbers, strings, comments, space and any unit.
const LEXER: &str =
    "\"break\" { } \"case\" { } \"char\" { } \"const\" { } \"continue\" { } \"default\" { } \"do\" { } \"double\" { } \
    \"else\" { } \"enum\" { } \"extern\" { } \"float\" { } \"for\" { } \"goto\" { } \"if\" { } \"int\" { } \"long\" { } \"return\" { } \
    \"sizeof\" { } \"static\" { } \"struct\" { } \"switch\" { } \"while\" { } \"==\" { } \"<=\" { } \">=\" { } \"!=\" { } \"&&\" { } \
    \"||\" { } \"++\" { } \"--\" { } \"<<=\" { } \">>=\" { } [(-/] { } [a-zA-Z_] [a-zA-Z_0-9]* { } [0-9]+ (\".\" [0-9]+)? { } \
    [\"] ([^\"\\\\] | \"\\\\\" [ -~])* [\"] { } \"/*\" ([^*] | \"*\"+ [^*/])* \"*\"+ \"/\" { } [\\t- ]+ { } * { }";

#[test]
fn time_of_a_lexer(rt: HostRuntime) -> Result<(), Fail> {
    let count = timed(&rt, "lexer", LEXER)?;
    assert!(rt; count > Some(0));
    Ok(())
}

/// Behind a word the places are told by which of its last n + 1 letters are `a`: with the start there are 1 + 2^(n + 1) lists of
/// places.
#[test]
fn time_of_many_states(rt: HostRuntime) -> Result<(), Fail> {
    let count = timed(&rt, "states", "[ab]* \"a\" [ab]{10} { }")?;
    assert!(rt; count == Some(2049));
    let refused = timed(&rt, "states_refused", "[ab]* \"a\" [ab]{11} { }")?;
    assert!(rt; refused.is_none());
    Ok(())
}

/// The rule of a string of so many letters.
fn string(alloc: Global, count: usize) -> Result<String, Memory> {
    let mut body = String::from_str(alloc, "\"")?;
    for _ in 0..count {
        body.push_str("a")?;
    }
    body.push_str("\" { }")?;
    Ok(body)
}

/// A string has a list of places for each of its fronts.
#[test]
fn time_of_a_string(rt: HostRuntime) -> Result<(), Fail> {
    let count = timed(&rt, "string", &string(rt.alloc(), 4095)?)?;
    assert!(rt; count == Some(4096));
    let refused = timed(&rt, "string_refused", &string(rt.alloc(), 4096)?)?;
    assert!(rt; refused.is_none());
    Ok(())
}

/// Behind k of `a`, from 1 to n, the n + 1 - k places behind the letters from the k-th on are reached, and behind none there is the
/// start: 1 + n (n + 1) / 2 places in all. For n = 1447 these are 1,047,629, and for n = 1448 they are 1,049,077. The limit is
/// 1,048,576.
#[test]
fn time_of_many_places(rt: HostRuntime) -> Result<(), Fail> {
    let count = timed(&rt, "places", "\"a\"?{1447} { }")?;
    assert!(rt; count == Some(1448));
    let refused = timed(&rt, "places_refused", "\"a\"?{1448} { }")?;
    assert!(rt; refused.is_none());
    Ok(())
}
