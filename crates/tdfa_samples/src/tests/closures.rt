//! How long the automata of two rule lists of the greatest size take, and the closures of their starts (`bench/tnfa.sh`).
ghost use Rattle.std.specs.Prelude.{◌≡◌};
ghost use Rattle.lx_base.specs.declared.settings.Enc.TheVariants.{Utf8};
ghost use Rattle.lx_encode.specs.Graph.{numbered};
ghost use Rattle.lx_regex.specs.ClassLimits.{AllClassesFit};
ghost use Rattle.lx_regex.specs.Limits.{IsWithinLimits};
ghost use Rattle.lx_regex.specs.Pattern.{patterns_of, terms_of};
ghost use Rattle.lx_tnfa.specs.Tnfa.{IsPlace};

use super::automata::tagged;
use super::terms::{nested, tags_apart};
use super::timing::micros_since;
use lx_encode::Residual;
use lx_regex::RuleSet;
use lx_tnfa::{Place, Tnfa};
use std::alloc::Global;
use std::test::Fail;
use std::time::Instant;

/// The start of every automaton.
fn beginning() -> Place
    ensures { result ≡ record { part = 0; rest = numbered 0 } }
{
    Place {
        part: 0,
        rest: Residual(0),
    }
}

/// How many places the start reaches; none where memory is wanting.
fn reach_count(alloc: Global, t: &Tnfa) -> Option<usize>
    requires { IsPlace t.now (record { part = 0; rest = numbered 0 }) }
{
    match t.closure(alloc, &[beginning()]) {
        Ok(reaches) => Some(reaches.as_slice().len()),
        Err(_) => None,
    }
}

/// How many places the closure of the start reaches, and how many microseconds it takes.
fn time_closure(rt: &HostRuntime, t: &Tnfa) -> Result<(Option<usize>, u128), Fail>
    requires { IsPlace t.now (record { part = 0; rest = numbered 0 }) }
{
    let start = Instant::now(rt)?;
    let count = reach_count(rt.alloc(), t);
    Ok((count, micros_since(rt, start)?))
}

/// Prints how long an automaton took since a start, and how long the closure of its start takes, and tells how many places that reaches
/// and how many parts there are.
fn told(
    rt: &HostRuntime,
    name: &str,
    start: Instant,
    t: &Tnfa,
) -> Result<(Option<usize>, usize), Fail>
    requires { IsPlace t.now (record { part = 0; rest = numbered 0 }) }
{
    let micros = micros_since(rt, start)?;
    println!(rt; "{name}: {micros} us")?;
    let (count, micros) = time_closure(rt, t)?;
    println!(rt; "{name}_closure: {micros} us")?;
    Ok((count, t.part_count()))
}

/// Prints how long the automaton of rules takes, and the closure of its start, and tells how many places that reaches and how many
/// parts there are.
fn measured(rt: &HostRuntime, name: &str, set: &RuleSet) -> Result<(Option<usize>, usize), Fail>
    requires limits { IsWithinLimits set.now.rules }
    requires classes { AllClassesFit Utf8 (terms_of (patterns_of set.now.rules)) }
{
    let start = Instant::now(rt)?;
    let t = tagged(rt.alloc(), set)?;
    told(rt, name, start, &t)
}

/// Measures a rule list of the greatest size in which each of 3,968 moves unsets 127 tags (`bench/tnfa.sh`).
#[test]
fn time_of_many_tags(rt: HostRuntime) -> Result<(), Fail> {
    let set = tags_apart(rt.alloc())?;
    assert!(rt; measured(&rt, "many_tags", &set)? == (Some(1), 4001));
    Ok(())
}

/// Measures 2,000 alternations in one another (`bench/tnfa.sh`).
#[test]
fn time_of_nested_alternations(rt: HostRuntime) -> Result<(), Fail> {
    let set = nested(rt.alloc())?;
    assert!(rt; measured(&rt, "nested_alternations", &set)? == (Some(1), 4002));
    Ok(())
}
