//! Registers that do not interfere are shared.
ghost use Rattle.std.specs.Prelude.{◌≡◌, ℕ, ◌+◌, List, ◌∷◌, ◌<◌, length, map, slice_index, IfOk};
ghost use Rattle.lx_auto.specs.Automaton.{IsAuto};
ghost use Rattle.lx_auto.specs.Effects.{Names};
ghost use Rattle.lx_auto.specs.Live.{EachTargetIsRead};
ghost use Rattle.lx_auto.specs.SameRun.{HasSameRun};
ghost use Rattle.lx_regs.specs.Bounds.{IsBoundOf};
ghost use Rattle.lx_regs.specs.Colours.{IsSharing};
ghost use Rattle.lx_regs.specs.Graphs.{IsGraph, size_of};
ghost use Rattle.lx_regs.specs.IdleOps.{count_in};
ghost use Rattle.lx_regs.specs.Interference.{IsInterferenceOf};
ghost use Rattle.lx_regs.specs.Shapes.{KeepsShape};
ghost use Rattle.lx_regs.specs.SharedNames.{AreCounted, AreSharedBelow, names_of};
ghost use Rattle.lx_regs.specs.WrittenBeside.{AllMayInterfere};

use crate::copies::copies_of;
use crate::fitting::states_fit;
use crate::graphs::Graph;
use crate::held_graphs::HeldGraph;
use crate::interference::interference_of;
use crate::shared_names::SharedNames;
use crate::shares::shared_colours;
use lx_auto::Auto;
use lx_base::Memory;
use std::alloc::Global;

/// One more than the greatest of some numbers, or 0 where there is none. It takes no memory.
fn bound_of(numbers: &[u32]) -> u32
    requires { (place : ℕ) → place < length numbers.now → slice_index numbers.now place < 4294967295 }
    ensures { IsBoundOf numbers.now result }
{
    let mut bound = 0;
    for number in numbers {
        if bound <= *number {
            bound = *number + 1;
        }
    }
    bound
}

/// The names of m-registers, by the colours of those that are not m-register 0.
fn behind_zero(alloc: Global, colours: &[u32]) -> Result<Vec<u32>, Memory>
    requires { (place : ℕ) → place < length colours.now → slice_index colours.now place < 4294967294 }
    ensures { IfOk result (λ names. names.items ≡ 0 ∷ map (λ colour. colour + 1) colours.now) }
{
    let mut names = Vec::new(alloc);
    names.push(0)?;
    for colour in colours {
        names.push(*colour + 1)?;
    }
    Ok(names)
}

/// The names of m-registers, which share those of their copies where they can.
fn mreg_names(alloc: Global, interference: &Graph, copies: &Graph) -> Result<Vec<u32>, Memory>
    requires graph { IsGraph interference.now }
    requires small { size_of interference.now < 4294967295 }
    ensures { IfOk result (λ names. (colours : List ℕ) × IsSharing interference.now colours
        × (names.items ≡ 0 ∷ map (λ colour. colour + 1) colours)) }
{
    let colours = shared_colours(alloc, interference, copies)?;
    behind_zero(alloc, &colours)
}

/// The names of all registers, where it is known what interferes and what is copied.
fn names_by(
    alloc: Global,
    auto: &Auto,
    interference: &HeldGraph,
    copies: &HeldGraph,
) -> Result<SharedNames, Memory>
    requires formed { IsAuto auto.now }
    requires interference { IsInterferenceOf auto.now interference.now }
    ensures { IfOk result (AreSharedBelow auto.now) }
{
    let regs = shared_colours(alloc, &interference.regs, &copies.regs)?;
    let mregs = mreg_names(alloc, &interference.mregs, &copies.mregs)?;
    Ok(SharedNames { regs, mregs })
}

/// The same where it is known what interferes.
fn names_by_interference(
    alloc: Global,
    auto: &Auto,
    interference: &HeldGraph,
) -> Result<SharedNames, Memory>
    requires formed { IsAuto auto.now }
    requires interference { IsInterferenceOf auto.now interference.now }
    ensures { IfOk result (AreSharedBelow auto.now) }
{
    let copies = copies_of(alloc, auto)?;
    names_by(alloc, auto, interference, &copies)
}

/// Names for registers, which are shared by those that do not interfere: any two registers that have different ones interfere with
/// one another by some of those that share their names.
fn shared_names(alloc: Global, auto: &Auto) -> Result<SharedNames, Memory>
    requires { IsAuto auto.now }
    ensures { IfOk result (AreSharedBelow auto.now) }
{
    let interference = interference_of(alloc, auto)?;
    names_by_interference(alloc, auto, &interference)
}

/// How many registers and m-registers there are.
#[derive(Clone, Copy)]
pub(crate) struct Counts {
    /// How many registers the given automaton names at most.
    pub most_regs: u32,
    /// How many m-registers it names at most.
    pub most_mregs: u32,
    /// How many names there are for them.
    pub regs: u32,
    /// How many names there are for m-registers, m-register 0 among them.
    pub mregs: u32,
}

/// No registers where none is named. It takes no memory.
fn without_regs(auto: &Auto, counts: Counts) -> Counts
    ensures { (names : Names) → AreCounted auto.now names counts → AreCounted auto.now names result }
{
    if !states_fit(auto.states.as_slice(), 0, counts.most_mregs) {
        return counts;
    }
    Counts {
        most_regs: 0,
        most_mregs: counts.most_mregs,
        regs: 0,
        mregs: counts.mregs,
    }
}

/// M-register 0 alone where no other is named. It takes no memory.
fn without_mregs(auto: &Auto, counts: Counts) -> Counts
    ensures { (names : Names) → AreCounted auto.now names counts → AreCounted auto.now names result }
{
    if !states_fit(auto.states.as_slice(), counts.most_regs, 1) {
        return counts;
    }
    Counts {
        most_regs: counts.most_regs,
        most_mregs: 1,
        regs: counts.regs,
        mregs: 1,
    }
}

/// How many registers and m-registers the automaton has by these names. It takes no memory.
fn counts_of(auto: &Auto, names: &SharedNames) -> Counts
    requires formed { IsAuto auto.now }
    requires shared { AreSharedBelow auto.now names.now }
    ensures { AreCounted auto.now (names_of names.now) result }
{
    let counts = Counts {
        most_regs: auto.regs,
        most_mregs: auto.mregs,
        regs: bound_of(&names.regs),
        mregs: bound_of(&names.mregs),
    };
    let counts = without_regs(auto, counts);
    without_mregs(auto, counts)
}

/// The automaton in which registers that do not interfere are one, as far as they go: of any two registers of one sort that are left a list
/// writes the one while the other is live, be it that it copies it to itself. A register shares that of its copies where it can.
pub(crate) fn share_registers(alloc: Global, auto: Auto) -> Result<Auto, Memory>
    requires { IsAuto auto }
    ensures formed { IfOk result IsAuto }
    ensures run { IfOk result (λ answer. HasSameRun answer auto) }
    ensures apart { IfOk result AllMayInterfere }
    ensures read { EachTargetIsRead auto → IfOk result EachTargetIsRead }
    ensures kept { IfOk result (λ answer. KeepsShape auto answer) }
    ensures count { IfOk result (λ answer. count_in answer.states ≡ count_in auto.states) }
{
    let names = shared_names(alloc, &auto)?;
    let counts = counts_of(&auto, &names);
    names.renamed_auto(alloc, &auto, counts.regs, counts.mregs)
}
