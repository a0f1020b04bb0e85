//! What states do, in numbers that can be compared.
ghost use Rattle.std.specs.List.{AllZip};
ghost use Rattle.std.specs.Prelude.{IfOk, OnOk};
ghost use Rattle.lx_auto.specs.Automaton.{IsAuto};
ghost use Rattle.lx_min.specs.Looks.{AreLooks};
ghost use Rattle.lx_min.specs.Numbers.{AreDistinct, IsLook, IsWay, Keeps};

use crate::accept_numbers::{AcceptNumbers, accept_key};
use crate::list_numbers::ListNumbers;
use lx_auto::{Auto, State};
use lx_base::Memory;
use std::alloc::Global;

/// An edge out of a state, where lists of operations have numbers.
#[derive(Clone, Copy)]
pub(crate) struct Way {
    /// The least unit.
    pub lo: u32,
    /// The greatest unit.
    pub hi: u32,
    /// The number of what happens where the state is left.
    pub leave: usize,
    /// The number of what happens on the edge.
    pub ops: usize,
    /// The state to which it leads.
    pub to: u32,
}

/// What a state does.
#[derive(Drop)]
pub(crate) struct Look {
    /// The number of what it accepts.
    pub accept: usize,
    /// Its edges, in order.
    pub ways: Vec<Way>,
}

/// The numbers of all that was met.
struct Numbers<'a> {
    lists: ListNumbers<'a>,
    accepts: AcceptNumbers<'a>,
}

impl Drop for Numbers<'_> {
    fn drop(self) {
        let Self {
            lists: _,
            accepts: _,
        } = self;
    }
}

/// The edges out of a state, where lists of operations have numbers.
fn ways_of<'a>(
    alloc: Global,
    lists: &mut ListNumbers<'a>,
    state: &'a State,
) -> Result<Vec<Way>, Memory>
    ensures ways { IfOk result (λ ways. AllZip (IsWay lists.new state.now.leave) state.now.edges ways.items) }
    ensures keeps { OnOk result (Keeps lists.old lists.new) }
    ensures distinct { OnOk result (AreDistinct lists.new) }
{
    let edges = state.edges.as_slice();
    let leave = lists.number(alloc, state.leave.as_slice())?;
    let mut ways = Vec::with_capacity(alloc, edges.len())?;
    for edge in edges {
        let ops = lists.number(alloc, edge.ops.as_slice())?;
        ways.push(Way {
            lo: edge.lo,
            hi: edge.hi,
            leave,
            ops,
            to: edge.to,
        })?;
    }
    Ok(ways)
}

/// The look of a state.
fn look_of<'a>(alloc: Global, numbers: &mut Numbers<'a>, state: &'a State) -> Result<Look, Memory>
    ensures look { IfOk result (IsLook numbers.new.lists numbers.new.accepts state.now) }
    ensures lists { OnOk result (Keeps numbers.old.lists numbers.new.lists × AreDistinct numbers.new.lists) }
    ensures accepts { OnOk result (Keeps numbers.old.accepts numbers.new.accepts × AreDistinct numbers.new.accepts) }
{
    let key = accept_key(alloc, &mut numbers.lists, &state.accept)?;
    let ways = ways_of(alloc, &mut numbers.lists, state)?;
    let accept = numbers.accepts.number(key)?;
    Ok(Look { accept, ways })
}

/// The looks of states.
fn looks_in<'a>(
    alloc: Global,
    numbers: &mut Numbers<'a>,
    states: &'a [State],
) -> Result<Vec<Look>, Memory>
    requires { AreDistinct numbers.old.lists × AreDistinct numbers.old.accepts }
    ensures looks { IfOk result (λ looks. AllZip (IsLook numbers.new.lists numbers.new.accepts) states.now looks.items) }
    ensures distinct { OnOk result (AreDistinct numbers.new.lists × AreDistinct numbers.new.accepts) }
{
    let mut looks = Vec::new(alloc);
    for state in states {
        looks.push(look_of(alloc, numbers, state)?)?;
    }
    Ok(looks)
}

/// The looks of the states of an automaton, by their numbers.
pub(crate) fn looks_of(alloc: Global, auto: &Auto) -> Result<Vec<Look>, Memory>
    requires { IsAuto auto.now }
    ensures { IfOk result (λ looks. AreLooks auto.now looks.items) }
{
    let mut numbers = Numbers {
        lists: ListNumbers::new(alloc),
        accepts: AcceptNumbers::new(alloc),
    };
    looks_in(alloc, &mut numbers, auto.states.as_slice())
}
