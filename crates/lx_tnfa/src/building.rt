//! The states of expressions, built one behind another.
ghost use Rattle.std.specs.Prelude.{◌≡◌, ℕ, ◌+◌, ◌*◌, ◌<◌, ◌^◌, List, ◌∷◌, [], None, map, length, IfOk, OnOk};
ghost use Rattle.lx_regex.specs.Automaton as spec;
ghost use Rattle.lx_regex.specs.Automaton.{alternatives_table, copies_table, members_table, table};
ghost use Rattle.lx_regex.specs.Expr.{members_of, term_of};
ghost use Rattle.lx_regex.specs.Term.{copies, parts, parts_of_all};
ghost use Rattle.lx_tnfa.specs.Beginnings.{first_state};
ghost use Rattle.lx_tnfa.specs.Classes.{Adds, AreClasses};
ghost use Rattle.lx_tnfa.specs.Moves.{counted_size, shown_move};
ghost use Rattle.lx_tnfa.specs.Rows.{AreBuildable, Builds, HasRoom, IsBuildable, Represents};
ghost use Rattle.lx_tnfa.specs.Shapes.{HasShape, HaveShapes};

use crate::classes::Classes;
use crate::shape::Shape;
use crate::states::{Move, Repeat, State, iteration_moves, member_moves, one_move, repeat_of};
use lx_base::{Memory, Sequence};
use lx_regex::Expr;
use lx_regex::parts::copies;
use std::alloc::Global;

/// The states that are built so far, and the classes of their leaves.
#[derive(Drop)]
pub(crate) struct Building {
    pub states: Vec<State>,
    pub classes: Classes,
}

/// A part of a rule that has so many tags.
#[derive(Clone, Copy)]
pub(crate) struct Site {
    pub tags: u32,
    pub part: u32,
}

/// The state at the beginning of an expression.
fn beginning(
    alloc: Global,
    classes: &mut Classes,
    site: Site,
    expr: &Expr,
    shape: &Shape,
) -> Result<State, Memory>
    requires parts { site.part + parts (term_of site.tags expr.now) < 2 ^ 31 }
    requires room { length classes.old.list.items < 2 ^ 32 }
    requires are_classes { AreClasses classes.old.enc classes.old.list.items }
    requires term { IsBuildable classes.old.enc (term_of site.tags expr.now) }
    requires shape { HasShape (term_of site.tags expr.now) shape.now }
    ensures adds { OnOk result (Adds classes.old classes.new 1) }
    ensures are_classes { OnOk result (AreClasses classes.new.enc classes.new.list.items) }
    ensures held { IfOk result (Represents classes.new.list.items (first_state (term_of site.tags expr.now) site.part)) }
{
    let end = 2 * site.part + 1;
    match expr {
        Expr::Empty => Ok(State::Moves(one_move(alloc, end, None)?)),
        Expr::Class(set) => Ok(State::Class(classes.number_of(alloc, set)?)),
        Expr::AnyUnit => Ok(State::AnyUnit),
        Expr::Cat(members) => {
            let to = if members.is_empty() { end } else { end + 1 };
            Ok(State::Moves(one_move(alloc, to, None)?))
        }
        Expr::Alt(_) => {
            let ways = member_moves(alloc, site.part + 1, &shape.tags, &shape.members)?;
            Ok(State::Moves(ways))
        }
        Expr::Rep(_, low, high) => {
            let inner = &shape.members[0];
            let repeat = repeat_of(site.part, inner.parts, *low, *high);
            Ok(State::Moves(iteration_moves(alloc, repeat, 0, &shape.tags)?))
        }
        Expr::STag(number) | Expr::MTag(number) => {
            Ok(State::Moves(one_move(alloc, end, Some(*number))?))
        }
        Expr::Group(number, _) => {
            let opening = site.tags + 2 * *number;
            Ok(State::Moves(one_move(alloc, end + 1, Some(opening))?))
        }
    }
}

/// Appends the states of the members of a sequence, of which the first is this part and the last leads to this state.
#[cycle(build)]
fn build_members(
    alloc: Global,
    building: &mut Building,
    first: Site,
    last: u32,
    members: &[Expr],
    shapes: &[Shape],
) -> Result<(), Memory>
    requires room { HasRoom building.old first.part (parts_of_all (members_of (map (term_of first.tags) members.now))) }
    requires terms { AreBuildable building.old.classes.enc (members_of (map (term_of first.tags) members.now)) }
    requires shapes { HaveShapes (members_of (map (term_of first.tags) members.now)) shapes.now }
    ensures { OnOk result (Builds building.old building.new (members_table (members_of (map (term_of first.tags) members.now)) first.part last)) }
{
    let mut site = first;
    for (i, member) in members.iter().enumerate() {
        let shape = &shapes[i];
        let next = site.part + shape.parts;
        let to = if i + 1 < members.len() {
            2 * next
        } else {
            last
        };
        let exits = one_move(alloc, to, None)?;
        build(alloc, building, site, member, shape, exits)?;
        site.part = next;
    }
    Ok(())
}

/// Appends the states of the members of an alternation, of which the first is this part and each leads to this state.
#[cycle(build)]
fn build_alternatives(
    alloc: Global,
    building: &mut Building,
    first: Site,
    last: u32,
    members: &[Expr],
    shapes: &[Shape],
) -> Result<(), Memory>
    requires room { HasRoom building.old first.part (parts_of_all (members_of (map (term_of first.tags) members.now))) }
    requires terms { AreBuildable building.old.classes.enc (members_of (map (term_of first.tags) members.now)) }
    requires shapes { HaveShapes (members_of (map (term_of first.tags) members.now)) shapes.now }
    ensures { OnOk result (Builds building.old building.new (alternatives_table (members_of (map (term_of first.tags) members.now)) first.part last)) }
{
    let mut site = first;
    for (i, member) in members.iter().enumerate() {
        let shape = &shapes[i];
        let exits = one_move(alloc, last, None)?;
        build(alloc, building, site, member, shape, exits)?;
        site.part += shape.parts;
    }
    Ok(())
}

/// Appends the states of all copies of the body of a repetition.
#[cycle(build)]
fn build_copies(
    alloc: Global,
    building: &mut Building,
    tags: u32,
    repeat: Repeat,
    body: &Expr,
    shape: &Shape,
) -> Result<(), Memory>
    requires room { HasRoom building.old (repeat.part + 1) (copies repeat.low repeat.high * repeat.size) }
    requires size { repeat.size ≡ counted_size repeat.low repeat.high (term_of tags body.now) }
    requires term { IsBuildable building.old.classes.enc (term_of tags body.now) }
    requires shape { HasShape (term_of tags body.now) shape.now }
    ensures { OnOk result (Builds building.old building.new (copies_table (λ copy ways. table (term_of tags body.now) copy ways)
        repeat.part (term_of tags body.now) repeat.low repeat.high (copies repeat.low repeat.high) 0)) }
{
    for number in 0..copies(repeat.low, repeat.high) {
        let site = Site {
            tags,
            part: repeat.part + 1 + number * repeat.size,
        };
        let exits = iteration_moves(alloc, repeat, number + 1, &[])?;
        build(alloc, building, site, body, shape, exits)?;
    }
    Ok(())
}

/// Appends the states of an expression, from whose end these moves lead on.
#[cycle(build)]
pub(crate) fn build(
    alloc: Global,
    building: &mut Building,
    site: Site,
    expr: &Expr,
    shape: &Shape,
    exits: Sequence<Move>,
) -> Result<(), Memory>
    requires room { HasRoom building.old site.part (parts (term_of site.tags expr.now)) }
    requires term { IsBuildable building.old.classes.enc (term_of site.tags expr.now) }
    requires shape { HasShape (term_of site.tags expr.now) shape.now }
    ensures { OnOk result ((ways : List spec.Move) → exits ≡ map shown_move ways
        → Builds building.old building.new (table (term_of site.tags expr.now) site.part ways)) }
{
    let state = beginning(alloc, &mut building.classes, site, expr, shape)?;
    building.states.push(state)?;
    building.states.push(State::Moves(exits))?;
    let end = 2 * site.part + 1;
    let inside = Site {
        tags: site.tags,
        part: site.part + 1,
    };
    match expr {
        Expr::Cat(members) => build_members(alloc, building, inside, end, members, &shape.members),
        Expr::Alt(members) => build_alternatives(
            alloc,
            building,
            inside,
            end,
            members,
            &shape.members,
        ),
        Expr::Rep(body, low, high) => {
            let inner = &shape.members[0];
            let repeat = repeat_of(site.part, inner.parts, *low, *high);
            build_copies(alloc, building, site.tags, repeat, body, inner)
        }
        Expr::Group(number, body) => {
            let closing = site.tags + 2 * *number + 1;
            let ways = one_move(alloc, end, Some(closing))?;
            let inner = &shape.members[0];
            build(alloc, building, inside, body, inner, ways)
        }
        Expr::Empty | Expr::Class(_) | Expr::AnyUnit | Expr::STag(_) | Expr::MTag(_) => Ok(()),
    }
}
