//! The state of a kernel.
ghost use Rattle.std.specs.Prelude.{◌≡◌, ◌<◌, ◌≤◌, All, IfOk, List, MatchResult, None, OnOk, Some, length, map, option_map, slice_get};
ghost use Rattle.lx_auto.specs.Automaton.{AreApart};
ghost use Rattle.lx_tdfa.specs.Building.{greatest_of};
ghost use Rattle.lx_tdfa.specs.Edges.{AreEdgesBefore};
ghost use Rattle.lx_tdfa.specs.Making.{StopsBy};
ghost use Rattle.lx_tdfa.specs.Table.{is_first};
ghost use Rattle.lx_posix.specs.Closures.{HasWay, IsClosureReached, IsFoundIfSome, kept_behind, number_behind, onward_of};
ghost use Rattle.lx_posix.specs.Determining.{AreListed, Grows, IsEdgeMade, IsSourceOf, IsStateOf, TooManyUnder};
ghost use Rattle.lx_posix.specs.Finding.{IsSearchable};
ghost use Rattle.lx_posix.specs.KeptKernels.{places_in};
ghost use Rattle.lx_posix.specs.Spots.{AreSpotsIfSome, spots_to};
ghost use Rattle.lx_posix.specs.WayNumbers.{IsFound};
ghost use Rattle.lx_posix.specs.declared.kept.Kept.{Kept};

use crate::closures::{Closure, closure_of};
use crate::kept::Kept;
use crate::numbers::number;
use crate::search::{Found, LevelSearch};
use crate::spots::{Spot, begin, go_over};
use lx_auto::{Edge, State};
use lx_base::{Memory, Sequence, Stop};
use lx_tdfa::{Kernels, Source, Step, first_ending, last_unit, merged_cuts, next_steps, push_edge};
use lx_tnfa::{Place, Search, Visited};

/// Buffers for the work on one state after another.
pub(crate) struct Buffers {
    pub levels: LevelSearch,
    pub ends: Search,
    pub seen: Visited<Place>,
}

impl Drop for Buffers {
    fn drop(self) {
        let Self {
            levels: _,
            ends: _,
            seen: _,
        } = self;
    }
}

/// Units, from the least to the greatest one.
#[derive(Clone, Copy)]
struct Units {
    lo: u32,
    hi: u32,
}

/// What the states of an automaton under the POSIX order are made from.
#[derive(Clone, Copy)]
pub(crate) struct Making<'a> {
    pub source: Source<'a>,
}

impl<'a> Making<'a> {
    /// The number of a way with the one before it, if there is one. The spots go over from that one's to its own.
    fn number_behind(
        &self,
        closure: &Closure,
        spots: &mut Vec<Spot>,
        last: Option<&Found>,
        found: &Found,
    ) -> Result<u32, Memory>
        requires searchable { IsSearchable self.now.source.t.now closure.now.beginnings.items }
        requires last { IsFoundIfSome self.now.source.t.now closure.now.beginnings.items (option_map (λ last. last.now) last) }
        requires found { IsFound self.now.source.t.now closure.now.beginnings.items found.now }
        requires spots { AreSpotsIfSome self.now.source.t.now closure.now.beginnings.items (option_map (λ last. last.now) last) spots.old.items }
        ensures number { IfOk result (λ number. number ≡ number_behind self.now.source.t.now closure.now.beginnings.items (option_map (λ last. last.now) last.entry) found.now) }
        ensures spots { OnOk result (spots.new.items ≡ spots_to self.now.source.t.now closure.now.beginnings.items found.now) }
    {
        let t = self.source.t;
        let beginnings = closure.beginnings.as_slice();
        let Some(last) = last else {
            begin(t, spots, beginnings, found)?;
            return Ok(0);
        };
        let number = number(t, beginnings, spots.as_slice(), last, found);
        go_over(t, spots, beginnings, last, found)?;
        Ok(number)
    }

    /// The kernel to which steps lead.
    fn next_kernel(&self, closure: &Closure, steps: &[Step<'_>]) -> Result<Vec<Kept>, Memory>
        requires searchable { IsSearchable self.now.source.t.now closure.now.beginnings.items }
        requires founds { All (IsFound self.now.source.t.now closure.now.beginnings.items) closure.now.founds.items }
        requires indices { All (λ step. HasWay closure.now step.index) steps.now }
        ensures { IfOk result (λ kernel. kernel.items ≡ kept_behind self.now.source.t.now closure.now None (map (λ step. step.to) steps.now) (map (λ step. step.index) steps.now)) }
    {
        let mut kernel = Vec::new(self.source.alloc);
        let mut spots = Vec::new(self.source.alloc);
        let mut last = None;
        for step in steps {
            let found = &closure.founds[closure.targets.origins[step.index]];
            let number = self.number_behind(closure, &mut spots, last, found)?;
            kernel.push(Kept {
                place: step.to,
                depth: found.depth,
                number,
            })?;
            last = Some(found);
        }
        Ok(kernel)
    }

    /// The edge on units that all go on alike, if there is one; a kernel that is new becomes a state.
    fn edge(
        &self,
        kernels: &mut Kernels<Kept>,
        seen: &mut Visited<Place>,
        is_first: bool,
        closure: &Closure,
        units: Units,
    ) -> Result<Option<Edge>, Stop>
        requires source { IsSourceOf self.now.source }
        requires listed { AreListed self.now.source.t.now kernels.old }
        requires closure { IsClosureReached self.now.source.t.now is_first closure.now }
        requires unit { units.lo ≤ greatest_of self.now.source.t.now }
        ensures { MatchResult result (λ edge. Grows self.now.source.t.now kernels.old kernels.new
            × IsEdgeMade self.now.source.t.now kernels.new is_first closure.now units edge)
            (StopsBy self.now.source.at (TooManyUnder self.now.source.t.now)) }
    {
        let reaches = closure.targets.reaches.as_slice();
        let steps = next_steps(self.source.alloc, self.source.t, seen, reaches, units.lo)?;
        if steps.is_empty() {
            return Ok(None);
        }
        let to = kernels.add(self.next_kernel(closure, &steps)?, self.source.at)?;
        Ok(Some(Edge {
            lo: units.lo,
            hi: units.hi,
            ops: self.source.step_ops(is_first, &steps)?,
            to: to as u32,
        }))
    }

    /// The edges of a state, by its closure.
    fn edges(
        &self,
        kernels: &mut Kernels<Kept>,
        seen: &mut Visited<Place>,
        is_first: bool,
        closure: &Closure,
    ) -> Result<Sequence<Edge>, Stop>
        requires source { IsSourceOf self.now.source }
        requires listed { AreListed self.now.source.t.now kernels.old }
        requires closure { IsClosureReached self.now.source.t.now is_first closure.now }
        ensures { MatchResult result (λ edges. Grows self.now.source.t.now kernels.old kernels.new
            × AreEdgesBefore self.now.source.t.now (greatest_of self.now.source.t.now) kernels.new is_first (onward_of self.now.source.t.now closure.now None) None edges)
            (StopsBy self.now.source.at (TooManyUnder self.now.source.t.now)) }
    {
        let reaches = closure.targets.reaches.as_slice();
        let cuts = merged_cuts(self.source.alloc, self.source.t, reaches)?;
        let mut edges = Vec::new(self.source.alloc);
        for index in 0..cuts.len() {
            if let Some(hi) = last_unit(&cuts, index, self.source.t.greatest()) {
                let units = Units {
                    lo: cuts[index],
                    hi,
                };
                if let Some(edge) = self.edge(kernels, seen, is_first, closure, units)? {
                    push_edge(&mut edges, edge)?;
                }
            }
        }
        Ok(Sequence::from_vec(edges))
    }

    /// The places of a kernel.
    fn places(&self, kernel: &[Kept]) -> Result<Vec<Place>, Memory>
        ensures { IfOk result (λ places. places.items ≡ places_in kernel.now) }
    {
        let mut places = Vec::new(self.source.alloc);
        for kept in kernel {
            places.push(kept.place)?;
        }
        Ok(places)
    }

    /// The state of the kernel with this number.
    pub(crate) fn state(
        &self,
        kernels: &mut Kernels<Kept>,
        buffers: &mut Buffers,
        number: usize,
    ) -> Result<State, Stop>
        requires source { IsSourceOf self.now.source }
        requires listed { AreListed self.now.source.t.now kernels.old }
        requires there { number < length kernels.old }
        ensures { MatchResult result (λ state. Grows self.now.source.t.now kernels.old kernels.new
            × ((kernel : List Kept) → slice_get kernels.old number ≡ Some kernel
            → IsStateOf self.now.source.t.now kernels.new (is_first number) kernel state × AreApart state.edges))
            (StopsBy self.now.source.at (TooManyUnder self.now.source.t.now)) }
    {
        let alloc = self.source.alloc;
        let is_first = number == 0;
        let kernel = kernels.get(number);
        let places = self.places(kernel)?;
        let ends = self
            .source
            .t
            .closure_with(alloc, &mut buffers.ends, &places)?;
        let closure = closure_of(alloc, self.source.t, &mut buffers.levels, is_first, kernel)?;
        let ending = first_ending(ends.as_slice());
        Ok(State {
            edges: self.edges(kernels, &mut buffers.seen, is_first, &closure)?,
            accept: self.source.accept(is_first, ending)?,
            leave: self.source.leave(is_first, ending)?,
        })
    }
}
