//! The values to which registers go: each value of what is accepted somewhere has one name at all states, and what goes to such a
//! value later on does best to be there already.
use crate::alike::Alike;
use crate::flows::Flows;
use crate::name_tables::NameTable;
use crate::order::Met;
use crate::ways::{Links, Way, ways_of};
use indexmap::IndexMap;
use lx_auto::{Auto, Held};
use lx_base::Memory;
use std::alloc::Global;

/// The names of values at all states, and for slots the names of values to which they go.
pub(crate) struct Hints {
    /// The names of values.
    pub(crate) table: NameTable,
    /// The names of values that are alike, by the number of these.
    named: IndexMap<usize, u32>,
    /// From where on registers and m-registers have no name for all states.
    pub(crate) free_regs: u32,
    pub(crate) free_mregs: u32,
    /// The value to which each slot goes, by its name, if it is known.
    pub(crate) of: Vec<Option<Held>>,
    /// In which turn that became known of each slot: earlier, the fewer steps there are to the value. No turn is 0.
    turns: Vec<usize>,
    /// The turns so far.
    turn: usize,
}

impl Drop for Hints {
    fn drop(self) {
        let Self {
            table: _,
            named: _,
            free_regs: _,
            free_mregs: _,
            of: _,
            turns: _,
            turn: _,
        } = self;
    }
}

/// What is kept at a place, if something is.
pub(crate) fn held_at(helds: &[Option<Held>], place: usize) -> Option<Held> {
    match helds.get(place) {
        Some(held) => *held,
        None => None,
    }
}

impl Hints {
    /// A new name for a register at all states.
    fn new_name(&mut self, held: Held) -> u32 {
        match held {
            Held::Reg(_) => {
                let name = self.free_regs;
                self.free_regs = name.saturating_add(1);
                name
            }
            Held::MReg(_) => {
                let name = self.free_mregs;
                self.free_mregs = name.saturating_add(1);
                name
            }
        }
    }

    /// The names.
    pub(crate) fn into_table(self) -> NameTable {
        let Self {
            table,
            named: _,
            free_regs: _,
            free_mregs: _,
            of: _,
            turns: _,
            turn: _,
        } = self;
        table
    }

    /// Gives a register its name for all states, if it has none yet: that of one that is alike, or a new one.
    fn fix(&mut self, held: Held, alike: &Alike) -> Result<(), Memory> {
        if self.table.fixed(held).is_some() {
            return Ok(());
        }
        let number = alike.number(held);
        if let Some(name) = self.named.get(&number) {
            return self.table.fix(held, *name);
        }
        let name = self.new_name(held);
        self.named.insert(number, name)?;
        self.table.fix(held, name)
    }

    /// Gives the values of what is accepted somewhere their names for all states. M-register 0, which is never written, has a name of its
    /// own.
    fn fix_values(&mut self, given: &Auto, alike: &Alike) -> Result<(), Memory> {
        let empty = Held::MReg(0);
        let name = self.new_name(empty);
        self.table.fix(empty, name)?;
        for state in given.states.as_slice() {
            if let Some(accept) = &state.accept {
                self.fix_all(accept.values.as_slice(), alike)?;
            }
        }
        Ok(())
    }

    /// The same of a list.
    fn fix_all(&mut self, values: &[Held], alike: &Alike) -> Result<(), Memory> {
        for value in values {
            self.fix(*value, alike)?;
        }
        Ok(())
    }

    /// The value to which a slot goes, or that is held there, by its name.
    pub(crate) fn hint(&self, flows: &Flows, place: usize) -> Option<Held> {
        let fixed = match flows.slots.get(place) {
            Some(slot) => self.table.fixed(slot.held),
            None => None,
        };
        match fixed {
            Some(name) => Some(name),
            None => held_at(self.of.as_slice(), place),
        }
    }

    /// Whether it is known to which value a slot goes, by what comes from it.
    fn is_known(&self, place: usize) -> bool {
        held_at(self.of.as_slice(), place).is_some()
    }

    /// What comes to a slot with a hint gives one to the slot from which it comes, if that has none. The answer is whether it does.
    fn hint_back(&mut self, flows: &Flows, way: Way) -> bool {
        let hint = self.hint(flows, way.target);
        if let Some(kept) = self.of.get_mut(way.source)
            && kept.is_none()
            && hint.is_some()
        {
            *kept = hint;
            self.note_turn(way.source);
            return true;
        }
        false
    }

    /// Notes that it is known now to which value a slot goes.
    fn note_turn(&mut self, place: usize) {
        self.turn = self.turn.saturating_add(1);
        if let Some(kept) = self.turns.get_mut(place) {
            *kept = self.turn;
        }
    }

    /// In which turn it became known to which value a slot goes; 0 where it is not known.
    pub(crate) fn turn_of(&self, place: usize) -> usize {
        match self.turns.get(place) {
            Some(turn) => *turn,
            None => 0,
        }
    }

    /// The same of all ways, each once.
    fn hint_ways(&mut self, flows: &Flows, ways: &[Way]) {
        for way in ways {
            let _ = self.hint_back(flows, *way);
        }
    }

    /// The same again. What gets a hint is noted, and what has none so far is linked to what comes from it.
    fn link_ways(&mut self, flows: &Flows, ways: &[Way], links: &mut Links) -> Result<(), Memory> {
        for way in ways {
            if self.hint_back(flows, *way) {
                links.note(way.source)?;
            } else if !self.is_known(way.source) {
                links.link(*way)?;
            }
        }
        Ok(())
    }

    /// Slots that are linked to a slot with a hint get one.
    fn hint_linked(
        &mut self,
        flows: &Flows,
        links: &mut Links,
        target: usize,
    ) -> Result<(), Memory> {
        let mut link = links.first(target);
        for _ in 0..links.len() {
            let Some(way) = links.way(link) else {
                return Ok(());
            };
            if self.hint_back(flows, way) {
                links.note(way.source)?;
            }
            link = links.next(link);
        }
        Ok(())
    }

    /// The same of all that got a hint, and get one so, in turn. No slot gets a hint twice.
    fn hint_along(&mut self, flows: &Flows, links: &mut Links) -> Result<(), Memory> {
        for turn in 0..flows.slots.len() {
            let Some(target) = links.noted(turn) else {
                return Ok(());
            };
            self.hint_linked(flows, links, target)?;
        }
        Ok(())
    }

    /// The hints: those that two walks over all states in the opposite order bring, then what follows from them.
    fn hint_all(&mut self, alloc: Global, flows: &Flows, order: &[Met]) -> Result<(), Memory> {
        let ways = ways_of(alloc, flows, order)?;
        self.hint_ways(flows, ways.as_slice());
        let mut links = Links::new(alloc, flows.slots.len())?;
        self.link_ways(flows, ways.as_slice(), &mut links)?;
        self.hint_along(flows, &mut links)
    }
}

/// As many places as there are, with nothing kept.
pub(crate) fn none_kept(alloc: Global, count: usize) -> Result<Vec<Option<Held>>, Memory> {
    let mut kept = Vec::new(alloc);
    for _ in 0..count {
        kept.push(None)?;
    }
    Ok(kept)
}

/// No hints for so many slots.
fn no_hints(alloc: Global, count: usize) -> Result<Hints, Memory> {
    let of = none_kept(alloc, count)?;
    let mut turns = Vec::new(alloc);
    turns.resize(count, 0)?;
    Ok(Hints {
        table: NameTable::new(alloc),
        named: IndexMap::new(alloc),
        free_regs: 0,
        free_mregs: 0,
        of,
        turns,
        turn: 0,
    })
}

/// The values to which slots go.
pub(crate) fn hints_of(
    alloc: Global,
    given: &Auto,
    flows: &Flows,
    order: &[Met],
    alike: &Alike,
) -> Result<Hints, Memory> {
    let mut hints = no_hints(alloc, flows.slots.len())?;
    hints.fix_values(given, alike)?;
    hints.hint_all(alloc, flows, order)?;
    Ok(hints)
}
