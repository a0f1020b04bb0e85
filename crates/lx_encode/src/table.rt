//! The rows of a graph, each once.
ghost use Rattle.std.specs.Prelude.{◌≡◌, ℕ, ◌<◌, ◌≤◌, ◌^◌, [], ◌∷◌, length, IfOk, OnOk};
ghost use Rattle.lx_encode.specs.Runs.{IsRow, LeadBelow, cuts_of};
ghost use Rattle.lx_encode.specs.Table.{GrowsBy, IsTable, row_of};

use crate::runs::{Run, cuts};
use indexmap::IndexMap;
use lx_base::Memory;
use std::alloc::Global;
use std::marker::Model;

/// The rows of a graph, which contracts see as a list: no two are equal, the first has no runs, and each
/// leads to rows before it. The place of a row is found by its runs in time linear in them, whatever the
/// number of rows.
pub(crate) struct Table {
    /// The runs of each row, with the units at which its targets may change.
    rows: IndexMap<Vec<Run>, Vec<u32>>,
}

impl Drop for Table {
    fn drop(self) {
        let Self { rows: _ } = self;
    }
}

impl Model for Table {
    ghost use Rattle.std.specs.Prelude.{All, ◌≡◌};
    ghost use Rattle.lx_encode.specs.Table.{HasItsCuts, IsTable, Rows, rows_in};

    ghost Value = { Rows };

    ghost view = { λ table. rows_in table.rows.entries };

    ghost invariant = { λ table. IsTable (rows_in table.rows.entries) × All HasItsCuts table.rows.entries };
}

impl Table {
    /// The table of residual 0 alone, which has nothing left.
    pub(crate) fn new(alloc: Global) -> Result<Table, Memory>
        ensures { IfOk result (λ table. table ≡ [] ∷ []) }
    {
        let mut rows = IndexMap::new(alloc);
        rows.insert(Vec::new(alloc), Vec::new(alloc))?;
        Ok(Table { rows })
    }

    /// How many rows there are.
    pub(crate) fn len(&self) -> usize
        ensures count { result ≡ length self.now }
        ensures table { IsTable self.now }
    {
        self.rows.len()
    }

    /// The runs of the row of a residual.
    pub(crate) fn row(&self, residual: u32) -> &[Run]
        requires { residual < length self.now }
        ensures row { result.now ≡ row_of self.now residual }
        ensures table { IsTable self.now }
    {
        match self.rows.get_index(residual as usize) {
            Some((runs, _)) => runs.as_slice(),
            None => unreachable!(),
        }
    }

    /// The units at which the targets of a residual may change.
    pub(crate) fn cuts(&self, residual: u32) -> &[u32]
        requires { residual < length self.now }
        ensures cuts { result.now ≡ cuts_of (row_of self.now residual) }
        ensures row { IsRow (row_of self.now residual) }
    {
        match self.rows.get_index(residual as usize) {
            Some((_, cuts)) => cuts.as_slice(),
            None => unreachable!(),
        }
    }

    /// The residual with these runs, which is put at the end if there is none yet.
    pub(crate) fn residual_of(&mut self, alloc: Global, runs: Vec<Run>) -> Result<u32, Memory>
        requires row { IsRow runs.items }
        requires earlier { LeadBelow runs.items (length self.old) }
        requires room { length self.old < 2 ^ 31 }
        ensures table { OnOk result (IsTable self.new) }
        ensures grows { OnOk result (GrowsBy self.old self.new 1) }
        ensures row { IfOk result (λ residual. row_of self.new residual ≡ runs.items) }
        ensures within { IfOk result (λ residual. residual < length self.new) }
    {
        if let Some(place) = self.rows.get_index_of(runs.as_slice()) {
            return Ok(place as u32);
        }
        let cuts = cuts(alloc, &runs)?;
        let place = self.rows.len() as u32;
        self.rows.insert(runs, cuts)?;
        Ok(place)
    }
}
