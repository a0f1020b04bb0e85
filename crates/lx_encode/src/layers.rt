//! Blocks of numbers that one more unit tells apart: from where each number leads to where each block of
//! numbers leads, from the last unit of a spelling to its first.
ghost use Rattle.std.specs.Prelude.{◌≡◌, ℕ, ◌+◌, ◌*◌, ◌/◌, ◌%◌, ◌<◌, ◌≤◌, ◌^◌, ◌⊎◌, ◌↔◌, List, [], ◌∷◌, ◌++◌, length, IfOk, OnOk};
ghost use Rattle.lx_encode.specs.Runs.{AreSorted, IsRow, LeadBelow, LeadsTo};
ghost use Rattle.lx_encode.specs.Table.{GrowsBy, Rows};
ghost use Rattle.lx_encode.specs.Layers.{AreBlocks, AreParts, IsPart};
ghost use Rattle.lx_encode.specs.Folding.{IsFolding, IsWithinTable};
ghost use Rattle.lx_encode.specs.declared.runs.Run.{Run};
ghost use Rattle.lx_encode.specs.declared.layers.Layer.{Layer};

use crate::runs::{Run, append_run};
use crate::table::Table;
use lx_base::Memory;
use lx_class::MAX_POINT;
use std::alloc::Global;
use std::mem;

/// Blocks of `radix` numbers each, in which the unit `offset + n % radix` stands for the number n.
#[derive(Clone, Copy)]
pub struct Layer {
    pub radix: u32,
    pub offset: u32,
}

/// Appends a run, which begins behind those that are there.
fn push_part(parts: &mut Vec<Run>, radix: u32, part: Run) -> Result<(), Memory>
    requires sorted { AreSorted parts.old.items }
    requires parts { AreParts radix parts.old.items }
    requires ordered { part.lo ≤ part.hi }
    requires bounded { part.hi ≤ MAX_POINT }
    requires behind { (number target : ℕ) → LeadsTo parts.old.items number target → number < part.lo }
    requires part { IsPart radix part }
    ensures sorted { OnOk result (AreSorted parts.new.items) }
    ensures parts { OnOk result (AreParts radix parts.new.items) }
    ensures leads { OnOk result ((number target : ℕ) → LeadsTo parts.new.items number target ↔
        (LeadsTo parts.old.items number target ⊎ LeadsTo (part ∷ []) number target)) }
{
    parts.push(part)?;
    Ok(())
}

/// Appends a run that begins where a block does, cut before its last block.
fn push_blocks(parts: &mut Vec<Run>, radix: u32, run: Run) -> Result<(), Memory>
    requires radix { 2 ≤ radix }
    requires border { run.lo % radix ≡ 0 }
    requires sorted { AreSorted parts.old.items }
    requires parts { AreParts radix parts.old.items }
    requires ordered { run.lo ≤ run.hi }
    requires bounded { run.hi ≤ MAX_POINT }
    requires behind { (number target : ℕ) → LeadsTo parts.old.items number target → number < run.lo }
    ensures sorted { OnOk result (AreSorted parts.new.items) }
    ensures parts { OnOk result (AreParts radix parts.new.items) }
    ensures leads { OnOk result ((number target : ℕ) → LeadsTo parts.new.items number target ↔
        (LeadsTo parts.old.items number target ⊎ LeadsTo (run ∷ []) number target)) }
{
    let end = run.hi / radix * radix;
    if end <= run.lo {
        push_part(parts, radix, run)?;
        return Ok(());
    }
    let body = Run {
        lo: run.lo,
        hi: end - 1,
        to: run.to,
    };
    push_part(parts, radix, body)?;
    let tail = Run {
        lo: end,
        hi: run.hi,
        to: run.to,
    };
    push_part(parts, radix, tail)?;
    Ok(())
}

/// Appends a run, cut behind its first block and before its last.
fn push_parts(parts: &mut Vec<Run>, radix: u32, run: Run) -> Result<(), Memory>
    requires radix { 2 ≤ radix }
    requires sorted { AreSorted parts.old.items }
    requires parts { AreParts radix parts.old.items }
    requires ordered { run.lo ≤ run.hi }
    requires bounded { run.hi ≤ MAX_POINT }
    requires behind { (number target : ℕ) → LeadsTo parts.old.items number target → number < run.lo }
    ensures sorted { OnOk result (AreSorted parts.new.items) }
    ensures parts { OnOk result (AreParts radix parts.new.items) }
    ensures leads { OnOk result ((number target : ℕ) → LeadsTo parts.new.items number target ↔
        (LeadsTo parts.old.items number target ⊎ LeadsTo (run ∷ []) number target)) }
{
    let block = run.lo / radix;
    if block == run.hi / radix {
        push_part(parts, radix, run)?;
        return Ok(());
    }
    let border = (block + 1) * radix;
    let head = Run {
        lo: run.lo,
        hi: border - 1,
        to: run.to,
    };
    push_part(parts, radix, head)?;
    let rest = Run {
        lo: border,
        hi: run.hi,
        to: run.to,
    };
    push_blocks(parts, radix, rest)?;
    Ok(())
}

/// The same runs, cut so that each lies in one block or is made of whole blocks.
fn parts_of(alloc: Global, radix: u32, runs: &[Run]) -> Result<Vec<Run>, Memory>
    requires radix { 2 ≤ radix }
    requires sorted { AreSorted runs.now }
    ensures sorted { IfOk result (λ parts. AreSorted parts.items) }
    ensures parts { IfOk result (λ parts. AreParts radix parts.items) }
    ensures leads { IfOk result (λ parts. (number target : ℕ) →
        LeadsTo parts.items number target ↔ LeadsTo runs.now number target) }
{
    let mut parts = Vec::new(alloc);
    for run in runs {
        push_parts(&mut parts, radix, *run)?;
    }
    Ok(parts)
}

/// The blocks that are closed, and the block that is not closed yet with its row so far.
#[derive(Drop)]
pub struct Folding {
    closed: Vec<Run>,
    block: u32,
    row: Vec<Run>,
}

impl Folding {
    /// Closes the block, unless it is the one to go on with.
    fn advance(&mut self, alloc: Global, table: &mut Table, block: u32) -> Result<(), Memory>
        requires in_table { IsWithinTable self.old table.old }
        requires room { length table.old < 2 ^ 31 }
        requires later { self.old.block ≤ block }
        requires bounded { block ≤ MAX_POINT }
        ensures in_table { OnOk result (IsWithinTable self.new table.new) }
        ensures grows { OnOk result (GrowsBy table.old table.new 1) }
        ensures block { OnOk result (self.new.block ≡ block) }
        ensures behind { OnOk result ((unit target : ℕ) → LeadsTo self.new.row.items unit target →
            (LeadsTo self.old.row.items unit target × (self.old.block ≡ block))) }
        ensures folded { OnOk result ((layer : Layer) (runs : List Run) →
            IsFolding layer runs self.old table.old → IsFolding layer runs self.new table.new) }
    {
        if self.block == block {
            return Ok(());
        }
        if self.row.is_empty() {
            self.block = block;
            return Ok(());
        }
        let row = mem::replace(&mut self.row, Vec::new(alloc));
        let to = table.residual_of(alloc, row)?;
        let run = Run {
            lo: self.block,
            hi: self.block,
            to,
        };
        append_run(&mut self.closed, run)?;
        self.block = block;
        Ok(())
    }

    /// Appends whole blocks to those that are there.
    fn put_blocks(
        &mut self,
        alloc: Global,
        table: &mut Table,
        layer: Layer,
        part: Run,
    ) -> Result<(), Memory>
        requires radix { 2 ≤ layer.radix }
        requires offset { layer.offset + layer.radix ≤ MAX_POINT }
        requires in_table { IsWithinTable self.old table.old }
        requires room { length table.old < 2 ^ 31 }
        requires ordered { part.lo ≤ part.hi }
        requires bounded { part.hi ≤ MAX_POINT }
        requires to { part.to < length table.old }
        requires here { self.old.block ≡ part.lo / layer.radix }
        requires first { part.lo % layer.radix ≡ 0 }
        requires last { part.hi % layer.radix + 1 ≡ layer.radix }
        ensures in_table { OnOk result (IsWithinTable self.new table.new) }
        ensures grows { OnOk result (GrowsBy table.old table.new 1) }
        ensures block { OnOk result (self.new.block ≡ part.hi / layer.radix + 1) }
        ensures folded { OnOk result ((runs : List Run) →
            ((number target : ℕ) → LeadsTo runs number target → number < part.lo) →
            IsFolding layer runs self.old table.old → IsFolding layer (runs ++ part ∷ []) self.new table.new) }
    {
        let mut row = Vec::new(alloc);
        row.push(Run {
            lo: layer.offset,
            hi: layer.offset + (layer.radix - 1),
            to: part.to,
        })?;
        let to = table.residual_of(alloc, row)?;
        let run = Run {
            lo: part.lo / layer.radix,
            hi: part.hi / layer.radix,
            to,
        };
        append_run(&mut self.closed, run)?;
        self.block = run.hi + 1;
        Ok(())
    }

    /// Appends numbers of one block to those that are there.
    fn put_within(&mut self, layer: Layer, part: Run) -> Result<(), Memory>
        requires radix { 2 ≤ layer.radix }
        requires offset { layer.offset + layer.radix ≤ MAX_POINT }
        requires row { IsRow self.old.row.items }
        requires passed { (block residual : ℕ) → LeadsTo self.old.closed.items block residual → block < self.old.block }
        requires ordered { part.lo ≤ part.hi }
        requires here { self.old.block ≡ part.lo / layer.radix }
        requires within { part.lo / layer.radix ≡ part.hi / layer.radix }
        requires behind { (unit target : ℕ) → LeadsTo self.old.row.items unit target →
            unit < layer.offset + part.lo % layer.radix }
        ensures row { OnOk result (IsRow self.new.row.items) }
        ensures below { OnOk result ((count : ℕ) → part.to < count → LeadBelow self.old.row.items count →
            LeadBelow self.new.row.items count) }
        ensures closed { OnOk result (self.new.closed ≡ self.old.closed) }
        ensures block { OnOk result (self.new.block ≡ self.old.block) }
        ensures folded { OnOk result ((rows : Rows) (runs : List Run) →
            IsFolding layer runs self.old rows → IsFolding layer (runs ++ part ∷ []) self.new rows) }
    {
        let run = Run {
            lo: layer.offset + part.lo % layer.radix,
            hi: layer.offset + part.hi % layer.radix,
            to: part.to,
        };
        append_run(&mut self.row, run)?;
        Ok(())
    }

    /// Appends a part to those that are there.
    fn put(
        &mut self,
        alloc: Global,
        table: &mut Table,
        layer: Layer,
        part: Run,
    ) -> Result<(), Memory>
        requires radix { 2 ≤ layer.radix }
        requires offset { layer.offset + layer.radix ≤ MAX_POINT }
        requires in_table { IsWithinTable self.old table.old }
        requires room { length table.old < 2 ^ 30 }
        requires ordered { part.lo ≤ part.hi }
        requires bounded { part.hi ≤ MAX_POINT }
        requires to { part.to < length table.old }
        requires part { IsPart layer.radix part }
        requires later { self.old.block ≤ part.lo / layer.radix }
        requires behind { (unit target : ℕ) → LeadsTo self.old.row.items unit target →
            self.old.block ≡ part.lo / layer.radix → unit < layer.offset + part.lo % layer.radix }
        ensures in_table { OnOk result (IsWithinTable self.new table.new) }
        ensures grows { OnOk result (GrowsBy table.old table.new 2) }
        ensures later { OnOk result ((number : ℕ) → part.hi < number → self.new.block ≤ number / layer.radix) }
        ensures folded { OnOk result ((runs : List Run) →
            ((number target : ℕ) → LeadsTo runs number target → number < part.lo) →
            IsFolding layer runs self.old table.old → IsFolding layer (runs ++ part ∷ []) self.new table.new) }
    {
        let block = part.lo / layer.radix;
        self.advance(alloc, table, block)?;
        if part.hi / layer.radix == block {
            self.put_within(layer, part)?;
        } else {
            self.put_blocks(alloc, table, layer, part)?;
        }
        Ok(())
    }
}

/// Where each block of numbers leads, to residuals whose rows are put into the table.
pub(crate) fn blocks_of(
    alloc: Global,
    table: &mut Table,
    layer: Layer,
    runs: &[Run],
) -> Result<Vec<Run>, Memory>
    requires radix { 2 ≤ layer.radix }
    requires offset { layer.offset + layer.radix ≤ MAX_POINT }
    requires sorted { AreSorted runs.now }
    requires within { LeadBelow runs.now (length table.old) }
    requires room { length table.old < 2 ^ 28 }
    ensures grows { OnOk result (GrowsBy table.old table.new (2 ^ 24)) }
    ensures row { IfOk result (λ blocks. IsRow blocks.items) }
    ensures within { IfOk result (λ blocks. LeadBelow blocks.items (length table.new)) }
    ensures blocks { IfOk result (λ blocks. AreBlocks layer runs.now blocks.items table.new) }
{
    let parts = parts_of(alloc, layer.radix, runs)?;
    let mut folding = Folding {
        closed: Vec::new(alloc),
        block: 0,
        row: Vec::new(alloc),
    };
    for part in &parts {
        folding.put(alloc, table, layer, *part)?;
    }
    folding.advance(alloc, table, MAX_POINT)?;
    Ok(folding.closed)
}
