//! The graph on which an automaton walks through the spellings of a class, unit by unit.
ghost use Rattle.std.specs.Prelude.{◌≡◌, ℕ, ◌+◌, ◌<◌, ◌≤◌, ◌^◌, ◌↔◌, ◌⊎◌, List, [], ◌∷◌, ◌++◌, length, IsTrue, IsNone, IfOk, IfSome, OnOk, All};
ghost use Rattle.std.specs.Option.{option_map};
ghost use Rattle.std.specs.List.Sorted.{IsStrictlyIncreasing};
ghost use Rattle.lx_base.specs.Spelling.{greatest_point, spell};
ghost use Rattle.lx_class.specs.Ranges.{InRanges, IsCanonical};
ghost use Rattle.lx_class.specs.declared.ranges.Range.{Range};
ghost use Rattle.lx_encode.specs.Policy.{FitsEncoding};
ghost use Rattle.lx_encode.specs.Runs.{AreSorted, IsRow, LeadsShifted, LeadsTo};
ghost use Rattle.lx_encode.specs.Table.{Finishes, GrowsBy, IsTable, row_of, step_of};
ghost use Rattle.lx_encode.specs.Graph.{AreStarts, IsGraphOf, Separates, numbered, parts, started};
ghost use Rattle.lx_encode.specs.Starts.{AreEnded, StartsWith};

use crate::layers::{Layer, blocks_of};
use crate::runs::{Run, append_shifted, point_runs, target_at};
use crate::table::Table;
use crate::units::greatest_point;
use lx_base::{Enc, Memory};
use lx_class::{ClassSet, MAX_POINT};
use std::alloc::Global;
use std::marker::Model;

/// What may come next in a spelling: a place in a graph, by its number.
#[derive(Clone, Copy, PartialEq, Eq)]
pub struct Residual(pub u32);

/// The numbers from `from` to `to`.
fn kept(alloc: Global, runs: &[Run], from: u32, to: u32) -> Result<Vec<Run>, Memory>
    requires sorted { AreSorted runs.now }
    requires bounded { to ≤ MAX_POINT }
    ensures row { IfOk result (λ row. IsRow row.items) }
    ensures leads { IfOk result (λ row. (number target : ℕ) →
        LeadsTo row.items number target ↔ LeadsShifted runs.now from to from number target) }
{
    let mut row = Vec::new(alloc);
    append_shifted(&mut row, runs, from, to, from)?;
    Ok(row)
}

/// The residual of the points up to `last`, each of which is spelled by its own number; 0 where there are
/// none.
fn one_unit_start(
    alloc: Global,
    table: &mut Table,
    points: &[Run],
    last: u32,
) -> Result<u32, Memory>
    requires sorted { AreSorted points.now }
    requires ended { (number target : ℕ) → LeadsTo points.now number target → target < length table.old }
    requires bounded { last ≤ MAX_POINT }
    requires room { length table.old < 2 ^ 31 }
    ensures table { OnOk result (IsTable table.new) }
    ensures grows { OnOk result (GrowsBy table.old table.new 1) }
    ensures within { IfOk result (λ start. start < length table.new) }
    ensures leads { IfOk result (λ start. (number target : ℕ) → LeadsTo (row_of table.new start) number target ↔
        (LeadsTo [] number target ⊎ LeadsShifted points.now 0 last 0 number target)) }
{
    let mut row = Vec::new(alloc);
    append_shifted(&mut row, points, 0, last, 0)?;
    table.residual_of(alloc, row)
}

/// The residual of the points of two units in UTF-16; 0 where there are none.
fn two_unit_start(alloc: Global, table: &mut Table, points: &[Run]) -> Result<u32, Memory>
    requires sorted { AreSorted points.now }
    requires ended { (number target : ℕ) → LeadsTo points.now number target → target < length table.old }
    requires room { length table.old < 2 ^ 20 }
    ensures table { OnOk result (IsTable table.new) }
    ensures grows { OnOk result (GrowsBy table.old table.new (2 ^ 26)) }
    ensures within { IfOk result (λ start. start < length table.new) }
    ensures starts { IfOk result (λ start. (set : List Range) → AreEnded set points.now →
        StartsWith table.new Enc.Utf16 set (record { lo = 0x10000; hi = 0x10FFFF }) start) }
{
    let low = Layer {
        radix: 1024,
        offset: 0xDC00,
    };
    let supplementary = kept(alloc, points, 0x1_0000, MAX_POINT)?;
    let blocks = blocks_of(alloc, table, low, &supplementary)?;
    let mut row = Vec::new(alloc);
    append_shifted(&mut row, &blocks, 64, 1087, 0xD800)?;
    let start = table.residual_of(alloc, row)?;
    Ok(start)
}

/// The residual of all points in UTF-8; 0 where there are none.
fn utf8_start(alloc: Global, table: &mut Table, points: &[Run]) -> Result<u32, Memory>
    requires sorted { AreSorted points.now }
    requires ended { (number target : ℕ) → LeadsTo points.now number target → target < length table.old }
    requires room { length table.old < 2 ^ 20 }
    ensures table { OnOk result (IsTable table.new) }
    ensures within { IfOk result (λ start. start < length table.new) }
    ensures starts { IfOk result (λ start. (set : List Range) → IsCanonical set → AreEnded set points.now →
        StartsWith table.new Enc.Utf8 set (record { lo = 0; hi = 0x10FFFF }) start) }
{
    let later = Layer {
        radix: 64,
        offset: 0x80,
    };
    let longer = kept(alloc, points, 0x80, MAX_POINT)?;
    let one = blocks_of(alloc, table, later, &longer)?;
    let longer_2 = kept(alloc, &one, 0x20, MAX_POINT)?;
    let two = blocks_of(alloc, table, later, &longer_2)?;
    let longer_3 = kept(alloc, &two, 0x10, MAX_POINT)?;
    let three = blocks_of(alloc, table, later, &longer_3)?;
    let mut row = Vec::new(alloc);
    append_shifted(&mut row, points, 0, 0x7F, 0)?;
    append_shifted(&mut row, &one, 0, 0x1F, 0xC0)?;
    append_shifted(&mut row, &two, 0, 0x0F, 0xE0)?;
    append_shifted(&mut row, &three, 0, 0x07, 0xF0)?;
    let start = table.residual_of(alloc, row)?;
    Ok(start)
}

/// Appends a start, unless it is 0.
fn push_start(starts: &mut Vec<Residual>, start: u32) -> Result<(), Memory>
    ensures { OnOk result (starts.new.items ≡ starts.old.items ++ started start) }
{
    if start != 0 {
        starts.push(Residual(start))?;
    }
    Ok(())
}

/// The start of the points of an encoding with one unit for each.
fn one_unit_starts(
    alloc: Global,
    enc: Enc,
    table: &mut Table,
    points: &[Run],
) -> Result<Vec<Residual>, Memory>
    requires sorted { AreSorted points.now }
    requires ended { (number target : ℕ) → LeadsTo points.now number target → target < length table.old }
    requires room { length table.old < 2 ^ 20 }
    requires part { parts enc ≡ record { lo = 0; hi = greatest_point enc } ∷ [] }
    requires spelled { (point : ℕ) → point ≤ greatest_point enc → spell enc point ≡ point ∷ [] }
    ensures table { OnOk result (IsTable table.new) }
    ensures starts { IfOk result (λ starts. (set : List Range) → IsCanonical set → AreEnded set points.now →
        AreStarts table.new enc set (parts enc) starts.items) }
{
    let start = one_unit_start(alloc, table, points, greatest_point(enc))?;
    let mut starts = Vec::new(alloc);
    push_start(&mut starts, start)?;
    Ok(starts)
}

/// The start in UTF-8.
fn utf8_starts(alloc: Global, table: &mut Table, points: &[Run]) -> Result<Vec<Residual>, Memory>
    requires sorted { AreSorted points.now }
    requires ended { (number target : ℕ) → LeadsTo points.now number target → target < length table.old }
    requires room { length table.old < 2 ^ 20 }
    ensures table { OnOk result (IsTable table.new) }
    ensures starts { IfOk result (λ starts. (set : List Range) → IsCanonical set → AreEnded set points.now →
        AreStarts table.new Enc.Utf8 set (parts Enc.Utf8) starts.items) }
{
    let start = utf8_start(alloc, table, points)?;
    let mut starts = Vec::new(alloc);
    push_start(&mut starts, start)?;
    Ok(starts)
}

/// The starts in UTF-16: that of the points of two units, and that of the others.
fn utf16_starts(alloc: Global, table: &mut Table, points: &[Run]) -> Result<Vec<Residual>, Memory>
    requires sorted { AreSorted points.now }
    requires ended { (number target : ℕ) → LeadsTo points.now number target → target < length table.old }
    requires room { length table.old < 2 ^ 20 }
    ensures table { OnOk result (IsTable table.new) }
    ensures starts { IfOk result (λ starts. (set : List Range) → IsCanonical set → AreEnded set points.now →
        AreStarts table.new Enc.Utf16 set (parts Enc.Utf16) starts.items) }
{
    let two = two_unit_start(alloc, table, points)?;
    let one = one_unit_start(alloc, table, points, 0xFFFF)?;
    let mut starts = Vec::new(alloc);
    push_start(&mut starts, two)?;
    push_start(&mut starts, one)?;
    Ok(starts)
}

/// The starts of the points, in the order of preference.
fn starts_of(
    alloc: Global,
    enc: Enc,
    table: &mut Table,
    points: &[Run],
) -> Result<Vec<Residual>, Memory>
    requires sorted { AreSorted points.now }
    requires ended { (number target : ℕ) → LeadsTo points.now number target → target < length table.old }
    requires room { length table.old < 2 ^ 20 }
    ensures table { OnOk result (IsTable table.new) }
    ensures starts { IfOk result (λ starts. (set : List Range) → IsCanonical set → AreEnded set points.now →
        AreStarts table.new enc set (parts enc) starts.items) }
{
    match enc {
        Enc::Utf8 => utf8_starts(alloc, table, points),
        Enc::Utf16 => utf16_starts(alloc, table, points),
        Enc::Byte | Enc::Ucs2 | Enc::Utf32 => one_unit_starts(alloc, enc, table, points),
    }
}

/// The graph of a class: what may come next after each front of a spelling.
///
/// Contracts see it as its starts and the rows of its residuals, which are numbered from 0; a residual
/// is one of the graph where its number is below the number of rows. `IsGraphOf` says what the starts are,
/// and that residuals are equal exactly where the same lists of units finish them.
#[derive(Drop)]
pub struct UnitGraph {
    table: Table,
    starts: Vec<Residual>,
}

impl Model for UnitGraph {
    ghost use Rattle.lx_encode.specs.Graph.{Graph};

    ghost Value = { Graph };

    ghost view = { λ graph. record { starts = graph.starts.items; rows = graph.table } };
}

impl UnitGraph {
    /// The graph of a set, each point of which the encoding has.
    pub fn of(alloc: Global, enc: Enc, set: &ClassSet) -> Result<UnitGraph, Memory>
        requires { FitsEncoding enc set.now }
        ensures graph { IfOk result (IsGraphOf enc set.now) }
        ensures within { IfOk result (λ graph. All (λ start. start.0 < length graph.rows) graph.starts) }
    {
        let points = point_runs(alloc, set.ranges())?;
        let mut table = Table::new(alloc)?;
        let starts = starts_of(alloc, enc, &mut table, &points)?;
        Ok(UnitGraph { table, starts })
    }

    /// The starts, in the order of preference: in UTF-16 that of the spellings of two units first, where
    /// there are both; else one, or none for the empty class. It takes no memory.
    pub fn starts(&self) -> &[Residual]
        ensures { result.now ≡ self.now.starts }
    {
        &self.starts
    }

    /// The residual after one more unit, or nothing exactly where no list finishes after that unit. It
    /// takes no memory.
    pub fn step(&self, residual: Residual, unit: u32) -> Option<Residual>
        requires { residual.0 < length self.now.rows }
        ensures next { result ≡ option_map numbered (step_of self.now.rows residual.0 unit) }
        ensures within { IfSome result (λ next. next.0 < length self.now.rows) }
        ensures none { IsNone result ↔ ((units : List ℕ) → ¬ Finishes self.now.rows residual.0 (unit ∷ units)) }
    {
        match target_at(self.table.row(residual.0), unit) {
            Some(next) => Some(Residual(next)),
            None => None,
        }
    }

    /// Whether nothing is left of the spelling. It takes no memory.
    pub fn done(&self, residual: Residual) -> bool
        requires { residual.0 < length self.now.rows }
        ensures { IsTrue result ↔ Finishes self.now.rows residual.0 [] }
    {
        self.table.row(residual.0).is_empty()
    }

    /// The units at which `step` may change its answer: any two units without one that is greater than
    /// the lesser and at most the greater have the same. It takes no memory.
    pub fn cuts(&self, residual: Residual) -> &[u32]
        requires { residual.0 < length self.now.rows }
        ensures sorted { IsStrictlyIncreasing result.now }
        ensures separating { Separates result.now (step_of self.now.rows residual.0) }
    {
        self.table.cuts(residual.0)
    }
}
