//! Runs of emitted files.
ghost use Rattle.std.specs.Prelude.{◌≡◌, ℕ, ◌<◌, ◌^◌, ◌+◌, true, ◌∷◌, [], List, Some, None, length, IfErr, MatchResult};
ghost use Rattle.std.specs.Str.{bytes_eq};
ghost use Rattle.lx_ccode.specs.Validity.{IsValid};
ghost use Rattle.lx_files.specs.Held.{bytes_of, Sees};
ghost use Rattle.lx_files.specs.declared.files.HeldFile.{HeldFile};
ghost use Rattle.lx_run.specs.Texts.{run_text};
ghost use Rattle.lx_top.specs.Emitted.{IsRunFault, IsRunText, Scans, place_in, scan_fault};
ghost use Rattle.lx_top.specs.Outside.{FilesView, files_view, sink_view};
ghost use Rattle.lx_top.specs.Steps.{HaltsScan, IsPlacedHalt, JobEnds};

use crate::endings::Halt;
use crate::files::read_file;
use lx_base::{Fault, Pos, place_after};
use lx_ccode::Piece;
use lx_creader::{PieceStop, find_block, read_piece};
use lx_files::{Files, Sink};
use lx_run::{RunEnd, run_over};
use std::alloc::Global;

/// The most bytes that an emitted file may have, so that each place in it has a line and a column of 32 bits.
pub(crate) const MOST_BYTES: usize = 4_294_967_294;

/// How much of an input a run reads at a time, in units.
#[derive(Clone, Copy)]
pub(crate) struct WindowUnits {
    /// How many a window has.
    pub window: u32,
    /// How many a refill brings at most.
    pub step: u32,
}

/// Runs a scanner of an emitted file over an input, and gives the lines to the standard output: the scanner of the block with
/// this number, or the first one. The emitted file is the first that is met, and the input the second.
pub(crate) fn run_emitted<F: Files, O: Sink>(
    alloc: Global,
    emitted: &str,
    input: &str,
    block: Option<u32>,
    units: WindowUnits,
    files: &mut F,
    out: &mut O,
) -> Result<(), Halt>
    requires window { 0 < units.window }
    requires step { 0 < units.step }
    ensures ends { let files_before = files_view (F.held files.old) (F.faults files.old) (F.write_faults files.old) in
        let files_after = files_view (F.held files.new) (F.faults files.new) (F.write_faults files.new) in
        let before = sink_view (O.given out.old) (O.faults out.old) (O.wants out.old) in
        let after = sink_view (O.given out.new) (O.faults out.new) (O.wants out.new) in
        (seen : List HeldFile) × Sees (F.held files.old) seen
        × JobEnds true (IsRunFault block units.window units.step input.now (bytes_of seen input.now) emitted.now (bytes_of seen emitted.now)) None (λ bytes text. (bytes ≡ []) × IsRunText block units.window units.step (bytes_of seen emitted.now) (bytes_of seen input.now) text) files_before files_after before after result }
    ensures placed { IfErr result (IsPlacedHalt (emitted.now ∷ input.now ∷ [])) }
{
    let text = read_file(alloc, files, 0, emitted)?;
    if text.len() > MOST_BYTES {
        return Err(Halt::OutOfMemory);
    }
    let piece = read_scanner(alloc, &text, block)?;
    if is_same(emitted, input) {
        return run_scanner(alloc, &piece, text, units, out);
    }
    let given = read_file(alloc, files, 1, input)?;
    run_scanner(alloc, &piece, given, units, out)
}

/// Whether the two names are the same.
fn is_same(name: &str, other: &str) -> bool
    ensures { result ≡ bytes_eq name.now other.now }
{
    name == other
}

/// The scanner of the block with this number, or the first one.
pub(crate) fn read_scanner(alloc: Global, bytes: &[u8], block: Option<u32>) -> Result<Piece, Halt>
    requires { length bytes.now + 1 < 2 ^ 32 }
    ensures scans { MatchResult result (Scans bytes.now block) (HaltsScan bytes.now block) }
    ensures placed { (name : List ℕ) (names : List (List ℕ)) → IfErr result (IsPlacedHalt (name ∷ names)) }
{
    let Some(offset) = find_block(bytes, block) else {
        return Err(not_emitted(bytes, 0));
    };
    match read_piece(alloc, bytes, offset) {
        Ok(piece) => Ok(piece),
        Err(PieceStop::NotEmitted(_)) => Err(not_emitted(bytes, offset)),
        Err(PieceStop::Memory) => Err(Halt::OutOfMemory),
    }
}

/// The fault of an emitted file in which no scanner is read at an offset.
fn not_emitted(bytes: &[u8], offset: usize) -> Halt
    requires { length bytes.now + 1 < 2 ^ 32 }
    ensures { result ≡ Halt.Fault (Fault.NotEmitted (place_in bytes.now offset) offset) }
{
    let front = &bytes[..offset.min(bytes.len())];
    Halt::Fault(Fault::NotEmitted {
        at: place_after(Pos::start_of(0), front),
        offset: offset as u64,
    })
}

/// Runs a scanner over an input. A fault cites the input as the second file.
fn run_scanner<O: Sink>(
    alloc: Global,
    piece: &Piece,
    input: Vec<u8>,
    units: WindowUnits,
    out: &mut O,
) -> Result<(), Halt>
    requires valid { IsValid piece.now }
    requires window { 0 < units.window }
    requires step { 0 < units.step }
    ensures ends { let before = sink_view (O.given out.old) (O.faults out.old) (O.wants out.old) in
        let after = sink_view (O.given out.new) (O.faults out.new) (O.wants out.new) in
        (files : FilesView) → JobEnds true (λ fault. fault ≡ scan_fault piece.now units.window units.step input.items) None (λ bytes text. (bytes ≡ []) × (text ≡ (run_text piece.now input.items units.window units.step).text)) files files before after result }
    ensures placed { (emitted name : List ℕ) → IfErr result (IsPlacedHalt (emitted ∷ name ∷ [])) }
{
    if input.len() % piece.unit as usize != 0 {
        return Err(Halt::Fault(Fault::BadInput {
            at: Pos::start_of(1),
            length: input.len() as u64,
        }));
    }
    match run_over(alloc, piece, input, units.window, units.step, out) {
        RunEnd::Done => Ok(()),
        RunEnd::WindowFull { kept, need, size } => Err(Halt::Fault(Fault::WindowFull {
            at: Pos::start_of(1),
            kept,
            need,
            size,
        })),
        RunEnd::PutFailed => Err(Halt::PutFailed),
        RunEnd::Memory => Err(Halt::OutOfMemory),
    }
}
