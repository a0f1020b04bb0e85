//! Copies that do one by one what copies do at once. The next one is the first copy into a register that no other one reads.
//! How many copies read each register is counted, so that a turn looks at two registers and not at all copies.
ghost use Rattle.std.specs.Prelude.{ℕ, nat_eq, nat_lt, not, true, false, ◌≡◌, ◌&&◌, ◌++◌, ◌+◌, ◌<◌, ◌^◌, [], IfOk, MatchOption, None, OnOk, if◌then◌else◌, length};
ghost use Rattle.std.specs.Ordering.{nat_cmp};
ghost use Rattle.std.specs.List.{IsDistinct};
ghost use Rattle.std.specs.BTreeMap.{get};
ghost use Rattle.std.specs.BTreeSet.{contains};
ghost use Rattle.lx_sequence.specs.CopyOps.{IsNoted, seen_copies, seen_copy};
ghost use Rattle.lx_sequence.specs.ParallelCopies.{Copies, in_sequence, next_copies, read_from, sources, targets, unread_target};
ghost use Rattle.lx_sequence.specs.WaitingCopies.{AreKept, AreNoted, ArePlaces, IsFirst, IsReadyNoted, copy_at, copy_of, count, is_unread, other_copies, reader_count, waiting_copies, waits};

use lx_base::Memory;
use std::alloc::Global;
use std::collections::{BTreeMap, BTreeSet};

/// A copy into a register out of another one. Both are registers, or both are m-registers.
#[derive(Clone, Copy)]
pub(crate) struct CopyOp {
    pub target: u32,
    pub source: u32,
}

/// Copies that wait for their turn, by their places in a list.
struct WaitingCopies {
    copies: Vec<CopyOp>,
    /// The place of the copy into each register.
    places: BTreeMap<u32, usize>,
    /// The places of the copies that wait.
    waiting: BTreeSet<usize>,
    /// The places of those into a register that no other one reads.
    ready: BTreeSet<usize>,
    /// How many copies that wait read each register.
    readers: BTreeMap<u32, usize>,
    /// The registers whose content is in the spare by now.
    moved: BTreeSet<u32>,
}

impl Drop for WaitingCopies {
    fn drop(self) {
        let Self {
            copies: _,
            places: _,
            waiting: _,
            ready: _,
            readers: _,
            moved: _,
        } = self;
    }
}

/// How many copies read a register.
fn reader_count(readers: &BTreeMap<u32, usize>, reg: u32) -> usize
    ensures { result ≡ reader_count readers.now reg }
{
    readers.get(&reg).copied().unwrap_or(0)
}

/// Adds to how many copies read a register.
fn add_readers(readers: &mut BTreeMap<u32, usize>, reg: u32, more: usize) -> Result<(), Memory>
    requires { reader_count readers.old reg + more < 2 ^ 64 }
    ensures { OnOk result ((other : ℕ) → reader_count readers.new other
        ≡ reader_count readers.old other + (if nat_eq other reg then more else 0)) }
{
    let number = reader_count(readers, reg);
    readers.insert(reg, number + more)?;
    Ok(())
}

/// Takes one away from how many copies read a register.
fn drop_reader(readers: &mut BTreeMap<u32, usize>, reg: u32) -> Result<(), Memory>
    requires { 0 < reader_count readers.old reg }
    ensures { OnOk result ((other : ℕ) → reader_count readers.new other + (if nat_eq other reg then 1 else 0)
        ≡ reader_count readers.old other) }
{
    let number = reader_count(readers, reg);
    readers.insert(reg, number - 1)?;
    Ok(())
}

/// Lets those copies that read a register read another one.
fn move_readers(readers: &mut BTreeMap<u32, usize>, reg: u32, other: u32) -> Result<(), Memory>
    requires { (if nat_eq other reg then 0 else reader_count readers.old other) + reader_count readers.old reg < 2 ^ 64 }
    ensures { OnOk result ((any : ℕ) → reader_count readers.new any
        ≡ (if nat_eq any reg then 0 else reader_count readers.old any) + (if nat_eq any other then reader_count readers.old reg else 0)) }
{
    let number = reader_count(readers, reg);
    readers.remove(&reg);
    add_readers(readers, other, number)
}

/// Takes a place away from others.
fn take_place(places: &mut BTreeSet<usize>, place: usize)
    ensures { (other : ℕ) → contains nat_cmp places.new other ≡ (if nat_eq other place then false else contains nat_cmp places.old other) }
{
    places.remove(&place);
}

/// Puts a place among others, or takes it away.
fn put_place(places: &mut BTreeSet<usize>, place: usize, stays: bool) -> Result<(), Memory>
    ensures { OnOk result ((other : ℕ) → contains nat_cmp places.new other
        ≡ (if nat_eq other place then stays else contains nat_cmp places.old other)) }
{
    if stays {
        places.insert(place)?;
    } else {
        take_place(places, place);
    }
    Ok(())
}

/// The first one of some places.
fn first_place(places: &BTreeSet<usize>) -> Option<usize>
    ensures { MatchOption result ((place : ℕ) → contains nat_cmp places.now place ≡ false)
        (λ first. IsFirst (contains nat_cmp places.now) first) }
{
    places.first().copied()
}

/// Whether no other copy reads the target of this one.
fn is_unread(readers: &BTreeMap<u32, usize>, copy: CopyOp) -> bool
    ensures { result ≡ nat_eq (reader_count readers.now copy.target) (if nat_eq copy.target copy.source then 1 else 0) }
{
    let own = if copy.target == copy.source { 1 } else { 0 };
    reader_count(readers, copy.target) == own
}

/// Notes the place of the copy into a register.
fn note_place(places: &mut BTreeMap<u32, usize>, reg: u32, place: usize) -> Result<(), Memory>
    ensures { OnOk result ((other : ℕ) → get nat_cmp places.new other
        ≡ (if nat_eq other reg then Some place else get nat_cmp places.old other)) }
{
    places.insert(reg, place)?;
    Ok(())
}

/// The place of the copy into each register.
fn places_of(alloc: Global, copies: &[CopyOp]) -> Result<BTreeMap<u32, usize>, Memory>
    requires { IsDistinct nat_eq (targets (seen_copies copies.now)) }
    ensures { IfOk result (λ places. ArePlaces places (seen_copies copies.now) (length copies.now)) }
{
    let mut places = BTreeMap::new(alloc);
    for (place, copy) in copies.iter().enumerate() {
        note_place(&mut places, copy.target, place)?;
    }
    Ok(places)
}

/// The first so many places.
fn first_places(alloc: Global, count: usize) -> Result<BTreeSet<usize>, Memory>
    ensures { IfOk result (λ places. (place : ℕ) → contains nat_cmp places place ≡ nat_lt place count) }
{
    let mut places = BTreeSet::new(alloc);
    for place in 0..count {
        places.insert(place)?;
    }
    Ok(places)
}

/// How many of some copies read each register.
fn readers_of(alloc: Global, copies: &[CopyOp]) -> Result<BTreeMap<u32, usize>, Memory>
    ensures { IfOk result (λ readers. (reg : ℕ) → reader_count readers reg ≡ count reg (sources (seen_copies copies.now))) }
{
    let mut readers = BTreeMap::new(alloc);
    for copy in copies {
        add_readers(&mut readers, copy.source, 1)?;
    }
    Ok(readers)
}

/// The places of those copies into a register that no other one reads.
fn ready_places(
    alloc: Global,
    copies: &[CopyOp],
    readers: &BTreeMap<u32, usize>,
) -> Result<BTreeSet<usize>, Memory>
    requires { (reg : ℕ) → reader_count readers.now reg ≡ count reg (sources (seen_copies copies.now)) }
    ensures { IfOk result (λ places. (place : ℕ) → contains nat_cmp places place
        ≡ (nat_lt place (length copies.now) && is_unread (seen_copies copies.now) (copy_of (seen_copies copies.now) place))) }
{
    let mut places = BTreeSet::new(alloc);
    for (place, copy) in copies.iter().enumerate() {
        put_place(&mut places, place, is_unread(readers, *copy))?;
    }
    Ok(places)
}

/// Copies that all wait.
fn waiting_list(alloc: Global, copies: Vec<CopyOp>, spare: u32) -> Result<WaitingCopies, Memory>
    requires { IsDistinct nat_eq (targets (seen_copies copies.items)) }
    ensures copies { IfOk result (λ list. waiting_copies spare list ≡ seen_copies copies.items) }
    ensures kept { IfOk result (λ list. AreKept spare list) }
{
    let places = places_of(alloc, &copies)?;
    let waiting = first_places(alloc, copies.len())?;
    let readers = readers_of(alloc, &copies)?;
    let ready = ready_places(alloc, &copies, &readers)?;
    Ok(WaitingCopies {
        copies,
        places,
        waiting,
        ready,
        readers,
        moved: BTreeSet::new(alloc),
    })
}

/// The copy at a place, as it reads by now.
fn copy_at(list: &WaitingCopies, place: usize, spare: u32) -> CopyOp
    requires { place < length list.now.copies.items }
    ensures { seen_copy result ≡ copy_at spare list.now place }
{
    let copy = list.copies[place];
    let source = if list.moved.contains(&copy.source) {
        spare
    } else {
        copy.source
    };
    CopyOp {
        target: copy.target,
        source,
    }
}

/// Notes whether the copy into a register is ready.
fn note_ready(list: &mut WaitingCopies, reg: u32, spare: u32) -> Result<(), Memory>
    requires noted { AreNoted spare list.old }
    requires others { (place : ℕ) → (waits list.old place && nat_eq (copy_at spare list.old place).0 reg) ≡ false
        → IsReadyNoted spare list.old place }
    ensures rest { OnOk result (list.new ≡ record list.old { ready = list.new.ready }) }
    ensures kept { OnOk result (AreKept spare list.new) }
{
    if let Some(place) = list.places.get(&reg).copied() {
        let copy = copy_at(list, place, spare);
        let is_ready = list.waiting.contains(&place) & is_unread(&list.readers, copy);
        put_place(&mut list.ready, place, is_ready)?;
    }
    Ok(())
}

/// Takes the copy at a place, which waits.
fn take_copy(list: &mut WaitingCopies, place: usize, spare: u32) -> Result<CopyOp, Memory>
    requires kept { AreKept spare list.old }
    requires waits { waits list.old place ≡ true }
    ensures copy { IfOk result (λ copy. seen_copy copy ≡ copy_at spare list.old place) }
    ensures others { OnOk result (waiting_copies spare list.new ≡ other_copies spare list.old place) }
    ensures once { IfOk result (λ copy. (other : ℕ) → waits list.new other ≡ true
        → nat_eq (copy_at spare list.new other).0 copy.target ≡ false) }
    ensures kept { OnOk result (AreKept spare list.new) }
{
    let copy = copy_at(list, place, spare);
    take_place(&mut list.waiting, place);
    take_place(&mut list.ready, place);
    drop_reader(&mut list.readers, copy.source)?;
    note_ready(list, copy.source, spare)?;
    Ok(copy)
}

/// Notes that what a register held is in the spare.
fn note_moved(moved: &mut BTreeSet<u32>, reg: u32) -> Result<(), Memory>
    ensures { OnOk result (IsNoted moved.old moved.new reg) }
{
    moved.insert(reg)?;
    Ok(())
}

/// Lets the copies read from the spare what a register held.
fn move_to_spare(list: &mut WaitingCopies, reg: u32, spare: u32) -> Result<(), Memory>
    requires kept { AreKept spare list.old }
    requires free { (place : ℕ) → waits list.old place ≡ true → nat_eq (copy_at spare list.old place).0 reg ≡ false }
    ensures copies { OnOk result (waiting_copies spare list.new ≡ read_from spare reg (waiting_copies spare list.old)) }
    ensures kept { OnOk result (AreKept spare list.new) }
{
    move_readers(&mut list.readers, reg, spare)?;
    note_moved(&mut list.moved, reg)?;
    note_ready(list, spare, spare)?;
    Ok(())
}

/// Appends the first copy, and before it one of its target's content into the spare.
fn append_first(
    done: &mut Vec<CopyOp>,
    list: &mut WaitingCopies,
    place: usize,
    spare: u32,
) -> Result<(), Memory>
    requires kept { AreKept spare list.old }
    requires first { IsFirst (waits list.old) place }
    ensures next { OnOk result ((onward : Copies → Copies) → seen_copies done.new.items ++ onward (waiting_copies spare list.new)
        ≡ seen_copies done.old.items ++ next_copies spare None (waiting_copies spare list.old) onward) }
    ensures kept { OnOk result (AreKept spare list.new) }
{
    let first = take_copy(list, place, spare)?;
    done.push(CopyOp {
        target: spare,
        source: first.target,
    })?;
    done.push(first)?;
    move_to_spare(list, first.target, spare)?;
    Ok(())
}

/// Appends the next copy to those that act one by one, if one waits. Where each target is still read, the first target's
/// content goes into the spare before.
fn append_next(done: &mut Vec<CopyOp>, list: &mut WaitingCopies, spare: u32) -> Result<(), Memory>
    requires { AreKept spare list.old }
    ensures next { OnOk result ((onward : Copies → Copies) → onward [] ≡ []
        → seen_copies done.new.items ++ onward (waiting_copies spare list.new)
        ≡ seen_copies done.old.items
        ++ next_copies spare (unread_target [] (waiting_copies spare list.old)) (waiting_copies spare list.old) onward) }
    ensures kept { OnOk result (AreKept spare list.new) }
{
    if let Some(place) = first_place(&list.ready) {
        done.push(take_copy(list, place, spare)?)?;
    } else if let Some(place) = first_place(&list.waiting) {
        append_first(done, list, place, spare)?;
    }
    Ok(())
}

/// Copies that do one by one what the given ones do at once.
pub(crate) fn in_sequence(
    alloc: Global,
    copies: Vec<CopyOp>,
    spare: u32,
) -> Result<Vec<CopyOp>, Memory>
    requires { IsDistinct nat_eq (targets (seen_copies copies.items)) }
    ensures { IfOk result (λ done. seen_copies done.items
        ≡ in_sequence (length (seen_copies copies.items)) spare (seen_copies copies.items)) }
{
    let count = copies.len();
    let mut list = waiting_list(alloc, copies, spare)?;
    let mut done = Vec::new(alloc);
    for _turn in 0..count {
        append_next(&mut done, &mut list, spare)?;
    }
    Ok(done)
}
