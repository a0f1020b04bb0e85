//! What events do last to tags, gathered in one walk over them.
ghost use Rattle.std.specs.Prelude.{◌≡◌, ◌<◌, ℕ, None, OnOk, Some, length, nat_eq, if◌then◌else◌};
ghost use Rattle.lx_tdfa.specs.Marks.{AreMarks, mark_of};
ghost use Rattle.lx_tdfa.specs.Registers.{last_mark};

use lx_base::Memory;
use lx_tnfa::Event;

/// Notes whether a tag was set, if it is one of those that have a place.
fn note_mark(marks: &mut [Option<bool>], tag: u32, mark: bool)
    ensures kept { length marks.new ≡ length marks.old }
    ensures noted { (other : ℕ) → other < length marks.old
        → mark_of marks.new other ≡ (if nat_eq tag other then Some mark else mark_of marks.old other) }
{
    if (tag as usize) < marks.len() {
        marks[tag as usize] = Some(mark);
    }
}

/// Notes what events do last to the tags that have a place.
fn note_marks(marks: &mut [Option<bool>], events: &[Event])
    ensures kept { length marks.new ≡ length marks.old }
    ensures noted { (tag : ℕ) → tag < length marks.old
        → mark_of marks.new tag ≡ last_mark tag events.now (mark_of marks.old tag) }
{
    for event in events {
        match event {
            Event::Set(tag) => note_mark(marks, *tag, true),
            Event::Unset(tag) => note_mark(marks, *tag, false),
        }
    }
}

/// Gathers what events do last to each of so many tags: whether they set it, if they do anything. Where there are no events, no tag
/// gets a place.
pub(crate) fn gather_marks(
    marks: &mut Vec<Option<bool>>,
    events: &[Event],
    count: usize,
) -> Result<(), Memory>
    ensures { OnOk result (AreMarks marks.new.items events.now count) }
{
    marks.clear();
    if events.is_empty() {
        return Ok(());
    }
    marks.resize(count, None)?;
    note_marks(marks.as_mut_slice(), events);
    Ok(())
}

/// What is noted of a tag.
pub(crate) fn mark_at(marks: &[Option<bool>], tag: u32) -> Option<bool>
    ensures { result ≡ mark_of marks.now tag }
{
    if (tag as usize) < marks.len() {
        marks[tag as usize]
    } else {
        None
    }
}
