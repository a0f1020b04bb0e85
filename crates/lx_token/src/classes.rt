//! The ranges of classes.
ghost use Rattle.std.specs.Prelude.{◌≡◌, false, true, List, None, OnOk, IfOk, IfErr, ◌++◌, map};
ghost use Rattle.lx_token.specs.ClassParts.{AreParts, ClassPart, IsParted, characters_in, part_range};
ghost use Rattle.lx_token.specs.declared.characters.Character.{Character};
ghost use Rattle.lx_token.specs.Classes.{between, class_of, is_plain, ranges_behind};

use crate::characters::{Character, characters_of};
use lx_base::{Memory, Sequence};
use std::alloc::Global;

/// The code points from `lo` to `hi`, both among them; `lo` is at most `hi`.
#[derive(Clone, Copy, PartialEq, Eq)]
pub struct PointRange {
    pub lo: u32,
    pub hi: u32,
}

/// The class of a token: the points of its ranges, or all others.
#[derive(Drop)]
pub struct Class {
    /// Whether a leading `^` takes all points but those of the ranges.
    pub is_negated: bool,
    /// The ranges in the order of the text; they may overlap.
    pub ranges: Sequence<PointRange>,
}

/// The points from the lesser to the greater one.
fn between(first: u32, last: u32) -> PointRange
    ensures { result ≡ between first last }
{
    PointRange {
        lo: first.min(last),
        hi: first.max(last),
    }
}

/// Whether the character is a byte that stands for itself, and not by an escape.
fn is_plain(character: Character, letter: u8) -> bool
    ensures { result ≡ is_plain letter character }
{
    !character.is_escaped && character.point == u32::from(letter)
}

/// The ranges of characters.
fn ranges_of(alloc: Global, characters: &[Character]) -> Result<Sequence<PointRange>, Memory>
    ensures { IfOk result (λ ranges. ranges ≡ ranges_behind None false characters.now) }
{
    let mut ranges = Sequence::new(alloc);
    let mut begun = None;
    let mut is_dashed = false;
    for next in characters {
        match begun {
            None => {
                begun = Some(next.point);
                is_dashed = false;
            }
            Some(point) if is_dashed => {
                ranges.push(between(point, next.point))?;
                begun = None;
                is_dashed = false;
            }
            Some(_) if is_plain(*next, b'-') => is_dashed = true,
            Some(point) => {
                ranges.push(between(point, point))?;
                begun = Some(next.point);
            }
        }
    }
    if let Some(point) = begun {
        ranges.push(between(point, point))?;
        if is_dashed {
            let dash = u32::from(b'-');
            ranges.push(between(dash, dash))?;
        }
    }
    Ok(ranges)
}

/// The class of a token of kind `Class`, by its text.
///
/// `a-b` is a range, with its bounds exchanged where they are swapped. A `-` that stands first, last or directly behind a
/// range is a point, and so are a `-` or a `^` that are escaped. `Memory` says that
/// memory is wanting; it may be answered at each text, and no clause ties it to a cause.
pub fn class_of(alloc: Global, text: &[u8]) -> Result<Class, Memory>
    ensures { IfOk result (λ class. class ≡ class_of text.now) }
{
    let characters = characters_of(alloc, text)?;
    let (is_negated, items) = match characters.as_slice() {
        [first, items @ ..] if is_plain(*first, b'^') => (true, items),
        items => (false, items),
    };
    let ranges = ranges_of(alloc, items)?;
    Ok(Class { is_negated, ranges })
}

/// Where a `-` in a class is a point, and where it makes a range: the characters of a class, behind a leading `^`, are parts,
/// each of which is a point or a range; and whatever parts they are, the class has the ranges of these, in this order. It does
/// nothing, and its contract is the law.
pub fn classes_have_the_ranges_of_their_parts()
    ensures parts { (characters : List Character) → IsParted true characters }
    ensures ranges { (parts : List ClassPart) → AreParts true parts → ranges_behind None false (characters_in parts) ≡ map part_range parts }
{}
