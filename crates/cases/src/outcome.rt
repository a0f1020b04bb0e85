//! What a run left at a place, and whether it is what was wanted there.

use crate::cases::Extent;
use crate::escapes::spelled;
use std::alloc::{AllocError, Global};

/// What differs, in words; nothing where all is as it was wanted.
pub type Difference = Option<String>;

/// How what stands at a place differs from the content that was wanted there.
pub fn difference(
    alloc: Global,
    place: &str,
    extent: Extent,
    content: &[u8],
    got: Option<&[u8]>,
) -> Result<Difference, AllocError> {
    match (extent, got) {
        (Extent::Absent, None) => Ok(None),
        (Extent::Absent, Some(got)) => {
            let got = spelled(alloc, got, 0)?;
            Ok(Some(format!(in alloc; "{place}: wanted none, got \"{got}\"")?))
        }
        (_, None) => Ok(Some(format!(in alloc; "{place}: wanted, got none")?)),
        (Extent::Any, Some(_)) => Ok(None),
        (Extent::Whole, Some(got)) => difference_of_texts(alloc, place, content, got),
        (Extent::Times(times), Some(got)) => {
            difference_of_times(alloc, place, content, times, got)
        }
    }
}

/// How many bytes are shown before the first one that differs.
const SHOWN_BEFORE: usize = 30;

/// How a text differs from the one that was wanted.
pub fn difference_of_texts(
    alloc: Global,
    place: &str,
    wanted: &[u8],
    got: &[u8],
) -> Result<Difference, AllocError> {
    if wanted == got {
        return Ok(None);
    }
    let from = common_front(wanted, got).saturating_sub(SHOWN_BEFORE);
    let wanted = spelled(alloc, wanted, from)?;
    let got = spelled(alloc, got, from)?;
    Ok(Some(format!(in alloc; "{place}: wanted \"{wanted}\", got \"{got}\"")?))
}

/// How many bytes two texts have in common before the first one that differs.
fn common_front(one: &[u8], other: &[u8]) -> usize {
    one.iter()
        .zip(other.iter())
        .take_while(|pair| pair.0 == pair.1)
        .count()
}

fn difference_of_times(
    alloc: Global,
    place: &str,
    part: &[u8],
    wanted: usize,
    got: &[u8],
) -> Result<Difference, AllocError> {
    let times = count(got, part);
    if times == wanted {
        return Ok(None);
    }
    let part = spelled(alloc, part, 0)?;
    let got = spelled(alloc, got, 0)?;
    Ok(Some(format!(in alloc;
        "{place}: wanted {wanted} times \"{part}\", got {times} times in \"{got}\""
    )?))
}

/// How many times a part stands in a text.
fn count(text: &[u8], part: &[u8]) -> usize {
    let mut count: usize = 0;
    for start in 0..text.len() {
        if text[start..].starts_with(part) {
            count = count.saturating_add(1);
        }
    }
    count
}
