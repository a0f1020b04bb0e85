//! Cases whose compilations are tried in format 3 too.

use crate::cases::{Case, Extent, Order};
use std::alloc::{AllocError, Global};

/// Whether a case is tried in format 3 too: it compiles, and no run has an altered file, since places in a text are those of its format.
pub fn is_of_both(case: &Case) -> bool {
    let compiled = case.items.iter().any(|item| is_compilation(&item.order));
    let altered = case
        .items
        .iter()
        .any(|item| matches!(item.order, Order::Alter(_, _)));
    compiled && !altered
}

fn is_compilation(order: &Order) -> bool {
    match order {
        Order::Run(words) => is_compiling(words.as_slice()),
        _ => false,
    }
}

/// Whether words compile, and name no format.
pub fn is_compiling(words: &[String]) -> bool {
    !words.iter().any(|word| is_other(word.as_str()))
}

/// Whether words with this one do not compile, or name a format.
fn is_other(word: &str) -> bool {
    word.starts_with("--x-run") || word.starts_with("--x-source") || word.starts_with("--x-format")
}

/// Whether words ask for covering words in the place of emitted text.
pub fn is_covering(words: &[String]) -> bool {
    words.iter().any(|word| word.as_str() == "--x-cover")
}

/// Words behind one that asks for format 3, if this is wanted.
pub fn words_of(
    alloc: Global,
    in_three: bool,
    words: &[String],
) -> Result<Vec<String>, AllocError> {
    let mut all = Vec::new(alloc);
    if in_three {
        all.push(String::from_str(alloc, "--x-format=3")?)?;
    }
    for word in words.iter() {
        all.push(String::from_str(alloc, word.as_str())?)?;
    }
    Ok(all)
}

/// How content is wanted of text that was emitted in format 3: a case tells that of the other one, so anything stands there.
pub fn extent_of_emitted(wanted: Extent) -> Extent {
    match wanted {
        Extent::Absent => Extent::Absent,
        _ => Extent::Any,
    }
}
