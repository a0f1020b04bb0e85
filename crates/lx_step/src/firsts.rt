//! Which statements of a match are the first that give a tag a value.
ghost use Rattle.std.specs.Prelude.{◌≡◌, ◌<◌, suc, List, ◌∷◌, length};
ghost use Rattle.lx_step.specs.Firsts.{AreFirsts, AreFirstsFrom, is_first};
ghost use Rattle.lx_step.specs.Tags.{AreTags, tag_names};

use crate::answers::StmtAt;
use crate::assignments::statement_at;
use crate::tags::TagTable;
use lx_ccode::{CodeBlock, Stmt};

/// Of a tag: which of the places of a match is the first that gives it an offset, and which is the first that gives it a history, where
/// one does.
#[derive(Clone, Copy)]
pub(crate) struct First {
    pub(crate) offset: usize,
    pub(crate) history: usize,
}

/// Notes for each tag, by its number, which of the places are the first that give it values.
pub(crate) fn note_firsts(
    blocks: &[CodeBlock],
    tags: &TagTable,
    places: &[StmtAt],
    firsts: &mut Vec<First>,
)
    requires tags { AreTags blocks.now tags.now }
    requires many { length firsts.old.items ≡ length (tag_names blocks.now) }
    ensures { AreFirsts blocks.now places.now firsts.new.items }
{
    let mut index = places.len();
    while index > 0 {
        index -= 1;
        note(blocks, tags, places[index], index, firsts);
    }
}

/// Notes a place, by its number among those of a match, where those behind it are noted.
fn note(blocks: &[CodeBlock], tags: &TagTable, place: StmtAt, index: usize, firsts: &mut Vec<First>)
    requires tags { AreTags blocks.now tags.now }
    requires many { length firsts.old.items ≡ length (tag_names blocks.now) }
    ensures noted { (places : List StmtAt) → AreFirstsFrom blocks.now (suc index) places firsts.old.items → AreFirstsFrom blocks.now index (place ∷ places) firsts.new.items }
    ensures many { length firsts.new.items ≡ length firsts.old.items }
{
    let Some(statement) = statement_at(blocks, place) else {
        return;
    };
    let Stmt::Tag(name, is_history, _) = statement else {
        return;
    };
    let Some(number) = tags.number_of(blocks, name.as_slice()) else {
        return;
    };
    let first = &mut firsts[number];
    if *is_history {
        first.history = index;
    } else {
        first.offset = index;
    }
}

/// Whether one of the places is the first that gives its tag a value of its sort, or gives no tag a value.
pub(crate) fn is_first(
    blocks: &[CodeBlock],
    tags: &TagTable,
    places: &[StmtAt],
    firsts: &[First],
    index: usize,
) -> bool
    requires tags { AreTags blocks.now tags.now }
    requires firsts { AreFirsts blocks.now places.now firsts.now }
    requires within { index < length places.now }
    ensures { result ≡ is_first blocks.now places.now index }
{
    let Some(statement) = statement_at(blocks, places[index]) else {
        return true;
    };
    let Stmt::Tag(name, is_history, _) = statement else {
        return true;
    };
    let Some(number) = tags.number_of(blocks, name.as_slice()) else {
        return true;
    };
    let first = firsts[number];
    if *is_history {
        first.history == index
    } else {
        first.offset == index
    }
}
