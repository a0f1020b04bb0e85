//! Decides which labels the conditions of a valid piece of format 3 may have.
ghost use Rattle.std.specs.Prelude.{◌≡◌, ◌++◌, ℕ};
ghost use Rattle.std.specs.List.{list_any};
ghost use Rattle.lx_base.specs.Letters.{begins_with};
ghost use Rattle.lx_base.specs.Names.{label_prefix};
ghost use Rattle.lx_ccode.specs.Labels.{block_front, is_like_block};
ghost use Rattle.lx_ccode.specs.Validity.{labels};

use lx_base::letters::begins_with;
use lx_base::{Names, names};
use lx_ccode::CodeBlock;

/// Whether a word and another behind it begin with the front.
fn begin_with(front: &[u8], word: &[u8], behind: &[u8]) -> bool
    ensures { result ≡ begins_with front.now (word.now ++ behind.now) }
{
    if front.len() <= word.len() {
        begins_with(word, front)
    } else {
        begins_with(front, word) && begins_with(behind, &front[word.len()..])
    }
}

/// Whether the label of a condition begins as those of the blocks of the piece do, which begin with the front.
pub(crate) fn any_is_like_block(front: &[u8], names: &Names, blocks: &[CodeBlock]) -> bool
    ensures { (number : ℕ) → front.now ≡ block_front number → result ≡ list_any (is_like_block number names.now) (labels blocks.now) }
{
    let prefix = names::label_prefix(names);
    for block in blocks {
        if let Some(cond) = &block.cond {
            if begin_with(front, prefix, cond.as_slice()) {
                return true;
            }
        }
    }
    false
}
