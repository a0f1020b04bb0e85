//! Lists of lists.
ghost use Rattle.std.specs.Prelude.{◌≡◌, [], IfOk, replicate};

use lx_base::{Memory, Sequence};
use std::alloc::Global;

/// So many empty lists.
pub(crate) fn empty_lists<T: Drop>(alloc: Global, count: usize) -> Result<Vec<Sequence<T>>, Memory>
    ensures { IfOk result (λ lists. lists.items ≡ replicate count []) }
{
    let mut lists = Vec::new(alloc);
    for _ in 0..count {
        lists.push(Sequence::new(alloc))?;
    }
    Ok(lists)
}
