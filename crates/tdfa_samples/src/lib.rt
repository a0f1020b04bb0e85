//! Tests over the public calls of `lx_auto`, `lx_fill`, `lx_tnfa` and `lx_tdfa`. They stand here and not in these crates, where to prove
//! the tests is to prove a whole crate once more.
#![tactic(auto)]

#[cfg(test)]
mod tests;
