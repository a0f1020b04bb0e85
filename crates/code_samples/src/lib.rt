//! Tests over the public calls of the crates that print pieces, read them, step them and run them. They stand here and not in those
//! crates, where to prove the tests is to prove the whole crate once more.
#![tactic(auto)]

#[cfg(test)]
mod tests;
