//! The public calls of `iris_need`, each once with ample memory, with answers from outside. They stand in a
//! crate of their own, so that the tests of the crates below need not wait for its proof.
#![tactic(auto)]

#[cfg(test)]
mod evaluation;
