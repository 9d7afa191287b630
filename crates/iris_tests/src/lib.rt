//! The public calls of the crates, each once with ample memory, with answers from outside. They stand in
//! one crate at the top, since a crate with tests is proved twice.
#![tactic(auto)]

#[cfg(test)]
mod base;
#[cfg(test)]
mod book;
#[cfg(test)]
mod finder;
#[cfg(test)]
mod fragment;
#[cfg(test)]
mod json;
#[cfg(test)]
mod keeper;
#[cfg(test)]
mod lines;
#[cfg(test)]
mod route;
#[cfg(test)]
mod select;
#[cfg(test)]
mod tree;
#[cfg(test)]
mod xpath;
