//! The public calls of `iris_cache`, `iris_migrate` and `iris_gather`, which are the parts of an agent, with
//! answers from outside: in a city with a hood of two blocks, whose second block is another agent's.
#![tactic(auto)]

#[cfg(test)]
mod cached;
#[cfg(test)]
mod gathers;
#[cfg(test)]
mod rounds;
#[cfg(test)]
mod samples;
#[cfg(test)]
mod titles;
