//! Calls of the calculus on what no text gives: terms and types that are large or deep, sets of thousands of elements,
//! long contexts, and many omitted sets. They stand in a crate of their own, so that the crates that are dear to prove are
//! proved once.
#![tactic(auto)]

#[cfg(test)]
mod comparing;
#[cfg(test)]
mod contexts;
#[cfg(test)]
mod depths;
#[cfg(test)]
mod flows;
#[cfg(test)]
mod large_sets;
#[cfg(test)]
mod nodes;
#[cfg(test)]
mod subcapturing;
