//! Calls on what no text gives, or of which no reply tells: a machine with memory taken before its steps, a session some of
//! whose calls find no memory, derivations that are counted and not built, parts of them that are shared, and certificates
//! of nodes over one another. They stand in a crate of their own, so that the crates that are dear to prove are proved
//! once.
#![tactic(auto)]

#[cfg(test)]
mod closures;
#[cfg(test)]
mod deep_certificates;
#[cfg(test)]
mod derivations;
#[cfg(test)]
mod fixture;
#[cfg(test)]
mod nodes;
#[cfg(test)]
mod programs;
#[cfg(test)]
mod refused;
#[cfg(test)]
mod shared_parts;
#[cfg(test)]
mod stepping;
#[cfg(test)]
mod sums;
#[cfg(test)]
mod texts;
