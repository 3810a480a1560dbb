//! A session: modules are put and removed, checked together, and asked for their verdicts, signatures, definitions and
//! entries, which are what a program is linked from.
#![tactic(auto)]

pub mod copies;
pub mod entry;
pub mod modules;
pub mod present_entries;
pub mod refusals;
pub mod session;
pub mod standing;
pub mod starting;
mod texts;

pub use entry::Entry;
pub use modules::EntryModule;
