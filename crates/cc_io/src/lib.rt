//! Sources and sinks of bytes that count their faults, and the reading and the writing of a whole text.
//!
//! A caller tells a fault from every other outcome by the count alone: it rises exactly where a call answers a fault.
#![tactic(auto)]

pub mod acknowledged_examples;
mod copy;
mod history;
mod memory;
mod never;
mod pieces;
mod plan;
mod standard;
mod streams;
#[cfg(test)]
mod tests;
mod traits;
mod whole;

pub use history::History;
pub use memory::{MemSink, MemSource};
pub use never::{NeverSink, NeverSource};
pub use pieces::{pass_on, spill};
pub use standard::{StdSink, StdSource};
pub use streams::{Messages, Reader, Writer};
pub use traits::{Failed, Sink, Source, WriteError};
pub use whole::{ReadAll, WriteAll, read_all, write_all};
