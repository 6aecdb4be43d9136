//! Where bytes come from and where they go: sources and sinks that count their faults, in memory and over std's readers and writers, and how a text is read to its end and written whole.
#![tactic(auto)]

mod adapters;
mod memory;
mod moves;
mod traits;

pub use adapters::{StdSink, StdSource};
pub use memory::{MemSink, MemSource};
pub use moves::{MOST_BYTES, ReadStop, read_all, write_all, write_pieces};
pub use traits::{Failed, Sink, Source};
