//! The text of traces: what it may be, and how it is read.
#![tactic(auto)]

mod by_node;
mod fault;
mod forms;
mod printing;
mod random;
mod reading;
mod trace;

pub use by_node::programs;
pub use fault::{TraceCause, TraceError};
pub use forms::{named, of_words, word_in};
pub use printing::{every_journal_text, print_trace};
pub use random::generate;
pub use reading::{MOST_OPS, read_trace};
pub use trace::Trace;
