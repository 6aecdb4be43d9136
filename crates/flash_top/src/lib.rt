//! The commands, from the bytes that come in to the bytes that go out.
#![tactic(auto)]

mod gate;
mod status;
mod telling;
mod top;

pub use byte_io::{Failed, MemSink, MemSource, Sink, Source, StdSink, StdSource};
pub use gate::NoGate;
pub use hist_check::EntryCause;
pub use op_model::Cause;
pub use run_text::{Gate, Role};
pub use status::Status;
pub use telling::tell;
pub use top::{plain_main, read_in, run_main};
pub use trace_text::TraceCause;
