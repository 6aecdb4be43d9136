//! How a command ends.

ghost use Rattle.std.specs.Prelude.{◌≡◌};

use hist_check::EntryCause;
use op_model::Cause;
use trace_text::TraceCause;

/// How a command ended. Its text is what is written to the error sink.
#[derive(Clone, Copy, Debug, PartialEq, Eq)]
pub enum Status {
    /// The command's text was written.
    Done,
    /// The words are no form of a command. Nothing was read.
    Usage,
    /// The input is refused at its first bad line, with the line's first cause.
    BadTrace { line: u64, cause: TraceCause },
    /// More than 16,777,216 bytes came.
    TooLong,
    /// A good operation line is the 100,001st.
    TooManyOps,
    /// A good step line is the 1,000,001st.
    TooManySteps,
    /// A read failed.
    ReadFault,
    /// A write failed. A part of the text was written, from its beginning.
    WriteFault,
    /// Want of memory.
    Memory,
    /// A step of the trace isn't enabled, for its first cause. Steps count from 1.
    NotEnabled { step: u64, cause: Cause },
    /// The printed history isn't good: its first bad entry, counted from 1, with the first cause of it.
    IllegalHistory { entry: u64, cause: EntryCause },
    /// The trace has fewer steps than were asked for: so many.
    TooFar { count: u64 },
    /// The machine has no line of this number.
    NoLine { line: u32 },
}

impl Status {
    ghost use Rattle.flash_top.specs.Faults.{code_of};

    /// The exit code.
    pub fn code(&self) -> u8
        ensures { result ≡ code_of self.now }
    {
        match self {
            Status::Done => 0,
            Status::Usage => 1,
            Status::BadTrace { .. } | Status::TooLong | Status::TooManyOps | Status::TooManySteps =>
                2,
            Status::ReadFault => 3,
            Status::WriteFault => 4,
            Status::Memory => 5,
            Status::NotEnabled { .. } => 6,
            Status::IllegalHistory { .. } => 7,
            Status::TooFar { .. } => 8,
            Status::NoLine { .. } => 9,
        }
    }
}
