//! Why a trace is refused.

use std::alloc::{AllocError, AllocFailed};
use std::fmt;
use step_journal::StepCause;
use thiserror::Error;

/// The causes of a bad line, in the order in which they count.
#[derive(Clone, Copy, Debug, PartialEq, Eq)]
pub enum TraceCause {
    /// The line is no form that may stand in its place.
    Shape,
    /// A number is 2^64 or more.
    Number,
    /// The version is neither 1 nor 2.
    Version,
    /// A size of the machine is outside its limits.
    Range,
    /// The machine has no such node.
    Node,
    /// The machine has no such line of memory.
    Line,
    /// The address isn't a multiple of 8.
    Unaligned,
    /// The address is past the last word.
    PastEnd,
    /// The input has ended before the line `end`.
    NoEnd,
    /// The line stands after the line `end`.
    After,
}

impl TraceCause {
    ghost use Rattle.std.specs.Prelude.{◌≡◌};
    ghost use Rattle.trace_text.specs.CauseNames.{cause_name};

    /// The name that is printed.
    pub fn name(self) -> &'static str
        ensures { result.now ≡ cause_name self }
    {
        match self {
            TraceCause::Shape => "Shape",
            TraceCause::Number => "Number",
            TraceCause::Version => "Version",
            TraceCause::Range => "Range",
            TraceCause::Node => "Node",
            TraceCause::Line => "Line",
            TraceCause::Unaligned => "Unaligned",
            TraceCause::PastEnd => "PastEnd",
            TraceCause::NoEnd => "NoEnd",
            TraceCause::After => "After",
        }
    }
}

impl fmt::Display for TraceCause {
    fn fmt<W: fmt::Write>(&self, f: &mut fmt::Formatter<W>) -> fmt::Result {
        f.write_str(self.name())
    }
}

impl From<StepCause> for TraceCause {
    ghost use Rattle.std.specs.Prelude.{◌≡◌};
    ghost use Rattle.trace_text.specs.Reading.{step_cause};

    ghost from_gives = { λ c t. t ≡ step_cause c };

    fn from(cause: StepCause) -> TraceCause {
        match cause {
            StepCause::Shape => TraceCause::Shape,
            StepCause::Number => TraceCause::Number,
            StepCause::Node => TraceCause::Node,
            StepCause::Line => TraceCause::Line,
        }
    }
}

/// Why an input is no trace. Lines are counted from 1, with those that are skipped.
#[derive(Clone, Copy, Debug, PartialEq, Eq, Error)]
pub enum TraceError {
    #[error("line {line}: {cause}")]
    Bad { line: u64, cause: TraceCause },
    #[error("more than 100000 operations")]
    TooManyOps,
    #[error("more than 1000000 steps")]
    TooManySteps,
    #[error("no memory")]
    Memory,
}

impl From<AllocError> for TraceError {
    ghost use Rattle.std.specs.Prelude.{◌≡◌};
    ghost use Rattle.trace_text.specs.declared.fault.TraceError.TheVariants.{Memory};

    ghost from_gives = { λ _ e. e ≡ Memory };

    fn from(_e: AllocError) -> TraceError {
        TraceError::Memory
    }
}

impl<T: Drop> From<AllocFailed<T>> for TraceError {
    ghost use Rattle.std.specs.Prelude.{◌≡◌};
    ghost use Rattle.trace_text.specs.declared.fault.TraceError.TheVariants.{Memory};

    ghost from_gives = { λ _ e. e ≡ Memory };

    fn from(_e: AllocFailed<T>) -> TraceError {
        TraceError::Memory
    }
}
