//! Why a history is refused.

use op_model::NoMemory;
use std::alloc::{AllocError, AllocFailed};
use std::fmt;
use thiserror::Error;
use trace_text::TraceCause;

/// The causes of a bad entry, in the order in which they count.
#[derive(Clone, Copy, Debug, PartialEq, Eq)]
pub enum EntryCause {
    /// The machine has no such node, or the node's program no such operation.
    Foreign,
    /// The operation isn't the next one of its node.
    Order,
    /// The operation has another kind, another word or another operand.
    Differs,
    /// The value or the old value isn't that of the flat memory.
    Value,
}

impl EntryCause {
    ghost use Rattle.std.specs.Prelude.{◌≡◌};
    ghost use Rattle.hist_check.specs.CauseNames.{cause_name};

    /// The name that is printed.
    pub fn name(self) -> &'static str
        ensures { result.now ≡ cause_name self }
    {
        match self {
            EntryCause::Foreign => "Foreign",
            EntryCause::Order => "Order",
            EntryCause::Differs => "Differs",
            EntryCause::Value => "Value",
        }
    }
}

impl fmt::Display for EntryCause {
    fn fmt<W: fmt::Write>(&self, f: &mut fmt::Formatter<W>) -> fmt::Result {
        f.write_str(self.name())
    }
}

/// Why no answer on a history is given: its first bad entry, counted from 1, with the first cause of it, or want of memory.
#[derive(Clone, Copy, Debug, PartialEq, Eq, Error)]
pub enum CheckError {
    #[error("entry {entry}: {cause}")]
    Bad { entry: u64, cause: EntryCause },
    #[error("no memory")]
    Memory,
}

impl From<NoMemory> for CheckError {
    ghost use Rattle.std.specs.Prelude.{◌≡◌};
    ghost use Rattle.hist_check.specs.declared.fault.CheckError.TheVariants.{Memory};

    ghost from_gives = { λ _ e. e ≡ Memory };

    fn from(_e: NoMemory) -> CheckError {
        CheckError::Memory
    }
}

/// Why no history was read: the first bad line of the text, with the first cause of it, or want of memory.
#[derive(Clone, Copy, Debug, PartialEq, Eq, Error)]
pub enum EntriesError {
    #[error("line {line}: {cause}")]
    Bad { line: u64, cause: TraceCause },
    #[error("no memory")]
    Memory,
}

impl From<AllocError> for EntriesError {
    ghost use Rattle.std.specs.Prelude.{◌≡◌};
    ghost use Rattle.hist_check.specs.declared.fault.EntriesError.TheVariants.{Memory};

    ghost from_gives = { λ _ e. e ≡ Memory };

    fn from(_e: AllocError) -> EntriesError {
        EntriesError::Memory
    }
}

impl<T: Drop> From<AllocFailed<T>> for EntriesError {
    ghost use Rattle.std.specs.Prelude.{◌≡◌};
    ghost use Rattle.hist_check.specs.declared.fault.EntriesError.TheVariants.{Memory};

    ghost from_gives = { λ _ e. e ≡ Memory };

    fn from(_e: AllocFailed<T>) -> EntriesError {
        EntriesError::Memory
    }
}
