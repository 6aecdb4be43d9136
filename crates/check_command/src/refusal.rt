//! Why a history isn't told to be good.

use hist_check::{CheckError, EntryCause};
use op_model::NoMemory;
use trace_text::TraceError;

/// Why an input has no text.
#[derive(Clone, Copy, Debug, PartialEq, Eq)]
pub enum CheckRefusal {
    /// A fault of the trace, or else of the lines behind it; or want of memory. Lines are numbered through the whole input.
    Input(TraceError),
    /// The history isn't good: its first bad entry, counted from 1, with the first cause of it.
    IllegalHistory { entry: u64, cause: EntryCause },
}

impl From<TraceError> for CheckRefusal {
    ghost use Rattle.std.specs.Prelude.{◌≡◌};
    ghost use Rattle.check_command.specs.declared.refusal.CheckRefusal.TheVariants.{Input};

    ghost from_gives = { λ fault refusal. refusal ≡ Input fault };

    fn from(fault: TraceError) -> CheckRefusal {
        CheckRefusal::Input(fault)
    }
}

impl From<CheckError> for CheckRefusal {
    ghost use Rattle.std.specs.Prelude.{◌≡◌};
    ghost use Rattle.check_command.specs.Checked.{refusal_of};

    ghost from_gives = { λ error refusal. refusal ≡ refusal_of error };

    fn from(error: CheckError) -> CheckRefusal {
        match error {
            CheckError::Bad { entry, cause } => CheckRefusal::IllegalHistory { entry, cause },
            CheckError::Memory => CheckRefusal::Input(TraceError::Memory),
        }
    }
}

impl From<NoMemory> for CheckRefusal {
    ghost use Rattle.std.specs.Prelude.{◌≡◌};
    ghost use Rattle.trace_text.specs.declared.fault.TraceError.TheVariants.{Memory};
    ghost use Rattle.check_command.specs.declared.refusal.CheckRefusal.TheVariants.{Input};

    ghost from_gives = { λ _ refusal. refusal ≡ Input Memory };

    fn from(_e: NoMemory) -> CheckRefusal {
        CheckRefusal::Input(TraceError::Memory)
    }
}
