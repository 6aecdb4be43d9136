//! How a chart ends.

ghost use Rattle.std.specs.Prelude.{◌≡◌};

use flash_top::Status;

/// How a call for a chart ended.
#[derive(Clone, Copy, Debug, PartialEq, Eq)]
pub enum ChartStatus {
    /// The words are neither nothing nor the number of a line. Nothing was read.
    Usage,
    /// The machine has more nodes than a chart shows: so many.
    TooManyNodes { count: u32 },
    /// The trace has more steps than a chart shows: so many.
    TooManyShown { count: u64 },
    /// As a command of `flash` ends.
    Plain(Status),
}

impl ChartStatus {
    ghost use Rattle.chart_top.specs.Faults.{code_of_chart};

    /// The exit code.
    pub fn code(&self) -> u8
        ensures { result ≡ code_of_chart self.now }
    {
        match self {
            ChartStatus::Usage => 1,
            ChartStatus::TooManyNodes { .. } => 11,
            ChartStatus::TooManyShown { .. } => 12,
            ChartStatus::Plain(status) => status.code(),
        }
    }
}
