//! The text of a fault, written without taking memory.

ghost use Rattle.std.specs.Prelude.{◌≡◌, ◌++◌, codes, decimal, OnOk, OnErr};
ghost use Rattle.std.specs.Io.KnownBytes.{Appends};
ghost use Rattle.byte_io.specs.Faults.{HasCause};
ghost use Rattle.byte_io.specs.Moves.{AppendsPart};
ghost use Rattle.chart_top.specs.Faults.{chart_fault_text};

use crate::status::ChartStatus;
use byte_io::{Failed, Sink, write_all, write_pieces};
use flash_top::tell;
use itoa::Buffer;

fn tell_count<F: Sink>(err: &mut F, before: &str, count: u64) -> Result<(), Failed>
    ensures whole { OnOk result (Appends (F.written err.old) (F.written err.new) (before.now ++ (decimal count ++ codes "\n"))) }
    ensures part { OnErr result (AppendsPart (F.written err.old) (F.written err.new) (before.now ++ (decimal count ++ codes "\n"))) }
    ensures cause { HasCause (F.faults err.old) (F.faults err.new) result }
{
    let mut digits = Buffer::new();
    let number = digits.format(count).as_bytes();
    write_pieces(err, &[before.as_bytes(), number, b"\n"])
}

/// Writes the text of a status. What is written is a part of the text from its beginning, and all of it where no write failed.
pub(crate) fn tell_chart<F: Sink>(err: &mut F, status: ChartStatus) -> Result<(), Failed>
    ensures whole { OnOk result (Appends (F.written err.old) (F.written err.new) (chart_fault_text status)) }
    ensures part { OnErr result (AppendsPart (F.written err.old) (F.written err.new) (chart_fault_text status)) }
    ensures cause { HasCause (F.faults err.old) (F.faults err.new) result }
{
    match status {
        ChartStatus::Usage => write_all(
            err,
            b"flash_chart: usage: nothing, or the number of a line\n",
        ),
        ChartStatus::TooManyNodes { count } => {
            tell_count(err, "flash_chart: more than 16 nodes: ", u64::from(count))
        }
        ChartStatus::TooManyShown { count } => {
            tell_count(err, "flash_chart: more than 400 steps: ", count)
        }
        ChartStatus::Plain(status) => tell(err, status),
    }
}
