//! The text of a fault, written without taking memory.

ghost use Rattle.std.specs.Prelude.{◌≡◌, ◌++◌, codes, decimal, OnOk, OnErr};
ghost use Rattle.std.specs.Io.KnownBytes.{Appends};
ghost use Rattle.byte_io.specs.Faults.{HasCause};
ghost use Rattle.byte_io.specs.Moves.{AppendsPart};
ghost use Rattle.flash_top.specs.Faults.{fault_text, fixed_text, numbered_text};

use crate::status::Status;
use byte_io::{Failed, Sink, write_all, write_pieces};
use itoa::Buffer;

fn fixed(status: Status) -> &'static str
    ensures { result.now ≡ fixed_text status }
{
    match status {
        Status::Done
        | Status::BadTrace { .. }
        | Status::NotEnabled { .. }
        | Status::IllegalHistory { .. }
        | Status::TooFar { .. }
        | Status::NoLine { .. } => "",
        Status::Usage =>
            "flash: usage: serial, seeded S, replay, run, gen K S, check, bits serial, bits replay, at T, story G, eager serial, eager replay\n",
        Status::TooLong => "flash: more than 16777216 bytes\n",
        Status::TooManyOps => "flash: more than 100000 operations\n",
        Status::TooManySteps => "flash: more than 1000000 steps\n",
        Status::ReadFault => "flash: read fault\n",
        Status::WriteFault => "flash: write fault\n",
        Status::Memory => "flash: no memory\n",
    }
}

fn tell_numbered<F: Sink>(err: &mut F, what: &str, number: u64, cause: &str) -> Result<(), Failed>
    ensures whole { OnOk result (Appends (F.written err.old) (F.written err.new) (numbered_text what.now number cause.now)) }
    ensures part { OnErr result (AppendsPart (F.written err.old) (F.written err.new) (numbered_text what.now number cause.now)) }
    ensures cause { HasCause (F.faults err.old) (F.faults err.new) result }
{
    let mut digits = Buffer::new();
    let number = digits.format(number).as_bytes();
    write_pieces(
        err,
        &[what.as_bytes(), number, b": ", cause.as_bytes(), b"\n"],
    )
}

fn tell_number<F: Sink>(err: &mut F, before: &str, number: u64, after: &str) -> Result<(), Failed>
    ensures whole { OnOk result (Appends (F.written err.old) (F.written err.new) (before.now ++ (decimal number ++ after.now))) }
    ensures part { OnErr result (AppendsPart (F.written err.old) (F.written err.new) (before.now ++ (decimal number ++ after.now))) }
    ensures cause { HasCause (F.faults err.old) (F.faults err.new) result }
{
    let mut digits = Buffer::new();
    let number = digits.format(number).as_bytes();
    write_pieces(err, &[before.as_bytes(), number, after.as_bytes()])
}

/// Writes the text of a status. What is written is a part of the text from its beginning, and all of it where no write failed.
pub fn tell<F: Sink>(err: &mut F, status: Status) -> Result<(), Failed>
    ensures whole { OnOk result (Appends (F.written err.old) (F.written err.new) (fault_text status)) }
    ensures part { OnErr result (AppendsPart (F.written err.old) (F.written err.new) (fault_text status)) }
    ensures cause { HasCause (F.faults err.old) (F.faults err.new) result }
{
    match status {
        Status::BadTrace { line, cause } => tell_numbered(err, "flash: line ", line, cause.name()),
        Status::NotEnabled { step, cause } => tell_numbered(
            err,
            "flash: step ",
            step,
            cause.name(),
        ),
        Status::IllegalHistory { entry, cause } => tell_numbered(
            err,
            "flash: entry ",
            entry,
            cause.name(),
        ),
        Status::TooFar { count } => tell_number(err, "flash: only ", count, " steps\n"),
        Status::NoLine { line } => tell_number(err, "flash: no line ", u64::from(line), "\n"),
        Status::Done
        | Status::Usage
        | Status::TooLong
        | Status::TooManyOps
        | Status::TooManySteps
        | Status::ReadFault
        | Status::WriteFault
        | Status::Memory => write_all(err, fixed(status).as_bytes()),
    }
}
