//! Reading a source to its end, and writing a text whole.

ghost use Rattle.std.specs.Prelude.{◌≡◌, ◌≤◌, flat_map, IfOk, IfErr, OnOk, OnErr};
ghost use Rattle.std.specs.Io.KnownBytes.{Appends};
ghost use Rattle.byte_io.specs.Faults.{HasCause};
ghost use Rattle.byte_io.specs.Moves.{ReadsAll, ReadsUntil, AppendsPart};

use crate::traits::{Failed, Sink, Source};
use std::alloc::Global;

/// The most bytes that `read_all` hands out.
pub const MOST_BYTES: usize = 16_777_216;

/// How many bytes a read is asked for at once.
const PIECE: usize = 8192;

/// Why reading stopped before the end.
#[derive(Clone, Copy, Debug, PartialEq, Eq)]
pub enum ReadStop {
    /// A read failed.
    Fault,
    /// More than `MOST_BYTES` bytes came. One byte more than these was read.
    TooLong,
    /// Want of memory.
    Memory,
}

/// All bytes of a source, which are at most `MOST_BYTES`. It ends with the first read that fails.
pub fn read_all<S: Source>(alloc: Global, source: &mut S) -> Result<Vec<u8>, ReadStop>
    ensures whole { IfOk result (λ v. ReadsAll (S.left source.old) (S.left source.new) v.items) }
    ensures stop { IfErr result (λ e. ReadsUntil (S.left source.old) (S.left source.new) (S.faults source.old) (S.faults source.new) e) }
    ensures quiet { OnOk result (S.faults source.new ≡ S.faults source.old) }
    ensures later { S.faults source.old ≤ S.faults source.new }
{
    let mut bytes: Vec<u8> = Vec::new(alloc);
    let mut piece = [0u8; PIECE];
    while bytes.len() <= MOST_BYTES {
        let room = (MOST_BYTES + 1 - bytes.len()).min(PIECE);
        match source.read(&mut piece[..room]) {
            Ok(0) => return Ok(bytes),
            Ok(count) => match bytes.extend_from_slice(&piece[..count]) {
                Ok(()) => {}
                Err(_) => return Err(ReadStop::Memory),
            },
            Err(Failed) => return Err(ReadStop::Fault),
        }
    }
    Err(ReadStop::TooLong)
}

/// Writes all bytes. Each write is given the whole rest, and it ends with the first write that fails.
pub fn write_all<K: Sink>(sink: &mut K, bytes: &[u8]) -> Result<(), Failed>
    ensures whole { OnOk result (Appends (K.written sink.old) (K.written sink.new) bytes.now) }
    ensures part { OnErr result (AppendsPart (K.written sink.old) (K.written sink.new) bytes.now) }
    ensures cause { HasCause (K.faults sink.old) (K.faults sink.new) result }
{
    let mut sent = 0;
    while sent < bytes.len() {
        sent += sink.write(&bytes[sent..])?;
    }
    Ok(())
}

/// Writes the pieces one after the other, each as `write_all` does, and takes no memory.
pub fn write_pieces<K: Sink>(sink: &mut K, pieces: &[&[u8]]) -> Result<(), Failed>
    ensures whole { OnOk result (Appends (K.written sink.old) (K.written sink.new) (flat_map (λ p. p.now) pieces.now)) }
    ensures part { OnErr result (AppendsPart (K.written sink.old) (K.written sink.new) (flat_map (λ p. p.now) pieces.now)) }
    ensures cause { HasCause (K.faults sink.old) (K.faults sink.new) result }
{
    for piece in pieces {
        write_all(sink, piece)?;
    }
    Ok(())
}
