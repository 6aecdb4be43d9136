//! A source over std's readers, and a sink over std's writers.

ghost use Rattle.std.specs.Prelude.{◌≡◌};

use crate::traits::{Failed, Sink, Source};
use std::io::{Read, Write};
use std::marker::Model;

/// A reader that counts its errors. An interrupted read is an error like others.
#[derive(Drop)]
pub struct StdSource<R: Read> {
    inner: R,
    faults: u64,
}

impl<R: Read> Model for StdSource<R> {
    ghost use Rattle.byte_io.specs.Adapters.{Told};

    ghost Value = { Told };

    ghost view = { λ s. record { bytes = R.remaining s.inner; faults = s.faults } };
}

impl<R: Read> StdSource<R> {
    /// A source of the bytes that a reader has left; no read of it has failed yet.
    pub fn new(inner: R) -> StdSource<R>
        ensures { result ≡ record { bytes = R.remaining inner; faults = 0 } }
    {
        StdSource { inner, faults: 0 }
    }
}

impl<R: Read> Source for StdSource<R> {
    ghost left = { λ s. s.bytes };

    ghost faults = { λ s. s.faults };

    fn read(&mut self, buf: &mut [u8]) -> Result<usize, Failed> {
        match self.inner.read(buf) {
            Ok(count) => Ok(count),
            Err(_) => {
                self.faults = self.faults.saturating_add(1);
                Err(Failed)
            }
        }
    }
}

/// A writer that counts its errors. A write that takes nothing of a piece that isn't empty counts as an error.
#[derive(Drop)]
pub struct StdSink<W: Write> {
    inner: W,
    faults: u64,
}

impl<W: Write> Model for StdSink<W> {
    ghost use Rattle.byte_io.specs.Adapters.{Told};

    ghost Value = { Told };

    ghost view = { λ s. record { bytes = W.contents s.inner; faults = s.faults } };
}

impl<W: Write> StdSink<W> {
    /// A sink that hands its bytes on to a writer, with what that holds already; no write to it has failed yet.
    pub fn new(inner: W) -> StdSink<W>
        ensures { result ≡ record { bytes = W.contents inner; faults = 0 } }
    {
        StdSink { inner, faults: 0 }
    }
}

impl<W: Write> Sink for StdSink<W> {
    ghost written = { λ s. s.bytes };

    ghost faults = { λ s. s.faults };

    fn write(&mut self, bytes: &[u8]) -> Result<usize, Failed> {
        match self.inner.write(bytes) {
            Ok(count) if count > 0 || bytes.is_empty() => Ok(count),
            _ => {
                self.faults = self.faults.saturating_add(1);
                Err(Failed)
            }
        }
    }
}
