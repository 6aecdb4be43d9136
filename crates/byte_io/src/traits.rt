//! What a source and a sink promise.

ghost use Rattle.std.specs.Prelude.{ℕ, ◌<◌, List, length, IfOk, Option};
ghost use Rattle.std.specs.Io.{ReadsAtMost, WritesAtMost};
ghost use Rattle.std.specs.Io.KnownBytes.{ReadConsumes, WriteAppends};
ghost use Rattle.byte_io.specs.Faults.{HasCause};

/// A read or a write failed, and moved nothing.
#[derive(Clone, Copy, Debug, PartialEq, Eq)]
pub struct Failed;

/// Where bytes come from.
pub trait Source {
    /// The bytes that are left, where the source tells them.
    ghost left: { Self → Option (List ℕ) };
    /// How many faults there were. It never falls, and it stays at the greatest u64.
    ghost faults: { Self → ℕ };

    /// Moves bytes from the front of what is left into the front of `buf`, and answers how many. For a buffer that isn't empty 0 is the end.
    fn read(&mut self, buf: &mut [u8]) -> Result<usize, Failed>
        ensures bound { ReadsAtMost result buf.new }
        ensures bytes { ReadConsumes (left self.old) (left self.new) result buf.new }
        ensures cause { HasCause (faults self.old) (faults self.new) result };
}

/// Where bytes go.
pub trait Sink {
    /// The bytes written so far, where the sink tells them.
    ghost written: { Self → Option (List ℕ) };
    /// How many faults there were. It never falls, and it stays at the greatest u64.
    ghost faults: { Self → ℕ };

    /// Appends a prefix of `bytes`, and answers its length. A prefix of bytes that aren't empty isn't empty.
    fn write(&mut self, bytes: &[u8]) -> Result<usize, Failed>
        ensures bound { WritesAtMost result bytes.now }
        ensures some { IfOk result (λ n. 0 < length bytes.now → 0 < n) }
        ensures appends { WriteAppends (written self.old) (written self.new) result bytes.now }
        ensures cause { HasCause (faults self.old) (faults self.new) result };
}
