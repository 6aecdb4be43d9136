//! Where the trace of an input ends.

ghost use Rattle.std.specs.Prelude.{◌≡◌, ◌+◌, ◌<◌, ◌^◌, length, Ok, Err};
ghost use Rattle.op_model.specs.Shares.{Trace};
ghost use Rattle.text_lines.specs.Lines.{lines_of};
ghost use Rattle.trace_text.specs.declared.fault.TraceError.{TraceError};
ghost use Rattle.trace_text.specs.Reading.{trace_of};
ghost use Rattle.hist_check.specs.Cut.{EndThere, IsCut, IsFirstLine, with_rest};

use memchr::memchr;
use text_lines::bare;

/// An input in two pieces: its trace, up to and with the line `end`, and what comes behind it, which begins with the line of the number `next`.
#[derive(Clone, Copy)]
pub struct Cut<'a> {
    pub trace: &'a [u8],
    pub rest: &'a [u8],
    pub next: u64,
}

/// The first line without its end, and what comes behind it.
fn first_line(bytes: &[u8]) -> (&[u8], &[u8])
    requires { 0 < length bytes.now }
    ensures { IsFirstLine bytes.now result.0.now result.1.now }
{
    match memchr(b'\n', bytes) {
        Some(end) => (&bytes[..end], &bytes[end + 1..]),
        None => (bytes, &[]),
    }
}

/// Cuts an input behind its trace: the trace ends with the first line `end`, and the rest begins behind the 0x0A of that line. Where there is no such line all of the input is the trace, and the rest is empty.
///
/// What the whole input is as a trace is told by the pieces: a fault of the trace is that of the whole; a trace without a fault is the whole only where no line of the rest counts. A trace without a fault has its line `end`.
pub fn cut_trace(bytes: &[u8]) -> Cut<'_>
    ensures cut { IsCut bytes.now result.trace.now result.rest.now result.next }
    ensures room { result.next + length result.rest.now < 2 ^ 64 }
    ensures whole { trace_of bytes.now ≡ with_rest result.next result.rest.now (trace_of result.trace.now) }
    ensures fault { (e : TraceError) → trace_of result.trace.now ≡ Err e → trace_of bytes.now ≡ Err e }
    ensures ends { (trace : Trace) → trace_of result.trace.now ≡ Ok trace → EndThere (lines_of result.trace.now) }
{
    let mut rest = bytes;
    let mut next: u64 = 1;
    while !rest.is_empty() {
        let (line, behind) = first_line(rest);
        next += 1;
        if bare(line) == b"end".as_slice() {
            let trace = &bytes[..bytes.len() - behind.len()];
            return Cut {
                trace,
                rest: behind,
                next,
            };
        }
        rest = behind;
    }
    Cut {
        trace: bytes,
        rest,
        next,
    }
}
