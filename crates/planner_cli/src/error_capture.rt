//! Readers and writers that keep the system's error of a failed call, so that it can be printed at the end.
ghost use Rattle.std.specs.Prelude.{◌≡◌, None};
ghost use Rattle.std.specs.Io.{ReadsAtMost, WritesAtMost};
ghost use Rattle.std.specs.Io.KnownBytes.{Keeps, ReadConsumes, WriteAppends};
ghost use Rattle.std.specs.IoError.{error_kind};
ghost use Rattle.planner_cli.specs.ErrorCapture.{cause_after};

use crate::messages::report_cause;
use crate::program::Streams;
use std::io;
use std::io::{Read, Write};
use system_calls::is_interruption;

/// A reader or a writer that keeps the system's error of its last failed call. Interrupted calls do not count.
#[derive(Drop)]
pub struct ErrorCapture<T> {
    inner: T,
    cause: Option<io::Error>,
}

impl<T> ErrorCapture<T> {
    /// Wraps a reader or a writer. No call has failed yet.
    pub fn new(inner: T) -> ErrorCapture<T>
        ensures inner { result.inner ≡ inner }
        ensures cause { result.cause ≡ None }
    {
        ErrorCapture { inner, cause: None }
    }

    /// Returns the system's error of the last failed call, if a call has failed.
    pub fn cause(&self) -> Option<io::Error>
        ensures { result ≡ self.now.cause }
    {
        self.cause
    }
}

/// Forwards each call, and keeps the error of a failed one.
impl<R: Read> Read for ErrorCapture<R> {
    ghost remaining = { λ r. R.remaining r.inner };

    fn read(&mut self, buf: &mut [u8]) -> io::Result<usize>
        ensures bound { ReadsAtMost result buf.new }
        ensures bytes { ReadConsumes (R.remaining self.old.inner) (R.remaining self.new.inner)
            result buf.new }
        ensures cause { self.new.cause ≡ cause_after self.old.cause result }
    {
        let outcome = self.inner.read(buf);
        self.cause = cause_after(self.cause, &outcome);
        outcome
    }
}

/// Forwards each call, and keeps the error of a failed one.
impl<W: Write> Write for ErrorCapture<W> {
    ghost contents = { λ w. W.contents w.inner };

    fn write(&mut self, buf: &[u8]) -> io::Result<usize>
        ensures bound { WritesAtMost result buf.now }
        ensures bytes { WriteAppends (W.contents self.old.inner) (W.contents self.new.inner)
            result buf.now }
        ensures cause { self.new.cause ≡ cause_after self.old.cause result }
    {
        let outcome = self.inner.write(buf);
        self.cause = cause_after(self.cause, &outcome);
        outcome
    }

    fn flush(&mut self) -> io::Result<()>
        ensures bytes { Keeps (W.contents self.old.inner) (W.contents self.new.inner) }
        ensures cause { self.new.cause ≡ cause_after self.old.cause result }
    {
        let outcome = self.inner.flush();
        self.cause = cause_after(self.cause, &outcome);
        outcome
    }
}

// Returns the error to keep after a call.
fn cause_after<T>(cause: Option<io::Error>, outcome: &io::Result<T>) -> Option<io::Error>
    ensures { result ≡ cause_after cause outcome.now }
{
    match outcome {
        Ok(_) => cause,
        Err(error) => {
            if is_interruption(error.kind()) {
                cause
            } else {
                Some(*error)
            }
        }
    }
}

/// Prints on standard error the system's error of the input or of the output, if one of them has failed.
pub fn report_causes<R: Eprint, I: Drop, W: Drop, E: Drop>(
    rt: &R,
    streams: Streams<ErrorCapture<I>, ErrorCapture<W>, E>,
) {
    let Streams { input, output, .. } = streams;
    report_cause(rt, "input", input.into_inner().cause());
    report_cause(rt, "output", output.into_inner().cause());
}
