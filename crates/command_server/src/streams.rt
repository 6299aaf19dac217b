//! The input and output of serving: readers and writers that report whether they have failed.
//!
//! Std's `Read` and `Write` do not say when a call may fail. A `Source` and a `Sink` report whether one has, so
//! that a contract can name the cause of a fault. Nor does std know the bytes of standard input. So the bytes
//! that reads return are recorded for contracts, and a guarantee about an input holds for every text that
//! begins with these bytes. After the end of the input it holds only for the text of exactly these bytes. A
//! slice of bytes is a source that never fails.
ghost use Rattle.std.specs.Prelude.{◌≡◌, ◌<◌, ◌≤◌, [], ℕ, List, Option, Bool, true, false, None, Some, IfOk, IfSome, IsNone, OnErr, OnOk, length, take};
ghost use Rattle.std.specs.Io.{ReadsAtMost, WritesAtMost};
ghost use Rattle.std.specs.Io.KnownBytes.{Appends, Keeps, ReadConsumes, WriteAppends};
ghost use Rattle.command_server.specs.Streams.{Flushes, GaveText, Origin, Puts, ReadsSome, Stream, WritesSome, WritesUpTo, began_with, ended_by, rest_after};

use crate::events::Events;
use recover::Session;
use sector_disk::Sectors;
use std::io;
use std::io::{Read, Write};
use system_calls::retry;

/// The failure of a reader's or a writer's call.
#[derive(Clone, Copy, Debug, PartialEq, Eq)]
pub struct IoFault;

/// A reader of commands.
pub trait Source {
    // The bytes still to come, if they are known.
    ghost remaining: { Self → Option (List ℕ) };

    // Whether this text may be the input: it begins with all bytes that the calls returned, and has no others if
    // a call has returned nothing.
    ghost gave: { Self → List ℕ → Type 0 };

    // The part of such a text that was not returned yet.
    ghost left: { Self → List ℕ → List ℕ };

    // Whether a call has failed.
    ghost has_failed: { Self → Bool };

    /// Reads into the block and returns the number of bytes. It is 0 only at the end or if the block is empty.
    fn read_some(&mut self, block: &mut [u8]) -> Result<usize, IoFault>
        ensures bound { ReadsAtMost result block.new }
        ensures bytes { ReadConsumes (remaining self.old) (remaining self.new) result block.new }
        ensures gave { (text : List ℕ) → gave self.new text → gave self.old text }
        ensures text { (text : List ℕ) → gave self.new text
            → ReadConsumes (Some (left self.old text)) (Some (left self.new text))
            result block.new }
        ensures failed { OnErr result (has_failed self.new ≡ true) };
}

/// A writer of answers. Each call takes the session that is served, so that contracts can say how many calls of
/// its device had finished.
pub trait Sink {
    // The bytes that the sink holds, if they are known, and the writes and flushes so far.
    ghost stream: { Self → Stream };

    // Whether a call has failed.
    ghost has_failed: { Self → Bool };

    // The properties that no call changes.
    ghost origin: { Self → Origin };

    /// Writes a text. If a call fails, a prefix of the text is written.
    fn put<D: Sectors>(&mut self, session: &Session<D>, text: &[u8]) -> Result<(), IoFault>
        ensures puts { Puts (stream self.old) (stream self.new) result
            (D.calls session.now.device) text.now }
        ensures failed { OnErr result (has_failed self.new ≡ true) }
        ensures origin { origin self.new ≡ origin self.old };

    /// Flushes what was written.
    fn flush<D: Sectors>(&mut self, session: &Session<D>) -> Result<(), IoFault>
        ensures flushes { Flushes (stream self.old) (stream self.new) result
            (D.calls session.now.device) }
        ensures failed { OnErr result (has_failed self.new ≡ true) }
        ensures kept { OnOk result (has_failed self.new ≡ has_failed self.old) }
        ensures origin { origin self.new ≡ origin self.old };
}

/// A reader or a writer, with a record of whether a call as a source or a sink has failed.
#[derive(Drop)]
pub struct FailureTracking<T> {
    pub(crate) inner: T,
    has_failed: bool,
    /// Whether a read returned nothing, so that the input is at its end.
    has_ended: bool,
    pub(crate) log: Events,
    ghost ended: { has_ended ≡ ended_by log.reads },
}

/// The record of a `FailureTracking`, without its reader or writer.
#[derive(Drop)]
pub struct TrackingState {
    has_failed: bool,
    has_ended: bool,
    log: Events,
    ghost ended: { has_ended ≡ ended_by log.reads },
}

impl<T> FailureTracking<T> {
    /// Wraps a reader or a writer. No call has failed yet, and nothing is recorded yet.
    pub fn new(inner: T) -> FailureTracking<T>
        ensures inner { result.inner ≡ inner }
        ensures has_failed { result.has_failed ≡ false }
        ensures has_ended { result.has_ended ≡ false }
        ensures log { result.log.events ≡ [] }
        ensures reads { result.log.reads ≡ [] }
    {
        FailureTracking {
            inner,
            has_failed: false,
            has_ended: false,
            log: Events::new(),
        }
    }

    /// Returns whether a call as a source or a sink has failed.
    pub fn has_failed(&self) -> bool
        ensures { result ≡ self.now.has_failed }
    {
        self.has_failed
    }

    /// Returns the reader or writer.
    pub fn into_inner(self) -> T
        ensures { result ≡ self.inner }
    {
        self.inner
    }

    /// Splits into the reader or writer and the record so far. The reader or writer can then be called
    /// directly.
    pub fn into_parts(self) -> (T, TrackingState)
        ensures inner { result.0 ≡ self.inner }
        ensures has_failed { result.1.has_failed ≡ self.has_failed }
        ensures log { result.1.log.events ≡ self.log.events }
        ensures reads { result.1.log.reads ≡ self.log.reads }
    {
        let FailureTracking {
            inner,
            has_failed,
            has_ended,
            log,
        } = self;
        let noted = TrackingState {
            has_failed,
            has_ended,
            log,
        };
        (inner, noted)
    }

    /// Puts a reader or writer and its record together again.
    pub fn from_parts(inner: T, noted: TrackingState) -> FailureTracking<T>
        ensures inner { result.inner ≡ inner }
        ensures has_failed { result.has_failed ≡ noted.has_failed }
        ensures log { result.log.events ≡ noted.log.events }
        ensures reads { result.log.reads ≡ noted.log.reads }
    {
        let TrackingState {
            has_failed,
            has_ended,
            log,
        } = noted;
        FailureTracking {
            inner,
            has_failed,
            has_ended,
            log,
        }
    }
}

impl<W: Write> FailureTracking<W> {
    ghost use Rattle.command_server.specs.TrackedStream.{held};

    /// Writes a text like `put` of a sink, while no session holds the device.
    pub fn put_for_device<D: Sectors>(&mut self, device: &D, text: &[u8]) -> Result<(), IoFault>
        ensures puts { Puts (held W.contents self.old) (held W.contents self.new) result
            (D.calls device.now) text.now }
        ensures failed { OnErr result (self.new.has_failed ≡ true) }
    {
        match write_text(&mut self.inner, text) {
            Ok(()) => {
                self.log = self.log.with_put_for_device(device, text);
                Ok(())
            }
            Err(len) => {
                self.has_failed = true;
                self.log = self.log.with_put_for_device(device, &text[..len]);
                Err(IoFault)
            }
        }
    }
}

/// Repeats a call that a signal interrupts, and records the bytes of each read into a block that is not empty.
/// After a read that returned nothing, no more calls are made, since a terminal may return bytes after its end.
/// So the bytes that the reads returned are the input, whatever the reader is.
impl<R: Read> Source for FailureTracking<R> {
    ghost use Rattle.command_server.specs.TrackedStream.{still_known};

    ghost remaining = { still_known R.remaining };

    ghost gave = { λ r text. GaveText r.log.reads text };

    ghost left = { λ r text. rest_after r.log.reads text };

    ghost has_failed = { λ r. r.has_failed };

    fn read_some(&mut self, block: &mut [u8]) -> Result<usize, IoFault> {
        if self.has_ended {
            return Ok(0);
        }
        match read_once(&mut self.inner, block) {
            Some(len) => {
                if !block.is_empty() {
                    self.log = self.log.with_read(&block[..len]);
                    self.has_ended = len == 0;
                }
                Ok(len)
            }
            None => {
                self.has_failed = true;
                Err(IoFault)
            }
        }
    }
}

impl<W: Write> FailureTracking<W> {
    /// Flushes what was written. Records whether the call has failed, but not the flush itself.
    pub(crate) fn flush_unlogged(&mut self) -> Result<(), IoFault>
        ensures kept { Keeps (W.contents self.old.inner) (W.contents self.new.inner) }
        ensures log { self.new.log ≡ self.old.log }
        ensures failed { OnErr result (self.new.has_failed ≡ true) }
        ensures passes { OnOk result (self.new.has_failed ≡ self.old.has_failed) }
        ensures noted { self.new.has_failed ≡ false → self.old.has_failed ≡ false }
    {
        if self.inner.flush().is_err() {
            self.has_failed = true;
            return Err(IoFault);
        }
        Ok(())
    }
}

/// Repeats a call that a signal interrupts. A call that writes no byte of a nonempty text counts as failed.
impl<W: Write> Sink for FailureTracking<W> {
    ghost use Rattle.command_server.specs.TrackedStream.{held};

    ghost stream = { held W.contents };

    ghost has_failed = { λ w. w.has_failed };

    ghost origin = { λ _. began_with None };

    fn put<D: Sectors>(&mut self, session: &Session<D>, text: &[u8]) -> Result<(), IoFault>
        ensures puts { Puts (held W.contents self.old) (held W.contents self.new) result
            (D.calls session.now.device) text.now }
        ensures failed { OnErr result (self.new.has_failed ≡ true) }
        ensures passes { OnOk result (self.new.has_failed ≡ self.old.has_failed) }
        ensures noted { self.new.has_failed ≡ false → self.old.has_failed ≡ false }
    {
        match write_text(&mut self.inner, text) {
            Ok(()) => {
                self.log = self.log.with_put(session, text);
                Ok(())
            }
            Err(len) => {
                self.has_failed = true;
                self.log = self.log.with_put(session, &text[..len]);
                Err(IoFault)
            }
        }
    }

    fn flush<D: Sectors>(&mut self, session: &Session<D>) -> Result<(), IoFault>
        ensures flushes { Flushes (held W.contents self.old) (held W.contents self.new) result
            (D.calls session.now.device) }
        ensures failed { OnErr result (self.new.has_failed ≡ true) }
        ensures kept { OnOk result (self.new.has_failed ≡ self.old.has_failed) }
        ensures noted { self.new.has_failed ≡ false → self.old.has_failed ≡ false }
    {
        self.flush_unlogged()?;
        self.log = self.log.with_flush(session);
        Ok(())
    }
}

/// Passes each call on and records nothing, since the caller gets the result.
impl<W: Write> Write for FailureTracking<W> {
    ghost contents = { λ w. W.contents w.inner };

    fn write(&mut self, buf: &[u8]) -> io::Result<usize>
        ensures bound { WritesAtMost result buf.now }
        ensures bytes { WriteAppends (W.contents self.old.inner) (W.contents self.new.inner)
            result buf.now }
        ensures has_failed { self.new.has_failed ≡ self.old.has_failed }
        ensures log { self.new.log ≡ self.old.log }
    {
        self.inner.write(buf)
    }

    fn flush(&mut self) -> io::Result<()>
        ensures bytes { Keeps (W.contents self.old.inner) (W.contents self.new.inner) }
        ensures has_failed { self.new.has_failed ≡ self.old.has_failed }
        ensures log { self.new.log ≡ self.old.log }
    {
        self.inner.flush()
    }
}

/// A slice can't fail. Its bytes are known, and reads of it are not recorded.
impl Source for &[u8] {
    ghost remaining = { λ s. Some s.now };

    ghost gave = { λ _ _. ⊥ };

    ghost left = { λ s _. s.now };

    ghost has_failed = { λ _. false };

    fn read_some(&mut self, block: &mut [u8]) -> Result<usize, IoFault> {
        let all: &[u8] = *self;
        let len = all.len().min(block.len());
        block[..len].copy_from_slice(&all[..len]);
        *self = &all[len..];
        Ok(len)
    }
}

// Reads once. Returns `None` if the reader fails.
fn read_once<R: Read>(reader: &mut R, block: &mut [u8]) -> Option<usize>
    ensures { ReadsSome (R.remaining reader.old) (R.remaining reader.new) result block.new }
{
    let mut call = || reader.read(block);
    match retry(&mut call) {
        Some(Ok(len)) => Some(len),
        Some(Err(_)) => None,
        None => None,
    }
}

/// Writes a text, or returns how many of its bytes were written before a call failed. A call that a signal
/// interrupts is repeated.
pub fn write_text<W: Write>(writer: &mut W, text: &[u8]) -> Result<(), usize>
    ensures { WritesUpTo (W.contents writer.old) (W.contents writer.new) result text.now }
{
    let mut written = 0;
    while written < text.len() {
        match write_once(writer, &text[written..]) {
            Some(len) => written += len,
            None => return Err(written),
        }
    }
    Ok(())
}

// Writes some bytes of a text that is not empty, and returns their number, or `None` if the writer fails.
fn write_once<W: Write>(writer: &mut W, text: &[u8]) -> Option<usize>
    ensures { WritesSome (W.contents writer.old) (W.contents writer.new) result text.now }
{
    let mut call = || writer.write(text);
    match retry(&mut call) {
        Some(Ok(0)) => None,
        Some(Ok(len)) => Some(len),
        Some(Err(_)) => None,
        None => None,
    }
}
