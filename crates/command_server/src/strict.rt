//! A writer that ends serving after an answer that reports a refusal or a failed device.
ghost use Rattle.std.specs.Prelude.{◌≡◌, ◌++◌, bytes_eq, ◌∷◌, ◌||◌, ℕ, List, Option, [], false, true, None, Some, OnErr, OnOk};
ghost use Rattle.command_server.specs.Streams.{Flushes, Puts, began_with};
ghost use Rattle.command_server.specs.Strict.{Follows, HasNoLine, IsLastLine, IsLastLineAfter, ReportsLast, is_failed_answer, failed_answer_of};

use crate::events::Events;
use crate::streams::{FailureTracking, IoFault, Sink};
use arrayvec::ArrayVec;
use ghost_values::{Ghost, ListOf};
use recover::Session;
use sector_disk::Sectors;
use std::io::Write;
use std::marker::Model;

/// The number of bytes kept of a line: one more than `fault device` has.
const KEPT_LEN: usize = 13;

/// The failure that an answer reports in its last line.
#[derive(Clone, Copy, Debug, PartialEq, Eq)]
pub enum FailedAnswer {
    /// The line begins with `no `: a refusal.
    Refused,
    /// The line is `fault device`: a failed device.
    DeviceFault,
}

// Returns the failure that a line reports, if it reports one.
#[tactic(auto, unfolding(crate::specs::Strict::failed_answer_of))]
fn failed_answer_of(line: &[u8]) -> Option<FailedAnswer>
    ensures { result ≡ failed_answer_of line.now }
{
    if is_text(&line[..3.min(line.len())], b"no ") {
        return Some(FailedAnswer::Refused);
    }
    if is_text(line, b"fault device") {
        return Some(FailedAnswer::DeviceFault);
    }
    None
}

fn is_text(bytes: &[u8], text: &[u8]) -> bool
    ensures { result ≡ bytes_eq text.now bytes.now }
{
    text == bytes
}

// The beginning of the open line of a text, and the failure that its last complete line reports.
#[derive(Drop)]
pub(crate) struct LastLines {
    /// The first bytes of the line that has not ended yet.
    begun: ArrayVec<u8, 13>,
    /// The failure that the last complete line reports, if any.
    reported: Option<FailedAnswer>,
}

impl LastLines {
    fn new() -> LastLines
        ensures follows { Follows [] result }
        ensures reported { result.reported ≡ None }
    {
        LastLines {
            begun: ArrayVec::new(),
            reported: None,
        }
    }

    fn take(&mut self, byte: u8)
        ensures { (text : List ℕ) → Follows text self.old → Follows (text ++ byte ∷ []) self.new }
    {
        if byte == b'\n' {
            self.reported = failed_answer_of(self.begun.as_slice());
            self.begun.clear();
        } else if self.begun.len() < KEPT_LEN {
            self.begun.push(byte);
        }
    }

    fn take_all(&mut self, bytes: &[u8])
        ensures { (text : List ℕ) → Follows text self.old → Follows (text ++ bytes.now) self.new }
    {
        for byte in bytes {
            self.take(*byte);
        }
    }
}

/// A writer whose `flush` as a sink fails if the last complete line reports a refusal or a failed device. So
/// serving ends after that answer.
#[derive(Drop)]
pub struct StrictWriter<W: Write> {
    writer: FailureTracking<W>,
    last_lines: LastLines,
    // The writer's contents when it was wrapped, if they are known.
    since: Ghost<Option<ListOf<u8>>>,
    // The events of the writer before it was wrapped.
    begun: Events,
}

impl<W: Write> Model for StrictWriter<W> {
    ghost use Rattle.command_server.specs.StrictValue.{StrictWriterValue, IsStrict};

    ghost Value = { StrictWriterValue W };

    ghost view = { λ s. record {
      writer = s.writer;
      before = record { contents = s.since.value; events = s.begun.events };
      reported = s.last_lines.reported;
    } };

    ghost invariant = { λ s. IsStrict W.contents s.writer
        (record { contents = s.since.value; events = s.begun.events }) s.last_lines };
}

impl<W: Write> StrictWriter<W> {
    ghost use Rattle.command_server.specs.TrackedStream.{held};

    /// Wraps the writer and follows what is written from now on.
    pub fn new(writer: FailureTracking<W>) -> StrictWriter<W>
        ensures { result ≡ record {
          writer = writer;
          before = held W.contents writer;
          reported = None;
        } }
    {
        StrictWriter::since(writer)
    }

    // Like `new`, for a writer that holds these bytes.
    fn since(writer: FailureTracking<W>) -> StrictWriter<W>
        ghost bytes: { Option (List ℕ) }
        requires { W.contents writer.inner ≡ bytes }
        ensures { result ≡ record {
          writer = writer;
          before = record { contents = bytes; events = writer.log.events };
          reported = None;
        } }
    {
        let begun = writer.log.copy();
        StrictWriter {
            writer,
            last_lines: LastLines::new(),
            since: Ghost::of(),
            begun,
        }
    }

    /// Returns the failure that the last complete line since the wrapping reports, if any. If the writer has
    /// failed, the lines of the failed write do not count.
    pub fn failed_answer(&self) -> Option<FailedAnswer>
        ensures reported { result ≡ self.now.reported }
        ensures last { self.now.writer.has_failed ≡ false
            → ReportsLast self.now.before (held W.contents self.now.writer) result }
    {
        self.last_lines.reported
    }

    /// Returns whether the writer itself has failed.
    pub fn has_failed(&self) -> bool
        ensures { result ≡ self.now.writer.has_failed }
    {
        self.writer.has_failed()
    }

    /// Returns the writer.
    pub fn into_inner(self) -> FailureTracking<W>
        ensures { result ≡ self.writer }
    {
        let StrictWriter { writer, .. } = self;
        writer
    }
}

/// Proves that the last complete line of a text ends with its last line feed and begins after the line feed
/// before it.
pub fn last_lines_are_ended()
    ensures first { IsLastLine }
    ensures following { IsLastLineAfter }
    ensures none { HasNoLine }
{}

/// Counts as failed if the writer has failed, or if the last complete line reports a failure.
impl<W: Write> Sink for StrictWriter<W> {
    ghost use Rattle.command_server.specs.TrackedStream.{held};

    ghost stream = { λ s. held W.contents s.writer };

    ghost has_failed = { λ s. s.writer.has_failed || is_failed_answer s.reported };

    ghost origin = { λ s. began_with (Some s.before) };

    fn put<D: Sectors>(&mut self, session: &Session<D>, text: &[u8]) -> Result<(), IoFault>
        ensures puts { Puts (held W.contents self.old.writer) (held W.contents self.new.writer)
            result (D.calls session.now.device) text.now }
        ensures failed { OnErr result
            (self.new.writer.has_failed || is_failed_answer self.new.reported ≡ true) }
        ensures origin { began_with (Some self.new.before) ≡ began_with (Some self.old.before) }
    {
        self.writer.put(session, text)?;
        self.last_lines.take_all(text);
        Ok(())
    }

    fn flush<D: Sectors>(&mut self, session: &Session<D>) -> Result<(), IoFault>
        ensures flushes { Flushes (held W.contents self.old.writer)
            (held W.contents self.new.writer) result (D.calls session.now.device) }
        ensures failed { OnErr result
            (self.new.writer.has_failed || is_failed_answer self.new.reported ≡ true) }
        ensures origin { began_with (Some self.new.before) ≡ began_with (Some self.old.before) }
        ensures kept { OnOk result (self.new.writer.has_failed || is_failed_answer self.new.reported
            ≡ self.old.writer.has_failed || is_failed_answer self.old.reported) }
        ensures reported { self.new.reported ≡ self.old.reported }
        ensures allows { OnOk result (self.new.reported ≡ None) }
    {
        match self.last_lines.reported {
            None => Sink::flush(&mut self.writer, session),
            // The answer is flushed, but the flush is not recorded. A recorded flush would allow another line
            // to follow.
            Some(_) => {
                self.writer.flush_unlogged()?;
                Err(IoFault)
            }
        }
    }
}
