//! Serving over any reader and writer of std, which are borrowed: `serve`.
//!
//! Std's contracts do not say when a call fails, so `serve` guarantees nothing about the cause of a fault.
//! `serve_source` does.
ghost use Rattle.std.specs.Prelude.{◌≡◌, ◌^◌, [], ℕ, List, None, Some, OnOk};
ghost use Rattle.command_text.specs.Readings.{IsReading, Reading};
ghost use Rattle.command_server.specs.ServeContract.{EndsOrIsCutBetween, IsTaken};
ghost use Rattle.command_server.specs.CrashRecovery.{RunsLeave};

use crate::answering::{ServeFault, serve_source};
use crate::events::Events;
use crate::streams::{FailureTracking, IoFault, Sink, write_text};
use log::sink::Discard;
use recover::Session;
use sector_disk::Sectors;
use std::alloc::Global;
use std::io::{Read, Write};

/// A borrowed writer as a sink. No call replaces the reference (`origin`), so the owner's writer holds the
/// output afterwards.
#[derive(Drop)]
pub(crate) struct BorrowedWriter<'a, W: Write> {
    writer: &'a mut W,
    has_failed: bool,
    log: Events,
}

impl<'a, W: Write> BorrowedWriter<'a, W> {
    fn new(writer: &'a mut W) -> BorrowedWriter<'a, W>
        ensures same { result.writer.ghost_name ≡ writer.entry.ghost_name }
        ensures now { result.writer.now ≡ writer.old }
        ensures log { result.log.events ≡ [] }
    {
        BorrowedWriter {
            writer,
            has_failed: false,
            log: Events::new(),
        }
    }
}

/// Works like the sink of `FailureTracking`.
impl<W: Write> Sink for BorrowedWriter<'_, W> {
    ghost stream = { λ s. record { contents = W.contents s.writer.now; events = s.log.events } };

    ghost has_failed = { λ s. s.has_failed };

    ghost origin = { λ s. record { before = None; borrowed = Some s.writer.ghost_name } };

    fn put<D: Sectors>(&mut self, session: &Session<D>, text: &[u8]) -> Result<(), IoFault> {
        match write_text(self.writer, text) {
            Ok(()) => {
                self.log = self.log.with_put(session, text);
                Ok(())
            }
            Err(len) => {
                self.has_failed = true;
                self.log = self.log.with_put(session, &text[..len]);
                Err(IoFault)
            }
        }
    }

    fn flush<D: Sectors>(&mut self, session: &Session<D>) -> Result<(), IoFault> {
        if self.writer.flush().is_err() {
            self.has_failed = true;
            return Err(IoFault);
        }
        self.log = self.log.with_flush(session);
        Ok(())
    }
}

/// Executes the commands of the input and writes the answers, as `serve_source` does. For an input whose bytes
/// the reader does not know beforehand, only `moments` applies.
///
/// # Errors
///
/// `ReadFault` if the reader fails or 10^12 bytes of the input were taken; after `Ok` fewer were taken.
/// `WriteFault` if the writer fails. The state is then that after the answered commands, or with one more
/// operation, whose answer was being written.
pub fn serve<D: Sectors, R: Read, W: Write>(
    alloc: Global,
    session: &mut Session<D>,
    reader: &mut R,
    writer: &mut W,
) -> Result<(), ServeFault>
    ensures serves { (reading : Reading) (input : List ℕ) → IsReading reading
        → R.remaining reader.old ≡ Some input
        → EndsOrIsCutBetween D.Sectors result reading session.old input
        (W.contents writer.old) (W.contents writer.new) session.new }
    ensures moments { RunsLeave D.Sectors session.old session.new }
    ensures most { (input : List ℕ) → R.remaining reader.old ≡ Some input
        → OnOk result (IsTaken (10 ^ 12) input) }
{
    let mut source = FailureTracking::new(reader);
    let mut sink = BorrowedWriter::new(writer);
    serve_source(&Discard, alloc, session, &mut source, &mut sink)
}
