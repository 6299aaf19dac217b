//! The lines that the program prints, and the status that goes with each.
ghost use Rattle.std.specs.Prelude.{◌≡◌, ◌≤◌, ◌++◌, ◌∷◌, [], IfOk, MatchResult, OnOk};
ghost use Rattle.std.specs.Io.KnownBytes.{Appends};
ghost use Rattle.auditor_cli.specs.Messages.{PrintsAnswer, PrintsReadFailure, PrintsWriteFailure, PrintsOutOfMemory, failed_line, is_out_of_memory, already_exists, read_failure_status};

use crate::answer::AuditAnswer;
use crate::status::{FILE, OUT_OF_MEMORY};
use plan_types::OutOfMemory;
use std::io;
use std::io::{ErrorKind, Write};

/// Writes a line and a line feed.
pub fn write_line<W: Write>(output: &mut W, line: &[u8]) -> io::Result<()>
    ensures { OnOk result (Appends (W.contents output.old) (W.contents output.new)
        (line.now ++ 10 ∷ [])) }
{
    output.write_all(line)?;
    output.write_all(b"\n")
}

/// Returns the status of a printed answer, or `FILE` if the answer could not be printed.
pub fn status_of(reported: io::Result<u8>) -> u8
    ensures { MatchResult reported (λ status. result ≡ status) (λ _. result ≡ 3) }
{
    reported.unwrap_or(FILE)
}

/// Prints `out of memory`.
pub fn print_out_of_memory<W: Write>(output: &mut W) -> io::Result<u8>
    ensures { IfOk result (PrintsOutOfMemory (W.contents output.old) (W.contents output.new)) }
{
    write_line(output, b"out of memory")?;
    Ok(OUT_OF_MEMORY)
}

/// Prints that a file can't be read.
pub fn print_read_failure<W: Write>(output: &mut W, path: &str, kind: ErrorKind) -> io::Result<u8>
    ensures { IfOk result (PrintsReadFailure path.now kind (W.contents output.old)
        (W.contents output.new)) }
{
    print_failure(output, "read", path, kind)
}

/// Prints that a file can't be made.
pub fn print_write_failure<W: Write>(output: &mut W, path: &str, kind: ErrorKind) -> io::Result<u8>
    ensures status { IfOk result (λ status. status ≤ 4) }
    ensures reported { IfOk result (PrintsWriteFailure path.now kind (W.contents output.old)
        (W.contents output.new)) }
{
    if already_exists(kind) {
        write_line(output, b"there already")?;
        return Ok(FILE);
    }
    print_failure(output, "write", path, kind)
}

// Returns whether the error means that the path already exists.
fn already_exists(kind: ErrorKind) -> bool
    ensures { result ≡ already_exists kind }
{
    matches!(kind, ErrorKind::AlreadyExists)
}

// Prints `cannot VERB PATH`, or `out of memory` if that is the error.
fn print_failure<W: Write>(
    output: &mut W,
    verb: &str,
    path: &str,
    kind: ErrorKind,
) -> io::Result<u8>
    ensures { IfOk result (λ status. (status ≡ read_failure_status kind)
        × Appends (W.contents output.old) (W.contents output.new)
        (failed_line verb.now path.now kind)) }
{
    if is_out_of_memory(kind) {
        return print_out_of_memory(output);
    }
    writeln!(output, "cannot {verb} {path}")?;
    Ok(FILE)
}

// Returns whether the error is that an allocation failed.
fn is_out_of_memory(kind: ErrorKind) -> bool
    ensures { result ≡ is_out_of_memory kind }
{
    matches!(kind, ErrorKind::OutOfMemory)
}

/// Prints the answer of an audit, or `out of memory`.
pub fn print_audit<W: Write>(
    output: &mut W,
    answer: &Result<AuditAnswer, OutOfMemory>,
) -> io::Result<u8>
    ensures { IfOk result (PrintsAnswer answer.now (W.contents output.old) (W.contents output.new)) }
{
    match answer {
        Ok(answer) => {
            write_line(output, answer.line.as_bytes())?;
            Ok(answer.status)
        }
        Err(_) => print_out_of_memory(output),
    }
}
