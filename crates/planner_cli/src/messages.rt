//! The lines about stores and their files, and the exit status for each.
ghost use Rattle.std.specs.Prelude.{◌≡◌, ◌++◌, IfErr, IfOk, OnOk};
ghost use Rattle.std.specs.Io.KnownBytes.{Appends};
ghost use Rattle.planner_cli.specs.ReplayNotice.{repeating_line};
ghost use Rattle.command_server.specs.TrackedStream.{held};
ghost use Rattle.command_text.specs.Answers.{line};
ghost use Rattle.planner_cli.specs.Messages.{WritesPrefix, PrintsAnswer, PrintsOk, PrintsFormatResult, PrintsInstanceFault, PrintsText, denial_line, denial_status, is_device_fault, new_file_fault_line, file_fault_line, file_fault_status, store_fault_line, store_fault_status, format_fault_line, format_fault_status, new_format_fault_line, is_out_of_memory};

use auditor_cli::print_out_of_memory;
use auditor_cli::status::{DONE, FILE, OUT_OF_MEMORY, REFUSED};
use checkpoint::{FormatFault, Place, StoreFault};
use command_server::{FailureTracking, Sink, write_text};
use file_disk::{FileFault, OpenError};
use instance_read::{ReadFault, ReadFaultKind};
use recover::{Denial, Session};
use sector_disk::Sectors;
use std::io;
use std::io::{ErrorKind, Write};

// Writes a text. If a write fails, at most a prefix of the text was written.
fn put<W: Write>(output: &mut W, text: &[u8]) -> io::Result<()>
    ensures whole { OnOk result (Appends (W.contents output.old) (W.contents output.new) text.now) }
    ensures cut { IfErr result (λ _. WritesPrefix text.now
        (W.contents output.old) (W.contents output.new)) }
{
    match write_text(output, text) {
        Ok(()) => Ok(()),
        Err(_) => Err(io::Error::from(ErrorKind::WriteZero)),
    }
}

/// Prints a line and returns `status`.
pub(crate) fn print_line<W: Write>(output: &mut W, text: &[u8], status: u8) -> io::Result<u8>
    ensures { PrintsText (line text.now) status
        (W.contents output.old) (W.contents output.new) result }
{
    put(output, text)?;
    put(output, b"\n")?;
    Ok(status)
}

// Prints a line that consists of a prefix and a name, and returns `status`.
fn print_named<W: Write>(output: &mut W, front: &[u8], name: &str, status: u8) -> io::Result<u8>
    ensures { PrintsText (line (front.now ++ name.now)) status
        (W.contents output.old) (W.contents output.new) result }
{
    put(output, front)?;
    print_line(output, name.as_bytes(), status)
}

/// Prints that a store's file can't be opened or made, with the system's error on standard error.
pub(crate) fn print_file_refusal<R: Eprint, W: Write>(
    rt: &R,
    output: &mut W,
    path: &str,
    refusal: OpenError,
) -> io::Result<u8>
    ensures { PrintsText (file_fault_line path.now refusal.fault) (file_fault_status refusal.fault)
        (W.contents output.old) (W.contents output.new) result }
{
    report_reason(rt, path, refusal.fault, refusal.cause);
    print_file_fault(output, path, refusal.fault)
}

/// Prints that the file of a new store can't be made, after an old store was opened, with the system's error on
/// standard error.
pub(crate) fn print_new_file_refusal<R: Eprint, W: Write>(
    rt: &R,
    output: &mut W,
    path: &str,
    refusal: OpenError,
) -> io::Result<u8>
    ensures { PrintsText (new_file_fault_line path.now refusal.fault) (file_fault_status refusal.fault)
        (W.contents output.old) (W.contents output.new) result }
{
    report_reason(rt, path, refusal.fault, refusal.cause);
    print_new_file_fault(output, path, refusal.fault)
}

// Prints that a store's file can't be opened or made.
fn print_file_fault<W: Write>(output: &mut W, path: &str, fault: FileFault) -> io::Result<u8>
    ensures { PrintsText (file_fault_line path.now fault) (file_fault_status fault)
        (W.contents output.old) (W.contents output.new) result }
{
    match fault {
        FileFault::NoFile => print_named(output, b"cannot read ", path, FILE),
        FileFault::BadLength => print_line(output, b"store BadLength", REFUSED),
        FileFault::OutOfMemory => print_line(output, b"store OutOfMemory", OUT_OF_MEMORY),
        FileFault::InUse => print_line(output, b"store InUse", FILE),
    }
}

// Prints that the file of a new store can't be made, after an old store was opened.
fn print_new_file_fault<W: Write>(output: &mut W, path: &str, fault: FileFault) -> io::Result<u8>
    ensures { PrintsText (new_file_fault_line path.now fault) (file_fault_status fault)
        (W.contents output.old) (W.contents output.new) result }
{
    match fault {
        FileFault::NoFile => print_named(output, b"cannot read ", path, FILE),
        FileFault::BadLength => print_line(output, b"new BadLength", REFUSED),
        FileFault::OutOfMemory => print_line(output, b"new OutOfMemory", OUT_OF_MEMORY),
        FileFault::InUse => print_line(output, b"new InUse", FILE),
    }
}

/// Prints the system's error for the file on standard error, if there is one.
pub(crate) fn report_cause<R: Eprint>(rt: &R, path: &str, cause: Option<io::Error>) {
    if let Some(error) = cause {
        let _ = eprintln!(rt; "planner: {path}: {error}");
    }
}

// Prints on standard error why a file was not opened or made: the system's error, or that it is not a regular
// file.
fn report_reason<R: Eprint>(rt: &R, path: &str, fault: FileFault, cause: Option<io::Error>) {
    match fault {
        FileFault::NoFile => match cause {
            Some(error) => report_cause(rt, path, Some(error)),
            None => {
                let _ = eprintln!(rt; "planner: {path}: it is not a regular file");
            }
        },
        _ => report_cause(rt, path, cause),
    }
}

/// Prints on standard error what to do with a store whose device has failed. After a failed sync, reads may
/// return bytes that are only in the system's memory, so they have to be written again.
pub(crate) fn report_repair_hint<R: Eprint>(rt: &R) {
    let _ = eprintln!(rt;
        "planner: the store's device failed: continue with a copy on a sound disk, or begin the next run with `checkpoint`"
    );
}

/// Prints how many search steps will be replayed; nothing if there are none.
pub(crate) fn print_repeating<E: Write>(steps: u64, errors: &mut E) -> io::Result<()>
    ensures { OnOk result (Appends (E.contents errors.old) (E.contents errors.new)
        (repeating_line steps)) }
{
    if steps == 0 {
        return Ok(());
    }
    writeln!(errors, "planner: repeating {steps} search steps")
}

// Prints `ok` for a store that was made on the device. Contracts see how many device calls had finished at this
// write.
fn print_made<D: Sectors, W: Write>(output: &mut FailureTracking<W>, device: &D) -> io::Result<u8>
    ensures { PrintsOk (D.calls device.now)
        (held W.contents output.old) (held W.contents output.new) result }
{
    match output.put_for_device(device, b"ok\n") {
        Ok(()) => Ok(DONE),
        Err(_) => Err(io::Error::from(ErrorKind::WriteZero)),
    }
}

/// Prints `ok` for a command of the session. Contracts see how many device calls had finished at this write.
pub(crate) fn print_done<D: Sectors, W: Write>(
    output: &mut FailureTracking<W>,
    session: &Session<D>,
) -> io::Result<u8>
    ensures { PrintsOk (D.calls session.now.device)
        (held W.contents output.old) (held W.contents output.new) result }
{
    match output.put(session, b"ok\n") {
        Ok(()) => Ok(DONE),
        Err(_) => Err(io::Error::from(ErrorKind::WriteZero)),
    }
}

/// Prints `ok` if the device was formatted, and otherwise the fault.
pub(crate) fn print_format_result<D: Sectors, W: Write>(
    output: &mut FailureTracking<W>,
    device: &D,
    made: Result<Place, FormatFault>,
) -> io::Result<u8>
    ensures { PrintsFormatResult format_fault_line made (D.calls device.now)
        (held W.contents output.old) (held W.contents output.new) result }
{
    match made {
        Ok(_) => print_made(output, device),
        Err(fault) => print_format_fault(output, fault),
    }
}

/// Prints `ok` if the new store of an upgrade was made on the device, and otherwise the fault.
pub(crate) fn print_upgrade_result<D: Sectors, W: Write>(
    output: &mut FailureTracking<W>,
    device: &D,
    made: Result<Place, FormatFault>,
) -> io::Result<u8>
    ensures { PrintsFormatResult new_format_fault_line made (D.calls device.now)
        (held W.contents output.old) (held W.contents output.new) result }
{
    match made {
        Ok(_) => print_made(output, device),
        Err(fault) => print_named(output, b"new ", fault.name(), format_fault_status(fault)),
    }
}

/// Prints why no store was made on a device.
pub(crate) fn print_format_fault<W: Write>(output: &mut W, fault: FormatFault) -> io::Result<u8>
    ensures { PrintsText (format_fault_line fault) (format_fault_status fault)
        (W.contents output.old) (W.contents output.new) result }
{
    print_named(output, b"store ", fault.name(), format_fault_status(fault))
}

fn format_fault_status(fault: FormatFault) -> u8
    ensures { result ≡ format_fault_status fault }
{
    match fault {
        FormatFault::TooSmall => REFUSED,
        FormatFault::DeviceFault => FILE,
        FormatFault::OutOfMemory => OUT_OF_MEMORY,
    }
}

/// Prints why a store was not opened.
pub(crate) fn print_store_fault<W: Write>(output: &mut W, fault: StoreFault) -> io::Result<u8>
    ensures { PrintsText (store_fault_line fault) (store_fault_status fault)
        (W.contents output.old) (W.contents output.new) result }
{
    print_named(output, b"store ", fault.name(), open_failure_status(fault))
}

fn open_failure_status(fault: StoreFault) -> u8
    ensures { result ≡ store_fault_status fault }
{
    match fault {
        StoreFault::DeviceFault => FILE,
        StoreFault::OutOfMemory => OUT_OF_MEMORY,
        _ => REFUSED,
    }
}

/// Prints `ok` for a command of the session, or why it was denied.
pub(crate) fn print_answer<D: Sectors, W: Write>(
    output: &mut FailureTracking<W>,
    session: &Session<D>,
    answer: Result<(), Denial>,
) -> io::Result<u8>
    ensures { PrintsAnswer denial_status answer (D.calls session.now.device)
        (held W.contents output.old) (held W.contents output.new) result }
{
    match answer {
        Ok(()) => print_done(output, session),
        Err(denial) => print_denial(output, denial, denial_status(denial)),
    }
}

/// Prints why a command was denied, and returns `status`.
pub(crate) fn print_denial<W: Write>(output: &mut W, denial: Denial, status: u8) -> io::Result<u8>
    ensures { PrintsText (denial_line denial) status
        (W.contents output.old) (W.contents output.new) result }
{
    if is_device_fault(denial) {
        return print_line(output, b"fault device", status);
    }
    print_named(output, b"no ", denial.name(), status)
}

fn is_device_fault(denial: Denial) -> bool
    ensures { result ≡ is_device_fault denial }
{
    match denial {
        Denial::DeviceFault => true,
        _ => false,
    }
}

/// Returns the exit status for a denied command.
pub(crate) fn denial_status(denial: Denial) -> u8
    ensures { result ≡ denial_status denial }
{
    match denial {
        Denial::DeviceFault => FILE,
        Denial::OutOfMemory => OUT_OF_MEMORY,
        _ => REFUSED,
    }
}

/// Prints the first fault of an instance, or that memory ran out.
pub(crate) fn print_instance_fault<W: Write>(output: &mut W, fault: ReadFault) -> io::Result<u8>
    ensures { IfOk result (PrintsInstanceFault fault (W.contents output.old)
        (W.contents output.new)) }
{
    if is_out_of_memory(fault.kind) {
        return print_out_of_memory(output);
    }
    let name = fault.name();
    let line = fault.line;
    writeln!(output, "instance {name} {line}")?;
    Ok(REFUSED)
}

fn is_out_of_memory(kind: ReadFaultKind) -> bool
    ensures { result ≡ is_out_of_memory kind }
{
    match kind {
        ReadFaultKind::OutOfMemory => true,
        _ => false,
    }
}
