//! The subcommand `check`: compares the redundant parts of a store. The store is opened for reading only.
ghost use Rattle.std.specs.Prelude.{◌≡◌, ◌≤◌, ◌∷◌, ◌++◌, IfOk};
ghost use Rattle.std.specs.Io.KnownBytes.{Appends};
ghost use Rattle.file_disk.specs.DeviceFiles.{IsOpenedReadOnlyAt};
ghost use Rattle.planner_cli.specs.Check.{ChecksStore, PrintsCheck, PrintsWarnings, warning_lines, suspect_text};

use crate::messages::print_store_fault;
use crate::read_only::{close_read_only, open_read_only, print_read_only_failure};
use auditor_cli::status::{DONE, REFUSED};
use auditor_cli::write_line;
use checkpoint::{IntegrityWarning, IntegrityWarnings, check_integrity};
use file_disk::{DeviceFiles, FileAssumptions, FileCalls, FileDevice, FileRequest, HostFile};
use sector_disk::Sectors;
use std::alloc::Global;
use std::io;
use std::io::Write;

/// Checks the store in the file and prints `ok`, or each integrity warning. Before that, prints on `errors` how
/// many search steps are replayed.
pub(crate) fn check_store<R, X: DeviceFiles, T: FileAssumptions, W: Write, E: Write>(
    rt: &R,
    disks: &mut X,
    start: T,
    store: &str,
    output: &mut W,
    errors: &mut E,
) -> io::Result<u8>
where
    R: Eprint + AllocGlobal,
    ensures status { IfOk result (λ status. status ≤ 4) }
    ensures requests { X.requested disks.new ≡ (FileRequest.OpenReadOnly, store.now) ∷ X.requested disks.old }
    ensures reported { IfOk result (ChecksStore ⟦<FileDevice<T> as Sectors>⟧
        (IsOpenedReadOnlyAt ⟦<HostFile as FileCalls>⟧.entries) store.now
        (W.contents output.old) (W.contents output.new)) }
{
    match open_read_only(rt, disks, start, store, errors) {
        Ok(looked) => {
            let mut looked = looked;
            let reported = check_device(rt.alloc(), &mut looked.device, output);
            close_read_only(rt, store, looked);
            reported
        }
        Err(unopened) => print_read_only_failure(rt, output, store, unopened),
    }
}

// Checks the store on the device and prints the result.
fn check_device<D: Sectors, W: Write>(
    alloc: Global,
    device: &mut D,
    output: &mut W,
) -> io::Result<u8>
    ensures status { IfOk result (λ status. status ≤ 4) }
    ensures reported { IfOk result (PrintsCheck D.Sectors device.old
        (W.contents output.old) (W.contents output.new)) }
{
    match check_integrity(alloc, device) {
        Ok(doubts) => print_warnings(&doubts, output),
        Err(fault) => print_store_fault(output, fault),
    }
}

// Prints `ok` if there is no integrity warning, and otherwise each warning.
fn print_warnings<W: Write>(doubts: &IntegrityWarnings, output: &mut W) -> io::Result<u8>
    ensures { IfOk result (PrintsWarnings doubts.now (W.contents output.old) (W.contents output.new)) }
{
    if doubts.is_empty() {
        write_line(output, b"ok")?;
        return Ok(DONE);
    }
    print_suspect(doubts, output)?;
    Ok(REFUSED)
}

// Prints each integrity warning.
fn print_suspect<W: Write>(doubts: &IntegrityWarnings, output: &mut W) -> io::Result<()>
    ensures { IfOk result (λ _. Appends (W.contents output.old) (W.contents output.new)
        (suspect_text doubts.now)) }
{
    print_warning(doubts, IntegrityWarning::HeaderLost, output)?;
    print_warning(doubts, IntegrityWarning::HeadersApart, output)?;
    print_warning(doubts, IntegrityWarning::RecordDamaged, output)?;
    print_warning(doubts, IntegrityWarning::RecordsMixed, output)
}

// Prints this warning, if the store has it.
fn print_warning<W: Write>(
    doubts: &IntegrityWarnings,
    warning: IntegrityWarning,
    output: &mut W,
) -> io::Result<()>
    ensures { IfOk result (λ _. Appends (W.contents output.old) (W.contents output.new)
        (warning_lines doubts.now warning)) }
{
    if !doubts.has(warning) {
        return Ok(());
    }
    let name = warning.name();
    writeln!(output, "suspect {name}")
}
