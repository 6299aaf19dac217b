//! The subcommands over stores in files: `format`, `run` over standard input, and `upgrade`.
//!
//! If a file can't be opened or made, or a call of a device fails, the system's error is printed on standard
//! error. No clause covers these lines.
ghost use Rattle.std.specs.Prelude.{◌≡◌, ◌≢◌, ◌≤◌, ◌<◌, ◌↔◌, ◌∷◌, Bool, Err, IfOk, IsErrOf, List, OnOk, false, true};
ghost use Rattle.std.specs.Io.KnownBytes.{Appends};
ghost use Rattle.command_server.specs.TrackedStream.{given_by, held};
ghost use Rattle.command_server.specs.Strict.{ReportsLast};
ghost use Rattle.command_server.specs.declared.answering.ServeFault.TheVariants.{ReadFault};
ghost use Rattle.file_disk.specs.DeviceFiles.{FileRequestEntry, IsCreatedAt, IsOpenedExistingAt};
ghost use Rattle.checkpoint.specs.Layouts.{sectors_in, version_2};
ghost use Rattle.planner_cli.specs.Format.{FormatsStore, IsFormatted, IsMadeWith, MakesStoreAt};
ghost use Rattle.planner_cli.specs.Statuses.{IsUpgradeStatus};
ghost use Rattle.planner_cli.specs.Messages.{PrintsFormatResult, PrintsText, new_file_fault_line, file_fault_status, new_format_fault_line};
ghost use Rattle.planner_cli.specs.Upgrade.{PrintsSameStore, UpgradesDevice, UpgradesDistinct, UpgradesStore, UpgradesFromFile};
ghost use Rattle.planner_cli.specs.Run.{IsInputServed, RunsSession, RunsStore, ServesOver, ServesStore, PrintsServeEnd, PrintsServeResult, opened_line, stop_unless_failed};

use crate::file_hints::{report_length, report_upgrade_hint};
use crate::messages::{
    print_file_refusal, print_format_result, print_line, print_new_file_refusal, print_store_fault,
    print_upgrade_result, report_cause,
};
use crate::opening::{close_store, print_open_failure};
use crate::progress::Progress;
use crate::store_devices::StoreDevices;
use crate::warned_opening::open_with_warning;
use auditor_cli::status::{BROKEN, DONE, FILE, USAGE};
use checkpoint::{FormatFault, Place, SECTORS, format, format_with};
use command_core::State;
use command_server::{FailedAnswer, FailureTracking, ServeFault, StrictWriter, serve_source};
use file_disk::{DeviceFiles, FileAssumptions, FileCalls, FileDevice, FileRequest, HostFile};
use recover::{Opened, Session, read_version_1};
use sector_disk::Sectors;
use std::alloc::Global;
use std::io;
use std::io::{Read, Write};

/// Makes an empty store in the file and prints the result. Returns the device, if there is one.
pub(crate) fn format_store<R, X: DeviceFiles, T: FileAssumptions, W: Write>(
    rt: &R,
    disks: &mut X,
    start: T,
    store: &str,
    output: &mut FailureTracking<W>,
) -> (io::Result<u8>, Option<FileDevice<T>>)
where
    R: Eprint + AllocGlobal,
    ensures status { IfOk result.0 (λ status. status ≤ 4) }
    ensures requests { X.requested disks.new ≡ (FileRequest.Create, store.now) ∷ X.requested disks.old }
    ensures formats { FormatsStore ⟦<FileDevice<T> as Sectors>⟧
        (IsCreatedAt ⟦<HostFile as FileCalls>⟧.entries) store.now
        (held W.contents output.old) (held W.contents output.new) result.0 result.1 }
{
    match disks.create(store, SECTORS, start) {
        Ok(mut device) => {
            let made = format_device(rt.alloc(), &mut device);
            let reported = print_format_result(output, &device, made);
            report_cause(rt, store, device.cause());
            (reported, Some(device))
        }
        Err(refusal) => (print_file_refusal(rt, output, store, refusal), None),
    }
}

/// Makes an empty store on the device.
pub(crate) fn format_device<D: Sectors>(alloc: Global, device: &mut D) -> Result<Place, FormatFault>
    ensures formatted { IsFormatted D.Sectors device.old device.new result }
    ensures too_small { IsErrOf result FormatFault.TooSmall
        ↔ D.len device.old < sectors_in version_2 }
{
    format(alloc, device)
}

/// Opens the store in the file and serves the input over it. If `is_strict`, serving ends at the first answer
/// that reports a refusal or a failed device. Before serving, prints on `errors` an integrity warning if the
/// store is suspect, and how many search steps opening replays. Returns the device, if there is one.
pub(crate) fn run_store<R, X: DeviceFiles, T: FileAssumptions, I: Read, W: Write, E: Write>(
    rt: &R,
    disks: &mut X,
    start: T,
    store: &str,
    is_strict: bool,
    input: &mut FailureTracking<I>,
    output: FailureTracking<W>,
    errors: &mut E,
) -> (io::Result<u8>, FailureTracking<W>, Option<FileDevice<T>>)
where
    R: Eprint + AllocGlobal,
    ensures status { IfOk result.0 (λ status. status ≤ 4) }
    ensures requests { X.requested disks.new ≡ (FileRequest.OpenExisting, store.now) ∷ X.requested disks.old }
    ensures runs { IfOk result.0 (RunsStore ⟦<FileDevice<T> as Sectors>⟧
        (IsOpenedExistingAt ⟦<HostFile as FileCalls>⟧.entries) store.now is_strict
        (given_by I.remaining input.old input.new)
        (held W.contents output) (held W.contents result.1)
        input.new.has_failed result.1.has_failed) }
    ensures serves { ServesStore ⟦<FileDevice<T> as Sectors>⟧
        (IsOpenedExistingAt ⟦<HostFile as FileCalls>⟧.entries) store.now is_strict
        (given_by I.remaining input.old input.new)
        (held W.contents output) (held W.contents result.1)
        input.new.has_failed result.1.has_failed result.2 }
{
    match open_with_warning(rt, disks, start, store, errors) {
        Ok(opened) => {
            let Opened {
                mut session,
                replayed,
            } = opened;
            let (reported, output) = serve_opened(
                rt,
                rt.alloc(),
                &mut session,
                replayed,
                is_strict,
                input,
                output,
            );
            let device = close_store(rt, store, session);
            (reported, output, Some(device))
        }
        Err(unopened) => {
            let (mut writer, noted) = output.into_parts();
            let (reported, left) = print_open_failure(rt, &mut writer, store, unopened);
            (reported, FailureTracking::from_parts(writer, noted), left)
        }
    }
}

/// Reads the store of version 1 in the old file, makes a store with its state in the new file, and prints the
/// result. The old store is read completely before the new file is made. If both paths lead to the same file,
/// neither is touched.
pub(crate) fn upgrade_store<R, X: DeviceFiles, T: FileAssumptions, U: FileAssumptions, W: Write>(
    rt: &R,
    disks: &mut X,
    start: T,
    start_of_new: U,
    old: &str,
    new: &str,
    output: &mut FailureTracking<W>,
) -> (io::Result<u8>, StoreDevices<FileDevice<T>, FileDevice<U>>)
where
    R: Eprint + AllocGlobal,
    ensures status { IfOk result.0 IsUpgradeStatus }
    ensures upgrades { UpgradesStore ⟦<FileDevice<T> as Sectors>⟧ ⟦<FileDevice<U> as Sectors>⟧
        (IsOpenedExistingAt ⟦<HostFile as FileCalls>⟧.entries) (IsCreatedAt ⟦<HostFile as FileCalls>⟧.entries)
        old.now new.now (record { was = X.requested disks.old; now = X.requested disks.new })
        (held W.contents output.old) (held W.contents output.new) result.0 result.1 }
{
    if old == new {
        return (print_same_store(output), StoreDevices::none());
    }
    upgrade_distinct(rt, disks, start, start_of_new, old, new, output)
}

// Upgrades a store between two paths that differ but may still lead to the same file.
fn upgrade_distinct<R, X: DeviceFiles, T: FileAssumptions, U: FileAssumptions, W: Write>(
    rt: &R,
    disks: &mut X,
    start: T,
    start_of_new: U,
    old: &str,
    new: &str,
    output: &mut FailureTracking<W>,
) -> (io::Result<u8>, StoreDevices<FileDevice<T>, FileDevice<U>>)
where
    R: Eprint + AllocGlobal,
    ensures status { IfOk result.0 IsUpgradeStatus }
    ensures upgrades { (compared : List FileRequestEntry) × (is_one : Bool)
        × UpgradesDistinct ⟦<FileDevice<T> as Sectors>⟧ ⟦<FileDevice<U> as Sectors>⟧
        (IsOpenedExistingAt ⟦<HostFile as FileCalls>⟧.entries) (IsCreatedAt ⟦<HostFile as FileCalls>⟧.entries)
        old.now new.now compared is_one
        (record { was = X.requested disks.old; now = X.requested disks.new })
        (held W.contents output.old) (held W.contents output.new) result.0 result.1 }
{
    if disks.is_same_file(old, new) {
        return (print_same_store(output), StoreDevices::none());
    }
    upgrade_from_file(rt, disks, start, start_of_new, old, new, output)
}

fn print_same_store<W: Write>(output: &mut W) -> io::Result<u8>
    ensures { PrintsSameStore (W.contents output.old) (W.contents output.new) result }
{
    print_line(output, b"same store", USAGE)
}

// Opens the old file for writing, which locks it, and upgrades the store in it.
fn upgrade_from_file<R, X: DeviceFiles, T: FileAssumptions, U: FileAssumptions, W: Write>(
    rt: &R,
    disks: &mut X,
    start: T,
    start_of_new: U,
    old: &str,
    new: &str,
    output: &mut FailureTracking<W>,
) -> (io::Result<u8>, StoreDevices<FileDevice<T>, FileDevice<U>>)
where
    R: Eprint + AllocGlobal,
    ensures status { IfOk result.0 (λ status. status ≤ 4) }
    ensures upgrades { (taken : List FileRequestEntry)
        × UpgradesFromFile ⟦<FileDevice<T> as Sectors>⟧ ⟦<FileDevice<U> as Sectors>⟧
        (IsOpenedExistingAt ⟦<HostFile as FileCalls>⟧.entries) (IsCreatedAt ⟦<HostFile as FileCalls>⟧.entries)
        old.now new.now taken (record { was = X.requested disks.old; now = X.requested disks.new })
        (held W.contents output.old) (held W.contents output.new) result.0 result.1 }
{
    match disks.open_existing(old, start) {
        Ok(device) => upgrade_device(rt, disks, device, start_of_new, old, new, output),
        Err(refusal) => {
            report_length(rt, old, refusal.fault);
            let reported = print_file_refusal(rt, output, old, refusal);
            (reported, StoreDevices::none())
        }
    }
}

// Reads the store of version 1 on the device over the old file, and makes a store with its state in the new
// file.
fn upgrade_device<R, X: DeviceFiles, T: FileAssumptions, U: FileAssumptions, W: Write>(
    rt: &R,
    disks: &mut X,
    mut device: FileDevice<T>,
    start: U,
    old: &str,
    new: &str,
    output: &mut FailureTracking<W>,
) -> (io::Result<u8>, StoreDevices<FileDevice<T>, FileDevice<U>>)
where
    R: Eprint + AllocGlobal,
    ensures status { IfOk result.0 (λ status. status ≤ 4) }
    ensures upgrades { UpgradesDevice ⟦<FileDevice<T> as Sectors>⟧ ⟦<FileDevice<U> as Sectors>⟧
        (IsOpenedExistingAt ⟦<HostFile as FileCalls>⟧.entries) (IsCreatedAt ⟦<HostFile as FileCalls>⟧.entries)
        device new.now (record { was = X.requested disks.old; now = X.requested disks.new })
        (held W.contents output.old) (held W.contents output.new) result.0 result.1 }
{
    let read = read_version_1(rt.alloc(), &mut device);
    report_cause(rt, old, device.cause());
    match read {
        Ok(state) => {
            let (reported, made) = make_new_store(rt, disks, start, new, &state, output);
            drop(state);
            let left = StoreDevices {
                store: Some(device),
                new_store: made,
            };
            (reported, left)
        }
        Err(fault) => {
            report_upgrade_hint(rt, old, fault);
            let reported = print_store_fault(output, fault);
            let left = StoreDevices {
                store: Some(device),
                new_store: None,
            };
            (reported, left)
        }
    }
}

// Makes a store with this state in the new file. Meanwhile the device over the old file keeps its lock.
fn make_new_store<R, X: DeviceFiles, U: FileAssumptions, W: Write>(
    rt: &R,
    disks: &mut X,
    start: U,
    new: &str,
    state: &State,
    output: &mut FailureTracking<W>,
) -> (io::Result<u8>, Option<FileDevice<U>>)
where
    R: Eprint + AllocGlobal,
    ensures status { IfOk result.0 (λ status. status ≤ 4) }
    ensures requests { X.requested disks.new ≡ (FileRequest.Create, new.now) ∷ X.requested disks.old }
    ensures makes { MakesStoreAt ⟦<FileDevice<U> as Sectors>⟧
        (IsCreatedAt ⟦<HostFile as FileCalls>⟧.entries) state.now new.now
        (λ made calls. PrintsFormatResult new_format_fault_line made calls
        (held W.contents output.old) (held W.contents output.new) result.0)
        (λ fault. PrintsText (new_file_fault_line new.now fault) (file_fault_status fault)
        (W.contents output.old.inner) (W.contents output.new.inner) result.0) result.1 }
{
    match disks.create(new, SECTORS, start) {
        Ok(mut made) => {
            let upgraded = format_with_state(rt.alloc(), &mut made, state);
            let reported = print_upgrade_result(output, &made, upgraded);
            report_cause(rt, new, made.cause());
            (reported, Some(made))
        }
        Err(refusal) => (print_new_file_refusal(rt, output, new, refusal), None),
    }
}

// Makes a store with this state on the device.
fn format_with_state<D: Sectors>(
    alloc: Global,
    device: &mut D,
    state: &State,
) -> Result<Place, FormatFault>
    ensures made { IsMadeWith D.Sectors state.now device.old device.new result }
    ensures too_small { IsErrOf result FormatFault.TooSmall
        ↔ D.len device.old < sectors_in version_2 }
{
    format_with(alloc, device, state)
}

// Prints how many search steps were replayed, and serves the input.
fn serve_opened<R: Eprint, D: Sectors + Drop, I: Read, W: Write>(
    rt: &R,
    alloc: Global,
    session: &mut Session<D>,
    replayed: u64,
    is_strict: bool,
    input: &mut FailureTracking<I>,
    output: FailureTracking<W>,
) -> (io::Result<u8>, FailureTracking<W>)
    ensures status { IfOk result.0 (λ status. status ≤ 4) }
    ensures runs { IfOk result.0 (RunsSession D.Sectors session.old replayed is_strict
        (given_by I.remaining input.old input.new)
        (held W.contents output) (held W.contents result.1)
        input.new.has_failed result.1.has_failed) }
    ensures serves { ServesOver D.Sectors session.old replayed is_strict
        (given_by I.remaining input.old input.new)
        (held W.contents output) (held W.contents result.1)
        input.new.has_failed result.1.has_failed session.new }
{
    let (mut writer, noted) = output.into_parts();
    let opened = print_opened(replayed, &mut writer);
    let output = FailureTracking::from_parts(writer, noted);
    match opened {
        Ok(()) => {
            let ended = serve_input(rt, alloc, session, is_strict, input, output);
            let (mut writer, noted) = ended.output.into_parts();
            let reported = print_serve_end(ended.served, ended.failed_answer, &mut writer);
            (reported, FailureTracking::from_parts(writer, noted))
        }
        Err(error) => (Err(error), output),
    }
}

fn print_opened<W: Write>(replayed: u64, output: &mut W) -> io::Result<()>
    ensures { OnOk result (Appends (W.contents output.old) (W.contents output.new)
        (opened_line replayed)) }
{
    writeln!(output, "opened {replayed}")?;
    output.flush()
}

/// The result of serving an input, and the output afterwards.
#[derive(Drop)]
struct ServeOutcome<W: Write> {
    served: Result<(), ServeFault>,
    /// The answer at which a strict run ended, if there is one.
    failed_answer: Option<FailedAnswer>,
    output: FailureTracking<W>,
}

// Serves the input, strictly if `is_strict`.
fn serve_input<R: Eprint, D: Sectors + Drop, I: Read, W: Write>(
    rt: &R,
    alloc: Global,
    session: &mut Session<D>,
    is_strict: bool,
    input: &mut FailureTracking<I>,
    output: FailureTracking<W>,
) -> ServeOutcome<W>
    ensures { IsInputServed D.Sectors session.old is_strict (given_by I.remaining input.old input.new)
        (held W.contents output) result.served result.failed_answer (held W.contents result.output)
        input.new.has_failed result.output.has_failed session.new }
{
    if is_strict {
        return serve_strictly(rt, alloc, session, input, output);
    }
    let mut output = output;
    let served = serve_source(&Progress(rt), alloc, session, input, &mut output);
    ServeOutcome {
        served,
        failed_answer: None,
        output,
    }
}

// Serves the input up to the first answer that reports a refusal or a failed device.
fn serve_strictly<R: Eprint, D: Sectors + Drop, I: Read, W: Write>(
    rt: &R,
    alloc: Global,
    session: &mut Session<D>,
    input: &mut FailureTracking<I>,
    output: FailureTracking<W>,
) -> ServeOutcome<W>
    ensures { IsInputServed D.Sectors session.old true (given_by I.remaining input.old input.new)
        (held W.contents output) result.served result.failed_answer (held W.contents result.output)
        input.new.has_failed result.output.has_failed session.new }
{
    let mut answers = StrictWriter::new(output);
    let served = serve_source(&Progress(rt), alloc, session, input, &mut answers);
    let failed_answer = strict_stop(&answers);
    ServeOutcome {
        served,
        failed_answer,
        output: answers.into_inner(),
    }
}

// Returns the failure that ended a strict run: the one that the last answer reports, or `None` if that answer
// reports none or the writer itself has failed.
fn strict_stop<W: Write>(answers: &StrictWriter<W>) -> Option<FailedAnswer>
    ensures stop { result ≡ stop_unless_failed answers.now.writer.has_failed answers.now.reported }
    ensures last { answers.now.writer.has_failed ≡ false
        → ReportsLast answers.now.before (held W.contents answers.now.writer) result }
{
    if answers.has_failed() {
        return None;
    }
    answers.failed_answer()
}

// Returns the status of a run. If a strict run ended at an answer, prints nothing more; otherwise prints a line
// if the input can't be read.
fn print_serve_end<W: Write>(
    served: Result<(), ServeFault>,
    failed_answer: Option<FailedAnswer>,
    output: &mut W,
) -> io::Result<u8>
    ensures status { IfOk result (λ status. status ≤ 4) }
    ensures reported { IfOk result (PrintsServeEnd served failed_answer
        (W.contents output.old) (W.contents output.new)) }
    ensures kept { served ≢ Err ReadFault → output.new ≡ output.old }
{
    match failed_answer {
        Some(FailedAnswer::Refused) => Ok(BROKEN),
        Some(FailedAnswer::DeviceFault) => Ok(FILE),
        None => print_serve_result(served, output),
    }
}

// Prints a line if the input can't be read, and returns the status of the run.
fn print_serve_result<W: Write>(served: Result<(), ServeFault>, output: &mut W) -> io::Result<u8>
    ensures status { IfOk result (λ status. status ≤ 4) }
    ensures reported { IfOk result (PrintsServeResult served
        (W.contents output.old) (W.contents output.new)) }
    ensures kept { served ≢ Err ReadFault → output.new ≡ output.old }
{
    match served {
        Ok(()) => Ok(DONE),
        Err(ServeFault::ReadFault) => {
            writeln!(output, "cannot read input")?;
            output.flush()?;
            Ok(FILE)
        }
        Err(ServeFault::WriteFault) => Ok(FILE),
    }
}
