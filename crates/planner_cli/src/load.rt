//! The subcommand `load`: loads an instance from a file into a store.
//!
//! The instance is read first, so that a refused instance leaves no new store.
ghost use Rattle.std.specs.Prelude.{◌≡◌, ◌≤◌, IfErr, IfOk, OnOk};
ghost use Rattle.std.specs.Io.KnownBytes.{Appends};
ghost use Rattle.std.specs.IoError.{error_kind};
ghost use Rattle.std.specs.Option.{option_map};
ghost use Rattle.instance_read.specs.Faults.{ReportsFirstFault};
ghost use Rattle.instance_read.specs.Readings.{InstanceFault, SpellsInstance};
ghost use Rattle.command_line.specs.Invocations.{load_of};
ghost use Rattle.command_server.specs.TrackedStream.{held};
ghost use Rattle.file_disk.specs.DeviceFiles.{IsCreatedAt, IsOpenedExistingAt};
ghost use Rattle.planner_cli.specs.Opening.{is_not_found, needs_new_file};
ghost use Rattle.planner_cli.specs.Load.{LoadsOpening, LoadsSession, LoadsStore, PrintsAlreadyLoaded, LoadsInstance, holds_instance};
ghost use Rattle.auditor_cli.specs.IgnoredLines.{ignored_limit_note};
ghost use Rattle.auditor_cli.specs.Reads.{IsRead};

use crate::messages::{print_answer, print_instance_fault, print_line, report_cause};
use crate::new_file::open_new;
use crate::opening::{OpenFailure, open_store, print_open_failure};
use crate::store_devices::StoreDevices;
use auditor_cli::status::REFUSED;
use auditor_cli::{ReadFiles, print_ignored_limit, print_read_failure, read_instance};
use checkpoint::StoreFault;
use command_core::{Command, State};
use command_line::LoadArgs;
use command_server::FailureTracking;
use file_disk::{DeviceFiles, FileAssumptions, FileCalls, FileDevice, HostFile};
use instance_read::ReadFault;
use plan_types::Problem;
use recover::Opened;
use sector_disk::Sectors;
use std::alloc::Global;
use std::io;
use std::io::{ErrorKind, Write};

/// Reads an instance and loads it into the store in a file, which is made if there is none. Prints the answer.
/// If the instance names a limit that is ignored, prints a note on `errors` first.
pub(crate) fn load_instance<
    F: ReadFiles,
    R,
    X: DeviceFiles,
    T: FileAssumptions,
    U: FileAssumptions,
    W: Write,
    E: Write,
>(
    rt: &R,
    disks: &mut X,
    start: T,
    start_of_new: U,
    loading: LoadArgs,
    files: &mut F,
    output: &mut FailureTracking<W>,
    errors: &mut E,
) -> (io::Result<u8>, StoreDevices<FileDevice<T>, FileDevice<U>>)
where
    R: Eprint + AllocGlobal,
    ensures status { IfOk result.0 (λ status. status ≤ 4) }
    ensures reads { IsRead loading.entry.instance.now (F.reads files.old) (F.reads files.new) }
    ensures loads { LoadsInstance ⟦<FileDevice<T> as Sectors>⟧ ⟦<FileDevice<U> as Sectors>⟧
        (IsOpenedExistingAt ⟦<HostFile as FileCalls>⟧.entries) (IsCreatedAt ⟦<HostFile as FileCalls>⟧.entries)
        (record { was = X.requested disks.old; now = X.requested disks.new })
        (load_of loading.entry) (F.reads files.old) (F.reads files.new)
        (held W.contents output.old) (held W.contents output.new) result.0 result.1 }
{
    let text = match files.read(loading.instance) {
        Ok(text) => text,
        Err(error) => {
            let reported = print_read_failure(output, loading.instance, error.kind());
            return (reported, StoreDevices::none());
        }
    };
    let noted = read_and_note(rt.alloc(), loading, &text, errors);
    let problem = match noted.into_problem() {
        Ok(problem) => problem,
        Err(fault) => return (print_instance_fault(output, fault), StoreDevices::none()),
    };
    let command = Command::Load(problem, loading.seed);
    load_store(
        rt,
        disks,
        start,
        start_of_new,
        loading.store,
        command,
        output,
        errors,
    )
}

// An instance that was read, or its first fault.
#[derive(Drop)]
struct LoadedInstance {
    // Whether the line about an ignored limit could be printed. If it could not, loading goes on.
    reported: io::Result<()>,
    problem: Result<Problem, ReadFault>,
}

impl LoadedInstance {
    // Returns the instance, whether or not the line could be printed.
    fn into_problem(self) -> Result<Problem, ReadFault>
        ensures { result ≡ self.problem }
    {
        let LoadedInstance { problem, .. } = self;
        problem
    }
}

// Parses an instance, and prints a line if it names a limit that is ignored.
fn read_and_note<E: Write>(
    alloc: Global,
    loading: LoadArgs,
    text: &[u8],
    errors: &mut E,
) -> LoadedInstance
    ensures value { IfOk result.problem (SpellsInstance loading.entry.format text.now) }
    ensures fault { IfErr result.problem
        (ReportsFirstFault (InstanceFault loading.entry.format text.now)) }
    ensures reported { OnOk result.reported (Appends (E.contents errors.old) (E.contents errors.new)
        (ignored_limit_note loading.entry.format loading.entry.instance.now text.now)) }
{
    LoadedInstance {
        reported: print_ignored_limit(loading.format, loading.instance, text, errors),
        problem: read_instance(alloc, loading.format, text),
    }
}

// Loads the instance into the store in the file, or into a new file if there is none or an empty one.
fn load_store<R, X: DeviceFiles, T: FileAssumptions, U: FileAssumptions, W: Write, E: Write>(
    rt: &R,
    disks: &mut X,
    start: T,
    start_of_new: U,
    store: &str,
    command: Command,
    output: &mut FailureTracking<W>,
    errors: &mut E,
) -> (io::Result<u8>, StoreDevices<FileDevice<T>, FileDevice<U>>)
where
    R: Eprint + AllocGlobal,
    ensures status { IfOk result.0 (λ status. status ≤ 4) }
    ensures begins { LoadsStore ⟦<FileDevice<T> as Sectors>⟧ ⟦<FileDevice<U> as Sectors>⟧
        (IsOpenedExistingAt ⟦<HostFile as FileCalls>⟧.entries) (IsCreatedAt ⟦<HostFile as FileCalls>⟧.entries)
        (record { was = X.requested disks.old; now = X.requested disks.new })
        store.now command (held W.contents output.old) (held W.contents output.new)
        result.0 result.1 }
{
    let opening = open_store(rt, disks, start, store, errors);
    if needs_new_file(&opening) {
        // Releases the lock, so that the next opening can take it.
        drop(opening);
        let opening = open_new(rt, disks, start_of_new, store, errors);
        let (reported, new_store) = load_opening(rt, store, opening, command, output);
        let left = StoreDevices {
            store: None,
            new_store,
        };
        return (reported, left);
    }
    let (reported, store) = load_opening(rt, store, opening, command, output);
    let left = StoreDevices {
        store,
        new_store: None,
    };
    (reported, left)
}

// Returns whether there is no such file, or an empty one, which `load` leaves if the disk is full.
fn needs_new_file<D: Sectors>(opening: &Result<Opened<D>, OpenFailure<D>>) -> bool
    ensures { result ≡ needs_new_file D.Sectors opening.now }
{
    match opening {
        Err(OpenFailure::File(refusal)) => is_not_found(refusal.cause),
        Err(OpenFailure::Store(StoreFault::NotFormatted, device)) => device.len() == 0,
        _ => false,
    }
}

// Returns whether the system reported that there is no such file.
fn is_not_found(cause: Option<io::Error>) -> bool
    ensures { result ≡ is_not_found (option_map error_kind cause) }
{
    match cause {
        Some(error) => match error.kind() {
            ErrorKind::NotFound => true,
            _ => false,
        },
        None => false,
    }
}

// Loads the instance into the opened store, or prints why the store was not opened. Returns the device, if
// there is one.
fn load_opening<R: Eprint + AllocGlobal, T: FileAssumptions, W: Write>(
    rt: &R,
    store: &str,
    opening: Result<Opened<FileDevice<T>>, OpenFailure<FileDevice<T>>>,
    command: Command,
    output: &mut FailureTracking<W>,
) -> (io::Result<u8>, Option<FileDevice<T>>)
    ensures status { IfOk result.0 (λ status. status ≤ 4) }
    ensures begins { LoadsOpening ⟦<FileDevice<T> as Sectors>⟧ opening store.now command
        (held W.contents output.old) (held W.contents output.new) result.0 result.1 }
{
    match opening {
        Ok(opened) => {
            let (reported, device) = load_session(rt.alloc(), opened, command, output);
            report_cause(rt, store, device.cause());
            (reported, Some(device))
        }
        Err(unopened) => print_open_failure(rt, output, store, unopened),
    }
}

// Executes the command if the session holds no instance, prints the answer and returns the device.
fn load_session<D: Sectors + Drop, W: Write>(
    alloc: Global,
    opened: Opened<D>,
    command: Command,
    output: &mut FailureTracking<W>,
) -> (io::Result<u8>, D)
    ensures status { IfOk result.0 (λ status. status ≤ 4) }
    ensures begins { LoadsSession D.Sectors opened.session command
        (held W.contents output.old) (held W.contents output.new) result.1 result.0 }
{
    let mut session = opened.session;
    if holds_instance(session.state()) {
        return (print_already_loaded(output), session.close());
    }
    let reply = session.apply(alloc, command);
    let reported = print_answer(output, &session, reply.answer);
    (reported, session.close())
}

fn holds_instance(state: &State) -> bool
    ensures { result ≡ holds_instance state.now }
{
    match state {
        State::Empty => false,
        State::Loaded(_) => true,
    }
}

// Prints that the store already holds an instance.
fn print_already_loaded<W: Write>(output: &mut W) -> io::Result<u8>
    ensures { PrintsAlreadyLoaded (W.contents output.old) (W.contents output.new) result }
{
    print_line(output, b"store Loaded", REFUSED)
}
