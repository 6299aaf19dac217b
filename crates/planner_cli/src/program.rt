//! Executes a command line: reads and makes files, and prints answers.
//!
//! `main` makes everything that touches the system and passes it to `run_args`: the opener of store files, the
//! reader and the maker of other files, and the streams. It also passes values of `T: FileAssumptions` and `U:
//! FileAssumptions`. They stand for the contents of the files of the old and of the new store when they are
//! opened.
ghost use Rattle.std.specs.Prelude.{◌≡◌, ◌≤◌, ◌∷◌, IfOk, drop, map};
ghost use Rattle.command_line.specs.Invocations.{ArePositional, InvocationValue, parsed_words, invocation_value};
ghost use Rattle.command_server.specs.TrackedStream.{given_by, held};
ghost use Rattle.file_disk.specs.DeviceFiles.{IsCreatedAt, IsOpenedReadOnlyAt, IsOpenedExistingAt};
ghost use Rattle.planner_cli.specs.Program.{EndsWith, IsDone, PrintsUsage, seen};
ghost use Rattle.planner_cli.specs.Run.{RunsStore, ServesStore};
ghost use Rattle.planner_cli.specs.Statuses.{CanEndWith};

use crate::adopt::adopt_solution;
use crate::check::check_store;
use crate::draw::{draw_files, draw_store};
use crate::instance::write_store;
use crate::load::load_instance;
use crate::solve::solve_instance;
use crate::solves::solve_list;
use crate::store_devices::StoreDevices;
use crate::stores::{format_store, run_store, upgrade_store};
use crate::timetable::{form_of, timetable_files, timetable_store};
use auditor_cli::{
    ReadFiles, WriteFiles, audit_example, audit_files, audit_list, explain_files, print_usage,
    status_of,
};
use command_line::{Invocation, parse_arguments};
use command_server::FailureTracking;
use command_text::HELP;
use file_disk::{DeviceFiles, FileAssumptions, FileCalls, FileDevice, FileRequest, HostFile};
use sector_disk::Sectors;
use std::convert::AsStr;
use std::io;
use std::io::{Read, Write};

/// The streams of the program: `input` for commands, `output` for answers, and `errors` for messages to people.
#[derive(Drop)]
pub struct Streams<I, W, E> {
    pub input: FailureTracking<I>,
    pub output: FailureTracking<W>,
    pub errors: E,
}

/// Executes the command line `words`, which begins with the program's name. Returns the exit status (see
/// `status`), the streams, and the devices of stores as they are left. If an answer can't be printed, the
/// status is `FILE`.
///
/// `start` stands for the contents of the store's file when it is opened, `start_of_new` for those of the file
/// of a new store.
pub fn run_args<
    R,
    T: FileAssumptions,
    U: FileAssumptions,
    X: DeviceFiles,
    F: ReadFiles,
    N: WriteFiles,
    I: Read,
    W: Write,
    E: Write,
    S: AsStr,
>(
    rt: &R,
    start: T,
    start_of_new: U,
    disks: &mut X,
    files: &mut F,
    new_files: &mut N,
    streams: Streams<I, W, E>,
    words: &[S],
) -> (
    u8,
    Streams<I, W, E>,
    StoreDevices<FileDevice<T>, FileDevice<U>>,
)
where
    R: Eprint + AllocGlobal,
    ensures does { let requested = drop 1 (map S.text words.now) in
        (a : InvocationValue) → ArePositional requested → parsed_words requested ≡ Some a
        → EndsWith ⟦<FileDevice<T> as Sectors>⟧ ⟦<FileDevice<U> as Sectors>⟧
        (IsOpenedExistingAt ⟦<HostFile as FileCalls>⟧.entries)
        (IsOpenedReadOnlyAt ⟦<HostFile as FileCalls>⟧.entries) (IsCreatedAt ⟦<HostFile as FileCalls>⟧.entries)
        (IsCreatedAt ⟦<HostFile as FileCalls>⟧.entries) a
        (seen F.reads N.writes X.requested I.remaining W.contents E.contents files.old new_files.old
        disks.old streams)
        (seen F.reads N.writes X.requested I.remaining W.contents E.contents files.new new_files.new
        disks.new result.1)
        result.2 result.0 }
    ensures usage { let requested = drop 1 (map S.text words.now) in
        ArePositional requested → parsed_words requested ≡ None
        → PrintsUsage requested
        (seen F.reads N.writes X.requested I.remaining W.contents E.contents files.old new_files.old
        disks.old streams)
        (seen F.reads N.writes X.requested I.remaining W.contents E.contents files.new new_files.new
        disks.new result.1)
        result.2 result.0 }
{
    match parse_arguments(rt.alloc(), words, HELP) {
        Ok(invocation) => {
            let (reported, streams, left) = dispatch(
                rt,
                start,
                start_of_new,
                disks,
                files,
                new_files,
                streams,
                invocation,
            );
            (status_of(reported), streams, left)
        }
        Err(error) => {
            let mut streams = streams;
            let reported = print_usage(&error, &mut streams.output, &mut streams.errors);
            (status_of(reported), streams, StoreDevices::none())
        }
    }
}

// Executes the parsed subcommand and prints the answer.
fn dispatch<
    R,
    T: FileAssumptions,
    U: FileAssumptions,
    X: DeviceFiles,
    F: ReadFiles,
    N: WriteFiles,
    I: Read,
    W: Write,
    E: Write,
>(
    rt: &R,
    start: T,
    start_of_new: U,
    disks: &mut X,
    files: &mut F,
    new_files: &mut N,
    streams: Streams<I, W, E>,
    invocation: Invocation,
) -> (
    io::Result<u8>,
    Streams<I, W, E>,
    StoreDevices<FileDevice<T>, FileDevice<U>>,
)
where
    R: Eprint + AllocGlobal,
    ensures status { IfOk result.0 (CanEndWith (invocation_value invocation.entry)) }
    ensures done { IsDone ⟦<FileDevice<T> as Sectors>⟧ ⟦<FileDevice<U> as Sectors>⟧
        (IsOpenedExistingAt ⟦<HostFile as FileCalls>⟧.entries)
        (IsOpenedReadOnlyAt ⟦<HostFile as FileCalls>⟧.entries) (IsCreatedAt ⟦<HostFile as FileCalls>⟧.entries)
        (IsCreatedAt ⟦<HostFile as FileCalls>⟧.entries) (invocation_value invocation.entry)
        (seen F.reads N.writes X.requested I.remaining W.contents E.contents files.old new_files.old
        disks.old streams)
        (seen F.reads N.writes X.requested I.remaining W.contents E.contents files.new new_files.new
        disks.new result.1) result.2 result.0 }
{
    let mut streams = streams;
    let alloc = rt.alloc();
    match invocation {
        Invocation::BuiltIn => {
            let reported = audit_example(alloc, &mut streams.output);
            (reported, streams, StoreDevices::none())
        }
        Invocation::Audit {
            paths,
            routes_alone,
        } => {
            let Streams { output, errors, .. } = &mut streams;
            let reported = audit_files(alloc, paths, routes_alone, files, output, errors);
            (reported, streams, StoreDevices::none())
        }
        Invocation::Audits {
            format,
            list,
            routes_alone,
        } => {
            let Streams { output, errors, .. } = &mut streams;
            let reported = audit_list(alloc, format, list, routes_alone, files, output, errors);
            (reported, streams, StoreDevices::none())
        }
        Invocation::Explain {
            paths,
            routes_alone,
        } => {
            let Streams { output, errors, .. } = &mut streams;
            let reported = explain_files(alloc, paths, routes_alone, files, output, errors);
            (reported, streams, StoreDevices::none())
        }
        Invocation::Draw { paths, route } => {
            let Streams { output, errors, .. } = &mut streams;
            let reported = draw_files(alloc, paths, route, files, output, errors);
            (reported, streams, StoreDevices::none())
        }
        Invocation::DrawStore { store, route } => {
            let Streams { output, errors, .. } = &mut streams;
            let reported = draw_store(rt, disks, start, store, route, output, errors);
            (reported, streams, StoreDevices::none())
        }
        Invocation::Solve(task) => {
            let Streams { output, errors, .. } = &mut streams;
            let reported = solve_instance(alloc, task, files, output, errors);
            (reported, streams, StoreDevices::none())
        }
        Invocation::Solves(tasks) => {
            let Streams { output, errors, .. } = &mut streams;
            let reported = solve_list(alloc, tasks, files, new_files, output, errors);
            (reported, streams, StoreDevices::none())
        }
        Invocation::Format { store } => {
            let (reported, store) = format_store(rt, disks, start, store, &mut streams.output);
            let left = StoreDevices {
                store,
                new_store: None,
            };
            (reported, streams, left)
        }
        Invocation::Load(loading) => {
            let Streams { output, errors, .. } = &mut streams;
            let (reported, left) = load_instance(
                rt,
                disks,
                start,
                start_of_new,
                loading,
                files,
                output,
                errors,
            );
            (reported, streams, left)
        }
        Invocation::Run { store, is_strict } => {
            let (reported, streams, store) = run_subcommand(
                rt, disks, start, store, is_strict, streams,
            );
            let left = StoreDevices {
                store,
                new_store: None,
            };
            (reported, streams, left)
        }
        Invocation::Adopt { store, solution } => {
            let Streams { output, errors, .. } = &mut streams;
            let (reported, store) = adopt_solution(
                rt, disks, start, store, solution, files, output, errors,
            );
            let left = StoreDevices {
                store,
                new_store: None,
            };
            (reported, streams, left)
        }
        Invocation::StoreInstance { store } => {
            let Streams { output, errors, .. } = &mut streams;
            let reported = write_store(rt, disks, start, store, output, errors);
            (reported, streams, StoreDevices::none())
        }
        Invocation::Check { store } => {
            let Streams { output, errors, .. } = &mut streams;
            let reported = check_store(rt, disks, start, store, output, errors);
            (reported, streams, StoreDevices::none())
        }
        Invocation::Upgrade { old, new } => {
            let (reported, left) = upgrade_store(
                rt,
                disks,
                start,
                start_of_new,
                old,
                new,
                &mut streams.output,
            );
            (reported, streams, left)
        }
        Invocation::Timetable { paths, is_tabbed } => {
            let form = form_of(is_tabbed);
            let Streams { output, errors, .. } = &mut streams;
            let reported = timetable_files(alloc, paths, form, files, output, errors);
            (reported, streams, StoreDevices::none())
        }
        Invocation::StoreTimetable { store, is_tabbed } => {
            let Streams { output, errors, .. } = &mut streams;
            let reported = timetable_store(
                rt,
                disks,
                start,
                store,
                form_of(is_tabbed),
                output,
                errors,
            );
            (reported, streams, StoreDevices::none())
        }
    }
}

// Executes the subcommand `run`: serves the input over the store in the file.
fn run_subcommand<R, X: DeviceFiles, T: FileAssumptions, I: Read, W: Write, E: Write>(
    rt: &R,
    disks: &mut X,
    start: T,
    store: &str,
    is_strict: bool,
    streams: Streams<I, W, E>,
) -> (io::Result<u8>, Streams<I, W, E>, Option<FileDevice<T>>)
where
    R: Eprint + AllocGlobal,
    ensures status { IfOk result.0 (λ status. status ≤ 4) }
    ensures requests { X.requested disks.new ≡ (FileRequest.OpenExisting, store.now) ∷ X.requested disks.old }
    ensures runs { IfOk result.0 (RunsStore ⟦<FileDevice<T> as Sectors>⟧
        (IsOpenedExistingAt ⟦<HostFile as FileCalls>⟧.entries) store.now is_strict
        (given_by I.remaining streams.input result.1.input) (held W.contents streams.output)
        (held W.contents result.1.output) result.1.input.has_failed
        result.1.output.has_failed) }
    ensures serves { ServesStore ⟦<FileDevice<T> as Sectors>⟧
        (IsOpenedExistingAt ⟦<HostFile as FileCalls>⟧.entries) store.now is_strict
        (given_by I.remaining streams.input result.1.input) (held W.contents streams.output)
        (held W.contents result.1.output) result.1.input.has_failed
        result.1.output.has_failed result.2 }
{
    let Streams {
        mut input,
        output,
        mut errors,
    } = streams;
    let (reported, output, left) = run_store(
        rt,
        disks,
        start,
        store,
        is_strict,
        &mut input,
        output,
        &mut errors,
    );
    let streams = Streams {
        input,
        output,
        errors,
    };
    (reported, streams, left)
}
