//! The subcommand `instance`: prints the instance that a store holds. The store is opened for reading only.
ghost use Rattle.std.specs.Prelude.{◌≡◌, ◌≤◌, ◌∷◌, IfOk, OnOk};
ghost use Rattle.std.specs.Io.KnownBytes.{Appends};
ghost use Rattle.file_disk.specs.DeviceFiles.{IsOpenedReadOnlyAt};
ghost use Rattle.planner_cli.specs.PrintInstance.{WritesInstance, WritesState, WritesStore, WritesText, kind_line, line_of_kind};

use crate::read_only::{close_read_only, open_read_only, print_read_only_failure};
use auditor_cli::status::{DONE, REFUSED};
use auditor_cli::{print_out_of_memory, write_line};
use command_core::State;
use file_disk::{DeviceFiles, FileAssumptions, FileCalls, FileDevice, FileRequest, HostFile};
use instance_read::Format;
use instance_text::{has_format, text_format, write_instance};
use plan_types::Problem;
use sector_disk::Sectors;
use std::alloc::Global;
use std::io;
use std::io::Write;

/// Prints the instance of the store in the file, which is opened for reading only. Before that, prints on
/// `errors` how many search steps are replayed, and after it the KIND of the text.
pub(crate) fn write_store<R, X: DeviceFiles, T: FileAssumptions, W: Write, E: Write>(
    rt: &R,
    disks: &mut X,
    start: T,
    store: &str,
    output: &mut W,
    errors: &mut E,
) -> io::Result<u8>
where
    R: Eprint + AllocGlobal,
    ensures status { IfOk result (λ status. status ≤ 4) }
    ensures requests { X.requested disks.new ≡ (FileRequest.OpenReadOnly, store.now) ∷ X.requested disks.old }
    ensures reported { IfOk result (WritesStore ⟦<FileDevice<T> as Sectors>⟧
        (IsOpenedReadOnlyAt ⟦<HostFile as FileCalls>⟧.entries) store.now
        (W.contents output.old) (W.contents output.new) (E.contents errors.new)) }
{
    match open_read_only(rt, disks, start, store, errors) {
        Ok(looked) => {
            let reported = write_state(rt.alloc(), &looked.state, output, errors);
            close_read_only(rt, store, looked);
            reported
        }
        Err(unopened) => print_read_only_failure(rt, output, store, unopened),
    }
}

// Prints the instance of a state, or `no NoInstance` if nothing is loaded.
fn write_state<W: Write, E: Write>(
    alloc: Global,
    state: &State,
    output: &mut W,
    errors: &mut E,
) -> io::Result<u8>
    ensures status { IfOk result (λ status. status ≤ 4) }
    ensures reported { IfOk result (WritesState state.now
        (W.contents output.old) (W.contents output.new)
        (E.contents errors.old) (E.contents errors.new)) }
{
    match state {
        State::Empty => {
            write_line(output, b"no NoInstance")?;
            Ok(REFUSED)
        }
        State::Loaded(job) => write_problem(alloc, &job.problem, output, errors),
    }
}

// Prints the problem in the format for it, or `no NoFormat` if that format can't express it.
fn write_problem<W: Write, E: Write>(
    alloc: Global,
    problem: &Problem,
    output: &mut W,
    errors: &mut E,
) -> io::Result<u8>
    ensures { IfOk result (WritesInstance problem.now
        (W.contents output.old) (W.contents output.new)
        (E.contents errors.old) (E.contents errors.new)) }
{
    if has_format(problem) {
        return write_text(alloc, problem, output, errors);
    }
    write_line(output, b"no NoFormat")?;
    Ok(REFUSED)
}

// Prints a problem that its format can express, and on `errors` the KIND of the text; or that memory ran out.
fn write_text<W: Write, E: Write>(
    alloc: Global,
    problem: &Problem,
    output: &mut W,
    errors: &mut E,
) -> io::Result<u8>
    ensures { IfOk result (WritesText problem.now
        (W.contents output.old) (W.contents output.new)
        (E.contents errors.old) (E.contents errors.new)) }
{
    match write_instance(alloc, problem) {
        Ok(text) => {
            output.write_all(&text)?;
            print_kind(text_format(problem), errors)?;
            Ok(DONE)
        }
        Err(_) => print_out_of_memory(output),
    }
}

// Prints the KIND of the text.
fn print_kind<E: Write>(format: Format, errors: &mut E) -> io::Result<()>
    ensures { OnOk result (Appends (E.contents errors.old) (E.contents errors.new)
        (kind_line format)) }
{
    print_word(format.word(), errors)
}

#[tactic(auto, unfolding(crate::specs::PrintInstance::line_of_kind))]
fn print_word<E: Write>(word: &str, errors: &mut E) -> io::Result<()>
    ensures { OnOk result (Appends (E.contents errors.old) (E.contents errors.new)
        (line_of_kind word.now)) }
{
    writeln!(errors, "planner: the instance is printed as {word}")
}
