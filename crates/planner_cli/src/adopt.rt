//! The subcommand `adopt`: a solution in a file becomes the plan of a store.
//!
//! The solution is read first, so that the store is not locked while the program waits for a pipe.
ghost use Rattle.std.specs.Prelude.{◌≡◌, ◌≤◌, ◌∷◌, IfOk};
ghost use Rattle.file_disk.specs.DeviceFiles.{IsOpenedExistingAt};
ghost use Rattle.command_server.specs.TrackedStream.{held};
ghost use Rattle.planner_cli.specs.Adopt.{AdoptsText, AdoptsStore, FindsPlan, AdoptsSolution, adopt_status, refusal_status, adopt_refusal_status, adopt_refusal_text, assignment_fault_status};
ghost use Rattle.planner_cli.specs.Messages.{PrintsAnswer, PrintsText};
ghost use Rattle.command_text.specs.Answers.{line, assignment_fault_text};
ghost use Rattle.auditor_cli.specs.Reads.{IsRead};

use crate::messages::{denial_status, print_denial, print_done, print_line};
use crate::opening::{close_store, open_store, print_open_failure};
use auditor_cli::status::{BROKEN, OUT_OF_MEMORY, REFUSED};
use auditor_cli::{ReadFiles, print_read_failure};
use command_core::{Command, Refusal, State};
use command_server::FailureTracking;
use command_text::Answer;
use file_disk::{DeviceFiles, FileAssumptions, FileCalls, FileDevice, FileRequest, HostFile};
use plan_types::Plan;
use recover::{Denial, Opened, Session};
use sector_disk::Sectors;
use std::alloc::Global;
use std::io;
use std::io::Write;
use vehicle_assignment::{AssignmentFault, assign_vehicles, assigned_plans_pass};

/// The reason why a solution is not passed to the store.
#[derive(Clone, Copy)]
pub(crate) enum AdoptRefusal {
    /// The store holds no instance.
    NoInstance,
    /// The solution is not a plan for the store's instance and pins.
    AssignmentFault(AssignmentFault),
}

/// Reads a solution, makes it the plan of the store in a file, and prints the answer. Before that, prints on
/// `errors` how many search steps opening replays. Returns the store's device, if there is one.
pub(crate) fn adopt_solution<
    F: ReadFiles,
    R,
    X: DeviceFiles,
    T: FileAssumptions,
    W: Write,
    E: Write,
>(
    rt: &R,
    disks: &mut X,
    start: T,
    store: &str,
    solution: &str,
    files: &mut F,
    output: &mut FailureTracking<W>,
    errors: &mut E,
) -> (io::Result<u8>, Option<FileDevice<T>>)
where
    R: Eprint + AllocGlobal,
    ensures status { IfOk result.0 (λ status. status ≤ 4) }
    ensures reads { IsRead solution.now (F.reads files.old) (F.reads files.new) }
    ensures adopts { AdoptsSolution ⟦<FileDevice<T> as Sectors>⟧
        (IsOpenedExistingAt ⟦<HostFile as FileCalls>⟧.entries)
        (record { was = X.requested disks.old; now = X.requested disks.new })
        store.now solution.now (F.reads files.old) (F.reads files.new)
        (held W.contents output.old) (held W.contents output.new) result.0 result.1 }
{
    match files.read(solution) {
        Ok(text) => adopt_store(rt, disks, start, store, &text, output, errors),
        Err(error) => (print_read_failure(output, solution, error.kind()), None),
    }
}

// Opens the store in the file and makes the solution its plan.
fn adopt_store<R, X: DeviceFiles, T: FileAssumptions, W: Write, E: Write>(
    rt: &R,
    disks: &mut X,
    start: T,
    store: &str,
    text: &[u8],
    output: &mut FailureTracking<W>,
    errors: &mut E,
) -> (io::Result<u8>, Option<FileDevice<T>>)
where
    R: Eprint + AllocGlobal,
    ensures status { IfOk result.0 (λ status. status ≤ 4) }
    ensures requests { X.requested disks.new ≡ (FileRequest.OpenExisting, store.now) ∷ X.requested disks.old }
    ensures adopts { AdoptsStore ⟦<FileDevice<T> as Sectors>⟧
        (IsOpenedExistingAt ⟦<HostFile as FileCalls>⟧.entries) store.now text.now
        (held W.contents output.old) (held W.contents output.new) result.0 result.1 }
{
    match open_store(rt, disks, start, store, errors) {
        Ok(opened) => {
            let Opened { mut session, .. } = opened;
            let reported = adopt_text(rt, rt.alloc(), &mut session, text, output);
            let device = close_store(rt, store, session);
            (reported, Some(device))
        }
        Err(unopened) => print_open_failure(rt, output, store, unopened),
    }
}

// Makes the solution the plan of the session and prints the answer.
fn adopt_text<R: Eprint, D: Sectors, W: Write>(
    rt: &R,
    alloc: Global,
    session: &mut Session<D>,
    text: &[u8],
    output: &mut FailureTracking<W>,
) -> io::Result<u8>
    ensures status { IfOk result (λ status. status ≤ 4) }
    ensures adopts { AdoptsText D.Sectors session.old text.now
        (held W.contents output.old) (held W.contents output.new) session.new result }
{
    // A solution that passes the audit also passes with the pins, so its plan is not refused as `NotAPlan`.
    assigned_plans_pass();
    match plan_of_text(alloc, session.state(), text) {
        Ok(plan) => {
            let reply = session.apply(alloc, Command::Adopt(plan));
            print_adopt_answer(output, session, reply.answer)
        }
        Err(unadopted) => {
            report_unkept_pin(rt, unadopted);
            print_adopt_refusal(output, unadopted)
        }
    }
}

// Returns the plan that the solution describes for the state's problem and pins, or the reason why there is none.
fn plan_of_text(alloc: Global, state: &State, text: &[u8]) -> Result<Plan, AdoptRefusal>
    ensures { FindsPlan state.now text.now result }
{
    match state {
        State::Empty => Err(AdoptRefusal::NoInstance),
        State::Loaded(job) => match assign_vehicles(alloc, &job.problem, &job.pins, text) {
            Ok(plan) => Ok(plan),
            Err(unseated) => Err(AdoptRefusal::AssignmentFault(unseated)),
        },
    }
}

// Prints on standard error the vehicle whose pin no route begins with, if a pin is the reason.
fn report_unkept_pin<R: Eprint>(rt: &R, unadopted: AdoptRefusal) {
    if let AdoptRefusal::AssignmentFault(AssignmentFault::PinWithoutRoute(vehicle)) = unadopted {
        let _ = eprintln!(rt; "adopt: no remaining route begins with the pin of vehicle {vehicle}");
    }
}

// Prints why a solution was not passed to the store.
fn print_adopt_refusal<W: Write>(output: &mut W, unadopted: AdoptRefusal) -> io::Result<u8>
    ensures { PrintsText (adopt_refusal_text unadopted) (adopt_refusal_status unadopted)
        (W.contents output.old) (W.contents output.new) result }
{
    match unadopted {
        AdoptRefusal::NoInstance => print_line(output, b"no NoInstance", REFUSED),
        AdoptRefusal::AssignmentFault(unseated) => print_assignment_fault(output, unseated),
    }
}

// Prints the line that the command `adopt` of `run` also prints for this reason.
fn print_assignment_fault<W: Write>(output: &mut W, unseated: AssignmentFault) -> io::Result<u8>
    ensures { PrintsText (line (assignment_fault_text unseated)) (assignment_fault_status unseated)
        (W.contents output.old) (W.contents output.new) result }
{
    let reported = Answer::AssignmentFault(unseated).line();
    print_line(
        output,
        reported.as_bytes(),
        assignment_fault_status(unseated),
    )
}

fn assignment_fault_status(unseated: AssignmentFault) -> u8
    ensures { result ≡ assignment_fault_status unseated }
{
    match unseated {
        AssignmentFault::Sol(_) => REFUSED,
        AssignmentFault::Broken { .. } | AssignmentFault::PinWithoutRoute(_) => BROKEN,
        AssignmentFault::OutOfMemory => OUT_OF_MEMORY,
    }
}

// Prints the answer of the store.
fn print_adopt_answer<D: Sectors, W: Write>(
    output: &mut FailureTracking<W>,
    session: &Session<D>,
    answer: Result<(), Denial>,
) -> io::Result<u8>
    ensures { PrintsAnswer adopt_status answer (D.calls session.now.device)
        (held W.contents output.old) (held W.contents output.new) result }
{
    match answer {
        Ok(()) => print_done(output, session),
        Err(denial) => print_denial(output, denial, adopt_status(denial)),
    }
}

fn adopt_status(denial: Denial) -> u8
    ensures { result ≡ adopt_status denial }
{
    match denial {
        Denial::Core(refusal) => refusal_status(refusal),
        _ => denial_status(denial),
    }
}

fn refusal_status(refusal: Refusal) -> u8
    ensures { result ≡ refusal_status refusal }
{
    match refusal {
        Refusal::NotAPlan | Refusal::Dearer => BROKEN,
        _ => REFUSED,
    }
}
