//! The subcommand `timetable`: the timetable of a solution in a file, or of the plan in a store.
//!
//! A store is opened for reading only. Search steps that are only in its journal are replayed in memory.
ghost use Rattle.std.specs.Prelude.{◌≡◌, ◌≤◌, ◌∷◌, All, IfOk, string_bytes};
ghost use Rattle.route_sched.specs.Route.{AreDistinctStops};
ghost use Rattle.file_disk.specs.DeviceFiles.{IsOpenedReadOnlyAt};
ghost use Rattle.auditor_cli.specs.Answer.{IsSolutionVerdict};
ghost use Rattle.auditor_cli.specs.Examination.{HasVerdict};
ghost use Rattle.auditor_cli.specs.Files.{AreReadInTurn};
ghost use Rattle.auditor_cli.specs.Partial.{IsPlanAnswer};
ghost use Rattle.planner_cli.specs.Timetable.{IsPartialReport, IsPlanReport, IsTimetable, IsTimetableOf, IsWholeReport, PrintsStateTimetable, PrintsReport, TimetablesFiles, TimetablesStore, form_of, plan_text, solution_text};

use crate::read_only::{close_read_only, open_read_only, print_read_only_failure};
use crate::solve::print_left_out;
use auditor_cli::status::{DONE, REFUSED};
use auditor_cli::{
    AuditAnswer, Examination, Explanation, PartialPlan, PlanExamination, ReadFiles, answer_of,
    examine_plan, partial_answer, planned_line, print_explanation, print_explanation_result,
    print_out_of_memory, print_read_failure, read_both, write_line,
};
use command_core::{Job, State, unplanned_names};
use command_line::Paths;
use file_disk::{DeviceFiles, FileAssumptions, FileCalls, FileDevice, FileRequest, HostFile};
use instance_read::Format;
use plan_audit::{Verdict, passing_is_local, plans_are_disjoint_routes};
use plan_timetable::{Form, solution_timetable, timetable};
use plan_types::{OutOfMemory, Problem, Route};
use route_sched::plan_cost;
use sector_disk::Sectors;
use sol_text::Solution;
use std::alloc::Global;
use std::io;
use std::io::Write;

/// The timetable of a solution, with the answer of its audit, and the requests that a partial plan leaves out.
#[derive(Drop)]
pub(crate) struct TimetableReport {
    pub explanation: Explanation,
    pub left_out: Vec<u32>,
}

/// Returns the form of a timetable: fields between tabs, for programs, or columns, for people.
pub(crate) fn form_of(is_tabbed: bool) -> Form
    ensures { result ≡ form_of is_tabbed }
{
    if is_tabbed { Form::Tabs } else { Form::Columns }
}

/// Reads both files as `audit_files` does, and prints the answer of the audit and the timetable of the
/// solution. For a partial plan, prints its own answer line, and on `errors` the requests that it leaves out.
pub(crate) fn timetable_files<F: ReadFiles, W: Write, E: Write>(
    alloc: Global,
    paths: Paths,
    form: Form,
    files: &mut F,
    output: &mut W,
    errors: &mut E,
) -> io::Result<u8>
    ensures status { IfOk result (λ status. status ≤ 4) }
    ensures reads { AreReadInTurn paths.entry.instance.now paths.entry.solution.now
        (F.reads files.old) (F.reads files.new) }
    ensures reported { IfOk result (TimetablesFiles paths.entry.format form paths.entry.instance.now
        paths.entry.solution.now (F.reads files.old) (F.reads files.new)
        (W.contents output.old) (W.contents output.new)
        (E.contents errors.old) (E.contents errors.new)) }
{
    let both = match read_both(paths, files) {
        Ok(both) => both,
        Err(unread) => return print_read_failure(output, unread.path, unread.kind),
    };
    let reported = timetable_texts(alloc, paths.format, form, &both.0, &both.1);
    print_timetable(&reported, output, errors)
}

// Prints a timetable and the requests that are left out, or that memory ran out.
fn print_timetable<W: Write, E: Write>(
    reported: &Result<TimetableReport, OutOfMemory>,
    output: &mut W,
    errors: &mut E,
) -> io::Result<u8>
    ensures { IfOk result (PrintsReport reported.now (W.contents output.old) (W.contents output.new)
        (E.contents errors.old) (E.contents errors.new)) }
{
    match reported {
        Ok(reported) => {
            let status = print_explanation(output, &reported.explanation)?;
            print_left_out(errors, &reported.left_out)?;
            Ok(status)
        }
        Err(_) => print_out_of_memory(output),
    }
}

// Audits a solution against an instance, and builds the timetable.
fn timetable_texts(
    alloc: Global,
    format: Format,
    form: Form,
    instance: &[u8],
    solution: &[u8],
) -> Result<TimetableReport, OutOfMemory>
    ensures answer { IfOk result (λ reported.
        IsPlanAnswer format instance.now solution.now reported.explanation.answer) }
    ensures tells { IfOk result (IsTimetable format form instance.now solution.now) }
    ensures status { IfOk result (λ reported. reported.explanation.answer.status ≤ 2) }
{
    match examine_plan(alloc, format, instance, solution)? {
        PlanExamination::Whole(examined) => whole_report(alloc, form, &examined),
        PlanExamination::Partial(partial) => partial_report(alloc, form, &partial),
    }
}

// Returns the answer of the audit and the timetable of two examined files.
fn whole_report(
    alloc: Global,
    form: Form,
    examined: &Examination,
) -> Result<TimetableReport, OutOfMemory>
    requires { HasVerdict examined.now }
    ensures { IfOk result (IsWholeReport form examined.now) }
{
    let answer = answer_of(alloc, examined)?;
    let text = timetable_of(alloc, form, examined)?;
    Ok(TimetableReport {
        explanation: Explanation { answer, text },
        left_out: Vec::new(alloc),
    })
}

// Returns the answer and the timetable of a partial plan.
fn partial_report(
    alloc: Global,
    form: Form,
    partial: &PartialPlan,
) -> Result<TimetableReport, OutOfMemory>
    requires { All (AreDistinctStops partial.now.problem) partial.now.plan.routes }
    ensures { IfOk result (IsPartialReport form partial.now) }
{
    let problem = &partial.problem;
    let routes = partial.plan.routes.as_slice();
    let answer = partial_answer(alloc, partial.cost)?;
    let left_out = unplanned_names(alloc, problem, routes)?;
    let text = timetable(alloc, problem, &[], routes, left_out.as_slice(), form)?;
    Ok(TimetableReport {
        explanation: Explanation { answer, text },
        left_out,
    })
}

// Returns the timetable of two examined files. It is empty if one of them is refused.
fn timetable_of(alloc: Global, form: Form, examined: &Examination) -> Result<String, OutOfMemory>
    requires { HasVerdict examined.now }
    ensures { IfOk result (λ text. IsTimetableOf form examined.now (string_bytes text)) }
{
    match examined {
        Examination::BadInstance(_) => Ok(String::new(alloc)),
        Examination::BadSolution(_) => Ok(String::new(alloc)),
        Examination::BadCost(..) => Ok(String::new(alloc)),
        Examination::Judged(problem, plan, verdict) => {
            solution_text(alloc, form, problem, plan, *verdict)
        }
    }
}

fn solution_text(
    alloc: Global,
    form: Form,
    problem: &Problem,
    plan: &Solution,
    verdict: Verdict,
) -> Result<String, OutOfMemory>
    requires { IsSolutionVerdict problem.now plan.now verdict }
    ensures { IfOk result (λ text. string_bytes text
        ≡ solution_text form problem.now plan.now.routes verdict) }
{
    let unplanned = unplanned_names(alloc, problem, plan.routes.as_slice())?;
    solution_timetable(alloc, problem, plan, verdict, unplanned.as_slice(), form)
}

/// Prints the timetable of the plan of the store in the file, which is opened for reading only. Before that,
/// prints on `errors` how many search steps are replayed.
pub(crate) fn timetable_store<R, X: DeviceFiles, T: FileAssumptions, W: Write, E: Write>(
    rt: &R,
    disks: &mut X,
    start: T,
    store: &str,
    form: Form,
    output: &mut W,
    errors: &mut E,
) -> io::Result<u8>
where
    R: Eprint + AllocGlobal,
    ensures status { IfOk result (λ status. status ≤ 4) }
    ensures requests { X.requested disks.new ≡ (FileRequest.OpenReadOnly, store.now) ∷ X.requested disks.old }
    ensures reported { IfOk result (TimetablesStore ⟦<FileDevice<T> as Sectors>⟧
        (IsOpenedReadOnlyAt ⟦<HostFile as FileCalls>⟧.entries) store.now form
        (W.contents output.old) (W.contents output.new)) }
{
    match open_read_only(rt, disks, start, store, errors) {
        Ok(looked) => {
            let reported = print_state_timetable(rt.alloc(), &looked.state, form, output);
            close_read_only(rt, store, looked);
            reported
        }
        Err(unopened) => print_read_only_failure(rt, output, store, unopened),
    }
}

// Prints the timetable of a state's plan, or `no NoInstance` if nothing is loaded.
fn print_state_timetable<W: Write>(
    alloc: Global,
    state: &State,
    form: Form,
    output: &mut W,
) -> io::Result<u8>
    ensures status { IfOk result (λ status. status ≤ 4) }
    ensures reported { IfOk result (PrintsStateTimetable form state.now
        (W.contents output.old) (W.contents output.new)) }
{
    match state {
        State::Empty => {
            write_line(output, b"no NoInstance")?;
            Ok(REFUSED)
        }
        State::Loaded(job) => print_explanation_result(output, &plan_report(alloc, job, form)),
    }
}

// Returns the answer line of a job's plan, which passes or is partial, and its timetable.
fn plan_report(alloc: Global, job: &Job, form: Form) -> Result<Explanation, OutOfMemory>
    ensures tells { IfOk result (IsPlanReport form job.now) }
    ensures status { IfOk result (λ reported. reported.answer.status ≤ 2) }
{
    passing_is_local();
    plans_are_disjoint_routes();
    let line = planned_line(alloc, plan_cost(&job.problem, &job.plan))?;
    let pins = job.pins.routes.as_slice();
    let routes = job.plan.routes.as_slice();
    let text = plan_text(alloc, form, &job.problem, pins, routes)?;
    let answer = AuditAnswer { line, status: DONE };
    Ok(Explanation { answer, text })
}

fn plan_text(
    alloc: Global,
    form: Form,
    problem: &Problem,
    pins: &[Route],
    routes: &[Route],
) -> Result<String, OutOfMemory>
    requires { All (AreDistinctStops problem.now) routes.now }
    ensures { IfOk result (λ text. string_bytes text
        ≡ plan_text form problem.now pins.now routes.now) }
{
    let unplanned = unplanned_names(alloc, problem, routes)?;
    timetable(alloc, problem, pins, routes, unplanned.as_slice(), form)
}
