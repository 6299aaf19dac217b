//! The subcommand `draw`: the picture of a solution in a file, or of the plan in a store, which is opened for
//! reading only.
ghost use Rattle.std.specs.Prelude.{◌≡◌, ◌≤◌, ◌∷◌, IfOk, None, Some, length};
ghost use Rattle.file_disk.specs.DeviceFiles.{IsOpenedReadOnlyAt};
ghost use Rattle.planner_cli.specs.Draw.{DrawsState, DrawsStore, IsDrawing, IsDrawingOf, IsPartialDrawing, IsPictureOf, IsJobDrawing, PrintsDrawing, DrawsFiles, PrintsDrawResult, used_vehicle_count_after, used_vehicles};
ghost use Rattle.auditor_cli.specs.Files.{AreReadInTurn};

use crate::read_only::{close_read_only, open_read_only, print_read_only_failure};
use crate::solve::print_left_out;
use auditor_cli::status::{DONE, REFUSED};
use auditor_cli::{
    AuditAnswer, Examination, PartialPlan, PlanExamination, ReadFiles, answer_of, examine_plan,
    print_out_of_memory, print_read_failure, read_both, write_line,
};
use command_core::{Job, State, unplanned_names};
use command_line::Paths;
use file_disk::{DeviceFiles, FileAssumptions, FileCalls, FileDevice, FileRequest, HostFile};
use instance_read::Format;
use plan_audit::{Verdict, passing_is_local, plans_are_disjoint_routes};
use plan_picture::{draw, draw_route};
use plan_types::{OutOfMemory, Problem, Route};
use route_sched::plan_cost;
use sector_disk::Sectors;
use std::alloc::Global;
use std::io;
use std::io::Write;

/// The result of drawing a solution.
#[derive(Drop)]
pub(crate) enum Drawing {
    /// The picture, as SVG.
    Picture(Vec<u8>),
    /// The picture of a partial plan, and the names of the requests that it leaves out.
    Partial(Vec<u8>, Vec<u32>),
    /// No route has the requested number.
    NoSuchRoute,
    /// The answer of the audit, if one of the files is refused.
    Refused(AuditAnswer),
}

/// Reads both files as `audit_files` does, and draws the solution, or only the route with this number. The
/// picture goes to `output`, everything else to `errors`.
pub(crate) fn draw_files<F: ReadFiles, W: Write, E: Write>(
    alloc: Global,
    paths: Paths,
    route: Option<u32>,
    files: &mut F,
    output: &mut W,
    errors: &mut E,
) -> io::Result<u8>
    ensures status { IfOk result (λ status. status ≤ 4) }
    ensures reads { AreReadInTurn paths.entry.instance.now paths.entry.solution.now
        (F.reads files.old) (F.reads files.new) }
    ensures reported { IfOk result (DrawsFiles paths.entry.format route paths.entry.instance.now
        paths.entry.solution.now (F.reads files.old) (F.reads files.new)
        (W.contents output.old) (W.contents output.new)
        (E.contents errors.old) (E.contents errors.new)) }
{
    let both = match read_both(paths, files) {
        Ok(both) => both,
        Err(unread) => return print_read_failure(errors, unread.path, unread.kind),
    };
    let drawn = draw_texts(alloc, paths.format, route, &both.0, &both.1);
    print_draw_result(&drawn, output, errors)
}

// Prints the result of drawing, or `out of memory`.
fn print_draw_result<W: Write, E: Write>(
    drawn: &Result<Drawing, OutOfMemory>,
    output: &mut W,
    errors: &mut E,
) -> io::Result<u8>
    ensures { IfOk result (PrintsDrawResult drawn.now
        (W.contents output.old) (W.contents output.new)
        (E.contents errors.old) (E.contents errors.new)) }
{
    match drawn {
        Ok(drawing) => print_drawing(drawing, output, errors),
        Err(_) => print_out_of_memory(errors),
    }
}

// Prints the picture, or the reason why there is none.
fn print_drawing<W: Write, E: Write>(
    drawing: &Drawing,
    output: &mut W,
    errors: &mut E,
) -> io::Result<u8>
    ensures { IfOk result (PrintsDrawing drawing.now
        (W.contents output.old) (W.contents output.new)
        (E.contents errors.old) (E.contents errors.new)) }
{
    match drawing {
        Drawing::Picture(svg) => {
            output.write_all(svg)?;
            Ok(DONE)
        }
        Drawing::Partial(svg, left_out) => {
            output.write_all(svg)?;
            print_left_out(errors, left_out)?;
            Ok(DONE)
        }
        Drawing::NoSuchRoute => {
            write_line(errors, b"no NoSuchRoute")?;
            Ok(REFUSED)
        }
        Drawing::Refused(answer) => {
            write_line(errors, answer.line.as_bytes())?;
            Ok(answer.status)
        }
    }
}

// Parses both texts, audits the solution or the partial plan, and draws it, or one route of it.
fn draw_texts(
    alloc: Global,
    format: Format,
    route: Option<u32>,
    instance: &[u8],
    solution: &[u8],
) -> Result<Drawing, OutOfMemory>
    ensures { IfOk result (IsDrawing format route instance.now solution.now) }
{
    match examine_plan(alloc, format, instance, solution)? {
        PlanExamination::Whole(examined) => draw_examined(alloc, route, &examined),
        PlanExamination::Partial(partial) => draw_partial(alloc, route, &partial),
    }
}

// Draws a partial plan, or only its route with this number.
fn draw_partial(
    alloc: Global,
    route: Option<u32>,
    partial: &PartialPlan,
) -> Result<Drawing, OutOfMemory>
    ensures { IfOk result (IsPartialDrawing route partial.now) }
{
    let routes = partial.plan.routes.as_slice();
    let verdict = Verdict::Pass(partial.cost);
    let left_out = unplanned_names(alloc, &partial.problem, routes)?;
    match picture_of(alloc, route, &partial.problem, routes, verdict)? {
        Drawing::Picture(svg) => Ok(Drawing::Partial(svg, left_out)),
        drawing => Ok(drawing),
    }
}

// Draws two examined files, or returns the answer of the audit if one of them is refused.
fn draw_examined(
    alloc: Global,
    route: Option<u32>,
    examined: &Examination,
) -> Result<Drawing, OutOfMemory>
    ensures { IfOk result (IsDrawingOf route examined.now) }
{
    match examined {
        Examination::Judged(problem, plan, verdict) => {
            picture_of(alloc, route, problem, plan.routes.as_slice(), *verdict)
        }
        _ => Ok(Drawing::Refused(answer_of(alloc, examined)?)),
    }
}

// Draws all routes, or only the one with this number.
fn picture_of(
    alloc: Global,
    route: Option<u32>,
    problem: &Problem,
    routes: &[Route],
    verdict: Verdict,
) -> Result<Drawing, OutOfMemory>
    ensures { IfOk result (IsPictureOf route problem.now routes.now verdict) }
{
    match route {
        None => Ok(Drawing::Picture(draw(alloc, problem, routes, verdict)?)),
        Some(number) => draw_one_route(alloc, number, problem, routes, verdict),
    }
}

// Draws only the route with this number.
fn draw_one_route(
    alloc: Global,
    number: u32,
    problem: &Problem,
    routes: &[Route],
    verdict: Verdict,
) -> Result<Drawing, OutOfMemory>
    ensures { IfOk result (IsPictureOf (Some number) problem.now routes.now verdict) }
{
    match draw_route(alloc, problem, routes, verdict, u64::from(number))? {
        Some(svg) => Ok(Drawing::Picture(svg)),
        None => Ok(Drawing::NoSuchRoute),
    }
}

/// Draws the plan of the store in the file, or only the route of the vehicle with this number. The store is
/// opened for reading only. The picture goes to `output`, everything else to `errors`, beginning with the number
/// of search steps that are replayed.
pub(crate) fn draw_store<R, X: DeviceFiles, T: FileAssumptions, W: Write, E: Write>(
    rt: &R,
    disks: &mut X,
    start: T,
    store: &str,
    route: Option<u32>,
    output: &mut W,
    errors: &mut E,
) -> io::Result<u8>
where
    R: Eprint + AllocGlobal,
    ensures status { IfOk result (λ status. status ≤ 4) }
    ensures requests { X.requested disks.new ≡ (FileRequest.OpenReadOnly, store.now) ∷ X.requested disks.old }
    ensures reported { IfOk result (DrawsStore ⟦<FileDevice<T> as Sectors>⟧
        (IsOpenedReadOnlyAt ⟦<HostFile as FileCalls>⟧.entries) store.now route
        (W.contents output.old) (W.contents output.new)
        (E.contents errors.old) (E.contents errors.new)) }
{
    match open_read_only(rt, disks, start, store, errors) {
        Ok(looked) => {
            let reported = draw_state(rt.alloc(), route, &looked.state, output, errors);
            close_read_only(rt, store, looked);
            reported
        }
        Err(unopened) => print_read_only_failure(rt, errors, store, unopened),
    }
}

// Draws a state's plan, or only its route with this number; prints `no NoInstance` if nothing is loaded.
fn draw_state<W: Write, E: Write>(
    alloc: Global,
    route: Option<u32>,
    state: &State,
    output: &mut W,
    errors: &mut E,
) -> io::Result<u8>
    ensures status { IfOk result (λ status. status ≤ 4) }
    ensures reported { IfOk result (DrawsState route state.now
        (W.contents output.old) (W.contents output.new)
        (E.contents errors.old) (E.contents errors.new)) }
{
    match state {
        State::Empty => {
            write_line(errors, b"no NoInstance")?;
            Ok(REFUSED)
        }
        State::Loaded(job) => print_draw_result(&draw_job(alloc, route, job), output, errors),
    }
}

// Draws a job's plan, which passes, or only its route with this number. Vehicles keep their numbers, so only the
// idle vehicles at the end are left out.
fn draw_job(alloc: Global, route: Option<u32>, job: &Job) -> Result<Drawing, OutOfMemory>
    ensures { IfOk result (IsJobDrawing route job.now) }
{
    passing_is_local();
    plans_are_disjoint_routes();
    let verdict = Verdict::Pass(plan_cost(&job.problem, &job.plan));
    let routes = used_vehicles(job.plan.routes.as_slice());
    picture_of(alloc, route, &job.problem, routes, verdict)
}

// Returns the vehicles up to the last one with a stop.
fn used_vehicles(routes: &[Route]) -> &[Route]
    ensures { result.now ≡ used_vehicles routes.now }
{
    &routes[..used_vehicle_count(routes)]
}

fn used_vehicle_count(routes: &[Route]) -> usize
    ensures count { result ≡ used_vehicle_count_after 0 0 routes.now }
    ensures bound { result ≤ length routes.now }
{
    let mut count = 0;
    for (index, route) in routes.iter().enumerate() {
        if !route.as_slice().is_empty() {
            count = index + 1;
        }
    }
    count
}
