//! The subcommand `solve`: solves the instance in a file.
ghost use Rattle.std.specs.Prelude.{◌≡◌, ◌≤◌, IfOk, OnOk, string_bytes};
ghost use Rattle.std.specs.Io.KnownBytes.{Appends};
ghost use Rattle.command_line.specs.Invocations.{task_of};
ghost use Rattle.request_explanation.specs.Why.{reason_text};
ghost use Rattle.request_explanation.specs.declared.line_prefixes.LinePrefix.TheVariants.{Named};
ghost use Rattle.planner_cli.specs.Solve.{PrintsSolveFault, PrintsPlan, PrintsReasons, PrintsSolveResult, PrintsUnplanned, SolvesInstance, left_out_text, route_count_text, unplanned_line};
ghost use Rattle.auditor_cli.specs.Reads.{IsRead};

use auditor_cli::status::{BROKEN, DONE, REFUSED};
use auditor_cli::{ReadFiles, print_ignored_limit, print_out_of_memory, print_read_failure};
use command_core::Job;
use command_line::SolveArgs;
use plan_audit::{passing_is_local, plans_are_disjoint_routes};
use plan_solve::{SolveFault, SolvedPlan, solve};
use plan_types::{Kind, OutOfMemory};
use request_explanation::{LinePrefix, reason};
use route_sched::used_count;
use std::alloc::Global;
use std::io;
use std::io::Write;

/// Reads an instance and solves it. The plan goes to `output`, everything else to `errors`. If the instance
/// names a limit that is ignored, that is printed first.
pub(crate) fn solve_instance<F: ReadFiles, W: Write, E: Write>(
    alloc: Global,
    task: SolveArgs,
    files: &mut F,
    output: &mut W,
    errors: &mut E,
) -> io::Result<u8>
    ensures status { IfOk result (λ status. status ≤ 4) }
    ensures reads { IsRead task.entry.instance.now (F.reads files.old) (F.reads files.new) }
    ensures reported { IfOk result (SolvesInstance (task_of task.entry)
        (F.reads files.old) (F.reads files.new)
        (W.contents output.old) (W.contents output.new)
        (E.contents errors.old) (E.contents errors.new)) }
{
    let text = match files.read(task.instance) {
        Ok(text) => text,
        Err(error) => return print_read_failure(errors, task.instance, error.kind()),
    };
    print_ignored_limit(task.format, task.instance, &text, errors)?;
    let solved = solve(
        alloc,
        task.format,
        &text,
        task.seed,
        task.steps,
        task.deviation,
        errors,
    );
    let reported = print_solve_result(alloc, &solved, output, errors);
    drop(solved);
    reported
}

// Prints the plan, or the reason why there is none.
fn print_solve_result<W: Write, E: Write>(
    alloc: Global,
    solved: &Result<SolvedPlan, SolveFault>,
    output: &mut W,
    errors: &mut E,
) -> io::Result<u8>
    ensures status { IfOk result (λ status. status ≤ 4) }
    ensures reported { IfOk result (PrintsSolveResult solved.now
        (W.contents output.old) (W.contents output.new)
        (E.contents errors.old) (E.contents errors.new)) }
{
    match solved {
        Ok(solved) => print_plan(alloc, solved, output, errors),
        Err(fault) => print_solve_fault(*fault, errors),
    }
}

// Prints the plan as solution text; then the number of its routes, if its cost does not have it, and the requests
// that it leaves out, with the reasons.
fn print_plan<W: Write, E: Write>(
    alloc: Global,
    solved: &SolvedPlan,
    output: &mut W,
    errors: &mut E,
) -> io::Result<u8>
    ensures status { IfOk result (λ status. status ≤ 4) }
    ensures reported { IfOk result (PrintsPlan solved.now
        (W.contents output.old) (W.contents output.new)
        (E.contents errors.old) (E.contents errors.new)) }
{
    write_flushed(output, &solved.text)?;
    print_route_count(&solved.job, errors)?;
    print_requests_left_out(alloc, solved, errors)
}

// Prints the requests that a plan leaves out, with the reasons. Prints nothing if it leaves none out.
fn print_requests_left_out<E: Write>(
    alloc: Global,
    solved: &SolvedPlan,
    errors: &mut E,
) -> io::Result<u8>
    ensures status { IfOk result (λ status. status ≤ 4) }
    ensures reported { IfOk result (PrintsUnplanned solved.now.job solved.now.unplanned.items
        (E.contents errors.old) (E.contents errors.new)) }
{
    if solved.unplanned.is_empty() {
        return Ok(DONE);
    }
    print_unplanned(errors, &solved.unplanned)?;
    print_reasons(alloc, &solved.job, &solved.unplanned, errors)
}

// Writes a text and flushes it, since the work that follows may take long.
fn write_flushed<W: Write>(output: &mut W, text: &[u8]) -> io::Result<()>
    ensures { OnOk result (Appends (W.contents output.old) (W.contents output.new) text.now) }
{
    output.write_all(text)?;
    output.flush()
}

// Prints `routes N`, the number of routes that a plan of kind `Vrp` uses.
fn print_route_count<E: Write>(job: &Job, errors: &mut E) -> io::Result<()>
    ensures { OnOk result (Appends (E.contents errors.old) (E.contents errors.new)
        (route_count_text job.now.problem.kind job.now.plan)) }
{
    match job.problem.kind {
        Kind::LiLim => Ok(()),
        Kind::Vrp => {
            let count = used_count(job.plan.routes.as_slice());
            writeln!(errors, "routes {count}")
        }
    }
}

// Prints for each of these requests the reason why it is in no route of the plan. Each reason is written as
// soon as it is known.
fn print_reasons<E: Write>(
    alloc: Global,
    job: &Job,
    names: &[u32],
    errors: &mut E,
) -> io::Result<u8>
    ensures status { IfOk result (λ status. status ≤ 4) }
    ensures reported { IfOk result (PrintsReasons job.now names.now
        (E.contents errors.old) (E.contents errors.new)) }
{
    for name in names {
        let reported = match reason_of(alloc, job, *name) {
            Ok(text) => text,
            Err(_) => return print_out_of_memory(errors),
        };
        errors.write_all(reported.as_bytes())?;
    }
    Ok(BROKEN)
}

fn reason_of(alloc: Global, job: &Job, name: u32) -> Result<String, OutOfMemory>
    ensures { IfOk result (λ text. string_bytes text
        ≡ reason_text Named job.now.problem job.now.pins job.now.plan name) }
{
    passing_is_local();
    plans_are_disjoint_routes();
    let pins = job.pins.routes.as_slice();
    let routes = job.plan.routes.as_slice();
    reason(alloc, LinePrefix::Named, &job.problem, pins, routes, name)
}

/// Prints the line of the requests that are left out; nothing if there are none.
pub(crate) fn print_left_out<E: Write>(errors: &mut E, names: &[u32]) -> io::Result<()>
    ensures { OnOk result (Appends (E.contents errors.old) (E.contents errors.new)
        (left_out_text names.now)) }
{
    if names.is_empty() {
        return Ok(());
    }
    print_unplanned(errors, names)
}

/// Prints `unplanned N: R1 R2 ..`, with the number and the names of these requests.
pub(crate) fn print_unplanned<E: Write>(errors: &mut E, names: &[u32]) -> io::Result<()>
    ensures { OnOk result (Appends (E.contents errors.old) (E.contents errors.new)
        (unplanned_line names.now)) }
{
    let count = names.len();
    write!(errors, "unplanned {count}:")?;
    for name in names {
        write!(errors, " {name}")?;
    }
    errors.write_all(b"\n")
}

/// Prints why there is no plan, and returns the exit status.
pub(crate) fn print_solve_fault<E: Write>(fault: SolveFault, errors: &mut E) -> io::Result<u8>
    ensures status { IfOk result (λ status. status ≤ 4) }
    ensures reported { IfOk result (PrintsSolveFault fault (E.contents errors.old) (E.contents errors.new)) }
{
    match fault {
        SolveFault::Refused(fault) => {
            let name = fault.name();
            let line = fault.line;
            writeln!(errors, "instance {name} {line}")?;
            Ok(REFUSED)
        }
        SolveFault::OutOfMemory => print_out_of_memory(errors),
    }
}
