//! The hybrid genetic search, with a progress line before its iterations and at each twentieth of them.
ghost use Rattle.std.specs.Prelude.{◌≡◌, ◌/◌, true, IfOk, OnOk};
ghost use Rattle.std.specs.Io.KnownBytes.{Appends};
ghost use Rattle.command_types.specs.Job.{JobValue};
ghost use Rattle.command_types.specs.declared.states.State.TheVariants.{Loaded};
ghost use Rattle.plan_solve.specs.Solved.{bred_line, marks};
ghost use Rattle.plan_solve.specs.ProgressState.{Adopts, HasBred, ReportsBred};

use crate::execute::{execute, incumbent_of};
use crate::marks::{TWENTIETHS, twentieths};
use crate::progress_lines::EndedJob;
use command_core::{Command, Job, Planner, State};
use hybrid_search::HybridSearch;
use plan_types::{Cost, OutOfMemory, Plan};
use std::alloc::Global;
use std::io;
use std::io::Write;

/// The number of steps that count as one iteration, so that the steps take about as long as those of annealing.
pub(crate) const ITERATION_STEPS: u32 = 64;

/// Makes as many iterations as these steps count as, rounded down. The job adopts the plan that they find.
pub(crate) fn breed_with_progress<W: Write>(
    alloc: Global,
    begun: Job,
    steps: u32,
    progress: &mut W,
) -> Result<EndedJob, OutOfMemory>
    ensures { IfOk result (HasBred (W.contents progress.old) (W.contents progress.new)
        begun (marks (steps / 64))) }
{
    let mut planner = Planner::new(State::Loaded(begun));
    let reported = breed(alloc, &mut planner, steps / ITERATION_STEPS, progress);
    EndedJob::of(planner, reported)
}

// Makes the iterations, starting from the planner's job. Returns whether each progress line was written.
fn breed<W: Write>(
    alloc: Global,
    planner: &mut Planner,
    iterations: u32,
    progress: &mut W,
) -> Result<bool, OutOfMemory>
    ensures { IfOk result (λ is_written. (begun : JobValue) → planner.old ≡ Loaded begun
        → ReportsBred (W.contents progress.old) (W.contents progress.new) begun
        (marks iterations) planner.new is_written) }
{
    let (job, _) = incumbent_of(planner)?;
    let built = job.plan.copy()?;
    let mut search = HybridSearch::new(alloc, &job.problem, &built, job.seed)?;
    breed_parts(alloc, planner, &mut search, &built, iterations, progress)
}

// Makes the iterations of a search, whose plan replaces the built one if it is better.
fn breed_parts<W: Write>(
    alloc: Global,
    planner: &mut Planner,
    search: &mut HybridSearch,
    built: &Plan,
    iterations: u32,
    progress: &mut W,
) -> Result<bool, OutOfMemory>
    ensures { IfOk result (λ is_written. (begun : JobValue) → planner.old ≡ Loaded begun
        → begun.plan ≡ built.now.routes
        → ReportsBred (W.contents progress.old) (W.contents progress.new) begun
        (marks iterations) planner.new is_written) }
{
    adopt_best(alloc, planner, search, built)?;
    let (_, cost) = incumbent_of(planner)?;
    let mut is_written = write_progress_at(true, cost, 0, progress);
    let mut done = 0;
    let mut parts = 0;
    while parts < TWENTIETHS {
        parts += 1;
        let mark = twentieths(iterations, parts);
        if done < mark {
            search.run(alloc, u64::from(mark - done))?;
            adopt_best(alloc, planner, search, built)?;
            let (_, cost) = incumbent_of(planner)?;
            is_written = write_progress_at(is_written, cost, mark, progress);
            done = mark;
        }
    }
    Ok(is_written)
}

// Adopts the best plan so far: the built one, or a better one that the search has found.
fn adopt_best(
    alloc: Global,
    planner: &mut Planner,
    search: &HybridSearch,
    built: &Plan,
) -> Result<(), OutOfMemory>
    ensures { OnOk result ((j : JobValue) → planner.old ≡ Loaded j
        → Adopts j built.now.routes planner.new) }
{
    let (job, _) = incumbent_of(planner)?;
    let plan = search.plan(alloc, &job.problem, built)?;
    execute(alloc, planner, Command::Adopt(plan))
}

// Writes the progress line after this number of iterations, unless an earlier line could not be written. `cost` is
// that of the incumbent. Returns whether this line and all earlier ones were written.
fn write_progress_at<W: Write>(
    is_written: bool,
    cost: Cost,
    iterations: u32,
    progress: &mut W,
) -> bool
    ensures { result ≡ true → (is_written ≡ true)
        × Appends (W.contents progress.old) (W.contents progress.new) (bred_line cost iterations) }
{
    is_written && write_line(cost, iterations, progress).is_ok()
}

// Writes `at STEPS UNPLANNED VEHICLES DISTANCE` and flushes it.
fn write_line<W: Write>(cost: Cost, iterations: u32, progress: &mut W) -> io::Result<()>
    ensures { OnOk result (Appends (W.contents progress.old) (W.contents progress.new)
        (bred_line cost iterations)) }
{
    let steps = u64::from(iterations) * u64::from(ITERATION_STEPS);
    let Cost {
        unplanned,
        vehicles,
        distance,
    } = cost;
    writeln!(progress, "at {steps} {unplanned} {vehicles} {distance}")?;
    progress.flush()
}
