//! `solve`: turns the text of an instance into the text of a plan.
ghost use Rattle.std.specs.Prelude.{◌≡◌, IfOk, MatchResult, OnOk};
ghost use Rattle.command_core.specs.Effects.{effect};
ghost use Rattle.command_types.specs.declared.commands.Command.TheVariants.{Build, Load};
ghost use Rattle.plan_solve.specs.Solved.{Fails, IsFound, IsSolved, begun};
ghost use Rattle.plan_solve.specs.ProgressState.{HasWalked, refused};

use crate::annealing::anneal_with_progress;
use crate::execute::{execute, final_job};
use crate::faults::SolveFault;
use crate::hybrid::breed_with_progress;
use crate::printing::answer;
use crate::progress_lines::EndedJob;
use crate::search::search_with_progress;
use command_core::{Command, Job, Planner, State};
use hybrid_search::is_accepted;
use instance_read::{Format, ReadFault, ReadFaultKind, read_instance};
use plan_types::limits::MAX_DEVIATION;
use plan_types::{OutOfMemory, Problem};
use std::alloc::Global;
use std::io::Write;

/// The plan for an instance, as text.
#[derive(Debug, Drop)]
pub struct SolvedPlan {
    /// The route lines. If the plan serves every request, its distance follows, and the text is a solution in
    /// `.sol` format.
    pub text: Vec<u8>,
    /// The names of the unplanned requests, in ascending order.
    pub unplanned: Vec<u32>,
    /// The job with this plan, as a store would hold it.
    pub job: Job,
    /// Whether each progress line was written.
    pub is_written: bool,
}

/// Reads an instance, builds a plan with this seed, and improves it by this many steps.
///
/// With a deviation, in the unit of distance and at most `MAX_DEVIATION`, the search makes the steps, like the
/// `run` commands `load`, `build`, `deviation` and `search`. Without one the hybrid genetic search makes an
/// iteration for each 64 steps, if it is for the problem (`is_accepted`). Otherwise the steps are those of the
/// command `anneal 0 STEPS` after `load` and `build`.
///
/// A line `at STEPS UNPLANNED VEHICLES DISTANCE` is written to `progress` and flushed, before the first step
/// and after about each twentieth of them. After a line that can't be written, no more are written.
///
/// # Errors
///
/// `Refused` with the first fault of the text. `OutOfMemory` at any time.
pub fn solve<W: Write>(
    alloc: Global,
    format: Format,
    instance: &[u8],
    seed: u64,
    steps: u32,
    deviation: Option<u32>,
    progress: &mut W,
) -> Result<SolvedPlan, SolveFault>
    ensures { let before = W.contents progress.old in let after = W.contents progress.new in
        MatchResult result (IsSolved format instance.now seed steps deviation before after)
        (Fails format instance.now before after) }
{
    let problem = match read_instance(alloc, format, instance) {
        Ok(problem) => problem,
        Err(fault) => return Err(refused(fault)),
    };
    match found(alloc, problem, seed, steps, deviation, progress) {
        Ok(solved) => Ok(solved),
        Err(_) => Err(SolveFault::OutOfMemory),
    }
}

// Builds a plan for the problem, improves it, and returns it as text.
fn found<W: Write>(
    alloc: Global,
    problem: Problem,
    seed: u64,
    steps: u32,
    deviation: Option<u32>,
    progress: &mut W,
) -> Result<SolvedPlan, OutOfMemory>
    ensures { IfOk result
        (IsFound (W.contents progress.old) (W.contents progress.new) problem seed steps deviation) }
{
    let begun = build(alloc, problem, seed)?;
    let ended = walk(alloc, begun, steps, deviation, progress)?;
    answer(alloc, ended)
}

// Returns the job with the problem loaded and its plan built.
fn build(alloc: Global, problem: Problem, seed: u64) -> Result<Job, OutOfMemory>
    ensures { IfOk result (λ job. job ≡ begun problem seed) }
{
    let mut planner = Planner::new(State::Empty);
    let built = build_on(alloc, &mut planner, problem, seed);
    final_job(planner, built)
}

// Loads the problem into a planner and builds its plan.
fn build_on(
    alloc: Global,
    planner: &mut Planner,
    problem: Problem,
    seed: u64,
) -> Result<(), OutOfMemory>
    ensures { OnOk result (planner.new ≡ effect (effect planner.old (Load problem seed)) Build) }
{
    execute(alloc, planner, Command::Load(problem, seed))?;
    execute(alloc, planner, Command::Build)
}

fn refused(fault: ReadFault) -> SolveFault
    ensures { result ≡ refused fault }
{
    match fault.kind {
        ReadFaultKind::OutOfMemory => SolveFault::OutOfMemory,
        _ => SolveFault::Refused(fault),
    }
}

// Makes the steps: by the search with a deviation, and by the hybrid genetic search or annealing without one.
fn walk<W: Write>(
    alloc: Global,
    begun: Job,
    steps: u32,
    deviation: Option<u32>,
    progress: &mut W,
) -> Result<EndedJob, OutOfMemory>
    ensures { IfOk result (HasWalked (W.contents progress.old) (W.contents progress.new)
        begun steps deviation) }
{
    match deviation {
        Some(deviation) => {
            let deviation = deviation.min(MAX_DEVIATION);
            search_with_progress(alloc, begun, deviation, steps, progress)
        }
        None if is_accepted(&begun.problem) => breed_with_progress(alloc, begun, steps, progress),
        None => anneal_with_progress(alloc, begun, steps, progress),
    }
}
