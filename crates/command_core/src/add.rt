//! Adding requests to a job's problem.
ghost use Rattle.std.specs.Prelude.{◌≡◌, ◌≤ℤ◌, pos, neg_ℤ, None, IfOk, IfErr};
ghost use Rattle.plan_types.specs.declared.limits.TheConstants.{MAX_DEMAND};
ghost use Rattle.plan_types.specs.Instance.{with_request};
ghost use Rattle.command_types.specs.Job.{IsJob};
ghost use Rattle.command_types.specs.AddedRequests.{stop_at_spot, single_at, pair_at};
ghost use Rattle.command_core.specs.Effects.{added};
ghost use Rattle.command_core.specs.Refusals.{job_refusal};

use crate::laws::commands_keep_invariants;
use command_types::{Command, Job, Refusal, Spot, copies};
use plan_types::{OutOfMemory, Problem, Request, Stop};
use std::alloc::AllocError;

/// Adds an unplanned pair, whose stops get the next two numbers.
pub(crate) fn add(job: &Job, demand: u32, pickup: &Spot, delivery: &Spot) -> Result<Job, Refusal>
    requires { job_refusal job.now (Command.Add demand pickup.now delivery.now) ≡ None }
    ensures ok { IfOk result (λ new. new
        ≡ added job.now (pair_at job.now.problem.next_number demand pickup.now delivery.now)) }
    ensures err { IfErr result (λ r. r ≡ Refusal.OutOfMemory) }
{
    commands_keep_invariants();
    let problem = &job.problem;
    let number = problem.next_number;
    let first = stop_at_spot(pickup, number, demand as i32);
    let second = stop_at_spot(delivery, number + 1, delivery_demand(demand));
    added(job, Request::Pair(first, second))
}

/// Adds an unplanned single, whose stop gets the next number.
pub(crate) fn add_single(job: &Job, demand: u32, spot: &Spot) -> Result<Job, Refusal>
    requires { job_refusal job.now (Command.Add1 demand spot.now) ≡ None }
    ensures ok { IfOk result (λ new. new
        ≡ added job.now (single_at job.now.problem.next_number demand spot.now)) }
    ensures err { IfErr result (λ r. r ≡ Refusal.OutOfMemory) }
{
    commands_keep_invariants();
    let problem = &job.problem;
    let number = problem.next_number;
    added(
        job,
        Request::Single(stop_at_spot(spot, number, demand as i32)),
    )
}

// Returns the demand of the delivery: the negative of the pickup's.
fn delivery_demand(goods: u32) -> i32
    requires { pos goods ≤ℤ MAX_DEMAND }
    ensures { result ≡ neg_ℤ (pos goods) }
{
    -(goods as i32)
}

fn stop_at_spot(spot: &Spot, number: u32, demand: i32) -> Stop
    ensures { result ≡ stop_at_spot spot.now number demand }
{
    Stop {
        number,
        x: spot.x,
        y: spot.y,
        demand,
        earliest: spot.earliest,
        latest: spot.latest,
        service: spot.service,
    }
}

// Returns the job with this request added. Its stop numbers are new.
fn added(job: &Job, request: Request) -> Result<Job, Refusal>
    requires { IsJob (added job.now request) }
    ensures ok { IfOk result (λ new. new ≡ added job.now request) }
    ensures err { IfErr result (λ r. r ≡ Refusal.OutOfMemory) }
{
    let problem = with_request(&job.problem, request)?;
    let lists = copies(&job.pins, &job.plan, &job.plan)?;
    Ok(job.with_parts(problem, lists))
}

// Returns the problem with this request added. Its stop numbers are new.
fn with_request(problem: &Problem, request: Request) -> Result<Problem, OutOfMemory>
    ensures { IfOk result (λ new. new ≡ with_request problem.now request) }
{
    let mut problem = problem.copy()?;
    match problem.put(request) {
        Ok(()) => Ok(problem),
        Err(_) => Err(AllocError),
    }
}
