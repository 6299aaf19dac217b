//! Large states, and copies of states.
ghost use Rattle.std.specs.Prelude.{◌≡◌, true, IfOk};
ghost use Rattle.plan_audit.specs.Passes.{passes};

use super::{TestCommand, after, load, loaded};
use crate::tests::builders::{TestProblem, grid, is_passing, one_route};
use command_core::{Job, Refusal, State, unplanned_names};
use plan_types::{Pins, Plan, Problem};
use std::alloc::Global;
use std::test::Fail;

// Returns the job with this plan and this working plan.
fn with_plans(job: Job, plan: Plan, work: Plan) -> Job
    requires plan { passes job.problem job.pins plan.routes ≡ true }
    requires work { passes job.problem job.pins work.routes ≡ true }
{
    let Job {
        problem,
        pins,
        deviation,
        seed,
        steps,
        ..
    } = job;
    Job::from_parts(problem, pins, plan, work, deviation, seed, steps)
}

// Returns a copy of a plan that passes.
fn passing_copy(alloc: Global, problem: &Problem, pins: &Pins, plan: &Plan) -> Result<Plan, Fail>
    ensures plan { IfOk result (λ _. passes problem.now pins.now.routes plan.now.routes ≡ true) }
    ensures copy { IfOk result (λ copy. passes problem.now pins.now.routes copy.routes ≡ true) }
{
    if !is_passing(alloc, problem, pins, plan)? {
        return Err(Refusal::NoInstance.into());
    }
    Ok(plan.copy()?)
}

// Returns the state of the job with this plan as incumbent and as working plan, if the plan passes.
fn with_plan(alloc: Global, job: Job, plan: Plan) -> Result<State, Fail> {
    match passing_copy(alloc, &job.problem, &job.pins, &plan) {
        Ok(work) => Ok(State::Loaded(with_plans(job, plan, work))),
        Err(fail) => {
            drop(job);
            Err(fail)
        }
    }
}

fn planned(alloc: Global, state: State, plan: Plan) -> Result<State, Fail> {
    match state {
        State::Loaded(job) => with_plan(alloc, job, plan),
        State::Empty => Ok(State::Empty),
    }
}

// Returns a state with one request fewer than possible, as many vehicles as possible, and one route of all
// stops.
fn largest(alloc: Global) -> Result<State, Fail> {
    let plan = one_route(alloc, 39_999, 40_000)?;
    let problem = grid(alloc, 39_999, 1_000_000, 40_000)?;
    planned(alloc, load(alloc, problem)?, plan)
}

// Returns the number of requests, the next number, and the number of steps made; zeros before the first `Load`.
fn numbers(state: &State) -> (usize, u32, u64) {
    match state {
        State::Empty => (0, 0, 0),
        State::Loaded(job) => (
            job.problem.requests.len(),
            job.problem.next_number,
            job.steps,
        ),
    }
}

// Returns the names of the unplanned requests.
fn unplanned(alloc: Global, state: &State) -> Result<Vec<u32>, Fail> {
    match state {
        State::Empty => Ok(Vec::new(alloc)),
        State::Loaded(job) => {
            let routes = job.plan.routes.as_slice();
            Ok(unplanned_names(alloc, &job.problem, routes)?)
        }
    }
}

const COMMANDS_ON_THE_LARGEST: [TestCommand; 4] = [
    TestCommand::Pin(1, 39_999),
    TestCommand::Unpin(1),
    TestCommand::AddOne,
    TestCommand::Withdraw(20_000),
];

// Returns a copy of the largest state.
fn copied(alloc: Global) -> Result<State, Fail> {
    let state = largest(alloc)?;
    let copy = state.copy();
    drop(state);
    Ok(copy?)
}

// Returns whether the commands have the expected effect on a copy of the largest state.
fn is_changed(alloc: Global) -> Result<bool, Fail> {
    let state = after(alloc, copied(alloc)?, &COMMANDS_ON_THE_LARGEST)?;
    let numbers = numbers(&state);
    let names = unplanned(alloc, &state);
    drop(state);
    let names = names?;
    Ok(numbers == (39_999, 40_001, 0) && names.as_slice() == [40_000].as_slice())
}

#[test]
fn of_forty_thousand_stops(rt: HostRuntime) -> Result<(), Fail> {
    assert!(rt; is_changed(rt.alloc())?);
    Ok(())
}

// Returns a state with a pinned plan.
fn pinned(alloc: Global) -> Result<State, Fail> {
    let begun = loaded(alloc, TestProblem::Pairs)?;
    after(alloc, begun, &[TestCommand::Build, TestCommand::Pin(1, 4)])
}

fn shown(alloc: Global, state: &State) -> Result<String, Fail> {
    Ok(format!(in alloc; "{state:?}")?)
}

fn shown_of_a_copy(alloc: Global, state: &State) -> Result<String, Fail> {
    let copy = state.copy()?;
    let shown = shown(alloc, &copy);
    drop(copy);
    shown
}

// Returns whether a copy of the state prints the same text as the state.
fn is_copied(alloc: Global, state: &State) -> Result<bool, Fail> {
    let copied = shown_of_a_copy(alloc, state)?;
    Ok(copied.as_str() == shown(alloc, state)?.as_str())
}

fn is_pinned_copied(alloc: Global) -> Result<bool, Fail> {
    let state = pinned(alloc)?;
    let is_copied = is_copied(alloc, &state);
    drop(state);
    is_copied
}

#[test]
fn of_a_copy(rt: HostRuntime) -> Result<(), Fail> {
    assert!(rt; is_pinned_copied(rt.alloc())?);
    Ok(())
}
