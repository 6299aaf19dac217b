//! Refusals that no command of the program meets.
ghost use Rattle.std.specs.Prelude.{◌≡◌, ◌≤◌, ◌^◌};

use super::{TestCommand, after, command, loaded};
use crate::tests::builders::TestProblem;
use command_core::{Command, Job, Refusal, State, apply, check};
use std::alloc::Global;
use std::test::Fail;

/// A command on two pairs with a plan, and its refusal. The program never meets these refusals, since it splits
/// its commands into operations with fewer steps.
const COUNT_REFUSALS: [(TestCommand, Option<Refusal>); 9] = [
    (TestCommand::Search(0), Some(Refusal::Range)),
    (TestCommand::Search(256), None),
    (TestCommand::Search(257), Some(Refusal::Range)),
    (TestCommand::Anneal(0), Some(Refusal::Range)),
    (TestCommand::Anneal(65_536), None),
    (TestCommand::Anneal(65_537), Some(Refusal::Range)),
    (TestCommand::Reduce(0), Some(Refusal::Range)),
    (TestCommand::Reduce(524_288), None),
    (TestCommand::Reduce(524_289), Some(Refusal::Range)),
];

// Returns the refusal of the command, or `None` if it is accepted or `check` and `apply` differ.
fn refusal(alloc: Global, state: &State, step: TestCommand) -> Option<Refusal> {
    refusal_by_both(alloc, state, &command(step))
}

fn refusal_by_both(alloc: Global, state: &State, command: &Command) -> Option<Refusal> {
    let edit_result = check(state, command).err()?;
    let same = apply(alloc, state, command).err()?;
    if edit_result == same {
        Some(edit_result)
    } else {
        None
    }
}

/// Commands with counts out of range. Before a problem is loaded, they are refused with `NoInstance`, which comes
/// before `Range`.
const COMMANDS_BEFORE_LOAD: [TestCommand; 3] = [
    TestCommand::Search(0),
    TestCommand::Anneal(0),
    TestCommand::Reduce(0),
];

#[test]
fn refusals_before_load(rt: HostRuntime) {
    for step in COMMANDS_BEFORE_LOAD {
        let edit_result = refusal(rt.alloc(), &State::Empty, step);
        assert!(rt; edit_result == Some(Refusal::NoInstance));
    }
}

// Returns the refusal of a command on two pairs with a plan.
fn refusal_of(alloc: Global, step: TestCommand) -> Result<Option<Refusal>, Fail> {
    let state = after(
        alloc,
        loaded(alloc, TestProblem::Pairs)?,
        &[TestCommand::Build],
    )?;
    let refusal = refusal(alloc, &state, step);
    drop(state);
    Ok(refusal)
}

#[test]
fn refusals_of_counts(rt: HostRuntime) -> Result<(), Fail> {
    for (step, edit_result) in COUNT_REFUSALS {
        assert!(rt; refusal_of(rt.alloc(), step)? == edit_result);
    }
    Ok(())
}

// Returns the job with this number of steps made.
fn with_steps(job: Job, steps: u64) -> Job
    requires { steps ≤ 2 ^ 60 }
{
    let Job {
        problem,
        pins,
        plan,
        work,
        deviation,
        seed,
        ..
    } = job;
    Job::from_parts(problem, pins, plan, work, deviation, seed, steps)
}

// Returns the state of two pairs with this many steps left.
fn near_the_last_step(alloc: Global, left: u64) -> Result<State, Fail> {
    match loaded(alloc, TestProblem::Pairs)? {
        State::Loaded(job) => {
            let steps = (1_u64 << 60).saturating_sub(left);
            Ok(State::Loaded(with_steps(job, steps)))
        }
        State::Empty => Ok(State::Empty),
    }
}

/// The number of steps left, a command, and its refusal.
const LAST_STEP_REFUSALS: [(u64, TestCommand, Option<Refusal>); 8] = [
    (1, TestCommand::Search(1), None),
    (1, TestCommand::Search(2), Some(Refusal::StepsSpent)),
    (1, TestCommand::Anneal(1), None),
    (1, TestCommand::Anneal(2), Some(Refusal::StepsSpent)),
    (1, TestCommand::Reduce(1), None),
    (1, TestCommand::Reduce(2), Some(Refusal::StepsSpent)),
    (0, TestCommand::Search(1), Some(Refusal::StepsSpent)),
    (0, TestCommand::Search(0), Some(Refusal::Range)),
];

fn late_refusal(alloc: Global, left: u64, step: TestCommand) -> Result<Option<Refusal>, Fail> {
    let state = near_the_last_step(alloc, left)?;
    let refusal = refusal(alloc, &state, step);
    drop(state);
    Ok(refusal)
}

#[test]
fn refusals_near_the_last_step(rt: HostRuntime) -> Result<(), Fail> {
    for (left, step, edit_result) in LAST_STEP_REFUSALS {
        assert!(rt; late_refusal(rt.alloc(), left, step)? == edit_result);
    }
    Ok(())
}
