//! The effects of commands on states, and their refusals.
use crate::tests::builders::{TestProblem, problem_of};
use command_core::{Command, Refusal, Spot, State, apply};
use plan_types::Problem;
use std::alloc::Global;
use std::test::Fail;

mod reductions;
mod refusals;
mod sizes;

/// A command on a loaded state.
#[derive(Clone, Copy)]
enum TestCommand {
    /// The addition of a single at the depot, with a window that ends at 9.
    AddOne,
    Withdraw(u32),
    Pin(u32, u32),
    Unpin(u32),
    Build,
    Search(u16),
    Anneal(u32),
    Reduce(u32),
}

const AT_THE_DEPOT: Spot = Spot {
    x: 0,
    y: 0,
    earliest: 0,
    latest: 9,
    service: 0,
};

fn command(step: TestCommand) -> Command {
    match step {
        TestCommand::AddOne => Command::Add1 {
            demand: 1,
            spot: AT_THE_DEPOT,
        },
        TestCommand::Withdraw(name) => Command::Withdraw(name),
        TestCommand::Pin(vehicle, stops) => Command::Pin(vehicle, stops),
        TestCommand::Unpin(vehicle) => Command::Unpin(vehicle),
        TestCommand::Build => Command::Build,
        TestCommand::Search(count) => Command::Search(count),
        TestCommand::Anneal(count) => Command::Anneal(count),
        TestCommand::Reduce(count) => Command::Reduce(count),
    }
}

// Returns the state after one command.
fn applied(alloc: Global, state: &State, command: Command) -> Result<State, Refusal> {
    apply(alloc, state, &command)
}

fn load(alloc: Global, problem: Problem) -> Result<State, Refusal> {
    applied(alloc, &State::Empty, Command::Load(problem, 0))
}

fn loaded(alloc: Global, given: TestProblem) -> Result<State, Fail> {
    Ok(load(alloc, problem_of(alloc, given)?)?)
}

// Returns the state after one more command.
fn next(alloc: Global, state: State, step: TestCommand) -> Result<State, Refusal> {
    let next = applied(alloc, &state, command(step));
    drop(state);
    next
}

// Returns the state after these commands, one by one.
fn after(alloc: Global, begun: State, steps: &[TestCommand]) -> Result<State, Fail> {
    let mut state = begun;
    for step in steps {
        state = next(alloc, state, *step)?;
    }
    Ok(state)
}
