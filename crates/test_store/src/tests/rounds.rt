//! Rounds: a store that is opened, run, and crashed or closed, again and again.

use crate::tests::builders::{SECTORS, empty_store, refusal};
use checkpoint::StoreFault;
use command_core::{Command, Refusal, State, apply};
use instance_read::read_vrp;
use recover::{Denial, Halt, Round, Rounds, RoundsFault, Run, run_round, run_rounds};
use sector_disk::{MemDevice, Sectors};
use state_codec::encode_state;
use std::alloc::Global;
use std::test::Fail;
use test_examples::THREE_CUSTOMERS;

/// A command of a round.
#[derive(Clone, Copy)]
pub enum Step {
    Load,
    Build,
    Search(u16),
}

fn command_of(alloc: Global, step: Step) -> Result<Command, Fail> {
    match step {
        Step::Load => Ok(Command::Load(read_vrp(alloc, THREE_CUSTOMERS)?, 0)),
        Step::Build => Ok(Command::Build),
        Step::Search(count) => Ok(Command::Search(count)),
    }
}

/// Returns the commands of these steps.
pub fn commands_of(alloc: Global, steps: &[Step]) -> Result<Vec<Command>, Fail> {
    let mut commands = Vec::new(alloc);
    for step in steps {
        commands.push(command_of(alloc, *step)?)?;
    }
    Ok(commands)
}

/// The commands of a round, and, if it crashes, the number of calls after which every call fails. In a crash each
/// sector keeps its synced content.
type Script = (&'static [Step], Option<u64>);

const BEGIN: Script = (&[Step::Load, Step::Build], None);

const IN_ROUNDS: [Script; 3] = [
    BEGIN,
    (&[Step::Search(256), Step::Search(44)], Some(2)),
    (&[Step::Search(256), Step::Search(88)], None),
];

const IN_ONE_RUN: [Step; 5] = [
    Step::Load,
    Step::Build,
    Step::Search(256),
    Step::Search(256),
    Step::Search(88),
];

fn round_of(alloc: Global, given: Script) -> Result<Round, Fail> {
    let commands = commands_of(alloc, given.0)?;
    let choices = Vec::new(alloc);
    let stop = match given.1 {
        Some(calls) => Some(Halt { calls, choices }),
        None => None,
    };
    Ok(Round { commands, stop })
}

fn rounds_of(alloc: Global, all: &[Script]) -> Result<Vec<Round>, Fail> {
    let mut rounds = Vec::new(alloc);
    for given in all {
        rounds.push(round_of(alloc, *given)?)?;
    }
    Ok(rounds)
}

fn run_all(alloc: Global, device: MemDevice, rounds: Vec<Round>) -> Result<Rounds, Fail> {
    match run_rounds(alloc, device, rounds) {
        Ok(rounds) => Ok(rounds),
        Err((fault, _)) => Err(fault.into()),
    }
}

// Runs rounds over an empty store.
fn run_over_none(alloc: Global, all: &[Script]) -> Result<Rounds, Fail> {
    let rounds = rounds_of(alloc, all)?;
    run_all(alloc, empty_store(alloc)?, rounds)
}

fn bytes_of(alloc: Global, state: &State) -> Result<Vec<u8>, Fail> {
    Ok(encode_state(alloc, state)?)
}

// Returns the state that the rounds of `IN_ROUNDS` leave, as bytes.
fn interrupted(alloc: Global) -> Result<Vec<u8>, Fail> {
    let rounds = run_over_none(alloc, &IN_ROUNDS)?;
    let bytes = bytes_of(alloc, rounds.session.state());
    drop(rounds);
    bytes
}

// Returns the state after one more command.
fn next(alloc: Global, state: State, command: &Command) -> Result<State, Refusal> {
    let next = apply(alloc, &state, command);
    drop(state);
    next
}

// Returns the state after these commands, computed without a store.
fn state_after(alloc: Global, commands: &[Command]) -> Result<State, Fail> {
    let mut state = State::Empty;
    for command in commands {
        state = next(alloc, state, command)?;
    }
    Ok(state)
}

// Returns the state after the commands of `IN_ONE_RUN`, which make as many steps without an interruption, as
// bytes.
fn uninterrupted(alloc: Global) -> Result<Vec<u8>, Fail> {
    let commands = commands_of(alloc, &IN_ONE_RUN)?;
    let state = state_after(alloc, &commands)?;
    let bytes = bytes_of(alloc, &state);
    drop(state);
    bytes
}

// Returns whether the interrupted and the uninterrupted run leave the same state.
fn ends_alike(alloc: Global) -> Result<bool, Fail> {
    let interrupted = interrupted(alloc)?;
    Ok(interrupted == uninterrupted(alloc)?)
}

#[test]
fn rounds_interrupt_a_search(rt: HostRuntime) -> Result<(), Fail> {
    assert!(rt; ends_alike(rt.alloc())?);
    Ok(())
}

// Returns whether the two commands of a run had these answers.
fn are_answered(run: &Run, answers: [Result<(), Denial>; 2]) -> bool {
    let [first, second] = run.replies.as_slice() else {
        return false;
    };
    first.answer == answers[0] && second.answer == answers[1]
}

// Returns whether only the second command of the second run was interrupted.
fn is_second_interrupted(runs: &[Run]) -> bool {
    let [first, second, third] = runs else {
        return false;
    };
    are_answered(first, [Ok(()), Ok(())])
        && are_answered(second, [Ok(()), Err(Denial::DeviceFault)])
        && are_answered(third, [Ok(()), Ok(())])
}

#[test]
fn a_crash_interrupts_a_round(rt: HostRuntime) -> Result<(), Fail> {
    let rounds = run_over_none(rt.alloc(), &IN_ROUNDS)?;
    assert!(rt; is_second_interrupted(&rounds.runs));
    drop(rounds);
    Ok(())
}

#[test]
fn a_round_alone(rt: HostRuntime) -> Result<(), Fail> {
    let alloc = rt.alloc();
    let only = round_of(alloc, BEGIN)?;
    let (run, device) = run_one(alloc, empty_store(alloc)?, only)?;
    assert_eq!(rt; run.replies.len(), 2);
    // Six calls of the format, one of the opening, four of the load and two of the build.
    assert_eq!(rt; device.calls(), 13);
    Ok(())
}

#[test]
fn no_rounds_leave_the_state(rt: HostRuntime) -> Result<(), Fail> {
    let alloc = rt.alloc();
    let rounds = run_over_none(alloc, &[])?;
    assert!(rt; rounds.runs.is_empty());
    assert!(rt; matches!(rounds.session.state(), State::Empty));
    drop(rounds);
    Ok(())
}

// Returns why rounds are refused, and how many calls have finished.
fn refused(alloc: Global, device: MemDevice, rounds: Vec<Round>) -> Option<(RoundsFault, u64)> {
    refusal(run_rounds(alloc, device, rounds))
}

#[test]
fn rounds_over_no_store(rt: HostRuntime) -> Result<(), Fail> {
    let alloc = rt.alloc();
    let rounds = rounds_of(alloc, &[(&[], Some(2))])?;
    let not_formatted = RoundsFault::Open(StoreFault::NotFormatted);
    let device = MemDevice::new(alloc, SECTORS)?;
    assert!(rt; refused(alloc, device, rounds) == Some((not_formatted, 1)));
    assert!(rt; not_formatted.name() == "NotFormatted");
    Ok(())
}

fn run_one(alloc: Global, device: MemDevice, round: Round) -> Result<(Run, MemDevice), Fail> {
    match run_round(alloc, device, round) {
        Ok(done) => Ok(done),
        Err((fault, _)) => Err(fault.into()),
    }
}
