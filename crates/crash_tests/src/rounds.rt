//! Random lists of rounds. A round opens a store, executes commands and may crash. The state that it leaves must
//! be one that its answers allow.

use crate::crashes::{fresh, opened_state};
use crate::examples::{advance, applied, bytes_of, load_three, or_invalid_data};
use crate::tables::{count, print_row};
use checkpoint::SECTORS;
use command_core::{Command, Spot, State, check};
use recover::{Denial, Halt, Round, Run, run_round, run_rounds};
use sector_disk::MemDevice;
use state_codec::decode_state;
use std::alloc::Global;
use std::io;

/// The number of lists.
const LISTS: u64 = 200;

/// Knuth's linear congruential generator (MMIX). Only the upper bits are used.
#[derive(Drop)]
struct Random {
    state: u64,
}

impl Random {
    /// Creates the generator of a round, from the number of its list and its index there.
    fn of_round(list: u64, place: u64) -> Random {
        let mut random = Random {
            state: list.wrapping_mul(64).wrapping_add(place),
        };
        random.step();
        random
    }

    fn step(&mut self) {
        self.state = self
            .state
            .wrapping_mul(6_364_136_223_846_793_005)
            .wrapping_add(1_442_695_040_888_963_407);
    }

    fn below(&mut self, bound: u16) -> u16 {
        self.step();
        ((self.state >> 48) as u16).checked_rem(bound).unwrap_or(0)
    }

    fn number_below(&mut self, bound: u16) -> u32 {
        u32::from(self.below(bound))
    }
}

// Returns a random command. The state may refuse it.
fn command_of(alloc: Global, random: &mut Random) -> io::Result<Command> {
    match random.below(12) {
        0 => load_three(alloc),
        kind => Ok(short_command(random, kind)),
    }
}

fn short_command(random: &mut Random, kind: u16) -> Command {
    match kind {
        1 | 2 => Command::Build,
        3 | 4 | 5 => Command::Search(random.below(65)),
        6 => Command::Deviation(random.number_below(20)),
        7 => Command::Pin(random.number_below(3), random.number_below(3)),
        8 => Command::Unpin(random.number_below(3)),
        9 => Command::Withdraw(random.number_below(5)),
        10 => added(random),
        _ => Command::Checkpoint,
    }
}

fn added(random: &mut Random) -> Command {
    Command::Add1 {
        demand: random.number_below(4),
        spot: Spot {
            x: i32::from(random.below(9)),
            y: i32::from(random.below(9)),
            earliest: 0,
            latest: random.number_below(100),
            service: 0,
        },
    }
}

// Returns up to five commands. In the first round a load comes before them.
fn commands_of(alloc: Global, random: &mut Random, place: u64) -> io::Result<Vec<Command>> {
    let loads = u16::from(place == 0);
    let mut commands = Vec::new(alloc);
    for index in 0..random.below(6).saturating_add(loads) {
        commands.push(next_command(alloc, random, index < loads)?)?;
    }
    Ok(commands)
}

fn next_command(alloc: Global, random: &mut Random, is_load: bool) -> io::Result<Command> {
    if is_load {
        load_three(alloc)
    } else {
        command_of(alloc, random)
    }
}

// Returns the crash of a round, if it has one. On average three of four rounds crash, after 0 to 13 finished
// calls, with a random choice from 0 to 3 for each sector.
fn halt_of(alloc: Global, random: &mut Random) -> io::Result<Option<Halt>> {
    if random.below(4) == 0 {
        return Ok(None);
    }
    let calls = u64::from(random.below(14));
    let mut choices = Vec::with_capacity(alloc, SECTORS as usize)?;
    for _ in 0..SECTORS {
        choices.push(random.number_below(4))?;
    }
    Ok(Some(Halt { calls, choices }))
}

fn round_of(alloc: Global, list: u64, place: u64) -> io::Result<Round> {
    let mut random = Random::of_round(list, place);
    let commands = commands_of(alloc, &mut random, place)?;
    let stop = halt_of(alloc, &mut random)?;
    Ok(Round { commands, stop })
}

/// The result of a round.
#[derive(Drop)]
struct RoundResult {
    /// The state, as bytes.
    state: Vec<u8>,
    /// The answers to the commands.
    answers: Vec<Result<(), Denial>>,
}

// Executes a round, and opens the device again to see the state that the round left.
fn run_round_and_open(
    alloc: Global,
    device: MemDevice,
    list: u64,
    place: u64,
) -> io::Result<(RoundResult, MemDevice)> {
    let (run, device) = or_invalid_data(run_round(alloc, device, round_of(alloc, list, place)?))?;
    left_of(alloc, &run, device)
}

fn left_of(alloc: Global, run: &Run, device: MemDevice) -> io::Result<(RoundResult, MemDevice)> {
    let (state, device) = opened_state(alloc, device)?;
    let answers = answers_of(alloc, run)?;
    Ok((RoundResult { state, answers }, device))
}

fn answers_of(alloc: Global, run: &Run) -> io::Result<Vec<Result<(), Denial>>> {
    let mut answers = Vec::with_capacity(alloc, run.replies.len())?;
    for reply in &run.replies {
        answers.push(reply.answer)?;
    }
    Ok(answers)
}

/// The state that a round left, compared with its answers.
#[derive(Clone, Copy)]
enum Outcome {
    /// The state after all acknowledged commands, and no call failed.
    Whole,
    /// The state without the command during which the device failed.
    Without,
    /// The state with the command during which the device failed.
    With,
    /// Any other state, or an answer that is not allowed.
    Other,
}

impl Outcome {
    /// Returns the column that counts this outcome.
    fn place(self) -> usize {
        match self {
            Outcome::Whole => 0,
            Outcome::Without => 1,
            Outcome::With => 2,
            Outcome::Other => 3,
        }
    }
}

fn is_left(alloc: Global, state: &State, left: &RoundResult) -> io::Result<bool> {
    Ok(bytes_of(alloc, state)?.as_slice() == left.state.as_slice())
}

// Returns the outcome of a round that began with this state.
fn outcome_of(
    alloc: Global,
    list: u64,
    place: u64,
    begun: &[u8],
    left: &RoundResult,
) -> io::Result<Outcome> {
    let commands = commands_of(alloc, &mut Random::of_round(list, place), place)?;
    match decode_state(alloc, begun) {
        Ok(mut state) => {
            let outcome = repeated(alloc, &mut state, &commands, left);
            drop(state);
            outcome
        }
        Err(_) => Ok(Outcome::Other),
    }
}

// Executes the commands of the round again, as far as their answers say so, and returns the outcome.
fn repeated(
    alloc: Global,
    state: &mut State,
    commands: &[Command],
    left: &RoundResult,
) -> io::Result<Outcome> {
    if left.answers.len() != commands.len() {
        return Ok(Outcome::Other);
    }
    for (command, answer) in commands.iter().zip(&left.answers) {
        match answer {
            Ok(()) => advance(alloc, state, command)?,
            Err(Denial::DeviceFault) => return failed_outcome(alloc, state, command, left),
            Err(Denial::Core(refusal)) if check(state, command) == Err(*refusal) => {}
            Err(_) => return Ok(Outcome::Other),
        }
    }
    Ok(if is_left(alloc, state, left)? {
        Outcome::Whole
    } else {
        Outcome::Other
    })
}

// Returns the outcome of a round in which the device failed during this command.
fn failed_outcome(
    alloc: Global,
    state: &State,
    command: &Command,
    left: &RoundResult,
) -> io::Result<Outcome> {
    if is_left(alloc, state, left)? {
        return Ok(Outcome::Without);
    }
    if is_left_with(alloc, state, command, left)? {
        return Ok(Outcome::With);
    }
    Ok(Outcome::Other)
}

fn is_left_with(
    alloc: Global,
    state: &State,
    command: &Command,
    left: &RoundResult,
) -> io::Result<bool> {
    let state = applied(alloc, state, command)?;
    let is_left = is_left(alloc, &state, left);
    drop(state);
    is_left
}

// Returns the number of rounds of a list, from 1 to 8.
fn len_of(list: u64) -> u64 {
    u64::from(Random::of_round(list, 63).below(8)).saturating_add(1)
}

/// A store between two rounds.
#[derive(Drop)]
struct Store {
    /// The state of the store, as bytes.
    state: Vec<u8>,
    device: MemDevice,
}

// Executes the rounds of a list one by one, counts their outcomes, and returns the final state.
fn add_list(alloc: Global, list: u64, counts: &mut [u64]) -> io::Result<Vec<u8>> {
    let mut store = begun(alloc)?;
    for place in 0..len_of(list) {
        store = add_round(alloc, store, list, place, counts)?;
    }
    Ok(store.state)
}

fn begun(alloc: Global) -> io::Result<Store> {
    let state = bytes_of(alloc, &State::Empty)?;
    let device = fresh(alloc)?;
    Ok(Store { state, device })
}

fn add_round(
    alloc: Global,
    begun: Store,
    list: u64,
    place: u64,
    counts: &mut [u64],
) -> io::Result<Store> {
    let Store { state, device } = begun;
    let (left, device) = run_round_and_open(alloc, device, list, place)?;
    let outcome = outcome_of(alloc, list, place, &state, &left)?;
    count(counts, outcome.place());
    Ok(Store {
        state: left.state,
        device,
    })
}

// Returns the state after `run_rounds` for all rounds of a list.
fn state_after_run_rounds(alloc: Global, list: u64) -> io::Result<Vec<u8>> {
    let rounds = rounds_of(alloc, list)?;
    let rounds = or_invalid_data(run_rounds(alloc, fresh(alloc)?, rounds))?;
    let bytes = bytes_of(alloc, rounds.session.state());
    drop(rounds);
    bytes
}

fn rounds_of(alloc: Global, list: u64) -> io::Result<Vec<Round>> {
    let mut rounds = Vec::new(alloc);
    for place in 0..len_of(list) {
        rounds.push(round_of(alloc, list, place)?)?;
    }
    Ok(rounds)
}

/// Prints which outcomes the rounds of 200 lists had, and how many lists left the same state in one
/// `run_rounds` as round by round.
pub(crate) fn print_rounds<R: Print>(rt: &R, alloc: Global) -> io::Result<()> {
    println!(rt;
        "{LISTS} lists of up to 8 rounds: whether rounds were met that no stop broke off, that lost the command then, that kept it, others; lists that left the same at once"
    )?;
    print_row(rt, LISTS, &row_of_lists(alloc)?)
}

fn row_of_lists(alloc: Global) -> io::Result<[u64; 5]> {
    let mut counts = [0; 5];
    for list in 0..LISTS {
        if matches_run_rounds(alloc, list, &mut counts)? {
            count(&mut counts, 4);
        }
    }
    let [whole, without, with, other, same] = counts;
    Ok([met(whole), met(without), met(with), met(other), same])
}

// Returns whether the rounds of a list leave the same state in one `run_rounds` as round by round.
fn matches_run_rounds(alloc: Global, list: u64, counts: &mut [u64]) -> io::Result<bool> {
    let one_by_one = add_list(alloc, list, counts)?;
    Ok(one_by_one == state_after_run_rounds(alloc, list)?)
}

// Returns 1 if the outcome occurred, otherwise 0.
fn met(count: u64) -> u64 {
    count.min(1)
}
