//! The commands of the tests, and the states that they lead to.

use command_core::{Command, Spot, State, apply};
use instance_read::{read_lilim, read_vrp};
use state_codec::encode_state;
use std::alloc::Global;
use std::io;
use test_examples::THREE_CUSTOMERS;

/// One customer with demand 6, and one vehicle.
const ONE: &[u8] = b"NAME : t1
TYPE : CVRP
DIMENSION : 2
EDGE_WEIGHT_TYPE : EUC_2D
CAPACITY : 10
NODE_COORD_SECTION
1 0 0
2 3 4
DEMAND_SECTION
1 0
2 6
DEPOT_SECTION
1
-1
EOF
";

/// A list of commands.
#[derive(Clone, Copy)]
pub(crate) enum Example {
    /// A load, a build, a search, one more customer, and a checkpoint: 14 calls of the device.
    Five,
    /// A load whose snapshot takes three sectors.
    WideLoad,
    /// A load whose snapshot takes three sectors, over a store with another load.
    SecondLoad,
    /// The commands that lead to the state of the old store in the tests of upgrades.
    Old,
}

impl Example {
    fn steps(self) -> &'static [Step] {
        match self {
            Example::Five => FIVE,
            Example::WideLoad => WIDE_LOAD,
            Example::SecondLoad => SECOND_LOAD,
            Example::Old => OLD,
        }
    }
}

/// One command of an example.
#[derive(Clone, Copy)]
enum Step {
    LoadOne,
    LoadPairs,
    Build,
    Search(u16),
    Add,
    Checkpoint,
}

const FIVE: &[Step] = &[
    Step::LoadOne,
    Step::Build,
    Step::Search(3),
    Step::Add,
    Step::Checkpoint,
];

const WIDE_LOAD: &[Step] = &[Step::LoadPairs];

const SECOND_LOAD: &[Step] = &[Step::LoadOne, Step::LoadPairs];

const OLD: &[Step] = &[Step::LoadOne, Step::Build, Step::Search(256)];

/// Returns the error for anything that should not happen, for example a store that can't be created or opened.
pub(crate) fn invalid_data() -> io::Error {
    io::ErrorKind::InvalidData.into()
}

/// Returns the value of a result, or replaces its fault by the error of `invalid_data`.
pub(crate) fn or_invalid_data<T: Drop, F: Drop>(outcome: Result<T, F>) -> io::Result<T> {
    match outcome {
        Ok(value) => Ok(value),
        Err(_) => Err(invalid_data()),
    }
}

/// Returns the commands of an example.
pub(crate) fn commands_of(alloc: Global, example: Example) -> io::Result<Vec<Command>> {
    let mut commands = Vec::new(alloc);
    for step in example.steps() {
        commands.push(command_of(alloc, *step)?)?;
    }
    Ok(commands)
}

fn command_of(alloc: Global, step: Step) -> io::Result<Command> {
    match step {
        Step::LoadOne => load_one(alloc),
        Step::LoadPairs => load_pairs(alloc),
        Step::Build => Ok(Command::Build),
        Step::Search(count) => Ok(Command::Search(count)),
        Step::Add => Ok(added()),
        Step::Checkpoint => Ok(Command::Checkpoint),
    }
}

// Returns a command that adds one customer.
fn added() -> Command {
    let spot = Spot {
        x: 1,
        y: 1,
        earliest: 0,
        latest: 9,
        service: 0,
    };
    Command::Add1 { demand: 1, spot }
}

/// Returns the command that loads one customer. The least distance of a plan is 10.
pub(crate) fn load_one(alloc: Global) -> io::Result<Command> {
    load_vrp(alloc, ONE)
}

/// Returns the command that loads three customers. The least distance of a plan is 30.
pub(crate) fn load_three(alloc: Global) -> io::Result<Command> {
    load_vrp(alloc, THREE_CUSTOMERS)
}

fn load_vrp(alloc: Global, text: &[u8]) -> io::Result<Command> {
    Ok(Command::Load(or_invalid_data(read_vrp(alloc, text))?, 0))
}

// Returns the command that loads 20 pairs for two vehicles. Its state has 54 + 20 * 57 + 2 * 8 + 2 * 4 = 1,218
// bytes, so three sectors.
fn load_pairs(alloc: Global) -> io::Result<Command> {
    let text = text_of_pairs(alloc)?;
    Ok(Command::Load(or_invalid_data(read_lilim(alloc, &text))?, 0))
}

fn text_of_pairs(alloc: Global) -> io::Result<Vec<u8>> {
    let mut text = b"2 10 1\n0 0 0 0 0 1000 0 0 0\n".to_vec(alloc)?;
    for name in 0..20u32 {
        let (pickup, delivery) = (2 * name + 1, 2 * name + 2);
        let tasks = format!(in alloc;
            "{pickup} {pickup} 0 1 0 1000 0 0 {delivery}\n{delivery} {delivery} 0 -1 0 1000 0 {pickup} 0\n"
        )?;
        text.extend_from_slice(tasks.as_bytes())?;
    }
    Ok(text)
}

/// Returns the states before the first command of an example and after each command, as bytes.
pub(crate) fn states_of(alloc: Global, example: Example) -> io::Result<Vec<Vec<u8>>> {
    let mut states = Vec::new(alloc);
    add_states(alloc, &commands_of(alloc, example)?, &mut states)?;
    Ok(states)
}

fn add_states(alloc: Global, commands: &[Command], states: &mut Vec<Vec<u8>>) -> io::Result<()> {
    let mut state = State::Empty;
    note_each(alloc, &mut state, commands, states)
}

fn note_each(
    alloc: Global,
    state: &mut State,
    commands: &[Command],
    states: &mut Vec<Vec<u8>>,
) -> io::Result<()> {
    note(alloc, state, states)?;
    for command in commands {
        advance(alloc, state, command)?;
        note(alloc, state, states)?;
    }
    Ok(())
}

fn note(alloc: Global, state: &State, states: &mut Vec<Vec<u8>>) -> io::Result<()> {
    Ok(states.push(encode_state(alloc, state)?)?)
}

/// Replaces the state by the one after a command that is accepted.
pub(crate) fn advance(alloc: Global, state: &mut State, command: &Command) -> io::Result<()> {
    *state = applied(alloc, state, command)?;
    Ok(())
}

/// Encodes the state as bytes.
pub(crate) fn bytes_of(alloc: Global, state: &State) -> io::Result<Vec<u8>> {
    Ok(encode_state(alloc, state)?)
}

/// Returns the state after a command that is accepted.
pub(crate) fn applied(alloc: Global, state: &State, command: &Command) -> io::Result<State> {
    or_invalid_data(apply(alloc, state, command))
}
