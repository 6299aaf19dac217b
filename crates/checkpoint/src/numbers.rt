//! The numbers of the stops that a journal adds. For version 1 they are checked without executing a command:
//! they follow from the snapshot's next number and the number of stops that each record adds.
ghost use Rattle.std.specs.Prelude.{◌≡◌, ◌≤◌, ◌+◌, ◌*◌, ◌↔◌, length, IsTrue};
ghost use Rattle.state_codec.specs.declared.version.Version.TheVariants.{Two};
ghost use Rattle.state_codec.specs.Limits.{most};
ghost use Rattle.checkpoint.specs.Layouts.{journal_room};
ghost use Rattle.checkpoint.specs.Numbers.{added_stops, next_number_of, HaveValidNumbers};

use command_types::{Command, State};
use state_codec::version::{MAX_STOP_NUMBER_V1, Version};

// Returns the number of stops that the commands of a journal add.
fn added_stops(commands: &[Command]) -> u32
    requires { length commands.now ≤ journal_room }
    ensures added { result ≡ added_stops commands.now }
    ensures few { result ≤ 2 * journal_room }
{
    let mut added = 0;
    for command in commands {
        added += command.stops_added();
    }
    added
}

// Returns the number that the next added stop of a state gets.
fn next_number_of(state: &State) -> u32
    ensures next { result ≡ next_number_of state.now }
    ensures low { result ≤ most Two + 1 }
{
    match state {
        State::Empty => 1,
        State::Loaded(job) => job.problem.next_number,
    }
}

/// Returns whether the version allows the numbers of all stops that the commands of a journal add to a state.
pub(crate) fn have_valid_numbers(version: Version, state: &State, commands: &[Command]) -> bool
    requires { length commands.now ≤ journal_room }
    ensures { IsTrue result ↔ HaveValidNumbers version state.now commands.now }
{
    match version {
        Version::One => next_number_of(state) + added_stops(commands) <= MAX_STOP_NUMBER_V1 + 1,
        Version::Two => true,
    }
}
