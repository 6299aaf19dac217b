//! Replays the commands of a store's records.
ghost use Rattle.std.specs.Prelude.{◌≡◌, ◌⊎◌, ◌-◌, ◌<◌, ◌^◌, sum_by, Some, None, IfOk, IfErr};
ghost use Rattle.command_types.specs.Commands.{steps_of};
ghost use Rattle.command_core.specs.Runs.{AreAccepted, after};
ghost use Rattle.command_types.specs.States.{IsState};
ghost use Rattle.recover.specs.Opening.{steps_of_state};
ghost use Rattle.recover.specs.Replaying.{fault_of, IsReplayFault};

use checkpoint::StoreFault;
use command_core::{Command, Planner, Refusal, State};
use state_codec::CodecFault;
use std::alloc::Global;

// Returns the store's fault for a record whose command is refused.
fn fault_of(refusal: Refusal) -> StoreFault
    ensures { result ≡ fault_of refusal }
{
    match refusal {
        Refusal::OutOfMemory => StoreFault::OutOfMemory,
        _ => StoreFault::Codec(CodecFault::BadField),
    }
}

/// Returns the number of search steps that a state has made.
pub(crate) fn steps_of_state(state: &State) -> u64
    ensures { result ≡ steps_of_state state.now }
{
    match state {
        State::Empty => 0,
        State::Loaded(job) => job.steps,
    }
}

/// Returns the total number of steps of these commands, if it fits into a `u64`.
pub(crate) fn steps_of_commands(commands: &[Command]) -> u64
    ensures { sum_by steps_of commands.now < 2 ^ 64 → result ≡ sum_by steps_of commands.now }
{
    let mut steps = 0u64;
    for command in commands {
        steps = steps.saturating_add(command.steps());
    }
    steps
}

/// Returns the state after these commands.
pub(crate) fn replay(
    alloc: Global,
    snapshot: State,
    commands: &[Command],
) -> Result<State, StoreFault>
    requires { IsState snapshot }
    ensures accepted { IfOk result (λ state. AreAccepted snapshot commands.now) }
    ensures leads { IfOk result (λ state. after snapshot commands.now ≡ state) }
    ensures facts { IfOk result IsState }
    ensures refused { IfErr result (IsReplayFault snapshot commands.now) }
{
    let mut planner = Planner::new(snapshot);
    for command in commands {
        match planner.change(alloc, command) {
            Ok(before) => drop(before),
            Err(refusal) => return Err(fault_of(refusal)),
        }
    }
    Ok(planner.into_state())
}
