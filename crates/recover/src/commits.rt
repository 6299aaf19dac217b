//! Commits a command: as a record, or by a snapshot of the resulting state.
ghost use Rattle.std.specs.Prelude.{◌≡◌, ◌+◌, ◌<◌, ◌≤◌, ◌^◌, ℕ, List, [], ◌∷◌, true, None, OnOk, IfOk, IfErr};
ghost use Rattle.command_core.specs.Effects.{effect};
ghost use Rattle.command_types.specs.Commands.{is_recorded, fits_record};
ghost use Rattle.command_core.specs.Runs.{AreAccepted};
ghost use Rattle.command_types.specs.declared.states.State.{State};
ghost use Rattle.sector_disk.specs.Sectors.{more};
ghost use Rattle.sector_disk.specs.Calls.{Calls};
ghost use Rattle.checkpoint.specs.Changes.{IsUnspent, HasRecordRoom};
ghost use Rattle.checkpoint.specs.Places.{place_after_record, place_after_snapshot};
ghost use Rattle.state_codec.specs.Limits.{IsRecorded};
ghost use Rattle.state_codec.specs.declared.version.Version.TheVariants.{Two};
ghost use Rattle.recover.specs.Applying.{is_snapshot_due, calls_of, place_after, spent_denial};
ghost use Rattle.recover.specs.Committing.{IsCommitFault, CanCommit, CommitsStateFrom, LeavesDevice, cause, faults_after_commit};

use checkpoint::{Place, RECORDS, StoreFault, commit_record, commit_snapshot};
use command_core::{Command, State};
use sector_disk::Sectors;
use state_codec::recorded_fields_have_room;
use std::alloc::Global;

/// The reason why a command was not committed, though the store had a place for it.
#[derive(Clone, Copy)]
pub(crate) enum CommitFault {
    OutOfMemory,
    DeviceFault,
}

// Returns the reason why a commit failed, from the store's fault. Only two faults can occur here. The others
// come from reading, or from a store without a place for the command.
fn cause(fault: StoreFault) -> CommitFault
    requires { IsCommitFault fault }
    ensures { result ≡ cause fault }
{
    match fault {
        StoreFault::DeviceFault => CommitFault::DeviceFault,
        StoreFault::OutOfMemory => CommitFault::OutOfMemory,
        StoreFault::NotFormatted
        | StoreFault::BadVersion
        | StoreFault::Codec(_)
        | StoreFault::Spent => unreachable!(),
    }
}

/// Returns whether a snapshot is due: the command has no record, or the journal already has 256 records.
pub(crate) fn is_snapshot_due(place: Place, command: &Command) -> bool
    ensures { result ≡ is_snapshot_due place command.now }
{
    !command.is_recorded() || place.used == RECORDS
}

// Commits a command as a record.
fn commit_as_record<D: Sectors>(
    device: &mut D,
    place: Place,
    command: &Command,
) -> Result<Place, CommitFault>
    requires { HasRecordRoom (D.len device.old) place command.now }

    ensures left { IfErr result (λ fault. LeavesDevice fault device.old device.new) }
    ensures place { IfOk result (λ next. next ≡ place_after_record place) }
    ensures called { Calls D.Sectors (more result 2) (faults_after_commit result)
        device.old device.new }
    ensures leads { (state : State) → AreAccepted state (command.now ∷ [])
        → CommitsStateFrom D.Sectors result 2 state (effect state command.now)
        place (place_after_record place) device.old device.new }
{
    match commit_record(device, place, command) {
        Ok(next) => Ok(next),
        Err(fault) => Err(cause(fault)),
    }
}

// Commits a state by a snapshot. The caller guarantees that a sequence is left for it.
fn commit_as_snapshot<D: Sectors>(
    alloc: Global,
    device: &mut D,
    place: Place,
    next: &State,
) -> Result<Place, CommitFault>
    requires { IsUnspent (D.len device.old) place }

    ensures left { IfErr result (λ fault. LeavesDevice fault device.old device.new) }
    ensures place { IfOk result (λ next. next ≡ place_after_snapshot place) }
    ensures called { Calls D.Sectors (more result 4) (faults_after_commit result)
        device.old device.new }
    ensures leads { (state : State) → CommitsStateFrom D.Sectors result 4 state next.now
        place (place_after_snapshot place) device.old device.new }
{
    match commit_snapshot(alloc, device, place, next) {
        Ok(place) => Ok(place),
        Err(fault) => Err(cause(fault)),
    }
}

/// Commits a command that leads to the state `next`: by a record with two calls, or by a snapshot with four.
pub(crate) fn commit<D: Sectors>(
    alloc: Global,
    device: &mut D,
    place: Place,
    command: &Command,
    next: &State,
) -> Result<Place, CommitFault>
    requires { CanCommit (D.len device.old) place command.now }

    ensures left { IfErr result (λ fault. LeavesDevice fault device.old device.new) }
    ensures place { IfOk result (λ next. next ≡ place_after place command.now) }
    ensures called { Calls D.Sectors (more result (calls_of place command.now))
        (faults_after_commit result) device.old device.new }
    ensures leads { (state : State) → AreAccepted state (command.now ∷ [])
        → next.now ≡ effect state command.now
        → CommitsStateFrom D.Sectors result (calls_of place command.now) state next.now
        place (place_after place command.now) device.old device.new }
{
    recorded_fields_have_room(command);
    if command.is_recorded() && place.used < RECORDS {
        return commit_as_record(device, place, command);
    }
    commit_as_snapshot(alloc, device, place, next)
}
