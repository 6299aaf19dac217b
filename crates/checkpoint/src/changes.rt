//! Commits of records and of snapshots.
//!
//! During the write of a header, the number of finished calls does not show whether the write has begun. So
//! once two calls of a snapshot's commit have finished, an image may hold the old content or the new one.
//! `Spent` is reported before memory is allocated.
ghost use Rattle.std.specs.Prelude.{◌≡◌, ◌+◌, ◌*◌, ◌%◌, ◌<◌, ◌≤◌, ◌^◌, ℕ, List, [], ◌∷◌, ◌++◌, length, take, ◌↔◌, OnOk, IfOk, IfErr, IsErrOf, MatchResult};
ghost use Rattle.command_types.specs.States.{IsState};
ghost use Rattle.command_types.specs.declared.states.State.{State};
ghost use Rattle.command_types.specs.declared.commands.Command.{Command};
ghost use Rattle.sector_disk.specs.Sectors.{Only, more, faults_after};
ghost use Rattle.sector_disk.specs.Calls.{Calls, CommitsFrom};
ghost use Rattle.state_codec.specs.declared.version.Version.TheVariants.{Two};
ghost use Rattle.state_codec.specs.Limits.{IsRecorded};
ghost use Rattle.state_codec.specs.Bytes.{state_bytes};
ghost use Rattle.checkpoint.specs.Changes.{IsStorePlace, IsUnspent, HasRecordRoom, ChangesStore};
ghost use Rattle.checkpoint.specs.Encoding.{IsSnapshot};
ghost use Rattle.checkpoint.specs.Holds.{HoldsAt};
ghost use Rattle.checkpoint.specs.Refusals.{IsRefusedCommit, faults_after_reading};
ghost use Rattle.checkpoint.specs.Layouts.{version_2, journal_room, last_sequence, sectors_in};
ghost use Rattle.checkpoint.specs.Places.{place_after_record, place_after_snapshot};
ghost use Rattle.checkpoint.specs.WrittenImages.{to_whole_sectors, with_record, with_state};

use crate::durable_writes::{advance, extend};
use crate::encoding::snapshot_of;
use crate::faults::StoreFault;
use crate::headers::Header;
use crate::layouts::LAST_SEQUENCE;
use crate::places::Place;
use command_types::{Command, State};
use sector_disk::{DeviceFault, Sectors};
use state_codec::encode_record;
use std::alloc::Global;

/// Commits a command as one more record, with two device calls and without allocating. The caller guarantees
/// that the store on the device is at this place, that the journal has room, and that the command has a record.
///
/// If each image of the device held a state and commands at this place, each holds them at every moment of the
/// call, with or without this command appended. After `Ok` each image holds them with the command, at the
/// returned place. It is then the image that reads returned before, except for the sector of the record.
pub fn commit_record<D: Sectors>(
    device: &mut D,
    place: Place,
    command: &Command,
) -> Result<Place, StoreFault>
    requires { HasRecordRoom (D.len device.old) place command.now }

    ensures fails { IfErr result (λ fault. fault ≡ StoreFault.DeviceFault) }
    ensures place { IfOk result (λ next. next ≡ place_after_record place) }
    ensures called { Calls D.Sectors (more result 2) (faults_after result) device.old device.new }
    ensures changes { ChangesStore D.Sectors result 2 0 place
        (λ state commands. HoldsAt state (commands ++ command.now ∷ []) (place_after_record place))
        (with_record place command.now (D.seen device.old)) device.old device.new }
{
    let bytes = encode_record(place.sequence, place.used, command);
    match extend(device, place.used, &bytes) {
        Ok(()) => Ok(Place {
            sequence: place.sequence,
            used: place.used + 1,
        }),
        Err(DeviceFault) => Err(StoreFault::DeviceFault),
    }
}

// Commits the snapshot of a state under the next sequence. `bytes` is the snapshot, padded to whole sectors.
fn save<D: Sectors>(
    device: &mut D,
    place: Place,
    state: &State,
    size: u64,
    bytes: &[u8],
) -> Result<Place, StoreFault>
    requires snapshot { IsSnapshot state.now size bytes.now }
    requires unspent { IsUnspent (D.len device.old) place }

    ensures answer { MatchResult result (λ next. next ≡ place_after_snapshot place)
        (λ fault. fault ≡ StoreFault.DeviceFault) }
    ensures called { Calls D.Sectors (more result 4) (faults_after result) device.old device.new }
    ensures changes { ChangesStore D.Sectors result 4 2 place
        (λ _ _. HoldsAt state.now [] (place_after_snapshot place))
        (with_state (place.sequence + 1) state.now (D.seen device.old)) device.old device.new }
{
    let sequence = place.sequence + 1;
    match advance(
        device,
        Header {
            sequence,
            length: size,
        },
        bytes,
    ) {
        Ok(()) => Ok(Place { sequence, used: 0 }),
        Err(DeviceFault) => Err(StoreFault::DeviceFault),
    }
}

/// Commits a state as a snapshot under the next sequence, with an empty journal: writes the snapshot into the
/// other half, syncs, writes its header, syncs. The caller guarantees that the store on the device is at this
/// place. Returns `Spent` if the sequence is 2^60. `Spent` and `OutOfMemory` are reported before the device is
/// called.
///
/// If each image of the device held a state and commands at this place, each holds either these or only the new
/// state at every moment of the call. It holds the old content until two calls have finished and the write of
/// the header begins. After `Ok` it holds only the new state, at the returned place. It is then the image that
/// reads returned before, except for the sectors of the padded snapshot and of the header.
pub fn commit_snapshot<D: Sectors>(
    alloc: Global,
    device: &mut D,
    place: Place,
    state: &State,
) -> Result<Place, StoreFault>
    requires { IsStorePlace (D.len device.old) place }

    ensures answer { MatchResult result (λ next. next ≡ place_after_snapshot place)
        (λ fault. IsRefusedCommit fault device.old device.new) }
    ensures spent { IsErrOf result StoreFault.Spent ↔ (place.sequence ≡ last_sequence) }
    ensures called { Calls D.Sectors (more result 4) (faults_after_reading result)
        device.old device.new }
    ensures changes { ChangesStore D.Sectors result 4 2 place
        (λ _ _. HoldsAt state.now [] (place_after_snapshot place))
        (with_state (place.sequence + 1) state.now (D.seen device.old)) device.old device.new }
{
    if LAST_SEQUENCE <= place.sequence {
        return Err(StoreFault::Spent);
    }
    match snapshot_of(alloc, state) {
        Ok(snapshot) => save(device, place, state, snapshot.size, &snapshot.bytes),
        Err(_) => Err(StoreFault::OutOfMemory),
    }
}
