//! Opens a device and recovers the state of its store.
//!
//! The clause `opens` of `IsOpened` and of `IsRefused` is exactly the premise of the headline. The clauses
//! `given` and `refused` are stronger: they do not assume that the image recovers to a state, and say which
//! state or which fault is returned. Commands that are not all accepted are reported as a bad field. The clause
//! `replays` holds only for an honest device: the code subtracts numbers of steps and stops at zero, since
//! nothing is known about the records of a dishonest device.
ghost use Rattle.std.specs.Prelude.{IfOk, IfErr, MatchResult};
ghost use Rattle.command_types.specs.States.{IsState};
ghost use Rattle.sector_disk.specs.Sectors.{more};
ghost use Rattle.sector_disk.specs.Calls.{Calls};
ghost use Rattle.state_codec.specs.declared.version.Version.TheVariants.{Two};
ghost use Rattle.checkpoint.specs.Loads.{IsLoaded};
ghost use Rattle.checkpoint.specs.InvalidImages.{HoldsNothing, IsLoadFault, UnlessReadFailed};
ghost use Rattle.checkpoint.specs.Refusals.{faults_after_reading};
ghost use Rattle.recover.specs.RecoversTo.{RecoversTo};
ghost use Rattle.recover.specs.Opening.{Settles, RecoversToNothing, IsStepsToReplay, IsOnlyRead, IsOpened, IsRefused};
ghost use Rattle.recover.specs.Replaying.{IsReplayFault, IsReplay, ReportsState};

use crate::replaying::{replay, steps_of_commands, steps_of_state};
use crate::sessions::Session;
use checkpoint::{Loaded, MIN_SECTORS, Place, StoreFault, images_hold_at_most_one_state, load};
use command_core::State;
use sector_disk::{DeviceFault, Sectors};
use state_codec::version::Version;
use std::alloc::Global;

/// The state to which a device's store recovers.
#[derive(Drop)]
pub(crate) struct RecoveredState {
    pub state: State,
    /// The place at which the journal continues.
    pub place: Place,
    /// The number of replayed search steps.
    pub replayed: u64,
}

// Syncs the device, so that the image that reads return is durable, and loads the content of that image. Only
// the sync counts as a finished call. A device smaller than any store is not called.
fn sync_and_load<D: Sectors>(
    alloc: Global,
    device: &mut D,
    version: Version,
) -> Result<Loaded, StoreFault>
    ensures loaded { IsLoaded D.Sectors version result device.old device.new }
    ensures called { Calls D.Sectors (more result 1) (faults_after_reading result)
        device.old device.new }
    ensures settles { D.honest device.new → Settles D.Sectors result device.old device.new }
{
    if device.len() < MIN_SECTORS {
        return Err(StoreFault::NotFormatted);
    }
    match device.sync() {
        Ok(()) => load(alloc, device, version),
        Err(DeviceFault) => Err(StoreFault::DeviceFault),
    }
}

// Replays the commands of the records on the loaded state.
fn replay_records(alloc: Global, loaded: Loaded) -> Result<RecoveredState, StoreFault>
    requires { IsState loaded.state }
    ensures ok { IfOk result (IsReplay loaded.state loaded.commands.items loaded.place) }
    ensures refused { IfErr result (IsReplayFault loaded.state loaded.commands.items) }
{
    let begun = steps_of_state(&loaded.state);
    let state = replay(alloc, loaded.state, &loaded.commands)?;
    Ok(RecoveredState {
        replayed: steps_of_state(&state).saturating_sub(begun),
        state,
        place: loaded.place,
    })
}

/// Recovers the state of the store on the device, which has this version: loads the store and replays the
/// commands of its records.
pub(crate) fn recover<D: Sectors>(
    alloc: Global,
    device: &mut D,
    version: Version,
) -> Result<RecoveredState, StoreFault>
    ensures recovered { ReportsState D.Sectors version result device.old device.new }
    ensures called { Calls D.Sectors (more result 1) (faults_after_reading result)
        device.old device.new }
    ensures settles { D.honest device.new → Settles D.Sectors result device.old device.new }
{
    let loaded = sync_and_load(alloc, device, version)?;
    let found = replay_records(alloc, loaded)?;
    Ok(found)
}

/// Recovers the state of the device's store by reading only. Nothing is synced, so this works on a device that
/// can't be written. The bytes that reads return may not be durable yet.
///
/// Returns a fault only if the image recovers to no state, if memory runs out or if the device fails.
pub fn read_state<D: Sectors>(alloc: Global, device: &mut D) -> Result<State, StoreFault>
    ensures given { D.honest device.new → MatchResult result (RecoversTo Two (D.seen device.old))
        (UnlessReadFailed (RecoversToNothing Two (D.seen device.old))) }
    ensures facts { IfOk result IsState }
    ensures fails { IfErr result IsLoadFault }
    ensures reads { IsOnlyRead D.Sectors result device.old device.new }
{
    let loaded = load(alloc, device, Version::Two)?;
    let found = replay_records(alloc, loaded)?;
    Ok(found.state)
}

/// Returns the number of search steps that opening this device will replay: those of the searches among the
/// records. It only reads, so the number can be printed before the first step runs.
pub fn steps_to_replay<D: Sectors>(alloc: Global, device: &mut D) -> Result<u64, StoreFault>
    ensures found { D.honest device.new
        → MatchResult result (IsStepsToReplay Two (D.seen device.old))
        (UnlessReadFailed (HoldsNothing Two (D.seen device.old))) }
    ensures fails { IfErr result IsLoadFault }
    ensures reads { IsOnlyRead D.Sectors result device.old device.new }
{
    images_hold_at_most_one_state();
    let loaded = load(alloc, device, Version::Two)?;
    Ok(steps_of_commands(&loaded.commands))
}

/// An opened store.
#[derive(Drop)]
pub struct Opened<D: Sectors> {
    pub session: Session<D>,
    /// The number of replayed search steps.
    pub replayed: u64,
}

impl<D: Sectors> Session<D> {
    /// Opens the store on a device: syncs, then only reads, and replays the commands of the records.
    ///
    /// The image that reads return recovers to the session's state. Opening is refused only if that image
    /// recovers to no state, if memory runs out or if the device fails. A refusal returns the device: unless
    /// the device failed, reads then return the same, so another opening returns what this one would have
    /// returned without the refusal. At each moment within the call a crash leaves an image that it might have
    /// left before, and after `Ok` one that recovers to the state. A device of fewer than 802 sectors is
    /// `NotFormatted`, and is not called.
    pub fn open(alloc: Global, device: D) -> Result<Opened<D>, (StoreFault, D)>
        ensures { MatchResult result
            (λ opened. IsOpened D.Sectors device opened.session opened.replayed)
            (λ refused. IsRefused D.Sectors device refused.1 refused.0) }
    {
        images_hold_at_most_one_state();
        let mut device = device;
        match recover(alloc, &mut device, Version::Two) {
            Ok(found) => Ok(Opened {
                session: Session::over(device, found.state, found.place),
                replayed: found.replayed,
            }),
            Err(fault) => Err((fault, device)),
        }
    }
}
