//! A store that is opened for reading only.
//!
//! Nothing is synced, so this also works for a store that can't be written, and other processes can read it
//! meanwhile. If a sync has failed before, what is printed may not be durable.
ghost use Rattle.std.specs.Prelude.{◌≡◌, ◌≤◌, ◌∷◌, IfErr, IfOk};
ghost use Rattle.file_disk.specs.DeviceFiles.{IsOpenedReadOnlyAt};
ghost use Rattle.planner_cli.specs.ReadOnly.{IsReadOnlyOpening, LoadsState};
ghost use Rattle.planner_cli.specs.Opening.{MayAnnounceReplay, open_failure_line, open_failure_status};
ghost use Rattle.planner_cli.specs.Messages.{PrintsText};

use crate::messages::{print_repeating, report_cause};
use crate::opening::{OpenFailure, print_open_failure};
use checkpoint::StoreFault;
use command_core::State;
use file_disk::{DeviceFiles, FileAssumptions, FileCalls, FileDevice, FileRequest, HostFile};
use recover::{read_state, steps_to_replay};
use sector_disk::Sectors;
use std::alloc::Global;
use std::io;
use std::io::Write;

/// The state of a store, and the device from which it was read.
#[derive(Drop)]
pub(crate) struct ReadOnlyStore<D: Sectors> {
    pub state: State,
    pub device: D,
}

// Returns the state of the store on the device. Before replaying search steps, prints their number on `errors`;
// a failed write is ignored.
fn load_state<D: Sectors, E: Write>(
    alloc: Global,
    device: &mut D,
    errors: &mut E,
) -> Result<State, StoreFault>
    ensures { LoadsState D.Sectors device.old result device.new }
{
    let steps = steps_to_replay(alloc, device)?;
    let _ = print_repeating(steps, errors);
    read_state(alloc, device)
}

/// Opens the store in the file for reading only, and reads its state.
pub(crate) fn open_read_only<R: AllocGlobal, X: DeviceFiles, T: FileAssumptions, E: Write>(
    rt: &R,
    disks: &mut X,
    start: T,
    store: &str,
    errors: &mut E,
) -> Result<ReadOnlyStore<FileDevice<T>>, OpenFailure<FileDevice<T>>>
    ensures requests { X.requested disks.new ≡ (FileRequest.OpenReadOnly, store.now) ∷ X.requested disks.old }
    ensures looks { IsReadOnlyOpening ⟦<FileDevice<T> as Sectors>⟧
        (IsOpenedReadOnlyAt ⟦<HostFile as FileCalls>⟧.entries) store.now result }
    ensures announced { IfErr result (λ unopened. MayAnnounceReplay unopened
        (E.contents errors.old) (E.contents errors.new)) }
{
    let mut device = match disks.open_read_only(store, start) {
        Ok(device) => device,
        Err(refusal) => return Err(OpenFailure::File(refusal)),
    };
    match load_state(rt.alloc(), &mut device, errors) {
        Ok(state) => Ok(ReadOnlyStore { state, device }),
        Err(fault) => Err(OpenFailure::Store(fault, device)),
    }
}

/// Closes the store. If its device has failed, prints the system's error on standard error.
pub(crate) fn close_read_only<R: Eprint, T: FileAssumptions>(
    rt: &R,
    store: &str,
    looked: ReadOnlyStore<FileDevice<T>>,
) {
    report_cause(rt, store, looked.device.cause());
    drop(looked);
}

/// Prints why the store was not read, as `print_open_failure` does. The file was opened for reading only, so its
/// device is dropped.
pub(crate) fn print_read_only_failure<R: Eprint, T: FileAssumptions, W: Write>(
    rt: &R,
    output: &mut W,
    store: &str,
    unopened: OpenFailure<FileDevice<T>>,
) -> io::Result<u8>
    ensures status { IfOk result (λ status. status ≤ 4) }
    ensures reported { PrintsText (open_failure_line store.now unopened) (open_failure_status unopened)
        (W.contents output.old) (W.contents output.new) result }
{
    let (reported, device) = print_open_failure(rt, output, store, unopened);
    drop(device);
    reported
}
