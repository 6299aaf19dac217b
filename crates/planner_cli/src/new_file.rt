//! Opens a store in a file that is made for it.
//!
//! The new file is opened before it is formatted, since another process may have made a store in it meanwhile.
//! It is formatted only if it holds no store.
ghost use Rattle.std.specs.Prelude.{◌≡◌, ◌∷◌, List, ℕ};
ghost use Rattle.file_disk.specs.DeviceFiles.{IsCreatedAt};
ghost use Rattle.planner_cli.specs.Opening.{HoldsNoStore, IsNewFile, IsNewOpening};

use crate::opening::{OpenFailure, open_device, open_session};
use crate::stores::format_device;
use checkpoint::{SECTORS, StoreFault};
use file_disk::{DeviceFiles, FileAssumptions, FileCalls, FileDevice, FileRequest, HostFile};
use recover::Opened;
use sector_disk::Sectors;
use std::alloc::Global;
use std::io::Write;

/// Makes the file and opens the store in it. Formats the file if it holds no store.
pub(crate) fn open_new<R: AllocGlobal, X: DeviceFiles, T: FileAssumptions, E: Write>(
    rt: &R,
    disks: &mut X,
    start: T,
    store: &str,
    errors: &mut E,
) -> Result<Opened<FileDevice<T>>, OpenFailure<FileDevice<T>>>
    ensures requests { X.requested disks.new ≡ (FileRequest.Create, store.now) ∷ X.requested disks.old }
    ensures opens { IsNewOpening ⟦<FileDevice<T> as Sectors>⟧
        (IsCreatedAt ⟦<HostFile as FileCalls>⟧.entries) store.now result }
{
    match disks.create(store, SECTORS, start) {
        Ok(device) => open_in_new_file(rt.alloc(), device, errors),
        Err(refusal) => Err(OpenFailure::File(refusal)),
    }
}

// Opens the store on the device over a file that was just made, or formats the device if it holds no store.
fn open_in_new_file<T: FileAssumptions, E: Write>(
    alloc: Global,
    device: FileDevice<T>,
    errors: &mut E,
) -> Result<Opened<FileDevice<T>>, OpenFailure<FileDevice<T>>>
    ensures { (path : List ℕ)
        → IsNewFile ⟦<FileDevice<T> as Sectors>⟧
        (IsCreatedAt ⟦<HostFile as FileCalls>⟧.entries path) device
        → IsNewOpening ⟦<FileDevice<T> as Sectors>⟧
        (IsCreatedAt ⟦<HostFile as FileCalls>⟧.entries) path result }
{
    let opening = open_session(alloc, device, errors);
    match opening.into_opened() {
        Ok(opened) => Ok(opened),
        Err((StoreFault::NotFormatted, device)) => format_and_open(alloc, device, errors),
        Err((fault, device)) => Err(OpenFailure::Store(fault, device)),
    }
}

// Makes an empty store on the device and opens it.
fn format_and_open<T: FileAssumptions, E: Write>(
    alloc: Global,
    device: FileDevice<T>,
    errors: &mut E,
) -> Result<Opened<FileDevice<T>>, OpenFailure<FileDevice<T>>>
    ensures { (path : List ℕ)
        → HoldsNoStore ⟦<FileDevice<T> as Sectors>⟧
        (IsCreatedAt ⟦<HostFile as FileCalls>⟧.entries path) device
        → IsNewOpening ⟦<FileDevice<T> as Sectors>⟧
        (IsCreatedAt ⟦<HostFile as FileCalls>⟧.entries) path result }
{
    let mut device = device;
    match format_device(alloc, &mut device) {
        Ok(_) => open_device(alloc, device, errors),
        Err(fault) => Err(OpenFailure::FormatFailed(fault, device)),
    }
}
