//! Creates a store: writes zeros over the headers and records, then a snapshot, then its header. A sync follows
//! each write.
ghost use Rattle.command_types.specs.declared.states.State.TheVariants.{Empty};
ghost use Rattle.checkpoint.specs.Holds.{HoldsAt};
ghost use Rattle.std.specs.Prelude.{◌≡◌, ◌+◌, ◌*◌, ◌%◌, ◌<◌, ◌≤◌, ℕ, List, [], length, take, OnOk};
ghost use Rattle.sector_disk.specs.Sectors.{Only, more, faults_after};
ghost use Rattle.sector_disk.specs.Calls.{Calls, During};
ghost use Rattle.checkpoint.specs.Layouts.{version_2};
ghost use Rattle.checkpoint.specs.Places.{first_place};
ghost use Rattle.checkpoint.specs.Formatting.{FormatsStore};
ghost use Rattle.checkpoint.specs.Stores.{HasStored, IsUnformatted};
ghost use Rattle.checkpoint.specs.Moments.{IsInFormat};
ghost use Rattle.checkpoint.specs.DurableWrites.{IsSaved, IsSnapshotFor, IsZeros};
ghost use Rattle.checkpoint.specs.WrittenImages.{with_zeros, first_header, with_both, with_state};

use crate::durable_writes::{write_and_sync, write_snapshot};
use crate::encoding::snapshot_of;
use crate::faults::FormatFault;
use crate::headers::Header;
use crate::layouts::{PREFIX_BYTES, SECTORS};
use crate::places::Place;
use crate::zeros::zeros;
use command_types::State;
use sector_disk::{DeviceFault, SECTOR_SIZE, Sectors};
use std::alloc::Global;

// Writes zeros over the headers and the records, then the first snapshot with its header, with six calls.
// `bytes` is the snapshot, padded to whole sectors.
fn write_store<D: Sectors>(
    device: &mut D,
    zeros: &[u8],
    size: u64,
    bytes: &[u8],
) -> Result<(), DeviceFault>
    requires zeros { IsZeros PREFIX_BYTES zeros.now }
    requires snapshot { IsSnapshotFor (D.len device.old) (first_header size) bytes.now }

    ensures called { Calls D.Sectors (more result 6) (faults_after result) device.old device.new }
    ensures moments { D.honest device.new
        → During D.Sectors device.old device.new
        (IsInFormat (IsUnformatted version_2) (HasStored 1 (take size bytes.now) [])) }
    ensures durable { D.honest device.new
        → OnOk result (Only (with_both (first_header size) bytes.now (with_zeros (D.seen device.old)))
        (D.possible device.new)) }
{
    write_and_sync(device, 0, zeros)?;
    write_snapshot(
        device,
        Header {
            sequence: 1,
            length: size,
        },
        bytes,
    )
}

/// Creates a store whose snapshot is the first `size` of these bytes.
pub(crate) fn make_store<D: Sectors>(
    alloc: Global,
    device: &mut D,
    size: u64,
    bytes: &[u8],
) -> Result<Place, FormatFault>
    requires { IsSaved size bytes.now }
    ensures { FormatsStore D.Sectors (HasStored 1 (take size bytes.now) [])
        (with_both (first_header size) bytes.now (with_zeros (D.seen device.old)))
        result device.old device.new }
{
    if device.len() < SECTORS {
        return Err(FormatFault::TooSmall);
    }
    let zeros = zeros(alloc, PREFIX_BYTES)?;
    match write_store(device, &zeros, size, bytes) {
        Ok(()) => Ok(Place {
            sequence: 1,
            used: 0,
        }),
        Err(DeviceFault) => Err(FormatFault::DeviceFault),
    }
}

/// Creates a store of the empty state: writes zeros over the headers and the records, then the snapshot, then
/// its header. A sync follows each write, so this takes six device calls. The device may be larger than the
/// store.
///
/// After two or three finished calls each image is `NotFormatted`. After four or five it is `NotFormatted` or
/// holds the empty state without commands. After `Ok` each image holds the empty state: it is then the image
/// that reads returned before, with zeros in sectors 0 to 257, except for the sectors of the snapshot and of
/// the header.
///
/// Returns `TooSmall` if the device has fewer than 8,450 sectors. `TooSmall` and `OutOfMemory` are reported
/// before the device is called. After `DeviceFault` there may be no store, or the new one. If fewer than two
/// calls had finished, nothing is known about the content.
pub fn format<D: Sectors>(alloc: Global, device: &mut D) -> Result<Place, FormatFault>
    ensures { FormatsStore D.Sectors (HoldsAt Empty [] first_place)
        (with_state 1 Empty (with_zeros (D.seen device.old))) result device.old device.new }
{
    make_store(alloc, device, 1, &[0; SECTOR_SIZE])
}

/// Like `format`, but the new store holds this state. `OutOfMemory` is reported before the device is called.
pub fn format_with<D: Sectors>(
    alloc: Global,
    device: &mut D,
    state: &State,
) -> Result<Place, FormatFault>
    ensures { FormatsStore D.Sectors (HoldsAt state.now [] first_place)
        (with_state 1 state.now (with_zeros (D.seen device.old))) result device.old device.new }
{
    if device.len() < SECTORS {
        return Err(FormatFault::TooSmall);
    }
    match snapshot_of(alloc, state) {
        Ok(snapshot) => make_store(alloc, device, snapshot.size, &snapshot.bytes),
        Err(_) => Err(FormatFault::OutOfMemory),
    }
}
