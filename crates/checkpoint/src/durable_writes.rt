//! Writes that are made durable by a sync.
ghost use Rattle.std.specs.Prelude.{◌≡◌, ◌+◌, ◌*◌, ◌%◌, ◌<◌, ◌≤◌, ◌^◌, ℕ, List, [], ◌∷◌, ◌++◌, length, take, OnOk};
ghost use Rattle.sector_disk.specs.Image.{written};
ghost use Rattle.sector_disk.specs.Sectors.{IsWholeRun, Only, more, faults_after};
ghost use Rattle.sector_disk.specs.Calls.{Calls, CommitsFrom, During};
ghost use Rattle.checkpoint.specs.Stores.{HasStored, leading_number};
ghost use Rattle.checkpoint.specs.DurableWrites.{IsInDurableWrite, IsInSnapshot, IsSnapshotFor, IsRecordFor};
ghost use Rattle.checkpoint.specs.WrittenImages.{with_both};

use crate::headers::{Header, header_sector};
use crate::layouts::{VERSION_2, half_start};
use sector_disk::{DeviceFault, Sectors};

/// Writes a run of whole sectors and syncs it.
pub(crate) fn write_and_sync<D: Sectors>(
    device: &mut D,
    first: u64,
    bytes: &[u8],
) -> Result<(), DeviceFault>
    requires { IsWholeRun first (length bytes.now) (D.len device.old) }

    ensures called { Calls D.Sectors (more result 2) (faults_after result) device.old device.new }
    ensures seen { D.honest device.new
        → OnOk result (D.seen device.new ≡ written first bytes.now (D.seen device.old)) }
    ensures durable { D.honest device.new
        → OnOk result (Only (written first bytes.now (D.seen device.old)) (D.possible device.new)) }
    ensures moments { D.honest device.new
        → During D.Sectors device.old device.new
        (IsInDurableWrite first bytes.now (D.possible device.old) (D.seen device.old)) }
{
    device.write(first, bytes)?;
    device.sync()
}

/// Writes a snapshot of whole sectors into the half of its sequence, and its header once the snapshot is
/// durable. Makes four calls.
pub(crate) fn write_snapshot<D: Sectors>(
    device: &mut D,
    header: Header,
    bytes: &[u8],
) -> Result<(), DeviceFault>
    requires { IsSnapshotFor (D.len device.old) header bytes.now }

    ensures called { Calls D.Sectors (more result 4) (faults_after result) device.old device.new }
    ensures durable { D.honest device.new
        → OnOk result (Only (with_both header bytes.now (D.seen device.old))
        (D.possible device.new)) }
    ensures moments { D.honest device.new
        → During D.Sectors device.old device.new
        (IsInSnapshot header bytes.now (D.possible device.old) (D.seen device.old)) }
{
    write_and_sync(device, half_start(VERSION_2, header.sequence), bytes)?;
    write_and_sync(
        device,
        header.sequence % 2,
        &header_sector(VERSION_2.version, header),
    )
}

/// Commits a snapshot under the sequence of this header, which is the next one. `bytes` is the snapshot, padded
/// to whole sectors.
pub(crate) fn advance<D: Sectors>(
    device: &mut D,
    header: Header,
    bytes: &[u8],
) -> Result<(), DeviceFault>
    requires { IsSnapshotFor (D.len device.old) header bytes.now }

    ensures called { Calls D.Sectors (more result 4) (faults_after result) device.old device.new }
    ensures commits { (sequence : ℕ) (state : List ℕ) (journal : List (List ℕ))
        → header.sequence ≡ sequence + 1
        → CommitsFrom D.Sectors result 4 2 (HasStored sequence state journal)
        (HasStored header.sequence (take header.length bytes.now) []) device.old device.new }
    ensures durable { D.honest device.new
        → OnOk result (Only (with_both header bytes.now (D.seen device.old))
        (D.possible device.new)) }
{
    write_snapshot(device, header, bytes)
}

/// Commits a record after the end of the journal. Its bytes begin with the sequence.
pub(crate) fn extend<D: Sectors>(device: &mut D, used: u32, bytes: &[u8]) -> Result<(), DeviceFault>
    requires { IsRecordFor (D.len device.old) used bytes.now }

    ensures called { Calls D.Sectors (more result 2) (faults_after result) device.old device.new }
    ensures commits { (sequence : ℕ) (state : List ℕ) (journal : List (List ℕ))
        → leading_number bytes.now ≡ sequence → used ≡ length journal
        → CommitsFrom D.Sectors result 2 0 (HasStored sequence state journal)
        (HasStored sequence state (journal ++ bytes.now ∷ [])) device.old device.new }
    ensures durable { D.honest device.new
        → OnOk result (Only (written (2 + used) bytes.now (D.seen device.old))
        (D.possible device.new)) }
{
    write_and_sync(device, 2 + u64::from(used), bytes)
}
