//! Upgrades a store of version 1 to one of the current version.
//!
//! The old device is read as `open` reads a device, with the encoding and limits of version 1. The new device
//! is formatted as by `format`, with the state that was read. So no code writes version 1, and the old store
//! does not change. Reading and formatting are also available separately (`read_version_1`, `format_with` of
//! `checkpoint`), so that a caller can read the old device completely before it creates the new one.
ghost use Rattle.std.specs.Prelude.{◌≡◌, ◌<◌, ◌↔◌, IfErr, IsErrOf};
ghost use Rattle.checkpoint.specs.Layouts.{version_2, sectors_in};
ghost use Rattle.recover.specs.Names.{upgrade_fault_name};
ghost use Rattle.recover.specs.Upgrading.{OnWritten, IsMadeFromOld, IsReadOnly, IsRefusal, IsFormatted, ReadsOldStore};

use crate::opening::recover;
use checkpoint::{FormatFault, Place, SECTORS, StoreFault, format_with};
use command_core::State;
use sector_disk::Sectors;
use state_codec::version::Version;
use std::alloc::Global;

/// The reason why a store was not upgraded.
#[derive(Clone, Copy, Debug, PartialEq, Eq)]
pub enum UpgradeFault {
    /// The old device's store was not read, and the new device was not called.
    Old(StoreFault),
    /// The new device's store was not created. After `DeviceFault` it may have no store, and its previous
    /// content may be lost.
    New(FormatFault),
}

impl UpgradeFault {
    /// Returns the name of the old or new store's fault, as answers print it.
    pub fn name(&self) -> &'static str
        ensures { result.now ≡ upgrade_fault_name self.now }
    {
        match self {
            UpgradeFault::Old(fault) => fault.name(),
            UpgradeFault::New(fault) => fault.name(),
        }
    }
}

/// Recovers the state of the store of version 1 on the device: loads it and replays the commands of its
/// records, all by the limits of version 1. The device is synced and read, and never written to. So at each
/// moment its images recover to the same state as before, even if reading is refused.
///
/// Returns a fault only if the image recovers to no state of version 1, if memory runs out or if the device
/// fails. A device of fewer than 802 sectors is `NotFormatted`, and is not called.
pub fn read_version_1<D: Sectors>(alloc: Global, old: &mut D) -> Result<State, StoreFault>
    ensures { ReadsOldStore D.Sectors result old.old old.new }
{
    match recover(alloc, old, Version::One) {
        Ok(found) => Ok(found.state),
        Err(fault) => Err(fault),
    }
}

/// Creates a store on the new device, with the state of the old device's store of version 1.
///
/// If the new device has fewer than 8,450 sectors, returns `New(TooSmall)` before either device is called.
/// Otherwise reads the old device like `read_version_1`, and then makes the six calls of a format on the new
/// device. From its first sync to the header's write each image of the new device is `NotFormatted`. After `Ok`
/// each image recovers to the old device's state. If memory for the snapshot runs out, this is reported before
/// the first call of the new device.
pub fn upgrade<D: Sectors, E: Sectors>(
    alloc: Global,
    old: &mut D,
    new: &mut E,
) -> Result<Place, UpgradeFault>
    ensures too_small { IsErrOf result (UpgradeFault.New FormatFault.TooSmall)
        ↔ E.len new.old < sectors_in version_2 }
    ensures refused { IfErr result (λ fault.
        IsRefusal D.Sectors E.Sectors fault old.old old.new new.old new.new) }
    ensures reads { IsReadOnly D.Sectors result old.old old.new }
    ensures writes { IsFormatted E.Sectors result new.old new.new }
    ensures makes { OnWritten result
        (IsMadeFromOld D.Sectors E.Sectors result old.old old.new new.old new.new) }
{
    if new.len() < SECTORS {
        return Err(UpgradeFault::New(FormatFault::TooSmall));
    }
    let state = match read_version_1(alloc, old) {
        Ok(state) => state,
        Err(fault) => return Err(UpgradeFault::Old(fault)),
    };
    let made = format_with(alloc, new, &state);
    drop(state);
    match made {
        Ok(place) => Ok(place),
        Err(fault) => Err(UpgradeFault::New(fault)),
    }
}
