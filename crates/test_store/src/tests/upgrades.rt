//! Upgrades of stores of version 1.

use crate::tests::builders::{LOADED_V1, SECTORS, empty_store, header, sector_of, write_sector};
use checkpoint::{FormatFault, StoreFault};
use recover::{UpgradeFault, upgrade};
use sector_disk::{DeviceFault, MemDevice, Sectors};
use state_codec::CodecFault;
use std::alloc::Global;
use std::process::Abort;
use std::test::Fail;

/// The number of sectors of a store of version 1.
const SECTORS_V1: u64 = 802;

/// Record 0 of sequence 1: Build.
const BUILD: [u8; 13] = [0, 0, 0, 0, 0, 0, 0, 1, 0, 0, 0, 0, 6];

/// Record 1 of sequence 1: Search of 256 steps.
const SEARCH: [u8; 15] = [0, 0, 0, 0, 0, 0, 0, 1, 0, 0, 0, 1, 7, 1, 0];

// Returns a store of version 1 with the loaded state and two records, of which `second` is the second one. Its
// snapshot is in the half of sequence 1.
fn store_v1(rt: &(impl Abort + AllocGlobal), second: &[u8]) -> Result<MemDevice, Fail> {
    let mut device = MemDevice::new(rt.alloc(), SECTORS_V1)?;
    write_store_v1(rt, &mut device, second)?;
    Ok(device)
}

fn write_store_v1(
    rt: &impl Abort,
    device: &mut MemDevice,
    second: &[u8],
) -> Result<(), DeviceFault> {
    write_sector(rt, device, 1, &header(1, 1, 75))?;
    write_sector(rt, device, 530, &sector_of(&LOADED_V1))?;
    write_sector(rt, device, 2, &sector_of(&BUILD))?;
    write_sector(rt, device, 3, &sector_of(second))
}

// Returns why the old device is not upgraded to a new one of this size, and the numbers of calls that the
// upgrade has finished on both devices.
fn upgrade_outcome(
    alloc: Global,
    mut old: MemDevice,
    sectors: u64,
) -> Result<(Option<UpgradeFault>, u64, u64), Fail> {
    let mut new = MemDevice::new(alloc, sectors)?;
    let before = old.calls();
    let fault = upgrade(alloc, &mut old, &mut new).err();
    Ok((fault, old.calls().saturating_sub(before), new.calls()))
}

// Returns whether an upgrade has this outcome.
fn has_outcome(
    alloc: Global,
    old: MemDevice,
    sectors: u64,
    wanted: (Option<UpgradeFault>, u64, u64),
) -> Result<bool, Fail> {
    Ok(upgrade_outcome(alloc, old, sectors)? == wanted)
}

#[test]
fn an_upgrade_takes_one_call_and_six(rt: HostRuntime) -> Result<(), Fail> {
    let old = store_v1(&rt, &SEARCH)?;
    assert!(rt; has_outcome(rt.alloc(), old, SECTORS, (None, 1, 6))?);
    Ok(())
}

#[test]
fn a_small_new_device_is_reported_first(rt: HostRuntime) -> Result<(), Fail> {
    let too_small = Some(UpgradeFault::New(FormatFault::TooSmall));
    let old = store_v1(&rt, &SEARCH)?;
    assert!(rt; has_outcome(rt.alloc(), old, 8449, (too_small, 0, 0))?);
    let none = MemDevice::new(rt.alloc(), 801)?;
    assert!(rt; has_outcome(rt.alloc(), none, 8449, (too_small, 0, 0))?);
    Ok(())
}

#[test]
fn a_device_without_an_old_store_is_refused(rt: HostRuntime) -> Result<(), Fail> {
    let no_store = Some(UpgradeFault::Old(StoreFault::NotFormatted));
    let small = MemDevice::new(rt.alloc(), 801)?;
    assert!(rt; has_outcome(rt.alloc(), small, SECTORS, (no_store, 0, 0))?);
    let zeros = MemDevice::new(rt.alloc(), 802)?;
    assert!(rt; has_outcome(rt.alloc(), zeros, SECTORS, (no_store, 1, 0))?);
    let bad_version = Some(UpgradeFault::Old(StoreFault::BadVersion));
    let store = empty_store(rt.alloc())?;
    assert!(rt; has_outcome(rt.alloc(), store, SECTORS, (bad_version, 1, 0))?);
    Ok(())
}

#[test]
fn a_record_of_nothing_to_do_is_refused(rt: HostRuntime) -> Result<(), Fail> {
    // A `Withdraw` of request 9.
    let store = store_v1(&rt, &[0, 0, 0, 0, 0, 0, 0, 1, 0, 0, 0, 1, 3, 0, 9])?;
    let bad_field = UpgradeFault::Old(StoreFault::Codec(CodecFault::BadField));
    assert!(rt; has_outcome(rt.alloc(), store, SECTORS, (Some(bad_field), 1, 0))?);
    Ok(())
}

#[test]
fn faults_of_an_upgrade_have_names(rt: HostRuntime) {
    let names = [
        UpgradeFault::Old(StoreFault::BadVersion).name(),
        UpgradeFault::Old(StoreFault::Codec(CodecFault::Truncated)).name(),
        UpgradeFault::New(FormatFault::TooSmall).name(),
    ];
    assert!(rt; names == ["BadVersion", "Codec", "TooSmall"]);
}
