//! Sectors, states as bytes, and stores that the examples share.

use checkpoint::{format, format_with};
use command_core::State;
use recover::{Opened, Session};
use sector_disk::{DeviceFault, MemDevice, SECTOR_SIZE, Sectors};
use state_codec::decode_state;
use std::alloc::Global;
use std::process::Abort;
use std::test::Fail;

/// The number of sectors of the smallest store of the current version.
pub const SECTORS: u64 = 8450;

/// A loaded state without a plan, as bytes: customer 1 at (3, 4) with demand 6, a capacity of 10 and one vehicle.
pub const LOADED: [u8; 95] = [
    1, 2, 0, 0, 0, 0, 0, 0, 0, 0, 0, 0, 0, 0, 0, 0, 0, 0, 0, 0, 0, 10, 0, 0, 0, 1, 0, 0, 0, 2, 0,
    0, 0, 0, 0, 0, 0, 0, 0, 0, 0, 0, 5, 245, 225, 0, 0, 0, 0, 0, 0, 0, 0, 1, 1, 0, 0, 0, 1, 0, 0,
    0, 3, 0, 0, 0, 4, 0, 0, 0, 6, 0, 0, 0, 0, 5, 245, 225, 0, 0, 0, 0, 0, 0, 0, 0, 0, 0, 0, 0, 0,
    0, 0, 0, 0,
];

/// The state of `LOADED` as bytes of version 1. Its bytes 24 and 25 hold the next number.
pub const LOADED_V1: [u8; 75] = [
    1, 2, 0, 0, 0, 0, 0, 0, 0, 0, 0, 0, 0, 0, 0, 0, 0, 0, 0, 0, 0, 10, 0, 1, 0, 2, 0, 0, 0, 0, 0,
    0, 0, 0, 0, 0, 0, 0, 5, 245, 225, 0, 0, 1, 1, 0, 1, 0, 0, 0, 3, 0, 0, 0, 4, 0, 0, 0, 6, 0, 0,
    0, 0, 5, 245, 225, 0, 0, 0, 0, 0, 0, 0, 0, 0,
];

/// Returns a sector of the device, or `None` if the read fails.
pub fn read_sector(
    rt: &impl Abort,
    device: &mut impl Sectors,
    sector: u64,
) -> Option<[u8; SECTOR_SIZE]> {
    assert!(rt; sector < device.len());
    let mut bytes = [0xee; SECTOR_SIZE];
    device.read(sector, &mut bytes).ok()?;
    Some(bytes)
}

/// Writes a sector of the device.
pub fn write_sector(
    rt: &impl Abort,
    device: &mut impl Sectors,
    sector: u64,
    bytes: &[u8; SECTOR_SIZE],
) -> Result<(), DeviceFault> {
    assert!(rt; sector < device.len());
    device.write(sector, bytes)
}

/// Returns a sector that begins with these bytes, at most 512 of them, followed by zeros.
pub fn sector_of(front: &[u8]) -> [u8; SECTOR_SIZE] {
    let mut sector = [0; SECTOR_SIZE];
    let len = front.len().min(SECTOR_SIZE);
    sector[..len].copy_from_slice(&front[..len]);
    sector
}

/// Returns the header of a store with this version, sequence and length of its snapshot.
pub fn header(version: u32, sequence: u64, length: u64) -> [u8; SECTOR_SIZE] {
    let mut sector = [0; SECTOR_SIZE];
    sector[..8].copy_from_slice(b"PDRSTORE");
    sector[8..12].copy_from_slice(&version.to_be_bytes());
    sector[12..20].copy_from_slice(&sequence.to_be_bytes());
    sector[20..28].copy_from_slice(&length.to_be_bytes());
    sector
}

/// Returns a device with a store of the empty state.
pub fn empty_store(alloc: Global) -> Result<MemDevice, Fail> {
    let mut device = MemDevice::new(alloc, SECTORS)?;
    format(alloc, &mut device)?;
    Ok(device)
}

/// Returns a device with a store of the loaded state.
pub fn loaded_store(alloc: Global) -> Result<MemDevice, Fail> {
    let mut device = MemDevice::new(alloc, SECTORS)?;
    format_loaded(alloc, &mut device)?;
    Ok(device)
}

fn format_loaded(alloc: Global, device: &mut MemDevice) -> Result<(), Fail> {
    let state = decode_state(alloc, &LOADED)?;
    let formatted = format_as(alloc, device, &state);
    drop(state);
    formatted
}

fn format_as(alloc: Global, device: &mut MemDevice, state: &State) -> Result<(), Fail> {
    format_with(alloc, device, state)?;
    Ok(())
}

pub fn open(alloc: Global, device: MemDevice) -> Result<Opened<MemDevice>, Fail> {
    match Session::open(alloc, device) {
        Ok(opened) => Ok(opened),
        Err((fault, _)) => Err(fault.into()),
    }
}

/// Returns the fault with which a device was refused and the number of its finished calls, or `None` if it was
/// not refused.
pub fn refusal<T: Drop, F>(outcome: Result<T, (F, MemDevice)>) -> Option<(F, u64)> {
    match outcome {
        Ok(_) => None,
        Err((fault, device)) => Some((fault, device.calls())),
    }
}
