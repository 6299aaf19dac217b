//! A device in memory: its contents after a crash, and calls that fail.

use crate::tests::builders::{read_sector, write_sector};
use sector_disk::{DeviceFault, MemDevice, Sectors};
use std::process::Abort;
use std::test::Fail;

// Writes a sector filled with this byte.
fn write_one(
    rt: &impl Abort,
    device: &mut MemDevice,
    sector: u64,
    byte: u8,
) -> Result<(), DeviceFault> {
    write_sector(rt, device, sector, &[byte; 512])
}

// Writes two consecutive sectors: the first one filled with the first byte, the next one with the second byte.
fn write_two(
    rt: &impl Abort,
    device: &mut MemDevice,
    sector: u64,
    bytes: (u8, u8),
) -> Result<(), DeviceFault> {
    assert!(rt; sector < 100 && sector + 2 <= device.len());
    let mut run = [bytes.0; 1024];
    run[512..].fill(bytes.1);
    device.write(sector, &run)
}

// Returns the byte that fills a sector, or `None` if the read fails.
fn read_one(rt: &impl Abort, device: &mut MemDevice, sector: u64) -> Option<u8> {
    let bytes = read_sector(rt, device, sector)?;
    assert!(rt; bytes == [bytes[0]; 512]);
    Some(bytes[0])
}

// Returns the bytes that fill the first three sectors.
fn read_three(rt: &impl Abort, device: &mut MemDevice) -> [Option<u8>; 3] {
    [
        read_one(rt, device, 0),
        read_one(rt, device, 1),
        read_one(rt, device, 2),
    ]
}

// Returns a device of three sectors: sector 0 was synced with 1 and then written with 2 and 3; sector 2 was
// written with 9.
fn written(rt: &(impl Abort + AllocGlobal)) -> Result<MemDevice, Fail> {
    let mut device = MemDevice::new(rt.alloc(), 3)?;
    write_all(rt, &mut device)?;
    Ok(device)
}

fn write_all(rt: &impl Abort, device: &mut MemDevice) -> Result<(), DeviceFault> {
    write_one(rt, device, 0, 1)?;
    device.sync()?;
    write_one(rt, device, 0, 2)?;
    write_one(rt, device, 0, 3)?;
    write_one(rt, device, 2, 9)
}

// Returns the contents of the device of `written` after a crash with these choices.
fn left(rt: &(impl Abort + AllocGlobal), choices: &[u32]) -> Result<[Option<u8>; 3], Fail> {
    let mut device = written(rt)?;
    device.crash(choices);
    Ok(read_three(rt, &mut device))
}

#[test]
fn reads_return_the_last_write(rt: HostRuntime) -> Result<(), Fail> {
    let mut device = written(&rt)?;
    assert!(rt; read_three(&rt, &mut device) == [Some(3), Some(0), Some(9)]);
    assert!(rt; device.len() == 3);
    assert!(rt; device.calls() == 5);
    assert!(rt; device.faults() == 0);
    Ok(())
}

/// Choices, and the contents after a crash with them.
const CHOSEN: [(&[u32], [Option<u8>; 3]); 8] = [
    (&[], [Some(1), Some(0), Some(0)]),
    (&[0, 0, 0], [Some(1), Some(0), Some(0)]),
    (&[1, 1, 1], [Some(2), Some(0), Some(9)]),
    (&[2], [Some(3), Some(0), Some(0)]),
    (&[1, 0, 0], [Some(2), Some(0), Some(0)]),
    // Choices are taken modulo the number of possible contents.
    (&[3, 7, 2], [Some(1), Some(0), Some(0)]),
    (&[5, 0, 3, 4], [Some(3), Some(0), Some(9)]),
    (&[u32::MAX, 0, u32::MAX], [Some(1), Some(0), Some(9)]),
];

#[test]
fn a_crash_takes_the_chosen_contents(rt: HostRuntime) -> Result<(), Fail> {
    for (choices, wanted) in CHOSEN {
        assert!(rt; left(&rt, choices)? == wanted);
    }
    Ok(())
}

#[test]
fn what_a_crash_left_is_durable(rt: HostRuntime) -> Result<(), Fail> {
    let mut device = written(&rt)?;
    device.crash(&[1]);
    device.crash(&[2, 1, 1]);
    assert!(rt; read_three(&rt, &mut device) == [Some(2), Some(0), Some(0)]);
    assert!(rt; device.calls() == 5);
    assert!(rt; device.faults() == 0);
    Ok(())
}

// Writes 1 and 2 to sectors 0 and 1, syncs, writes 3 and 4 to sectors 1 and 2, and syncs. Returns which of
// these calls finish.
fn write_and_sync(rt: &impl Abort, device: &mut MemDevice) -> [bool; 4] {
    [
        write_two(rt, device, 0, (1, 2)).is_ok(),
        device.sync().is_ok(),
        write_two(rt, device, 1, (3, 4)).is_ok(),
        device.sync().is_ok(),
    ]
}

// Returns a device of three sectors on which `write_and_sync` ran with a fuse of `k`, and which calls finished.
fn fused(rt: &(impl Abort + AllocGlobal), k: u64) -> Result<(MemDevice, [bool; 4]), Fail> {
    let mut device = MemDevice::new(rt.alloc(), 3)?;
    device.fuse(k);
    let finished = write_and_sync(rt, &mut device);
    Ok((device, finished))
}

/// A fuse, and which calls finish.
const FINISHED: [(u64, [bool; 4]); 4] = [
    (0, [false, false, false, false]),
    (1, [true, false, false, false]),
    (2, [true, true, false, false]),
    (3, [true, true, true, false]),
];

#[test]
fn a_fuse_allows_k_calls(rt: HostRuntime) -> Result<(), Fail> {
    for (k, finished) in FINISHED {
        assert!(rt; fused(&rt, k)?.1 == finished);
    }
    Ok(())
}

// Returns the contents of the device of `fused` after a crash with this choice for each sector.
fn left_by_fuse(
    rt: &(impl Abort + AllocGlobal),
    k: u64,
    choice: u32,
) -> Result<[Option<u8>; 3], Fail> {
    let mut device = fused(rt, k)?.0;
    device.crash(&[choice; 3]);
    Ok(read_three(rt, &mut device))
}

/// A fuse, a choice for each sector, and the contents after a crash. Both writes touch sector 1.
const AFTER_A_FUSE: [(u64, u32, [Option<u8>; 3]); 10] = [
    (0, 0, [Some(0), Some(0), Some(0)]),
    (0, 1, [Some(1), Some(2), Some(0)]),
    (0, 2, [Some(0), Some(0), Some(0)]),
    (1, 0, [Some(0), Some(0), Some(0)]),
    (1, 1, [Some(1), Some(2), Some(4)]),
    (1, 2, [Some(0), Some(3), Some(0)]),
    (2, 0, [Some(1), Some(2), Some(0)]),
    (2, 1, [Some(1), Some(3), Some(4)]),
    (2, 2, [Some(1), Some(2), Some(0)]),
    (3, 1, [Some(1), Some(3), Some(4)]),
];

#[test]
fn a_crash_after_a_fuse(rt: HostRuntime) -> Result<(), Fail> {
    for (k, choice, wanted) in AFTER_A_FUSE {
        assert!(rt; left_by_fuse(&rt, k, choice)? == wanted);
    }
    Ok(())
}

#[test]
fn a_crash_removes_the_fuse(rt: HostRuntime) -> Result<(), Fail> {
    let mut device = fused(&rt, 3)?.0;
    assert!(rt; read_three(&rt, &mut device) == [None, None, None]);
    assert!(rt; device.calls() == 3);
    assert!(rt; device.faults() == 4);
    device.crash(&[]);
    device.sync()?;
    assert!(rt; device.calls() == 4);
    assert!(rt; device.faults() == 4);
    Ok(())
}

#[test]
fn the_first_failed_write_of_a_fuse_may_be_kept(rt: HostRuntime) -> Result<(), Fail> {
    let mut device = MemDevice::new(rt.alloc(), 2)?;
    device.fuse(0);
    assert!(rt; device.sync().is_err());
    assert!(rt; write_one(&rt, &mut device, 0, 5).is_err());
    assert!(rt; write_one(&rt, &mut device, 0, 6).is_err());
    // Two contents are possible: zeros, and the one that was written first. So choice 3 is the second one.
    device.crash(&[3]);
    assert!(rt; read_one(&rt, &mut device, 0) == Some(5));
    Ok(())
}

// Returns a device of three sectors whose second write failed: 1 to sector 0, then 2 and 3 to sectors 0 and 1.
fn failed_once(rt: &(impl Abort + AllocGlobal)) -> Result<MemDevice, Fail> {
    let mut device = MemDevice::new(rt.alloc(), 3)?;
    device.fail_once(1);
    write_one(rt, &mut device, 0, 1)?;
    let _failed = write_two(rt, &mut device, 0, (2, 3));
    Ok(device)
}

#[test]
fn reads_continue_after_a_failed_write(rt: HostRuntime) -> Result<(), Fail> {
    let mut device = failed_once(&rt)?;
    assert!(rt; device.calls() == 1);
    assert!(rt; device.faults() == 1);
    assert!(rt; read_three(&rt, &mut device) == [Some(1), Some(0), Some(0)]);
    Ok(())
}

#[test]
fn a_failed_write_may_be_kept(rt: HostRuntime) -> Result<(), Fail> {
    let mut device = failed_once(&rt)?;
    device.crash(&[2, 1]);
    assert!(rt; read_three(&rt, &mut device) == [Some(2), Some(3), Some(0)]);
    Ok(())
}

#[test]
fn one_read_fails(rt: HostRuntime) -> Result<(), Fail> {
    let mut device = written(&rt)?;
    device.fail_once(1);
    assert!(rt; read_three(&rt, &mut device) == [Some(3), None, Some(9)]);
    assert!(rt; device.calls() == 5);
    assert!(rt; device.faults() == 1);
    Ok(())
}

#[test]
fn one_sync_fails(rt: HostRuntime) -> Result<(), Fail> {
    let mut device = written(&rt)?;
    device.fail_once(0);
    assert!(rt; device.sync().is_err());
    device.sync()?;
    assert!(rt; device.calls() == 6);
    assert!(rt; device.faults() == 1);
    Ok(())
}

#[test]
fn a_large_write_goes_to_a_large_device(rt: HostRuntime) -> Result<(), Fail> {
    let mut device = MemDevice::new(rt.alloc(), 8450)?;
    assert_eq!(rt; device.len(), 8450);
    let run = vec![in rt.alloc(); 7u8; 131_072]?;
    device.write(8450 - 256, &run)?;
    device.sync()?;
    device.crash(&[]);
    assert!(rt; read_one(&rt, &mut device, 8193) == Some(0));
    assert!(rt; read_one(&rt, &mut device, 8194) == Some(7));
    assert!(rt; read_one(&rt, &mut device, 8449) == Some(7));
    Ok(())
}
