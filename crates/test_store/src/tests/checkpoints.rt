//! Stores on a device: their contents after a format, a commit or a crash, or contents written by hand.

use crate::tests::builders::{
    LOADED_V1, SECTORS, empty_store, header, read_sector, sector_of, write_sector,
};
use checkpoint::{
    FormatFault, Loaded, Place, StoreFault, commit_record, commit_snapshot, format, format_with,
    load, load_latest, load_latest_v1,
};
use command_core::{Command, State};
use sector_disk::{DeviceFault, MemDevice, Sectors};
use state_codec::CodecFault;
use state_codec::version::Version;
use std::alloc::Global;
use std::process::Abort;
use std::test::Fail;

const BAD_FIELD: Option<StoreFault> = Some(StoreFault::Codec(CodecFault::BadField));

const NO_STORE: Option<StoreFault> = Some(StoreFault::NotFormatted);

// Returns why the device holds no store, or `None` if it holds one.
fn fault(alloc: Global, device: &mut MemDevice) -> Option<StoreFault> {
    load_latest(alloc, device).err()
}

// Formats a device with one sector more than needed. Returns the place of the store, the number of finished
// calls, and why the device then holds no store, or `None` if it holds one.
fn formatted(alloc: Global) -> Result<(Place, u64, Option<StoreFault>), Fail> {
    let mut device = MemDevice::new(alloc, SECTORS + 1)?;
    let place = format(alloc, &mut device)?;
    let calls = device.calls();
    Ok((place, calls, fault(alloc, &mut device)))
}

#[test]
fn a_format_takes_six_calls(rt: HostRuntime) -> Result<(), Fail> {
    let (place, calls, fault) = formatted(rt.alloc())?;
    assert!(rt; place == FIRST);
    assert!(rt; calls == 6);
    assert!(rt; fault.is_none());
    Ok(())
}

#[test]
fn a_format_writes_a_header(rt: HostRuntime) -> Result<(), Fail> {
    let mut device = empty_store(rt.alloc())?;
    let wanted = sector_of(
        b"PDRSTORE\x00\x00\x00\x02\x00\x00\x00\x00\x00\x00\x00\x01\x00\x00\x00\x00\x00\x00\x00\x01",
    );
    assert!(rt; read_sector(&rt, &mut device, 1) == Some(wanted));
    Ok(())
}

// Returns why `format` and `format_with` refuse a device of this size, why the device holds no store, and how
// many calls have finished.
fn format_outcome(
    alloc: Global,
    sectors: u64,
) -> Result<([Option<FormatFault>; 2], Option<StoreFault>, u64), Fail> {
    let mut device = MemDevice::new(alloc, sectors)?;
    let refused = [
        format(alloc, &mut device).err(),
        format_with(alloc, &mut device, &State::Empty).err(),
    ];
    let fault = fault(alloc, &mut device);
    Ok((refused, fault, device.calls()))
}

#[test]
fn a_small_device_is_not_called(rt: HostRuntime) -> Result<(), Fail> {
    for sectors in [801, 8449] {
        let (refused, fault, calls) = format_outcome(rt.alloc(), sectors)?;
        assert!(rt; refused == [Some(FormatFault::TooSmall); 2]);
        assert!(rt; fault == NO_STORE);
        assert!(rt; calls == 0);
    }
    Ok(())
}

// Crashes a format after this number of finished calls. Returns why the format failed, and why the device then
// holds no store. If `kept` is 1, the crash keeps an unsynced header; if it is 0, it does not.
fn crashed_format(
    alloc: Global,
    finished: u64,
    kept: u32,
) -> Result<(Option<FormatFault>, Option<StoreFault>), Fail> {
    let mut device = MemDevice::new(alloc, SECTORS)?;
    device.fuse(finished);
    let stopped = format(alloc, &mut device).err();
    device.crash(&[kept, kept]);
    Ok((stopped, fault(alloc, &mut device)))
}

/// The number of calls before the crash, whether the unsynced header is kept, and why there is no store then.
const CRASHES: [(u64, u32, Option<StoreFault>); 6] = [
    (3, 0, NO_STORE),
    (3, 1, NO_STORE),
    (4, 0, NO_STORE),
    (4, 1, None),
    (5, 0, NO_STORE),
    (5, 1, None),
];

#[test]
fn a_format_that_crashes_around_its_header(rt: HostRuntime) -> Result<(), Fail> {
    for (finished, kept, wanted) in CRASHES {
        let (stopped, fault) = crashed_format(rt.alloc(), finished, kept)?;
        assert!(rt; stopped == Some(FormatFault::DeviceFault));
        assert!(rt; fault == wanted);
    }
    Ok(())
}

// Commits a search.
fn commit_search(
    rt: &impl Abort,
    device: &mut MemDevice,
    place: Place,
) -> Result<Place, StoreFault> {
    assert!(rt; SECTORS <= device.len());
    assert!(rt; place.sequence == 1 && place.used < 256);
    commit_record(device, place, &Command::Search(256))
}

// Commits a pin.
fn commit_pin(rt: &impl Abort, device: &mut MemDevice, place: Place) -> Result<Place, StoreFault> {
    assert!(rt; SECTORS <= device.len());
    assert!(rt; place.sequence == 1 && place.used < 256);
    commit_record(device, place, &Command::Pin(1, 2))
}

/// The place of a new store.
const FIRST: Place = Place {
    sequence: 1,
    used: 0,
};

// Returns a store with two records, and the place where its journal continues.
fn with_records(rt: &(impl Abort + AllocGlobal)) -> Result<(MemDevice, Place), Fail> {
    let mut device = empty_store(rt.alloc())?;
    let place = commit_two(rt, &mut device)?;
    Ok((device, place))
}

fn commit_two(rt: &impl Abort, device: &mut MemDevice) -> Result<Place, StoreFault> {
    let place = commit_search(rt, device, FIRST)?;
    commit_pin(rt, device, place)
}

#[test]
fn records_follow_one_another(rt: HostRuntime) -> Result<(), Fail> {
    let (mut device, place) = with_records(&rt)?;
    assert!(rt; place.sequence == 1);
    assert!(rt; place.used == 2);
    assert!(rt; device.calls() == 10);
    let wanted = sector_of(b"\x00\x00\x00\x00\x00\x00\x00\x01\x00\x00\x00\x00\x07\x01\x00");
    assert!(rt; read_sector(&rt, &mut device, 2) == Some(wanted));
    Ok(())
}

// Returns the content of the store on the device.
fn held_by(alloc: Global, mut device: MemDevice) -> Result<Loaded, Fail> {
    Ok(load_latest(alloc, &mut device)?)
}

#[test]
fn records_are_loaded(rt: HostRuntime) -> Result<(), Fail> {
    let (device, place) = with_records(&rt)?;
    let loaded = held_by(rt.alloc(), device)?;
    assert!(rt; loaded.place == place);
    let commands = loaded.commands.as_slice();
    assert!(rt; matches!(commands, [Command::Search(256), Command::Pin(1, 2)]));
    drop(loaded);
    Ok(())
}

// Returns the place of the store that this version reads from a device, or why it holds none.
fn place_in(alloc: Global, mut device: MemDevice, version: Version) -> Result<Place, StoreFault> {
    let loaded = load(alloc, &mut device, version)?;
    let place = loaded.place;
    drop(loaded);
    Ok(place)
}

#[test]
fn zeros_are_no_store_of_either_version(rt: HostRuntime) -> Result<(), Fail> {
    for version in [Version::One, Version::Two] {
        let device = MemDevice::new(rt.alloc(), SECTORS)?;
        assert!(rt; place_in(rt.alloc(), device, version).err() == NO_STORE);
    }
    Ok(())
}

#[test]
fn a_new_store_is_loaded_by_its_own_version(rt: HostRuntime) -> Result<(), Fail> {
    let place = place_in(rt.alloc(), empty_store(rt.alloc())?, Version::Two).ok();
    assert!(rt; place == Some(FIRST));
    let fault = place_in(rt.alloc(), empty_store(rt.alloc())?, Version::One).err();
    assert!(rt; fault == Some(StoreFault::BadVersion));
    Ok(())
}

// Returns a store that crashed while its second record was written. Sector 3 is unchanged if `kept` is 0, and
// holds the record if it is 1.
fn torn(rt: &(impl Abort + AllocGlobal), kept: u32) -> Result<MemDevice, Fail> {
    let mut device = empty_store(rt.alloc())?;
    let place = commit_search(rt, &mut device, FIRST)?;
    device.fuse(0);
    assert!(rt; commit_pin(rt, &mut device, place).is_err());
    device.crash(&[0, 0, 0, kept]);
    Ok(device)
}

#[test]
fn a_torn_record_is_loaded_where_its_sector_was_written(rt: HostRuntime) -> Result<(), Fail> {
    for kept in [0, 1] {
        let place = place_in(rt.alloc(), torn(&rt, kept)?, Version::Two).ok();
        assert!(rt; place.map(|place| (place.sequence, place.used)) == Some((1, 1 + kept)));
    }
    Ok(())
}

// Commits a snapshot of the empty state.
fn commit_empty(
    rt: &(impl Abort + AllocGlobal),
    device: &mut MemDevice,
    place: Place,
) -> Result<Place, StoreFault> {
    assert!(rt; SECTORS <= device.len());
    assert!(rt; place.sequence == 1);
    commit_snapshot(rt.alloc(), device, place, &State::Empty)
}

// Returns a store with a record, then a snapshot, and the place where its journal continues.
fn with_snapshot(rt: &(impl Abort + AllocGlobal)) -> Result<(MemDevice, Place), Fail> {
    let mut device = empty_store(rt.alloc())?;
    let place = commit_both(rt, &mut device)?;
    Ok((device, place))
}

fn commit_both(
    rt: &(impl Abort + AllocGlobal),
    device: &mut MemDevice,
) -> Result<Place, StoreFault> {
    let place = commit_search(rt, device, FIRST)?;
    commit_empty(rt, device, place)
}

#[test]
fn a_record_of_the_old_sequence_is_left(rt: HostRuntime) -> Result<(), Fail> {
    let (device, place) = with_snapshot(&rt)?;
    assert!(rt; place.sequence == 2);
    assert!(rt; place.used == 0);
    assert!(rt; device.calls() == 12);
    let loaded = held_by(rt.alloc(), device)?;
    assert!(rt; loaded.place == place);
    assert!(rt; loaded.commands.is_empty());
    drop(loaded);
    Ok(())
}

// Returns why a device with this header in this sector is not a store.
fn fault_of_header(
    rt: &(impl Abort + AllocGlobal),
    sector: u64,
    header: &[u8; 512],
) -> Result<Option<StoreFault>, Fail> {
    let mut device = MemDevice::new(rt.alloc(), SECTORS)?;
    write_sector(rt, &mut device, sector, header)?;
    Ok(fault(rt.alloc(), &mut device))
}

#[test]
fn a_sequence_above_the_last_one_is_not_valid(rt: HostRuntime) -> Result<(), Fail> {
    assert!(rt; fault_of_header(&rt, 0, &header(2, (1 << 60) + 2, 1))? == NO_STORE);
    Ok(())
}

// Writes a header of this version, the loaded state of version 1 with this next number, and a record of this kind
// with zeros in its fields.
fn write_v1(
    rt: &impl Abort,
    device: &mut MemDevice,
    version: u32,
    next: u16,
    kind: u8,
) -> Result<(), DeviceFault> {
    write_sector(rt, device, 0, &header(version, 2, 75))?;
    let mut snapshot = sector_of(&LOADED_V1);
    snapshot[24..26].copy_from_slice(&next.to_be_bytes());
    write_sector(rt, device, 258, &snapshot)?;
    let record = sector_of(&[0, 0, 0, 0, 0, 0, 0, 2, 0, 0, 0, 0, kind]);
    write_sector(rt, device, 2, &record)
}

// Returns why a device with these contents holds no store, or `None` if it holds one.
fn fault_v1(
    rt: &(impl Abort + AllocGlobal),
    version: u32,
    next: u16,
    kind: u8,
) -> Result<Option<StoreFault>, Fail> {
    let mut device = MemDevice::new(rt.alloc(), 802)?;
    write_v1(rt, &mut device, version, next, kind)?;
    Ok(load_latest_v1(rt.alloc(), &mut device).err())
}

#[test]
fn version_1_has_numbers_up_to_4000(rt: HostRuntime) -> Result<(), Fail> {
    // Kind 1 adds two stops, kind 2 adds one.
    assert!(rt; fault_v1(&rt, 1, 3999, 1)?.is_none());
    assert!(rt; fault_v1(&rt, 1, 4000, 1)? == BAD_FIELD);
    assert!(rt; fault_v1(&rt, 1, 4000, 2)?.is_none());
    assert!(rt; fault_v1(&rt, 1, 4001, 2)? == BAD_FIELD);
    Ok(())
}

#[test]
fn faults_of_a_format_have_names(rt: HostRuntime) {
    let names = [
        FormatFault::TooSmall.name(),
        FormatFault::DeviceFault.name(),
        FormatFault::OutOfMemory.name(),
    ];
    assert!(rt; names == ["TooSmall", "DeviceFault", "OutOfMemory"]);
}

#[test]
fn faults_of_a_store_have_names(rt: HostRuntime) {
    let names = [
        StoreFault::Codec(CodecFault::BadField).name(),
        StoreFault::Spent.name(),
        StoreFault::DeviceFault.name(),
        StoreFault::OutOfMemory.name(),
    ];
    assert!(rt; names == ["Codec", "Spent", "DeviceFault", "OutOfMemory"]);
}
