//! A device over a file.

use crate::tests::builders::{read_sector, write_sector};
use file_disk::{FileDevice, FileFault, UnknownFile};
use sector_disk::Sectors;
use std::fs;
use std::fs::{File, Files};
use std::io::ErrorKind;
use std::os::unix::fs::MetadataExt;
use std::test::Fail;

fn file_len(rt: &HostRuntime, path: &str) -> Result<u64, Fail> {
    Ok(fs::metadata(rt, path)?.len())
}

#[test]
fn a_file_is_created(rt: HostRuntime) -> Result<(), Fail> {
    let path = "made.disk";
    let device = FileDevice::create(&rt, path, 802, UnknownFile)?;
    assert!(rt; file_len(&rt, path)? == 410_624);
    assert!(rt; device.len() == 802);
    assert!(rt; device.calls() == 0);
    assert!(rt; device.faults() == 0);
    drop(device);
    Ok(fs::remove_file(&rt, path)?)
}

#[test]
fn a_file_is_written(rt: HostRuntime) -> Result<(), Fail> {
    let path = "written.disk";
    let mut device = FileDevice::create(&rt, path, 2, UnknownFile)?;
    device.write(0, &[7; 1024])?;
    device.sync()?;
    assert!(rt; device.calls() == 2);
    assert!(rt; device.faults() == 0);
    drop(device);
    Ok(fs::remove_file(&rt, path)?)
}

// Creates a file of 802 sectors and fills the last two with sevens.
fn fill_end<R: Files<File = File>>(rt: &R, path: &str) -> Result<(), Fail> {
    let mut device = FileDevice::create(rt, path, 802, UnknownFile)?;
    device.write(800, &[7; 1024])?;
    Ok(device.sync()?)
}

#[test]
fn a_file_is_opened_again(rt: HostRuntime) -> Result<(), Fail> {
    let path = "again.disk";
    fill_end(&rt, path)?;
    let mut device = FileDevice::at(&rt, path, UnknownFile)?;
    assert!(rt; device.len() == 802);
    let mut zeros = [1; 512];
    device.read(799, &mut zeros)?;
    let mut sevens = [1; 1024];
    device.read(800, &mut sevens)?;
    drop(device);
    assert!(rt; zeros == [0; 512]);
    assert!(rt; sevens == [7; 1024]);
    Ok(fs::remove_file(&rt, path)?)
}

// Returns the bytes of a file of `len` fives, after a device with this many sectors was created over it.
fn sized<R: AllocGlobal + Files<File = File>>(
    rt: &R,
    path: &str,
    len: usize,
    sectors: u64,
) -> Result<Vec<u8>, Fail> {
    fs::write(rt, path, vec![in rt.alloc(); 5u8; len]?.as_slice())?;
    FileDevice::create(rt, path, sectors, UnknownFile)?;
    Ok(fs::read(rt, path)?)
}

#[test]
fn a_file_becomes_longer(rt: HostRuntime) -> Result<(), Fail> {
    let path = "longer.disk";
    let bytes = sized(&rt, path, 513, 4)?;
    let mut wanted = [0; 2048];
    wanted[..513].fill(5);
    assert!(rt; bytes.as_slice() == wanted.as_slice());
    Ok(fs::remove_file(&rt, path)?)
}

#[test]
fn a_file_becomes_shorter(rt: HostRuntime) -> Result<(), Fail> {
    let path = "shorter.disk";
    let bytes = sized(&rt, path, 4096, 2)?;
    assert!(rt; bytes.as_slice() == [5; 1024].as_slice());
    Ok(fs::remove_file(&rt, path)?)
}

#[test]
fn an_empty_file_becomes_zeros(rt: HostRuntime) -> Result<(), Fail> {
    let path = "empty.disk";
    let bytes = sized(&rt, path, 0, 3)?;
    assert!(rt; bytes.as_slice() == [0; 1536].as_slice());
    Ok(fs::remove_file(&rt, path)?)
}

#[test]
fn a_new_file_has_no_hole(rt: HostRuntime) -> Result<(), Fail> {
    let path = "whole.disk";
    FileDevice::create(&rt, path, 8450, UnknownFile)?;
    let blocks = fs::metadata(&rt, path)?.blocks();
    assert!(rt; blocks >= 8450);
    Ok(fs::remove_file(&rt, path)?)
}

// Returns why there is no device at this path.
fn fault_at(rt: &HostRuntime, path: &str) -> Option<FileFault> {
    FileDevice::at(rt, path, UnknownFile).err()
}

// Returns why no device is created at this path.
fn fault_of_create(rt: &HostRuntime, path: &str, sectors: u64) -> Option<FileFault> {
    FileDevice::create(rt, path, sectors, UnknownFile).err()
}

#[test]
fn no_device_is_reported(rt: HostRuntime) {
    assert!(rt; fault_at(&rt, "missing.disk") == Some(FileFault::NoFile));
    assert!(rt; fault_at(&rt, ".") == Some(FileFault::NoFile));
    assert!(rt; fault_of_create(&rt, "no/folder.disk", 1) == Some(FileFault::NoFile));
}

// Returns the kind of the system error if there is no device at this path.
fn cause_at(rt: &HostRuntime, path: &str) -> Option<ErrorKind> {
    let refusal = FileDevice::open(rt, path, UnknownFile).err()?;
    Some(refusal.cause?.kind())
}

// Returns the kind of the system error if no device is created at this path.
fn cause_of_create(rt: &HostRuntime, path: &str) -> Option<ErrorKind> {
    let refusal = FileDevice::create_with_cause(rt, path, 1, UnknownFile).err()?;
    Some(refusal.cause?.kind())
}

#[test]
fn system_errors_are_kept(rt: HostRuntime) {
    assert!(rt; cause_at(&rt, "missing.disk") == Some(ErrorKind::NotFound));
    assert!(rt; cause_at(&rt, ".") == Some(ErrorKind::IsADirectory));
    assert!(rt; cause_of_create(&rt, "no/folder.disk") == Some(ErrorKind::NotFound));
    // A device file opens, but it is not a regular file.
    assert!(rt; fault_of_create(&rt, "/dev/null", 1) == Some(FileFault::NoFile));
    assert!(rt; cause_of_create(&rt, "/dev/null").is_none());
}

#[test]
fn a_bad_length_is_reported(rt: HostRuntime) -> Result<(), Fail> {
    let path = "odd.disk";
    fs::write(&rt, path, [0u8; 513].as_slice())?;
    assert!(rt; fault_at(&rt, path) == Some(FileFault::BadLength));
    assert!(rt; fault_of_create(&rt, path, 1 << 60) == Some(FileFault::BadLength));
    assert!(rt; file_len(&rt, path)? == 513);
    Ok(fs::remove_file(&rt, path)?)
}

#[test]
fn a_failed_read_counts(rt: HostRuntime) -> Result<(), Fail> {
    let path = "cut.disk";
    let mut device = FileDevice::create(&rt, path, 2, UnknownFile)?;
    // Something truncates the file, so a read of its end is short.
    fs::write(&rt, path, [0u8; 700].as_slice())?;
    assert!(rt; device.cause().is_none());
    assert!(rt; read_sector(&rt, &mut device, 1).is_none());
    let cause = device.cause().map(|error| error.kind());
    assert!(rt; cause == Some(ErrorKind::UnexpectedEof));
    assert!(rt; write_sector(&rt, &mut device, 0, &[1; 512]).is_ok());
    assert!(rt; device.calls() == 1);
    assert!(rt; device.faults() == 1);
    drop(device);
    Ok(fs::remove_file(&rt, path)?)
}
