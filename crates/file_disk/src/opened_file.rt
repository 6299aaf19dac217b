//! A file between its opening and its first call as a device. The lock is taken first. The length is read and
//! set under the lock, since another process that holds the lock may be writing the file. Each step records its
//! calls, which determine its fault.
//!
//! The lock is the system's advisory lock on the whole file (`flock`). It is released when the file is closed,
//! and so also when its process ends. It keeps out only processes that lock the file too. Processes that open a
//! file for reading only share the lock with each other.
ghost use Rattle.std.specs.Prelude.{ℕ, ◌≡◌, ◌*◌, ◌/◌, ◌%◌, ◌^◌, ◌<◌, ◌≤◌, ◌≢◌, IfOk, IfErr, IsTrue, IsErrOf, Ok, Some, None, false, true, List, [], ◌∷◌};
ghost use Rattle.std.specs.IoError.{error_kind};
ghost use Rattle.system_calls.specs.FolderSync.{folder_of};
ghost use Rattle.system_calls.specs.SystemCalls.{answered};
ghost use Rattle.file_disk.specs.Opening.{lock_failure, failure_by, failure_reported, first_failure, len_after, is_file_synced, is_synced, opened_in, finding_calls, effects_in, no_effects, with_folder, with_opened, is_shared, HasLen, IsResized, KeepsBytes, OpensOnlyFolder, IsOpened, IsNotOpened, IsCreated, IsNotCreated};

use crate::FileFault;
use crate::file_calls::SECTOR;
use crate::transfers::write_some;
use std::fs::{File, Files};
use std::io;
use std::io::ErrorKind;
use system_calls::{Access, SystemCall, SystemCallLog};

/// The zeros of one write when a file is extended.
const ZEROS: [u8; 4096] = [0; 4096];

/// The reason why an opening fails, and the system's error if a system call failed.
#[derive(Clone, Copy)]
pub struct OpeningFault {
    pub fault: FileFault,
    pub cause: Option<io::Error>,
}

impl From<FileFault> for OpeningFault {
    ghost use Rattle.std.specs.Prelude.{ℕ, ◌≡◌, None};

    ghost from_gives = { λ fault refusal. (refusal.fault ≡ fault) × (refusal.cause ≡ None) };

    fn from(fault: FileFault) -> OpeningFault {
        OpeningFault { fault, cause: None }
    }
}

impl From<io::Error> for OpeningFault {
    ghost use Rattle.std.specs.Prelude.{ℕ, ◌≡◌, Some};
    ghost use Rattle.std.specs.IoError.{error_kind};
    ghost use Rattle.file_disk.specs.Opening.{fault_of};

    ghost from_gives = { λ error refusal. (refusal.fault ≡ fault_of (error_kind error))
        × (refusal.cause ≡ Some error) };

    fn from(error: io::Error) -> OpeningFault {
        let fault = match error.kind() {
            ErrorKind::OutOfMemory => FileFault::OutOfMemory,
            _ => FileFault::NoFile,
        };
        OpeningFault {
            fault,
            cause: Some(error),
        }
    }
}

// Returns the fault for a lock call that failed with this error.
fn lock_fault(error: io::Error) -> OpeningFault
    ensures { failure_by result.fault result.cause ≡ lock_failure (error_kind error) }
{
    match error.kind() {
        ErrorKind::WouldBlock => OpeningFault::from(FileFault::InUse),
        _ => OpeningFault::from(error),
    }
}

// Returns whether the lock is shared: readers share it with other readers.
fn is_shared(access: Access) -> bool
    ensures { result ≡ is_shared access }
{
    matches!(access, Access::Read)
}

// Opens the file and takes its lock. Fails if another process, or another device of this process, holds it.
fn open_locked<R: Files<File = File>>(
    rt: &R,
    path: &str,
    access: Access,
    noted: &mut SystemCallLog,
) -> Result<File, OpeningFault>
    requires no_fault { first_failure (answered noted.old) ≡ None }
    ensures requested { IfOk result (λ _. noted.new
        ≡ (SystemCall.Lock (is_shared access) None, [])
        ∷ (SystemCall.Open access None, path.now) ∷ noted.old) }
    ensures reported { first_failure (answered noted.new) ≡ failure_reported result }
    ensures effects { effects_in (answered noted.new)
        ≡ with_opened access path.now (effects_in (answered noted.old)) }
{
    let file = system_calls::open(rt, path, access, noted)?;
    match system_calls::lock(&file, is_shared(access), noted) {
        Ok(()) => Ok(file),
        Err(error) => Err(lock_fault(error)),
    }
}

// Returns the length of the file, if it is a plain one.
fn measure(file: &File, noted: &mut SystemCallLog) -> Result<u64, OpeningFault>
    requires no_fault { first_failure (answered noted.old) ≡ None }
    ensures requested { IfOk result (λ len.
        noted.new ≡ (SystemCall.Measure true len, []) ∷ noted.old) }
    ensures reported { first_failure (answered noted.new) ≡ failure_reported result }
    ensures effects { effects_in (answered noted.new) ≡ effects_in (answered noted.old) }
{
    let metadata = system_calls::measure(file, noted)?;
    if !metadata.is_file {
        return Err(OpeningFault::from(FileFault::NoFile));
    }
    Ok(metadata.len)
}

// Sets the length of a file that is `old` bytes long, and makes it durable. Bytes that are cut off are lost. New
// bytes are written as zeros, so that a full disk reports an error now. If that fails, truncates the file to its
// old length.
fn resize(file: &File, old: u64, len: u64, noted: &mut SystemCallLog) -> Result<(), OpeningFault>
    requires long { HasLen noted.old old len }
    ensures resized { IsResized result noted.old noted.new old len }
    ensures synced { IfOk result (λ _. IsTrue (is_file_synced (answered noted.new))) }
{
    if len <= old {
        return shorten(file, len, noted);
    }
    if let Err(refusal) = lengthen(file, old, len, noted) {
        let _ = system_calls::set_len(file, old, noted);
        return Err(refusal);
    }
    Ok(())
}

// Truncates a file to this length, and syncs it.
fn shorten(file: &File, len: u64, noted: &mut SystemCallLog) -> Result<(), OpeningFault>
    requires no_fault { first_failure (answered noted.old) ≡ None }
    ensures resized { (old : ℕ) → KeepsBytes old len noted.old
        → IsResized result noted.old noted.new old len }
    ensures synced { IfOk result (λ _. IsTrue (is_file_synced (answered noted.new))) }
{
    system_calls::set_len(file, len, noted)?;
    system_calls::sync_all(file, noted)?;
    Ok(())
}

// Appends zeros to a file that is `old` bytes long, up to the new length, and syncs it.
fn lengthen(file: &File, old: u64, len: u64, noted: &mut SystemCallLog) -> Result<(), OpeningFault>
    requires longer { old < len }
    requires long { HasLen noted.old old len }
    ensures resized { IsResized result noted.old noted.new old len }
    ensures synced { IfOk result (λ _. IsTrue (is_file_synced (answered noted.new))) }
{
    write_zeros(file, old, len, noted)?;
    system_calls::sync_all(file, noted)?;
    Ok(())
}

// Writes zeros from the end of the file up to the new length.
fn write_zeros(
    file: &File,
    from: u64,
    to: u64,
    noted: &mut SystemCallLog,
) -> Result<(), OpeningFault>
    requires longer { from ≤ to }
    requires long { HasLen noted.old from to }
    ensures { IsResized result noted.old noted.new from to }
{
    let mut at = from;
    while at < to {
        let len = (to - at).min(ZEROS.len() as u64);
        let moved = write_some(file, &ZEROS[..len as usize], at, noted)?;
        at += moved as u64;
    }
    Ok(())
}

// Returns the number of sectors of a file with this length.
fn sectors_of(len: u64) -> Result<u64, FileFault>
    ensures whole { len % 512 ≡ 0 → result ≡ Ok (len / 512) }
    ensures other { len % 512 ≢ 0 → IsErrOf result FileFault.BadLength }
{
    if len % SECTOR == 0 {
        Ok(len / SECTOR)
    } else {
        Err(FileFault::BadLength)
    }
}

// Checks that the path leads to a plain file.
fn require_plain_file<R: Files>(
    rt: &R,
    path: &str,
    noted: &mut SystemCallLog,
) -> Result<(), OpeningFault>
    requires no_fault { first_failure (answered noted.old) ≡ None }
    ensures requested { IfOk result (λ _.
        noted.new ≡ (SystemCall.Find true, path.now) ∷ noted.old) }
    ensures reported { first_failure (answered noted.new) ≡ failure_reported result }
    ensures effects { effects_in (answered noted.new) ≡ effects_in (answered noted.old) }
    ensures len { len_after (answered noted.new) ≡ len_after (answered noted.old) }
{
    if !system_calls::find(rt, path, noted)? {
        return Err(OpeningFault::from(FileFault::NoFile));
    }
    Ok(())
}

// Like `require_plain_file`, but only if the file is to be opened for reading only. Opening another kind of
// file, for example a FIFO, could block.
fn require_plain_file_to_read<R: Files>(
    rt: &R,
    path: &str,
    access: Access,
    noted: &mut SystemCallLog,
) -> Result<(), OpeningFault>
    requires first { noted.old ≡ [] }
    ensures requested { IfOk result (λ _. noted.new ≡ finding_calls access path.now) }
    ensures reported { first_failure (answered noted.new) ≡ failure_reported result }
    ensures effects { effects_in (answered noted.new) ≡ no_effects }
    ensures len { len_after (answered noted.new) ≡ None }
    ensures found { IfErr result (λ _. access ≡ Access.Read) }
{
    match access {
        Access::Read => require_plain_file(rt, path, noted),
        Access::Write | Access::Create => Ok(()),
    }
}

/// Opens an existing file and returns its number of sectors.
pub fn open_existing_file<R: Files<File = File>>(
    rt: &R,
    path: &str,
    access: Access,
    noted: &mut SystemCallLog,
) -> Result<(File, u64), OpeningFault>
    requires first { noted.old ≡ [] }
    ensures offsets { IfOk result (λ taken. 512 * taken.1 < 2 ^ 64) }
    ensures taken { IfOk result (λ taken. IsOpened access path.now noted.new (512 * taken.1)) }
    ensures refused { IfErr result (λ refusal. IsNotOpened access path.now noted.new
        (failure_by refusal.fault refusal.cause)) }
{
    require_plain_file_to_read(rt, path, access, noted)?;
    let file = open_locked(rt, path, access, noted)?;
    let len = measure(&file, noted)?;
    let sectors = sectors_of(len)?;
    Ok((file, sectors))
}

/// Opens a file, creating it if there is none, takes its lock and sets its length. On success the length is
/// durable, and so is the name if the file system can sync folders.
pub fn create_file<R: Files<File = File>>(
    rt: &R,
    path: &str,
    len: u64,
    noted: &mut SystemCallLog,
) -> Result<File, OpeningFault>
    requires first { noted.old ≡ [] }
    ensures made { IfOk result (λ _. IsCreated path.now noted.new len) }
    ensures refused { IfErr result (λ refusal. IsNotCreated path.now noted.new len
        (failure_by refusal.fault refusal.cause)) }
{
    let file = open_locked(rt, path, Access::Create, noted)?;
    let old = measure(&file, noted)?;
    resize(&file, old, len, noted)?;
    sync_folder(rt, path, noted)?;
    Ok(file)
}

// Makes a new file's name durable, if the file system can sync folders.
fn sync_folder<R: Files<File = File>>(
    rt: &R,
    path: &str,
    noted: &mut SystemCallLog,
) -> Result<(), OpeningFault>
    requires no_fault { first_failure (answered noted.old) ≡ None }
    requires synced { IsTrue (is_file_synced (answered noted.old)) }
    ensures reported { first_failure (answered noted.new) ≡ failure_reported result }
    ensures only { OpensOnlyFolder path.now noted.old noted.new }
    ensures synced { IfOk result (λ _. IsTrue (is_synced (answered noted.new))) }
{
    system_calls::sync_folder_of(rt, path, noted)?;
    Ok(())
}
