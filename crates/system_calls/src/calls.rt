//! The system calls on a file and its folder. Each free function here makes one of them, and adds the call with
//! its answer to a record that only contracts read. No contract says what a system does, so it is trusted that
//! each function makes the call that it records. Nothing else can record a call.
ghost use Rattle.std.specs.Prelude.{◌≡◌, ◌≤◌, ◌<◌, length, List, [], ◌∷◌, IfOk};
ghost use Rattle.std.specs.IoError.{error_kind};
ghost use Rattle.system_calls.specs.SystemCalls.{found, kind_in, measured, read_at_answer, write_at_answer, IsPart};

use crate::system_call::{Access, SystemCall};
use ghost_values::{Ghost, ListOf};
use std::fs::{File, Files, OpenOptions};
use std::io::ErrorKind;
use std::marker::Model;
use std::os::unix::fs::FileExt;
use std::{fs, io};

/// The system calls made for a file, the newest first, each with the bytes that were read or written, or with
/// the path that was opened.
#[derive(Drop)]
pub struct SystemCallLog {
    calls: Ghost<ListOf<(SystemCall, ListOf<u8>)>>,
}

impl Model for SystemCallLog {
    ghost use Rattle.std.specs.Prelude.{List};
    ghost use Rattle.system_calls.specs.SystemCalls.{RecordedCall};

    ghost Value = { List RecordedCall };

    ghost view = { λ r. r.calls.value };
}

impl SystemCallLog {
    pub fn new() -> SystemCallLog
        ensures { result ≡ [] }
    {
        SystemCallLog { calls: Ghost::of() }
    }

    fn note(&mut self, call: &SystemCall, bytes: &[u8])
        ensures { self.new ≡ (call.now, bytes.now) ∷ self.old }
    {
        self.calls = self.calls.after((call, bytes));
    }
}

/// The part of a file's metadata that is used.
#[derive(Clone, Copy)]
pub struct FileMetadata {
    pub is_file: bool,
    pub len: u64,
}

// Returns the kind of error, if the call failed.
fn kind_of<T>(answer: &io::Result<T>) -> Option<ErrorKind>
    ensures { result ≡ kind_in answer.now }
{
    match answer {
        Ok(_) => None,
        Err(error) => Some(error.kind()),
    }
}

/// Returns whether there is a plain file at the path.
pub fn find<R: Files>(rt: &R, path: &str, noted: &mut SystemCallLog) -> io::Result<bool>
    ensures { noted.new ≡ (found result, path.now) ∷ noted.old }
{
    match fs::metadata(rt, path) {
        Ok(metadata) => {
            let is_file = metadata.is_file();
            noted.note(&SystemCall::Find { is_file }, path.as_bytes());
            Ok(is_file)
        }
        Err(error) => {
            let kind = error.kind();
            noted.note(&SystemCall::FindFailed { kind }, path.as_bytes());
            Err(error)
        }
    }
}

/// Opens the file.
pub fn open<R: Files<File = File>>(
    rt: &R,
    path: &str,
    access: Access,
    noted: &mut SystemCallLog,
) -> io::Result<File>
    ensures { noted.new ≡ (SystemCall.Open access (kind_in result), path.now) ∷ noted.old }
{
    let opened = OpenOptions::new()
        .read(true)
        .write(!matches!(access, Access::Read))
        .create(matches!(access, Access::Create))
        .open(rt, path);
    let failed = kind_of(&opened);
    noted.note(&SystemCall::Open { access, failed }, path.as_bytes());
    opened
}

/// Takes the file's lock, shared or not. The error is `WouldBlock` if another process or device holds it.
pub fn lock(file: &File, is_shared: bool, noted: &mut SystemCallLog) -> io::Result<()>
    ensures { noted.new ≡ (SystemCall.Lock is_shared (kind_in result), []) ∷ noted.old }
{
    let locked = if is_shared {
        file.try_lock_shared()
    } else {
        file.try_lock()
    };
    let locked = locked.map_err(io::Error::from);
    let failed = kind_of(&locked);
    noted.note(&SystemCall::Lock { is_shared, failed }, &[]);
    locked
}

/// Reads the file's metadata.
pub fn measure(file: &File, noted: &mut SystemCallLog) -> io::Result<FileMetadata>
    ensures { noted.new ≡ (measured result, []) ∷ noted.old }
{
    match file.metadata() {
        Ok(metadata) => {
            let is_file = metadata.is_file();
            let len = metadata.len();
            noted.note(&SystemCall::Measure { is_file, len }, &[]);
            Ok(FileMetadata { is_file, len })
        }
        Err(error) => {
            let kind = error.kind();
            noted.note(&SystemCall::MeasureFailed { kind }, &[]);
            Err(error)
        }
    }
}

/// Sets the length of the file.
pub fn set_len(file: &File, len: u64, noted: &mut SystemCallLog) -> io::Result<()>
    ensures { noted.new ≡ (SystemCall.SetLen len (kind_in result), []) ∷ noted.old }
{
    let set = file.set_len(len);
    let failed = kind_of(&set);
    noted.note(&SystemCall::SetLen { len, failed }, &[]);
    set
}

// Returns the result of a read or write of `all` bytes. If it moved no byte, the result is an error of this
// kind.
fn nonzero_count(answer: io::Result<usize>, all: usize, kind: ErrorKind) -> io::Result<usize>
    ensures { IfOk answer (λ moved. moved ≤ all) → IfOk result (IsPart all) }
{
    match answer {
        Ok(0) if all > 0 => Err(io::Error::from(kind)),
        answer => answer,
    }
}

// Returns the record entry of a read from this offset on.
fn read_at_answer(offset: u64, answer: &io::Result<usize>) -> SystemCall
    ensures { result ≡ read_at_answer offset answer.now }
{
    match answer {
        Ok(moved) => SystemCall::ReadAt {
            offset,
            moved: *moved as u64,
        },
        Err(error) => SystemCall::ReadAtFailed {
            offset,
            kind: error.kind(),
        },
    }
}

// Returns the record entry of a write.
fn write_at_answer(offset: u64, answer: &io::Result<usize>) -> SystemCall
    ensures { result ≡ write_at_answer offset answer.now }
{
    match answer {
        Ok(moved) => SystemCall::WriteAt {
            offset,
            moved: *moved as u64,
        },
        Err(error) => SystemCall::WriteAtFailed {
            offset,
            kind: error.kind(),
        },
    }
}

/// Reads bytes from this offset on, possibly fewer than the buffer holds. If it reads none into a nonempty
/// buffer, the error is `UnexpectedEof`.
pub fn read_at(
    file: &File,
    into: &mut [u8],
    offset: u64,
    noted: &mut SystemCallLog,
) -> io::Result<usize>
    ensures noted { noted.new
        ≡ (read_at_answer offset result, into.new) ∷ noted.old }
    ensures moved { IfOk result (IsPart (length into.new)) }
{
    let answer = nonzero_count(
        file.read_at(into, offset),
        into.len(),
        ErrorKind::UnexpectedEof,
    );
    noted.note(&read_at_answer(offset, &answer), into);
    answer
}

/// Writes these bytes, or a prefix of them, from this offset on. If no byte is written, the error is
/// `WriteZero`.
pub fn write_at(
    file: &File,
    bytes: &[u8],
    offset: u64,
    noted: &mut SystemCallLog,
) -> io::Result<usize>
    ensures noted { noted.new
        ≡ (write_at_answer offset result, bytes.now) ∷ noted.old }
    ensures moved { IfOk result (IsPart (length bytes.now)) }
{
    let answer = nonzero_count(
        file.write_at(bytes, offset),
        bytes.len(),
        ErrorKind::WriteZero,
    );
    noted.note(&write_at_answer(offset, &answer), bytes);
    answer
}

/// Records a failed read for which no system call was made: it is impossible, or was interrupted too often.
pub fn log_failed_read(
    into: &[u8],
    offset: u64,
    kind: ErrorKind,
    noted: &mut SystemCallLog,
) -> io::Error
    ensures noted { noted.new
        ≡ (SystemCall.ReadAtFailed offset kind, into.now) ∷ noted.old }
    ensures kind { error_kind result ≡ kind }
{
    noted.note(&SystemCall::ReadAtFailed { offset, kind }, into);
    io::Error::from(kind)
}

/// Records a failed write for which no system call was made: it is impossible, or was interrupted too often.
pub fn log_failed_write(
    bytes: &[u8],
    offset: u64,
    kind: ErrorKind,
    noted: &mut SystemCallLog,
) -> io::Error
    ensures noted { noted.new
        ≡ (SystemCall.WriteAtFailed offset kind, bytes.now) ∷ noted.old }
    ensures kind { error_kind result ≡ kind }
{
    noted.note(&SystemCall::WriteAtFailed { offset, kind }, bytes);
    io::Error::from(kind)
}

/// Makes the file's bytes durable (fdatasync).
pub fn sync_data(file: &File, noted: &mut SystemCallLog) -> io::Result<()>
    ensures { noted.new ≡ (SystemCall.SyncData (kind_in result), []) ∷ noted.old }
{
    let synced = file.sync_data();
    let failed = kind_of(&synced);
    noted.note(&SystemCall::SyncData { failed }, &[]);
    synced
}

/// Makes the file's bytes and metadata durable (fsync).
pub fn sync_all(file: &File, noted: &mut SystemCallLog) -> io::Result<()>
    ensures { noted.new ≡ (SystemCall.SyncAll (kind_in result), []) ∷ noted.old }
{
    let synced = file.sync_all();
    let failed = kind_of(&synced);
    noted.note(&SystemCall::SyncAll { failed }, &[]);
    synced
}

/// Opens a folder.
pub fn open_folder<R: Files<File = File>>(
    rt: &R,
    path: &str,
    noted: &mut SystemCallLog,
) -> io::Result<File>
    ensures { noted.new ≡ (SystemCall.OpenFolder (kind_in result), path.now) ∷ noted.old }
{
    let opened = File::open(rt, path);
    let failed = kind_of(&opened);
    noted.note(&SystemCall::OpenFolder { failed }, path.as_bytes());
    opened
}

/// Makes the names in a folder durable.
pub fn sync_folder(folder: &File, noted: &mut SystemCallLog) -> io::Result<()>
    ensures { noted.new ≡ (SystemCall.SyncFolder (kind_in result), []) ∷ noted.old }
{
    let synced = folder.sync_all();
    let failed = kind_of(&synced);
    noted.note(&SystemCall::SyncFolder { failed }, &[]);
    synced
}
