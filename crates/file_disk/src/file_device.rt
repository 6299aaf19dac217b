//! A device over a plain file. No contract says what a file answers. The answers are kept in a record, and the
//! device is honest if they are the model's. So a theorem about honest devices reads for a file: if the file
//! has answered as the model says, then ..
//!
//! - A failed write may have reached any of its sectors. After a failed write or sync, reads may return any one
//!   possible image.
//! - If `calls` has reached 2^64-1, a write or sync does not call the file, and so is not in the record.
//! - A device holds its file's lock until it is dropped (`opened_file`), so two devices never share a file.
//! - `create` syncs the file's folder too, so that a new file survives a power loss. If the file system can't
//!   sync folders, `create` continues. No clause of `create` says which images a crash may leave.
//! - After a failed call, `cause` returns the system's error. No clause constrains it. After a failed opening,
//!   it is the error of the first call that failed.
ghost use Rattle.std.specs.Prelude.{◌≡◌, ◌+◌, ◌-◌, ◌*◌, ◌%◌, ◌^◌, ◌<◌, ◌≤◌, ◌↔◌, [], List, ℕ, length, take, drop, OnOk, OnErr, IfOk, IfErr, IsErr, IsErrAnd, IsErrOf, IsTrue, min, ◌≢◌, MatchResult, Some};
ghost use Rattle.file_disk.specs.FileRecord.{all_inside};
ghost use Rattle.file_disk.specs.Opening.{failure_by, IsOpened, IsNotOpened, IsOpenedExisting, IsNotOpenedExisting, IsOpenedReadOnly, IsNotOpenedReadOnly, IsCreated, IsNotCreated};

use crate::FileAssumptions;
use crate::file_calls::{FileCalls, HostFile, SECTOR};
use crate::opened_file::{OpeningFault, create_file, open_existing_file};
use sector_disk::{DeviceFault, Sectors};
use std::fs::{File, Files};
use std::io;
use std::marker::PhantomData;
use system_calls::{Access, SystemCallLog};

/// The reason why a file is not opened as a device.
#[derive(Clone, Copy, Debug, PartialEq, Eq)]
pub enum FileFault {
    /// The path does not lead to a plain file that can be opened in the requested way.
    NoFile,
    /// The length is not a whole number of sectors, or no file can be that long.
    BadLength,
    /// The system reported that it has no memory.
    OutOfMemory,
    /// Another process, or another device of this process, holds a lock that excludes this one.
    InUse,
}

/// A failed opening: the fault, and the system's error if a system call failed.
#[derive(Drop)]
pub struct OpenError {
    pub fault: FileFault,
    pub cause: Option<io::Error>,
    noted: SystemCallLog,
}

impl OpenError {
    // Returns the error of an opening that failed for this reason after these calls.
    fn new(refusal: OpeningFault, noted: SystemCallLog) -> OpenError
        ensures fault { result.fault ≡ refusal.fault }
        ensures cause { result.cause ≡ refusal.cause }
        ensures noted { result.noted ≡ noted }
    {
        OpenError {
            fault: refusal.fault,
            cause: refusal.cause,
            noted,
        }
    }
}

/// The largest number of sectors, since a file's length is below 2^63.
const MAX_SECTORS: u64 = (1 << 54) - 1;

/// A device over a plain file. It reads and writes at offsets. A sync of the device is a sync of the file.
#[derive(Drop)]
pub struct FileDevice<S: FileAssumptions, F: FileCalls = HostFile> {
    file: F,
    start: PhantomData<S>,
    sectors: u64,
    calls: u64,
    faults: u64,
    cause: Option<io::Error>,
    ghost offsets: { 512 * sectors < 2 ^ 64 },
    ghost inside: { IsTrue (all_inside (512 * sectors) (F.FileCalls.entries file)) },
}

impl<S: FileAssumptions, F: FileCalls> FileDevice<S, F> {
    ghost use Rattle.file_disk.specs.FileDevice.{device_len, IsUnused, HasFailed};

    // Returns a device over a file with this many sectors and no calls yet.
    fn over(file: F, sectors: u64) -> FileDevice<S, F>
        requires new { F.FileCalls.entries file ≡ [] }
        requires offsets { 512 * sectors < 2 ^ 64 }
        ensures unused { IsUnused F.FileCalls.entries result }
        ensures len { device_len result ≡ sectors }
        ensures file { result.file ≡ file }
    {
        FileDevice {
            file,
            start: PhantomData,
            sectors,
            calls: 0,
            faults: 0,
            cause: None,
        }
    }

    // Fails the call, and keeps the system's error if there is one.
    fn fail(&mut self, cause: Option<io::Error>) -> Result<(), DeviceFault>
        ensures fails { IsErr result }
        ensures left { HasFailed cause self.old self.new }
    {
        self.faults = self.faults.saturating_add(1);
        self.cause = cause;
        Err(DeviceFault)
    }

    /// Returns the system's error for the last failed call. Returns `None` if no call has failed, or if the
    /// call failed because `calls` has reached 2^64-1.
    pub fn cause(&self) -> Option<io::Error>
        ensures { result ≡ self.now.cause }
    {
        self.cause
    }
}

impl<S: FileAssumptions> FileDevice<S> {
    ghost use Rattle.file_disk.specs.FileDevice.{calls_of_open_error, device_len, IsUnused, opening};

    /// Opens the file at `path`, creates it if there is none, and sets its length to this many sectors. Sectors
    /// that are cut off are lost, new ones are zeros. On success the length is durable, and so is the name if
    /// the file system can sync folders.
    pub fn create<R: Files<File = File>>(
        rt: &R,
        path: &str,
        sectors: u64,
        start: S,
    ) -> Result<FileDevice<S>, FileFault>
        ensures unused { IfOk result (IsUnused ⟦<HostFile as FileCalls>⟧.entries) }
        ensures len { IfOk result (λ device. device_len device ≡ sectors) }
        ensures too_long { IsErrOf result FileFault.BadLength ↔ (2 ^ 54 ≤ sectors) }
        ensures made { IfOk result (λ device.
            IsCreated path.now (opening device.file) (512 * sectors)) }
    {
        match FileDevice::create_with_cause(rt, path, sectors, start) {
            Ok(device) => Ok(device),
            Err(refusal) => Err(refusal.fault),
        }
    }

    /// Like `create`, but returns the system's error with a fault.
    pub fn create_with_cause<R: Files<File = File>>(
        rt: &R,
        path: &str,
        sectors: u64,
        _start: S,
    ) -> Result<FileDevice<S>, OpenError>
        ensures unused { IfOk result (IsUnused ⟦<HostFile as FileCalls>⟧.entries) }
        ensures len { IfOk result (λ device. device_len device ≡ sectors) }
        ensures too_long { 2 ^ 54 ≤ sectors
            → IsErrAnd result (λ refusal. refusal.fault ≡ FileFault.BadLength) }
        ensures not_too_long { sectors < 2 ^ 54
            → IfErr result (λ refusal. refusal.fault ≢ FileFault.BadLength) }
        ensures reported { MatchResult result
            (λ device. IsCreated path.now (opening device.file) (512 * sectors))
            (λ refusal. sectors < 2 ^ 54
            → IsNotCreated path.now (calls_of_open_error refusal) (512 * sectors)
            (failure_by refusal.fault refusal.cause)) }
    {
        let mut noted = SystemCallLog::new();
        if sectors > MAX_SECTORS {
            let refusal = OpeningFault::from(FileFault::BadLength);
            return Err(OpenError::new(refusal, noted));
        }
        match create_file(rt, path, sectors * SECTOR, &mut noted) {
            Ok(file) => Ok(FileDevice::over(HostFile::new(file, noted), sectors)),
            Err(refusal) => Err(OpenError::new(refusal, noted)),
        }
    }

    /// Opens the existing file at `path` for reading and writing.
    pub fn at<R: Files<File = File>>(
        rt: &R,
        path: &str,
        start: S,
    ) -> Result<FileDevice<S>, FileFault>
        ensures unused { IfOk result (IsUnused ⟦<HostFile as FileCalls>⟧.entries) }
        ensures taken { IfOk result (λ device.
            IsOpenedExisting path.now (opening device.file) (512 * device_len device)) }
    {
        match FileDevice::open(rt, path, start) {
            Ok(device) => Ok(device),
            Err(refusal) => Err(refusal.fault),
        }
    }

    /// Like `at`, but returns the system's error with a fault.
    pub fn open<R: Files<File = File>>(
        rt: &R,
        path: &str,
        _start: S,
    ) -> Result<FileDevice<S>, OpenError>
        ensures unused { IfOk result (IsUnused ⟦<HostFile as FileCalls>⟧.entries) }
        ensures reported { MatchResult result
            (λ device. IsOpenedExisting path.now (opening device.file) (512 * device_len device))
            (λ refusal. IsNotOpenedExisting path.now (calls_of_open_error refusal)
            (failure_by refusal.fault refusal.cause)) }
    {
        FileDevice::open_existing(rt, path, Access::Write)
    }

    /// Opens the existing file at `path` for reading only, so the file may be write-protected. Other readers
    /// may open it at the same time. Returns the system's error with a fault. A write of the device fails.
    pub fn open_read_only<R: Files<File = File>>(
        rt: &R,
        path: &str,
        _start: S,
    ) -> Result<FileDevice<S>, OpenError>
        ensures unused { IfOk result (IsUnused ⟦<HostFile as FileCalls>⟧.entries) }
        ensures reported { MatchResult result
            (λ device. IsOpenedReadOnly path.now (opening device.file) (512 * device_len device))
            (λ refusal. IsNotOpenedReadOnly path.now (calls_of_open_error refusal)
            (failure_by refusal.fault refusal.cause)) }
    {
        FileDevice::open_existing(rt, path, Access::Read)
    }

    // Opens the existing file as a device.
    fn open_existing<R: Files<File = File>>(
        rt: &R,
        path: &str,
        access: Access,
    ) -> Result<FileDevice<S>, OpenError>
        ensures unused { IfOk result (IsUnused ⟦<HostFile as FileCalls>⟧.entries) }
        ensures reported { MatchResult result
            (λ device. IsOpened access path.now (opening device.file) (512 * device_len device))
            (λ refusal. IsNotOpened access path.now (calls_of_open_error refusal)
            (failure_by refusal.fault refusal.cause)) }
    {
        let mut noted = SystemCallLog::new();
        match open_existing_file(rt, path, access, &mut noted) {
            Ok((file, sectors)) => Ok(FileDevice::over(HostFile::new(file, noted), sectors)),
            Err(refusal) => Err(OpenError::new(refusal, noted)),
        }
    }
}

impl<S: FileAssumptions, F: FileCalls> Sectors for FileDevice<S, F> {
    ghost use Rattle.sector_disk.specs.History.{seen_in, MayLeaveIn, clock_in, MayHaveLeftIn};
    ghost use Rattle.file_disk.specs.FileRecord.{AnswersAsModel};
    ghost use Rattle.file_disk.specs.FileDevice.{device_len, device_calls, device_faults, history_of};

    ghost len = { device_len };

    ghost calls = { device_calls };

    ghost faults = { device_faults };

    ghost honest = { λ d. AnswersAsModel d.sectors S.FileAssumptions.disk S.FileAssumptions.shown
        (F.FileCalls.entries d.file) };

    ghost seen = { λ d. seen_in (history_of S.FileAssumptions.disk S.FileAssumptions.shown F.FileCalls.entries d) };

    ghost possible = { λ d. MayLeaveIn
        (history_of S.FileAssumptions.disk S.FileAssumptions.shown F.FileCalls.entries d) };

    ghost clock = { λ d. clock_in (history_of S.FileAssumptions.disk S.FileAssumptions.shown F.FileCalls.entries d) };

    ghost possible_since = { λ d.
        MayHaveLeftIn (history_of S.FileAssumptions.disk S.FileAssumptions.shown F.FileCalls.entries d) };

    fn len(&self) -> u64 {
        self.sectors
    }

    fn calls(&self) -> u64 {
        self.calls
    }

    fn faults(&self) -> u64 {
        self.faults
    }

    fn read(&mut self, first: u64, into: &mut [u8]) -> Result<(), DeviceFault> {
        if let Err(error) = self.file.read(first, into) {
            return self.fail(Some(error));
        }
        Ok(())
    }

    fn write(&mut self, first: u64, bytes: &[u8]) -> Result<(), DeviceFault> {
        if self.calls == u64::MAX {
            return self.fail(None);
        }
        if let Err(error) = self.file.write(first, bytes) {
            return self.fail(Some(error));
        }
        self.calls += 1;
        Ok(())
    }

    fn sync(&mut self) -> Result<(), DeviceFault> {
        if self.calls == u64::MAX {
            return self.fail(None);
        }
        if let Err(error) = self.file.sync() {
            return self.fail(Some(error));
        }
        self.calls += 1;
        Ok(())
    }

    ghost use Rattle.sector_disk.specs.HistoryLaws.{history_counts_now, history_only_now, history_since_earlier};
    ghost use Rattle.file_disk.specs.FileLaws.{file_reads_possible};

    ghost reads_possible = { λ d honest.
        file_reads_possible d.sectors S.FileAssumptions.disk S.FileAssumptions.shown
        (F.FileCalls.entries d.file) honest d.inside };

    ghost image_size = { λ d image _ is_image. is_image.size };

    ghost counts_now = { λ d t image _ le is_image.
        history_counts_now (history_of S.FileAssumptions.disk S.FileAssumptions.shown F.FileCalls.entries d) t image le
        is_image };

    ghost only_now = { λ d m image _ left.
        history_only_now (history_of S.FileAssumptions.disk S.FileAssumptions.shown F.FileCalls.entries d) m
        image left };

    ghost since_earlier = { λ d t u m image _ le left.
        history_since_earlier (history_of S.FileAssumptions.disk S.FileAssumptions.shown F.FileCalls.entries d) t u m
        image le left };
}
