//! Opens and creates the files of devices by path, and records each request.
ghost use Rattle.std.specs.Prelude.{◌≡◌, ◌≢◌, ◌*◌, ◌^◌, ◌<◌, ◌∷◌, [], List, IfOk, IfErr, MatchResult};
ghost use Rattle.file_disk.specs.DeviceFiles.{FileRequestEntry, AreCompared, is_same_file, IsOpenedExistingAt, IsOpenedReadOnlyAt, IsCreatedAt, IsNotOpenedExistingAt, IsNotOpenedReadOnlyAt, IsNotCreatedAt};
ghost use Rattle.file_disk.specs.FileDevice.{device_len};

use crate::{FileAssumptions, FileCalls, FileDevice, FileFault, HostFile, OpenError};
use ghost_values::{Ghost, ListOf};
use std::fs;
use std::fs::{File, Files};
use std::marker::Model;
use std::os::unix::fs::MetadataExt;

/// The identity of a file of the system: the device number of its file system, and its inode number there.
#[derive(Clone, Copy)]
pub struct FileIdentity {
    pub device: u64,
    pub number: u64,
}

/// A request for the file at a path.
#[derive(Clone, Copy)]
pub enum FileRequest {
    /// Open the existing file for reading and writing.
    OpenExisting,
    /// Open the existing file for reading only.
    OpenReadOnly,
    /// Open the file, and create it if there is none.
    Create,
    /// Identify the file, if there is one. The value is its identity, or `None`.
    Identify(Option<FileIdentity>),
}

/// An opener of devices over files by path. It records each request.
pub trait DeviceFiles {
    /// The requests so far, the newest first.
    ghost requested: { Self → List FileRequestEntry };

    /// Opens the existing file as a device, like `FileDevice::open`.
    fn open_existing<S: FileAssumptions>(
        &mut self,
        path: &str,
        start: S,
    ) -> Result<FileDevice<S>, OpenError>
        ensures noted { requested self.new ≡ (FileRequest.OpenExisting, path.now) ∷ requested self.old }
        ensures reported { MatchResult result
            (IsOpenedExistingAt ⟦<HostFile as FileCalls>⟧.entries path.now) (IsNotOpenedExistingAt path.now) };

    /// Opens the existing file as a device for reading only, like `FileDevice::open_read_only`.
    fn open_read_only<S: FileAssumptions>(
        &mut self,
        path: &str,
        start: S,
    ) -> Result<FileDevice<S>, OpenError>
        ensures noted { requested self.new ≡ (FileRequest.OpenReadOnly, path.now) ∷ requested self.old }
        ensures reported { MatchResult result
            (IsOpenedReadOnlyAt ⟦<HostFile as FileCalls>⟧.entries path.now) (IsNotOpenedReadOnlyAt path.now) };

    /// Creates a device over the file, like `FileDevice::create_with_cause`.
    fn create<S: FileAssumptions>(
        &mut self,
        path: &str,
        sectors: u64,
        start: S,
    ) -> Result<FileDevice<S>, OpenError>
        ensures noted { requested self.new ≡ (FileRequest.Create, path.now) ∷ requested self.old }
        ensures len { IfOk result (λ device. device_len device ≡ sectors) }
        ensures not_too_long { sectors < 2 ^ 54
            → IfErr result (λ refusal. refusal.fault ≢ FileFault.BadLength) }
        ensures reported { sectors < 2 ^ 54 → MatchResult result
            (IsCreatedAt ⟦<HostFile as FileCalls>⟧.entries path.now) (IsNotCreatedAt sectors path.now) };

    /// Returns whether both paths lead to the same file, through any links.
    fn is_same_file(&mut self, one: &str, other: &str) -> bool
        ensures { AreCompared one.now other.now result (requested self.old) (requested self.new) };
}

/// A ghost list of requests: only contracts read it.
#[derive(Drop)]
struct FileRequestLog {
    entries: Ghost<ListOf<(FileRequest, ListOf<u8>)>>,
}

impl Model for FileRequestLog {
    ghost use Rattle.std.specs.Prelude.{List};
    ghost use Rattle.file_disk.specs.DeviceFiles.{FileRequestEntry};

    ghost Value = { List FileRequestEntry };

    ghost view = { λ r. r.entries.value };
}

impl FileRequestLog {
    fn new() -> FileRequestLog
        ensures { result ≡ [] }
    {
        FileRequestLog {
            entries: Ghost::of(),
        }
    }

    fn note(&mut self, call: FileRequest, path: &[u8])
        ensures { self.new ≡ (call, path.now) ∷ self.old }
    {
        self.entries = self.entries.after((call, path));
    }
}

/// The files of the operating system, as `DeviceFiles`.
#[derive(Drop)]
pub struct HostDeviceFiles<'a, R> {
    rt: &'a R,
    noted: FileRequestLog,
}

impl<'a, R> HostDeviceFiles<'a, R> {
    /// Creates the value, with no requests recorded yet.
    pub fn new(rt: &'a R) -> HostDeviceFiles<'a, R>
        ensures { result.noted ≡ [] }
    {
        HostDeviceFiles {
            rt,
            noted: FileRequestLog::new(),
        }
    }
}

impl<'a, R: Files<File = File>> HostDeviceFiles<'a, R> {
    // Returns the identity of the file, if there is one.
    fn identify(&mut self, path: &str) -> Option<FileIdentity>
        ensures { self.new.noted ≡ (FileRequest.Identify result, path.now) ∷ self.old.noted }
    {
        let found = match fs::metadata(self.rt, path) {
            Ok(metadata) => Some(FileIdentity {
                device: metadata.dev(),
                number: metadata.ino(),
            }),
            Err(_) => None,
        };
        self.noted
            .note(FileRequest::Identify(found), path.as_bytes());
        found
    }
}

impl<'a, R: Files<File = File>> DeviceFiles for HostDeviceFiles<'a, R> {
    ghost requested = { λ d. d.noted };

    fn open_existing<S: FileAssumptions>(
        &mut self,
        path: &str,
        start: S,
    ) -> Result<FileDevice<S>, OpenError> {
        self.noted.note(FileRequest::OpenExisting, path.as_bytes());
        FileDevice::open(self.rt, path, start)
    }

    fn open_read_only<S: FileAssumptions>(
        &mut self,
        path: &str,
        start: S,
    ) -> Result<FileDevice<S>, OpenError> {
        self.noted.note(FileRequest::OpenReadOnly, path.as_bytes());
        FileDevice::open_read_only(self.rt, path, start)
    }

    fn create<S: FileAssumptions>(
        &mut self,
        path: &str,
        sectors: u64,
        start: S,
    ) -> Result<FileDevice<S>, OpenError> {
        self.noted.note(FileRequest::Create, path.as_bytes());
        FileDevice::create_with_cause(self.rt, path, sectors, start)
    }

    fn is_same_file(&mut self, one: &str, other: &str) -> bool {
        let one = self.identify(one);
        let other = self.identify(other);
        is_same_file(one, other)
    }
}

fn is_same_file(one: Option<FileIdentity>, other: Option<FileIdentity>) -> bool
    ensures { result ≡ is_same_file one other }
{
    match one {
        Some(one) => match other {
            Some(other) => one.device == other.device && one.number == other.number,
            None => false,
        },
        None => false,
    }
}
