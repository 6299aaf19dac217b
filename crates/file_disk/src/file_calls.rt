//! The calls of a file. A file keeps a record of its reads, writes and syncs with their answers, whatever the
//! answers are. A `HostFile` keeps the system calls themselves, and its record is derived from them.
//!
//! A sync is the file's `sync_data` (fdatasync), which does not write the file's times. The length never
//! changes after `create`, which uses `sync_all`. SQLite does the same by default.
ghost use Rattle.std.specs.Prelude.{◌≡◌, ◌+◌, ◌*◌, ◌^◌, ◌<◌, List, [], ◌∷◌, length, is_ok, None};
ghost use Rattle.file_disk.specs.FileRecord.{Entry};
ghost use Rattle.file_disk.specs.FileCalls.{read_entry, write_entry, sync_entry};
ghost use Rattle.system_calls.specs.SystemCalls.{RecordedCall};
ghost use Rattle.file_disk.specs.Transfers.{transfers_by};

use crate::transfers::{read_whole, write_whole};
use sector_disk::SECTOR_SIZE;
use std::fs::File;
use std::io;
use system_calls::SystemCallLog;

pub const SECTOR: u64 = SECTOR_SIZE as u64;

/// An open file of whole sectors.
pub trait FileCalls {
    /// The calls so far with their answers, the newest first.
    ghost entries: { Self → List Entry };

    fn read(&mut self, first: u64, into: &mut [u8]) -> io::Result<()>
        requires { 512 * first < 2 ^ 64 }
        ensures { entries self.new ≡ read_entry (is_ok result) first into.new ∷ entries self.old };

    fn write(&mut self, first: u64, bytes: &[u8]) -> io::Result<()>
        requires { 512 * first < 2 ^ 64 }
        ensures { entries self.new ≡ write_entry (is_ok result) first bytes.now
            ∷ entries self.old };

    fn sync(&mut self) -> io::Result<()>
        ensures { entries self.new ≡ sync_entry (is_ok result) ∷ entries self.old };
}

/// An open file of the system, with the system calls of its opening and those since.
#[derive(Drop)]
pub struct HostFile {
    file: File,
    opening: SystemCallLog,
    noted: SystemCallLog,
    ghost settled: { (transfers_by noted).ongoing ≡ None },
}

impl HostFile {
    pub(crate) fn new(file: File, opening: SystemCallLog) -> HostFile
        ensures unused { result.noted ≡ [] }
        ensures opening { result.opening ≡ opening }
    {
        HostFile {
            file,
            opening,
            noted: SystemCallLog::new(),
        }
    }
}

impl FileCalls for HostFile {
    ghost entries = { λ f. (transfers_by f.noted).entries };

    fn read(&mut self, first: u64, into: &mut [u8]) -> io::Result<()> {
        read_whole(&self.file, into, first, &mut self.noted)
    }

    fn write(&mut self, first: u64, bytes: &[u8]) -> io::Result<()> {
        write_whole(&self.file, bytes, first, &mut self.noted)
    }

    fn sync(&mut self) -> io::Result<()> {
        system_calls::sync_data(&self.file, &mut self.noted)
    }
}
