//! A device over a plain file. Each system call is recorded, together with its answer, for the contracts
//! (`system_calls`).
//!
//! Only programs use this crate: the crates of the store are generic over the trait `Sectors` of `sector_disk`.
//!
//! Modules, in reading order:
//! - `file_device`: a device over a plain file
//! - `opened_file`: opens that file: takes its lock first, then reads or sets its length
//! - `device_files`: opens and creates files by path, and records each request
//! - `file_calls`, `transfers`: the file's reads, writes and syncs; system calls are repeated until all bytes
//!   are moved
//! - `file_assumptions`: the assumptions about a file when it is opened
//! - `laws`: the meaning of the record of a file
//!
//! Proved: a `FileDevice` is honest if its file has answered as the model says, and then it satisfies each
//! clause of `Sectors`. A write is finished only if its system calls moved all of its bytes in order. An
//! interrupted call is repeated, and a failed sync stays failed. An opening takes the file's lock before it
//! reads or sets the length, and its result follows from its system calls.
//!
//! Trusted, since no proof shows it: a system call is made as it is recorded; the system keeps a lock; nobody
//! writes the file without taking its lock; the next opening finds an image that the model allows.
#![tactic(auto)]

mod device_files;
mod file_assumptions;
mod file_calls;
mod file_device;
mod laws;
mod opened_file;
mod transfers;

pub use device_files::{DeviceFiles, FileIdentity, FileRequest, HostDeviceFiles};
pub use file_assumptions::{FileAssumptions, UnknownFile};
pub use file_calls::{FileCalls, HostFile};
pub use file_device::{FileDevice, FileFault, OpenError};
pub use laws::{a_file_behaves_as_a_device_in_memory, a_file_can_stay_honest};
