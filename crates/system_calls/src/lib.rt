//! System calls on files and folders, each recorded with its answer for the contracts.
//!
//! Modules, in reading order:
//! - `system_call`: the record entry of a call
//! - `calls`: one function for each system call, which makes the call and records it
//! - `retries`: repeats a call that a signal interrupts
//! - `folder_sync`: makes the name of a file durable
//!
//! Proved: each function of `calls` adds one entry to the record; `retry` repeats a call only while it is
//! interrupted, and returns the answer of its last attempt; `sync_folder_of` opens and syncs the folder that the
//! path names, and returns the error of the call that failed.
//!
//! Trusted, since no proof shows it: each function of `calls` makes exactly the call that it records.
#![tactic(auto)]

mod calls;
mod folder_sync;
mod retries;
mod system_call;

pub use calls::{
    FileMetadata, SystemCallLog, find, lock, log_failed_read, log_failed_write, measure, open,
    read_at, set_len, sync_all, sync_data, write_at,
};
pub use folder_sync::sync_folder_of;
pub use retries::{is_interruption, retry};
pub use system_call::{Access, SystemCall};
