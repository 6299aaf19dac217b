//! The record entry of a system call.
use std::io::ErrorKind;

/// The access with which a file is opened.
#[derive(Clone, Copy)]
pub enum Access {
    /// For reading an existing file; readers share the lock.
    Read,
    /// For reading and writing an existing file.
    Write,
    /// For reading and writing; creates the file if there is none.
    Create,
}

/// A system call, with its arguments and its answer. The bytes written, the buffer read into, or the path
/// opened are kept beside it.
#[derive(Clone, Copy)]
pub enum SystemCall {
    /// A check whether the path leads to a plain file.
    Find {
        is_file: bool,
    },
    FindFailed {
        kind: ErrorKind,
    },
    /// An opening of the file at a path.
    Open {
        access: Access,
        failed: Option<ErrorKind>,
    },
    /// A request for the file's lock, shared or not. It fails with `WouldBlock` if another process or device
    /// holds the lock.
    Lock {
        is_shared: bool,
        failed: Option<ErrorKind>,
    },
    /// A read of the file's metadata.
    Measure {
        is_file: bool,
        len: u64,
    },
    MeasureFailed {
        kind: ErrorKind,
    },
    /// A change of the file's length.
    SetLen {
        len: u64,
        failed: Option<ErrorKind>,
    },
    /// A read from this offset on, which moved `moved` bytes.
    ReadAt {
        offset: u64,
        moved: u64,
    },
    ReadAtFailed {
        offset: u64,
        kind: ErrorKind,
    },
    /// A write from this offset on, which moved `moved` bytes.
    WriteAt {
        offset: u64,
        moved: u64,
    },
    WriteAtFailed {
        offset: u64,
        kind: ErrorKind,
    },
    /// A sync of the file's bytes, and of the length if it is needed to read them.
    SyncData {
        failed: Option<ErrorKind>,
    },
    /// A sync of the file's bytes and all its metadata.
    SyncAll {
        failed: Option<ErrorKind>,
    },
    /// An opening of the folder at a path.
    OpenFolder {
        failed: Option<ErrorKind>,
    },
    SyncFolder {
        failed: Option<ErrorKind>,
    },
}
