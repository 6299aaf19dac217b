//! The program `planner`: plans routes for pickup and delivery and for capacitated routing, either in a store
//! that survives crashes or in one call, and audits plans.
//!
//! All its work is done by `planner_cli::run_args`. `main` passes it the arguments, the files and the standard
//! streams, and `UnknownFile`, which stands for something that no code can know: what a store's file holds when it
//! is opened. An argument that is not UTF-8 ends the program with status 64 and a message of our own, since the
//! arguments and paths of std, and the arguments of `clap`, are `str`.
//!
//! If a standard stream is closed, the system assigns its file descriptor to the next file that is opened. If
//! that were a store, printing would overwrite it. So `main` first reserves the descriptor of each closed
//! stream.
#![tactic(auto)]

use file_disk::{HostDeviceFiles, UnknownFile};
use planner_cli::{
    ErrorCapture, FailureTracking, HostFiles, HostNewFiles, Streams, command_args, report_causes,
    run_args, status,
};
use std::fs::File;
use std::io;
use std::io::ErrorKind;
use std::os::fd::{AsRawFd, RawFd};
use std::process::ExitCode;
use std::rt::Files;

/// The file descriptor of standard error: the standard streams have the descriptors from 0 to this one.
const LAST_STANDARD_FD: RawFd = 2;

fn main(rt: HostRuntime) -> ExitCode {
    // These files stay open until the program ends.
    let _stand_ins = match reserve_standard_fds(&rt) {
        Ok(reserve_standard_fds) => reserve_standard_fds,
        Err(error) => return ExitCode::from(open_failure_status(error.kind())),
    };
    let status = match command_args(&rt) {
        Ok(words) => status_of(&rt, words.as_slice()),
        Err(status) => status,
    };
    ExitCode::from(status)
}

// Executes the command line with the system's files and the standard streams.
fn status_of(rt: &HostRuntime, words: &[String]) -> u8 {
    let mut disks = HostDeviceFiles::new(rt);
    let mut files = HostFiles::new(rt);
    let mut new_files = HostNewFiles::new(rt);
    let streams = Streams {
        input: FailureTracking::new(ErrorCapture::new(rt.reader())),
        output: FailureTracking::new(ErrorCapture::new(io::writer(rt))),
        errors: rt.stderr(),
    };
    let (status, streams, left) = run_args(
        rt,
        UnknownFile,
        UnknownFile,
        &mut disks,
        &mut files,
        &mut new_files,
        streams,
        words,
    );
    // Closes the store files.
    drop(left);
    report_causes(rt, streams);
    status
}

// Opens the folder `/` once for each standard stream that is closed. It can be opened on every system, and can
// be neither written nor read.
fn reserve_standard_fds<R: Files<File = File> + AllocGlobal>(rt: &R) -> io::Result<Vec<File>> {
    let mut held = Vec::new(rt.alloc());
    for _ in 0..=LAST_STANDARD_FD {
        let file = File::open(rt, "/")?;
        if file.as_raw_fd() > LAST_STANDARD_FD {
            break;
        }
        held.push(file)?;
    }
    Ok(held)
}

// Returns the status if the system opened no folder or memory ran out.
fn open_failure_status(kind: ErrorKind) -> u8 {
    match kind {
        ErrorKind::OutOfMemory => status::OUT_OF_MEMORY,
        _ => status::FILE,
    }
}
