//! Makes the name of a file durable, by a sync of the file's folder.
ghost use Rattle.std.specs.Prelude.{◌≡◌, Some};
ghost use Rattle.std.specs.IoError.{error_kind};
ghost use Rattle.system_calls.specs.FolderSync.{IsFolderSynced, folder_error, folder_of, folder_or_here};
ghost use Rattle.system_calls.specs.SystemCalls.{kind_in};

use crate::calls::{SystemCallLog, open_folder, sync_folder};
use std::fs::{File, Files};
use std::io;
use std::io::ErrorKind;
use std::path::Path;

/// Syncs the folder of the file at `path`, so that the file's name is durable. Succeeds too if the file system
/// can't sync folders.
pub fn sync_folder_of<R: Files<File = File>>(
    rt: &R,
    path: &str,
    log: &mut SystemCallLog,
) -> io::Result<()>
    ensures { IsFolderSynced (folder_of path.now) (kind_in result) log.old log.new }
{
    let folder = open_folder(rt, folder_of(path), log)?;
    match sync_folder(&folder, log) {
        Ok(()) => Ok(()),
        Err(error) => folder_sync_result(error),
    }
}

// Returns the folder of the file at a path.
fn folder_of(path: &str) -> &str
    ensures { result.now ≡ folder_of path.now }
{
    match Path::new(path).parent() {
        Some(parent) => folder_or_here(parent.as_str()),
        None => ".",
    }
}

fn folder_or_here(folder: &str) -> &str
    ensures { result.now ≡ folder_or_here (Some folder.now) }
{
    if folder.is_empty() { "." } else { folder }
}

// Returns the result of a failed folder sync: `Ok` if the file system can't sync folders.
fn folder_sync_result(error: io::Error) -> io::Result<()>
    ensures { kind_in result ≡ folder_error (Some (error_kind error)) }
{
    match error.kind() {
        ErrorKind::InvalidInput => Ok(()),
        _ => Err(error),
    }
}
