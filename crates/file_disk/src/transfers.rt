//! Reads and writes of whole buffers. If a system call moves only a part, another one moves the rest. A system
//! call that a signal interrupts is repeated.
ghost use Rattle.std.specs.Prelude.{◌≡◌, ◌≤◌, ◌<◌, ◌*◌, ◌^◌, length, ◌∷◌, IfOk, IsErr, None, is_ok};
ghost use Rattle.system_calls.specs.SystemCalls.{read_at_answer, write_at_answer, answered, IsPart};
ghost use Rattle.file_disk.specs.FileCalls.{read_entry, write_entry};
ghost use Rattle.file_disk.specs.Transfers.{transfers_by, transfers_in, advanced, failed, Reads, Writes};

use crate::file_calls::SECTOR;
use std::fs::File;
use std::io;
use std::io::ErrorKind;
use system_calls::{SystemCallLog, retry};

/// Writes these bytes, or a prefix of them, from this offset on.
pub fn write_some(
    file: &File,
    bytes: &[u8],
    offset: u64,
    noted: &mut SystemCallLog,
) -> io::Result<usize>
    ensures noted { answered noted.new
        ≡ (write_at_answer offset result, bytes.now) ∷ answered noted.old }
    ensures moved { IfOk result (IsPart (length bytes.now)) }
{
    let mut call = || system_calls::write_at(file, bytes, offset, noted);
    match retry(&mut call) {
        Some(answer) => answer,
        None => { Err(system_calls::log_failed_write(bytes, offset, ErrorKind::TimedOut, noted)) }
    }
}

/// Writes all of these bytes, beginning at this sector.
pub fn write_whole(
    file: &File,
    bytes: &[u8],
    first: u64,
    noted: &mut SystemCallLog,
) -> io::Result<()>
    requires offset { 512 * first < 2 ^ 64 }
    requires settled { (transfers_by noted.old).ongoing ≡ None }
    ensures entries { (transfers_by noted.new).entries
        ≡ write_entry (is_ok result) first bytes.now ∷ (transfers_by noted.old).entries }
    ensures settled { (transfers_by noted.new).ongoing ≡ None }
{
    let start = first * SECTOR;
    if start.checked_add(bytes.len() as u64).is_none() {
        let error = system_calls::log_failed_write(bytes, start, ErrorKind::FileTooLarge, noted);
        return Err(error);
    }
    let mut at = write_some(file, bytes, start, noted)?;
    while at < bytes.len() {
        at += write_some(file, &bytes[at..], start + at as u64, noted)?;
    }
    Ok(())
}

/// Reads bytes from this offset on, possibly fewer than the buffer holds.
fn read_some(
    file: &File,
    into: &mut [u8],
    offset: u64,
    noted: &mut SystemCallLog,
) -> io::Result<usize>
    ensures noted { answered noted.new
        ≡ (read_at_answer offset result, into.new) ∷ answered noted.old }
    ensures moved { IfOk result (IsPart (length into.new)) }
{
    let mut call = || system_calls::read_at(file, into, offset, noted);
    match retry(&mut call) {
        Some(answer) => answer,
        None => { Err(system_calls::log_failed_read(into, offset, ErrorKind::TimedOut, noted)) }
    }
}

/// Fills the buffer, reading from this sector on.
pub fn read_whole(
    file: &File,
    into: &mut [u8],
    first: u64,
    noted: &mut SystemCallLog,
) -> io::Result<()>
    requires offset { 512 * first < 2 ^ 64 }
    requires settled { (transfers_by noted.old).ongoing ≡ None }
    ensures entries { (transfers_by noted.new).entries
        ≡ read_entry (is_ok result) first into.new ∷ (transfers_by noted.old).entries }
    ensures settled { (transfers_by noted.new).ongoing ≡ None }
{
    let start = first * SECTOR;
    if start.checked_add(into.len() as u64).is_none() {
        let error = system_calls::log_failed_read(into, start, ErrorKind::FileTooLarge, noted);
        return Err(error);
    }
    let mut at = read_some(file, into, start, noted)?;
    while at < into.len() {
        at += read_some(file, &mut into[at..], start + at as u64, noted)?;
    }
    Ok(())
}
