//! The prefix of a device: its headers and records.
ghost use Rattle.std.specs.Prelude.{◌≡◌, ◌≢◌, ◌+◌, ◌*◌, ◌%◌, ◌<◌, ◌≤◌, ◌^◌, ◌↔◌, ℕ, List, length, take, OnOk, OnErr, IfOk, IfErr, IfSome, IsTrue, MatchOption, MatchResult, Some, None};
ghost use Rattle.sector_disk.specs.Image.{sector};
ghost use Rattle.checkpoint.specs.Headers.{HasOtherVersion};
ghost use Rattle.checkpoint.specs.Layouts.{journal_room, prefix_sectors, min_sectors};
ghost use Rattle.checkpoint.specs.Stores.{IsValid, IsCurrentHeader};
ghost use Rattle.checkpoint.specs.Reads.{IsImagePrefix, FitsLayout, IsAllowed, IsOfParity, HasRecords, IsClearFrom, HasStrayFrom};
ghost use Rattle.checkpoint.specs.InvalidImages.{HasNoHeader, IsHeaderFault};
ghost use Rattle.command_types.specs.declared.commands.Command.{Command};
ghost use Rattle.state_codec.specs.Bytes.{record_bytes};
ghost use Rattle.state_codec.specs.Limits.{IsRecorded};
ghost use Rattle.checkpoint.specs.declared.headers.Header.{Header};

use crate::faults::StoreFault;
use crate::headers::{Header, MAGIC, header_in};
use crate::layouts::{LAST_SEQUENCE, Layout, RECORDS, sectors_in};
use byteorder::{BigEndian, ByteOrder};
use command_types::Command;
use sector_disk::SECTOR_SIZE;
use state_codec::version::Version;
use state_codec::{decode_record, decode_record_v1};
use std::alloc::{AllocError, Global};

/// Returns the sector with this index in the prefix of a device.
pub(crate) fn sector_at(prefix: &[u8], i: usize) -> [u8; SECTOR_SIZE]
    requires { 512 * i + 512 ≤ length prefix.now }
    ensures { result ≡ sector i prefix.now }
{
    let mut sector = [0; SECTOR_SIZE];
    sector.copy_from_slice(&prefix[i * SECTOR_SIZE..(i + 1) * SECTOR_SIZE]);
    sector
}

// Returns whether a header is allowed in this sector of a device with `sectors` sectors.
fn is_allowed(layout: Layout, sectors: u64, header: Header, index: u64) -> bool
    ensures { IsTrue result ↔ IsAllowed layout sectors header index }
{
    if sectors < sectors_in(layout) || header.sequence % 2 != index {
        return false;
    }
    if header.sequence < 1 || LAST_SEQUENCE < header.sequence {
        return false;
    }
    1 <= header.length && header.length <= 512 * u64::from(layout.half)
}

/// Returns the valid header in one of the first two sectors, if there is one.
pub(crate) fn valid_header(
    layout: Layout,
    sectors: u64,
    prefix: &[u8],
    index: usize,
) -> Option<Header>
    requires prefix { length prefix.now ≡ 512 * prefix_sectors }
    requires index { index < 2 }
    ensures fits { IfSome result (FitsLayout layout sectors) }
    ensures valid { (image : List ℕ) → IsImagePrefix sectors prefix.now image
        → IsOfParity layout image index result }
{
    match header_in(layout.version, &sector_at(prefix, index)) {
        Some(header) => {
            if is_allowed(layout, sectors, header, index as u64) {
                Some(header)
            } else {
                None
            }
        }
        None => None,
    }
}

// Returns whether a sector has the magic and a version other than `version`.
fn is_of_other_version(version: u32, sector: &[u8; SECTOR_SIZE]) -> bool
    ensures { IsTrue result ↔ HasOtherVersion version sector.now }
{
    &sector[..8] == MAGIC.as_slice() && &sector[8..12] != version.to_be_bytes().as_slice()
}

// Returns the fault of a device without a valid header.
fn missing_header_fault(layout: Layout, prefix: &[u8]) -> StoreFault
    requires prefix { length prefix.now ≡ 512 * prefix_sectors }
    ensures kind { IsHeaderFault result }
    ensures reported { (sectors : ℕ) (image : List ℕ) → min_sectors ≤ sectors
        → IsImagePrefix sectors prefix.now image
        → ((header : Header) → ¬ IsValid layout image header) → HasNoHeader layout image result }
{
    if is_of_other_version(layout.version, &sector_at(prefix, 0)) {
        return StoreFault::BadVersion;
    }
    if is_of_other_version(layout.version, &sector_at(prefix, 1)) {
        return StoreFault::BadVersion;
    }
    StoreFault::NotFormatted
}

/// Returns the current header of a device with `sectors` sectors: the valid one with the greatest sequence.
pub(crate) fn current_header(
    layout: Layout,
    sectors: u64,
    prefix: &[u8],
) -> Result<Header, StoreFault>
    requires prefix { length prefix.now ≡ 512 * prefix_sectors }
    requires room { min_sectors ≤ sectors }
    ensures kind { IfErr result IsHeaderFault }
    ensures fits { IfOk result (FitsLayout layout sectors) }
    ensures found { (image : List ℕ) → IsImagePrefix sectors prefix.now image
        → MatchResult result (λ header. IsCurrentHeader layout image header)
        (λ fault. HasNoHeader layout image fault) }
{
    let first = valid_header(layout, sectors, prefix, 0);
    let second = valid_header(layout, sectors, prefix, 1);
    match first {
        Some(first) => match second {
            Some(second) => {
                if first.sequence < second.sequence {
                    Ok(second)
                } else {
                    Ok(first)
                }
            }
            None => Ok(first),
        },
        None => match second {
            Some(second) => Ok(second),
            None => Err(missing_header_fault(layout, prefix)),
        },
    }
}

/// Returns the command that this sector records under this sequence and index, if there is one.
pub(crate) fn command_in(
    version: Version,
    sector: &[u8; SECTOR_SIZE],
    sequence: u64,
    index: u32,
) -> Option<Command>
    ensures { MatchOption result ((command : Command) → IsRecorded version command
        → sector.now ≢ record_bytes version sequence index command)
        (λ command. IsRecorded version command
        × (sector.now ≡ record_bytes version sequence index command)) }
{
    match version {
        Version::One => decode_record_v1(sector, sequence, index),
        Version::Two => decode_record(sector, sequence, index),
    }
}

/// Returns the commands of the records of a sequence, up to the first sector that is not such a record.
pub(crate) fn leading_commands(
    alloc: Global,
    version: Version,
    prefix: &[u8],
    sequence: u64,
) -> Result<Vec<Command>, AllocError>
    requires { length prefix.now ≡ 512 * prefix_sectors }
    ensures { IfOk result (λ commands. HasRecords version prefix.now sequence commands.items) }
{
    let mut commands = Vec::new(alloc);
    for index in 0..RECORDS {
        match command_in(
            version,
            &sector_at(prefix, 2 + index as usize),
            sequence,
            index,
        ) {
            Some(command) => commands.push(command)?,
            None => return Ok(commands),
        }
    }
    Ok(commands)
}

/// Returns the index of the first record sector, from `used` on, that begins with this sequence or a greater
/// one.
pub(crate) fn first_stray_record(prefix: &[u8], used: usize, sequence: u64) -> Option<usize>
    requires prefix { length prefix.now ≡ 512 * prefix_sectors }
    requires used { used ≤ journal_room }
    ensures { MatchOption result (IsClearFrom used prefix.now sequence)
        (λ i. HasStrayFrom used prefix.now sequence) }
{
    for i in used..RECORDS as usize {
        if sequence <= BigEndian::read_u64(&sector_at(prefix, 2 + i)) {
            return Some(i);
        }
    }
    None
}
