//! A plain reader of images. It follows the table of the store format in `docs/FORMATS.md` sector by sector.

use checkpoint::{Loaded, Place, StoreFault};
use command_core::{Command, State};
use state_codec::{CodecFault, decode_record, decode_state};
use std::alloc::Global;

/// The magic and the version.
const MAGIC: &[u8] = b"PDRSTORE\x00\x00\x00\x02";

// Returns a sector of an image, or zeros if the image has none there.
fn sector_of(image: &[u8], i: u32) -> [u8; 512] {
    let mut sector = [0; 512];
    let bytes = image.iter().skip(512 * i as usize);
    for (to, from) in sector.iter_mut().zip(bytes) {
        *to = *from;
    }
    sector
}

// Returns the big-endian number in these bytes.
fn number_in(bytes: &[u8]) -> u64 {
    let mut number: u64 = 0;
    for byte in bytes {
        number = number << 8 | u64::from(*byte);
    }
    number
}

// Returns the sequence and the length of one of the two headers, if it is valid.
fn header_of(image: &[u8], i: u32) -> Option<(u64, u64)> {
    let sector = sector_of(image, i);
    if image.len() < 4_326_400
        || !sector.starts_with(MAGIC)
        || !sector[28..].iter().all(|byte| *byte == 0)
    {
        return None;
    }
    let (sequence, length) = (number_in(&sector[12..20]), number_in(&sector[20..28]));
    if is_valid(sequence, length) && sequence % 2 == u64::from(i) {
        Some((sequence, length))
    } else {
        None
    }
}

fn is_valid(sequence: u64, length: u64) -> bool {
    (1..=1 << 60).contains(&sequence) && (1..=2_097_152).contains(&length)
}

fn has_other_version(image: &[u8], i: u32) -> bool {
    let sector = sector_of(image, i);
    sector.starts_with(b"PDRSTORE") && !sector.starts_with(MAGIC)
}

// Returns the sector of the record with this index, after both headers.
fn sector_of_record(image: &[u8], index: u32) -> [u8; 512] {
    sector_of(image, index.saturating_add(2))
}

// Returns the record with this index, if its sector holds a record of this sequence.
fn record_of(image: &[u8], sequence: u64, index: u32) -> Option<Command> {
    decode_record(&sector_of_record(image, index), sequence, index)
}

// Returns the number of records of a sequence. Fails if a later record sector begins with this sequence or a
// greater one.
fn used_of(image: &[u8], sequence: u64) -> Result<u32, StoreFault> {
    let mut used = 0;
    for index in 0..256 {
        if used == index && record_of(image, sequence, index).is_some() {
            used = index + 1;
        } else if number_in(&sector_of_record(image, index)[..8]) >= sequence {
            return Err(StoreFault::Codec(CodecFault::BadField));
        }
    }
    Ok(used)
}

// Returns the commands of this many records.
fn journal_of(
    alloc: Global,
    image: &[u8],
    sequence: u64,
    used: u32,
) -> Result<Vec<Command>, StoreFault> {
    let mut commands = Vec::new(alloc);
    for index in 0..used {
        if let Some(command) = record_of(image, sequence, index) {
            commands.push(command)?;
        }
    }
    Ok(commands)
}

// Returns the sequence and the length of the latest valid header.
fn latest_header_of(image: &[u8]) -> Result<(u64, u64), StoreFault> {
    match (header_of(image, 0), header_of(image, 1)) {
        (Some(even), Some(odd)) => Ok(even.max(odd)),
        (Some(header), None) | (None, Some(header)) => Ok(header),
        (None, None) if has_other_version(image, 0) || has_other_version(image, 1) => {
            Err(StoreFault::BadVersion)
        }
        (None, None) => Err(StoreFault::NotFormatted),
    }
}

// Decodes the state in the half that belongs to a sequence.
fn state_of(alloc: Global, image: &[u8], sequence: u64, length: u64) -> Result<State, StoreFault> {
    let first = if sequence % 2 == 0 { 258 } else { 4354 };
    let mut snapshot = Vec::new(alloc);
    for byte in image.iter().skip(512 * first).take(length as usize) {
        snapshot.push(*byte)?;
    }
    match decode_state(alloc, &snapshot) {
        Ok(state) => Ok(state),
        Err(CodecFault::OutOfMemory) => Err(StoreFault::OutOfMemory),
        Err(fault) => Err(StoreFault::Codec(fault)),
    }
}

/// Returns the snapshot and the commands that the image holds, or the fault if it holds nothing.
pub(crate) fn held(alloc: Global, image: &[u8]) -> Result<Loaded, StoreFault> {
    let (sequence, length) = latest_header_of(image)?;
    let used = used_of(image, sequence)?;
    let commands = journal_of(alloc, image, sequence, used)?;
    let state = state_of(alloc, image, sequence, length)?;
    Ok(Loaded {
        state,
        commands,
        place: Place { sequence, used },
    })
}
