//! Finds signs of damage in a store that may still open.
//!
//! A store has no checksums. But the image that commits leave is consistent: the headers' sequences are
//! consecutive, a record sector is blank or a record at its place, and no record is newer than the one before
//! it. A crash within a commit leaves a consistent image too (`commits_leave_no_integrity_warning`). The half
//! that is not current can't be checked: a crash may leave any part of a snapshot there.
ghost use Rattle.std.specs.Prelude.{◌≡◌, ◌+◌, ◌*◌, ◌<◌, ◌↔◌, ℕ, List, length, IsTrue, IfSome, IfErr, IsErrOf, MatchResult};
ghost use Rattle.checkpoint.specs.declared.headers.Header.{Header};
ghost use Rattle.checkpoint.specs.Layouts.{version_2, prefix_sectors, min_sectors};
ghost use Rattle.checkpoint.specs.Reads.{IsImagePrefix, FitsLayout, ReadsOnly};
ghost use Rattle.checkpoint.specs.InvalidImages.{HasNoHeader, IsHeaderOrReadFault, UnlessReadFailed};
ghost use Rattle.checkpoint.specs.Refusals.{faults_after_reading};
ghost use Rattle.checkpoint.specs.Integrity.{is_blank, IsRecordAt, HasDamagedRecord, AreRecordsMixed, IsOther, IsHeaderLost, AreHeadersApart, AreWarnings, AreWarningsOf};

use crate::faults::StoreFault;
use crate::headers::Header;
use crate::layouts::{MIN_SECTORS, RECORDS, VERSION_2};
use crate::loads::read_prefix;
use crate::prefix::{command_in, sector_at, valid_header};
use byteorder::{BigEndian, ByteOrder};
use sector_disk::{SECTOR_SIZE, Sectors};
use state_codec::version::Version;
use std::alloc::Global;

/// An integrity warning: a reason to suspect that a store is damaged.
#[derive(Clone, Copy, Debug, PartialEq, Eq)]
pub enum IntegrityWarning {
    /// Only one header is valid, and the store is not new.
    HeaderLost,
    /// Both headers are valid, but their sequences are not consecutive.
    HeadersApart,
    /// A record sector is neither blank nor a record at its place.
    RecordDamaged,
    /// A record is newer than the one before it.
    RecordsMixed,
}

impl IntegrityWarning {
    ghost use Rattle.checkpoint.specs.Names.{integrity_warning_name};

    /// Returns the name of the warning, as answers print it.
    pub fn name(&self) -> &'static str
        ensures { result.now ≡ integrity_warning_name self.now }
    {
        match self {
            IntegrityWarning::HeaderLost => "HeaderLost",
            IntegrityWarning::HeadersApart => "HeadersApart",
            IntegrityWarning::RecordDamaged => "RecordDamaged",
            IntegrityWarning::RecordsMixed => "RecordsMixed",
        }
    }
}

/// The integrity warnings of a store.
#[derive(Clone, Copy, Debug, PartialEq, Eq)]
pub struct IntegrityWarnings {
    pub header_lost: bool,
    pub headers_apart: bool,
    pub record_damaged: bool,
    pub records_mixed: bool,
}

impl IntegrityWarnings {
    ghost use Rattle.checkpoint.specs.Integrity.{has_warning, has_none};

    /// Returns whether the store has this warning.
    pub fn has(&self, warning: IntegrityWarning) -> bool
        ensures { result ≡ has_warning self.now warning }
    {
        match warning {
            IntegrityWarning::HeaderLost => self.header_lost,
            IntegrityWarning::HeadersApart => self.headers_apart,
            IntegrityWarning::RecordDamaged => self.record_damaged,
            IntegrityWarning::RecordsMixed => self.records_mixed,
        }
    }

    /// Returns whether there is no warning.
    pub fn is_empty(&self) -> bool
        ensures { result ≡ has_none self.now }
    {
        !(self.header_lost || self.headers_apart || self.record_damaged || self.records_mixed)
    }
}

// Returns whether all bytes of a sector are zeros.
fn is_blank(sector: &[u8; SECTOR_SIZE]) -> bool
    ensures { result ≡ is_blank sector.now }
{
    sector.iter().all(|byte| *byte == 0)
}

// Returns whether a sector is a record with this index and the sequence in its first bytes.
fn is_record(sector: &[u8; SECTOR_SIZE], index: u32) -> bool
    ensures { IsTrue result ↔ IsRecordAt index sector.now }
{
    command_in(Version::Two, sector, BigEndian::read_u64(sector), index).is_some()
}

// Returns whether some record sector is neither blank nor a record at its place.
fn has_damaged_record(prefix: &[u8]) -> bool
    requires { length prefix.now ≡ 512 * prefix_sectors }
    ensures { IsTrue result ↔ HasDamagedRecord prefix.now }
{
    for index in 0..RECORDS {
        let sector = sector_at(prefix, 2 + index as usize);
        if !is_blank(&sector) && !is_record(&sector, index) {
            return true;
        }
    }
    false
}

// Returns whether some record sector has a greater sequence than the one before it.
fn are_records_mixed(prefix: &[u8]) -> bool
    requires { length prefix.now ≡ 512 * prefix_sectors }
    ensures { IsTrue result ↔ AreRecordsMixed prefix.now }
{
    for i in 0..RECORDS as usize - 1 {
        let before = BigEndian::read_u64(&sector_at(prefix, 2 + i));
        if before < BigEndian::read_u64(&sector_at(prefix, 3 + i)) {
            return true;
        }
    }
    false
}

// Returns the valid header in the other header sector, if there is one.
fn other_header(sectors: u64, prefix: &[u8], header: Header) -> Option<Header>
    requires { length prefix.now ≡ 512 * prefix_sectors }
    ensures fits { IfSome result (FitsLayout version_2 sectors) }
    ensures valid { (image : List ℕ) → IsImagePrefix sectors prefix.now image
        → IsOther image header result }
{
    let index = 1 - (header.sequence % 2) as usize;
    valid_header(VERSION_2, sectors, prefix, index)
}

// Returns whether `header` is the only valid header, though the store is not new.
fn is_header_lost(sectors: u64, prefix: &[u8], header: Header) -> bool
    requires { length prefix.now ≡ 512 * prefix_sectors }
    ensures { (image : List ℕ) → IsImagePrefix sectors prefix.now image
        → IsTrue result ↔ IsHeaderLost image header }
{
    match other_header(sectors, prefix, header) {
        Some(_) => false,
        None => header.sequence != 1 || !is_blank(&sector_at(prefix, 0)),
    }
}

// Returns whether the other header sector has a valid header whose sequence is not one less than that of
// `header`.
fn are_headers_apart(sectors: u64, prefix: &[u8], header: Header) -> bool
    requires { length prefix.now ≡ 512 * prefix_sectors }
    ensures { (image : List ℕ) → IsImagePrefix sectors prefix.now image
        → IsTrue result ↔ AreHeadersApart image header }
{
    match other_header(sectors, prefix, header) {
        Some(other) => other.sequence + 1 != header.sequence,
        None => false,
    }
}

/// Checks the headers and records of the image that reads return, and returns its integrity warnings. A store
/// with warnings may still open. It only reads, with one device call. If no header is valid, returns
/// `NotFormatted` or `BadVersion`, like `load`.
pub fn check_integrity<D: Sectors>(
    alloc: Global,
    device: &mut D,
) -> Result<IntegrityWarnings, StoreFault>
    ensures small { D.len device.old < min_sectors
        → (device.new ≡ device.old) × IsErrOf result StoreFault.NotFormatted }
    ensures fails { IfErr result IsHeaderOrReadFault }
    ensures found { D.honest device.new → MatchResult result (AreWarningsOf (D.seen device.old))
        (UnlessReadFailed (HasNoHeader version_2 (D.seen device.old))) }
    ensures reads { ReadsOnly D.Sectors (faults_after_reading result) device.old device.new }
{
    let sectors = device.len();
    if sectors < MIN_SECTORS {
        return Err(StoreFault::NotFormatted);
    }
    match read_prefix(alloc, device, VERSION_2) {
        Ok(opened) => Ok(warnings_in(sectors, &opened.prefix, opened.header)),
        Err(fault) => Err(fault),
    }
}

// Returns the integrity warnings for the headers and records that were read.
fn warnings_in(sectors: u64, prefix: &[u8], header: Header) -> IntegrityWarnings
    requires { length prefix.now ≡ 512 * prefix_sectors }
    ensures { (image : List ℕ) → IsImagePrefix sectors prefix.now image
        → AreWarnings image header result }
{
    IntegrityWarnings {
        header_lost: is_header_lost(sectors, prefix, header),
        headers_apart: are_headers_apart(sectors, prefix, header),
        record_damaged: has_damaged_record(prefix),
        records_mixed: are_records_mixed(prefix),
    }
}
