//! Reads a store.
//!
//! One call reads the headers and records, 258 sectors. Another one reads the snapshot into a buffer. The
//! length of the snapshot is in the valid header, and is at most half of the device. So `OutOfMemory` may be
//! reported for a device that turns out to have no store.
ghost use Rattle.std.specs.Prelude.{◌≡◌, ◌+◌, ◌*◌, ◌/◌, ◌%◌, ◌<◌, ◌≤◌, ℕ, List, length, take, drop, OnOk, IfOk, IfErr, IsErrOf, MatchResult};
ghost use Rattle.command_types.specs.States.{IsState};
ghost use Rattle.checkpoint.specs.Layouts.{version_1, version_2, prefix_sectors, min_sectors, sectors_in};
ghost use Rattle.checkpoint.specs.Stores.{IsCurrentHeader, snapshot_in};
ghost use Rattle.checkpoint.specs.Reads.{IsImagePrefix, IsPrefixAndHeader, ReadsOnly, IsWellFormedLoad, FitsLayout, HasParts};
ghost use Rattle.state_codec.specs.Bytes.{state_bytes};
ghost use Rattle.state_codec.specs.declared.version.Version.TheVariants.{One, Two};
ghost use Rattle.state_codec.specs.Limits.{IsStateOf};
ghost use Rattle.state_codec.specs.DecodeResults.{Decodes};
ghost use Rattle.checkpoint.specs.Holds.{Holds, layout_of};
ghost use Rattle.checkpoint.specs.InvalidImages.{HasNoHeader, IsLoadFault, HasBadJournal, HoldsNothing, IsContentFault, store_fault_of, IsHeaderOrReadFault, IsJournalFault, UnlessReadFailed};
ghost use Rattle.checkpoint.specs.Loads.{IsLoaded};
ghost use Rattle.checkpoint.specs.Journals.{HasJournal};
ghost use Rattle.checkpoint.specs.Refusals.{IsOfReading, faults_after_reading};

use crate::encoding::keeps_invariants;
use crate::faults::StoreFault;
use crate::headers::Header;
use crate::layouts::{Layout, MIN_SECTORS, PREFIX_BYTES, half_start, layout_of};
use crate::numbers::have_valid_numbers;
use crate::places::Place;
use crate::prefix::{current_header, first_stray_record, leading_commands};
use crate::reads::read_run;
use command_types::{Command, State};
use sector_disk::{SECTOR_SIZE, Sectors};
use state_codec::version::Version;
use state_codec::{CodecFault, decode_state, decode_state_v1};
use std::alloc::Global;

/// The headers and the records of a device, and the current header.
#[derive(Drop)]
pub(crate) struct HeaderAndJournal {
    pub(crate) prefix: Vec<u8>,
    pub(crate) header: Header,
}

/// Reads the headers and the records, with one device call.
pub(crate) fn read_prefix<D: Sectors>(
    alloc: Global,
    device: &mut D,
    layout: Layout,
) -> Result<HeaderAndJournal, StoreFault>
    requires { min_sectors ≤ D.len device.old }

    ensures fails { IfErr result IsHeaderOrReadFault }
    ensures prefix { IfOk result (λ opened.
        IsPrefixAndHeader layout (D.len device.old) opened.prefix.items opened.header) }
    ensures found { D.honest device.new
        → MatchResult result (λ opened.
        IsImagePrefix (D.len device.old) opened.prefix.items (D.seen device.old)
        × IsCurrentHeader layout (D.seen device.old) opened.header)
        (UnlessReadFailed (HasNoHeader layout (D.seen device.old))) }
    ensures reads { ReadsOnly D.Sectors (faults_after_reading result) device.old device.new }
{
    let sectors = device.len();
    let prefix = match read_run(alloc, device, 0, PREFIX_BYTES) {
        Ok(prefix) => prefix,
        Err(fault) => return Err(fault),
    };
    match current_header(layout, sectors, &prefix) {
        Ok(header) => Ok(HeaderAndJournal { prefix, header }),
        Err(fault) => Err(fault),
    }
}

/// Reads the snapshot of a header, with one device call. The caller guarantees that the snapshot fits into a
/// half.
pub(crate) fn read_snapshot<D: Sectors>(
    alloc: Global,
    device: &mut D,
    layout: Layout,
    header: Header,
) -> Result<Vec<u8>, StoreFault>
    requires { FitsLayout layout (D.len device.old) header }

    ensures fails { IfErr result IsOfReading }
    ensures bytes { D.honest device.new
        → IfOk result (λ bytes. bytes.items
        ≡ snapshot_in layout (D.seen device.old) header.sequence header.length) }
    ensures reads { ReadsOnly D.Sectors (faults_after_reading result) device.old device.new }
{
    let size = (header.length as usize).div_ceil(SECTOR_SIZE) * SECTOR_SIZE;
    match read_run(alloc, device, half_start(layout, header.sequence), size) {
        Ok(mut bytes) => {
            bytes.truncate(header.length as usize);
            Ok(bytes)
        }
        Err(fault) => Err(fault),
    }
}

/// The content of a store.
#[derive(Debug, Drop)]
pub struct Loaded {
    /// The state in the snapshot.
    pub state: State,
    /// The commands of the records after the snapshot, in order.
    pub commands: Vec<Command>,
    /// The place at which the journal continues.
    pub place: Place,
}

/// Reads the journal for the state that was decoded from the snapshot.
pub(crate) fn load_journal(
    alloc: Global,
    version: Version,
    header: Header,
    prefix: &[u8],
    state: State,
) -> Result<Loaded, StoreFault>
    requires { length prefix.now ≡ 512 * prefix_sectors }

    ensures facts { IsState state }
    ensures fails { IfErr result IsJournalFault }
    ensures well_formed { (sectors : ℕ) → FitsLayout (layout_of version) sectors header
        → IfOk result (λ loaded. IsWellFormedLoad
        (sectors_in (layout_of version)) sectors loaded.state loaded.place) }
    ensures found { (sectors : ℕ) (image : List ℕ) → IsImagePrefix sectors prefix.now image
        → IsCurrentHeader (layout_of version) image header
        → snapshot_in (layout_of version) image header.sequence header.length
        ≡ state_bytes version state → IsStateOf version state
        → MatchResult result (λ loaded.
        Holds version image loaded.state loaded.commands.items loaded.place)
        (UnlessReadFailed (λ fault. HasBadJournal version image header.sequence state)) }
{
    keeps_invariants(&state);
    match journal(alloc, version, prefix, header.sequence, &state) {
        Ok(commands) => Ok(Loaded {
            place: Place {
                sequence: header.sequence,
                used: commands.len() as u32,
            },
            state,
            commands,
        }),
        Err(fault) => Err(fault),
    }
}

// Returns the commands of the journal of a sequence, if the journal belongs to this state.
fn journal(
    alloc: Global,
    version: Version,
    prefix: &[u8],
    sequence: u64,
    state: &State,
) -> Result<Vec<Command>, StoreFault>
    requires { length prefix.now ≡ 512 * prefix_sectors }
    ensures fails { IfErr result IsJournalFault }
    ensures found { MatchResult result
        (λ commands. HasJournal version prefix.now sequence state.now commands.items)
        (UnlessReadFailed (λ fault. HasBadJournal version prefix.now sequence state.now)) }
{
    let commands = match leading_commands(alloc, version, prefix, sequence) {
        Ok(commands) => commands,
        Err(_) => return Err(StoreFault::OutOfMemory),
    };
    match first_stray_record(prefix, commands.len(), sequence) {
        Some(_) => Err(StoreFault::Codec(CodecFault::BadField)),
        None => {
            if have_valid_numbers(version, state, &commands) {
                Ok(commands)
            } else {
                Err(StoreFault::Codec(CodecFault::BadField))
            }
        }
    }
}

/// The bytes of a store before decoding.
#[derive(Drop)]
pub(crate) struct Parts {
    pub(crate) opened: HeaderAndJournal,
    /// The snapshot's bytes.
    pub(crate) bytes: Vec<u8>,
}

/// Reads the headers, records and snapshot of a store, with two device calls. If the device is smaller than any
/// store, makes no call.
pub(crate) fn read_parts<D: Sectors>(
    alloc: Global,
    device: &mut D,
    version: Version,
) -> Result<Parts, StoreFault>
    ensures small { D.len device.old < min_sectors
        → (device.new ≡ device.old) × IsErrOf result StoreFault.NotFormatted }
    ensures fails { IfErr result IsHeaderOrReadFault }
    ensures prefix { IfOk result (λ parts. IsPrefixAndHeader (layout_of version) (D.len device.old)
        parts.opened.prefix.items parts.opened.header) }
    ensures found { D.honest device.new
        → MatchResult result (λ parts.
        HasParts version (D.len device.old)
        (D.seen device.old) parts.opened.header parts.opened.prefix.items parts.bytes.items)
        (UnlessReadFailed (HasNoHeader (layout_of version) (D.seen device.old))) }
    ensures reads { ReadsOnly D.Sectors (faults_after_reading result) device.old device.new }
{
    if device.len() < MIN_SECTORS {
        return Err(StoreFault::NotFormatted);
    }
    let layout = layout_of(version);
    let opened = match read_prefix(alloc, device, layout) {
        Ok(opened) => opened,
        Err(fault) => return Err(fault),
    };
    match read_snapshot(alloc, device, layout, opened.header) {
        Ok(bytes) => Ok(Parts { opened, bytes }),
        Err(fault) => Err(fault),
    }
}

// Returns the store's fault for a snapshot that does not decode.
fn store_fault_of(fault: CodecFault) -> StoreFault
    ensures { result ≡ store_fault_of fault }
{
    match fault {
        CodecFault::Truncated => StoreFault::Codec(CodecFault::Truncated),
        CodecFault::BadField => StoreFault::Codec(CodecFault::BadField),
        CodecFault::PlanRefused(rule) => StoreFault::Codec(CodecFault::PlanRefused(rule)),
        CodecFault::OutOfMemory => StoreFault::OutOfMemory,
    }
}

/// Returns the content of a store from its parts and the state decoded from its snapshot.
pub(crate) fn interpret(
    alloc: Global,
    version: Version,
    opened: &HeaderAndJournal,
    bytes: &[u8],
    decoded: Result<State, CodecFault>,
) -> Result<Loaded, StoreFault>
    requires long { length opened.now.prefix.items ≡ 512 * prefix_sectors }
    requires decodes { Decodes version bytes.now decoded }

    ensures fails { IfErr result IsContentFault }
    ensures well_formed { (sectors : ℕ) → FitsLayout (layout_of version) sectors opened.now.header
        → IfOk result (λ loaded. IsWellFormedLoad
        (sectors_in (layout_of version)) sectors loaded.state loaded.place) }
    ensures found { (sectors : ℕ) (image : List ℕ)
        → HasParts version sectors image opened.now.header opened.now.prefix.items bytes.now
        → MatchResult result (λ loaded.
        Holds version image loaded.state loaded.commands.items loaded.place)
        (UnlessReadFailed (HoldsNothing version image)) }
{
    match decoded {
        Ok(state) => load_journal(alloc, version, opened.header, &opened.prefix, state),
        Err(fault) => Err(store_fault_of(fault)),
    }
}

// Decodes these bytes as a state, in the format of this version.
fn decode(alloc: Global, version: Version, bytes: &[u8]) -> Result<State, CodecFault>
    ensures { Decodes version bytes.now result }
{
    match version {
        Version::One => decode_state_v1(alloc, bytes),
        Version::Two => decode_state(alloc, bytes),
    }
}

/// Reads the content of the image that reads return, by the layout, encoding and limits of this version. The
/// call only reads: each image that is possible at a moment of the call was possible before it.
pub fn load<D: Sectors>(
    alloc: Global,
    device: &mut D,
    version: Version,
) -> Result<Loaded, StoreFault>
    ensures loaded { IsLoaded D.Sectors version result device.old device.new }
    ensures reads { ReadsOnly D.Sectors (faults_after_reading result) device.old device.new }
{
    let parts = match read_parts(alloc, device, version) {
        Ok(parts) => parts,
        Err(fault) => return Err(fault),
    };
    let decoded = decode(alloc, version, &parts.bytes);
    interpret(alloc, version, &parts.opened, &parts.bytes, decoded)
}

/// Reads a store of the current version with `load`.
pub fn load_latest<D: Sectors>(alloc: Global, device: &mut D) -> Result<Loaded, StoreFault>
    ensures loaded { IsLoaded D.Sectors Two result device.old device.new }
    ensures reads { ReadsOnly D.Sectors (faults_after_reading result) device.old device.new }
{
    load(alloc, device, Version::Two)
}

/// Reads a store of version 1 with `load`.
pub fn load_latest_v1<D: Sectors>(alloc: Global, device: &mut D) -> Result<Loaded, StoreFault>
    ensures loaded { IsLoaded D.Sectors One result device.old device.new }
    ensures reads { ReadsOnly D.Sectors (faults_after_reading result) device.old device.new }
{
    load(alloc, device, Version::One)
}
