//! Sessions over stores in memory.

use crate::faulty_streams::{ChunkReader, Chunks, LimitedWriter};
use checkpoint::{SECTORS, format};
use planner_cli::{ServeFault, serve};
use recover::Session;
use sector_disk::{MemDevice, Sectors};
use std::alloc::Global;

/// The result of serving an input.
#[derive(Drop)]
pub(crate) struct ServeResult {
    pub(crate) text: Vec<u8>,
    pub(crate) fault: Option<ServeFault>,
    /// The answer of `show` afterwards.
    pub(crate) shown: Vec<u8>,
}

/// The result of serving an input over a device that failed. `opened` is the answer of `show` in the next
/// session, `stopped` in the session after a crash that follows.
#[derive(Drop)]
pub(crate) struct FaultResult {
    pub(crate) served: ServeResult,
    pub(crate) opened: Vec<u8>,
    pub(crate) stopped: Vec<u8>,
}

fn new_device(alloc: Global) -> Option<MemDevice> {
    let mut device = MemDevice::new(alloc, SECTORS).ok()?;
    format(alloc, &mut device).ok()?;
    Some(device)
}

fn opened(alloc: Global, device: MemDevice) -> Option<Session<MemDevice>> {
    Some(Session::open(alloc, device).ok()?.session)
}

/// Returns a session over a new store.
pub(crate) fn new_store(alloc: Global) -> Option<Session<MemDevice>> {
    opened(alloc, new_device(alloc)?)
}

// Returns the answer of `show`.
fn shown<D: Sectors>(alloc: Global, session: &mut Session<D>) -> Vec<u8> {
    let mut text: &[u8] = b"show\n";
    let mut writer = LimitedWriter::whole(alloc);
    let _ = serve(alloc, session, &mut text, &mut writer);
    writer.taken
}

/// Returns the result of serving the input.
pub(crate) fn serve_input<D: Sectors>(
    alloc: Global,
    session: &mut Session<D>,
    input: &[u8],
    pieces: Chunks,
    limited: LimitedWriter,
) -> ServeResult {
    let mut reader = ChunkReader::new(input, pieces);
    let mut writer = limited;
    let fault = serve(alloc, session, &mut reader, &mut writer).err();
    ServeResult {
        text: writer.taken,
        fault,
        shown: shown(alloc, session),
    }
}

/// Returns the result of serving the input over a new store whose device fails once, after `calls` calls counted
/// from the opening; `None` if the store can't be opened.
pub(crate) fn serve_on_faulty_device(
    alloc: Global,
    calls: u64,
    input: &[u8],
) -> Option<FaultResult> {
    let mut session = open_on_faulty_device(alloc, calls)?;
    let served = serve_input(
        alloc,
        &mut session,
        input,
        Chunks::whole(),
        LimitedWriter::whole(alloc),
    );
    match show_twice_reopened(alloc, session.close()) {
        Some((opened, stopped)) => Some(FaultResult {
            served,
            opened,
            stopped,
        }),
        None => None,
    }
}

fn open_on_faulty_device(alloc: Global, calls: u64) -> Option<Session<MemDevice>> {
    let mut device = new_device(alloc)?;
    device.fail_once(calls);
    opened(alloc, device)
}

// Returns the answers of `show` in the next session, and in the session after a crash that follows.
fn show_twice_reopened(alloc: Global, device: MemDevice) -> Option<(Vec<u8>, Vec<u8>)> {
    let (first, mut device) = show_reopened(alloc, device)?;
    device.crash(&[1, 1, 1, 1, 1, 1, 1, 1]);
    let (second, device) = show_reopened(alloc, device)?;
    drop(device);
    Some((first, second))
}

// Returns the answer of `show` in a session over the device, and the device afterwards.
fn show_reopened(alloc: Global, device: MemDevice) -> Option<(Vec<u8>, MemDevice)> {
    let mut session = opened(alloc, device)?;
    let text = shown(alloc, &mut session);
    Some((text, session.close()))
}
