//! Runs in which one call of the device fails, and the results of opening the store then.

use crate::crashes::{RunResult, built, fresh, open, opened_state, place_of};
use crate::examples::{Example, commands_of, invalid_data, load_one, states_of};
use crate::tables::print_row;
use checkpoint::StoreFault;
use recover::Session;
use sector_disk::MemDevice;
use std::alloc::Global;
use std::io;

/// Prints the results of the five commands if one call fails, and the result of a build whose sync fails.
pub(crate) fn print_failures<R: Print>(rt: &R, alloc: Global) -> io::Result<()> {
    println!(rt;
        "five commands, by the call that fails once: openings; answered Ok, DeviceFault, Broken; the state of how many"
    )?;
    for call in 0..18 {
        print_row(rt, call, &row_of(alloc, call)?)?;
    }
    println!(rt;
        "a build whose sync fails: the state of how many commands opening gives, and opening after a stop"
    )?;
    print_row(rt, 8, &settled(alloc)?)
}

// Returns the row for the five commands if this call of the device fails once. Reads count, too: opening makes a
// sync and two reads, a snapshot makes four calls, and a record two.
fn row_of(alloc: Global, call: u64) -> io::Result<[u64; 5]> {
    let (openings, ended) = ended_with_a_failed_call(alloc, call)?;
    Ok(numbers_of(openings, &ended, &states_of(alloc, Example::Five)?))
}

// Returns the number of times the store was opened, and the result of the five commands.
fn ended_with_a_failed_call(alloc: Global, call: u64) -> io::Result<(u64, RunResult)> {
    let commands = commands_of(alloc, Example::Five)?;
    let (openings, session) = opened_with_a_failed_call(alloc, call)?;
    Ok((openings, RunResult::of(alloc, session, commands, &[])?))
}

fn numbers_of(openings: u64, ended: &RunResult, states: &[Vec<u8>]) -> [u64; 5] {
    [
        openings,
        ended.acknowledged,
        ended.faults,
        ended.refused,
        place_of(states, &ended.bytes),
    ]
}

// Opens a session over a new store whose device fails once, at this call. If this call belongs to the opening,
// opens the store a second time.
fn opened_with_a_failed_call(alloc: Global, call: u64) -> io::Result<(u64, Session<MemDevice>)> {
    let mut device = fresh(alloc)?;
    device.fail_once(call);
    match Session::open(alloc, device) {
        Ok(opened) => Ok((1, opened.session)),
        Err((StoreFault::DeviceFault, device)) => Ok((2, open(alloc, device)?.session)),
        Err(_) => Err(invalid_data()),
    }
}

// Shows that opening makes a build durable whose sync failed. After a crash immediately after that opening, the
// state still has the build, although its record was not synced before the opening.
fn settled(alloc: Global) -> io::Result<[u64; 2]> {
    settled_among(alloc, &states_of(alloc, Example::Five)?)
}

fn settled_among(alloc: Global, states: &[Vec<u8>]) -> io::Result<[u64; 2]> {
    let (first, mut device) = opened_among(alloc, built_without_a_sync(alloc)?, states)?;
    device.crash(&[]);
    let (second, _) = opened_among(alloc, device, states)?;
    Ok([first, second])
}

// Opens the store. Returns the index of its state among these, and the device.
fn opened_among(
    alloc: Global,
    device: MemDevice,
    states: &[Vec<u8>],
) -> io::Result<(u64, MemDevice)> {
    let (bytes, device) = opened_state(alloc, device)?;
    Ok((place_of(states, &bytes), device))
}

// Returns the device after a load and a build whose sync fails.
fn built_without_a_sync(alloc: Global) -> io::Result<MemDevice> {
    let load = load_one(alloc)?;
    let mut device = fresh(alloc)?;
    // Three calls of opening, four of the load, and the write of the record come before the sync.
    device.fail_once(8);
    built(alloc, device, load)
}
