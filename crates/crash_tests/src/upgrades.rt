//! The upgrade of a store of version 1: with a crash at each call, and with each call failing once.

use crate::crashes::{built, choices_of, fresh};
use crate::examples::{Example, bytes_of, invalid_data, load_three, states_of};
use crate::tables::{count, print_row};
use checkpoint::{MIN_SECTORS, SECTORS, StoreFault};
use recover::{Opened, Session, UpgradeFault, upgrade};
use sector_disk::{MemDevice, Sectors};
use std::alloc::Global;
use std::io;

/// The first bytes of the old store's sectors; the rest are zeros.
const OLD_STORE: [(u64, &[u8]); 4] = [
    // The header of sequence 1, with 75 bytes of snapshot.
    (
        1,
        &[
            b'P', b'D', b'R', b'S', b'T', b'O', b'R', b'E', 0, 0, 0, 1, 0, 0, 0, 0, 0, 0, 0, 1, 0,
            0, 0, 0, 0, 0, 0, 75,
        ],
    ),
    // One customer, 1 at (3, 4) with demand 6, a capacity of 10 and one vehicle, just loaded.
    (
        530,
        &[
            1, 2, 0, 0, 0, 0, 0, 0, 0, 0, 0, 0, 0, 0, 0, 0, 0, 0, 0, 0, 0, 10, 0, 1, 0, 2, 0, 0, 0,
            0, 0, 0, 0, 0, 0, 0, 0, 0, 5, 245, 225, 0, 0, 1, 1, 0, 1, 0, 0, 0, 3, 0, 0, 0, 4, 0, 0,
            0, 6, 0, 0, 0, 0, 5, 245, 225, 0, 0, 0, 0, 0, 0, 0, 0, 0,
        ],
    ),
    // Record 0: Build.
    (2, &[0, 0, 0, 0, 0, 0, 0, 1, 0, 0, 0, 0, 6]),
    // Record 1: Search of 256 steps.
    (3, &[0, 0, 0, 0, 0, 0, 0, 1, 0, 0, 0, 1, 7, 1, 0]),
];

/// The sectors of the new device that an upgrade writes, without those that are zeros before and after it.
const WRITTEN: [usize; 4] = [0, 1, 2, 4354];

/// Prints the results of crashes and failed calls during an upgrade.
pub(crate) fn print_upgrades<R: Print>(rt: &R, alloc: Global) -> io::Result<()> {
    let state = its_state(alloc)?;
    print_crashed_upgrades(rt, alloc, &state)?;
    print_failing_upgrades(rt, alloc, &state)
}

fn print_crashed_upgrades<R: Print>(rt: &R, alloc: Global, state: &[u8]) -> io::Result<()> {
    println!(rt;
        "an upgrade stopped, by calls of the new device: how often the state, NotFormatted, another; the old one's state"
    )?;
    for calls in 0..=6 {
        print_row(rt, calls, &row_of_crashes(alloc, calls, state)?)?;
    }
    Ok(())
}

fn print_failing_upgrades<R: Print>(rt: &R, alloc: Global, state: &[u8]) -> io::Result<()> {
    println!(rt; "an upgrade, by the call of the old device that fails once, and once more")?;
    for call in 0..4 {
        print_failed(rt, call, &failed_call_of_old(alloc, call, state)?)?;
    }
    println!(rt; "by the call of the new device")?;
    for call in 0..7 {
        print_failed(rt, call, &failed_call_of_new(alloc, call, state)?)?;
    }
    Ok(())
}

// Writes a sector that begins with these bytes.
fn put(device: &mut MemDevice, sector: u64, front: &[u8]) -> io::Result<()> {
    let mut bytes = [0; 512];
    for (to, from) in bytes.iter_mut().zip(front) {
        *to = *from;
    }
    if sector >= device.len() || device.write(sector, &bytes).is_err() {
        return Err(invalid_data());
    }
    Ok(())
}

// Returns a device with the old store, none of which is synced.
fn old_store(alloc: Global) -> io::Result<MemDevice> {
    let mut device = MemDevice::new(alloc, MIN_SECTORS)?;
    for (sector, front) in &OLD_STORE {
        put(&mut device, *sector, front)?;
    }
    Ok(device)
}

// Returns the state of the old store, as bytes.
fn its_state(alloc: Global) -> io::Result<Vec<u8>> {
    match states_of(alloc, Example::Old)?.pop() {
        Some(state) => Ok(state),
        None => Err(invalid_data()),
    }
}

// Returns a device with another store of the current version: a snapshot of sequence 2 and a record.
fn other_store(alloc: Global) -> io::Result<MemDevice> {
    let load = load_three(alloc)?;
    built(alloc, fresh(alloc)?, load)
}

/// The result of opening a device.
#[derive(Clone, Copy)]
enum Outcome {
    /// The expected state, with no step replayed.
    State,
    NotFormatted,
    Other,
}

impl Outcome {
    /// Returns the column that counts this outcome.
    fn place(self) -> usize {
        match self {
            Outcome::State => 0,
            Outcome::NotFormatted => 1,
            Outcome::Other => 2,
        }
    }
}

// Opens the device. Returns the outcome, if `state` is the expected state.
fn outcome_of(alloc: Global, device: MemDevice, state: &[u8]) -> io::Result<Outcome> {
    match Session::open(alloc, device) {
        Ok(opened) => {
            let outcome = outcome_of_session(alloc, &opened, state);
            drop(opened);
            outcome
        }
        Err((fault, device)) => {
            drop(device);
            Ok(match fault {
                StoreFault::NotFormatted => Outcome::NotFormatted,
                _ => Outcome::Other,
            })
        }
    }
}

fn outcome_of_session(
    alloc: Global,
    opened: &Opened<MemDevice>,
    state: &[u8],
) -> io::Result<Outcome> {
    let bytes = bytes_of(alloc, opened.session.state())?;
    if opened.replayed == 0 && bytes.as_slice() == state {
        Ok(Outcome::State)
    } else {
        Ok(Outcome::Other)
    }
}

// Returns whether the device opens with this state and replays no step.
fn has_state(alloc: Global, device: MemDevice, state: &[u8]) -> io::Result<bool> {
    Ok(matches!(outcome_of(alloc, device, state)?, Outcome::State))
}

// Returns whether the old device still has this state, by upgrading it once more.
fn has_old_state(alloc: Global, mut old: MemDevice, state: &[u8]) -> io::Result<bool> {
    let mut new = MemDevice::new(alloc, SECTORS)?;
    match upgrade_fault(alloc, &mut old, &mut new) {
        None => has_state(alloc, new, state),
        Some(_) => Ok(false),
    }
}

// Returns the fault of an upgrade, if it fails.
fn upgrade_fault(alloc: Global, old: &mut MemDevice, new: &mut MemDevice) -> Option<UpgradeFault> {
    upgrade(alloc, old, new).err()
}

// Returns the row for upgrades that crash after `calls` finished calls of the new device, which holds another
// store, with each choice for the sectors that an upgrade writes.
fn row_of_crashes(alloc: Global, calls: u64, state: &[u8]) -> io::Result<[u64; 4]> {
    let mut row = [0; 4];
    for choice in 0..16 {
        add_crash(alloc, calls, choice, state, &mut row)?;
    }
    Ok(row)
}

fn add_crash(
    alloc: Global,
    calls: u64,
    choice: u32,
    state: &[u8],
    row: &mut [u64],
) -> io::Result<()> {
    let (old, new) = crashed(alloc, calls, choice)?;
    let outcome = outcome_of(alloc, new, state);
    let stands = has_old_state(alloc, old, state);
    count(row, outcome?.place());
    if stands? {
        count(row, 3);
    }
    Ok(())
}

// Returns both devices after an upgrade that crashed with this choice after `calls` finished calls of the new
// device.
fn crashed(alloc: Global, calls: u64, choice: u32) -> io::Result<(MemDevice, MemDevice)> {
    let choices = choices_of(alloc, &WRITTEN, choice)?;
    crashed_with(alloc, calls, &choices)
}

fn crashed_with(alloc: Global, calls: u64, choices: &[u32]) -> io::Result<(MemDevice, MemDevice)> {
    let mut old = old_store(alloc)?;
    let mut new = other_store(alloc)?;
    new.fuse(calls);
    let _ = upgrade_fault(alloc, &mut old, &mut new);
    old.crash(choices);
    new.crash(choices);
    Ok((old, new))
}

/// The answer of an upgrade whose device fails once, the answer of a second attempt, and whether the new device
/// has the state then.
type Attempts = (&'static str, &'static str, bool);

// Returns the attempts for an upgrade in which this call of the old device fails. Reads count, too: there is a
// sync and two reads.
fn failed_call_of_old(alloc: Global, call: u64, state: &[u8]) -> io::Result<Attempts> {
    let mut old = old_store(alloc)?;
    old.fail_once(call);
    upgraded_twice(alloc, &mut old, MemDevice::new(alloc, SECTORS)?, state)
}

// Returns the attempts for an upgrade in which this call of the new device fails. There are six calls.
fn failed_call_of_new(alloc: Global, call: u64, state: &[u8]) -> io::Result<Attempts> {
    let mut old = old_store(alloc)?;
    let mut new = other_store(alloc)?;
    new.fail_once(call);
    upgraded_twice(alloc, &mut old, new, state)
}

fn upgraded_twice(
    alloc: Global,
    old: &mut MemDevice,
    mut new: MemDevice,
    state: &[u8],
) -> io::Result<Attempts> {
    let first = answered(upgrade_fault(alloc, old, &mut new));
    let second = answered(upgrade_fault(alloc, old, &mut new));
    Ok((first, second, has_state(alloc, new, state)?))
}

fn answered(fault: Option<UpgradeFault>) -> &'static str {
    match fault {
        None => "ok",
        Some(fault) => fault.name(),
    }
}

fn print_failed<R: Print>(rt: &R, call: u64, tries: &Attempts) -> io::Result<()> {
    println!(rt; "{call}: {}, {}, the state {}", tries.0, tries.1, tries.2)
}
