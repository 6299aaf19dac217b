//! Crash images that are read twice: by `load_latest`, and by a plain program that follows the table of the
//! store format. The two have to agree on each image. Each row counts what the images hold.

ghost use Rattle.std.specs.Prelude.{◌≡◌, ◌<◌, ◌≤◌, ◌^◌, IfOk, OnOk};
ghost use Rattle.checkpoint.specs.Changes.{HasRecordRoom};
ghost use Rattle.checkpoint.specs.Layouts.{version_2, last_sequence, sectors_in};
ghost use Rattle.checkpoint.specs.Places.{first_place, place_after_record, place_after_snapshot};

use crate::crashes::choices_of;
use crate::examples::{Example, applied, commands_of, invalid_data, or_invalid_data};
use crate::plain_reader::held;
use crate::tables::{count, print_row};
use checkpoint::{
    Loaded, Place, SECTORS, StoreFault, commit_record, commit_snapshot, format, format_with,
    load_latest,
};
use command_core::{Command, State};
use sector_disk::{MemDevice, Sectors};
use std::alloc::Global;
use std::io;

/// The place of a store: its sequence and the number of used records, or `(0, 0)` if the image holds nothing.
type SequenceAndUsed = (u64, u32);

/// The places that images of the small run may have.
const PLACES: [SequenceAndUsed; 6] = [(0, 0), (1, 0), (1, 1), (1, 2), (2, 0), (2, 1)];

/// Prints what both readers find in the crash images of three runs.
pub(crate) fn print_readings<R: Print>(rt: &R, alloc: Global) -> io::Result<()> {
    println!(rt;
        "the small run stopped, by finished calls: images that hold nothing, 1/0, 1/1, 1/2, 2/0, 2/1"
    )?;
    for calls in 0..17 {
        print_row(rt, calls, &row_of_small_runs(alloc, calls)?)?;
    }
    let state = wide_state(alloc)?;
    let printed = print_wide_readings(rt, alloc, &state);
    drop(state);
    printed
}

// Prints the rows for a format and for a snapshot that crash, over stores with this state.
fn print_wide_readings<R: Print>(rt: &R, alloc: Global, state: &State) -> io::Result<()> {
    println!(rt; "a format over a store stopped, by finished calls: images with nothing, others")?;
    for calls in 0..6 {
        print_row(rt, calls, &row_of_formats(alloc, state, calls)?)?;
    }
    println!(rt;
        "a snapshot stopped with every second sector kept, by finished calls: its sequence"
    )?;
    for calls in 0..4 {
        print_row(rt, calls, &[crashed_snapshot(alloc, state, calls)?.0])?;
    }
    Ok(())
}

// Returns the state after loading 20 pairs.
fn wide_state(alloc: Global) -> io::Result<State> {
    match commands_of(alloc, Example::WideLoad)?.as_slice() {
        [load] => applied(alloc, &State::Empty, load),
        _ => Err(invalid_data()),
    }
}

// Returns the row of the small run, crashed after `calls` finished calls, for each choice for the sectors that
// it writes.
fn row_of_small_runs(alloc: Global, calls: u64) -> io::Result<[u64; 6]> {
    let mut row = [0; 6];
    for choice in 0..32 {
        count(&mut row, place_of(crashed_small_run(alloc, calls, choice)?));
    }
    Ok(row)
}

// Returns the index of this place in `PLACES`, or the length of `PLACES` if it is not there.
fn place_of(held: SequenceAndUsed) -> usize {
    PLACES
        .iter()
        .position(|place| place.0 == held.0 && place.1 == held.1)
        .unwrap_or(PLACES.len())
}

fn crashed_small_run(alloc: Global, calls: u64, choice: u32) -> io::Result<SequenceAndUsed> {
    let choices = choices_of(alloc, &[0, 1, 2, 3, 4], choice)?;
    crash_small_run(alloc, &mut MemDevice::new(alloc, SECTORS)?, calls, &choices)
}

fn crash_small_run(
    alloc: Global,
    device: &mut MemDevice,
    calls: u64,
    choices: &[u32],
) -> io::Result<SequenceAndUsed> {
    device.fuse(calls);
    let is_finished = small_run(alloc, device).is_ok();
    if is_finished != (calls == 16) {
        return Err(invalid_data());
    }
    device.crash(choices);
    agreed(alloc, device)
}

// Returns the row of a format that crashes after `calls` finished calls, over a store with a record, for each
// choice for the headers and the first record.
fn row_of_formats(alloc: Global, state: &State, calls: u64) -> io::Result<[u64; 2]> {
    let mut row = [0; 2];
    for choice in 0..8 {
        let (sequence, _) = crashed_format(alloc, state, calls, choice)?;
        count(&mut row, usize::from(sequence > 0));
    }
    Ok(row)
}

fn crashed_format(
    alloc: Global,
    state: &State,
    calls: u64,
    choice: u32,
) -> io::Result<SequenceAndUsed> {
    let choices = choices_of(alloc, &[0, 1, 2], choice)?;
    crash_format(alloc, &mut recorded_store(alloc, state)?, calls, &choices)
}

fn crash_format(
    alloc: Global,
    device: &mut MemDevice,
    calls: u64,
    choices: &[u32],
) -> io::Result<SequenceAndUsed> {
    device.fuse(calls);
    if format(alloc, device).is_ok() {
        return Err(invalid_data());
    }
    device.crash(choices);
    agreed(alloc, device)
}

// Creates a store with this state and a record.
fn recorded_store(alloc: Global, state: &State) -> io::Result<MemDevice> {
    let mut device = MemDevice::new(alloc, SECTORS)?;
    or_invalid_data(format_and_record(alloc, &mut device, state))?;
    Ok(device)
}

fn format_and_record<D: Sectors>(
    alloc: Global,
    device: &mut D,
    state: &State,
) -> Result<Place, StoreFault> {
    let place = formatted(alloc, device, state)?;
    recorded(device, place, &Command::Build)
}

// Commits a snapshot over a store with this state and crashes the device after `calls` finished calls. Returns
// the place of the store then. The crash leaves the new content in every second sector.
fn crashed_snapshot(alloc: Global, state: &State, calls: u64) -> io::Result<SequenceAndUsed> {
    let choices = every_second(alloc)?;
    crash_snapshot(
        alloc,
        &mut MemDevice::new(alloc, SECTORS)?,
        state,
        calls,
        &choices,
    )
}

fn crash_snapshot(
    alloc: Global,
    device: &mut MemDevice,
    state: &State,
    calls: u64,
    choices: &[u32],
) -> io::Result<SequenceAndUsed> {
    let Ok(place) = formatted(alloc, device, state) else {
        return Err(invalid_data());
    };
    device.fuse(calls);
    if saved(alloc, device, place, state).is_ok() {
        return Err(invalid_data());
    }
    device.crash(choices);
    agreed(alloc, device)
}

fn every_second(alloc: Global) -> io::Result<Vec<u32>> {
    let mut choices = vec![in alloc; 0; SECTORS as usize]?;
    for choice in choices.iter_mut().step_by(2) {
        *choice = 1;
    }
    Ok(choices)
}

// Returns the place of the store, or an error if the two readers differ.
fn agreed(alloc: Global, device: &mut MemDevice) -> io::Result<SequenceAndUsed> {
    let slow = read_with_plain_reader(alloc, device)?;
    agreed_with(&slow, &read_with_load_latest(alloc, device)?)
}

fn agreed_with(slow: &Reading, fast: &Reading) -> io::Result<SequenceAndUsed> {
    if slow.text.as_str() != fast.text.as_str() {
        return Err(invalid_data());
    }
    Ok(fast.held)
}

fn read_with_plain_reader(alloc: Global, device: &mut MemDevice) -> io::Result<Reading> {
    let image = image_of(alloc, device)?;
    let held = held(alloc, &image);
    let reported = reported(alloc, &held);
    drop(held);
    reported
}

fn read_with_load_latest(alloc: Global, device: &mut MemDevice) -> io::Result<Reading> {
    let loaded = load_latest(alloc, device);
    let reported = reported(alloc, &loaded);
    drop(loaded);
    reported
}

// Returns the bytes that reads return.
fn image_of(alloc: Global, device: &mut MemDevice) -> io::Result<Vec<u8>> {
    let mut image = vec![in alloc; 0; 512 * SECTORS as usize]?;
    if device.len() != SECTORS || device.read(0, &mut image).is_err() {
        return Err(invalid_data());
    }
    Ok(image)
}

/// The result of one of the readers.
#[derive(Drop)]
struct Reading {
    held: SequenceAndUsed,
    /// The complete result, as text.
    text: String,
}

fn reported(alloc: Global, loaded: &Result<Loaded, StoreFault>) -> io::Result<Reading> {
    let held = place_of_load(loaded)?;
    let text = format!(in alloc; "{loaded:?}")?;
    Ok(Reading { held, text })
}

fn place_of_load(loaded: &Result<Loaded, StoreFault>) -> io::Result<SequenceAndUsed> {
    match loaded {
        Ok(loaded) => Ok((loaded.place.sequence, loaded.place.used)),
        Err(StoreFault::NotFormatted) => Ok((0, 0)),
        Err(_) => Err(invalid_data()),
    }
}

// Makes a format, two records, a snapshot of the empty state and one more record, in 16 device calls.
fn small_run<D: Sectors>(alloc: Global, device: &mut D) -> Result<Place, StoreFault> {
    let place = formatted(alloc, device, &State::Empty)?;
    let place = recorded(device, place, &Command::Search(3))?;
    let place = recorded(device, place, &Command::Pin(1, 2))?;
    let place = saved(alloc, device, place, &State::Empty)?;
    recorded(device, place, &Command::Build)
}

// Makes a store with this state and returns its place.
fn formatted<D: Sectors>(alloc: Global, device: &mut D, state: &State) -> Result<Place, StoreFault>
    ensures place { IfOk result (λ place. place ≡ first_place) }
    ensures room { OnOk result (sectors_in version_2 ≤ D.len device.new) }
{
    let Ok(place) = format_with(alloc, device, state) else {
        return Err(StoreFault::DeviceFault);
    };
    Ok(place)
}

// Commits one more record and returns the place after it.
fn recorded<D: Sectors>(
    device: &mut D,
    place: Place,
    command: &Command,
) -> Result<Place, StoreFault>
    requires { HasRecordRoom (D.len device.old) place command.now }
    ensures place { IfOk result (λ next. next ≡ place_after_record place) }
    ensures room { OnOk result (sectors_in version_2 ≤ D.len device.new) }
{
    commit_record(device, place, command)
}

// Commits a snapshot of this state and returns the place after it.
fn saved<D: Sectors>(
    alloc: Global,
    device: &mut D,
    place: Place,
    state: &State,
) -> Result<Place, StoreFault>
    requires room { sectors_in version_2 ≤ D.len device.old }
    requires first { 1 ≤ place.sequence }
    requires last { place.sequence < last_sequence }
    ensures place { IfOk result (λ next. next ≡ place_after_snapshot place) }
    ensures room { OnOk result (sectors_in version_2 ≤ D.len device.new) }
{
    commit_snapshot(alloc, device, place, state)
}
