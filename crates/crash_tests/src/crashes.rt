//! Runs that crash, and the results of opening their device.

use crate::examples::{Example, bytes_of, commands_of, invalid_data, or_invalid_data, states_of};
use crate::tables::print_row;
use checkpoint::{SECTORS, check_integrity, format};
use command_core::Command;
use recover::{Denial, Opened, Reply, Run, Session};
use sector_disk::MemDevice;
use std::alloc::{AllocError, Global};
use std::io;

/// A table of the crashes of an example, with a row for each number of finished calls. A row counts the results
/// of one crash for each choice of what the crash leaves in the sectors of `written`.
#[derive(Clone, Copy)]
struct Table {
    title: &'static str,
    example: Example,
    first: u64,
    last: u64,
    written: &'static [usize],
    /// The number of choices: 2 to the power of the number of written sectors.
    choices: u32,
}

const TABLES: [Table; 3] = [
    Table {
        title: "five commands stopped, by calls: acknowledged; how often their state, one more, another; with steps repeated; in doubt",
        example: Example::Five,
        first: 0,
        last: 14,
        // Both headers, three records, and the first sector of each half.
        written: &[0, 1, 2, 3, 4, 258, 4354],
        choices: 128,
    },
    Table {
        title: "a load of three sectors stopped, by calls",
        example: Example::WideLoad,
        first: 0,
        last: 4,
        written: &[0, 258, 259, 260],
        choices: 16,
    },
    Table {
        title: "the same load over a state stopped, by calls",
        example: Example::SecondLoad,
        first: 4,
        last: 8,
        written: &[1, 4354, 4355, 4356],
        choices: 16,
    },
];

/// Prints the tables.
pub(crate) fn print_crashes<R: Print>(rt: &R, alloc: Global) -> io::Result<()> {
    for table in &TABLES {
        println!(rt; "{}", table.title)?;
        print_table(rt, alloc, table)?;
    }
    Ok(())
}

fn print_table<R: Print>(rt: &R, alloc: Global, table: &Table) -> io::Result<()> {
    for calls in table.first..=table.last {
        print_row(rt, calls, &row_of(alloc, table, calls)?)?;
    }
    Ok(())
}

// Returns the row for the crashes after `calls` finished calls.
fn row_of(alloc: Global, table: &Table, calls: u64) -> io::Result<[u64; 6]> {
    let states = states_of(alloc, table.example)?;
    Ok(tally_of(alloc, table, calls, &states)?.row())
}

// Counts the crashes of a row by their results. `states` are the states before the commands and after each of
// them.
fn tally_of(alloc: Global, table: &Table, calls: u64, states: &[Vec<u8>]) -> io::Result<Tally> {
    let mut tally = Tally::default();
    for choice in 0..table.choices {
        tally.add(&crashed(alloc, table, calls, choice)?, states);
    }
    Ok(tally)
}

/// Returns a device with a new store.
pub(crate) fn fresh(alloc: Global) -> io::Result<MemDevice> {
    let mut device = MemDevice::new(alloc, SECTORS)?;
    or_invalid_data(format(alloc, &mut device))?;
    Ok(device)
}

/// Opens the store on the device.
pub(crate) fn open(alloc: Global, device: MemDevice) -> io::Result<Opened<MemDevice>> {
    or_invalid_data(Session::open(alloc, device))
}

/// Returns the state after opening, as bytes, and the device.
pub(crate) fn opened_state(alloc: Global, device: MemDevice) -> io::Result<(Vec<u8>, MemDevice)> {
    let session = open(alloc, device)?.session;
    let bytes = bytes_of(alloc, session.state());
    let device = session.close();
    Ok((bytes?, device))
}

/// Returns the device after a load and a build, whatever their answers.
pub(crate) fn built(alloc: Global, device: MemDevice, load: Command) -> io::Result<MemDevice> {
    let mut session = open(alloc, device)?.session;
    let _ = session.apply(alloc, load);
    let _ = session.apply(alloc, Command::Build);
    Ok(session.close())
}

/// Returns the choices of a crash: for each of these sectors the first or the second content, by the bits of
/// `choice`, and for all others the first.
pub(crate) fn choices_of(alloc: Global, sectors: &[usize], choice: u32) -> io::Result<Vec<u32>> {
    let mut choices = vec![in alloc; 0u32; SECTORS as usize]?;
    let mut digits = choice;
    for sector in sectors {
        if let Some(content) = choices.get_mut(*sector) {
            *content = digits % 2;
        }
        digits /= 2;
    }
    Ok(choices)
}

/// The results of a run that crashed.
#[derive(Drop)]
pub(crate) struct RunResult {
    /// The numbers of commands that were answered Ok, DeviceFault, and Broken.
    pub acknowledged: u64,
    pub faults: u64,
    pub refused: u64,
    /// The state after opening, as bytes.
    pub bytes: Vec<u8>,
    /// The number of replayed search steps.
    pub replayed: u64,
    /// Whether the store had an integrity warning before it was opened.
    pub has_warning: bool,
}

impl RunResult {
    /// Runs commands, crashes the device with these choices, and opens it.
    pub(crate) fn of(
        alloc: Global,
        mut session: Session<MemDevice>,
        commands: Vec<Command>,
        choices: &[u32],
    ) -> io::Result<RunResult> {
        let run = session.run(alloc, commands);
        let mut device = session.close();
        device.crash(choices);
        let has_warning = has_warning(alloc, &mut device);
        let opened = open(alloc, device);
        let ended = RunResult::with(alloc, &run, &opened, has_warning);
        drop(opened);
        ended
    }

    // Collects the answers and the result of opening. Fails if one of them is missing.
    fn with(
        alloc: Global,
        run: &Result<Run, AllocError>,
        opened: &io::Result<Opened<MemDevice>>,
        has_warning: io::Result<bool>,
    ) -> io::Result<RunResult> {
        match (run, opened) {
            (Ok(run), Ok(opened)) => RunResult::found(alloc, &run.replies, opened, has_warning?),
            _ => Err(invalid_data()),
        }
    }

    fn found(
        alloc: Global,
        replies: &[Reply],
        opened: &Opened<MemDevice>,
        has_warning: bool,
    ) -> io::Result<RunResult> {
        Ok(RunResult {
            acknowledged: count_of(replies, Ok(())),
            faults: count_of(replies, Err(Denial::DeviceFault)),
            refused: count_of(replies, Err(Denial::Broken)),
            bytes: bytes_of(alloc, opened.session.state())?,
            replayed: opened.replayed,
            has_warning,
        })
    }
}

// Returns whether the store on the device has an integrity warning.
fn has_warning(alloc: Global, device: &mut MemDevice) -> io::Result<bool> {
    Ok(!or_invalid_data(check_integrity(alloc, device))?.is_empty())
}

// Counts the commands with this answer.
fn count_of(replies: &[Reply], answer: Result<(), Denial>) -> u64 {
    replies
        .iter()
        .filter(|reply| reply.answer == answer)
        .count() as u64
}

/// Returns the index of the first state with these bytes, or the number of states if none has them.
pub(crate) fn place_of(states: &[Vec<u8>], bytes: &[u8]) -> u64 {
    states
        .iter()
        .position(|state| state.as_slice() == bytes)
        .unwrap_or(states.len()) as u64
}

// Returns whether the state with this number has these bytes.
fn is_state(states: &[Vec<u8>], number: u64, bytes: &[u8]) -> bool {
    match states.get(number as usize) {
        Some(state) => state.as_slice() == bytes,
        None => false,
    }
}

// Runs the example over a new store. Once the commands have finished `calls` calls, every call fails, and then
// the device crashes.
fn crashed(alloc: Global, table: &Table, calls: u64, choice: u32) -> io::Result<RunResult> {
    let choices = choices_of(alloc, table.written, choice)?;
    crashed_with(alloc, table, calls, &choices)
}

fn crashed_with(
    alloc: Global,
    table: &Table,
    calls: u64,
    choices: &[u32],
) -> io::Result<RunResult> {
    let commands = commands_of(alloc, table.example)?;
    RunResult::of(alloc, fused(alloc, calls)?, commands, choices)
}

// Opens a new store whose device fails after `calls` more calls.
fn fused(alloc: Global, calls: u64) -> io::Result<Session<MemDevice>> {
    let mut device = fresh(alloc)?;
    if calls == 0 {
        // If no call were left after the sync of opening, the reads of opening would fail, too. Opening is three
        // calls: a sync and two reads.
        device.fail_once(3);
    } else {
        device.fuse(calls.saturating_add(1));
    }
    Ok(open(alloc, device)?.session)
}

/// The number of crashes for each result of opening.
#[derive(Default, Clone, Copy)]
struct Tally {
    acknowledged: u64,
    /// The numbers of stores that opened with the state of the acknowledged commands, with that of one more
    /// command, and with another state.
    same: u64,
    one_more: u64,
    other: u64,
    /// The number of openings that replayed search steps.
    replayed: u64,
    /// The number of stores with an integrity warning.
    with_warning: u64,
}

impl Tally {
    fn add(&mut self, ended: &RunResult, states: &[Vec<u8>]) {
        self.acknowledged = ended.acknowledged;
        let count = if is_state(states, ended.acknowledged, &ended.bytes) {
            &mut self.same
        } else if is_state(states, ended.acknowledged.saturating_add(1), &ended.bytes) {
            &mut self.one_more
        } else {
            &mut self.other
        };
        *count = count.saturating_add(1);
        if ended.replayed > 0 {
            self.replayed = self.replayed.saturating_add(1);
        }
        if ended.has_warning {
            self.with_warning = self.with_warning.saturating_add(1);
        }
    }

    fn row(self) -> [u64; 6] {
        [
            self.acknowledged,
            self.same,
            self.one_more,
            self.other,
            self.replayed,
            self.with_warning,
        ]
    }
}
