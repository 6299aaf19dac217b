//! Restarts: a store that is closed, killed or crashed and opened again, while openings fail.
//!
//! Opening takes one call. A search of 256 or of 44 steps takes two: its record is written and then synced.

use crate::tests::builders::{SECTORS, empty_store, refusal};
use crate::tests::rounds::{Step, commands_of};
use checkpoint::StoreFault;
use command_core::State;
use recover::{Ending, Restart, Restarts, RoundsFault, Run, run_restarts};
use sector_disk::{MemDevice, Sectors};
use std::alloc::Global;
use std::test::Fail;

/// The end of a restart: closed, or killed or crashed once that many calls have finished. In a crash each sector
/// takes the first content written since the last sync.
#[derive(Clone, Copy)]
enum End {
    Closed,
    Killed(u64),
    Crashed(u64),
}

/// The commands of a restart, and its end.
type Script = (&'static [Step], End);

const BEGIN: Script = (&[Step::Load, Step::Build], End::Closed);

const SEARCHES: &[Step] = &[Step::Search(256), Step::Search(44)];

/// The outcome of a restart that did not open.
const NOT_OPENED: i64 = -1;

fn ending_of(alloc: Global, end: End) -> Result<Ending, Fail> {
    match end {
        End::Closed => Ok(Ending::Closed),
        End::Killed(calls) => Ok(Ending::Killed { calls }),
        End::Crashed(calls) => Ok(Ending::Crashed {
            calls,
            choices: vec![in alloc; 1; SECTORS as usize]?,
        }),
    }
}

fn restart_of(alloc: Global, given: Script) -> Result<Restart, Fail> {
    let commands = commands_of(alloc, given.0)?;
    let ending = ending_of(alloc, given.1)?;
    Ok(Restart { commands, ending })
}

fn restarts_of(alloc: Global, all: &[Script]) -> Result<Vec<Restart>, Fail> {
    let mut restarts = Vec::new(alloc);
    for given in all {
        restarts.push(restart_of(alloc, *given)?)?;
    }
    Ok(restarts)
}

fn run_all(alloc: Global, device: MemDevice, all: &[Script]) -> Result<Restarts, Fail> {
    let restarts = restarts_of(alloc, all)?;
    match run_restarts(alloc, device, restarts) {
        Ok(restarts) => Ok(restarts),
        Err((fault, _)) => Err(fault.into()),
    }
}

// Returns how many commands were acknowledged.
fn acknowledged(run: &Run) -> i64 {
    let mut count = 0i64;
    for reply in run.replies.iter() {
        if reply.answer.is_ok() {
            count = count.saturating_add(1);
        }
    }
    count
}

// Returns the outcome of a restart.
fn outcome(run: &Result<Run, StoreFault>) -> i64 {
    match run {
        Ok(run) => acknowledged(run),
        Err(_) => NOT_OPENED,
    }
}

// Returns whether the restarts had these outcomes.
fn are_outcomes(restarts: &Restarts, wanted: &[i64]) -> bool {
    if restarts.runs.len() != wanted.len() {
        return false;
    }
    for (run, wanted) in restarts.runs.iter().zip(wanted) {
        if outcome(run) != *wanted {
            return false;
        }
    }
    true
}

// Returns how many search steps the state has made.
fn steps(restarts: &Restarts) -> u64 {
    match restarts.session.state() {
        State::Empty => 0,
        State::Loaded(job) => job.steps,
    }
}

// Returns whether the restarts had these outcomes, and the state has this number of search steps.
fn have_outcomes(restarts: &Restarts, wanted: &[i64], stand: u64) -> bool {
    are_outcomes(restarts, wanted) && steps(restarts) == stand
}

// Returns whether restarts of an empty store have these outcomes, and leave this number of search steps.
fn ends_with_outcomes(
    alloc: Global,
    all: &[Script],
    wanted: &[i64],
    stand: u64,
) -> Result<bool, Fail> {
    let restarts = run_all(alloc, empty_store(alloc)?, all)?;
    let have_come = have_outcomes(&restarts, wanted, stand);
    drop(restarts);
    Ok(have_come)
}

// The record of the second search is not written: the kill comes after the call of the opening and two of the
// first search.
#[test]
fn a_kill_before_a_record(rt: HostRuntime) -> Result<(), Fail> {
    let all = [BEGIN, (SEARCHES, End::Killed(3))];
    assert!(rt; ends_with_outcomes(rt.alloc(), &all, &[2, 1], 256)?);
    Ok(())
}

// The record is written but not synced, so it was not acknowledged. The next opening reads it nevertheless.
#[test]
fn a_kill_after_a_record(rt: HostRuntime) -> Result<(), Fail> {
    let all = [BEGIN, (SEARCHES, End::Killed(4))];
    assert!(rt; ends_with_outcomes(rt.alloc(), &all, &[2, 1], 300)?);
    Ok(())
}

// The content of the failed write is still possible after the kill. A crash during the next opening chooses it.
#[test]
fn a_kill_and_then_a_crash_within_the_opening(rt: HostRuntime) -> Result<(), Fail> {
    let all = [
        BEGIN,
        (SEARCHES, End::Killed(3)),
        (SEARCHES, End::Crashed(0)),
    ];
    assert!(rt; ends_with_outcomes(rt.alloc(), &all, &[2, 1, NOT_OPENED], 300)?);
    Ok(())
}

// One kill is before the sync of the opening, one after it.
#[test]
fn kills_within_openings(rt: HostRuntime) -> Result<(), Fail> {
    let all = [
        BEGIN,
        (SEARCHES, End::Killed(0)),
        (SEARCHES, End::Killed(1)),
        (SEARCHES, End::Closed),
    ];
    assert!(rt; ends_with_outcomes(rt.alloc(), &all, &[2, NOT_OPENED, NOT_OPENED, 2], 300)?);
    Ok(())
}

// Returns whether the list continues if the device fails during the first opening.
fn continues(alloc: Global) -> Result<bool, Fail> {
    let mut device = empty_store(alloc)?;
    device.fail_once(0);
    let restarts = run_all(alloc, device, &[BEGIN, BEGIN])?;
    let have_come = have_outcomes(&restarts, &[NOT_OPENED, 2], 0);
    drop(restarts);
    Ok(have_come)
}

#[test]
fn an_opening_that_the_device_refuses(rt: HostRuntime) -> Result<(), Fail> {
    assert!(rt; continues(rt.alloc())?);
    Ok(())
}

// Returns why restarts are refused, and how many calls have finished.
fn refused(
    alloc: Global,
    device: MemDevice,
    all: &[Script],
) -> Result<Option<(RoundsFault, u64)>, Fail> {
    let restarts = restarts_of(alloc, all)?;
    Ok(refusal(run_restarts(alloc, device, restarts)))
}

// Each of three openings syncs once.
#[test]
fn restarts_over_no_store(rt: HostRuntime) -> Result<(), Fail> {
    let not_formatted = RoundsFault::Open(StoreFault::NotFormatted);
    let device = MemDevice::new(rt.alloc(), SECTORS)?;
    let answer = refused(rt.alloc(), device, &[BEGIN, BEGIN])?;
    assert!(rt; answer == Some((not_formatted, 3)));
    Ok(())
}
