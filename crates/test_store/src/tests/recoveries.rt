//! Sessions over a store: commands, crashes and recovery.

use crate::tests::builders::{LOADED, SECTORS, empty_store, loaded_store, open, refusal};
use checkpoint::{Place, StoreFault, commit_record};
use command_core::{Command, Job, Refusal, State};
use recover::{Denial, Run, Session};
use sector_disk::{MemDevice, Sectors};
use state_codec::{CodecFault, decode_state};
use std::alloc::Global;
use std::test::Fail;

// Returns the command that leads to the loaded state.
fn load(alloc: Global) -> Result<Command, Fail> {
    match decode_state(alloc, &LOADED)? {
        State::Loaded(job) => Ok(load_of(job)),
        State::Empty => Err(StoreFault::NotFormatted.into()),
    }
}

fn load_of(job: Job) -> Command {
    let Job { problem, .. } = job;
    Command::Load(problem, 0)
}

// Returns why the device is not opened, and how many calls have finished.
fn refused(alloc: Global, device: MemDevice) -> Option<(StoreFault, u64)> {
    refusal(Session::open(alloc, device))
}

// Returns how many search steps the state has made, and how many requests it has.
fn counts(state: &State) -> (u64, usize) {
    match state {
        State::Empty => (0, 0),
        State::Loaded(job) => (job.steps, job.problem.requests.len()),
    }
}

// Returns the answer to a command, and the device's call count after it.
fn answer(
    alloc: Global,
    session: &mut Session<MemDevice>,
    command: Command,
) -> (Result<(), Denial>, u64) {
    let reply = session.apply(alloc, command);
    (reply.answer, reply.calls)
}

#[test]
fn opening_takes_one_call(rt: HostRuntime) -> Result<(), Fail> {
    let device = empty_store(rt.alloc())?;
    assert!(rt; device.calls() == 6);
    let session = open(rt.alloc(), device)?.session;
    assert!(rt; session.close().calls() == 7);
    Ok(())
}

// Returns commands that load the state, build a plan and search 256 steps.
fn commands(alloc: Global) -> Result<Vec<Command>, Fail> {
    let mut commands = Vec::new(alloc);
    commands.push(load(alloc)?)?;
    commands.push(Command::Build)?;
    commands.push(Command::Search(256))?;
    Ok(commands)
}

// Returns the answers of a new store to the commands of `commands`.
fn run(alloc: Global) -> Result<Run, Fail> {
    let commands = commands(alloc)?;
    let mut session = open(alloc, empty_store(alloc)?)?.session;
    let run = session.run(alloc, commands);
    drop(session);
    Ok(run?)
}

#[test]
fn a_run_answers_each_command(rt: HostRuntime) -> Result<(), Fail> {
    let run = run(rt.alloc())?;
    assert_eq!(rt; run.replies.len(), 3);
    for (reply, calls) in run.replies.iter().zip([11, 13, 15]) {
        assert!(rt; reply.answer == Ok(()));
        assert!(rt; reply.calls == calls);
    }
    Ok(())
}

// Returns a session after this number of searches of one step.
fn searched(alloc: Global, times: u32) -> Result<Session<MemDevice>, Fail> {
    let mut session = open(alloc, loaded_store(alloc)?)?.session;
    for _ in 0..times {
        session.apply(alloc, Command::Search(1));
    }
    Ok(session)
}

// Returns how many steps opening replays, and the steps and requests of the state.
fn opened_counts(alloc: Global, device: MemDevice) -> Result<(u64, (u64, usize)), Fail> {
    let opened = open(alloc, device)?;
    let reported = (opened.replayed, counts(opened.session.state()));
    drop(opened);
    Ok(reported)
}

// The result of annealing is stored as a snapshot, with four calls, and opening does not compute it again.
#[test]
fn annealing_becomes_a_snapshot(rt: HostRuntime) -> Result<(), Fail> {
    let mut session = searched(rt.alloc(), 2)?;
    assert!(rt; answer(rt.alloc(), &mut session, Command::Anneal(3)) == (Ok(()), 15));
    assert!(rt; answer(rt.alloc(), &mut session, Command::Search(4)) == (Ok(()), 17));
    let (replayed, counts) = opened_counts(rt.alloc(), session.close())?;
    assert!(rt; replayed == 4);
    assert!(rt; counts == (9, 1));
    Ok(())
}

// Returns a session whose device failed during a command, and its answer.
fn broken(alloc: Global) -> Result<(Session<MemDevice>, (Result<(), Denial>, u64)), Fail> {
    let mut device = loaded_store(alloc)?;
    // Opening is a sync and two reads, a command a write and a sync.
    device.fail_once(4);
    let mut session = open(alloc, device)?.session;
    let failed = answer(alloc, &mut session, Command::Build);
    Ok((session, failed))
}

#[test]
fn a_session_breaks_with_its_device(rt: HostRuntime) -> Result<(), Fail> {
    let (mut session, failed) = broken(rt.alloc())?;
    assert!(rt; failed == (Err(Denial::DeviceFault), 8));
    assert!(rt; session.is_broken());
    let next = answer(rt.alloc(), &mut session, Command::Search(1));
    assert!(rt; next == (Err(Denial::Broken), 8));
    drop(session);
    Ok(())
}

// Returns why a device of zeros is not opened, and how many calls have finished.
fn refused_of(alloc: Global, sectors: u64) -> Result<Option<(StoreFault, u64)>, Fail> {
    Ok(refused(alloc, MemDevice::new(alloc, sectors)?))
}

#[test]
fn a_device_without_a_store_is_refused(rt: HostRuntime) -> Result<(), Fail> {
    for (sectors, calls) in [(801, 0), (802, 1), (8449, 1), (8450, 1)] {
        let refused = refused_of(rt.alloc(), sectors)?;
        assert!(rt; refused == Some((StoreFault::NotFormatted, calls)));
    }
    Ok(())
}

#[test]
fn a_record_that_the_state_refuses(rt: HostRuntime) -> Result<(), Fail> {
    let mut device = loaded_store(rt.alloc())?;
    let place = Place {
        sequence: 1,
        used: 0,
    };
    assert_eq!(rt; device.len(), SECTORS);
    commit_record(&mut device, place, &Command::Withdraw(9))?;
    let bad_field = StoreFault::Codec(CodecFault::BadField);
    assert!(rt; refused(rt.alloc(), device) == Some((bad_field, 9)));
    Ok(())
}

// Returns the answer of a new store to `checkpoint`, and the device's call count after it.
fn answer_of_an_empty_store(alloc: Global) -> Result<(Result<(), Denial>, u64), Fail> {
    let mut session = open(alloc, empty_store(alloc)?)?.session;
    let answer = answer(alloc, &mut session, Command::Checkpoint);
    drop(session);
    Ok(answer)
}

#[test]
fn an_empty_state_refuses(rt: HostRuntime) -> Result<(), Fail> {
    let no_instance = Denial::Core(Refusal::NoInstance);
    let (answer, calls) = answer_of_an_empty_store(rt.alloc())?;
    assert!(rt; answer == Err(no_instance));
    assert!(rt; calls == 7);
    assert!(rt; no_instance.name() == "NoInstance");
    Ok(())
}
