//! Restarts: a store in memory is opened, executes commands, and is closed, killed or crashed, again and again.
//! An opening may fail.
//!
//! `run_restarts` extends the headline to any list of restarts. After a kill, everything that a crash might
//! have left remains possible, and a failed opening adds no other image. So the proof tracks what each image of
//! the device recovers to, until an opening succeeds and shows which image reads returned. The path from the
//! start of a run to the next successful opening is a link, and links compose (`restarts_compose`).
ghost use Rattle.std.specs.Prelude.{◌≡◌, ◌≤◌, [], List, ℕ, length, IfOk, IfErr};
ghost use Rattle.std.specs.Vec.{vec_capacity};
ghost use Rattle.sector_disk.specs.MemDevice.{memory};
ghost use Rattle.sector_disk.specs.Memory.{MayLeave, IsSameDevice, KeepsCounts};
ghost use Rattle.recover.specs.Rounds.{IsMemoryOpened};
ghost use Rattle.recover.specs.Restarts.{IsArmed, IsEnded, CarriesOut, HasResult, IsRestart, IsNoRestart, EndsRestarts, AreJoined, CutsRestarts};

use crate::laws::restarts_compose;
use crate::replies::{Reply, Run};
use crate::rounds::{RoundsFault, open_store, reopen};
use crate::sessions::Session;
use checkpoint::StoreFault;
use command_core::{Command, commands_keep_invariants, plans_never_cost_more};
use plan_audit::passes_decides_the_verdict;
use sector_disk::MemDevice;
use std::alloc::Global;

/// The end of a restart. If it has `calls`, the device fails every call after this many finished ones, counted
/// from before the opening. An opening syncs and then reads, so with 0 or 1 the opening itself fails. If the
/// commands make fewer calls, the end comes after the last command.
#[derive(Debug, Drop)]
pub enum Ending {
    /// The session is closed.
    Closed,
    /// The process is killed, but its device is not: everything that a crash might have left remains possible.
    Killed { calls: u64 },
    /// The device crashes too: each sector takes the chosen one of its possible contents, as in
    /// `MemDevice::crash`.
    Crashed { calls: u64, choices: Vec<u32> },
}

/// One opening of the store, commands, and an end.
#[derive(Debug, Drop)]
pub struct Restart {
    pub commands: Vec<Command>,
    pub ending: Ending,
}

/// The result of restarts: the store, opened once more, and for each restart the answers, or the reason why the
/// store was not opened.
#[derive(Drop)]
pub struct Restarts {
    pub session: Session<MemDevice>,
    pub runs: Vec<Result<Run, StoreFault>>,
}

// Sets the number of calls after which the device fails, for this end of a restart.
fn arm(device: &mut MemDevice, ending: &Ending)
    ensures armed { IsArmed ending.now device.old device.new }
    ensures same { IsSameDevice (memory device.old) (memory device.new) }
{
    match ending {
        Ending::Closed => {}
        Ending::Killed { calls } | Ending::Crashed { calls, .. } => device.fuse(*calls),
    }
}

// Ends a restart: leaves the device as it is, kills the process or crashes the device.
fn end(device: &mut MemDevice, ending: &Ending)
    ensures ended { IsEnded ending.now device.old device.new }
    ensures images { (image : List ℕ) → MayLeave (memory device.new) image
        → MayLeave (memory device.old) image }
    ensures counts { KeepsCounts (memory device.old) (memory device.new) }
{
    match ending {
        Ending::Closed => {}
        Ending::Killed { .. } => device.revive(),
        Ending::Crashed { choices, .. } => device.crash(choices),
    }
}

// Executes commands and closes the session. The caller has reserved room for the answers.
fn run_and_close(
    alloc: Global,
    session: Session<MemDevice>,
    commands: Vec<Command>,
    replies: Vec<Reply>,
) -> (Run, MemDevice)
    requires empty { replies.items ≡ [] }
    requires room { length commands.items ≤ vec_capacity replies }
    ensures { (device : MemDevice) → IsMemoryOpened device session
        → CarriesOut device commands.items result.0.replies.items result.1 }
{
    let mut session = session;
    let run = session.run_into(alloc, commands, replies);
    (run, session.close())
}

// Opens the store and executes commands, or returns the fault of the opening. The caller has reserved room for
// the answers.
fn open_and_run(
    alloc: Global,
    device: MemDevice,
    commands: Vec<Command>,
    replies: Vec<Reply>,
) -> (Result<Run, StoreFault>, MemDevice)
    requires empty { replies.items ≡ [] }
    requires room { length commands.items ≤ vec_capacity replies }
    ensures { HasResult device commands.items result.0 result.1 }
{
    match open_store(alloc, device) {
        Ok(session) => {
            let (run, device) = run_and_close(alloc, session, commands, replies);
            (Ok(run), device)
        }
        Err((fault, device)) => (Err(fault), device),
    }
}

// Executes one restart. If there is no memory for the answers, this is reported before the device is called.
fn run_restart(
    alloc: Global,
    device: MemDevice,
    restart: Restart,
) -> Result<(Result<Run, StoreFault>, MemDevice), (RoundsFault, MemDevice)>
    ensures restart { IfOk result (λ r. IsRestart device restart r.0 r.1) }
    ensures refused { IfErr result (λ e. IsNoRestart device e.0 e.1) }
{
    let Ok(replies) = Vec::with_capacity(alloc, restart.commands.len()) else {
        return Err((RoundsFault::OutOfMemory, device));
    };
    let mut device = device;
    arm(&mut device, &restart.ending);
    let (run, handed) = open_and_run(alloc, device, restart.commands, replies);
    let mut left = handed;
    end(&mut left, &restart.ending);
    Ok((run, left))
}

/// Executes restarts, one after another, and opens the store once more.
///
/// Wherever the process was killed or the device crashed, during an opening or after it, the session's state is
/// the one after the recovered commands of all restarts, joined. From a restart whose opening succeeded a
/// prefix of its commands is recovered, with all acknowledged ones and at most one more. The plan passes the
/// auditor and costs no more than any incumbent since the last change of requests or pins among these commands.
/// Consecutive searches count as one search, and so do annealings. A restart whose opening fails adds nothing,
/// and the next one continues.
pub fn run_restarts(
    alloc: Global,
    device: MemDevice,
    restarts: Vec<Restart>,
) -> Result<Restarts, (RoundsFault, MemDevice)>
    ensures restarts { IfOk result (λ r.
        EndsRestarts device restarts.items r.runs.items r.session) }
    ensures joined { IfOk result (λ r.
        AreJoined device restarts.items r.runs.items r.session.state) }
    ensures refused { IfErr result (λ e. CutsRestarts device restarts.items e.0 e.1) }
{
    commands_keep_invariants();
    plans_never_cost_more();
    passes_decides_the_verdict();
    restarts_compose();
    let Ok(mut runs) = Vec::with_capacity(alloc, restarts.len()) else {
        return Err((RoundsFault::OutOfMemory, device));
    };
    let mut left = device;
    for restart in restarts {
        let (run, next) = run_restart(alloc, left, restart)?;
        runs.push(run).unwrap();
        left = next;
    }
    let session = reopen(alloc, left)?;
    Ok(Restarts { session, runs })
}
