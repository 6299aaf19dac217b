//! Rounds: a store in memory is opened, executes commands, and is crashed or closed, again and again.
//!
//! `run_rounds` extends the headline to any list of crashes and restarts. The only premise is that it answers
//! `Ok`: then the image that reads returned recovers to a state. A crash clears a device's history, so the
//! proof is a fold over states: each round begins with the state that the previous one left.
ghost use Rattle.std.specs.Prelude.{◌≡◌, List, ℕ, IfOk, IfErr};
ghost use Rattle.sector_disk.specs.MemDevice.{memory};
ghost use Rattle.sector_disk.specs.Memory.{MayLeave};
ghost use Rattle.recover.specs.Rounds.{seen_in, IsMemoryOpened, IsLeft, IsRound, IsUnopened, IsUnbegun, EndsRounds, CutsRounds};
ghost use Rattle.recover.specs.Folds.{IsFold};

use crate::replies::Run;
use crate::sessions::Session;
use checkpoint::StoreFault;
use command_core::{
    Command, annealings_add_up, commands_keep_invariants, plans_never_cost_more, searches_add_up,
};
use plan_audit::passes_decides_the_verdict;
use sector_disk::MemDevice;
use std::alloc::Global;

/// The crash that ends a round, and what it leaves.
#[derive(Debug, Drop)]
pub struct Halt {
    /// Every call fails once this many more calls of the device have finished, counted from the end of the
    /// opening. If the commands make fewer calls, the crash comes after the last command.
    pub calls: u64,
    /// The choice of a possible content for each sector, as in `MemDevice::crash`.
    pub choices: Vec<u32>,
}

/// One opening of the store, commands, and a crash or a close.
#[derive(Debug, Drop)]
pub struct Round {
    pub commands: Vec<Command>,
    pub stop: Option<Halt>,
}

/// The reason why a round is not executed.
#[derive(Clone, Copy, Debug, PartialEq, Eq)]
pub enum RoundsFault {
    /// The store is not opened.
    Open(StoreFault),
    /// There is no memory for the answers.
    OutOfMemory,
}

impl RoundsFault {
    ghost use Rattle.std.specs.Prelude.{◌≡◌};
    ghost use Rattle.recover.specs.Names.{rounds_fault_name};

    /// Returns the name of the fault. If the store is not opened, it is the name of the store's fault.
    pub fn name(&self) -> &'static str
        ensures { result.now ≡ rounds_fault_name self.now }
    {
        match self {
            RoundsFault::Open(fault) => fault.name(),
            RoundsFault::OutOfMemory => "OutOfMemory",
        }
    }
}

/// The result of rounds: the store, opened once more, and the answers of each round.
#[derive(Drop)]
pub struct Rounds {
    pub session: Session<MemDevice>,
    pub runs: Vec<Run>,
}

impl Session<MemDevice> {
    ghost use Rattle.std.specs.Prelude.{◌≡◌};
    ghost use Rattle.sector_disk.specs.MemDevice.{memory};
    ghost use Rattle.sector_disk.specs.Memory.{IsSameDevice};
    ghost use Rattle.recover.specs.Rounds.{IsSet};

    // Sets the number of calls after which the device fails, if the round ends with a crash.
    fn set_halt(&mut self, stop: &Option<Halt>)
        ensures set { IsSet stop.now self.new.device }
        ensures device { IsSameDevice (memory self.old.device) (memory self.new.device) }
        ensures state { self.new.state ≡ self.old.state }
        ensures place { self.new.place ≡ self.old.place }
        ensures broken { self.new.is_broken ≡ self.old.is_broken }
    {
        if let Some(halt) = stop {
            self.fuse(halt.calls);
        }
    }
}

// Crashes the device, if the round ends with a crash.
fn apply_halt(device: &mut MemDevice, stop: &Option<Halt>)
    ensures left { IsLeft stop.now device.old device.new }
    ensures images { (image : List ℕ) → MayLeave (memory device.new) image
        → MayLeave (memory device.old) image }
    ensures faults { (memory device.new).faults ≡ (memory device.old).faults }
{
    if let Some(halt) = stop {
        device.crash(&halt.choices);
    }
}

/// Opens the store on a device in memory.
pub(crate) fn open_store(
    alloc: Global,
    device: MemDevice,
) -> Result<Session<MemDevice>, (StoreFault, MemDevice)>
    ensures opened { IfOk result (λ s. IsMemoryOpened device s) }
    ensures refused { IfErr result (λ e. IsUnopened device e.0 e.1) }
{
    match Session::open(alloc, device) {
        Ok(opened) => Ok(opened.session),
        Err((fault, device)) => Err((fault, device)),
    }
}

/// Like `open_store`, but returns the fault as a `RoundsFault`.
pub(crate) fn reopen(
    alloc: Global,
    device: MemDevice,
) -> Result<Session<MemDevice>, (RoundsFault, MemDevice)>
    ensures opened { IfOk result (λ s. IsMemoryOpened device s) }
    ensures refused { IfErr result (λ e. IsUnbegun device e.0 e.1) }
{
    match open_store(alloc, device) {
        Ok(session) => Ok(session),
        Err((fault, device)) => Err((RoundsFault::Open(fault), device)),
    }
}

/// Executes a round on a device in memory: opens the store, executes the commands, and closes the session or
/// crashes the device.
///
/// Returns `Ok` only if the image that reads return recovers to a state. The commands are then executed from
/// that state on, and answered as `apply` answers them one after another. If there is no memory for the
/// answers, this is reported before the device is called.
pub fn run_round(
    alloc: Global,
    device: MemDevice,
    round: Round,
) -> Result<(Run, MemDevice), (RoundsFault, MemDevice)>
    ensures round { IfOk result (λ r. IsRound device round r.0.replies.items r.1) }
    ensures refused { IfErr result (λ e. IsUnbegun device e.0 e.1) }
{
    let Ok(replies) = Vec::with_capacity(alloc, round.commands.len()) else {
        return Err((RoundsFault::OutOfMemory, device));
    };
    let mut session = reopen(alloc, device)?;
    session.set_halt(&round.stop);
    let run = session.run_into(alloc, round.commands, replies);
    let mut left = session.close();
    apply_halt(&mut left, &round.stop);
    Ok((run, left))
}

/// Executes rounds, one after another, and opens the store once more.
///
/// The session's state is the one after the recovered commands of all rounds, joined. From each round a prefix
/// of its commands is recovered, with all acknowledged ones and at most one more. The plan passes the auditor
/// and costs no more than any incumbent since the last change of requests or pins among these commands.
/// Consecutive searches count as one search, wherever the rounds divide them, and so do annealings. A fault
/// leaves the device as the previous rounds left it.
pub fn run_rounds(
    alloc: Global,
    device: MemDevice,
    rounds: Vec<Round>,
) -> Result<Rounds, (RoundsFault, MemDevice)>
    ensures rounds { IfOk result (λ r.
        EndsRounds device rounds.items r.runs.items r.session) }
    ensures fold { IfOk result (λ r.
        IsFold (seen_in device) rounds.items r.runs.items r.session.state) }
    ensures refused { IfErr result (λ e. CutsRounds device rounds.items e.0 e.1) }
{
    commands_keep_invariants();
    plans_never_cost_more();
    searches_add_up();
    annealings_add_up();
    passes_decides_the_verdict();
    let Ok(mut runs) = Vec::with_capacity(alloc, rounds.len()) else {
        return Err((RoundsFault::OutOfMemory, device));
    };
    let mut left = device;
    for round in rounds {
        let (run, next) = run_round(alloc, left, round)?;
        runs.push(run).unwrap();
        left = next;
    }
    let session = reopen(alloc, left)?;
    Ok(Rounds { session, runs })
}
