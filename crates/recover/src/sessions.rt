//! Sessions over a device.
ghost use Rattle.std.specs.Prelude.{◌≡◌, ◌+◌, false, true, List, [], ◌∷◌, ℕ, None, OnOk, MatchOption};
ghost use Rattle.route_sched.specs.Cost.{cost_of};
ghost use Rattle.command_types.specs.States.{IsState};
ghost use Rattle.command_types.specs.declared.states.State.TheVariants.{Empty, Loaded};
ghost use Rattle.sector_disk.specs.Sectors.{Throughout, more};
ghost use Rattle.sector_disk.specs.Calls.{Calls};
ghost use Rattle.state_codec.specs.declared.version.Version.TheVariants.{Two};
ghost use Rattle.recover.specs.RecoversTo.{RecoversTo};
ghost use Rattle.recover.specs.Moments.{RunLeaves};
ghost use Rattle.recover.specs.Applying.{denial, calls_of, IsAnswer, IsApplied, Makes, IsBetween, faults_after_answer};

use crate::commits::{CommitFault, commit, is_snapshot_due};
use crate::denials::Denial;
use crate::replies::Reply;
use checkpoint::{LAST_SEQUENCE, Place};
use command_core::{Command, Job, Planner, State, accepted_commands_fit_records, check};
use log::Log;
use log::sink::Discard;
use plan_types::Cost;
use sector_disk::{MemDevice, Sectors};
use std::alloc::Global;
use std::marker::Model;

/// An open store that accepts commands. Unless the session is broken, and if the device is honest, each image
/// that a crash may leave recovers to the session's state.
#[derive(Drop)]
pub struct Session<D: Sectors> {
    device: D,
    planner: Planner,
    place: Place,
    is_broken: bool,
}

impl<D: Sectors> Model for Session<D> {
    ghost use Rattle.recover.specs.Sessions.{SessionValue};

    ghost Value = { SessionValue D };

    ghost use Rattle.recover.specs.Sessions.{IsSession};

    ghost view = { λ s. record {
      device = s.device;
      state = s.planner;
      place = s.place;
      is_broken =
          s.is_broken;
    } };

    ghost invariant = { λ s. IsSession D.len D.honest D.possible
        (record {
          device = s.device;
          state = s.planner;
          place = s.place;
          is_broken = s.is_broken;
        }) };
}

impl<D: Sectors> Session<D> {
    ghost use Rattle.recover.specs.Sessions.{IsSession};

    /// Creates a session over this device. Each image of the device must recover to this state.
    pub(crate) fn over(device: D, state: State, place: Place) -> Session<D>
        requires { IsSession D.len D.honest D.possible
            (record { device = device; state = state; place = place; is_broken = false }) }
        ensures { result ≡ record {
          device = device;
          state = state;
          place = place;
          is_broken =
              false;
        } }
    {
        Session {
            device,
            planner: Planner::new(state),
            place,
            is_broken: false,
        }
    }

    /// Executes a command and makes it durable. `Ok` comes after the last sync; from then on no crash loses the
    /// command.
    ///
    /// A command without a record (`is_recorded`) writes a snapshot, with four calls of the device. Any other
    /// command writes a record, with two calls, or a snapshot if the journal has 256 records. Every denial
    /// except `DeviceFault` leaves everything unchanged. After `DeviceFault` the session is broken: each image
    /// that a crash may leave recovers to the state before the command or to the one after it, and opening the
    /// device shows which.
    pub fn apply(&mut self, alloc: Global, command: Command) -> Reply
        ensures { IsApplied D.len D.calls D.faults D.honest D.clock D.possible_since D.possible
            self.old command result self.new }
    {
        self.apply_logged(&Discard, alloc, command)
    }

    /// Like `apply`, but logs each attempt with fewer vehicles when it ends.
    pub fn apply_logged<R: Log>(&mut self, rt: &R, alloc: Global, command: Command) -> Reply
        ensures { IsApplied D.len D.calls D.faults D.honest D.clock D.possible_since D.possible
            self.old command result self.new }
    {
        let answer = self.answer(rt, alloc, &command);
        Reply {
            answer,
            calls: self.device.calls(),
        }
    }

    // Executes the command and returns the session's answer.
    fn answer<R: Log>(&mut self, rt: &R, alloc: Global, command: &Command) -> Result<(), Denial>
        ensures answer { IsAnswer (denial self.old command.now) result }
        ensures makes { Makes result self.old command.now self.new }
        ensures called { Calls D.Sectors (more result (calls_of self.old.place command.now))
            (faults_after_answer result) self.old.device self.new.device }
        ensures moments { self.old.is_broken ≡ false → D.honest self.new.device
            → Throughout D.clock D.possible_since self.old.device self.new.device
            (RunLeaves self.old.state (command.now ∷ [])
            (record { answer = result; calls = D.calls self.new.device } ∷ [])) }
        ensures counts { D.honest self.new.device
            → Throughout D.clock D.possible_since self.old.device self.new.device
            (IsBetween (D.calls self.old.device)
            (D.calls self.old.device + calls_of self.old.place command.now)) }
    {
        self.images_recover_to_the_state();
        match self.denial(command) {
            Some(denial) => Err(denial),
            None => self.execute(rt, alloc, command),
        }
    }

    // Returns the reason why the command is denied, if it is. Neither allocates memory nor calls the device.
    fn denial(&self, command: &Command) -> Option<Denial>
        ensures { result ≡ denial self.now command.now }
    {
        if self.is_broken {
            return Some(Denial::Broken);
        }
        if let Err(refusal) = check(self.planner.state(), command) {
            return Some(Denial::Core(refusal));
        }
        if is_snapshot_due(self.place, command) && self.place.sequence == LAST_SEQUENCE {
            return Some(Denial::Spent);
        }
        None
    }

    // Executes a command that is not denied: first computes the next state, for which memory may run out, then
    // commits. If the commit fails, restores the previous state.
    fn execute<R: Log>(&mut self, rt: &R, alloc: Global, command: &Command) -> Result<(), Denial>
        requires { denial self.old command.now ≡ None }
        ensures answer { IsAnswer None result }
        ensures makes { Makes result self.old command.now self.new }
        ensures called { Calls D.Sectors (more result (calls_of self.old.place command.now))
            (faults_after_answer result) self.old.device self.new.device }
        ensures moments { D.honest self.new.device
            → Throughout D.clock D.possible_since self.old.device self.new.device
            (RunLeaves self.old.state (command.now ∷ [])
            (record { answer = result; calls = D.calls self.new.device } ∷ [])) }
        ensures counts { D.honest self.new.device
            → Throughout D.clock D.possible_since self.old.device self.new.device
            (IsBetween (D.calls self.old.device)
            (D.calls self.old.device + calls_of self.old.place command.now)) }
    {
        accepted_commands_fit_records();
        let Ok(before) = self.planner.change_accepted(rt, alloc, command) else {
            return Err(Denial::OutOfMemory);
        };
        match commit(
            alloc,
            &mut self.device,
            self.place,
            command,
            self.planner.state(),
        ) {
            Ok(place) => {
                self.place = place;
                drop(before);
                Ok(())
            }
            Err(CommitFault::OutOfMemory) => {
                self.planner.roll_back(before);
                Err(Denial::OutOfMemory)
            }
            Err(CommitFault::DeviceFault) => {
                self.planner.roll_back(before);
                self.is_broken = true;
                Err(Denial::DeviceFault)
            }
        }
    }

    /// Proves that, unless the session is broken, each image that a crash may leave recovers to the state, if
    /// the device is honest.
    pub fn images_recover_to_the_state(&self)
        ensures { self.now.is_broken ≡ false → D.honest self.now.device → (image : List ℕ)
            → D.possible self.now.device image → RecoversTo Two image self.now.state }
    {
        let _device = &self.device;
    }

    /// Returns the state after all acknowledged commands.
    pub fn state(&self) -> &State
        ensures state { result.now ≡ self.now.state }
        ensures facts { IsState self.now.state }
    {
        self.planner.state()
    }

    /// Returns the job and the cost of its incumbent, if there is a job. After a command that made steps the cost
    /// is known. Otherwise it is computed.
    pub fn incumbent(&self) -> Option<(&Job, Cost)>
        ensures { MatchOption result (self.now.state ≡ Empty) (λ found.
            (self.now.state ≡ Loaded found.0.now)
            × (found.1 ≡ cost_of found.0.now.problem found.0.now.plan)) }
    {
        self.planner.incumbent()
    }

    /// Returns whether the device has failed in a command. If so, each command is answered `Broken`, until the
    /// device is opened again.
    pub fn is_broken(&self) -> bool
        ensures broken { result ≡ self.now.is_broken }
        ensures recovers { result ≡ false → D.honest self.now.device → (image : List ℕ)
            → D.possible self.now.device image → RecoversTo Two image self.now.state }
    {
        self.is_broken
    }

    /// Returns the device.
    pub fn close(self) -> D
        ensures device { result ≡ self.device }
        ensures recovers { self.is_broken ≡ false → D.honest result → (image : List ℕ)
            → D.possible result image → RecoversTo Two image self.state }
    {
        self.device
    }
}

impl Session<MemDevice> {
    ghost use Rattle.std.specs.Prelude.{Some};
    ghost use Rattle.sector_disk.specs.MemDevice.{memory};
    ghost use Rattle.sector_disk.specs.Memory.{IsSameDevice};

    /// Makes each call of the device fail once `k` more calls have finished.
    pub(crate) fn fuse(&mut self, k: u64)
        ensures set { (memory self.new.device).fuse ≡ Some k }
        ensures device { IsSameDevice (memory self.old.device) (memory self.new.device) }
        ensures state { self.new.state ≡ self.old.state }
        ensures place { self.new.place ≡ self.old.place }
        ensures broken { self.new.is_broken ≡ self.old.is_broken }
    {
        self.device.fuse(k);
    }
}
