//! The change that a command makes to a state. It is built beside the state and then swapped in. The swap
//! returns the old parts in the same form, and swapping them in restores the state.
ghost use Rattle.std.specs.Prelude.{◌≡◌};
ghost use Rattle.command_types.specs.Job.{IsJob};
ghost use Rattle.command_types.specs.States.{IsState};
ghost use Rattle.command_core.specs.Changes.{job_with, with_change};

use command_types::{Job, State};
use plan_types::{Pins, Plan};
use std::mem;

/// A change to a job that keeps its problem.
#[derive(Debug, Drop)]
pub enum JobChange {
    Nothing,
    /// New pins and a new working plan.
    Pinned { pins: Pins, work: Plan },
    /// A new working plan and a new deviation.
    Working { work: Plan, deviation: u32 },
    /// New plans, and the new number of steps made.
    Plans { plan: Plan, work: Plan, steps: u64 },
}

impl JobChange {
    // Swaps the change into the job and returns the change that restores the old job. Allocates nothing.
    fn swap_into(self, job: &mut Job) -> JobChange
        requires { IsJob (job_with self job.old) }
        ensures new { job.new ≡ job_with self job.old }
        ensures back { job_with result job.new ≡ job.old }
    {
        match self {
            JobChange::Nothing => JobChange::Nothing,
            JobChange::Pinned { pins, work } => JobChange::Pinned {
                pins: mem::replace(&mut job.pins, pins),
                work: mem::replace(&mut job.work, work),
            },
            JobChange::Working { work, deviation } => JobChange::Working {
                work: mem::replace(&mut job.work, work),
                deviation: mem::replace(&mut job.deviation, deviation),
            },
            JobChange::Plans { plan, work, steps } => JobChange::Plans {
                plan: mem::replace(&mut job.plan, plan),
                work: mem::replace(&mut job.work, work),
                steps: mem::replace(&mut job.steps, steps),
            },
        }
    }
}

/// A change to a state.
#[derive(Debug, Drop)]
pub enum Change {
    /// A whole new state.
    Replace(State),
    /// New parts of the state's job.
    Update(JobChange),
}

impl Change {
    /// Swaps the change into the state and returns the change that restores the old state. Allocates nothing.
    pub(crate) fn swap_into(self, state: &mut State) -> Change
        requires { IsState (with_change self state.old) }
        ensures new { state.new ≡ with_change self state.old }
        ensures back { with_change result state.new ≡ state.old }
    {
        match self {
            Change::Replace(new) => Change::Replace(mem::replace(state, new)),
            Change::Update(change) => match state {
                State::Empty => Change::Update(JobChange::Nothing),
                State::Loaded(job) => Change::Update(change.swap_into(job)),
            },
        }
    }
}
