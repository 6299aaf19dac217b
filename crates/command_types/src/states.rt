//! The state of a planner: empty, or a job.
//!
//! The fields of a job are public. Decoders build a job with `Job::from_parts`, which requires the invariants
//! of the type. The working plan may be any plan that passes the auditor; `seeded_search` proves that, if it is
//! within the deviation of the incumbent, a search keeps it there.
ghost use Rattle.std.specs.Prelude.{◌≡◌, IfOk};
ghost use Rattle.command_types.specs.Job.{IsJob};

use crate::lists::{JobLists, copies};
use plan_types::{OutOfMemory, Pins, Plan, Problem};
use std::marker::Model;

/// A problem with its plans and pins. Both plans pass the auditor with the pins, each vehicle has a pin, and
/// each pin alone is a feasible route.
#[derive(Debug, Drop)]
pub struct Job {
    pub problem: Problem,
    pub pins: Pins,
    /// The incumbent: the best plan so far.
    pub plan: Plan,
    /// The working plan, from which the next step starts.
    pub work: Plan,
    /// The limit by which the distance of the working plan may exceed the incumbent's, 0..=`MAX_DEVIATION`. In
    /// an annealing step it is relative to the previous working plan.
    pub deviation: u32,
    pub seed: u64,
    /// The number of steps made, of the search and of annealing, 0..=`MAX_STEPS`. The next step takes its random
    /// words from position `16 * steps` on.
    pub steps: u64,
}

impl Model for Job {
    ghost use Rattle.command_types.specs.Job.{JobValue};

    ghost Value = { JobValue };

    ghost use Rattle.command_types.specs.Fields.{job_of, KeepsInvariant};

    ghost view = { job_of };

    ghost invariant = { KeepsInvariant };
}

impl Job {
    /// Returns the job of these parts, which must satisfy the invariants of a job. Allocates nothing.
    pub fn from_parts(
        problem: Problem,
        pins: Pins,
        plan: Plan,
        work: Plan,
        deviation: u32,
        seed: u64,
        steps: u64,
    ) -> Job
        requires { IsJob (record {
          problem = problem;
          pins = pins.routes;
          plan = plan.routes;
          work =
              work.routes;
          deviation = deviation;
          seed = seed;
          steps = steps;
        }) }
        ensures { result ≡ record {
          problem = problem;
          pins = pins.routes;
          plan = plan.routes;
          work
              = work.routes;
          deviation = deviation;
          seed = seed;
          steps = steps;
        } }
    {
        Job {
            problem,
            pins,
            plan,
            work,
            deviation,
            seed,
            steps,
        }
    }

    /// Returns a copy of the job.
    pub fn copy(&self) -> Result<Job, OutOfMemory>
        ensures { IfOk result (λ copy. copy ≡ self.now) }
    {
        let problem = self.problem.copy()?;
        let lists = copies(&self.pins, &self.plan, &self.work)?;
        Ok(self.with_parts(problem, lists))
    }

    /// Returns the job with another problem and other lists, which must satisfy the invariants of a job.
    /// Allocates nothing.
    pub fn with_parts(&self, problem: Problem, lists: JobLists) -> Job
        requires { IsJob (record self.now {
          problem = problem;
          pins = lists.pins.routes;
          plan = lists.plan.routes;
          work = lists.work.routes;
        }) }
        ensures { result ≡ record self.now {
          problem = problem;
          pins = lists.pins.routes;
          plan = lists.plan.routes;
          work = lists.work.routes;
        } }
    {
        Job {
            problem,
            pins: lists.pins,
            plan: lists.plan,
            work: lists.work,
            deviation: self.deviation,
            seed: self.seed,
            steps: self.steps,
        }
    }
}

/// The state of a planner.
#[derive(Debug, Drop)]
pub enum State {
    /// Nothing is loaded yet.
    Empty,
    Loaded(Job),
}

impl State {
    /// Returns a copy of the state.
    pub fn copy(&self) -> Result<State, OutOfMemory>
        ensures { IfOk result (λ copy. copy ≡ self.now) }
    {
        match self {
            State::Empty => Ok(State::Empty),
            State::Loaded(job) => Ok(State::Loaded(job.copy()?)),
        }
    }
}
