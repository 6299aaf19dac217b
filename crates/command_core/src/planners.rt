//! `Planner`: a state that commands change in place.
ghost use Rattle.std.specs.Prelude.{◌≡◌, ◌⊎◌, None, Some, IfOk, IfErr, IfSome, MatchOption};
ghost use Rattle.route_sched.specs.Cost.{cost_of};
ghost use Rattle.command_types.specs.declared.states.State.TheVariants.{Empty, Loaded};
ghost use Rattle.command_types.specs.States.{IsState};
ghost use Rattle.command_core.specs.Refusals.{refusal};
ghost use Rattle.command_core.specs.Changes.{with_change, IsChanged};
ghost use Rattle.command_core.specs.KeptSearch.{IsSearchStateOf};

use crate::acceptance::check;
use crate::changes::Change;
use crate::effects::{CommandOutcome, execute, keep_invariants};
use crate::laws::commands_keep_invariants;
use command_types::{Command, Job, Refusal, State};
use log::Log;
use log::sink::Discard;
use plan_audit::passing_is_local;
use plan_types::Cost;
use route_sched::plan_cost;
use seeded_search::SearchState;
use std::alloc::Global;
use std::marker::Model;
use std::mem;

/// A state that commands change in place, without a copy.
#[derive(Drop)]
pub struct Planner {
    state: State,
    /// The search state over the plans of the state, if the last command that changed the state made steps.
    search_state: Option<SearchState>,
}

impl Model for Planner {
    ghost use Rattle.command_types.specs.declared.states.State.{State};

    ghost Value = { State };

    ghost use Rattle.command_core.specs.KeptSearch.{IsKept};

    ghost view = { λ p. p.state };

    ghost invariant = { λ p. IsKept p.state p.search_state };
}

impl Planner {
    /// Returns a planner in this state.
    pub fn new(state: State) -> Planner
        ensures { result ≡ state }
    {
        Planner {
            state,
            search_state: None,
        }
    }

    /// Returns the state.
    pub fn state(&self) -> &State
        ensures { result.now ≡ self.now }
    {
        &self.state
    }

    /// Returns the job and the cost of its incumbent, if there is a job. After a command that made steps the cost
    /// is known. Otherwise it is computed.
    pub fn incumbent(&self) -> Option<(&Job, Cost)>
        ensures { MatchOption result (self.now ≡ Empty) (λ found. (self.now ≡ Loaded found.0.now)
            × (found.1 ≡ cost_of found.0.now.problem found.0.now.plan)) }
    {
        match &self.state {
            State::Empty => None,
            State::Loaded(job) => Some((job, incumbent_cost(job, &self.search_state))),
        }
    }

    /// Consumes the planner and returns its state.
    pub fn into_state(self) -> State
        ensures { result ≡ self }
    {
        self.state
    }

    /// Executes the command and returns the change that restores the old state.
    ///
    /// # Errors
    ///
    /// Fails like `apply`. The state is then unchanged.
    pub fn change(&mut self, alloc: Global, command: &Command) -> Result<Change, Refusal>
        ensures ok { IfOk result (λ before. IsChanged self.old command.now before self.new) }
        ensures err { IfErr result (λ r. (refusal self.old command.now ≡ Some r)
            ⊎ ((refusal self.old command.now ≡ None) × (r ≡ Refusal.OutOfMemory))) }
        ensures kept { IfErr result (λ _. self.new ≡ self.old) }
    {
        check(&self.state, command)?;
        self.change_accepted(&Discard, alloc, command)
    }

    /// Executes a command that `check` accepts, without checking it again, and returns the change that restores
    /// the old state. Each attempt with fewer vehicles is logged when it ends.
    ///
    /// # Errors
    ///
    /// `OutOfMemory`. The state is then unchanged.
    pub fn change_accepted<R: Log>(
        &mut self,
        rt: &R,
        alloc: Global,
        command: &Command,
    ) -> Result<Change, Refusal>
        requires { refusal self.old command.now ≡ None }
        ensures ok { IfOk result (λ before. IsChanged self.old command.now before self.new) }
        ensures err { IfErr result (λ r. r ≡ Refusal.OutOfMemory) }
        ensures kept { IfErr result (λ _. self.new ≡ self.old) }
    {
        commands_keep_invariants();
        keep_invariants(&self.state, command);
        let kept = mem::replace(&mut self.search_state, None);
        let CommandOutcome {
            change,
            search_state,
        } = execute(rt, alloc, &self.state, kept, command)?;
        self.search_state = search_state;
        Ok(change.swap_into(&mut self.state))
    }

    /// Restores the state before a command. Allocates nothing.
    pub fn roll_back(&mut self, before: Change)
        requires { IsState (with_change before self.old) }
        ensures { self.new ≡ with_change before self.old }
    {
        self.search_state = None;
        drop(before.swap_into(&mut self.state));
    }
}

// Returns the cost of the job's incumbent, which a kept search state knows.
fn incumbent_cost(job: &Job, kept: &Option<SearchState>) -> Cost
    requires { IfSome kept.now (IsSearchStateOf job.now) }
    ensures { result ≡ cost_of job.now.problem job.now.plan }
{
    if let Some(search_state) = kept {
        return search_state.best;
    }
    passing_is_local();
    plan_cost(&job.problem, &job.plan)
}
