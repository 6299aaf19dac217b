//! `check`: whether a state accepts a command. Refusals are tested in the order in which `Refusal` declares
//! them.
ghost use Rattle.std.specs.Prelude.{◌≡◌, ◌≤◌, None, Some, MatchResult};
ghost use Rattle.plan_types.specs.declared.limits.TheConstants.{MAX_STEPS};
ghost use Rattle.command_core.specs.Refusals.{is_vehicle, add_refusal, withdraw_refusal, pin_refusal, unpin_refusal, steps_refusal, deviation_refusal, job_refusal, refusal};

use crate::adopt::adopt_refusal;
use command_types::{
    Command, Job, MAX_ANNEAL_STEPS, MAX_REDUCE_STEPS, MAX_SEARCH_STEPS, MAX_STEPS, Refusal, State,
    is_demand, is_spot,
};
use move_ops::route_of;
use plan_audit::{is_feasible, passing_is_local, plans_are_disjoint_routes};
use plan_types::Problem;
use plan_types::limits::{MAX_DEVIATION, MAX_STOP_NUMBER};
use route_sched::is_planned;

/// Checks that the state accepts the command. Allocates nothing.
///
/// # Errors
///
/// The first refusal that applies, in the order in which `Refusal` declares them.
pub fn check(state: &State, command: &Command) -> Result<(), Refusal>
    ensures { MatchResult result (λ _. refusal state.now command.now ≡ None)
        (λ r. refusal state.now command.now ≡ Some r) }
{
    match state_refusal(state, command) {
        Some(refusal) => Err(refusal),
        None => Ok(()),
    }
}

fn state_refusal(state: &State, command: &Command) -> Option<Refusal>
    ensures { result ≡ refusal state.now command.now }
{
    match (state, command) {
        (State::Loaded(job), _) => job_refusal(job, command),
        (State::Empty, Command::Load(_, _)) => None,
        (State::Empty, _) => Some(Refusal::NoInstance),
    }
}

fn job_refusal(job: &Job, command: &Command) -> Option<Refusal>
    ensures { result ≡ job_refusal job.now command.now }
{
    let problem = &job.problem;
    match command {
        Command::Load(_, _) | Command::Build | Command::Checkpoint => None,
        Command::Add {
            demand,
            pickup,
            delivery,
        } => {
            let are_limits_kept = is_demand(*demand) && is_spot(pickup) && is_spot(delivery);
            add_refusal(problem, are_limits_kept, 2)
        }
        Command::Add1 { demand, spot } => {
            let are_limits_kept = is_demand(*demand) && is_spot(spot);
            add_refusal(problem, are_limits_kept, 1)
        }
        Command::Withdraw(name) => withdraw_refusal(job, *name),
        Command::Pin(vehicle, stops) => pin_refusal(job, *vehicle, *stops),
        Command::Unpin(vehicle) => unpin_refusal(problem, *vehicle),
        Command::Search(count) => steps_refusal(
            u32::from(MAX_SEARCH_STEPS),
            job.steps,
            u32::from(*count),
        ),
        Command::Deviation(deviation) => deviation_refusal(*deviation),
        Command::Anneal(count) => steps_refusal(MAX_ANNEAL_STEPS, job.steps, *count),
        Command::Reduce(count) => steps_refusal(MAX_REDUCE_STEPS, job.steps, *count),
        Command::Adopt(plan) => adopt_refusal(problem, &job.pins, &job.plan, plan),
    }
}

// Returns why adding this many stops is refused, if it is. Each stop gets a number of its own.
fn add_refusal(problem: &Problem, are_limits_kept: bool, stops: u32) -> Option<Refusal>
    requires { stops ≤ 2 }
    ensures { result ≡ add_refusal problem.now are_limits_kept stops }
{
    if !are_limits_kept {
        return Some(Refusal::Range);
    }
    if problem.next_number + stops <= MAX_STOP_NUMBER + 1 {
        return None;
    }
    Some(Refusal::NumbersSpent)
}

fn withdraw_refusal(job: &Job, name: u32) -> Option<Refusal>
    ensures { result ≡ withdraw_refusal job.now name }
{
    let problem = &job.problem;
    let Some(request) = problem.requests.get(&name) else {
        return Some(Refusal::NoSuchRequest);
    };
    if is_planned(job.pins.routes.as_slice(), request) {
        return Some(Refusal::Pinned);
    }
    None
}

fn pin_refusal(job: &Job, vehicle: u32, stops: u32) -> Option<Refusal>
    ensures { result ≡ pin_refusal job.now vehicle stops }
{
    let route = route_of(job.plan.routes.as_slice(), u64::from(vehicle));
    if !is_vehicle(&job.problem, vehicle) || route.len() < stops as usize {
        return Some(Refusal::NoSuchPlace);
    }
    passing_is_local();
    plans_are_disjoint_routes();
    if is_feasible(&job.problem, &route[..stops as usize]) {
        return None;
    }
    Some(Refusal::NotARoute)
}

fn unpin_refusal(problem: &Problem, vehicle: u32) -> Option<Refusal>
    ensures { result ≡ unpin_refusal problem.now vehicle }
{
    if is_vehicle(problem, vehicle) {
        return None;
    }
    Some(Refusal::NoSuchPlace)
}

fn is_vehicle(problem: &Problem, vehicle: u32) -> bool
    ensures { result ≡ is_vehicle problem.now vehicle }
{
    1 <= vehicle && vehicle <= problem.fleet
}

// Returns why making `count` more steps after `steps` is refused, if it is. One command may make at most
// `most`.
fn steps_refusal(most: u32, steps: u64, count: u32) -> Option<Refusal>
    requires { steps ≤ MAX_STEPS }
    ensures { result ≡ steps_refusal most steps count }
{
    if count < 1 || most < count {
        return Some(Refusal::Range);
    }
    if steps + u64::from(count) <= MAX_STEPS {
        return None;
    }
    Some(Refusal::StepsSpent)
}

fn deviation_refusal(deviation: u32) -> Option<Refusal>
    ensures { result ≡ deviation_refusal deviation }
{
    if deviation <= MAX_DEVIATION {
        return None;
    }
    Some(Refusal::Range)
}
