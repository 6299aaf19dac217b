//! Reads the parts of a state before they are checked, field by field in the order of the format, as in
//! `specs/Reading.antt`. Reading is proved to be the inverse of writing.
ghost use Rattle.std.specs.Prelude.{◌≡◌, ◌≤◌, [], Ok, IsOk, IfOk, IfErr, length};
ghost use Rattle.std.specs.Option.{option_map};
ghost use Rattle.plan_types.specs.Instance.{new_instance};
ghost use Rattle.state_codec.specs.Fields.{Gives};
ghost use Rattle.state_codec.specs.Parts.{job_in, IsHead};
ghost use Rattle.state_codec.specs.Reading.{problem_at, work_at, job_at, state_at, whole_state_at};

use crate::fault::CodecFault;
use crate::fields::{Field, number_at, u8_at};
use crate::head::{Head, head_at};
use crate::requests::requests_at;
use crate::routes::{routes_at, vehicles_at};
use crate::version::Version;
use plan_types::{Pins, Plan, Problem, Routes};
use std::alloc::Global;

#[derive(Drop)]
pub(crate) struct Parts {
    pub(crate) problem: Problem,
    pub(crate) pins: Pins,
    pub(crate) plan: Plan,
    pub(crate) work: Plan,
    pub(crate) deviation: u32,
    pub(crate) seed: u64,
    pub(crate) steps: u64,
}

fn empty_problem(alloc: Global, head: &Head) -> Result<Problem, CodecFault>
    requires { IsHead head.now }
    ensures ok { IfOk result (λ p. p
        ≡ new_instance head.now.kind head.now.depot head.now.capacity head.now.fleet) }
    ensures is_ok { IsOk result }
{
    match Problem::new(alloc, head.kind, head.depot, head.capacity, head.fleet) {
        Ok(problem) => Ok(problem),
        // The head is within its limits, so this cannot happen.
        Err(_) => Err(CodecFault::BadField),
    }
}

#[tactic(auto, unfolding(crate::specs::Reading::problem_at))]
fn problem_at<'a>(
    alloc: Global,
    version: Version,
    head: &Head,
    bytes: &'a [u8],
) -> Field<'a, Problem>
    requires { IsHead head.now }
    ensures { Gives (λ x. (x.0, x.1.now)) result (problem_at version head.now bytes.now) }
{
    let (count, rest) = number_at(version, bytes)?;
    let empty = empty_problem(alloc, head)?;
    let (problem, rest) = requests_at(version, empty, head.next_number, count, rest)?;
    let mut problem = problem;
    problem.set_next_number(head.next_number);
    Ok((problem, rest))
}

// Reads the working plan. Version 1 has none, so it is a copy of the plan.
fn work_at<'a>(
    alloc: Global,
    version: Version,
    fleet: u32,
    plan: &Routes,
    bytes: &'a [u8],
) -> Field<'a, Routes>
    ensures { Gives (λ x. (x.0, x.1.now)) result (work_at version fleet plan.now bytes.now) }
{
    match version {
        Version::One => Ok((plan.copy()?, bytes)),
        Version::Two => routes_at(alloc, Version::Two, fleet, bytes),
    }
}

#[tactic(auto, unfolding(crate::specs::Reading::job_at))]
fn job_at(alloc: Global, version: Version, bytes: &[u8]) -> Field<'_, Parts>
    ensures { Gives (λ x. (job_in x.0, x.1.now)) result (job_at version bytes.now) }
{
    let (head, rest) = head_at(version, bytes)?;
    let (problem, rest) = problem_at(alloc, version, &head, rest)?;
    let ((pins, plan), rest) = vehicles_at(alloc, version, head.fleet, rest)?;
    let (work, rest) = work_at(alloc, version, head.fleet, &plan, rest)?;
    let parts = Parts {
        problem,
        pins: Pins { routes: pins },
        plan: Plan { routes: plan },
        work: Plan { routes: work },
        deviation: head.deviation,
        seed: head.seed,
        steps: head.steps,
    };
    Ok((parts, rest))
}

#[tactic(auto, unfolding(crate::specs::Reading::state_at))]
fn state_at(alloc: Global, version: Version, bytes: &[u8]) -> Field<'_, Option<Parts>>
    ensures { Gives (λ x. (option_map job_in x.0, x.1.now)) result (state_at version bytes.now) }
{
    let (loaded, rest) = u8_at(bytes)?;
    match loaded {
        0 => Ok((None, rest)),
        1 => {
            let (parts, rest) = job_at(alloc, version, rest)?;
            Ok((Some(parts), rest))
        }
        _ => Err(CodecFault::BadField),
    }
}

/// Reads all of the bytes as a state: an empty one, or the parts of a job.
#[tactic(auto, unfolding(crate::specs::Reading::whole_state_at))]
pub(crate) fn whole_state_at(
    alloc: Global,
    version: Version,
    bytes: &[u8],
) -> Result<Option<Parts>, CodecFault>
    ensures { Gives (option_map job_in) result (whole_state_at version bytes.now) }
{
    let (state, rest) = state_at(alloc, version, bytes)?;
    if !rest.is_empty() {
        return Err(CodecFault::BadField);
    }
    Ok(state)
}
