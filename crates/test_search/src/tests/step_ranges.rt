//! The plans that steps of the search or of annealing find.
ghost use Rattle.std.specs.Prelude.{◌≡◌, true};
ghost use Rattle.plan_audit.specs.Passes.{passes};

use crate::tests::builders::{Case, TestProblem, case_of, stops_of};
use anneal_search::anneal_steps;
use plan_types::OutOfMemory;
use seeded_search::{Found, search_steps};
use std::alloc::Global;
use std::test::Fail;

/// Steps of one kind: the number of the first step, and how many steps are made.
#[derive(Clone, Copy)]
pub(crate) enum StepRange {
    /// Search steps with this deviation, and with seed 0.
    Search(u32, (u64, u64)),
    /// Annealing steps with this deviation and this seed.
    Anneal(u32, u64, (u64, u64)),
}

/// A problem, pins, a plan, steps, and the routes found: those of the incumbent, and then those of the working
/// plan.
pub(crate) type Example = (
    TestProblem,
    &'static [u32],
    &'static [u32],
    StepRange,
    &'static [u32],
);

/// Returns the routes of the incumbent, and then those of the working plan, each ended by a 0.
pub(crate) fn both(alloc: Global, found: &Found) -> Result<Vec<u32>, Fail> {
    let mut stops = stops_of(alloc, &found.plan.routes)?;
    stops.extend_from_slice(&stops_of(alloc, &found.work.routes)?)?;
    Ok(stops)
}

// Makes the steps, if their numbers are in range.
fn steps_of(alloc: Global, case: &Case, walk: StepRange) -> Result<Option<Found>, OutOfMemory>
    requires { passes case.now.problem case.now.pins.routes case.now.plan.routes ≡ true }
{
    let Case {
        problem,
        pins,
        plan,
    } = case;
    let (step, count) = match walk {
        StepRange::Search(_, steps) => steps,
        StepRange::Anneal(_, _, steps) => steps,
    };
    if step >= 1 << 60 || count > (1 << 60) - step {
        return Ok(None);
    }
    let found = match walk {
        StepRange::Search(deviation, _) => {
            search_steps(alloc, problem, pins, plan, plan, deviation, 0, step, count)?
        }
        StepRange::Anneal(deviation, seed, _) => {
            anneal_steps(
                alloc, problem, pins, plan, plan, deviation, seed, step, count,
            )?
        }
    };
    Ok(Some(found))
}

/// Returns the plans that steps find from one plan as incumbent and as working plan; nothing if that plan does
/// not pass.
pub(crate) fn found(alloc: Global, case: &Case, walk: StepRange) -> Result<Vec<u32>, Fail> {
    if !case.is_passing(alloc)? {
        return Ok(Vec::new(alloc));
    }
    match steps_of(alloc, case, walk)? {
        Some(found) => {
            let stops = both(alloc, &found);
            drop(found);
            stops
        }
        None => Ok(Vec::new(alloc)),
    }
}

/// Returns the plans that steps find from these pins and routes of a problem, each ended by a 0.
pub(crate) fn found_from(
    alloc: Global,
    given: TestProblem,
    pins: &[u32],
    plan: &[u32],
    walk: StepRange,
) -> Result<Vec<u32>, Fail> {
    let case = case_of(alloc, given, pins, plan)?;
    let found = found(alloc, &case, walk);
    drop(case);
    found
}

/// Returns whether the example's steps find its routes.
pub(crate) fn is_found(alloc: Global, example: &Example) -> Result<bool, Fail> {
    let (given, pins, plan, walk, expected) = *example;
    Ok(found_from(alloc, given, pins, plan, walk)?.as_slice() == expected)
}
