//! The plans that the hybrid genetic search finds, against shortest plans by hand.
use crate::tests::builders::{TestProblem, plan_of, problem_of, stops_of};
use hybrid_search::{HybridSearch, is_accepted};
use plan_audit::{Verdict, audit};
use plan_types::{Cost, Pins, Plan, Problem, Routes};
use std::alloc::Global;
use std::test::Fail;

/// A problem, the built plan, and the number of requests that the plan of the search leaves out and its distance.
struct Example {
    given: TestProblem,
    /// The routes of the built plan, each ended by a 0.
    built: &'static [u32],
    unplanned: u64,
    distance: u64,
}

/// One customer, and two in one direction.
const ONE: Example = Example {
    given: TestProblem::Customers(10, 1, &[(3, 4, 1)]),
    built: &[0],
    unplanned: 0,
    distance: 10,
};

const TWO: Example = Example {
    given: TestProblem::Customers(10, 2, &[(3, 4, 1), (6, 8, 1)]),
    built: &[1, 0, 2, 0],
    unplanned: 0,
    distance: 20,
};

/// All customers are at the depot.
const AT_THE_DEPOT: Example = Example {
    given: TestProblem::Customers(2, 3, &[(0, 0, 1), (0, 0, 2), (0, 0, 1)]),
    built: &[0, 0, 0],
    unplanned: 0,
    distance: 0,
};

/// A square, whose customers need nothing and whose vehicles carry nothing.
const NO_DEMANDS: Example = Example {
    given: TestProblem::Customers(0, 3, &[(0, 10, 0), (10, 0, 0), (10, 10, 0)]),
    built: &[1, 0, 2, 0, 3, 0],
    unplanned: 0,
    distance: 40,
};

/// The square, with one vehicle that just holds everything.
const ONE_VEHICLE: Example = Example {
    given: TestProblem::Customers(6, 1, &[(0, 10, 1), (10, 0, 2), (10, 10, 3)]),
    built: &[1, 2, 3, 0],
    unplanned: 0,
    distance: 40,
};

/// No two customers fit into one vehicle.
const ALONE: Example = Example {
    given: TestProblem::Customers(5, 4, &[(3, 4, 3), (6, 8, 3), (0, 10, 3)]),
    built: &[0, 0, 0, 0],
    unplanned: 0,
    distance: 50,
};

/// No vehicle can carry the second demand.
const TOO_LARGE: Example = Example {
    given: TestProblem::Customers(5, 2, &[(3, 4, 3), (6, 8, 6)]),
    built: &[0, 0],
    unplanned: 1,
    distance: 10,
};

/// Three customers need three vehicles, and there are two. The built plan stays.
const TOO_FEW: Example = Example {
    given: TestProblem::Customers(1, 2, &[(3, 4, 1), (6, 8, 1), (0, 10, 1)]),
    built: &[1, 0, 2, 0],
    unplanned: 1,
    distance: 30,
};

/// Two vehicles suffice, if 6 and 4 are in one and both 5 in the other.
const JUST_ENOUGH: Example = Example {
    given: TestProblem::Customers(10, 2, &[(10, 0, 6), (0, 10, 5), (0, 12, 5), (12, 0, 4)]),
    built: &[1, 0, 2, 0],
    unplanned: 0,
    distance: 48,
};

/// Eight customers on two rings, by which seeds find different plans.
const RINGS: TestProblem = TestProblem::Customers(
    3,
    4,
    &[
        (10, 0, 1),
        (0, 10, 1),
        (-10, 0, 1),
        (0, -10, 1),
        (20, 20, 1),
        (-20, 20, 1),
        (-20, -20, 1),
        (20, -20, 1),
    ],
);

const EMPTY: &[u32] = &[0, 0, 0, 0];

// Returns the plan of a search.
fn found(
    alloc: Global,
    problem: &Problem,
    built: &Plan,
    seed: u64,
    iterations: u64,
) -> Result<Plan, Fail> {
    let mut search = HybridSearch::new(alloc, problem, built, seed)?;
    search.run(alloc, iterations)?;
    Ok(search.plan(alloc, problem, built)?)
}

// Returns the cost of a plan if the auditor passes it without pins.
fn cost_of(alloc: Global, problem: &Problem, plan: &Plan) -> Result<Option<Cost>, Fail> {
    let pins = Pins {
        routes: Routes::new(alloc),
    };
    match audit(alloc, problem, &pins, plan)? {
        Verdict::Pass(cost) => Ok(Some(cost)),
        Verdict::Broken { .. } => Ok(None),
    }
}

fn found_cost(alloc: Global, example: &Example) -> Result<Option<Cost>, Fail> {
    let problem = problem_of(alloc, example.given)?;
    let built = plan_of(alloc, example.built)?;
    let plan = found(alloc, &problem, &built, 1, 200)?;
    cost_of(alloc, &problem, &plan)
}

// Returns whether the plan of a search passes and has the cost of the example.
fn is_found(alloc: Global, example: &Example) -> Result<bool, Fail> {
    match found_cost(alloc, example)? {
        Some(cost) => {
            Ok(cost.unplanned == example.unplanned && cost.distance == example.distance)
        }
        None => Ok(false),
    }
}

#[test]
fn few_customers(rt: HostRuntime) -> Result<(), Fail> {
    assert!(rt; is_found(rt.alloc(), &ONE)?);
    assert!(rt; is_found(rt.alloc(), &TWO)?);
    Ok(())
}

#[test]
fn no_legs_and_no_demands(rt: HostRuntime) -> Result<(), Fail> {
    assert!(rt; is_found(rt.alloc(), &AT_THE_DEPOT)?);
    assert!(rt; is_found(rt.alloc(), &NO_DEMANDS)?);
    Ok(())
}

#[test]
fn full_vehicles(rt: HostRuntime) -> Result<(), Fail> {
    assert!(rt; is_found(rt.alloc(), &ONE_VEHICLE)?);
    assert!(rt; is_found(rt.alloc(), &ALONE)?);
    assert!(rt; is_found(rt.alloc(), &TOO_LARGE)?);
    Ok(())
}

#[test]
fn scarce_vehicles(rt: HostRuntime) -> Result<(), Fail> {
    assert!(rt; is_found(rt.alloc(), &TOO_FEW)?);
    assert!(rt; is_found(rt.alloc(), &JUST_ENOUGH)?);
    Ok(())
}

// Returns the stops of the plan for the rings, each route ended by a 0.
fn rings_found(alloc: Global, seed: u64, iterations: u64) -> Result<Vec<u32>, Fail> {
    let problem = problem_of(alloc, RINGS)?;
    let built = plan_of(alloc, EMPTY)?;
    let plan = found(alloc, &problem, &built, seed, iterations)?;
    stops_of(alloc, &plan.routes)
}

// Returns the stops of the plan after two runs.
fn rings_found_in_two(alloc: Global, seed: u64, first: u64, then: u64) -> Result<Vec<u32>, Fail> {
    let problem = problem_of(alloc, RINGS)?;
    let built = plan_of(alloc, EMPTY)?;
    let mut search = HybridSearch::new(alloc, &problem, &built, seed)?;
    search.run(alloc, first)?;
    search.run(alloc, then)?;
    stops_of(alloc, &search.plan(alloc, &problem, &built)?.routes)
}

#[test]
fn equal_seeds(rt: HostRuntime) -> Result<(), Fail> {
    let once = rings_found(rt.alloc(), 5, 3)?;
    let again = rings_found(rt.alloc(), 5, 3)?;
    assert!(rt; once.as_slice() == again.as_slice());
    Ok(())
}

// An iteration that was counted twice would leave out the random numbers of the next one.
#[test]
fn runs_add_up(rt: HostRuntime) -> Result<(), Fail> {
    let whole = rings_found(rt.alloc(), 5, 3)?;
    let parts = rings_found_in_two(rt.alloc(), 5, 1, 2)?;
    assert!(rt; whole.as_slice() == parts.as_slice());
    Ok(())
}

// Returns whether a seed from 1 to `last` finds another plan than seed 0.
fn is_seed_read(alloc: Global, last: u64) -> Result<bool, Fail> {
    let first = rings_found(alloc, 0, 1)?;
    let mut differs = false;
    for seed in 1..=last {
        let other = rings_found(alloc, seed, 1)?;
        differs = differs || other.as_slice() != first.as_slice();
    }
    Ok(differs)
}

#[test]
fn other_seeds(rt: HostRuntime) -> Result<(), Fail> {
    assert!(rt; is_seed_read(rt.alloc(), 8)?);
    Ok(())
}

// Returns whether a problem is accepted, and whether the plan of the search is the built one.
fn keeps_built(alloc: Global, given: TestProblem, built: &[u32]) -> Result<(bool, bool), Fail> {
    let problem = problem_of(alloc, given)?;
    let plan = plan_of(alloc, built)?;
    let found = found(alloc, &problem, &plan, 1, 3)?;
    let stops = stops_of(alloc, &found.routes)?;
    Ok((is_accepted(&problem), stops.as_slice() == built))
}

#[test]
fn other_problems(rt: HostRuntime) -> Result<(), Fail> {
    let (is_accepted, is_built) = keeps_built(rt.alloc(), TestProblem::Pairs, &[1, 2, 3, 4, 0])?;
    assert!(rt; !is_accepted);
    assert!(rt; is_built);
    Ok(())
}
