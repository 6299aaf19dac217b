//! Moves from plan to plan.
ghost use Rattle.std.specs.Prelude.{◌≡◌, true};
ghost use Rattle.plan_audit.specs.Passes.{passes};

use crate::tests::builders::{
    Case, FOUR, FOUR_BY_ONE, FOUR_BY_TWO, TestProblem, case_of, problem_of, stops_of,
};
use move_ops::{exchange, insert_at, remove, request_named, two_opt_star};
use plan_types::{OutOfMemory, Plan, Problem, Request};
use std::alloc::Global;
use std::test::Fail;

mod best;
mod drafts;
mod tables;

#[derive(Clone, Copy)]
enum Move {
    /// A request, and its insertion: the vehicle, and the places of the pickup and the delivery.
    Insert(u32, (u64, u64, u64)),
    Remove(&'static [u32]),
    Exchange(u32, u32),
    Cross(u64, u64, u64, u64),
}

/// A problem, pins, a plan, and moves. Each move has the resulting plan, which is empty if the move is not
/// possible. Each pin and each route ends with a 0.
type Example = (
    TestProblem,
    &'static [u32],
    &'static [u32],
    &'static [(Move, &'static [u32])],
);

/// A pin of the second vehicle's first stop.
const PINNED: &[u32] = &[0, 2, 0, 0, 0];

/// Routes of one stop, with request 3 unplanned.
const APART: &[u32] = &[1, 0, 2, 0, 4, 0, 0];

/// Requests 2 and 3 in one route, 1 and 4 alone.
const TOGETHER: &[u32] = &[1, 0, 2, 3, 0, 4, 0, 0];

/// The routes of `TOGETHER` without request 4.
const FEWER: &[u32] = &[1, 0, 2, 3, 0, 0, 0];

const INSERTIONS: [Example; 4] = [
    (
        FOUR,
        &[],
        APART,
        &[
            (Move::Insert(3, (2, 1, 1)), &[1, 0, 3, 2, 0, 4, 0, 0]),
            (Move::Insert(3, (4, 1, 1)), &[1, 0, 2, 0, 4, 0, 3, 0]),
            // A place that does not exist, and a single with two places.
            (Move::Insert(3, (4, 0, 0)), &[]),
            (Move::Insert(3, (4, 1, 2)), &[]),
        ],
    ),
    // Inside the pin.
    (FOUR, PINNED, APART, &[(Move::Insert(3, (2, 1, 1)), &[])]),
    (
        FOUR_BY_ONE,
        &[],
        APART,
        &[
            // An unknown request, and a planned one.
            (Move::Insert(5, (4, 1, 1)), &[]),
            (Move::Insert(4, (4, 1, 1)), &[]),
            // An overloaded vehicle, a place after the end of the route, and an unknown vehicle.
            (Move::Insert(3, (1, 1, 1)), &[]),
            (Move::Insert(3, (4, 2, 2)), &[]),
            (Move::Insert(3, (0, 1, 1)), &[]),
            (Move::Insert(3, (5, 1, 1)), &[]),
        ],
    ),
    (
        TestProblem::Pairs,
        &[],
        &[1, 2, 0],
        &[
            (Move::Insert(3, (1, 2, 3)), &[1, 3, 4, 2, 0]),
            // Service at stop 3 would start at 3, after its latest time.
            (Move::Insert(3, (1, 1, 2)), &[]),
        ],
    ),
];

const REMOVALS: [Example; 6] = [
    (
        FOUR,
        PINNED,
        TOGETHER,
        &[(Move::Remove(&[3]), &[1, 0, 2, 0, 4, 0, 0])],
    ),
    (
        FOUR,
        &[],
        TOGETHER,
        &[
            (Move::Remove(&[4, 3, 4]), &[1, 0, 2, 0, 0, 0]),
            (Move::Remove(&[]), TOGETHER),
        ],
    ),
    // One of the requests is unknown, then unplanned, then pinned.
    (
        FOUR,
        &[],
        FEWER,
        &[(Move::Remove(&[1, 5]), &[]), (Move::Remove(&[1, 4]), &[])],
    ),
    (FOUR, PINNED, FEWER, &[(Move::Remove(&[1, 2]), &[])]),
    (
        TestProblem::Pairs,
        &[],
        &[1, 3, 4, 2, 0],
        &[
            (Move::Remove(&[3]), &[1, 2, 0]),
            (Move::Remove(&[1, 3]), &[0]),
            // The direct leg to stop 3 takes 3, and its latest time is 2.
            (Move::Remove(&[1]), &[]),
            // The number of a delivery is not a name.
            (Move::Remove(&[4]), &[]),
        ],
    ),
    // A pair is pinned by its pickup.
    (
        TestProblem::Pairs,
        &[1, 3, 0],
        &[1, 3, 4, 2, 0],
        &[(Move::Remove(&[3]), &[])],
    ),
];

const CROSSINGS: [Example; 3] = [
    (
        FOUR,
        &[],
        TOGETHER,
        &[
            (Move::Cross(2, 0, 3, 1), &[1, 0, 0, 4, 2, 3, 0, 0]),
            (Move::Cross(2, 1, 4, 0), &[1, 0, 2, 0, 4, 0, 3, 0]),
            // The same vehicle twice, an unknown vehicle, and a cut after the end of the route.
            (Move::Cross(2, 1, 2, 1), &[]),
            (Move::Cross(0, 0, 2, 1), &[]),
            (Move::Cross(2, 1, 5, 0), &[]),
            (Move::Cross(2, 3, 1, 0), &[]),
        ],
    ),
    // A cut inside the pin, and an overloaded vehicle.
    (FOUR, PINNED, TOGETHER, &[(Move::Cross(2, 0, 1, 1), &[])]),
    (
        FOUR_BY_TWO,
        &[],
        TOGETHER,
        &[(Move::Cross(2, 2, 1, 0), &[])],
    ),
];

const EXCHANGES: [Example; 5] = [
    (
        FOUR,
        &[],
        TOGETHER,
        &[
            (Move::Exchange(1, 4), &[4, 0, 2, 3, 0, 1, 0, 0]),
            (Move::Exchange(3, 2), &[1, 0, 3, 2, 0, 4, 0, 0]),
        ],
    ),
    (
        FOUR,
        &[],
        FEWER,
        &[
            // The same name twice, an unknown request, and an unplanned one.
            (Move::Exchange(1, 1), &[]),
            (Move::Exchange(1, 5), &[]),
            (Move::Exchange(5, 1), &[]),
            (Move::Exchange(1, 4), &[]),
            (Move::Exchange(4, 1), &[]),
        ],
    ),
    (
        FOUR,
        PINNED,
        FEWER,
        &[(Move::Exchange(1, 2), &[]), (Move::Exchange(2, 1), &[])],
    ),
    (
        TestProblem::ThreePairs,
        &[],
        &[1, 5, 2, 6, 0],
        &[(Move::Exchange(1, 5), &[5, 1, 6, 2, 0])],
    ),
    // Service at stop 3 would start at 3, and its latest time is 2.
    (
        TestProblem::Pairs,
        &[],
        &[1, 3, 4, 2, 0],
        &[(Move::Exchange(1, 3), &[])],
    ),
];

fn moved(alloc: Global, case: &Case, made: Move) -> Result<Option<Plan>, OutOfMemory>
    requires { passes case.now.problem case.now.pins.routes case.now.plan.routes ≡ true }
{
    let Case {
        problem,
        pins,
        plan,
    } = case;
    match made {
        Move::Insert(name, place) => insert_at(alloc, problem, pins, plan, name, place),
        Move::Remove(names) => remove(alloc, problem, pins, plan, names),
        Move::Exchange(a, b) => exchange(alloc, problem, pins, plan, a, b),
        Move::Cross(a, a_cut, b, b_cut) => {
            two_opt_star(alloc, problem, pins, plan, a, a_cut, b, b_cut)
        }
    }
}

// Returns the plan after the move; nothing if the move is not possible, or a single 9 if the given plan does not
// pass.
fn after(alloc: Global, case: &Case, made: Move) -> Result<Vec<u32>, Fail> {
    if !case.is_passing(alloc)? {
        return Ok(vec![in alloc; 9]?);
    }
    match moved(alloc, case, made)? {
        Some(new) => {
            let stops = stops_of(alloc, &new.routes);
            drop(new);
            stops
        }
        None => Ok(Vec::new(alloc)),
    }
}

// Returns whether the move leads from the case to this plan.
fn is_made(alloc: Global, case: &Case, made: Move, expected: &[u32]) -> Result<bool, Fail> {
    Ok(after(alloc, case, made)?.as_slice() == expected)
}

// Returns how many of these moves lead to another plan than expected.
fn wrong_moves(alloc: Global, case: &Case, moves: &[(Move, &[u32])]) -> Result<usize, Fail> {
    let mut wrong_moves: usize = 0;
    for (made, expected) in moves {
        if !is_made(alloc, case, *made, expected)? {
            wrong_moves = wrong_moves.saturating_add(1);
        }
    }
    Ok(wrong_moves)
}

// Returns how many of the example's moves lead to another plan than expected.
fn wrong_moves_of(alloc: Global, example: &Example) -> Result<usize, Fail> {
    let (given, pins, plan, moves) = *example;
    let case = case_of(alloc, given, pins, plan)?;
    let wrong_moves = wrong_moves(alloc, &case, moves);
    drop(case);
    wrong_moves
}

// Returns whether each of the examples' moves leads to the expected plan.
fn are_made(alloc: Global, examples: &[Example]) -> Result<bool, Fail> {
    for example in examples {
        if wrong_moves_of(alloc, example)? != 0 {
            return Ok(false);
        }
    }
    Ok(true)
}

#[test]
fn insertions_made(rt: HostRuntime) -> Result<(), Fail> {
    assert!(rt; are_made(rt.alloc(), &INSERTIONS)?);
    Ok(())
}

#[test]
fn removals_made(rt: HostRuntime) -> Result<(), Fail> {
    assert!(rt; are_made(rt.alloc(), &REMOVALS)?);
    Ok(())
}

#[test]
fn crossings_made(rt: HostRuntime) -> Result<(), Fail> {
    assert!(rt; are_made(rt.alloc(), &CROSSINGS)?);
    Ok(())
}

#[test]
fn exchanges_made(rt: HostRuntime) -> Result<(), Fail> {
    assert!(rt; are_made(rt.alloc(), &EXCHANGES)?);
    Ok(())
}

/// A problem, a name, and the stops of its request; none if there is no such request.
const NAMED_STOPS: [(TestProblem, u32, &[u32]); 5] = [
    (FOUR, 2, &[2]),
    (FOUR, 5, &[]),
    (TestProblem::Pairs, 3, &[3, 4]),
    // The number of a delivery is not a name.
    (TestProblem::Pairs, 4, &[]),
    (TestProblem::Pairs, 0, &[]),
];

fn stops_named(alloc: Global, problem: &Problem, name: u32) -> Result<Vec<u32>, Fail> {
    let mut stops = Vec::new(alloc);
    match request_named(problem, name) {
        Some(Request::Single(stop)) => stops.push(stop.number)?,
        Some(Request::Pair(pickup, delivery)) => {
            stops.extend_from_slice(&[pickup.number, delivery.number])?;
        }
        None => (),
    }
    Ok(stops)
}

fn stops_named_in(alloc: Global, given: TestProblem, name: u32) -> Result<Vec<u32>, Fail> {
    let problem = problem_of(alloc, given)?;
    let stops = stops_named(alloc, &problem, name);
    drop(problem);
    stops
}

#[test]
fn requests_named(rt: HostRuntime) -> Result<(), Fail> {
    for (given, name, expected) in NAMED_STOPS {
        assert!(rt; stops_named_in(rt.alloc(), given, name)?.as_slice() == expected);
    }
    Ok(())
}
