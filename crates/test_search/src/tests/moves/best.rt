//! The best insertion of a request.
ghost use Rattle.std.specs.Prelude.{◌≡◌, true, false, IfOk, IsTrue};
ghost use Rattle.std.specs.Option.{IsSomeAnd};
ghost use Rattle.route_sched.specs.Cost.{is_planned};
ghost use Rattle.plan_audit.specs.Passes.{passes};
ghost use Rattle.move_ops.specs.Insertion.{request_named};

use crate::tests::builders::{Case, FOUR, FOUR_BY_ONE, TestProblem, case_of, case_of_one_route};
use move_ops::{Draft, Tables, best_insertion, plans_pass_without_pins, request_named};
use plan_types::Kind;
use std::alloc::Global;
use std::test::Fail;

type Insertion = (u64, u64, u64);

/// The answer if the plan does not pass, or if two computations of the best insertion differ. It is not an
/// insertion.
const NO_INSERTION: Insertion = (0, 0, 0);

// Returns the best insertion if `best_insertion` and the plan's tables agree on it, and otherwise `NO_INSERTION`.
fn best(alloc: Global, case: &Case, name: u32) -> Result<Option<Insertion>, Fail> {
    if !case.is_passing(alloc)? {
        return Ok(Some(NO_INSERTION));
    }
    let answer = best_insertion(alloc, &case.problem, &case.pins, &case.plan, name)?;
    if answer == best_by_tables(alloc, case, name)? {
        return Ok(answer);
    }
    Ok(Some(NO_INSERTION))
}

fn best_by_tables(alloc: Global, case: &Case, name: u32) -> Result<Option<Insertion>, Fail>
    requires { passes case.now.problem case.now.pins.routes case.now.plan.routes ≡ true }
{
    plans_pass_without_pins();
    if is_free(alloc, case, name)? {
        let tables = Tables::build(alloc, &case.problem, &case.plan)?;
        return Ok(tables.best(&case.problem, &case.pins, name));
    }
    Ok(None)
}

// Returns whether the name belongs to a current, unplanned request.
fn is_free(alloc: Global, case: &Case, name: u32) -> Result<bool, Fail>
    requires { passes case.now.problem case.now.pins.routes case.now.plan.routes ≡ true }
    ensures { IfOk result (λ b. IsTrue b → IsSomeAnd (request_named case.now.problem name)
        (λ r. is_planned case.now.plan.routes r ≡ false)) }
{
    let draft = Draft::build(alloc, &case.problem, &case.pins, &case.plan)?;
    match request_named(&case.problem, name) {
        Some(request) => Ok(!draft.is_planned(&request)),
        None => Ok(false),
    }
}

/// A problem, pins, a plan, the name of a request, and its best place if it can be inserted.
type Example = (
    TestProblem,
    &'static [u32],
    &'static [u32],
    u32,
    Option<Insertion>,
);

const COUNTED: TestProblem = TestProblem::Opposite(Kind::LiLim);

const UNCOUNTED: TestProblem = TestProblem::Opposite(Kind::Vrp);

const EXAMPLES: [Example; 11] = [
    (FOUR, &[], &[1, 0, 2, 0, 4, 0, 0], 3, Some((2, 1, 1))),
    // Right after a pin.
    (
        FOUR,
        &[0, 2, 0, 0, 0],
        &[1, 0, 2, 0, 4, 0, 0],
        3,
        Some((2, 2, 2)),
    ),
    // A planned request, and an unknown one.
    (FOUR, &[], &[1, 0, 2, 0, 4, 0, 0], 2, None),
    (FOUR, &[], &[1, 0, 2, 0, 4, 0, 0], 5, None),
    // All other vehicles are full.
    (FOUR_BY_ONE, &[], &[1, 0, 2, 0, 4, 0, 0], 3, Some((4, 1, 1))),
    (TestProblem::Pairs, &[], &[1, 2, 0], 3, Some((1, 2, 3))),
    // Right after a pin.
    (
        TestProblem::Pairs,
        &[1, 2, 0],
        &[1, 2, 0],
        3,
        Some((1, 3, 4)),
    ),
    // An empty vehicle is used only if vehicles do not count.
    (COUNTED, &[], &[0, 1, 0, 0], 2, Some((2, 1, 1))),
    (UNCOUNTED, &[], &[0, 1, 0, 0], 2, Some((1, 1, 1))),
    (COUNTED, &[], &[1, 0, 0, 0], 2, Some((1, 1, 1))),
    (UNCOUNTED, &[], &[1, 0, 0, 0], 2, Some((2, 1, 1))),
];

// Returns whether the insertion of the example is the best one.
fn is_best(alloc: Global, example: &Example) -> Result<bool, Fail> {
    let (given, pins, plan, name, place) = *example;
    let case = case_of(alloc, given, pins, plan)?;
    let best = best(alloc, &case, name);
    drop(case);
    Ok(best? == place)
}

#[test]
fn best_places(rt: HostRuntime) -> Result<(), Fail> {
    for example in &EXAMPLES {
        assert!(rt; is_best(rt.alloc(), example)?);
    }
    Ok(())
}

// Returns the best insertion of a request into one route with this many stops.
fn best_in_one_route(
    alloc: Global,
    given: TestProblem,
    stops: u32,
    name: u32,
) -> Result<Option<Insertion>, Fail> {
    let case = case_of_one_route(alloc, given, stops)?;
    let best = best(alloc, &case, name);
    drop(case);
    best
}

#[test]
fn a_place_in_the_largest_route(rt: HostRuntime) -> Result<(), Fail> {
    // Between the last stops of the previous row, (198, 198) and (199, 198).
    let place = best_in_one_route(rt.alloc(), TestProblem::Grid(40_000), 39_999, 40_000)?;
    assert!(rt; place == Some((1, 39_800, 39_800)));
    Ok(())
}

#[test]
fn the_places_of_a_pair_in_a_long_route(rt: HostRuntime) -> Result<(), Fail> {
    let place = best_in_one_route(rt.alloc(), TestProblem::PairsAtTheDepot, 130, 131)?;
    assert!(rt; place == Some((1, 129, 130)));
    Ok(())
}
