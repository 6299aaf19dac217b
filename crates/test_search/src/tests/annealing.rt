//! The plans that annealing steps find, against the traces of another program, which implements each step
//! literally by its definition, and in small cases by hand.
ghost use Rattle.std.specs.Prelude.{◌≡◌, ◌+◌, ◌<◌, ◌^◌, true};
ghost use Rattle.plan_audit.specs.Passes.{passes};

use crate::tests::builders::{Case, FOUR, TestProblem, case_of, problem_of};
use crate::tests::step_ranges::{Example, StepRange, both, found, is_found};
use anneal_search::{anneal_step, draw, ordered};
use plan_types::Problem;
use std::alloc::Global;
use std::test::Fail;

/// A word, a number of things, the number that the word draws among them, and the rest of the word.
const DRAWS: [(u32, usize, usize, u32); 6] = [
    (0, 1, 0, 0),
    (u32::MAX, 1, 0, u32::MAX),
    (u32::MAX, 16, 15, 0xffff_fff0),
    (1 << 31, 3, 1, 1 << 31),
    (0x4000_0001, 4, 1, 4),
    (3, 2, 0, 6),
];

#[test]
fn draws(rt: HostRuntime) {
    for (word, things, number, rest) in DRAWS {
        let drawn = draw(word, things);
        assert!(rt; drawn.number == number);
        assert!(rt; drawn.rest == rest);
    }
}

/// Twelve customers with their coordinates and demands.
const CUSTOMERS: TestProblem = TestProblem::Customers(
    10,
    12,
    &[
        (20, 5, 3),
        (25, -3, 4),
        (22, 14, 2),
        (-7, 20, 5),
        (-12, 24, 1),
        (3, 30, 4),
        (-25, -4, 3),
        (-30, 2, 2),
        (-21, -15, 6),
        (5, -22, 3),
        (12, -28, 4),
        (-3, -19, 2),
    ],
);

/// Fifteen customers, each of whom fills a vehicle, so that a step can cut twelve routes of one stop.
const ALONE: TestProblem = TestProblem::Customers(
    1,
    15,
    &[
        (-10, 30, 1),
        (-21, -5, 1),
        (11, -27, 1),
        (-26, 22, 1),
        (4, -24, 1),
        (-7, 7, 1),
        (-27, 28, 1),
        (2, -17, 1),
        (-28, -25, 1),
        (-3, -4, 1),
        (-26, -15, 1),
        (-25, 5, 1),
        (-3, -27, 1),
        (22, 6, 1),
        (-23, 30, 1),
    ],
);

/// A plan for `CUSTOMERS`. Each route ends with a 0.
const BUILT: &[u32] = &[
    2, 1, 3, 0, 6, 5, 4, 0, 8, 7, 11, 0, 10, 9, 0, 12, 0, 0, 0, 0, 0, 0, 0, 0,
];

/// A plan for six pairs and six vehicles. Each route ends with a 0.
const BUILT_PAIRS: &[u32] = &[1, 2, 3, 4, 9, 10, 0, 5, 11, 12, 6, 7, 8, 0, 0, 0, 0, 0];

const TRACES: [Example; 8] = [
    // The first five routes are 2 1 3, 6 5 4, 8 7 11, 10 9 and 12. The strings remove 3; 6 and 4, around 5,
    // which stays; 8 7; all of 10 9; and 12.
    (
        CUSTOMERS,
        &[],
        BUILT,
        StepRange::Anneal(40, 1, (0, 1)),
        &[
            2, 1, 3, 0, 6, 5, 4, 0, 8, 7, 11, 0, 10, 9, 0, 12, 0, 0, 0, 0, 0, 0, 0, 0, 10, 2, 1, 0,
            4, 5, 6, 0, 9, 11, 0, 8, 7, 12, 3, 0, 0, 0, 0, 0, 0, 0, 0, 0,
        ],
    ),
    (
        CUSTOMERS,
        &[],
        BUILT,
        StepRange::Anneal(40, 1, (0, 100)),
        &[
            2, 1, 3, 0, 8, 7, 12, 10, 0, 6, 5, 4, 0, 9, 11, 0, 0, 0, 0, 0, 0, 0, 0, 0, 12, 9, 8, 0,
            6, 5, 4, 0, 11, 2, 3, 0, 7, 10, 1, 0, 0, 0, 0, 0, 0, 0, 0, 0,
        ],
    ),
    (
        CUSTOMERS,
        &[],
        BUILT,
        StepRange::Anneal(40, 2, (0, 100)),
        &[
            2, 1, 3, 0, 6, 5, 4, 0, 8, 7, 0, 9, 0, 11, 10, 12, 0, 0, 0, 0, 0, 0, 0, 0, 7, 2, 1, 0,
            9, 8, 3, 0, 6, 5, 4, 0, 11, 10, 12, 0, 0, 0, 0, 0, 0, 0, 0, 0,
        ],
    ),
    (
        TestProblem::SixPairs(6),
        &[],
        BUILT_PAIRS,
        StepRange::Anneal(40, 1, (0, 100)),
        &[
            5, 6, 1, 2, 11, 12, 0, 9, 10, 3, 4, 7, 8, 0, 0, 0, 0, 0, 5, 3, 4, 11, 12, 6, 0, 1, 2,
            9, 10, 7, 8, 0, 0, 0, 0, 0,
        ],
    ),
    (
        TestProblem::SixPairs(6),
        &[],
        BUILT_PAIRS,
        StepRange::Anneal(40, 2, (0, 100)),
        &[
            9, 10, 3, 4, 7, 8, 0, 5, 6, 1, 2, 11, 12, 0, 0, 0, 0, 0, 9, 10, 3, 1, 2, 11, 12, 4, 0,
            5, 6, 7, 8, 0, 0, 0, 0, 0,
        ],
    ),
    // One vehicle; some requests have no place.
    (
        TestProblem::SixPairs(1),
        &[],
        &[1, 2, 3, 4, 7, 8, 0],
        StepRange::Anneal(30, 1, (0, 3)),
        &[5, 6, 11, 1, 2, 9, 10, 12, 0, 5, 6, 11, 1, 2, 9, 10, 12, 0],
    ),
    (
        TestProblem::SixPairs(1),
        &[],
        &[1, 2, 3, 4, 7, 8, 0],
        StepRange::Anneal(30, 1, (0, 100)),
        &[3, 4, 9, 1, 2, 11, 12, 10, 0, 5, 6, 11, 1, 2, 9, 10, 12, 0],
    ),
    (
        ALONE,
        &[],
        &[
            1, 0, 2, 0, 3, 0, 4, 0, 5, 0, 6, 0, 7, 0, 8, 0, 9, 0, 10, 0, 11, 0, 12, 0, 13, 0, 14,
            0, 15, 0,
        ],
        StepRange::Anneal(10, 1, (0, 30)),
        &[
            9, 0, 1, 0, 2, 0, 4, 0, 5, 0, 3, 0, 13, 0, 6, 0, 7, 0, 8, 0, 10, 0, 11, 0, 12, 0, 14,
            0, 15, 0, 9, 0, 1, 0, 2, 0, 4, 0, 5, 0, 3, 0, 13, 0, 6, 0, 7, 0, 8, 0, 10, 0, 11, 0,
            12, 0, 14, 0, 15, 0,
        ],
    ),
];

#[test]
fn traces(rt: HostRuntime) -> Result<(), Fail> {
    for example in &TRACES {
        assert!(rt; is_found(rt.alloc(), example)?);
    }
    Ok(())
}

const LINE: TestProblem = TestProblem::Customers(10, 1, &[(1, 0, 1), (2, 0, 1), (3, 0, 1)]);

const BY_TWO: TestProblem = TestProblem::Customers(10, 2, &[(0, 10, 1), (6, 8, 1), (6, 0, 1)]);

const BY_HAND: [Example; 7] = [
    // After a pinned stop the others are inserted at their best places.
    (
        LINE,
        &[3, 0],
        &[3, 1, 2, 0],
        StepRange::Anneal(0, 0, (0, 1)),
        &[3, 2, 1, 0, 3, 2, 1, 0],
    ),
    (
        LINE,
        &[3, 0],
        &[3, 1, 2, 0],
        StepRange::Anneal(100, 5, (7, 40)),
        &[3, 2, 1, 0, 3, 2, 1, 0],
    ),
    // Pins of whole routes leave no movable request.
    (
        BY_TWO,
        &[1, 3, 0, 2, 0],
        &[1, 3, 0, 2, 0],
        StepRange::Anneal(100, 0, (0, 20)),
        &[1, 3, 0, 2, 0, 1, 3, 0, 2, 0],
    ),
    // An empty plan has no movable request, though one is unplanned; nor has a problem without requests.
    (
        TestProblem::Customers(10, 1, &[(0, 10, 1)]),
        &[],
        &[0],
        StepRange::Anneal(0, 0, (0, 20)),
        &[0, 0],
    ),
    (
        TestProblem::Customers(10, 1, &[]),
        &[],
        &[0],
        StepRange::Anneal(0, 0, (0, 20)),
        &[0, 0],
    ),
    // One vehicle with one stop: the stop returns to its place.
    (
        TestProblem::Customers(10, 1, &[(0, 10, 1)]),
        &[],
        &[1, 0],
        StepRange::Anneal(0, 0, (0, 20)),
        &[1, 0, 1, 0],
    ),
    // Zero steps change nothing.
    (
        LINE,
        &[],
        &[3, 1, 2, 0],
        StepRange::Anneal(100, 0, (9, 0)),
        &[3, 1, 2, 0, 3, 1, 2, 0],
    ),
];

#[test]
fn steps_by_hand(rt: HostRuntime) -> Result<(), Fail> {
    for example in &BY_HAND {
        assert!(rt; is_found(rt.alloc(), example)?);
    }
    Ok(())
}

/// A problem, a word, names, and the order of the names that the word picks. The highest four bits of the word
/// pick the key.
type Order = (TestProblem, u32, &'static [u32], &'static [u32]);

const FOUR_NAMES: &[u32] = &[1, 2, 3, 4];

const PAIRS: TestProblem = TestProblem::SixPairs(6);

const PAIR_NAMES: &[u32] = &[1, 3, 5, 7, 9, 11];

const ORDERS: [Order; 9] = [
    (FOUR, 0, FOUR_NAMES, &[1, 2, 3, 4]),
    // All keys are equal. By the salts of this word, greater names come first.
    (FOUR, 0x0fff_ffff, FOUR_NAMES, &[4, 3, 2, 1]),
    // The farthest first. Customers 1 and 2 are equally far, so the salts of the two words order them.
    (FOUR, 0x8000_0000, FOUR_NAMES, &[1, 2, 3, 4]),
    (FOUR, 0x8fff_ffff, FOUR_NAMES, &[2, 1, 3, 4]),
    // The other keys put first, row by row: the nearest, the greatest demand, the narrowest windows, the earliest
    // pickup, the latest delivery.
    (FOUR, 0xa000_0000, FOUR_NAMES, &[4, 3, 1, 2]),
    (PAIRS, 0x4000_0000, PAIR_NAMES, &[7, 3, 9, 1, 5, 11]),
    (PAIRS, 0xb000_0000, PAIR_NAMES, &[5, 3, 1, 7, 11, 9]),
    (PAIRS, 0xd000_0000, PAIR_NAMES, &[1, 5, 9, 7, 3, 11]),
    (PAIRS, 0xf000_0000, PAIR_NAMES, &[11, 9, 3, 1, 7, 5]),
];

// Returns whether the word picks the expected order; `false` if the problem has no stop 1.
fn is_ordered(alloc: Global, order: &Order) -> Result<bool, Fail> {
    let problem = problem_of(alloc, order.0)?;
    is_order_of(alloc, &problem, order)
}

fn is_order_of(alloc: Global, problem: &Problem, order: &Order) -> Result<bool, Fail> {
    let (_, word, names, expected) = *order;
    if problem.stop(1).is_none() {
        return Ok(false);
    }
    Ok(ordered(alloc, problem, word, names)?.as_slice() == expected)
}

#[test]
fn orders(rt: HostRuntime) -> Result<(), Fail> {
    for order in &ORDERS {
        assert!(rt; is_ordered(rt.alloc(), order)?);
    }
    Ok(())
}

// Makes two steps in two calls, beginning with step number `step`, and returns the routes of both plans.
fn step_by_step(alloc: Global, case: &Case, step: u64) -> Result<Vec<u32>, Fail>
    requires passing { passes case.now.problem case.now.pins.routes case.now.plan.routes ≡ true }
    requires step { step + 1 < 2 ^ 60 }
{
    let Case {
        problem,
        pins,
        plan,
    } = case;
    let first = anneal_step(alloc, problem, pins, plan, plan, 40, 1, step)?;
    let second = anneal_step(
        alloc,
        problem,
        pins,
        &first.plan,
        &first.work,
        40,
        1,
        step + 1,
    );
    drop(first);
    both(alloc, &second?)
}

// Returns whether two steps in one call find the same plans as two calls of one step.
fn steps_continue(alloc: Global, case: &Case, step: u64) -> Result<bool, Fail> {
    if step >= (1 << 60) - 1 || !case.is_passing(alloc)? {
        return Ok(false);
    }
    let one_by_one = step_by_step(alloc, case, step)?;
    let at_once = found(alloc, case, StepRange::Anneal(40, 1, (step, 2)))?;
    Ok(one_by_one == at_once)
}

fn continues_from(alloc: Global, step: u64) -> Result<bool, Fail> {
    let case = case_of(alloc, CUSTOMERS, &[], BUILT)?;
    let steps_continue = steps_continue(alloc, &case, step);
    drop(case);
    steps_continue
}

#[test]
fn steps_continue_where_others_end(rt: HostRuntime) -> Result<(), Fail> {
    assert!(rt; continues_from(rt.alloc(), 0)?);
    assert!(rt; continues_from(rt.alloc(), (1 << 32) - 1)?);
    assert!(rt; continues_from(rt.alloc(), (1 << 60) - 2)?);
    Ok(())
}
