//! Verdicts on plans and on printed solutions, and the faults of single routes.
use crate::tests::builders::{
    are_distinct_stops, depot_until, most_pairs, most_routes, one_pair, one_route, problem_of,
    routes_of, single, two_pairs,
};
use crate::tests::random_cases::{Case, Generator, some_case};
use crate::tests::slow::{AuditInput, slow_audit, total_length};
use plan_audit::{Verdict, audit, audit_solution, route_fault};
use plan_types::limits::MAX_STOP_NUMBER;
use plan_types::{Kind, Pins, Plan, Problem, Route, Routes};
use route_sched::{loads, starts};
use sol_text::Solution;
use std::alloc::Global;
use std::test::Fail;

// Returns a problem of three customers without windows.
fn three_customers(alloc: Global) -> Result<Problem, Fail> {
    let requests = [
        single(1, (3, 4), 6, 100_000_000),
        single(2, (6, 8), 4, 100_000_000),
        single(3, (0, 5), 5, 100_000_000),
    ];
    problem_of(alloc, Kind::Vrp, depot_until(100_000_000), 10, 3, &requests)
}

// Returns a verdict as four numbers. For a broken rule they are the rule, the route, the place and the stop.
// For a plan that passes they are 0, the unplanned requests, the vehicles and the distance.
fn verdict_numbers(verdict: Verdict) -> [u64; 4] {
    match verdict {
        Verdict::Pass(cost) => [0, cost.unplanned, cost.vehicles, cost.distance],
        Verdict::Broken {
            rule,
            route,
            place,
            stop,
        } => [u64::from(rule), route, place, u64::from(stop)],
    }
}

/// The problem of an example.
#[derive(Clone, Copy)]
enum Fixture {
    /// One pair, with the kind of problem, a capacity, the delivery's latest start and the latest return.
    Pair(Kind, u32, u32, u32),
    /// Two pairs and one vehicle.
    TwoPairs,
    /// Three customers without windows.
    Customers,
}

fn build_fixture(alloc: Global, posed: Fixture) -> Result<Problem, Fail> {
    match posed {
        Fixture::Pair(kind, capacity, latest, back) => one_pair(
            alloc, kind, capacity, latest, back,
        ),
        Fixture::TwoPairs => two_pairs(alloc, Kind::LiLim, 50),
        Fixture::Customers => three_customers(alloc),
    }
}

// Returns the verdict on printed routes.
fn audit_printed(
    alloc: Global,
    problem: &Problem,
    routes: Routes,
    cost: u64,
) -> Result<[u64; 4], Fail> {
    let solution = Solution { routes, cost };
    Ok(verdict_numbers(audit_solution(alloc, problem, &solution)?))
}

// Returns the verdict on two printed routes.
fn printed(
    alloc: Global,
    posed: Fixture,
    first: &[u32],
    second: &[u32],
    cost: u64,
) -> Result<[u64; 4], Fail> {
    let routes = routes_of(alloc, first, second)?;
    audit_printed(alloc, &build_fixture(alloc, posed)?, routes, cost)
}

const PAIR: Fixture = Fixture::Pair(Kind::LiLim, 10, 60, 100);
// Variants of the pair: a smaller capacity, an earlier latest start, an earlier latest return, and no windows.
const SMALL_VEHICLE: Fixture = Fixture::Pair(Kind::LiLim, 3, 60, 100);

const DUE_AT_11: Fixture = Fixture::Pair(Kind::LiLim, 10, 11, 100);

const DUE_AT_12: Fixture = Fixture::Pair(Kind::LiLim, 10, 12, 100);

const BACK_AT_23: Fixture = Fixture::Pair(Kind::LiLim, 10, 60, 23);

const BACK_AT_24: Fixture = Fixture::Pair(Kind::LiLim, 10, 60, 24);

const NO_WINDOWS: Fixture = Fixture::Pair(Kind::Vrp, 10, 11, 23);

/// A problem, two printed routes, the printed cost, and the expected verdict.
const PRINTED: [(Fixture, &[u32], &[u32], u64, [u64; 4]); 19] = [
    (PAIR, &[1, 2], &[], 20, [0, 0, 1, 20]),
    (PAIR, &[1, 2], &[9], 20, [1, 2, 1, 9]),
    (PAIR, &[1, 2, 1], &[], 20, [2, 1, 3, 1]),
    (PAIR, &[1], &[], 10, [3, 1, 1, 2]),
    (PAIR, &[], &[], 0, [3, 0, 0, 1]),
    (PAIR, &[1], &[2], 30, [4, 1, 1, 1]),
    (PAIR, &[2, 1], &[], 20, [5, 1, 1, 2]),
    (PAIR, &[1, 2], &[], 21, [11, 0, 0, 0]),
    // Capacity and windows: limits that are broken, and limits that are just kept.
    (SMALL_VEHICLE, &[1, 2], &[], 20, [6, 1, 1, 1]),
    (DUE_AT_11, &[1, 2], &[], 20, [7, 1, 2, 2]),
    (DUE_AT_11, &[1, 2], &[9], 20, [1, 2, 1, 9]),
    (DUE_AT_12, &[1, 2], &[], 20, [0, 0, 1, 20]),
    (BACK_AT_23, &[1, 2], &[], 20, [8, 1, 3, 0]),
    (BACK_AT_24, &[1, 2], &[], 20, [0, 0, 1, 20]),
    // No windows.
    (NO_WINDOWS, &[1, 2], &[], 20, [0, 0, 0, 20]),
    // The number of vehicles.
    (Fixture::TwoPairs, &[1, 2], &[3, 4], 8, [9, 2, 0, 0]),
    (Fixture::TwoPairs, &[], &[1, 3, 4, 2], 4, [0, 0, 1, 4]),
    // Customers without a delivery: their loads add up.
    (Fixture::Customers, &[2, 1], &[3], 30, [0, 0, 0, 30]),
    (Fixture::Customers, &[1, 2, 3], &[], 0, [6, 1, 3, 3]),
];

#[test]
fn audits_printed_routes(rt: HostRuntime) -> Result<(), Fail> {
    for (posed, first, second, cost, want) in &PRINTED {
        assert!(rt; printed(rt.alloc(), *posed, first, second, *cost)? == *want);
    }
    Ok(())
}

// Returns the verdict on a plan for one pair.
fn audit_planned(alloc: Global, pins: &Pins, plan: &Plan) -> Result<[u64; 4], Fail> {
    let problem = build_fixture(alloc, PAIR)?;
    Ok(verdict_numbers(audit(alloc, &problem, pins, plan)?))
}

// Returns the verdict on a plan for one pair, if the second vehicle has this pin.
fn planned(alloc: Global, plan: &Plan, pin: &[u32]) -> Result<[u64; 4], Fail> {
    let pins = Pins {
        routes: routes_of(alloc, &[], pin)?,
    };
    audit_planned(alloc, &pins, plan)
}

// Returns the verdict on a plan whose second vehicle stays at the depot.
fn first_planned(alloc: Global, first: &[u32], pin: &[u32]) -> Result<[u64; 4], Fail> {
    let plan = Plan {
        routes: routes_of(alloc, first, &[])?,
    };
    planned(alloc, &plan, pin)
}

/// The first vehicle's route, the second one's pin, and the expected verdict. The second vehicle stays at the
/// depot.
const PLANNED: [(&[u32], &[u32], [u64; 4]); 3] = [
    (&[1, 2], &[], [0, 0, 1, 20]),
    (&[], &[], [0, 1, 0, 0]),
    (&[1, 2], &[1, 2], [10, 2, 1, 1]),
];

#[test]
fn audits_a_plan(rt: HostRuntime) -> Result<(), Fail> {
    for (first, pin, want) in &PLANNED {
        assert!(rt; first_planned(rt.alloc(), first, pin)? == *want);
    }
    Ok(())
}

#[test]
fn asks_a_route_for_each_vehicle(rt: HostRuntime) -> Result<(), Fail> {
    assert!(rt; planned(rt.alloc(), &one_route(rt.alloc(), &[1, 2])?, &[])? == [9, 0, 0, 0]);
    Ok(())
}

// Returns the rule that these stops break as the only route: 0 for none, and 1 if they are not known and
// distinct.
fn fault_alone(problem: &Problem, stops: &[u32]) -> u32 {
    if !are_distinct_stops(problem, stops) {
        return 1;
    }
    route_fault(problem, stops).unwrap_or(0)
}

/// Routes over two pairs whose second pickup is due at 2, and the rule that each breaks, or 0.
const ROUTE_FAULTS: [(&[u32], u32); 6] = [
    (&[], 0),
    (&[1], 3),
    (&[1, 3, 4], 3),
    (&[1, 3, 4, 2], 0),
    (&[3, 4], 7),
    (&[4, 3], 5),
];

fn have_faults(problem: &Problem) -> bool {
    for (stops, want) in &ROUTE_FAULTS {
        if fault_alone(problem, stops) != *want {
            return false;
        }
    }
    true
}

fn two_pairs_have_faults(alloc: Global) -> Result<bool, Fail> {
    Ok(have_faults(&two_pairs(alloc, Kind::LiLim, 2)?))
}

#[test]
fn reports_the_fault_of_a_route(rt: HostRuntime) -> Result<(), Fail> {
    assert!(rt; two_pairs_have_faults(rt.alloc())?);
    Ok(())
}

// Returns the rule that the route of a pair breaks, or 0.
fn pair_fault(alloc: Global, posed: Fixture) -> Result<u32, Fail> {
    Ok(fault_alone(&build_fixture(alloc, posed)?, &[1, 2]))
}

/// A pair, and the rule that its route breaks, or 0.
const PAIR_FAULTS: [(Fixture, u32); 5] = [
    (Fixture::Pair(Kind::LiLim, 3, 11, 23), 6),
    (Fixture::Pair(Kind::LiLim, 10, 11, 23), 7),
    (Fixture::Pair(Kind::LiLim, 10, 12, 23), 8),
    (Fixture::Pair(Kind::LiLim, 10, 12, 24), 0),
    (Fixture::Pair(Kind::Vrp, 10, 11, 23), 0),
];

#[test]
fn reports_the_fault_of_one_pair(rt: HostRuntime) -> Result<(), Fail> {
    for (posed, want) in &PAIR_FAULTS {
        assert!(rt; pair_fault(rt.alloc(), *posed)? == *want);
    }
    Ok(())
}

// Counts the rule that a verdict names. A pass counts as rule 0.
fn count(seen: &mut [u32], verdict: Verdict) {
    let rule = match verdict {
        Verdict::Pass(_) => 0,
        Verdict::Broken { rule, .. } => rule,
    };
    if let Some(times) = seen.get_mut(rule as usize) {
        *times = times.saturating_add(1);
    }
}

// Returns whether both auditors have the same verdict on the plan of a case.
fn plans_agree(alloc: Global, case: &Case, seen: &mut [u32]) -> Result<bool, Fail> {
    let verdict = audit(alloc, &case.problem, &case.pins, &case.plan)?;
    count(seen, verdict);
    let pins = AuditInput::Pins(case.pins.routes.as_slice());
    Ok(
        verdict_numbers(verdict)
            == verdict_numbers(slow_audit(case, case.plan.routes.as_slice(), pins)),
    )
}

// Returns whether both auditors have the same verdict on the routes of a case, taken as a printed solution.
fn prints_agree(alloc: Global, case: &Case, seen: &mut [u32]) -> Result<bool, Fail> {
    let length = total_length(&case.problem, &case.tasks, case.plan.routes.as_slice());
    let cost = length.saturating_add(case.more);
    let routes = case.plan.routes.copy()?;
    let verdict = audit_solution(alloc, &case.problem, &Solution { routes, cost })?;
    count(seen, verdict);
    let slow = slow_audit(case, case.plan.routes.as_slice(), AuditInput::Cost(cost));
    Ok(verdict_numbers(verdict) == verdict_numbers(slow))
}

// Returns whether both auditors have the same verdicts in the next case.
fn verdicts_agree(alloc: Global, words: &mut Generator, seen: &mut [u32]) -> Result<bool, Fail> {
    let case = some_case(alloc, words)?;
    Ok(plans_agree(alloc, &case, seen)? && prints_agree(alloc, &case, seen)?)
}

#[test]
fn agrees_with_the_slow_auditor(rt: HostRuntime) -> Result<(), Fail> {
    let mut words = Generator::new();
    let mut seen = [0u32; 12];
    for round in 0..600 {
        let agree = verdicts_agree(rt.alloc(), &mut words, &mut seen)?;
        assert!(rt; agree, "case {round}");
    }
    assert!(rt; !seen.contains(&0), "never told: {seen:?}");
    Ok(())
}

// Returns the rule that the route breaks by the slow auditor, 0 for none, or 1 if its stops are not known and
// distinct. `fault_alone` must return the same number.
fn slow_fault(case: &Case, alone: &[Route]) -> u32 {
    match slow_audit(case, alone, AuditInput::Pins(&[])) {
        Verdict::Broken { rule: 2, .. } => 1,
        Verdict::Broken { rule, .. } if rule <= 8 => rule,
        _ => 0,
    }
}

// Returns whether both auditors find the same fault in each route of a case.
fn route_faults_agree(case: &Case) -> bool {
    for alone in case.plan.routes.as_slice().chunks(1) {
        for route in alone {
            if fault_alone(&case.problem, route.as_slice()) != slow_fault(case, alone) {
                return false;
            }
        }
    }
    true
}

// Returns whether both auditors find the same faults in the next case.
fn faults_agree(alloc: Global, words: &mut Generator) -> Result<bool, Fail> {
    Ok(route_faults_agree(&some_case(alloc, words)?))
}

#[test]
fn route_fault_agrees_with_the_slow_auditor(rt: HostRuntime) -> Result<(), Fail> {
    let mut words = Generator::new();
    for round in 0..300 {
        assert!(rt; faults_agree(rt.alloc(), &mut words)?, "case {round}");
    }
    Ok(())
}

// Returns how many starts and loads a route has, or zeros if its stops are not known and distinct.
fn places_of(alloc: Global, problem: &Problem, route: &[u32]) -> Result<[usize; 2], Fail> {
    if !are_distinct_stops(problem, route) {
        return Ok([0, 0]);
    }
    let starts = starts(alloc, problem, route)?.len();
    Ok([starts, loads(alloc, problem, route)?.len()])
}

fn places_in(alloc: Global, problem: &Problem, routes: &[Route]) -> Result<[usize; 2], Fail> {
    let mut places = [0usize; 2];
    for route in routes {
        let [starts, loads] = places_of(alloc, problem, route.as_slice())?;
        places = [
            places[0].saturating_add(starts),
            places[1].saturating_add(loads),
        ];
    }
    Ok(places)
}

// Returns the numbers of starts and of loads for the largest problem in routes of this length.
fn scheduled(alloc: Global, length: u32) -> Result<[usize; 2], Fail> {
    let routes = most_routes(alloc, length)?;
    places_in(alloc, &most_pairs(alloc)?, routes.as_slice())
}

#[test]
fn schedules_the_largest_plans(rt: HostRuntime) -> Result<(), Fail> {
    for length in [MAX_STOP_NUMBER, 2] {
        assert!(rt; scheduled(rt.alloc(), length)? == [80_000, 40_000]);
    }
    Ok(())
}

// Returns the verdict on the largest problem in printed routes of this length.
fn largest_printed(alloc: Global, length: u32) -> Result<[u64; 4], Fail> {
    let routes = most_routes(alloc, length)?;
    audit_printed(alloc, &most_pairs(alloc)?, routes, 0)
}

// Returns the verdict on the largest problem in planned routes of this length.
fn largest_planned(alloc: Global, length: u32) -> Result<[u64; 4], Fail> {
    let routes = most_routes(alloc, length)?;
    audit_without_pins(alloc, &most_pairs(alloc)?, routes)
}

fn audit_without_pins(alloc: Global, problem: &Problem, routes: Routes) -> Result<[u64; 4], Fail> {
    let pins = Pins {
        routes: Routes::new(alloc),
    };
    Ok(verdict_numbers(audit(alloc, problem, &pins, &Plan { routes })?))
}

#[test]
fn audits_the_largest_plans(rt: HostRuntime) -> Result<(), Fail> {
    for (length, vehicles) in [(MAX_STOP_NUMBER, 1), (2, 20_000)] {
        let want = [0, 0, vehicles, 0];
        assert!(rt; largest_printed(rt.alloc(), length)? == want);
        assert!(rt; largest_planned(rt.alloc(), length)? == want);
    }
    Ok(())
}
