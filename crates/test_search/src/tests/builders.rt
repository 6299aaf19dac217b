//! Problems, plans and pins of the examples.
ghost use Rattle.std.specs.Prelude.{◌≡◌, true, IfOk, IsTrue};
ghost use Rattle.plan_audit.specs.Passes.{passes};

use plan_audit::{Verdict, audit, passes_decides_the_verdict};
use plan_types::{Kind, Pins, Plan, Problem, Request, Route, Routes, Stop};
use std::alloc::Global;
use std::test::Fail;
use test_examples::routes_of;

/// The latest time of any window.
const ANY_TIME: u32 = 100_000_000;

fn stop_at(number: u32, place: (i32, i32), demand: i32, latest: u32) -> Stop {
    Stop {
        number,
        x: place.0,
        y: place.1,
        demand,
        earliest: 0,
        latest,
        service: 0,
    }
}

// Returns a problem of customers with these coordinates and demands, numbered from 1, without windows. The depot
// is at (0, 0).
fn customers(
    alloc: Global,
    capacity: u32,
    fleet: u32,
    customers: &[(i32, i32, i32)],
) -> Result<Problem, Fail> {
    let depot = stop_at(0, (0, 0), 0, ANY_TIME);
    let mut problem = Problem::new(alloc, Kind::Vrp, depot, capacity, fleet)?;
    let mut number: u32 = 0;
    for (x, y, demand) in customers {
        number = number.saturating_add(1);
        problem.put(Request::Single(stop_at(number, (*x, *y), *demand, ANY_TIME)))?;
    }
    Ok(problem)
}

// Returns a problem of these requests, with a capacity of 10.
fn problem_with(
    alloc: Global,
    kind: Kind,
    fleet: u32,
    requests: &[Request],
) -> Result<Problem, Fail> {
    let depot = stop_at(0, (0, 0), 0, 100);
    let mut problem = Problem::new(alloc, kind, depot, 10, fleet)?;
    for request in requests {
        problem.put(*request)?;
    }
    Ok(problem)
}

// Returns a pickup of demand 1 and its delivery at the same place.
fn pair_at(number: u32, place: (i32, i32), latest: u32) -> Request {
    let pickup = stop_at(number, place, 1, latest);
    Request::Pair(pickup, stop_at(number.saturating_add(1), place, -1, 50))
}

// Returns a problem of two pairs at two places, with a fleet of one. The second pickup can be reached in time
// only via the first place.
fn pairs(alloc: Global) -> Result<Problem, Fail> {
    let requests = [pair_at(1, (1, 1), 50), pair_at(3, (2, 2), 2)];
    problem_with(alloc, Kind::LiLim, 1, &requests)
}

// Returns a problem with the two pairs of `pairs`, and a third pair like the first one, with stops 5 and 6.
fn three_pairs(alloc: Global) -> Result<Problem, Fail> {
    let requests = [
        pair_at(1, (1, 1), 50),
        pair_at(3, (2, 2), 2),
        pair_at(5, (1, 1), 50),
    ];
    problem_with(alloc, Kind::LiLim, 1, &requests)
}

// Returns a problem of two customers with the depot between them, and three vehicles. By rounded distances, the
// direct leg between the customers is longer than the one via the depot.
fn opposite(alloc: Global, kind: Kind) -> Result<Problem, Fail> {
    let requests = [
        Request::Single(stop_at(1, (1, 1), 1, 100)),
        Request::Single(stop_at(2, (-1, -1), 1, 100)),
    ];
    problem_with(alloc, kind, 3, &requests)
}

/// Six pairs, the pickup first: coordinates, demand and window.
const PAIRS: [(i32, i32, i32, u32, u32); 12] = [
    (10, 10, 4, 0, 100),
    (20, 12, -4, 10, 200),
    (-10, 12, 6, 20, 90),
    (-22, 8, -6, 30, 220),
    (8, -15, 3, 0, 80),
    (14, -22, -3, 40, 180),
    (-9, -14, 7, 10, 120),
    (-20, -19, -7, 20, 200),
    (2, 25, 5, 0, 150),
    (-5, 31, -5, 30, 260),
    (28, 2, 2, 40, 140),
    (31, -6, -2, 50, 300),
];

// Returns the stop at this index of `PAIRS`, with a service time of 5.
fn paired(index: usize) -> Stop {
    match PAIRS.get(index) {
        Some((x, y, demand, earliest, latest)) => Stop {
            number: (index as u32).saturating_add(1),
            x: *x,
            y: *y,
            demand: *demand,
            earliest: *earliest,
            latest: *latest,
            service: 5,
        },
        None => stop_at(0, (0, 0), 0, 0),
    }
}

// Returns the problem of the six pairs, with this fleet.
fn six_pairs(alloc: Global, fleet: u32) -> Result<Problem, Fail> {
    let depot = stop_at(0, (0, 0), 0, 400);
    let mut problem = Problem::new(alloc, Kind::LiLim, depot, 10, fleet)?;
    for pair in 0..6 {
        let request = Request::Pair(paired(2 * pair), paired(2 * pair + 1));
        problem.put(request)?;
    }
    Ok(problem)
}

// Returns a problem with 66 pairs, 64 at the depot and two at (3, 4), and a fleet of one, which can carry one
// pair at a time.
fn pairs_at_the_depot(alloc: Global) -> Result<Problem, Fail> {
    let depot = stop_at(0, (0, 0), 0, 1_000);
    let mut problem = Problem::new(alloc, Kind::LiLim, depot, 1, 1)?;
    for pair in 0..66 {
        let place = if pair < 64 { (0, 0) } else { (3, 4) };
        let pickup = stop_at(2 * pair + 1, place, 1, 1_000);
        problem.put(Request::Pair(pickup, stop_at(2 * pair + 2, place, -1, 1_000)))?;
    }
    Ok(problem)
}

/// The problem of an example.
#[derive(Clone, Copy)]
pub(crate) enum TestProblem {
    /// A capacity, a fleet, and the coordinates and demands of customers.
    Customers(u32, u32, &'static [(i32, i32, i32)]),
    Pairs,
    ThreePairs,
    Opposite(Kind),
    /// Six pairs, with this fleet.
    SixPairs(u32),
    /// This many customers on a grid, with a fleet of one.
    Grid(u32),
    /// 64 pairs at the depot, and two at (3, 4).
    PairsAtTheDepot,
}

/// Four customers, with a fleet of four.
pub(crate) const FOUR: TestProblem = TestProblem::Customers(
    1_000,
    4,
    &[(0, 10, 1), (6, 8, 1), (6, 0, 1), (3, 4, 1)],
);

/// The customers of `FOUR`, with vehicles that carry one of them.
pub(crate) const FOUR_BY_ONE: TestProblem = TestProblem::Customers(
    1,
    4,
    &[(0, 10, 1), (6, 8, 1), (6, 0, 1), (3, 4, 1)],
);

/// The customers of `FOUR`, with vehicles that carry two of them.
pub(crate) const FOUR_BY_TWO: TestProblem = TestProblem::Customers(
    2,
    4,
    &[(0, 10, 1), (6, 8, 1), (6, 0, 1), (3, 4, 1)],
);

pub(crate) fn problem_of(alloc: Global, given: TestProblem) -> Result<Problem, Fail> {
    match given {
        TestProblem::Customers(capacity, fleet, places) => customers(
            alloc, capacity, fleet, places,
        ),
        TestProblem::Pairs => pairs(alloc),
        TestProblem::ThreePairs => three_pairs(alloc),
        TestProblem::Opposite(kind) => opposite(alloc, kind),
        TestProblem::SixPairs(fleet) => six_pairs(alloc, fleet),
        TestProblem::Grid(customers) => grid(alloc, customers, 1_000_000, 1),
        TestProblem::PairsAtTheDepot => pairs_at_the_depot(alloc),
    }
}

/// Returns a problem of customers on a grid, 200 in a row, each with a demand of 1.
pub(crate) fn grid(
    alloc: Global,
    customers: u32,
    capacity: u32,
    fleet: u32,
) -> Result<Problem, Fail> {
    let depot = stop_at(0, (0, 0), 0, ANY_TIME);
    let mut problem = Problem::new(alloc, Kind::Vrp, depot, capacity, fleet)?;
    for before in 0..customers {
        let place = ((before % 200) as i32, (before / 200) as i32);
        let number = before.saturating_add(1);
        problem.put(Request::Single(stop_at(number, place, 1, ANY_TIME)))?;
    }
    Ok(problem)
}

/// Returns a plan whose first vehicle visits stops 1 to `stops`; the others visit none.
pub(crate) fn one_route(alloc: Global, stops: u32, fleet: u32) -> Result<Plan, Fail> {
    let mut route = Route::new(alloc);
    for before in 0..stops {
        route.push(before.saturating_add(1))?;
    }
    let mut routes = Routes::new(alloc);
    routes.push(route)?;
    for _ in 1..fleet {
        routes.push(Route::new(alloc))?;
    }
    Ok(Plan { routes })
}

/// Returns the plan of these routes, each ended by a 0.
pub(crate) fn plan_of(alloc: Global, stops: &[u32]) -> Result<Plan, Fail> {
    let routes = routes_of(alloc, stops)?;
    Ok(Plan { routes })
}

/// A problem, pins and a plan.
#[derive(Drop)]
pub(crate) struct Case {
    pub problem: Problem,
    pub pins: Pins,
    pub plan: Plan,
}

impl Case {
    pub(crate) fn is_passing(&self, alloc: Global) -> Result<bool, Fail>
        ensures { IfOk result (λ b. IsTrue b
            → passes self.now.problem self.now.pins.routes self.now.plan.routes ≡ true) }
    {
        is_passing(alloc, &self.problem, &self.pins, &self.plan)
    }
}

/// Returns the case of a problem with these pins and these routes, each ended by a 0.
pub(crate) fn case_of(
    alloc: Global,
    given: TestProblem,
    pins: &[u32],
    plan: &[u32],
) -> Result<Case, Fail> {
    let routes = routes_of(alloc, pins)?;
    let plan = plan_of(alloc, plan)?;
    let problem = problem_of(alloc, given)?;
    Ok(Case {
        problem,
        pins: Pins { routes },
        plan,
    })
}

/// Returns the case of a fleet of one, which visits stops 1 to `stops`, without pins.
pub(crate) fn case_of_one_route(
    alloc: Global,
    given: TestProblem,
    stops: u32,
) -> Result<Case, Fail> {
    let plan = one_route(alloc, stops, 1)?;
    let problem = problem_of(alloc, given)?;
    let routes = Routes::new(alloc);
    Ok(Case {
        problem,
        pins: Pins { routes },
        plan,
    })
}

/// Returns the stops of the routes, each route ended by a 0.
pub(crate) fn stops_of(alloc: Global, routes: &Routes) -> Result<Vec<u32>, Fail> {
    let mut stops = Vec::new(alloc);
    for route in routes.as_slice() {
        stops.extend_from_slice(route.as_slice())?;
        stops.push(0)?;
    }
    Ok(stops)
}

pub(crate) fn is_passing(
    alloc: Global,
    problem: &Problem,
    pins: &Pins,
    plan: &Plan,
) -> Result<bool, Fail>
    ensures { IfOk result (λ b. IsTrue b
        → passes problem.now pins.now.routes plan.now.routes ≡ true) }
{
    passes_decides_the_verdict();
    match audit(alloc, problem, pins, plan)? {
        Verdict::Pass(_) => Ok(true),
        Verdict::Broken { .. } => Ok(false),
    }
}
