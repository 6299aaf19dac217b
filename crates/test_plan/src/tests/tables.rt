//! Insertion tables: the distance that a request adds to a route, and its best places.
ghost use Rattle.std.specs.Prelude.{◌≡◌, ℕ, ◌<◌, ◌≤◌, ◌≤ℤ◌, pos, IfOk, IfSome, IsTrue, length, slice_index_or};
ghost use Rattle.plan_types.specs.declared.requests.Kind.TheVariants.{LiLim};
ghost use Rattle.route_sched.specs.Route.{AreDistinctStops};
ghost use Rattle.route_sched.specs.VisitList.{visits_from};
ghost use Rattle.route_sched.specs.declared.visits.Visit.{Visit};
ghost use Rattle.slack_tables.specs.Course.{IsCourseIn};
ghost use Rattle.slack_tables.specs.Insertion.{KeepsLimits};

use crate::tests::builders::{
    are_distinct_stops, depot_until, problem_of, route_between, single, stop_at, two_pairs,
};
use plan_types::{Kind, OutOfMemory, Problem, Request};
use route_sched::{Visit, Visits};
use slack_tables::{PricedInsertion, RouteTable};
use std::alloc::Global;
use std::test::Fail;

// Returns whether the load and the start keep their limits at this place.
fn keeps(kind: Kind, capacity: u32, visit: &Visit) -> bool
    ensures { IsTrue result → (visit.now.load ≤ℤ pos capacity)
        × (kind ≡ LiLim → visit.now.start ≤ visit.now.stop.latest) }
{
    if visit.load > i64::from(capacity) {
        return false;
    }
    match kind {
        Kind::LiLim => visit.start <= u64::from(visit.stop.latest),
        Kind::Vrp => true,
    }
}

fn all_keep(kind: Kind, capacity: u32, visits: &[Visit]) -> bool
    ensures { IsTrue result → (k : ℕ) (d : Visit) → k < length visits.now
        → ((slice_index_or visits.now k d).load ≤ℤ pos capacity)
        × (kind ≡ LiLim → (slice_index_or visits.now k d).start
        ≤ (slice_index_or visits.now k d).stop.latest) }
{
    for visit in visits {
        if keeps(kind, capacity, visit) {
            continue;
        }
        return false;
    }
    true
}

// Returns the visits of a route, with the return to the depot as the last one.
fn visits_of(alloc: Global, problem: &Problem, route: &[u32]) -> Result<Vec<Visit>, OutOfMemory>
    requires { AreDistinctStops problem.now route.now }
    ensures { IfOk result (λ visits. visits.items ≡ visits_from problem.now route.now 0) }
{
    Visits::new(problem, route).collect(alloc)
}

// Returns whether the route keeps the capacity and the windows.
fn keeps_limits(alloc: Global, problem: &Problem, route: &[u32]) -> Result<bool, OutOfMemory>
    requires { AreDistinctStops problem.now route.now }
    ensures { IfOk result (λ b. IsTrue b → KeepsLimits problem.now route.now) }
{
    let visits = visits_of(alloc, problem, route)?;
    Ok(all_keep(problem.kind, problem.capacity, visits.as_slice()))
}

// Returns whether these stops are known and distinct, and their route keeps the limits.
fn is_fitting(alloc: Global, problem: &Problem, stops: &[u32]) -> Result<bool, Fail>
    ensures once { IfOk result (λ b. IsTrue b → AreDistinctStops problem.now stops.now) }
    ensures limits { IfOk result (λ b. IsTrue b → KeepsLimits problem.now stops.now) }
{
    if !are_distinct_stops(problem, stops) {
        return Ok(false);
    }
    Ok(keeps_limits(alloc, problem, stops)?)
}

// Returns the table of a route that fits.
fn table_of(alloc: Global, problem: &Problem, stops: &[u32]) -> Result<RouteTable, Fail>
    ensures { IfOk result (λ table. IsCourseIn problem.now table) }
{
    if !is_fitting(alloc, problem, stops)? {
        return Err(Fail::from("the route does not fit"));
    }
    let table = RouteTable::build(alloc, problem, stops)?;
    Ok(table)
}

// Returns the answer of `try_insert`, or `None` if there is no such request or these are not places of the route.
fn insertion_result(
    problem: &Problem,
    table: &RouteTable,
    name: u32,
    i: u64,
    j: u64,
) -> Option<Option<i64>>
    requires { IsCourseIn problem.now table.now }
{
    let count = table.stop_count() as u64;
    match problem.requests.get(&name)? {
        Request::Single(_) => {
            if i < 1 || i > count + 1 || j != i {
                return None;
            }
        }
        Request::Pair(..) => {
            if i < 1 || j <= i || j > count + 2 {
                return None;
            }
        }
    }
    Some(table.try_insert(problem, name, i, j))
}

// Returns the answer of `best_places`, or `None` if there is no such request.
fn best_in(
    problem: &Problem,
    table: &RouteTable,
    name: u32,
    kept: u64,
    below: i64,
) -> Option<Option<PricedInsertion>>
    requires { kept ≤ length table.now.stops }
{
    let request = problem.requests.get(&name)?;
    Some(table.best_places(request, kept, below))
}

/// The problem of an example.
#[derive(Clone, Copy)]
enum Fixture {
    /// The direct leg to stop 3 takes 3, and the latest time of stop 3 is 2.
    TwoPairs,
    /// Without windows, the leg to stop 3 may take any time.
    TwoPairsInVrp,
    StopOnTheWay,
    LongLine,
    HeavyPairs,
}

fn build_fixture(alloc: Global, which: Fixture) -> Result<Problem, Fail> {
    match which {
        Fixture::TwoPairs => two_pairs(alloc, Kind::LiLim, 2),
        Fixture::TwoPairsInVrp => two_pairs(alloc, Kind::Vrp, 2),
        Fixture::StopOnTheWay => stop_on_the_way(alloc),
        Fixture::LongLine => long_line(alloc),
        Fixture::HeavyPairs => heavy_pairs(alloc),
    }
}

// Returns a problem in which stop 2 lies between the depot and stop 1. By rounded distances, the legs via stop 2
// together are shorter than the direct leg.
fn stop_on_the_way(alloc: Global) -> Result<Problem, Fail> {
    let requests = [single(1, (2, 2), 1, 100), single(2, (1, 1), 1, 100)];
    problem_of(alloc, Kind::Vrp, depot_until(100), 10, 1, &requests)
}

// Returns a problem with stops 1, 2 and 3 on a line, ten apart. The delivery of the pair 4 and 5 lies between 2
// and 3. Four other customers have one stop each: the demand of stop 8 exceeds the capacity that a route over 1,
// 2 and 3 leaves free, and stop 9 lies far off the line, as does the pair 10 and 11.
fn long_line(alloc: Global) -> Result<Problem, Fail> {
    let near = stop_at(4, (5, 0), 1, 100, 0);
    let far = stop_at(10, (20, 1000), 1, 100, 0);
    let requests = [
        single(1, (10, 0), 1, 100),
        single(2, (20, 0), 1, 100),
        single(3, (30, 0), 1, 100),
        Request::Pair(near, stop_at(5, (25, 0), -1, 100, 0)),
        single(6, (5, 0), 1, 100),
        single(7, (12, 0), 1, 100),
        single(8, (12, 0), 8, 100),
        single(9, (20, 1000), 1, 100),
        Request::Pair(far, stop_at(11, (20, 990), -1, 100, 0)),
    ];
    problem_of(alloc, Kind::Vrp, depot_until(100), 10, 1, &requests)
}

// Returns a problem of two pairs on a line. With both on board the vehicle would be overloaded.
fn heavy_pairs(alloc: Global) -> Result<Problem, Fail> {
    let first = stop_at(1, (10, 0), 6, 100, 0);
    let second = stop_at(3, (12, 0), 6, 100, 0);
    let requests = [
        Request::Pair(first, stop_at(2, (20, 0), -6, 100, 0)),
        Request::Pair(second, stop_at(4, (18, 0), -6, 100, 0)),
    ];
    problem_of(alloc, Kind::LiLim, depot_until(100), 10, 1, &requests)
}

// Returns whether `try_insert` has the answer `want`, and these are places of the route.
fn answers(
    problem: &Problem,
    table: &RouteTable,
    name: u32,
    places: (u64, u64),
    want: Option<i64>,
) -> bool
    requires { IsCourseIn problem.now table.now }
{
    match insertion_result(problem, table, name, places.0, places.1) {
        Some(added) => added == want,
        None => false,
    }
}

// Returns whether a request adds the distance `want` at these places, or does not fit there if `want` is `None`.
fn adds(
    alloc: Global,
    problem: &Problem,
    route: &[u32],
    name: u32,
    places: (u64, u64),
    want: Option<i64>,
) -> Result<bool, Fail> {
    let table = table_of(alloc, problem, route)?;
    Ok(answers(problem, &table, name, places, want))
}

/// A request, the route and the places where it is inserted, and the distance that it adds; `None` if it does
/// not fit.
type Added = (Fixture, &'static [u32], u32, (u64, u64), Option<i64>);

const ADDED: [Added; 8] = [
    (Fixture::TwoPairs, &[1, 2], 3, (2, 3), Some(2)),
    (Fixture::TwoPairs, &[1, 2], 3, (3, 4), Some(3)),
    (Fixture::TwoPairs, &[1, 2], 3, (2, 4), Some(5)),
    (Fixture::TwoPairs, &[1, 2], 3, (1, 2), None),
    (Fixture::TwoPairs, &[1, 2], 3, (1, 4), None),
    (Fixture::TwoPairsInVrp, &[1, 2], 3, (1, 2), Some(3)),
    (Fixture::TwoPairsInVrp, &[], 3, (1, 2), Some(6)),
    (Fixture::StopOnTheWay, &[1], 2, (1, 1), Some(-1)),
];

fn adds_as(alloc: Global, row: &Added) -> Result<bool, Fail> {
    let (which, route, name, places, want) = *row;
    adds(
        alloc,
        &build_fixture(alloc, which)?,
        route,
        name,
        places,
        want,
    )
}

#[test]
fn inserts_requests(rt: HostRuntime) -> Result<(), Fail> {
    for row in &ADDED {
        assert!(rt; adds_as(rt.alloc(), row)?);
    }
    Ok(())
}

// Returns the distance and the places of `best_places` for a request that is inserted after the first `kept`
// stops and adds less than `below`. The places are 0 if there is no such insertion.
fn best_answer(
    problem: &Problem,
    table: &RouteTable,
    name: u32,
    kept: u64,
    below: i64,
) -> Option<(i64, [u64; 2])> {
    if kept > table.stop_count() as u64 {
        return None;
    }
    match best_in(problem, table, name, kept, below)? {
        Some(best) => Some((best.distance, [best.pickup, best.delivery])),
        None => Some((0, [0, 0])),
    }
}

// Returns whether the answer of `best_places` has this distance and these places.
fn are_best(reported: Option<(i64, [u64; 2])>, distance: i64, places: [u64; 2]) -> bool {
    match reported {
        Some(best) => best.0 == distance && best.1 == places,
        None => false,
    }
}

/// A row of `BEST_PLACES`.
type BestPlaces = (Fixture, &'static [u32], u32, u64, i64, i64, [u64; 2]);

/// A problem, a route, a request, the number of stops to keep at the beginning of the route, and the bound on
/// the added distance. Then the distance that the best insertion adds, and its places, or zeros if the request
/// fits nowhere. In `LongLine` a request can fit both on the way out and on the way back; the first fit after
/// the kept stops is the best.
const BEST_PLACES: [BestPlaces; 17] = [
    (Fixture::TwoPairs, &[1, 2], 3, 0, 1000, 2, [2, 3]),
    (Fixture::TwoPairs, &[1, 2], 3, 0, 3, 2, [2, 3]),
    (Fixture::TwoPairs, &[1, 2], 3, 0, 2, 0, [0, 0]),
    (Fixture::TwoPairs, &[1, 2], 3, 1, 1000, 2, [2, 3]),
    (Fixture::TwoPairs, &[1, 2], 3, 2, 1000, 3, [3, 4]),
    (Fixture::TwoPairs, &[], 1, 0, 1000, 2, [1, 2]),
    (Fixture::StopOnTheWay, &[1], 2, 0, 0, -1, [1, 1]),
    (Fixture::StopOnTheWay, &[1], 2, 0, -1, 0, [0, 0]),
    (Fixture::LongLine, &[1, 2, 3], 4, 0, 100, 0, [1, 4]),
    (Fixture::LongLine, &[1, 2, 3], 6, 0, 100, 0, [1, 1]),
    (Fixture::LongLine, &[1, 2, 3], 6, 1, 100, 0, [4, 4]),
    (Fixture::LongLine, &[1, 2, 3], 6, 3, 100, 0, [4, 4]),
    (Fixture::LongLine, &[1, 2, 3], 7, 0, 100, 0, [2, 2]),
    (Fixture::LongLine, &[1, 2, 3], 7, 1, 100, 0, [2, 2]),
    (Fixture::LongLine, &[1, 2, 3], 7, 2, 100, 0, [4, 4]),
    (Fixture::LongLine, &[1, 2, 3], 8, 0, 100, 0, [0, 0]),
    (Fixture::HeavyPairs, &[1, 2], 3, 0, 100, 12, [3, 4]),
];

fn is_best_in(alloc: Global, problem: &Problem, row: &BestPlaces) -> Result<bool, Fail> {
    let (_, route, name, kept, below, distance, places) = *row;
    let table = table_of(alloc, problem, route)?;
    let reported = best_answer(problem, &table, name, kept, below);
    Ok(are_best(reported, distance, places))
}

fn is_best(alloc: Global, row: &BestPlaces) -> Result<bool, Fail> {
    is_best_in(alloc, &build_fixture(alloc, row.0)?, row)
}

#[test]
fn finds_the_best_places(rt: HostRuntime) -> Result<(), Fail> {
    for row in &BEST_PLACES {
        assert!(rt; is_best(rt.alloc(), row)?);
    }
    Ok(())
}

// Returns a problem with as many customers as possible, all at one place.
fn most_customers(alloc: Global) -> Result<Problem, Fail> {
    let mut problem = Problem::new(alloc, Kind::Vrp, depot_until(100), 10, 1)?;
    for number in 1..=40_000 {
        problem.put(single(number, (3, 4), 0, 100))?;
    }
    Ok(problem)
}

// Returns whether the last customer adds no distance in the middle of a route of all others.
fn adds_the_last(alloc: Global) -> Result<bool, Fail> {
    let route = route_between(alloc, 1, 39_999)?;
    let places = (20_000, 20_000);
    let problem = most_customers(alloc)?;
    adds(alloc, &problem, route.as_slice(), 40_000, places, Some(0))
}

#[test]
fn takes_the_largest_route(rt: HostRuntime) -> Result<(), Fail> {
    assert!(rt; adds_the_last(rt.alloc())?);
    Ok(())
}

// Returns the answer of `rules_out`, or `None` if no request has the name.
fn ruled_out(problem: &Problem, table: &RouteTable, name: u32, below: i64) -> Option<bool> {
    let request = problem.requests.get(&name)?;
    Some(table.rules_out(request, below))
}

/// A request, a distance, and whether the route over the line rules the request out below that distance. The
/// detour to stop 9 adds at least 1,970, and so does that to stops 10 and 11. Stop 8 causes an overload
/// everywhere.
const RULED_OUT: [(u32, i64, bool); 7] = [
    (9, 1_000, true),
    (9, 1_971, false),
    (8, i64::MAX, true),
    (7, 1, false),
    (4, 1, false),
    (10, 1_000, true),
    (10, 1_971, false),
];

fn are_ruled_out(problem: &Problem, table: &RouteTable) -> bool {
    for (name, below, want) in &RULED_OUT {
        if ruled_out(problem, table, *name, *below) != Some(*want) {
            return false;
        }
    }
    true
}

// Returns the number of stops and the length of the route.
fn size(table: &RouteTable) -> [u64; 2] {
    [table.stop_count() as u64, table.distance()]
}

// Returns the size of a table that is rebuilt for another route.
fn rebuild(
    alloc: Global,
    problem: &Problem,
    table: &mut RouteTable,
    near: &RouteTable,
    route: &[u32],
) -> Result<[u64; 2], Fail>
    requires { IsCourseIn problem.now near.now }
{
    if !is_fitting(alloc, problem, route)? {
        return Err(Fail::from("the route does not fit"));
    }
    table.rebuild(problem, near, route)?;
    Ok(size(table))
}

// Returns the size of the second route's table, rebuilt from the first route's table in place.
fn rebuilt(
    alloc: Global,
    problem: &Problem,
    first: &[u32],
    second: &[u32],
) -> Result<[u64; 2], Fail> {
    let near = table_of(alloc, problem, first)?;
    let mut table = table_of(alloc, problem, first)?;
    rebuild(alloc, problem, &mut table, &near, second)
}

// Returns the size of the table that is built for the route in the memory of `table`, if the route keeps the
// limits.
fn remake(
    problem: &Problem,
    table: RouteTable,
    near: &RouteTable,
    route: &[u32],
) -> Result<[u64; 2], Fail>
    requires { IsCourseIn problem.now near.now }
{
    if !are_distinct_stops(problem, route) {
        return Err(Fail::from("a stop is unknown or stands twice"));
    }
    match table.into_rebuilt(problem, near, route)? {
        Some(table) => Ok(size(&table)),
        None => Err(Fail::from("the second route does not fit")),
    }
}

// Returns the size of the second route's table, made from the memory of the first one.
fn into_rebuilt(
    alloc: Global,
    problem: &Problem,
    first: &[u32],
    second: &[u32],
) -> Result<[u64; 2], Fail> {
    let near = table_of(alloc, problem, first)?;
    remake(problem, table_of(alloc, problem, first)?, &near, second)
}

// Returns whether the second route's table has this number of stops and this length, if it is made from the first
// route's table in both ways.
fn takes(
    alloc: Global,
    problem: &Problem,
    first: &[u32],
    second: &[u32],
    want: [u64; 2],
) -> Result<bool, Fail> {
    let rebuilt = rebuilt(alloc, problem, first, second)?;
    Ok(rebuilt == want && into_rebuilt(alloc, problem, first, second)? == want)
}

/// A route, another route, and the size of the other route's table. The other route is longer, then shorter, then
/// empty.
const OTHER_ROUTES: [(&[u32], &[u32], [u64; 2]); 3] = [
    (&[1, 2], &[1, 2, 3, 4], [4, 5]),
    (&[1, 2, 3, 4], &[3, 4], [2, 6]),
    (&[1, 2], &[], [0, 0]),
];

fn takes_others(alloc: Global, problem: &Problem) -> Result<bool, Fail> {
    for (first, second, want) in &OTHER_ROUTES {
        if !takes(alloc, problem, first, second, *want)? {
            return Ok(false);
        }
    }
    Ok(true)
}

fn two_pairs_take_others(alloc: Global) -> Result<bool, Fail> {
    takes_others(alloc, &two_pairs(alloc, Kind::Vrp, 2)?)
}

#[test]
fn takes_another_route(rt: HostRuntime) -> Result<(), Fail> {
    assert!(rt; two_pairs_take_others(rt.alloc())?);
    Ok(())
}

// Returns whether a table that was built for an empty route can be rebuilt for the largest route, which visits all
// customers.
fn becomes_largest(alloc: Global) -> Result<bool, Fail> {
    let route = route_between(alloc, 1, 40_000)?;
    let problem = most_customers(alloc)?;
    takes(alloc, &problem, &[], route.as_slice(), [40_000, 10])
}

#[test]
fn becomes_the_largest_table(rt: HostRuntime) -> Result<(), Fail> {
    assert!(rt; becomes_largest(rt.alloc())?);
    Ok(())
}

// Returns whether start, load and latest start at a place are the given ones.
fn is_known(
    table: &RouteTable,
    place: usize,
    start: u64,
    load: i64,
    latest_start: Option<u64>,
) -> bool {
    if place > table.stop_count() + 1 {
        return false;
    }
    table.start(place) == start
        && table.load(place) == load
        && table.latest_start(place) == latest_start
}

/// A place of the route of the first pair, and the start, the load and the latest start there.
const KNOWN: [(usize, u64, i64, Option<u64>); 4] = [
    (0, 0, 0, Some(49)),
    (1, 1, 1, Some(50)),
    (2, 1, 0, Some(99)),
    (3, 2, 0, None),
];

fn are_known(table: &RouteTable) -> bool {
    for (place, start, load, latest) in &KNOWN {
        if !is_known(table, *place, *start, *load, *latest) {
            return false;
        }
    }
    true
}

fn first_pair_is_known(alloc: Global) -> Result<bool, Fail> {
    let problem = two_pairs(alloc, Kind::LiLim, 2)?;
    Ok(are_known(&table_of(alloc, &problem, &[1, 2])?))
}

#[test]
fn returns_the_values_of_a_place(rt: HostRuntime) -> Result<(), Fail> {
    assert!(rt; first_pair_is_known(rt.alloc())?);
    Ok(())
}

// Returns the number of the stop at a place.
fn number_at(table: &RouteTable, place: usize) -> Option<u32> {
    if place > table.stop_count() + 1 {
        return None;
    }
    Some(table.stop(place).number)
}

/// The depot, the stops on the line, and the depot again.
const NUMBERS: [u32; 5] = [0, 1, 2, 3, 0];

fn has_stops(table: &RouteTable) -> bool {
    for (place, number) in NUMBERS.iter().enumerate() {
        if number_at(table, place) != Some(*number) {
            return false;
        }
    }
    true
}

/// A place, a reach, and whether the route over the line is recognized to be beyond it. The stops of the route
/// lie from (10, 0) to (30, 0).
const BEYOND: [((i32, i32), u32, bool); 4] = [
    ((100, 0), 69, true),
    ((100, 0), 70, false),
    ((20, 55), 54, true),
    ((20, 55), 55, false),
];

fn sees_beyond(table: &RouteTable) -> bool {
    for (place, reach, want) in &BEYOND {
        let center = stop_at(12, *place, 0, 100, 0);
        if table.is_beyond(&center, *reach) != *want {
            return false;
        }
    }
    true
}

// Returns whether 7 units of capacity are free: the vehicle carries 10, and each of its three stops takes 1.
fn has_room(table: &RouteTable) -> bool {
    table.max_demand() == 7
}

// Returns four checks of the table of the line: of the requests that it rules out, of its stops, of the reach that
// it is beyond, and of its free capacity.
fn table_checks(problem: &Problem, table: &RouteTable) -> [bool; 4] {
    [
        are_ruled_out(problem, table),
        has_stops(table),
        sees_beyond(table),
        has_room(table),
    ]
}

fn line_table_checks(alloc: Global) -> Result<[bool; 4], Fail> {
    let problem = long_line(alloc)?;
    let table = table_of(alloc, &problem, &[1, 2, 3])?;
    Ok(table_checks(&problem, &table))
}

#[test]
fn rules_out_requests_off_the_line(rt: HostRuntime) -> Result<(), Fail> {
    assert!(rt; line_table_checks(rt.alloc())? == [true; 4]);
    Ok(())
}
