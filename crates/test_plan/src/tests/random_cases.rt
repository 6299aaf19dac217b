//! Small problems with plans, made by a fixed pseudorandom sequence.
use crate::tests::builders::problem_of;
use plan_types::{Kind, Pins, Plan, Problem, Request, Route, Routes, Stop};
use std::alloc::Global;
use std::test::Fail;

/// A linear congruential generator with the constants of Knuth's MMIX.
#[derive(Drop)]
pub(crate) struct Generator {
    state: u64,
}

impl Generator {
    pub(crate) fn new() -> Generator {
        Generator { state: 1 }
    }

    // Returns a number from 0 to `below` - 1. `below` must not be 0.
    fn pick(&mut self, below: u32) -> u32 {
        self.state = self
            .state
            .wrapping_mul(6_364_136_223_846_793_005)
            .wrapping_add(1_442_695_040_888_963_407);
        let word = (self.state >> 33).checked_rem(u64::from(below));
        u32::try_from(word.unwrap_or(0)).unwrap_or(0)
    }

    fn signed(&mut self, below: u32) -> i32 {
        i32::try_from(self.pick(below)).unwrap_or(0)
    }

    fn stop(&mut self, number: u32, demand: i32) -> Stop {
        let x = self.signed(20);
        let y = self.signed(20);
        let earliest = self.pick(30);
        Stop {
            number,
            x,
            y,
            demand,
            earliest,
            latest: earliest.saturating_add(self.pick(120)),
            service: self.pick(5),
        }
    }
}

/// A stop, the other stop of its pair (if it has none, the stop itself), and the number that names its request.
#[derive(Clone, Copy)]
pub(crate) struct Task {
    pub stop: Stop,
    pub partner: u32,
    pub name: u32,
}

/// A problem with its stops, a plan with its pins, and the amount by which the printed cost exceeds the distance
/// of the plan.
#[derive(Drop)]
pub(crate) struct Case {
    pub problem: Problem,
    pub tasks: [Task; 5],
    pub plan: Plan,
    pub pins: Pins,
    pub more: u64,
}

/// Returns the next case.
pub(crate) fn some_case(alloc: Global, words: &mut Generator) -> Result<Case, Fail> {
    let tasks = some_tasks(words);
    let problem = some_problem(alloc, words, &tasks)?;
    // Now and then the plan has one vehicle more than the fleet.
    let more = u32::from(words.pick(12) == 0);
    let vehicles = problem.fleet.saturating_add(more);
    let lists = some_lists(words, vehicles);
    let plan = Plan {
        routes: routes_from(alloc, &lists, vehicles)?,
    };
    let pins = Pins {
        routes: routes_from(alloc, &some_pins(words, &lists), vehicles)?,
    };
    Ok(Case {
        problem,
        tasks,
        plan,
        pins,
        more: u64::from(words.pick(4) == 0),
    })
}

// Returns the stops of two pairs and a single stop.
fn some_tasks(words: &mut Generator) -> [Task; 5] {
    let one = words.signed(7);
    let other = words.signed(7);
    let single = words.signed(7);
    [
        some_task(words, 1, 2, 1, one),
        some_task(words, 2, 1, 1, 0i32.saturating_sub(one)),
        some_task(words, 3, 4, 3, other),
        some_task(words, 4, 3, 3, 0i32.saturating_sub(other)),
        some_task(words, 5, 5, 5, single),
    ]
}

fn some_task(words: &mut Generator, number: u32, partner: u32, name: u32, demand: i32) -> Task {
    Task {
        stop: words.stop(number, demand),
        partner,
        name,
    }
}

fn some_problem(alloc: Global, words: &mut Generator, tasks: &[Task; 5]) -> Result<Problem, Fail> {
    let kind = match words.pick(4) {
        0 => Kind::Vrp,
        _ => Kind::LiLim,
    };
    let depot = Stop {
        earliest: 0,
        latest: words.pick(100).saturating_add(50),
        service: 0,
        ..words.stop(0, 0)
    };
    let capacity = words.pick(8).saturating_add(5);
    let fleet = words.pick(3).saturating_add(1);
    let requests = [
        Request::Pair(tasks[0].stop, tasks[1].stop),
        Request::Pair(tasks[2].stop, tasks[3].stop),
        Request::Single(tasks[4].stop),
    ];
    problem_of(alloc, kind, depot, capacity, fleet, &requests)
}

/// The stops of a route in order. An empty element stands for no stop.
type Stops = [Option<u32>; 6];

// Returns the routes of this number of vehicles, at most four.
fn some_lists(words: &mut Generator, vehicles: u32) -> [Stops; 4] {
    let homes = some_homes(words, vehicles);
    [
        disturbed(words, served_by(&homes, 0)),
        disturbed(words, served_by(&homes, 1)),
        disturbed(words, served_by(&homes, 2)),
        disturbed(words, served_by(&homes, 3)),
    ]
}

fn some_pins(words: &mut Generator, lists: &[Stops; 4]) -> [Stops; 4] {
    [
        some_pin(words, &lists[0]),
        some_pin(words, &lists[1]),
        some_pin(words, &lists[2]),
        some_pin(words, &lists[3]),
    ]
}

fn routes_from(alloc: Global, lists: &[Stops; 4], vehicles: u32) -> Result<Routes, Fail> {
    let mut routes = Routes::new(alloc);
    for stops in lists.iter().take(vehicles as usize) {
        put_route(alloc, &mut routes, stops)?;
    }
    Ok(routes)
}

fn put_route(alloc: Global, routes: &mut Routes, stops: &Stops) -> Result<(), Fail> {
    Ok(routes.push(route_from(alloc, stops)?)?)
}

// Returns the vehicle of each stop; some stops have none. Now and then a delivery has another vehicle than its
// pickup.
fn some_homes(words: &mut Generator, vehicles: u32) -> [Option<u32>; 5] {
    let mut homes = [None; 5];
    for first in [0, 2, 4] {
        if words.pick(8) == 0 {
            continue;
        }
        let home = words.pick(vehicles);
        homes[first] = Some(home);
        if first < 4 {
            homes[first + 1] = Some(match words.pick(8) {
                0 => words.pick(vehicles),
                _ => home,
            });
        }
    }
    homes
}

fn served_by(homes: &[Option<u32>; 5], vehicle: u32) -> Stops {
    let mut stops = [None; 6];
    for (index, home) in homes.iter().enumerate() {
        if *home == Some(vehicle) {
            stops[index] = Some(index as u32 + 1);
        }
    }
    stops
}

// Returns the route. Now and then, one stop is replaced by another number, or changes places with the next one.
fn disturbed(words: &mut Generator, mut stops: Stops) -> Stops {
    let place = words.pick(5) as usize;
    let number = words.pick(96);
    if number < 8 && place < 5 {
        stops[place] = Some(number);
    } else if number < 12 && place < 5 {
        stops.swap(place, place + 1);
    }
    stops
}

// Returns the first stops of a route, now and then followed by a number that may not fit.
fn some_pin(words: &mut Generator, stops: &Stops) -> Stops {
    let length = words.pick(6) as usize;
    let mut pin = *stops;
    for stop in pin.iter_mut().skip(length) {
        *stop = None;
    }
    if words.pick(6) == 0 {
        pin[5] = Some(words.pick(6));
    }
    pin
}

fn route_from(alloc: Global, stops: &Stops) -> Result<Route, Fail> {
    let mut route = Route::new(alloc);
    for stop in stops {
        if let Some(number) = stop {
            route.push(*number)?;
        }
    }
    Ok(route)
}
