//! A plain and slow auditor, to run beside the real one. It checks every rule at every route and place, as the
//! rules are written, and keeps the first violation.
use crate::tests::random_cases::{Case, Task};
use plan_audit::Verdict;
use plan_types::{Cost, Kind, Problem, Route, Stop};

/// The other input of an audit, beside the routes.
#[derive(Clone, Copy)]
pub(crate) enum AuditInput<'a> {
    /// The pins of a plan.
    Pins(&'a [Route]),
    /// The printed cost of a solution.
    Cost(u64),
}

/// A violation of a rule, as a verdict names it.
#[derive(Clone, Copy)]
struct Broken {
    rule: u32,
    route: u64,
    place: u64,
    stop: u32,
}

impl Broken {
    // Returns whether this violation is reported instead of the other, since it comes before it.
    fn precedes(&self, other: &Broken) -> bool {
        if self.rule != other.rule {
            return self.rule < other.rule;
        }
        if self.route != other.route {
            return self.route < other.route;
        }
        if self.place != other.place {
            return self.place < other.place;
        }
        self.stop < other.stop
    }
}

/// A place of the routes; routes and places count from 0.
#[derive(Clone, Copy)]
struct Position {
    route: usize,
    place: usize,
}

/// Returns the verdict by the definition.
pub(crate) fn slow_audit(case: &Case, routes: &[Route], asked: AuditInput) -> Verdict {
    let mut slow = Slow {
        problem: &case.problem,
        tasks: &case.tasks,
        routes,
        least: None,
    };
    for (number, route) in routes.iter().enumerate() {
        slow.check_route(number, route.as_slice());
    }
    match asked {
        AuditInput::Pins(pins) => slow.check_pins(pins),
        AuditInput::Cost(cost) => slow.check_solution(cost),
    }
    slow.verdict()
}

/// The input of the slow auditor, and the first violation that it has found so far.
#[derive(Drop)]
struct Slow<'a> {
    problem: &'a Problem,
    tasks: &'a [Task],
    routes: &'a [Route],
    least: Option<Broken>,
}

impl Slow<'_> {
    fn verdict(&self) -> Verdict {
        match self.least {
            Some(broken) => Verdict::Broken {
                rule: broken.rule,
                route: broken.route,
                place: broken.place,
                stop: broken.stop,
            },
            None => Verdict::Pass(self.cost()),
        }
    }

    // Keeps this violation if it comes before the one found so far.
    fn keep_least(&mut self, rule: u32, route: usize, place: usize, stop: u32) {
        let broken = Broken {
            rule,
            route: route as u64,
            place: place as u64,
            stop,
        };
        let least = self.least.unwrap_or(broken);
        self.least = Some(if broken.precedes(&least) {
            broken
        } else {
            least
        });
    }

    // Returns whether the stop is in one of the routes `from..to`.
    fn is_in(&self, from: usize, to: usize, stop: u32) -> bool {
        for (number, route) in self.routes.iter().enumerate() {
            if from <= number && number < to && route.as_slice().contains(&stop) {
                return true;
            }
        }
        false
    }

    // Checks the rules on one route. Violations count places from 1.
    fn check_route(&mut self, number: usize, stops: &[u32]) {
        for (place, stop) in stops.iter().enumerate() {
            let seat = Position {
                route: number,
                place,
            };
            self.check_stop(seat, *stop, stops);
            self.check_limits(seat, *stop, stops);
        }
        if !stops.is_empty() {
            self.check_used_route(number, stops);
        }
    }

    // Checks the latest return and the number of vehicles, for a route with a stop.
    fn check_used_route(&mut self, number: usize, stops: &[u32]) {
        let problem = self.problem;
        let back = stops.len().saturating_add(1);
        let late = start(problem, self.tasks, stops, back) > u64::from(problem.depot.latest);
        if problem.kind == Kind::LiLim && late {
            self.keep_least(8, number.saturating_add(1), back, 0);
        }
        let used = used_among(self.routes, number.saturating_add(1));
        if used == u64::from(problem.fleet).saturating_add(1) {
            self.keep_least(9, number.saturating_add(1), 0, 0);
        }
    }

    // Checks the rules on the stops and their order, at one place.
    fn check_stop(&mut self, seat: Position, stop: u32, stops: &[u32]) {
        let route = seat.route.saturating_add(1);
        let place = seat.place.saturating_add(1);
        if self.is_in(0, seat.route, stop) || occurs_before(stops, seat.place, stop) {
            self.keep_least(2, route, place, stop);
        }
        let Some(task) = task_of(self.tasks, stop) else {
            self.keep_least(1, route, place, stop);
            return;
        };
        if task.partner == stop {
            return;
        }
        if self.is_in(0, seat.route, task.partner) || self.is_in(route, usize::MAX, task.partner) {
            self.keep_least(4, route, place, stop);
        } else if !stops.contains(&task.partner) {
            self.keep_least(3, route, place, task.partner);
        }
        if task.name != stop && occurs_after(stops, seat.place, task.partner) {
            self.keep_least(5, route, place, stop);
        }
    }

    // Checks the rules on loads and times, at one place.
    fn check_limits(&mut self, seat: Position, stop: u32, stops: &[u32]) {
        let problem = self.problem;
        let route = seat.route.saturating_add(1);
        let place = seat.place.saturating_add(1);
        if load(self.tasks, stops, place) > i64::from(problem.capacity) {
            self.keep_least(6, route, place, stop);
        }
        let latest = place_of(problem, self.tasks, stops, place).latest;
        let begun = start(problem, self.tasks, stops, place);
        if problem.kind == Kind::LiLim && begun > u64::from(latest) {
            self.keep_least(7, route, place, stop);
        }
    }

    // Checks the rules that hold only for a plan.
    fn check_pins(&mut self, pins: &[Route]) {
        let problem = self.problem;
        if self.routes.len() != problem.fleet as usize {
            self.keep_least(9, 0, 0, 0);
        }
        for (number, pin) in pins.iter().enumerate() {
            let route = match self.routes.get(number) {
                Some(route) => route.as_slice(),
                None => &[],
            };
            if let Some((place, stop)) = first_off(route, pin.as_slice()) {
                self.keep_least(10, number.saturating_add(1), place.saturating_add(1), stop);
            }
        }
    }

    // Checks the rules that hold only for a printed solution.
    fn check_solution(&mut self, cost: u64) {
        for task in self.tasks {
            if self.is_unserved(task) {
                self.keep_least(3, 0, 0, task.name);
            }
        }
        if cost != self.cost().distance {
            self.keep_least(11, 0, 0, 0);
        }
    }

    // Returns whether this is the first stop of a request that is in no route.
    fn is_unserved(&self, task: &Task) -> bool {
        task.name == task.stop.number
            && !self.is_in(0, usize::MAX, task.name)
            && !self.is_in(0, usize::MAX, task.partner)
    }

    fn cost(&self) -> Cost {
        let mut unplanned = 0u64;
        for task in self.tasks {
            if self.is_unserved(task) {
                unplanned = unplanned.saturating_add(1);
            }
        }
        let problem = self.problem;
        let vehicles = match problem.kind {
            Kind::LiLim => used_among(self.routes, self.routes.len()),
            Kind::Vrp => 0,
        };
        Cost {
            unplanned,
            vehicles,
            distance: total_length(problem, self.tasks, self.routes),
        }
    }
}

fn occurs_before(stops: &[u32], place: usize, stop: u32) -> bool {
    for other in stops.iter().take(place) {
        if *other == stop {
            return true;
        }
    }
    false
}

fn occurs_after(stops: &[u32], place: usize, stop: u32) -> bool {
    for (at, other) in stops.iter().enumerate() {
        if place < at && *other == stop {
            return true;
        }
    }
    false
}

// Returns how many of the first `number` routes are used.
fn used_among(routes: &[Route], number: usize) -> u64 {
    let mut used = 0u64;
    for route in routes.iter().take(number) {
        if !route.as_slice().is_empty() {
            used = used.saturating_add(1);
        }
    }
    used
}

// Returns the first place at which a route differs from its pin, with the pin's stop.
fn first_off(route: &[u32], pin: &[u32]) -> Option<(usize, u32)> {
    for (place, stop) in pin.iter().enumerate() {
        let Some(other) = route.get(place) else {
            return Some((place, *stop));
        };
        if *other != *stop {
            return Some((place, *stop));
        }
    }
    None
}

fn task_of(tasks: &[Task], stop: u32) -> Option<Task> {
    for task in tasks {
        if task.stop.number == stop {
            return Some(*task);
        }
    }
    None
}

// Returns the stop at a place; the depot is at place 0, and after the last stop.
fn place_of(problem: &Problem, tasks: &[Task], route: &[u32], place: usize) -> Stop {
    let Some(number) = route.get(place.wrapping_sub(1)) else {
        return problem.depot;
    };
    match task_of(tasks, *number) {
        Some(task) => task.stop,
        None => problem.depot,
    }
}

// Returns the start of service at a place: the maximum, over all places up to it, of the earliest time there
// plus the time from there.
fn start(problem: &Problem, tasks: &[Task], route: &[u32], place: usize) -> u64 {
    let mut greatest = 0;
    for from in 0..place.saturating_add(1) {
        let earliest = u64::from(place_of(problem, tasks, route, from).earliest);
        let time = earliest.saturating_add(time_between(problem, tasks, route, from, place));
        greatest = time.max(greatest);
    }
    greatest
}

// Returns the sum of services and legs between two places, without waiting.
fn time_between(problem: &Problem, tasks: &[Task], route: &[u32], from: usize, to: usize) -> u64 {
    let mut time = 0u64;
    for place in from..to {
        let service = u64::from(place_of(problem, tasks, route, place).service);
        time = time
            .saturating_add(service)
            .saturating_add(leg(problem, tasks, route, place));
    }
    time
}

// Returns the sum of the demands of the first `count` stops.
fn load(tasks: &[Task], route: &[u32], count: usize) -> i64 {
    let mut load = 0i64;
    for number in route.iter().take(count) {
        if let Some(task) = task_of(tasks, *number) {
            load = load.saturating_add(i64::from(task.stop.demand));
        }
    }
    load
}

/// Returns the sum of the routes' lengths.
pub(crate) fn total_length(problem: &Problem, tasks: &[Task], routes: &[Route]) -> u64 {
    let mut sum = 0u64;
    for route in routes {
        sum = sum.saturating_add(length(problem, tasks, route.as_slice()));
    }
    sum
}

// Returns the sum of the legs of a route.
fn length(problem: &Problem, tasks: &[Task], route: &[u32]) -> u64 {
    let mut sum = 0u64;
    for place in 0..route.len().saturating_add(1) {
        sum = sum.saturating_add(leg(problem, tasks, route, place));
    }
    sum
}

// Returns the leg from a place to the next one: the least d with s <= d (d + 1), where s is the squared
// distance. It is found by testing each d.
fn leg(problem: &Problem, tasks: &[Task], route: &[u32], place: usize) -> u64 {
    let from = place_of(problem, tasks, route, place);
    let to = place_of(problem, tasks, route, place.saturating_add(1));
    let dx = u64::from(from.x.abs_diff(to.x));
    let dy = u64::from(from.y.abs_diff(to.y));
    let square = dx.saturating_mul(dx).saturating_add(dy.saturating_mul(dy));
    for d in 0..10_000u64 {
        if square <= d.saturating_mul(d.saturating_add(1)) {
            return d;
        }
    }
    0
}
