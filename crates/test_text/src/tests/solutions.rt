//! Solutions, as they are read and written.
ghost use Rattle.std.specs.Prelude.{IfOk, IsTrue};
ghost use Rattle.route_sched.specs.Route.{IsPlan};

use crate::tests::builders::{Form, Part, text_of};
use plan_audit::{Verdict, audit, routes_that_pass_are_a_plan};
use plan_types::{Kind, Pins, Plan, Problem, Request, Routes, Stop, limits};
use sol_text::{
    SolFault, SolFaultKind, WriteSolFault, cost_tail, cost_word, read_printed_routes, read_routes,
    read_sol, write_sol,
};
use std::alloc::{AllocError, Global};
use std::test::Fail;
use test_examples::routes_of;

/// The greatest number of customers that a problem may have.
const CUSTOMERS: u32 = limits::MAX_STOP_NUMBER;

// Returns the stops of the routes, each route followed by a 0.
fn stops_of(alloc: Global, routes: &Routes) -> Result<Vec<u32>, AllocError> {
    let mut stops = Vec::new(alloc);
    for route in routes.as_slice() {
        stops.extend_from_slice(route.as_slice())?;
        stops.push(0)?;
    }
    Ok(stops)
}

// Returns whether a solution is read as these routes, each followed by a 0, and this cost.
fn is_read_as(alloc: Global, text: &[u8], stops: &[u32], cost: u64) -> Result<bool, Fail> {
    let solution = read_sol(alloc, text)?;
    Ok(solution.cost == cost && stops_of(alloc, &solution.routes)?.as_slice() == stops)
}

/// Solutions, with the routes and the cost of each. Each route is followed by a 0. Text after the cost line is
/// not read.
const READ: [(&[u8], &[u32], u64); 10] = [
    (
        b"Route 1 : 2 1\nroute #2:3\r\n\t\nRoute #3:\nCOST 30\nnot read\nCost x",
        &[2, 1, 0, 3, 0, 0],
        30,
    ),
    (
        b"Route1:2 1\nroute 0:3\nROUTE#7:\nRoute\t# 7 : 4\nRoute 99999999999999999999999999:5\nCost 1",
        &[2, 1, 0, 3, 0, 0, 4, 0, 5, 0],
        1,
    ),
    (b"Route #1: 1\nCost 7\nCost 8\n", &[1, 0], 7),
    (b"Route #1: 1\nCost 7\nCost 8 9\nRoute #2: 2", &[1, 0], 7),
    (b"Route #1: 1\nCost 7\nRoute #2: x\nnonsense", &[1, 0], 7),
    (b"Cost 784", &[], 784),
    (b"Cost : 5.0", &[], 5),
    (b"cost:\t+5.", &[], 5),
    (b"Cost\t-0", &[], 0),
    (b"Cost 18446744073709551615", &[], u64::MAX),
];

#[test]
fn reads_solutions(rt: HostRuntime) -> Result<(), Fail> {
    for (text, routes, cost) in &READ {
        assert!(rt; is_read_as(rt.alloc(), text, routes, *cost)?);
    }
    Ok(())
}

/// Solutions, with the line and the kind of the first fault of each.
const FAULTS: [(&[u8], u64, SolFaultKind); 22] = [
    (b"", 1, SolFaultKind::NoCost),
    (b"Route #1: 1\n\r\n", 3, SolFaultKind::NoCost),
    (b"Route #1: 1\n\nRoute: 2\nCost 3", 3, SolFaultKind::BadLine),
    (b" Route #1: 1", 1, SolFaultKind::BadLine),
    (b"Route #1 1", 1, SolFaultKind::BadLine),
    (b"Cost5", 1, SolFaultKind::BadLine),
    (b"Cost :", 1, SolFaultKind::BadLine),
    (b"Cost x 2", 1, SolFaultKind::BadLine),
    (b"Cost ::5", 1, SolFaultKind::BadNumber),
    (b"Cost -1", 1, SolFaultKind::BadNumber),
    (b"Cost 30.5", 1, SolFaultKind::BadNumber),
    (b"Cost 18446744073709551616", 1, SolFaultKind::BadNumber),
    (b"Route #1: 4294967296\nRoute", 1, SolFaultKind::BadNumber),
    (b"Route #1: +1\nCost 1", 1, SolFaultKind::BadNumber),
    // Within a line, the number of words is checked before their values.
    (b"Cost x y", 1, SolFaultKind::BadLine),
    (b"Cost", 1, SolFaultKind::BadLine),
    // The first wrong line counts, whatever its fault is.
    (b"Cost 1 2\nCost x", 1, SolFaultKind::BadLine),
    (b"Cost x\nCost 1 2", 1, SolFaultKind::BadNumber),
    (b"Route #1: x\nRoute 2", 1, SolFaultKind::BadNumber),
    (b"\n \t\r\nRoute 2\nRoute #1: x", 3, SolFaultKind::BadLine),
    // A fault of a line comes before a fault of the whole file.
    (b"Route #1: 1\nRoute 2", 2, SolFaultKind::BadLine),
    (b"Route #1: x\nRoute #2: 1", 1, SolFaultKind::BadNumber),
];

// Returns whether a solution is refused at this line with this fault.
fn is_refused(alloc: Global, text: &[u8], line: u64, kind: SolFaultKind) -> bool {
    match read_sol(alloc, text) {
        Ok(_) => false,
        Err(fault) => fault.line == line && fault.kind == kind,
    }
}

#[test]
fn reports_the_first_fault(rt: HostRuntime) {
    for (text, line, kind) in &FAULTS {
        assert!(rt; is_refused(rt.alloc(), text, *line, *kind));
    }
}

/// Solutions, with their routes if only these are read. Each route is followed by a 0.
const ROUTES: [(&[u8], &[u32]); 8] = [
    // A heading is skipped.
    (
        b"Instance name : lc101\nSolution\n\nRoute 1 : 2 1\nRoute 2 : 3\n",
        &[2, 1, 0, 3, 0],
    ),
    // A line with two words after Cost is no cost line, and so part of a heading.
    (b"Cost 1 2\nRoute #1: 1", &[1, 0]),
    // The cost is not parsed, and no line after it is read.
    (b"Route #1: 1\nCost x\nRoute #2: 2", &[1, 0]),
    (b"Route #1: 1\nCost -1\nRoute #2: x", &[1, 0]),
    (b"Cost 5\nRoute #1: 1", &[]),
    // There is no cost line.
    (b"\nRoute #1:\n\nRoute #2: 4", &[0, 4, 0]),
    // No line is a route line.
    (b"Solution\nnothing\n", &[]),
    (b"", &[]),
];

// Returns whether these routes, each followed by a 0, are read.
fn has_routes(alloc: Global, text: &[u8], stops: &[u32]) -> Result<bool, Fail> {
    let routes = read_routes(alloc, text)?;
    Ok(stops_of(alloc, &routes)?.as_slice() == stops)
}

#[test]
fn reads_only_routes(rt: HostRuntime) -> Result<(), Fail> {
    for (text, stops) in &ROUTES {
        assert!(rt; has_routes(rt.alloc(), text, stops)?);
    }
    Ok(())
}

/// Solutions, with the line and the kind of the first fault of their routes.
const ROUTES_FAULTS: [(&[u8], u64, SolFaultKind); 5] = [
    (b"head\nRoute #1: 1\ntail", 3, SolFaultKind::BadLine),
    (b"Route #1:\nRoute", 2, SolFaultKind::BadLine),
    (b"Route #1: 1\n\nCost 1 2", 3, SolFaultKind::BadLine),
    (b"head\nRoute #1: x\ntail", 2, SolFaultKind::BadNumber),
    (
        b"head\r\n\r\nRoute #1: 4294967296\r\nCost 1",
        3,
        SolFaultKind::BadNumber,
    ),
];

fn are_routes_refused(alloc: Global, text: &[u8], line: u64, kind: SolFaultKind) -> bool {
    match read_routes(alloc, text) {
        Ok(_) => false,
        Err(fault) => fault.line == line && fault.kind == kind,
    }
}

#[test]
fn reports_the_first_fault_of_routes(rt: HostRuntime) {
    for (text, line, kind) in &ROUTES_FAULTS {
        assert!(rt; are_routes_refused(rt.alloc(), text, *line, *kind));
    }
}

/// The expected cost of a solution whose routes can be read, or the line and the kind of its fault.
#[derive(Clone, Copy)]
enum PrintedCost {
    Cost(u64),
    Fault(u64, SolFaultKind),
}

/// Solutions whose routes can be read, with their routes, each followed by a 0, and their cost.
const PRINTED: [(&[u8], &[u32], PrintedCost); 4] = [
    (b"Route #1: 1\nCost 7\nx", &[1, 0], PrintedCost::Cost(7)),
    (
        b"Route #1: 2 1\n\n",
        &[2, 1, 0],
        PrintedCost::Fault(3, SolFaultKind::NoCost),
    ),
    (
        b"Route #1: 1\nCost 7.5\nCost 8",
        &[1, 0],
        PrintedCost::Fault(2, SolFaultKind::BadNumber),
    ),
    (b"", &[], PrintedCost::Fault(1, SolFaultKind::NoCost)),
];

fn is_cost(read: Result<u64, SolFault>, want: PrintedCost) -> bool {
    match want {
        PrintedCost::Cost(cost) => matches!(read, Ok(is) if is == cost),
        PrintedCost::Fault(line, kind) => {
            matches!(read, Err(fault) if fault.line == line && fault.kind == kind)
        }
    }
}

// Returns whether these routes, each followed by a 0, and this cost are read.
fn is_printed(alloc: Global, text: &[u8], stops: &[u32], cost: PrintedCost) -> Result<bool, Fail> {
    let printed = read_printed_routes(alloc, text)?;
    Ok(is_cost(printed.cost, cost) && stops_of(alloc, &printed.routes)?.as_slice() == stops)
}

fn refuses_heading(alloc: Global) -> bool {
    match read_printed_routes(alloc, b"head\nRoute #1: 1\n") {
        Ok(_) => false,
        Err(fault) => fault.line == 1 && fault.kind == SolFaultKind::BadLine,
    }
}

#[test]
fn reads_routes_without_a_valid_cost(rt: HostRuntime) -> Result<(), Fail> {
    for (text, stops, cost) in &PRINTED {
        assert!(rt; is_printed(rt.alloc(), text, stops, *cost)?);
    }
    assert!(rt; refuses_heading(rt.alloc()));
    Ok(())
}

#[test]
fn names_faults(rt: HostRuntime) {
    let fault = SolFault {
        line: 3,
        kind: SolFaultKind::NoCost,
    };
    assert!(rt; fault.name() == "NoCost");
    assert!(rt; WriteSolFault::Unplanned(1).name() == "Unplanned");
}

const DEPOT: Stop = Stop {
    number: 0,
    x: 0,
    y: 0,
    demand: 0,
    earliest: 0,
    latest: 100,
    service: 0,
};

/// A problem: its customers and its fleet.
#[derive(Clone, Copy)]
enum Fixture {
    /// Three customers and a fleet of three.
    Three,
    /// As many customers as possible, all at (1, 0), and a fleet of this size. The depot is at (0, 0).
    Largest(u32),
}

// Returns the coordinates and the demand of the customer with this number.
fn spot_of(posed: Fixture, number: u32) -> (i32, i32, i32) {
    match posed {
        Fixture::Largest(_) => (1, 0, 0),
        Fixture::Three => match number {
            1 => (3, 4, 6),
            2 => (6, 8, 4),
            _ => (0, 5, 5),
        },
    }
}

fn customer_of(posed: Fixture, number: u32) -> Request {
    let (x, y, demand) = spot_of(posed, number);
    Request::Single(Stop {
        number,
        x,
        y,
        demand,
        ..DEPOT
    })
}

// Returns the fleet and the number of customers.
fn counts(posed: Fixture) -> (u32, u32) {
    match posed {
        Fixture::Three => (3, 3),
        Fixture::Largest(fleet) => (fleet, CUSTOMERS),
    }
}

fn problem_of(alloc: Global, posed: Fixture) -> Result<Problem, Fail> {
    let (fleet, count) = counts(posed);
    let mut problem = Problem::new(alloc, Kind::Vrp, DEPOT, 10, fleet)?;
    for number in 1..=count {
        problem.put(customer_of(posed, number))?;
    }
    Ok(problem)
}

// Returns whether a plan passes the audit, so that it may be written.
fn is_plan(alloc: Global, problem: &Problem, plan: &Plan) -> Result<bool, Fail>
    ensures { IfOk result (λ b. IsTrue b → IsPlan problem.now plan.now.routes) }
{
    routes_that_pass_are_a_plan();
    let pins = Pins {
        routes: Routes::new(alloc),
    };
    match audit(alloc, problem, &pins, plan)? {
        Verdict::Pass(_) => Ok(true),
        Verdict::Broken { .. } => Ok(false),
    }
}

/// The expected result of writing a plan: its text, or a refusal with the number of unplanned requests.
#[derive(Clone, Copy)]
enum WriteResult<'a> {
    Text(&'a [u8]),
    Unplanned(u64),
}

// Returns whether writing the plan has this result.
fn has_result(alloc: Global, problem: &Problem, plan: &Plan, want: WriteResult) -> bool
    requires { IsPlan problem.now plan.now.routes }
{
    match write_sol(alloc, problem, plan) {
        Ok(written) => match want {
            WriteResult::Text(text) => written.as_slice() == text,
            WriteResult::Unplanned(_) => false,
        },
        Err(fault) => match want {
            WriteResult::Text(_) => false,
            WriteResult::Unplanned(count) => fault == WriteSolFault::Unplanned(count),
        },
    }
}

// Returns whether the plan passes, and writing it has this result.
fn writes(alloc: Global, problem: &Problem, plan: &Plan, want: WriteResult) -> Result<bool, Fail> {
    Ok(is_plan(alloc, problem, plan)? && has_result(alloc, problem, plan, want))
}

// Returns whether writing the plan with these routes, each followed by a 0, has this result.
fn writes_routes(
    alloc: Global,
    posed: Fixture,
    stops: &[u32],
    want: WriteResult,
) -> Result<bool, Fail> {
    let plan = Plan {
        routes: routes_of(alloc, stops)?,
    };
    writes(alloc, &problem_of(alloc, posed)?, &plan, want)
}

/// Routes of the three customers, each followed by a 0, and the result of writing them. The third vehicle is not
/// used.
const WRITTEN: [(&[u32], WriteResult); 2] = [
    (
        &[2, 1, 0, 3, 0, 0],
        WriteResult::Text(b"Route #1: 2 1\nRoute #2: 3\nCost 30\n"),
    ),
    (&[2, 1, 0, 0, 0], WriteResult::Unplanned(1)),
];

#[test]
fn writes_used_routes(rt: HostRuntime) -> Result<(), Fail> {
    for (stops, want) in &WRITTEN {
        assert!(rt; writes_routes(rt.alloc(), Fixture::Three, stops, *want)?);
    }
    Ok(())
}

/// A solution with the greatest number of customers.
#[derive(Clone, Copy)]
struct Largest {
    /// Whether each customer has a route of its own. Otherwise one route has all customers.
    one_route_each: bool,
    fleet: u32,
    text: &'static [Part],
    cost: u64,
}

/// `Route #1: 1 2 3 ..` in one solution; `Route #1: 1`, `Route #2: 2` and so on in the other. Each ends with its
/// cost.
const MOST: [Largest; 2] = [
    Largest {
        one_route_each: false,
        fleet: 1,
        text: &[
            Part::Text(b"Route #1:"),
            Part::Lines(Form::Stop, CUSTOMERS),
            Part::Text(b"\nCost 2\n"),
        ],
        cost: 2,
    },
    Largest {
        one_route_each: true,
        fleet: CUSTOMERS,
        text: &[
            Part::Lines(Form::Route, CUSTOMERS),
            Part::Text(b"Cost 80000\n"),
        ],
        cost: 80_000,
    },
];

// Returns all customers in order of number, in one route or in a route for each, with a 0 after each route.
fn all_stops(alloc: Global, one_route_each: bool) -> Result<Vec<u32>, AllocError> {
    let mut stops = Vec::new(alloc);
    for number in 1..=CUSTOMERS {
        stops.push(number)?;
        if one_route_each || number == CUSTOMERS {
            stops.push(0)?;
        }
    }
    Ok(stops)
}

fn reads_most(alloc: Global, most: &Largest) -> Result<bool, Fail> {
    let text = text_of(alloc, most.text)?;
    let stops = all_stops(alloc, most.one_route_each)?;
    is_read_as(alloc, &text, &stops, most.cost)
}

fn writes_most(alloc: Global, most: &Largest) -> Result<bool, Fail> {
    let text = text_of(alloc, most.text)?;
    let stops = all_stops(alloc, most.one_route_each)?;
    writes_routes(
        alloc,
        Fixture::Largest(most.fleet),
        &stops,
        WriteResult::Text(&text),
    )
}

#[test]
fn reads_and_writes_the_most_customers(rt: HostRuntime) -> Result<(), Fail> {
    for most in &MOST {
        assert!(rt; reads_most(rt.alloc(), most)?);
        assert!(rt; writes_most(rt.alloc(), most)?);
    }
    Ok(())
}

/// Lines, with the text that follows `Cost` and its separator in each, and the word if it is a cost line.
const COST_LINES: [(&[u8], Option<&[u8]>, Option<&[u8]>); 5] = [
    (b"Cost 784", Some(b"784"), Some(b"784")),
    (b"COST\t: 7 ", Some(b" 7 "), Some(b"7")),
    (b"cost:1 2", Some(b"1 2"), None),
    (b"Costs 3", None, None),
    (b" Cost 3", None, None),
];

#[test]
fn splits_cost_lines(rt: HostRuntime) {
    for (line, tail, word) in &COST_LINES {
        assert!(rt; cost_tail(line) == *tail);
        assert!(rt; cost_word(line) == *word);
    }
}
