//! Timetables of plans that leave requests out, worked out by hand from the coordinates and windows of the
//! instances. `tests/texts.py` compares the timetables of other plans.

use crate::tests::builders::read_instance;
use plan_audit::audit_solution;
use plan_timetable::{Form, solution_timetable};
use plan_types::{Kind, Problem};
use sol_text::{Solution, read_sol};
use std::alloc::Global;
use std::test::Fail;

/// Two pairs, each with both stops at one place.
const TWO_PAIRS: &[u8] =
    b"2 10 1\n0 0 0 0 0 100 0 0 0\n1 1 1 1 0 50 0 0 2\n2 1 1 -1 0 50 0 1 0\n3 2 2 1 0 50 0 0 4\n4 2 2 -1 0 50 0 3 0\n";

/// A plan for `TWO_PAIRS` that serves the second pair by the second vehicle. The first vehicle stays at the
/// depot.
const SECOND_PAIR: &[u8] = b"Route #1:\nRoute #2: 3 4\nCost 6\n";

/// A pair that a vehicle can serve in time, and one that no vehicle can. Stop 3 is at distance 10 from the
/// depot, and its service must start by 8.
const ONE_TOO_FAR: &[u8] =
    b"1 10 1\n0 0 0 0 0 100 0 0 0\n1 3 4 4 0 50 2 0 2\n2 6 8 -4 0 60 2 1 0\n3 0 10 1 0 8 0 0 4\n4 0 10 -1 0 50 0 3 0\n";

/// A plan for `ONE_TOO_FAR` that serves both stops of the first pair in time.
const BOTH: &[u8] = b"Route #1: 1 2\nCost 20\n";

/// A plan for `ONE_TOO_FAR` whose vehicle is late by 2 at stop 3, also if the other pair is inserted after that
/// stop.
const LATE: &[u8] = b"Route #1: 3 4\nCost 20\n";

/// Instances, their solutions, the request that each leaves out, the form of the timetable, and its text.
const TIMETABLES: [Row; 4] = [
    (
        TWO_PAIRS,
        SECOND_PAIR,
        1,
        Form::Columns,
        "\nvehicle 2: stops 2, distance 6, load 1, set off 0, return 6, waiting 0\n place  stop  kind      partner  set off  arrival    start  waiting  service     from       to   latest     load\n     1     3  pickup          4        0        3        3        0        0        0       50       50        1\n     2     4  delivery        3        3        3        3        0        0        0       50       50        0 pin\n     3     0  return          -        3        6        6        0        0        0      100      100        0\n\nunplanned 1\nwhy 1: alone: a vehicle can serve it\nwhy 1: vehicle 2: fits at places 1 and 4\nwhy 1: fleet: 1 of 2 vehicles are used\n",
    ),
    (
        TWO_PAIRS,
        SECOND_PAIR,
        1,
        Form::Tabs,
        "vehicle\t2\t2\t6\t1\t0\t6\t0\nstop\t2\t1\t3\tpickup\t4\t0\t3\t3\t0\t0\t0\t50\t50\t1\t-\nstop\t2\t2\t4\tdelivery\t3\t3\t3\t3\t0\t0\t0\t50\t50\t0\tpin\nstop\t2\t3\t0\treturn\t-\t3\t6\t6\t0\t0\t0\t100\t100\t0\t-\nunplanned\t1\nwhy\t1\talone: a vehicle can serve it\nwhy\t1\tvehicle 2: fits at places 1 and 4\nwhy\t1\tfleet: 1 of 2 vehicles are used\n",
    ),
    (
        ONE_TOO_FAR,
        BOTH,
        3,
        Form::Tabs,
        "vehicle\t1\t2\t20\t4\t0\t24\t0\nstop\t1\t1\t1\tpickup\t2\t0\t5\t5\t0\t2\t0\t50\t50\t4\t-\nstop\t1\t2\t2\tdelivery\t1\t7\t12\t12\t0\t2\t0\t60\t60\t0\tpin\nstop\t1\t3\t0\treturn\t-\t14\t24\t24\t0\t0\t0\t100\t100\t0\t-\nunplanned\t3\nwhy\t3\talone: stop 3 would start at 10, latest 8\n",
    ),
    (
        ONE_TOO_FAR,
        LATE,
        1,
        Form::Tabs,
        "vehicle\t1\t2\t20\t1\t0\t20\t0\nstop\t1\t1\t3\tpickup\t4\t0\t10\t10\t0\t0\t0\t8\t-\t1\t-\nstop\t1\t2\t4\tdelivery\t3\t10\t10\t10\t0\t0\t0\t50\t-\t0\t-\nstop\t1\t3\t0\treturn\t-\t10\t20\t20\t0\t0\t0\t100\t-\t0\t-\nunplanned\t1\nwhy\t1\talone: a vehicle can serve it\nwhy\t1\tvehicle 1: stop 3 would start 2 late\nwhy\t1\tfleet: 1 of 1 vehicles are used\n",
    ),
];

fn timetable(
    alloc: Global,
    problem: &Problem,
    solution: &Solution,
    unplanned: u32,
    form: Form,
) -> Result<String, Fail> {
    let verdict = audit_solution(alloc, problem, solution)?;
    Ok(solution_timetable(alloc, problem, solution, verdict, &[unplanned], form)?)
}

// Returns the timetable of a solution that leaves this request out.
fn partial_timetable(
    alloc: Global,
    instance: &[u8],
    solution: &Solution,
    unplanned: u32,
    form: Form,
) -> Result<String, Fail> {
    let problem = read_instance(alloc, Kind::LiLim, instance)?;
    timetable(alloc, &problem, solution, unplanned, form)
}

/// A row of `TIMETABLES`.
type Row = (&'static [u8], &'static [u8], u32, Form, &'static str);

// Returns whether the timetable of a row has the expected text.
fn is_expected(alloc: Global, row: &Row) -> Result<bool, Fail> {
    let (instance, solution, unplanned, form, want) = *row;
    let solution = read_sol(alloc, solution)?;
    Ok(partial_timetable(alloc, instance, &solution, unplanned, form)?.as_str() == want)
}

#[test]
fn explains_why_requests_are_left_out(rt: HostRuntime) -> Result<(), Fail> {
    for row in &TIMETABLES {
        assert!(rt; is_expected(rt.alloc(), row)?);
    }
    Ok(())
}
