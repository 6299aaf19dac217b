//! Instances in the formats of Li and Lim and of CVRPLIB.

use crate::tests::builders::{Form, ONE_PAIR, Part, read_instance, text_of};
use instance_read::ReadFaultKind::{
    BadNumber, DepotNotFirst, EmptyWindow, FieldCount, MissingKey, NodeRepeated, PairMismatch,
    Range, TaskOrder, TooManyStops, Truncated, Unsupported,
};
use instance_read::{ReadFault, ReadFaultKind, read_vrp, split_key};
use plan_types::{Kind, Problem, limits};
use std::alloc::Global;
use std::test::Fail;
use test_examples::THREE_CUSTOMERS;

/// The greatest number of stops that a problem may have.
const STOPS: u32 = limits::MAX_STOP_NUMBER;

/// Two pairs, in which stop 2k is the delivery of stop 2k-1, with many forms of blanks, signs and line ends. The
/// depot has a demand and a service, which are ignored.
const REWRITTEN_PAIRS: &[u8] =
    b" \r\n1\t10.0  +1. \r\n\n0 0 0 7 0 100 9 0 0\r\n1 1 1 1 0 50 0 0 2\n\t2 1 1 -1 0 50 0 1 0\n3 2 2 1 0 2 0 0 4\n4 2 2 -1 0 50 0 3 0";

/// `THREE_CUSTOMERS` with other blanks, tabs, letter case, line ends and order of sections, and without EOF.
const REWRITTEN_CUSTOMERS: &[u8] = b"name :\tt3\r
type : cvrp\r
Depot_Section\r
 1\t-1\r
DIMENSION:+4.\r
EDGE_WEIGHT_TYPE :\tEuc_2d\r
\r
capacity\t:\t10\r
  DEMAND_SECTION\r
4\t5\r
3 4\r
2 6\r
1 0\r
NODE_COORD_SECTION : x\r
1 0 0\r
2 3.0 4.\r
3\t6\t8\r
\t4 -0 5";

/// The fleet, the capacity, the next number, and the number of requests.
pub type Counts = [usize; 4];

/// The number of a stop; and its coordinates, its demand, the end of its window, and the name of its request.
pub type Spot = (u32, [i64; 5]);

fn counts_of(problem: &Problem) -> Counts {
    [
        problem.fleet as usize,
        problem.capacity as usize,
        problem.next_number as usize,
        problem.requests.len(),
    ]
}

fn spot_of(problem: &Problem, number: u32) -> Option<[i64; 5]> {
    let stop = problem.stop(number)?;
    let name = problem.name_of(number)?;
    Some([
        i64::from(stop.x),
        i64::from(stop.y),
        i64::from(stop.demand),
        i64::from(stop.latest),
        i64::from(name),
    ])
}

fn has_spots(problem: &Problem, spots: &[Spot]) -> bool {
    for (number, spot) in spots {
        if spot_of(problem, *number) != Some(*spot) {
            return false;
        }
    }
    true
}

/// Returns whether a problem has this kind, these counts and stops, and a depot without demand and service.
pub fn has_counts(problem: &Problem, kind: Kind, figures: Counts, spots: &[Spot]) -> bool {
    problem.kind == kind
        && problem.depot.demand == 0
        && problem.depot.service == 0
        && counts_of(problem) == figures
        && has_spots(problem, spots)
}

// Returns whether an instance is read as a problem with these counts and stops.
fn is_read_as(alloc: Global, kind: Kind, text: &[u8], figures: Counts, spots: &[Spot]) -> bool {
    match read_instance(alloc, kind, text) {
        Ok(problem) => {
            let has_counts = has_counts(&problem, kind, figures, spots);
            drop(problem);
            has_counts
        }
        Err(_) => false,
    }
}

/// The stops of `THREE_CUSTOMERS`.
const CUSTOMERS: [Spot; 3] = [
    (1, [3, 4, 6, 100_000_000, 1]),
    (2, [6, 8, 4, 100_000_000, 2]),
    (3, [0, 5, 5, 100_000_000, 3]),
];

/// Instances, and the expected problem of each.
const READ: [(Kind, &[u8], Counts, &[Spot]); 5] = [
    (
        Kind::LiLim,
        ONE_PAIR,
        [2, 10, 3, 1],
        &[(1, [3, 4, 4, 50, 1]), (2, [6, 8, -4, 60, 1])],
    ),
    (
        Kind::LiLim,
        REWRITTEN_PAIRS,
        [1, 10, 5, 2],
        &[(1, [1, 1, 1, 50, 1]), (2, [1, 1, -1, 50, 1])],
    ),
    (
        Kind::LiLim,
        b"2 10 1\n0 0 0 0 0 100 0 0 0\n",
        [2, 10, 1, 0],
        &[],
    ),
    (Kind::Vrp, THREE_CUSTOMERS, [3, 10, 4, 3], &CUSTOMERS),
    (Kind::Vrp, REWRITTEN_CUSTOMERS, [3, 10, 4, 3], &CUSTOMERS),
];

#[test]
fn reads_instances(rt: HostRuntime) {
    for (kind, text, figures, spots) in &READ {
        assert!(rt; is_read_as(rt.alloc(), *kind, text, *figures, spots));
    }
}

// Returns whether an instance is refused at this line with this fault.
fn is_refused(alloc: Global, kind: Kind, text: &[u8], line: u64, fault: ReadFaultKind) -> bool {
    match read_instance(alloc, kind, text) {
        Ok(_) => false,
        Err(found) => found.line == line && found.kind == fault,
    }
}

// Returns the index of the first row whose instance is not refused as expected.
fn first_other(alloc: Global, kind: Kind, rows: &[(&[u8], u64, ReadFaultKind)]) -> Option<usize> {
    for (row, (text, line, fault)) in rows.iter().enumerate() {
        if !is_refused(alloc, kind, text, *line, *fault) {
            return Some(row);
        }
    }
    None
}

/// Li-Lim instances, with the line and the kind of the first fault of each.
const PAIR_FAULTS: [(&[u8], u64, ReadFaultKind); 22] = [
    (b"", 1, Truncated),
    (b"\n \n", 3, Truncated),
    (b"2 10 1", 2, Truncated),
    (b"2 10 1\n", 2, Truncated),
    (
        b"2 10 1\n0 0 0 0 0 100 0 0 0\n1 3 4 4 0 50 2 0 2\n",
        3,
        PairMismatch,
    ),
    (
        b"2 10 1\n0 0 0 0 0 100 0 0 0\n1 3 4 4 0 50 2 0 2\n2 6 8 -4 0 60 2 3 0\n",
        3,
        PairMismatch,
    ),
    (b"2 x 1\n", 1, BadNumber),
    (b"2 x\n", 1, FieldCount),
    (b"0 x 1\n", 1, BadNumber),
    (b"40001 1 1\n", 1, Range),
    (b"1 1 1\n0 0 0 0 0 9 0 x\n", 2, FieldCount),
    (b"1 1 1\n40001 0 0 0 0 9 0 0 x\n", 2, BadNumber),
    (b"1 1 1\n40001 1000001 0 0 0 9 0 0 0\n", 2, TooManyStops),
    (b"1 1 1\n1 1000001 0 0 0 9 0 0 0\n", 2, Range),
    (b"1 1 1\n-1 0 0 0 0 9 0 0 0\n", 2, Range),
    (b"1 1 1\n1 0 0 0 9 8 0 0 0\n", 2, TaskOrder),
    (b"1 1 1\n0 0 0 0 9 8 0 0 0\n", 2, EmptyWindow),
    (
        b"1 1 1\n0 0 0 0 0 9 0 0 0\n\n0 0 0 0 0 9 0 0 0\n",
        4,
        TaskOrder,
    ),
    (
        b"1 1 1\n0 0 0 0 0 9 0 0 0\n2 0 0 0 0 9 0 0 0\n\n3 0 0 0 x 9 0 0 0\n",
        5,
        BadNumber,
    ),
    (
        b"1 1 1\n0 0 0 0 0 9 0 0 0\n1 0 0 -1 0 9 0 0 2\n2 0 0 1 0 9 0 1 0\n",
        3,
        PairMismatch,
    ),
    (
        b"1 1 1\n0 0 0 0 0 9 0 0 0\n1 0 0 1 0 9 0 0 2\n2 0 0 -2 0 9 0 1 0\n",
        3,
        PairMismatch,
    ),
    (
        b"1 1 1\n0 0 0 0 0 9 0 0 0\n1 0 0 1 0 9 0 0 3\n2 0 0 -1 0 9 0 3 0\n3 0 0 1 0 9 0 0 0\n",
        3,
        PairMismatch,
    ),
];

#[test]
fn reports_the_first_fault_of_pairs(rt: HostRuntime) {
    let row = first_other(rt.alloc(), Kind::LiLim, &PAIR_FAULTS);
    assert!(rt; row.is_none(), "row {row:?}");
}

#[test]
fn names_faults(rt: HostRuntime) {
    let fault = ReadFault {
        line: 1,
        kind: Truncated,
    };
    assert!(rt; fault.name() == "Truncated");
}

/// `.vrp` instances with a fault outside the sections, with its line and its kind.
const KEY_FAULTS: [(&[u8], u64, ReadFaultKind); 23] = [
    (b"", 1, MissingKey),
    (b"DIMENSION : 4\n\n", 3, MissingKey),
    (b"DIMENSION : 4\nEOF\nDIMENSION : x\n", 2, MissingKey),
    (b"DIMENSION :\n", 1, FieldCount),
    (b"DIMENSION : x y\n", 1, FieldCount),
    (b"DIMENSION : x\n", 1, BadNumber),
    (b"DIMENSION : 4:5\n", 1, BadNumber),
    (b"DIMENSION : 40002\n", 1, TooManyStops),
    (b"DIMENSION : 1\n", 1, Range),
    (b"CAPACITY : 1000001\n", 1, Range),
    (b"CAPACITY : -1\n", 1, Range),
    (b"DIMENSION : 4\n\nDIMENSION : 4 4\n", 3, FieldCount),
    (b"DIMENSION : 4\n\nDIMENSION : 40002\n", 3, TooManyStops),
    (b"DIMENSION : 4\n\ndimension : 4\n", 3, NodeRepeated),
    (b"TYPE :\n", 1, Unsupported),
    (b"TYPE : CVRP\nTYPE : TSP\n", 2, Unsupported),
    (b"TYPE : CVRP\nTYPE : CVRP\n", 2, NodeRepeated),
    (b"EDGE_WEIGHT_TYPE : GEO\n", 1, Unsupported),
    (b"DISTANCE : 200\n", 1, Unsupported),
    (b"A NODE_COORD_SECTION\n", 1, Unsupported),
    (b"5_SECTION\n", 1, Unsupported),
    (b" 5 1 1\n", 1, FieldCount),
    (b"NODE_COORD_SECTION\n", 1, MissingKey),
];

#[test]
fn reports_the_first_fault_of_a_key(rt: HostRuntime) {
    let row = first_other(rt.alloc(), Kind::Vrp, &KEY_FAULTS);
    assert!(rt; row.is_none(), "row {row:?}");
}

/// `.vrp` instances with a fault in a section, with its line and its kind.
const SECTION_FAULTS: [(&[u8], u64, ReadFaultKind); 8] = [
    (
        b"DIMENSION : 2\nNODE_COORD_SECTION\n1 30.5 1000001\n",
        3,
        BadNumber,
    ),
    (
        b"DIMENSION : 2\nNODE_COORD_SECTION\n1 0 0\n1 1000001 0\n",
        4,
        Range,
    ),
    (
        b"DIMENSION : 2\nNODE_COORD_SECTION\n1 0 0\n1 0 0\n",
        4,
        NodeRepeated,
    ),
    (b"DIMENSION : 2\nDEMAND_SECTION\n0 0\n", 3, Range),
    (b"DIMENSION : 2\nDEMAND_SECTION\nEOF\n", 3, FieldCount),
    (b"DEPOT_SECTION\n2 -1 3\n", 2, FieldCount),
    (b"DEPOT_SECTION\n2 x\n", 2, BadNumber),
    (b"DEPOT_SECTION\n1 2\n", 2, DepotNotFirst),
];

#[test]
fn reports_the_first_fault_of_a_section(rt: HostRuntime) {
    let row = first_other(rt.alloc(), Kind::Vrp, &SECTION_FAULTS);
    assert!(rt; row.is_none(), "row {row:?}");
}

// A prefix is an instance only if it has the whole list of depots, with or without its line end. A part of EOF
// may follow.
#[test]
fn reads_every_prefix(rt: HostRuntime) {
    for end in 0..THREE_CUSTOMERS.len() {
        let is_read = read_vrp(rt.alloc(), &THREE_CUSTOMERS[..end]).is_ok();
        assert!(rt; is_read == (168 <= end && end <= 172));
    }
}

#[test]
fn reports_a_truncated_section(rt: HostRuntime) {
    let nine_lines = &THREE_CUSTOMERS[..113];
    let truncated = Truncated;
    assert!(rt; is_refused(rt.alloc(), Kind::Vrp, nine_lines, 10, truncated));
}

/// A capacity of a million digits.
const LONG_NUMBER: [Part; 2] = [
    Part::Text(b"\nCAPACITY : "),
    Part::Lines(Form::Nine, 1_000_000),
];

#[test]
fn reports_the_line_of_a_long_number(rt: HostRuntime) -> Result<(), Fail> {
    let text = text_of(rt.alloc(), &LONG_NUMBER)?;
    assert!(rt; is_refused(rt.alloc(), Kind::Vrp, &text, 2, Range));
    Ok(())
}

/// A Li-Lim instance with as many pairs as possible, in which stop 2k is the delivery of stop 2k-1.
const MOST_PAIRS: [Part; 2] = [
    Part::Text(b"40000 1000000 1\n0 0 0 0 0 100000000 0 0 0\n"),
    Part::Lines(Form::Pair, STOPS / 2),
];

/// A `.vrp` instance with as many customers as possible: node n is at (n, -n) and has demand n.
const MOST_CUSTOMERS: [Part; 5] = [
    Part::Text(
        b"DIMENSION : 40001\nCAPACITY : 1000000\nEDGE_WEIGHT_TYPE : EUC_2D\nNODE_COORD_SECTION\n",
    ),
    Part::Lines(Form::Node, STOPS + 1),
    Part::Text(b"DEMAND_SECTION\n"),
    Part::Lines(Form::Demand, STOPS + 1),
    Part::Text(b"DEPOT_SECTION\n1\n-1\nEOF\n"),
];

/// The largest instances, with the counts and some of the stops that are expected: the last pair, and the first
/// and the last customer.
const LARGEST: [(Kind, &[Part], Counts, &[Spot]); 2] = [
    (
        Kind::LiLim,
        &MOST_PAIRS,
        [40_000, 1_000_000, 40_001, 20_000],
        &[
            (39_999, [19_999, -19_999, 7, 100_000_000, 39_999]),
            (40_000, [0, 19_999, -7, 100_000_000, 39_999]),
        ],
    ),
    (
        Kind::Vrp,
        &MOST_CUSTOMERS,
        [40_000, 1_000_000, 40_001, 40_000],
        &[
            (1, [2, -2, 2, 100_000_000, 1]),
            (40_000, [40_001, -40_001, 40_001, 100_000_000, 40_000]),
        ],
    ),
];

#[test]
fn reads_the_most_tasks(rt: HostRuntime) -> Result<(), Fail> {
    for (kind, parts, figures, spots) in &LARGEST {
        let text = text_of(rt.alloc(), parts)?;
        assert!(rt; is_read_as(rt.alloc(), *kind, &text, *figures, spots));
    }
    Ok(())
}

/// Lines, with the key and the value of each.
const KEY_LINES: [(&[u8], &[u8], &[u8]); 4] = [
    (b"DIMENSION : 5", b"DIMENSION", b"5"),
    (b"\tType:CVRP \t", b"Type", b"CVRP"),
    (b"COMMENT : (best: 9)", b"COMMENT", b"(best: 9)"),
    (b" EOF ", b"EOF", b""),
];

#[test]
fn splits_keys(rt: HostRuntime) {
    for (line, key, value) in &KEY_LINES {
        let split = split_key(line);
        assert!(rt; split.0 == *key && split.1 == *value);
    }
}
