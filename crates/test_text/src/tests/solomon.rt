//! Instances in Solomon's format.

use crate::tests::builders::{Form, Part, text_of};
use crate::tests::instances::{Counts, Spot, has_counts};
use instance_read::ReadFaultKind::{
    BadNumber, EmptyWindow, FieldCount, MissingKey, Range, TaskOrder, TooManyStops, Truncated,
};
use instance_read::{ReadFaultKind, read_solomon};
use plan_types::{Kind, limits};
use std::alloc::Global;
use std::test::Fail;

/// The heading of R101, its depot, its first customer and its last one, as they are published.
const PART_OF_R101: &[u8] = b"R101

VEHICLE
NUMBER     CAPACITY
  25         200

CUSTOMER
CUST NO.   XCOORD.   YCOORD.   DEMAND   READY TIME   DUE DATE   SERVICE TIME

 0 35 35 0 0 230 0
 1 41 49 10 161 171 10
 100 18 18 17 185 195 10
";

/// Two customers, with many forms of blanks, signs, words and line ends. The name is a word of the heading. The
/// depot has a demand and a service, which are ignored. The numbers between the customers are not used.
const REWRITTEN: &[u8] =
    b" \r\n VEHICLE\r\nvehicle 7\r\n\n\tNumber\n1.0\t+10.\r\nCUSTOMER 5\r\ncUST\r\n0 1 1 7 0 100 9\r\n3\t1 2 0 5 5 0\r\n40000 -1 -2 1000000 0 9 1";

const NO_CUSTOMERS: &[u8] = b"n\nVEHICLE\nNUMBER\n2 10\nCUSTOMER\nCUST\n0 0 0 0 0 9 0\n";

/// Instances, and the expected problem of each.
const READ: [(&[u8], Counts, &[Spot]); 3] = [
    (
        PART_OF_R101,
        [25, 200, 101, 2],
        &[(1, [41, 49, 10, 171, 1]), (100, [18, 18, 17, 195, 100])],
    ),
    (
        REWRITTEN,
        [1, 10, 40_001, 2],
        &[
            (3, [1, 2, 0, 5, 3]),
            (40_000, [-1, -2, 1_000_000, 9, 40_000]),
        ],
    ),
    (NO_CUSTOMERS, [2, 10, 1, 0], &[]),
];

// Returns whether an instance is read as a problem with these counts and stops.
fn is_read_as(alloc: Global, text: &[u8], figures: Counts, spots: &[Spot]) -> bool {
    match read_solomon(alloc, text) {
        Ok(problem) => {
            let has_counts = has_counts(&problem, Kind::LiLim, figures, spots);
            drop(problem);
            has_counts
        }
        Err(_) => false,
    }
}

#[test]
fn reads_customers(rt: HostRuntime) {
    for (text, figures, spots) in &READ {
        assert!(rt; is_read_as(rt.alloc(), text, *figures, spots));
    }
}

// Returns the end of the depot's window, and the service and the beginning of the window of customer 1.
fn times_of(alloc: Global, text: &[u8]) -> [u32; 3] {
    let Ok(problem) = read_solomon(alloc, text) else {
        return [0; 3];
    };
    let times = match problem.stop(1) {
        Some(stop) => [problem.depot.latest, stop.service, stop.earliest],
        None => [0; 3],
    };
    drop(problem);
    times
}

#[test]
fn reads_the_times_of_customers(rt: HostRuntime) {
    assert!(rt; times_of(rt.alloc(), PART_OF_R101) == [230, 10, 161]);
}

/// Instances with a fault in the heading or without a depot, with its line and its kind.
const HEADING_FAULTS: [(&[u8], u64, ReadFaultKind); 17] = [
    (b"", 1, Truncated),
    (b"\n \n", 3, Truncated),
    (b"n", 2, Truncated),
    (b"n\nVEHICLE\nNUMBER\n", 4, Truncated),
    (b"n\nVEHICLE\nNUMBER\n1 1\nCUSTOMER\nCUST\n\n", 8, Truncated),
    (b"VEHICLE\nNUMBER\n", 2, MissingKey),
    (b"n\n\nVEHICLES\n", 3, MissingKey),
    (b"n\na VEHICLE\n", 2, MissingKey),
    (b"n\nVEHICLE\n1 1\n", 3, MissingKey),
    (b"n\nVEHICLE\nNUMBER\n1\n", 4, FieldCount),
    (b"n\nVEHICLE\nNUMBER\n1 x 1\n", 4, FieldCount),
    (b"n\nVEHICLE\nNUMBER\n0 x\n", 4, BadNumber),
    (b"n\nVEHICLE\nNUMBER\n0 1\nx\n", 4, Range),
    (b"n\nVEHICLE\nNUMBER\n40001 1\n", 4, Range),
    (b"n\nVEHICLE\nNUMBER\n1 1000001\n", 4, Range),
    (b"n\nVEHICLE\nNUMBER\n1 1\nCUST\n", 5, MissingKey),
    (
        b"n\nVEHICLE\nNUMBER\n1 1\nCUSTOMER\n0 0 0 0 0 9 0\n",
        6,
        MissingKey,
    ),
];

/// The lines of customers after a heading of six lines, with the line and the kind of their first fault.
const CUSTOMER_FAULTS: [(&[u8], u64, ReadFaultKind); 15] = [
    (b"0 0 0 0 0 x\n", 7, FieldCount),
    (b"0 0 0 0 0 9 0 0 0\n", 7, FieldCount),
    (b"40001 0 0 0 0 9 x\n", 7, BadNumber),
    (b"40001 1000001 0 0 0 9 0\n", 7, TooManyStops),
    (b"1 1000001 0 0 0 9 0\n", 7, Range),
    (b"-1 0 0 0 0 9 0\n", 7, Range),
    (b"0 0 0 -1 0 9 0\n", 7, Range),
    (b"0 0 0 0 0 9 0\n1 0 0 1000001 0 9 0\n", 8, Range),
    (b"1 0 0 0 9 8 0\n", 7, TaskOrder),
    (b"0 0 0 0 9 8 0\n", 7, EmptyWindow),
    (b"0 0 0 0 0 9 0\n\n0 0 0 0 0 9 0\n", 9, TaskOrder),
    (
        b"0 0 0 0 0 9 0\n2 0 0 0 0 9 0\n2 0 0 0 0 9 0\n",
        9,
        TaskOrder,
    ),
    (b"0 0 0 0 0 9 0\n1 0 0 0 5 4 0\nx\n", 8, EmptyWindow),
    (b"0 0 0 0 0 9 0\n1 0 0 0 0 9 0\nEOF\n", 9, FieldCount),
    (b"\n\n", 9, Truncated),
];

// Returns whether an instance is refused at this line with this fault.
fn is_refused(alloc: Global, text: &[u8], line: u64, fault: ReadFaultKind) -> bool {
    match read_solomon(alloc, text) {
        Ok(_) => false,
        Err(found) => found.line == line && found.kind == fault,
    }
}

#[test]
fn reports_the_first_fault_of_a_heading(rt: HostRuntime) {
    for (text, line, fault) in &HEADING_FAULTS {
        assert!(rt; is_refused(rt.alloc(), text, *line, *fault));
    }
}

#[test]
fn reports_the_first_fault_of_a_customer(rt: HostRuntime) -> Result<(), Fail> {
    for (lines, line, fault) in &CUSTOMER_FAULTS {
        let parts = [
            Part::Text(b"n\nVEHICLE\nNUMBER\n1 1\nCUSTOMER\nCUST\n"),
            Part::Text(lines),
        ];
        let text = text_of(rt.alloc(), &parts)?;
        assert!(rt; is_refused(rt.alloc(), &text, *line, *fault));
    }
    Ok(())
}

/// An instance with as many customers as possible: customer n is at (n, -n) and has demand 7.
const MOST_CUSTOMERS: [Part; 2] = [
    Part::Text(b"n\nVEHICLE\nNUMBER\n40000 1000000\nCUSTOMER\nCUST\n0 0 0 0 0 100000000 0\n"),
    Part::Lines(Form::Customer, limits::MAX_STOP_NUMBER),
];

#[test]
fn reads_the_most_customers(rt: HostRuntime) -> Result<(), Fail> {
    let text = text_of(rt.alloc(), &MOST_CUSTOMERS)?;
    let figures = [40_000, 1_000_000, 40_001, 40_000];
    let last = (40_000, [40_000, -40_000, 7, 100_000_000, 40_000]);
    assert!(rt; is_read_as(rt.alloc(), &text, figures, &[last]));
    Ok(())
}
