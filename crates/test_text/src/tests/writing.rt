//! Problems written as instances, after requests were withdrawn.

use instance_read::{Format, Layout, Scale, read_instance};
use instance_text::{WriteFault, write_instance};
use plan_types::Problem;
use std::alloc::Global;
use test_examples::THREE_CUSTOMERS;

/// Three pairs. In the last one the delivery has the smaller number, and the demand is 0.
const THREE_PAIRS: &[u8] = b"3 20 7
0 0 0 0 0 900 0 0 0
1 -3 4 4 5 50 2 0 2
2 6 -8 -4 0 60 2 1 0
3 1 1 7 0 90 0 0 6
4 2 2 0 0 90 0 5 0
5 3 3 0 1 91 1 0 4
6 9 9 -7 0 90 0 3 0
";

/// `THREE_PAIRS` without its second pair, as it is written.
const TWO_PAIRS: &[u8] = b"3 20 1
0 0 0 0 0 900 0 0 0
1 -3 4 4 5 50 2 0 2
2 6 -8 -4 0 60 2 1 0
4 2 2 0 0 90 0 5 0
5 3 3 0 1 91 1 0 4
";

/// `THREE_PAIRS` without any pair, as it is written.
const NO_PAIRS: &[u8] = b"3 20 1\n0 0 0 0 0 900 0 0 0\n";

/// Three customers in Solomon's format. Their numbers have gaps, and the depot has a demand and a service.
const THREE_SINGLES: &[u8] = b"R101

VEHICLE
NUMBER     CAPACITY
  25         200
CUSTOMER
CUST NO.   XCOORD.   YCOORD.   DEMAND   READY TIME   DUE DATE   SERVICE TIME
0 35 35 5 0 230 7
1 41 49 10 161 171 10
4 -3 4.0 0 50 60 0
100 18 18 17 185 195 10
";

/// `THREE_SINGLES` without its second customer, as it is written.
const TWO_SINGLES: &[u8] = b"planner

VEHICLE
NUMBER CAPACITY
25 200

CUSTOMER
CUST NO. XCOORD. YCOORD. DEMAND READY TIME DUE DATE SERVICE TIME

0 35 35 0 0 230 0
1 41 49 10 161 171 10
100 18 18 17 185 195 10
";

/// `THREE_SINGLES` without any customer, as it is written: in Li and Lim's format.
const NO_SINGLES: &[u8] = b"25 200 1\n0 35 35 0 0 230 0 0 0\n";

/// `THREE_CUSTOMERS` without its third customer, as it is written.
const TWO_CUSTOMERS: &[u8] = b"NAME : planner
TYPE : CVRP
DIMENSION : 3
EDGE_WEIGHT_TYPE : EUC_2D
CAPACITY : 10
NODE_COORD_SECTION
1 0 0
2 3 4
3 6 8
DEMAND_SECTION
1 0
2 6
3 4
DEPOT_SECTION
1
-1
EOF
";

/// Instances, the requests that are withdrawn, and the instance that is then written. It is empty if no format
/// can express the remaining problem.
const WRITTEN: [(Layout, &[u8], &[u32], &[u8]); 11] = [
    (Layout::LiLim, THREE_PAIRS, &[3], TWO_PAIRS),
    (Layout::LiLim, THREE_PAIRS, &[5, 3, 1], NO_PAIRS),
    (Layout::LiLim, TWO_PAIRS, &[], TWO_PAIRS),
    (Layout::LiLim, NO_PAIRS, &[], NO_PAIRS),
    (Layout::Solomon, THREE_SINGLES, &[4], TWO_SINGLES),
    (Layout::Solomon, TWO_SINGLES, &[], TWO_SINGLES),
    // Without requests, the format is that of Li and Lim.
    (Layout::Solomon, THREE_SINGLES, &[1, 4, 100], NO_SINGLES),
    (Layout::Vrp, THREE_CUSTOMERS, &[3], TWO_CUSTOMERS),
    (Layout::Vrp, TWO_CUSTOMERS, &[], TWO_CUSTOMERS),
    // CVRPLIB's format can't express a gap in the numbers of customers, or a problem without customers.
    (Layout::Vrp, THREE_CUSTOMERS, &[2], b""),
    (Layout::Vrp, THREE_CUSTOMERS, &[1, 2, 3], b""),
];

// Withdraws these requests.
fn withdraw(problem: &mut Problem, names: &[u32]) {
    for name in names {
        let _taken = problem.take(*name);
    }
}

// Returns whether the problem is written as this text.
fn is_written_as(alloc: Global, problem: &Problem, wanted: &[u8]) -> bool {
    match write_instance(alloc, problem) {
        Ok(text) => text.as_slice() == wanted,
        Err(fault) => fault == WriteFault::NoFormat && wanted.is_empty(),
    }
}

// Returns whether the problem of an instance is written as this text after these requests were withdrawn.
fn is_left_as(alloc: Global, layout: Layout, text: &[u8], names: &[u32], wanted: &[u8]) -> bool {
    let format = Format {
        layout,
        scale: Scale::One,
    };
    match read_instance(alloc, format, text) {
        Ok(mut problem) => {
            withdraw(&mut problem, names);
            is_written_as(alloc, &problem, wanted)
        }
        Err(_) => false,
    }
}

#[test]
fn writes_instances(rt: HostRuntime) {
    for (layout, text, names, wanted) in &WRITTEN {
        assert!(rt; is_left_as(rt.alloc(), *layout, text, names, wanted));
    }
}
