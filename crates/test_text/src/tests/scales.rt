//! Instances that are read with a scale.

use crate::tests::builders::ONE_PAIR;
use crate::tests::instances::{Counts, Spot, has_counts};
use instance_read::ReadFaultKind::{
    BadNumber, EmptyWindow, NodeRepeated, PairMismatch, Range, TaskOrder, TooManyStops,
};
use instance_read::{Format, Layout, ReadFaultKind, Scale, published_distance, read_instance};
use std::alloc::{AllocError, Global};
use std::test::Fail;
use test_examples::THREE_CUSTOMERS;

/// The depot and the first customer of Solomon's R101.
const ONE_CUSTOMER: &[u8] =
    b"R101\nVEHICLE\nNUMBER\n25 200\nCUSTOMER\nCUST\n0 35 35 0 0 230 0\n1 41 49 10 161 171 10\n";

/// Instances, and the expected problems.
const READ: [(Layout, Scale, &[u8], Counts, &[Spot]); 6] = [
    (
        Layout::LiLim,
        Scale::Ten,
        ONE_PAIR,
        [2, 10, 3, 1],
        &[(1, [30, 40, 4, 500, 1]), (2, [60, 80, -4, 600, 1])],
    ),
    (
        Layout::LiLim,
        Scale::Thousand,
        ONE_PAIR,
        [2, 10, 3, 1],
        &[
            (1, [3_000, 4_000, 4, 50_000, 1]),
            (2, [6_000, 8_000, -4, 60_000, 1]),
        ],
    ),
    (
        Layout::Solomon,
        Scale::Ten,
        ONE_CUSTOMER,
        [25, 200, 2, 1],
        &[(1, [410, 490, 10, 1_710, 1])],
    ),
    (
        Layout::Solomon,
        Scale::Thousand,
        ONE_CUSTOMER,
        [25, 200, 2, 1],
        &[(1, [41_000, 49_000, 10, 171_000, 1])],
    ),
    (
        Layout::Vrp,
        Scale::Ten,
        THREE_CUSTOMERS,
        [3, 10, 4, 3],
        &[
            (1, [30, 40, 6, 100_000_000, 1]),
            (3, [0, 50, 5, 100_000_000, 3]),
        ],
    ),
    (
        Layout::Vrp,
        Scale::Thousand,
        THREE_CUSTOMERS,
        [3, 10, 4, 3],
        &[
            (1, [3_000, 4_000, 6, 100_000_000, 1]),
            (2, [6_000, 8_000, 4, 100_000_000, 2]),
        ],
    ),
];

// Returns whether an instance is read as a problem with these values and stops.
fn is_read_as(alloc: Global, format: Format, text: &[u8], figures: Counts, spots: &[Spot]) -> bool {
    match read_instance(alloc, format, text) {
        Ok(problem) => {
            let has_counts = has_counts(&problem, format.kind(), figures, spots);
            drop(problem);
            has_counts
        }
        Err(_) => false,
    }
}

#[test]
fn reads_scaled_instances(rt: HostRuntime) {
    for (layout, scale, text, figures, spots) in &READ {
        let format = Format {
            layout: *layout,
            scale: *scale,
        };
        assert!(rt; is_read_as(rt.alloc(), format, text, *figures, spots));
    }
}

// Returns the end of the depot's window, and the service and the beginning of the window of customer 1.
fn times_of(alloc: Global, scale: Scale) -> [u32; 3] {
    let format = Format {
        layout: Layout::Solomon,
        scale,
    };
    let Ok(problem) = read_instance(alloc, format, ONE_CUSTOMER) else {
        return [0; 3];
    };
    let times = match problem.stop(1) {
        Some(stop) => [problem.depot.latest, stop.service, stop.earliest],
        None => [0; 3],
    };
    drop(problem);
    times
}

#[test]
fn reads_scaled_times(rt: HostRuntime) {
    assert!(rt; times_of(rt.alloc(), Scale::One) == [230, 10, 161]);
    assert!(rt; times_of(rt.alloc(), Scale::Ten) == [2_300, 100, 1_610]);
    assert!(rt; times_of(rt.alloc(), Scale::Hundred) == [23_000, 1_000, 16_100]);
    assert!(rt; times_of(rt.alloc(), Scale::Thousand) == [230_000, 10_000, 161_000]);
}

/// The greatest coordinate, the latest time and the longest service of a text with each scale.
const LIMITS: [(Scale, [i64; 3]); 4] = [
    (Scale::One, [1_000_000, 100_000_000, 1_000_000]),
    (Scale::Ten, [100_000, 10_000_000, 100_000]),
    (Scale::Hundred, [10_000, 1_000_000, 10_000]),
    (Scale::Thousand, [1_000, 100_000, 1_000]),
];

/// The coordinates, the time window and the service of a depot.
type Depot = [i64; 5];

// Returns an instance without faults besides those of its depot, which is on line 2 (LiLim), 7 (Solomon) or 5.
fn depot_text(alloc: Global, layout: Layout, depot: Depot) -> Result<String, AllocError> {
    let [x, y, earliest, latest, service] = depot;
    match layout {
        Layout::LiLim => {
            format!(in alloc; "1 1000000 1\n0 {x} {y} 1000000 {earliest} {latest} {service} 0 0\n")
        }
        Layout::Solomon => {
            format!(in alloc;
                "n\nVEHICLE\nNUMBER\n1 1\nCUSTOMER\nCUST\n0 {x} {y} 1000000 {earliest} {latest} {service}\n"
            )
        }
        Layout::Vrp => {
            format!(in alloc;
                "DIMENSION : 2\nCAPACITY : 1\nEDGE_WEIGHT_TYPE : EUC_2D\nNODE_COORD_SECTION\n1 {x} {y}\n2 0 0\nDEMAND_SECTION\n1 0\n2 1000000\nDEPOT_SECTION\n1 -1\n"
            )
        }
    }
}

// Returns the line and the kind of the fault of an instance, or `None` if it is read.
fn fault_of(alloc: Global, format: Format, text: &[u8]) -> Option<(u64, ReadFaultKind)> {
    match read_instance(alloc, format, text) {
        Ok(problem) => {
            drop(problem);
            None
        }
        Err(fault) => Some((fault.line, fault.kind)),
    }
}

// Returns the fault of an instance with this depot.
fn depot_fault(
    alloc: Global,
    format: Format,
    depot: Depot,
) -> Result<Option<(u64, ReadFaultKind)>, AllocError> {
    let text = depot_text(alloc, format.layout, depot)?;
    Ok(fault_of(alloc, format, text.as_bytes()))
}

// Returns a depot at its limits, and then depots of which one number is beyond its limits.
fn depots_at(limits: [i64; 3]) -> [Depot; 6] {
    let [point, time, service] = limits;
    let opposite = 0_i64.saturating_sub(point);
    [
        [point, opposite, time, time, service],
        [point.saturating_add(1), opposite, time, time, service],
        [point, opposite.saturating_sub(1), time, time, service],
        [point, opposite, time.saturating_add(1), time, service],
        [point, opposite, time, time.saturating_add(1), service],
        [point, opposite, time, time, service.saturating_add(1)],
    ]
}

// Returns whether the first `fields` numbers of a depot, which is on this line, have these limits.
fn has_limits(
    alloc: Global,
    format: Format,
    limits: [i64; 3],
    fields: usize,
    line: u64,
) -> Result<bool, AllocError> {
    for (place, depot) in depots_at(limits).iter().enumerate() {
        let wanted = if place == 0 || place > fields {
            None
        } else {
            Some((line, Range))
        };
        if depot_fault(alloc, format, *depot)? != wanted {
            return Ok(false);
        }
    }
    Ok(true)
}

#[test]
fn divides_the_limits_by_the_scale(rt: HostRuntime) -> Result<(), Fail> {
    for (scale, limits) in &LIMITS {
        for (layout, fields, line) in [
            (Layout::LiLim, 5, 2),
            (Layout::Solomon, 5, 7),
            (Layout::Vrp, 2, 5),
        ] {
            let format = Format {
                layout,
                scale: *scale,
            };
            assert!(rt; has_limits(rt.alloc(), format, *limits, fields, line)?);
        }
    }
    Ok(())
}

/// Instances with a fault that are read with scale 1000, with the line and the kind of the fault.
const FAULTS: [(Layout, &[u8], u64, ReadFaultKind); 10] = [
    (
        Layout::LiLim,
        b"1 1 1\n0 0 0 0 0 9 0 0 0\n1 1001 0 x 0 9 0 0 2\n",
        3,
        BadNumber,
    ),
    (
        Layout::LiLim,
        b"1 1 1\n0 0 0 0 0 9 0 0 0\n40001 1001 0 0 0 9 0 0 2\n",
        3,
        TooManyStops,
    ),
    (
        Layout::LiLim,
        b"1 1 1\n0 1001 0 0 0 9 0 0 0\n1 0 0 x 0 9 0 0 2\n",
        2,
        Range,
    ),
    (
        Layout::LiLim,
        b"1 1 1\n0 0 0 0 0 9 0 0 0\n0 0 0 0 100001 9 0 0 2\n",
        3,
        Range,
    ),
    (
        Layout::LiLim,
        b"1 1 1\n0 0 0 0 0 9 0 0 0\n0 0 0 0 10 9 0 0 2\n",
        3,
        TaskOrder,
    ),
    (
        Layout::LiLim,
        b"1 1 1\n0 0 0 0 0 9 0 0 0\n1 0 0 5 0 9 0 0 2\n2 0 0 -4 0 9 0 1 0\n",
        3,
        PairMismatch,
    ),
    (
        Layout::Solomon,
        b"n\nVEHICLE\nNUMBER\n1 1\nCUSTOMER\nCUST\n0 0 0 0 10 9 0\n",
        7,
        EmptyWindow,
    ),
    (
        Layout::Solomon,
        b"n\nVEHICLE\nNUMBER\n1 1\nCUSTOMER\nCUST\n0 0 0 0 0 9 1001\n",
        7,
        Range,
    ),
    (
        Layout::Vrp,
        b"DIMENSION : 2\nNODE_COORD_SECTION\n1 0 0\n1 0 -1001\n",
        4,
        Range,
    ),
    (
        Layout::Vrp,
        b"DIMENSION : 2\nNODE_COORD_SECTION\n1 0 0\n1 0 -1000\n",
        4,
        NodeRepeated,
    ),
];

#[test]
fn reports_the_first_fault_of_a_scaled_instance(rt: HostRuntime) {
    for (layout, text, line, kind) in &FAULTS {
        let format = Format {
            layout: *layout,
            scale: Scale::Thousand,
        };
        assert!(rt; fault_of(rt.alloc(), format, text) == Some((*line, *kind)));
    }
}

/// The words that name a scale of Li and Lim's format.
const NAMED: [(&[u8], Scale); 5] = [
    (b"lilim", Scale::One),
    (b"lilim:1", Scale::One),
    (b"lilim:10", Scale::Ten),
    (b"lilim:100", Scale::Hundred),
    (b"lilim:1000", Scale::Thousand),
];

#[test]
fn names_scales(rt: HostRuntime) {
    for (word, scale) in &NAMED {
        let format = Format {
            layout: Layout::LiLim,
            scale: *scale,
        };
        assert!(rt; Format::named(word) == Some(format));
    }
}

/// Words that name no format.
const UNNAMED: [&[u8]; 12] = [
    b"",
    b":10",
    b"lilim:",
    b"lilim:0",
    b"lilim:01",
    b"lilim:2",
    b"lilim:10000",
    b"lilim:10:10",
    b"lilim: 10",
    b"lilim10",
    b"Lilim:10",
    b"lilim:-1",
];

#[test]
fn refuses_other_scales(rt: HostRuntime) {
    for word in &UNNAMED {
        assert!(rt; Format::named(word).is_none());
    }
}

#[test]
fn names_formats(rt: HostRuntime) {
    for (layout, word) in [
        (Layout::LiLim, "lilim:1000"),
        (Layout::Solomon, "solomon:1000"),
        (Layout::Vrp, "vrp:1000"),
    ] {
        let format = Format {
            layout,
            scale: Scale::Thousand,
        };
        assert!(rt; format.word() == word);
    }
}

/// Words, and the distances that they spell with a scale.
const DISTANCES: [(Scale, &[u8], Option<u64>); 25] = [
    (Scale::One, b"828", Some(828)),
    (Scale::One, b"828.00", Some(828)),
    (Scale::One, b"828.94", None),
    (Scale::One, b"18446744073709551615", Some(u64::MAX)),
    (Scale::Ten, b"828", Some(8_280)),
    (Scale::Ten, b"828.9", Some(8_289)),
    (Scale::Ten, b"828.94", None),
    (Scale::Hundred, b"828.9", Some(82_890)),
    (Scale::Hundred, b"828.94", Some(82_894)),
    (Scale::Hundred, b"828.941", None),
    (Scale::Thousand, b"829", Some(829_000)),
    (Scale::Thousand, b"829.", Some(829_000)),
    (Scale::Thousand, b"828.9", Some(828_900)),
    (Scale::Thousand, b"828.94", Some(828_940)),
    (Scale::Thousand, b"+828.941", Some(828_941)),
    (Scale::Thousand, b"828.9412", None),
    (Scale::Thousand, b"828.9x", None),
    (Scale::Thousand, b"828.-9", None),
    (Scale::Thousand, b"-828.9", None),
    (Scale::Thousand, b"-0.9", None),
    (Scale::Thousand, b".9", None),
    (Scale::Thousand, b"8.2.8", None),
    (Scale::Thousand, b"18446744073709551.615", Some(u64::MAX)),
    (Scale::Thousand, b"18446744073709551.616", None),
    (Scale::Thousand, b"18446744073709552", None),
];

#[test]
fn reads_published_distances(rt: HostRuntime) {
    for (scale, word, distance) in &DISTANCES {
        assert!(rt; published_distance(*scale, word) == *distance);
    }
}
