//! Comparisons with best-known costs: `BestKnown` of `auditor_cli`.

use auditor_cli::BestKnown;
use instance_read::Format;
use plan_types::{Cost, Kind};
use std::alloc::{AllocError, Global};
use std::process::Abort;
use std::test::Fail;

/// The kind of a problem, the column with its best-known cost, the vehicles and the distance of a plan, and the
/// text of their comparison.
type Comparison = (Kind, &'static str, u64, u64, &'static str);

/// Percentages by hand: 10 of 787 are 1.2706, 9 of 820 are 1.0976, 6 of 829 are 0.7238, and 1 of 450 is 0.2222. 1
/// of 20,000 is half a hundredth of a percent, and 1 of 20,001 is less. If the best-known distance ends in zeros,
/// it may be rounded: 828,935 rounds up to 828,940, and 828,934 does not.
const COMPARISONS: [Comparison; 24] = [
    (Kind::LiLim, "10 787", 10, 797, " gap 1.27"),
    (Kind::LiLim, "10 829", 10, 829, " gap 0.00"),
    (Kind::LiLim, "10 820", 10, 829, " gap 1.10"),
    (Kind::LiLim, "829", 11, 835, " gap 0.72"),
    (Kind::LiLim, "9 829", 10, 829, " vehicles +1"),
    (Kind::LiLim, "11 900", 10, 829, " vehicles -1"),
    (Kind::LiLim, "0 900", 12, 829, " vehicles +12"),
    (Kind::LiLim, "010 0829", 10, 829, " gap 0.00"),
    (Kind::Vrp, "450", 0, 449, " gap -0.22"),
    (Kind::Vrp, "450", 0, 900, " gap 100.00"),
    (Kind::Vrp, "20000", 0, 20_001, " gap 0.01"),
    (Kind::Vrp, "20000", 0, 19_999, " gap -0.01"),
    (Kind::Vrp, "20001", 0, 20_002, " gap 0.00"),
    (Kind::Vrp, "20001", 0, 20_000, " gap -0.00"),
    (Kind::Vrp, "4294967295", 0, 0, " gap -100.00"),
    (Kind::Vrp, "828940", 0, 828_937, " gap 0.00"),
    (Kind::Vrp, "828940", 0, 828_935, " gap 0.00"),
    (Kind::Vrp, "828940", 0, 828_934, " gap -0.00"),
    (Kind::Vrp, "800", 0, 760, " gap -5.00"),
    (Kind::LiLim, " 10  829 ", 10, 829, " gap 0.00"),
    (Kind::LiLim, "10 +0829.00", 10, 829, " gap 0.00"),
    (Kind::Vrp, "450.0", 0, 450, " gap 0.00"),
    (
        Kind::Vrp,
        "18446744073709551615",
        0,
        18_446_744_073_709_551_615,
        " gap 0.00",
    ),
    (
        Kind::Vrp,
        "1",
        0,
        18_446_744_073_709_551_615,
        " gap 1844674407370955161400.00",
    ),
];

fn compared(alloc: Global, comparison: &Comparison) -> Result<bool, AllocError> {
    let (kind, column, vehicles, distance, wanted) = *comparison;
    let cost = Cost {
        unplanned: 0,
        vehicles,
        distance,
    };
    match BestKnown::read(Format::of_kind(kind), column.as_bytes()) {
        Some(best) => Ok(best.comparison(alloc, cost)?.as_str() == wanted),
        None => Ok(false),
    }
}

fn check_comparisons<R: Abort + AllocGlobal>(
    rt: &R,
    comparisons: &[Comparison],
) -> Result<(), Fail> {
    for comparison in comparisons {
        assert!(rt; compared(rt.alloc(), comparison)?, "{comparison:?}");
    }
    Ok(())
}

#[test]
fn compares_with_the_best_known_cost(rt: HostRuntime) -> Result<(), Fail> {
    check_comparisons(&rt, &COMPARISONS)
}

/// Columns that hold no best-known cost for a problem of their kind.
const REFUSED: [(Kind, &str); 16] = [
    (Kind::LiLim, ""),
    (Kind::LiLim, "0"),
    (Kind::LiLim, "10 0"),
    (Kind::LiLim, " "),
    (Kind::LiLim, "10\t829"),
    (Kind::LiLim, "10.0 829"),
    (Kind::LiLim, "10 829 1"),
    (Kind::LiLim, "10,829"),
    (Kind::LiLim, "828.94"),
    (Kind::LiLim, "-10 829"),
    (Kind::LiLim, "10 -829"),
    (Kind::LiLim, "4294967296 829"),
    (Kind::LiLim, "18446744073709551616"),
    (Kind::Vrp, "8 450"),
    (Kind::Vrp, "450 1"),
    (Kind::Vrp, "0"),
];

fn check_refused<R: Abort>(rt: &R, columns: &[(Kind, &str)]) {
    for (kind, column) in columns {
        assert!(rt;
            BestKnown::read(Format::of_kind(*kind), column.as_bytes()).is_none(),
            "{column}"
        );
    }
}

#[test]
fn refuses_other_columns(rt: HostRuntime) -> Result<(), Fail> {
    check_refused(&rt, &REFUSED);
    Ok(())
}
