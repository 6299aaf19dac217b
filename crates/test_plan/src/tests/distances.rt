//! Rounded square roots and distances.
ghost use Rattle.plan_types.specs.Limits.{IsCoordinate};
ghost use Rattle.nint_dist.specs.Distance.{HasValidCoordinates};

use nint_dist::{dist, nint_root};
use plan_types::Stop;

fn stop_at(x: i32, y: i32) -> Stop
    requires { IsCoordinate x × IsCoordinate y }
    ensures { HasValidCoordinates result }
{
    Stop {
        number: 1,
        x,
        y,
        demand: 0,
        earliest: 0,
        latest: 0,
        service: 0,
    }
}

/// Numbers, and their square roots rounded to the nearest: the smallest numbers, and those around the square of
/// 2,048.
const ROOTS: [(u64, u64); 15] = [
    (0, 0),
    (1, 1),
    (2, 1),
    (3, 2),
    (6, 2),
    (7, 3),
    (12, 3),
    (13, 4),
    (4_190_209, 2_047),
    (4_192_256, 2_047),
    (4_192_257, 2_048),
    (4_194_303, 2_048),
    (4_194_304, 2_048),
    (4_196_352, 2_048),
    (4_196_353, 2_049),
];

#[test]
fn rounds_to_the_nearest(rt: HostRuntime) {
    for (s, root) in &ROOTS {
        assert!(rt; nint_root(*s) == *root);
    }
    assert!(rt; nint_root(u64::MAX) == 1 << 32);
}

#[test]
fn measures_distances(rt: HostRuntime) {
    assert!(rt; dist(&stop_at(0, 0), &stop_at(1, 1)) == 1);
    assert!(rt; dist(&stop_at(1, 1), &stop_at(2, 2)) == 1);
    assert!(rt; dist(&stop_at(0, 0), &stop_at(2, 2)) == 3);
    let low = stop_at(-1_000_000, -1_000_000);
    let high = stop_at(1_000_000, 1_000_000);
    assert!(rt; dist(&low, &high) == 2_828_427);
}
