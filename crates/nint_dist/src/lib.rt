//! Distances rounded to the nearest whole number, as TSPLIB95 defines them for EUC_2D.
//!
//! `dist` is the only distance of this project: schedules (`route_sched`), route tables (`slack_tables`) and
//! costs all use it. `nint_root` computes the rounded root.
//!
//! Modules, in reading order:
//! - this file: the distance of two stops, and the laws.
//! - `root`: the whole number nearest to a square root, without floating point.
//!
//! Source: TSPLIB95, edge weight type EUC_2D, `d = nint(sqrt(dx*dx + dy*dy))`. Since
//! `(d + 1/2)^2 = d*d + d + 1/4`, the nearest whole number is the smallest `d` with `s <= d * (d + 1)`. An
//! exact half never occurs.
//!
//! For a number below 2^22, a table provides a guess, and one product usually shows that the root is the guess
//! or the next number. For a greater number, a table and two steps of Newton's method provide the guess. Two
//! short loops correct such a guess, and also one that the product does not confirm, upward and then downward.
//! The proofs rest only on the product and the loops, so a wrong guess costs time but not correctness.
//!
//! Proved: `nint_root` returns that smallest `d` for each `u64`, and `dist` returns it for the squared
//! distance. Every distance of the definition is such a nearest root, including those that no code computes.
//! Rounded distances break the triangle inequality by at most 1.
#![tactic(auto)]

ghost use Rattle.std.specs.Prelude.{◌≡◌, ◌+◌, ◌*◌, ◌≤◌, ◌-ℤ◌, unsigned_abs};
ghost use Rattle.plan_types.specs.Limits.{IsCoordinate};
ghost use Rattle.nint_dist.specs.Distance.{HasValidCoordinates, distance, squared_distance, DistancesAreNearestRoots, DetoursSaveAtMostOne};
ghost use Rattle.nint_dist.specs.NearestRoot.{IsNearestRoot};

mod root;

use plan_types::Stop;
pub use root::nint_root;

/// Returns the distance of two stops: the square root of the sum of the squared coordinate differences, rounded
/// to the nearest whole number (TSPLIB95, EUC_2D).
///
/// Rounded distances break the triangle inequality: a detour through a third stop can be shorter than the
/// direct leg.
#[tactic(auto, unfolding(crate::specs::Distance::distance))]
pub fn dist(a: &Stop, b: &Stop) -> u32
    requires from { HasValidCoordinates a.now }
    requires to { HasValidCoordinates b.now }
    ensures value { result ≡ distance a.now b.now }
    ensures nearest { IsNearestRoot (squared_distance a.now b.now) result }
    ensures bound { result ≤ 2828427 }
{
    let dx = gap(a.x, b.x);
    let dy = gap(a.y, b.y);
    nint_root(dx * dx + dy * dy) as u32
}

/// States that each distance is the whole number nearest to the root of the squared distance, whether it was
/// computed or not.
pub fn distances_are_nearest_roots()
    ensures { DistancesAreNearestRoots }
{}

/// States that a detour through a third stop is shorter than the direct leg by at most 1. This is how far
/// rounded distances break the triangle inequality.
pub fn detours_save_at_most_one()
    ensures { DetoursSaveAtMostOne }
{}

// Returns the absolute difference of two coordinates.
fn gap(x: i32, y: i32) -> u64
    requires from { IsCoordinate x }
    requires to { IsCoordinate y }
    ensures value { result ≡ unsigned_abs (x -ℤ y) }
    ensures bound { result ≤ 2000000 }
{
    u64::from(x.abs_diff(y))
}
