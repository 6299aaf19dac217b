//! The limits of rules 6 to 8: the greatest load, and the latest times by the kind of problem.
ghost use Rattle.std.specs.Prelude.{◌≡◌};
ghost use Rattle.rule_violations.specs.Limits.{is_late, is_overload};

use plan_types::{Kind, Problem};
use route_sched::{exceeds_capacity, is_too_late};

/// Returns whether a load exceeds the capacity.
pub fn is_overload(problem: &Problem, load: i64) -> bool
    ensures { result ≡ is_overload problem.now load }
{
    exceeds_capacity(load, problem.capacity)
}

/// Returns whether a time is after the latest one, in a problem with times.
pub fn is_late(problem: &Problem, time: u64, latest: u32) -> bool
    ensures { result ≡ is_late problem.now time latest }
{
    match problem.kind {
        Kind::LiLim => is_too_late(time, latest),
        Kind::Vrp => false,
    }
}
