//! Comparisons of a time or a load with its limit.
ghost use Rattle.std.specs.Prelude.{◌≡◌};
ghost use Rattle.route_sched.specs.Limits.{is_too_late, exceeds_capacity};

/// Returns whether a time is after the latest one.
#[inline(always)]
pub fn is_too_late(time: u64, latest: u32) -> bool
    ensures { result ≡ is_too_late time latest }
{
    time > u64::from(latest)
}

/// Returns whether a load is above the capacity.
#[inline(always)]
pub fn exceeds_capacity(load: i64, capacity: u32) -> bool
    ensures { result ≡ exceeds_capacity load capacity }
{
    load > i64::from(capacity)
}
