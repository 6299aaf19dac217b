//! A distance as a share of the mean leg of a plan's routes.
ghost use Rattle.std.specs.Prelude.{◌≡◌, ◌<◌, ◌≤◌, ◌^◌, length, slice_get};
ghost use Rattle.std.specs.Option.{option_map_or};
ghost use Rattle.plan_types.specs.Instance.{numbers_among};
ghost use Rattle.plan_types.specs.Request.{stops_of};
ghost use Rattle.route_sched.specs.Route.{IsPlan};
ghost use Rattle.plan_types.specs.declared.limits.TheConstants.{MAX_DEVIATION};
ghost use Rattle.annealing_schedule.specs.Stages.{mean_leg_share};

use plan_types::limits::MAX_DEVIATION;
use plan_types::{Plan, Problem, Request};
use route_sched::plan_cost;

/// Returns the given number of hundredths of the plan's mean leg, which is its distance divided by the number of
/// stops of all requests. The result is rounded down, in the unit of distance, and at most the greatest
/// deviation. It is 0 if there are no stops.
pub fn mean_leg_share(problem: &Problem, plan: &Plan, hundredths: u32) -> u32
    requires { IsPlan problem.now plan.now.routes }
    ensures value { result ≡ mean_leg_share problem.now plan.now.routes hundredths }
    ensures most { result ≤ MAX_DEVIATION }
{
    let stops = stop_count(problem);
    if stops == 0 {
        return 0;
    }
    let distance = u128::from(plan_cost(problem, plan).distance);
    (distance * u128::from(hundredths) / (100 * stops)).min(u128::from(MAX_DEVIATION)) as u32
}

// Returns the number of stops of all requests.
fn stop_count(problem: &Problem) -> u128
    ensures count { result ≡ length (numbers_among problem.now.requests) }
    ensures bound { result < 2 ^ 66 }
{
    let mut count = 0;
    for index in 0..problem.requests.len() {
        count += stops_at(problem, index);
    }
    count
}

// Returns the number of stops of the request at this index.
fn stops_at(problem: &Problem, index: usize) -> u128
    ensures count { result ≡ option_map_or (λ e. length (stops_of e.1))
        (slice_get problem.now.requests index) 0 }
    ensures bound { result ≤ 2 }
{
    match problem.requests.get_index(index) {
        Some((_, Request::Single(_))) => 1,
        Some((_, Request::Pair(_, _))) => 2,
        None => 0,
    }
}
