//! The operations of `freeze T`, one by one.
ghost use Rattle.std.specs.Prelude.{◌≡◌, ◌≤◌, ◌<◌, ◌+◌, ◌-◌, ◌^◌, [], ◌∷◌, Some, None, IfSome, MatchOption, max, length};
ghost use Rattle.std.specs.List.{find, range_with_len};
ghost use Rattle.plan_types.specs.declared.limits.TheConstants.{MAX_STOP_NUMBER};
ghost use Rattle.route_sched.specs.Route.{AreDistinctStops};
ghost use Rattle.move_ops.specs.Insertion.{route_of};
ghost use Rattle.command_core.specs.Effects.{effect};
ghost use Rattle.command_types.specs.declared.states.State.TheVariants.{Loaded};
ghost use Rattle.command_text.specs.Answering.{commands_of};
ghost use Rattle.command_text.specs.Freezing.{above, freeze_commands, new_pin_len, has_departed, may_be_pinned, pin_end, departed_count};

use crate::steps::StepCursor;
use command_core::{Command, Job, State, check};
use move_ops::route_of;
use plan_audit::{passing_is_local, plans_are_disjoint_routes};
use plan_types::Problem;
use route_sched::{Visit, Visits};

/// Returns the next operation of `freeze` for this time, which sets the pin of vehicle `first` or of a later
/// one, and the cursor after it.
pub(crate) fn next_freeze_command(
    state: &State,
    job: &Job,
    time: u32,
    first: u32,
) -> Option<(Command, StepCursor)>
    requires { state.now ≡ Loaded job.now }
    ensures { MatchOption result (freeze_commands time first job.now ≡ [])
        (λ x. freeze_commands time first job.now
        ≡ x.0 ∷ commands_of x.1 (effect (Loaded job.now) x.0)) }
{
    for vehicle in first..job.problem.fleet + 1 {
        if let Some(stops) = new_pin_len(state, job, time, vehicle) {
            let rest = StepCursor::Freeze {
                time,
                first: vehicle + 1,
            };
            return Some((Command::Pin(vehicle, stops), rest));
        }
    }
    None
}

// Returns the length of the vehicle's pin after `freeze` for this time, if the pin becomes longer.
fn new_pin_len(state: &State, job: &Job, time: u32, vehicle: u32) -> Option<u32>
    requires { state.now ≡ Loaded job.now }
    ensures { result ≡ new_pin_len time job.now vehicle }
{
    passing_is_local();
    plans_are_disjoint_routes();
    let pinned = route_of(job.pins.routes.as_slice(), u64::from(vehicle)).len();
    let route = route_of(job.plan.routes.as_slice(), u64::from(vehicle));
    let begun = departed_count(&job.problem, route, time);
    let stops = pin_end(state, route, vehicle, pinned.max(begun))?;
    above(pinned, stops)
}

fn above(low: usize, stops: u32) -> Option<u32>
    ensures { result ≡ above low stops }
{
    if low < stops as usize {
        Some(stops)
    } else {
        None
    }
}

// Returns the length of the longest prefix of a route to whose stops the vehicle has departed by this time.
// Takes no memory.
fn departed_count(problem: &Problem, route: &[u32], time: u32) -> usize
    requires { AreDistinctStops problem.now route.now }
    ensures { result ≡ departed_count problem.now route.now time }
{
    let mut visits = Visits::new(problem, route);
    for place in 0..route.len() {
        let Some(visit) = visits.next() else {
            return place;
        };
        if !has_departed(&visit, time) {
            return place;
        }
    }
    route.len()
}

// Returns whether the vehicle has departed to this place by the given time. A vehicle that would be early waits
// at the previous place.
fn has_departed(visit: &Visit, time: u32) -> bool
    ensures { result ≡ has_departed time visit.now }
{
    visit.start <= u64::from(time) + u64::from(visit.leg)
}

// Returns the smallest number of stops, at least `first`, that may be pinned for the vehicle.
fn pin_end(state: &State, route: &[u32], vehicle: u32, first: usize) -> Option<u32>
    requires few { length route.now ≤ MAX_STOP_NUMBER + 1 }
    ensures { (job : _) → state.now ≡ Loaded job → route.now ≡ route_of job.plan vehicle
        → result ≡ pin_end job vehicle first }
{
    for stops in first..route.len() + 1 {
        if may_be_pinned(state, vehicle, stops as u32) {
            return Some(stops as u32);
        }
    }
    None
}

fn may_be_pinned(state: &State, vehicle: u32, stops: u32) -> bool
    ensures { (job : _) → state.now ≡ Loaded job → result ≡ may_be_pinned job vehicle stops }
{
    check(state, &Command::Pin(vehicle, stops)).is_ok()
}
