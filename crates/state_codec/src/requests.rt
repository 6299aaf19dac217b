//! The requests of a state.
ghost use Rattle.std.specs.Prelude.{◌≡◌, ◌≤◌, ◌+◌, [], nat_lt, OnOk, IfOk, IfErr};
ghost use Rattle.plan_types.specs.Instance.{with_request, IsTaken};
ghost use Rattle.plan_types.specs.Request.{IsRequest};
ghost use Rattle.state_codec.specs.FilledProblem.{IsFilledBelow};
ghost use Rattle.plan_types.specs.Limits.{IsDemand};
ghost use Rattle.plan_types.specs.declared.limits.TheConstants.{MAX_STOP_NUMBER};
ghost use Rattle.std.specs.List.{list_all};
ghost use Rattle.state_codec.specs.Fields.{Reads, Gives, only, number_at, signed_at, is_service};
ghost use Rattle.state_codec.specs.Reading.{is_free, is_name, is_delivery, is_expected_demand, visit_at, first_at, delivery_at, request_at, times, next_request};

use crate::fault::CodecFault;
use crate::fields::{Field, i32_at, number_at, only, point_at, u8_at, u32_at, window_at};
use crate::version::Version;
use plan_types::limits::{MAX_DEMAND, MAX_SERVICE};
use plan_types::{Problem, Request, Stop};

// Returns whether a request with this name may follow those of the problem.
fn is_name(problem: &Problem, next: u32, number: u32) -> bool
    ensures { result ≡ is_name next problem.now.requests number }
{
    1 <= number && number < next && is_above_names(problem, number) && is_free(problem, number)
}

// Returns whether the number is above the names of all requests. It is enough to compare the last name, which
// is the greatest.
fn is_above_names(problem: &Problem, number: u32) -> bool
    ensures { result ≡ list_all (λ e. nat_lt e.0 number) problem.now.requests }
{
    match problem.requests.last() {
        Some((last, _)) => *last < number,
        None => true,
    }
}

fn is_free(problem: &Problem, number: u32) -> bool
    ensures { result ≡ is_free problem.now.requests number }
{
    problem.stop(number).is_none()
}

fn is_delivery(problem: &Problem, next: u32, pickup: u32, number: u32) -> bool
    ensures { result ≡ is_delivery next problem.now.requests pickup number }
{
    1 <= number && number < next && number != pickup && is_free(problem, number)
}

fn is_expected_demand(wanted: Option<i32>, demand: i32) -> bool
    ensures { result ≡ is_expected_demand wanted demand }
{
    match wanted {
        None => 0 <= demand && demand <= MAX_DEMAND,
        Some(goods) => demand == goods,
    }
}

fn demand_at(wanted: Option<i32>, bytes: &[u8]) -> Field<'_, i32>
    ensures { Reads (λ x. (x.0, x.1.now)) result (only (is_expected_demand wanted) (signed_at bytes.now)) }
{
    let (demand, rest) = i32_at(bytes)?;
    only(is_expected_demand(wanted, demand), demand, rest)
}

fn service_at(bytes: &[u8]) -> Field<'_, u32>
    ensures { Reads (λ x. (x.0, x.1.now)) result (only is_service (number_at 4 bytes.now)) }
{
    let (service, rest) = u32_at(bytes)?;
    only(service <= MAX_SERVICE, service, rest)
}

#[tactic(auto, unfolding(crate::specs::Reading::visit_at))]
fn visit_at(number: u32, wanted: Option<i32>, bytes: &[u8]) -> Field<'_, Stop>
    ensures { Reads (λ x. (x.0, x.1.now)) result (visit_at number wanted bytes.now) }
{
    let ((x, y), rest) = point_at(bytes)?;
    let (demand, rest) = demand_at(wanted, rest)?;
    let ((earliest, latest), rest) = window_at(rest)?;
    let (service, rest) = service_at(rest)?;
    let stop = Stop {
        number,
        x,
        y,
        demand,
        earliest,
        latest,
        service,
    };
    Ok((stop, rest))
}

#[tactic(auto, unfolding(crate::specs::Reading::first_at))]
fn first_at<'a>(version: Version, problem: &Problem, next: u32, bytes: &'a [u8]) -> Field<'a, Stop>
    ensures { Reads (λ x. (x.0, x.1.now)) result
        (first_at version next problem.now.requests bytes.now) }
{
    let (number, rest) = number_at(version, bytes)?;
    let (name, rest) = only(is_name(problem, next, number), number, rest)?;
    visit_at(name, None, rest)
}

#[tactic(auto, unfolding(crate::specs::Reading::delivery_at))]
fn delivery_at<'a>(
    version: Version,
    problem: &Problem,
    next: u32,
    pickup: &Stop,
    bytes: &'a [u8],
) -> Field<'a, Stop>
    requires { IsDemand pickup.now.demand }
    ensures { Reads (λ x. (x.0, x.1.now)) result
        (delivery_at version next problem.now.requests pickup.now bytes.now) }
{
    let (number, rest) = number_at(version, bytes)?;
    let is_delivery = is_delivery(problem, next, pickup.number, number);
    let (number, rest) = only(is_delivery, number, rest)?;
    visit_at(number, Some(-pickup.demand), rest)
}

#[tactic(auto, unfolding(crate::specs::Reading::request_at, crate::specs::Reading::single_at, crate::specs::Reading::pair_at))]
fn request_at<'a>(
    version: Version,
    problem: &Problem,
    next: u32,
    bytes: &'a [u8],
) -> Field<'a, Request>
    ensures { Reads (λ x. (x.0, x.1.now)) result
        (request_at version next problem.now.requests bytes.now) }
{
    let (form, rest) = u8_at(bytes)?;
    match form {
        1 => {
            let (stop, rest) = first_at(version, problem, next, rest)?;
            Ok((Request::Single(stop), rest))
        }
        2 => {
            let (pickup, rest) = first_at(version, problem, next, rest)?;
            let (delivery, rest) = delivery_at(version, problem, next, &pickup, rest)?;
            Ok((Request::Pair(pickup, delivery), rest))
        }
        _ => Err(CodecFault::BadField),
    }
}

// Adds a request whose stop numbers are not in use yet.
fn put_new(problem: &mut Problem, request: Request) -> Result<(), CodecFault>
    requires request { IsRequest request }
    requires free { ¬ IsTaken problem.old request }
    ensures ok { OnOk result (problem.new ≡ with_request problem.old request) }
    ensures err { IfErr result (λ e. e ≡ CodecFault.OutOfMemory) }
{
    match problem.put(request) {
        Ok(()) => Ok(()),
        // The request is valid, so only the allocation can have failed.
        Err(_) => Err(CodecFault::OutOfMemory),
    }
}

/// Reads `count` requests into a problem that has none. Each stop number has to be below `next`. The count
/// alone reserves no memory.
pub(crate) fn requests_at<'a>(
    version: Version,
    problem: Problem,
    next: u32,
    count: u32,
    bytes: &'a [u8],
) -> Field<'a, Problem>
    requires empty { problem.requests ≡ [] }
    requires next { next ≤ MAX_STOP_NUMBER + 1 }
    ensures read { Gives (λ x. (x.0.requests, x.1.now)) result
        (times (next_request version next) count [] bytes.now) }
    ensures problem { IfOk result (λ x. IsFilledBelow problem next x.0) }
{
    let mut problem = problem;
    let mut rest = bytes;
    for _ in 0..count {
        let (request, after) = request_at(version, &problem, next, rest)?;
        put_new(&mut problem, request)?;
        rest = after;
    }
    Ok((problem, rest))
}
