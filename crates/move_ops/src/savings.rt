//! The greatest saving by an inserted request. It gives a lower bound of the cost of a plan with the request.
ghost use Rattle.std.specs.Prelude.{◌≡◌};
ghost use Rattle.move_ops.specs.Savings.{max_saving};

use crate::naming::request_named;
use plan_types::{Problem, Request};

/// Returns the greatest distance that inserting the request with this name can save: distances are rounded, so
/// a detour may be shorter than the straight leg. Returns 0 if no current request has the name.
pub fn max_saving(problem: &Problem, name: u32) -> u64
    ensures { result ≡ max_saving problem.now name }
{
    match request_named(problem, name) {
        Some(Request::Single(_)) => 1,
        Some(Request::Pair(_, _)) => 2,
        None => 0,
    }
}
