//! Adding requests to a problem.
ghost use Rattle.std.specs.Prelude.{◌≡◌, OnOk};
ghost use Rattle.plan_types.specs.Instance.{IsTaken, with_request};
ghost use Rattle.plan_types.specs.Request.{IsRequest};

use plan_types::{Problem, PutFault, Request};
use std::alloc::AllocError;

/// Adds a request that is within its limits and whose numbers are free.
#[inline(always)]
pub fn put_request(problem: &mut Problem, request: Request) -> Result<(), AllocError>
    requires valid { IsRequest request }
    requires free { ¬ IsTaken problem.old request }
    ensures { OnOk result (problem.new ≡ with_request problem.old request) }
{
    match problem.put(request) {
        Ok(()) => Ok(()),
        Err(PutFault::OutOfMemory) => Err(AllocError),
        Err(_) => unreachable!(),
    }
}
