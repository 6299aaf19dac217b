//! An invariant of a value, for callers that only pass the value on. A function that reads a field of the value
//! knows the invariant anyway.
ghost use Rattle.plan_types.specs.Instance.{IsInstance};

use plan_types::Problem;

/// States that the problem is valid (`IsInstance`).
pub(crate) fn problem_keeps_limits(problem: &Problem)
    ensures { IsInstance problem.now }
{
    let _fleet = problem.fleet;
}
