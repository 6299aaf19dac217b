//! The timetable of a printed solution.
ghost use Rattle.std.specs.Prelude.{◌≡◌, IfOk, string_bytes};
ghost use Rattle.plan_audit.specs.Verdict.{IsVerdict, printed};
ghost use Rattle.plan_timetable.specs.Timetable.{solution_timetable_text};

use crate::forms::Form;
use crate::timetables::timetable;
use plan_audit::Verdict;
use plan_explain::verdict_schedule_is_known;
use plan_types::{OutOfMemory, Problem};
use sol_text::Solution;
use std::alloc::Global;

/// Returns the timetable of a printed solution, which has no pins, with its `verdict` and the names of its
/// unplanned requests. The timetable is empty if a stop is unknown or appears twice, since the schedule is not
/// known then.
pub fn solution_timetable(
    alloc: Global,
    problem: &Problem,
    solution: &Solution,
    verdict: Verdict,
    unplanned: &[u32],
    form: Form,
) -> Result<String, OutOfMemory>
    requires { IsVerdict problem.now (printed solution.now.routes solution.now.cost) verdict }
    ensures { IfOk result (λ text. string_bytes text
        ≡ solution_timetable_text form problem.now solution.now.routes unplanned.now verdict) }
{
    let routes = solution.routes.as_slice();
    if verdict_schedule_is_known(verdict) {
        timetable(alloc, problem, &[], routes, unplanned, form)
    } else {
        Ok(String::new(alloc))
    }
}
