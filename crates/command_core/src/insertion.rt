//! Inserting requests into a plan in place.
//!
//! One draft of the plan is built, and each insertion is accepted before the next one. So no plan is copied, and
//! each insertion reuses the memory of the route that the previous one replaced.
ghost use Rattle.std.specs.Prelude.{◌≡◌, true, IfOk};
ghost use Rattle.plan_audit.specs.Passes.{passes};
ghost use Rattle.seeded_search.specs.Steps.{placed_all};

use move_ops::Draft;
use plan_types::{OutOfMemory, Pins, Plan, Problem};
use std::alloc::Global;

/// Returns the plan after inserting these requests one by one, each at its best place at that moment. A request
/// without a place stays unplanned.
pub(crate) fn placed_all(
    alloc: Global,
    problem: &Problem,
    pins: &Pins,
    plan: &Plan,
    names: &[u32],
) -> Result<Plan, OutOfMemory>
    requires { passes problem.now pins.now.routes plan.now.routes ≡ true }
    ensures { IfOk result (λ new. new.routes
        ≡ placed_all problem.now pins.now.routes plan.now.routes names.now) }
{
    let mut draft = Draft::build(alloc, problem, pins, plan)?;
    for name in names {
        draft.place(problem, pins, *name)?;
        // The old route is no longer needed, so the next request reuses its memory.
        draft.accept();
    }
    draft.plan(alloc)
}
