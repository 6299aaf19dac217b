//! Laws about plans of some of the vehicles, and about attempts: for every problem, plan and pins.
ghost use Rattle.fleet_reduction.specs.Laws.{KeptAreSubfleets, PickedPass, PutBackPass, PutBackUseFewer, AttemptsKeepPlans, AttemptsNeverCostMore};

use anneal_search::attempts_keep_passing;
use plan_audit::feasibility_is_local;
use plan_types::costs_are_totally_ordered;

/// States that, if a plan passes, the routes of some of its vehicles pass, with their pins, in a fleet of just
/// these vehicles. If only these vehicles have pins, a plan of theirs passes when it is put back at their
/// numbers. It then uses at most as many vehicles as these.
pub fn picked_pass()
    ensures picked { PickedPass }
    ensures back { PutBackPass }
    ensures used { PutBackUseFewer }
{
    feasibility_is_local();
}

/// States that the vehicles kept for an attempt are at most the requested number, and that all vehicles with a
/// pin are among them. This requires that at most the requested number of vehicles have a pin.
pub fn kept_are_subfleets()
    ensures { KeptAreSubfleets }
{}

/// States that attempts from a plan that passes lead to one that passes, within their steps.
pub fn attempts_keep_plans()
    ensures { AttemptsKeepPlans }
{
    picked_pass();
    attempts_keep_passing();
}

/// States that the plan that the attempts find never costs more than the plan that they begin with.
pub fn attempts_never_cost_more()
    ensures { AttemptsNeverCostMore }
{
    costs_are_totally_ordered();
}
