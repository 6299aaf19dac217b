//! Laws of the best insertion. The best insertion is the first one by cost and then by place. A removed request
//! always has a best insertion, since the request fits where it was.
ghost use Rattle.move_ops.specs.InsertionSearch.{InsertionLaws};
ghost use Rattle.move_ops.specs.Savings.{PlacementsSaveLittle};
ghost use Rattle.move_ops.specs.Laws.{BestInsertionsAreLeast, BestInsertionsAreUnique, InsertionsAreFeasible, LimitsAreRules, PlansPassWithoutPins, RelocationsNeverCostMore, RequestsKeepTheirPlaces};

use nint_dist::detours_save_at_most_one;
use plan_audit::{
    a_passing_plan_is_sound, feasible_alone_decides_feasibility, passes_decides_the_verdict,
    passing_is_local,
};
use plan_types::{
    costs_are_totally_ordered, costs_compare_lexicographically, numbers_are_below_next_number,
    requests_are_found_by_stop, requests_are_stored_by_name,
};

/// States that the best insertion of a request is one of its insertions. No other costs less, and none of equal
/// cost has an earlier vehicle, pickup place or delivery place, compared in this order. There is no best
/// insertion exactly when the request has no insertion.
pub fn best_insertions_are_least()
    ensures { BestInsertionsAreLeast }
{
    costs_are_totally_ordered();
}

/// States that a request has only one best insertion.
pub fn best_insertions_are_unique()
    ensures { BestInsertionsAreUnique }
{
    costs_are_totally_ordered();
}

/// States that the insertions of a request are exactly the places at which it can be inserted so that the
/// result passes.
pub fn insertions_are_feasible()
    ensures { InsertionsAreFeasible }
{}

/// States that a request removed from a plan that passes can be inserted at its old place again, which restores
/// the old plan.
pub fn requests_keep_their_places()
    ensures { RequestsKeepTheirPlaces }
{
    requests_are_found_by_stop();
    requests_are_stored_by_name();
    passing_is_local();
    a_passing_plan_is_sound();
    passes_decides_the_verdict();
}

/// States that a request removed from a plan that passes has a best insertion. If `Draft::place` inserts the
/// request, the plan costs no more than before.
pub fn relocations_never_cost_more()
    ensures { RelocationsNeverCostMore }
{
    requests_are_found_by_stop();
    requests_are_stored_by_name();
    passing_is_local();
    a_passing_plan_is_sound();
    passes_decides_the_verdict();
    best_insertions_are_least();
    costs_are_totally_ordered();
}

/// States that inserting a request at its best place saves at most one unplanned request, no vehicle, and a
/// distance of at most 1 for each of its stops. This gives a lower bound of a plan's cost after more requests
/// are inserted.
pub fn placements_save_little()
    ensures { PlacementsSaveLittle }
{
    requests_are_found_by_stop();
    requests_are_stored_by_name();
    passing_is_local();
    feasible_alone_decides_feasibility();
    numbers_are_below_next_number();
    detours_save_at_most_one();
}

/// States that a plan that passes with its pins passes without pins.
pub fn plans_pass_without_pins()
    ensures { PlansPassWithoutPins }
{
    passing_is_local();
}

/// States that the limits that tables check are the auditor's rules on load and time. A route keeps them
/// exactly when it breaks none of these rules as the only route: no load is above the capacity, no service
/// starts after its latest time, and the vehicle returns by the depot's latest time.
pub fn limits_are_rules()
    ensures { LimitsAreRules }
{}

/// States the laws that compare insertions, in one record.
pub(crate) fn insertion_laws()
    ensures { InsertionLaws }
{
    requests_are_found_by_stop();
    requests_are_stored_by_name();
    passing_is_local();
    feasible_alone_decides_feasibility();
    costs_compare_lexicographically();
    costs_are_totally_ordered();
    best_insertions_are_least();
    best_insertions_are_unique();
}
