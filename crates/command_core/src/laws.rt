//! Laws of commands: each holds for every state and every list of commands.
ghost use Rattle.command_core.specs.RunLaws.{CommandsKeepInvariants, RunsKeepInvariants, CostsNeverRise, PlansNeverCostMore, SearchesAddUp, RunsAreOneSearch, AnnealingsAddUp, RunsAreOneAnnealing, NextNumberNeverFalls, AssignedNumbersAreNew, AcceptedFitRecords};

use anneal_search::{anneal_steps_add_up, anneal_steps_keep_passing, annealing_never_costs_more};
use fleet_reduction::{attempts_keep_plans, attempts_never_cost_more};
use plan_audit::{
    feasibility_is_local, passing_is_local, pins_are_distinct_stops, plans_are_disjoint_routes,
};
use plan_types::{
    costs_are_totally_ordered, numbers_are_below_next_number, put_adds_one_request,
    requests_are_stored_by_name, take_removes_one_request,
};
use seeded_search::{incumbents_never_cost_more, steps_add_up, steps_keep_passing};

/// Proves that accepted commands keep the invariants of states: the plan and the working plan pass with the
/// pins, and each pin alone is a feasible route.
pub fn commands_keep_invariants()
    ensures one { CommandsKeepInvariants }
    ensures many { RunsKeepInvariants }
{
    passing_is_local();
    plans_are_disjoint_routes();
    pins_are_distinct_stops();
    feasibility_is_local();
    numbers_are_below_next_number();
    put_adds_one_request();
    take_removes_one_request();
    requests_are_stored_by_name();
    steps_keep_passing();
    anneal_steps_keep_passing();
    attempts_keep_plans();
}

/// Proves that an accepted command that changes no request never makes the plan more expensive.
pub fn costs_never_rise()
    ensures { CostsNeverRise }
{
    costs_are_totally_ordered();
    incumbents_never_cost_more();
    annealing_never_costs_more();
    attempts_never_cost_more();
}

/// Proves that, after accepted commands, the plan costs no more than at any moment since the last change of
/// requests or pins, and that requests and pins are as they were then.
pub fn plans_never_cost_more()
    ensures { PlansNeverCostMore }
{
    costs_are_totally_ordered();
    incumbents_never_cost_more();
    annealing_never_costs_more();
    attempts_never_cost_more();
}

/// Proves that several searches, with or without checkpoints between them, lead to the same state as one search
/// with the same number of steps.
pub fn searches_add_up()
    ensures two { SearchesAddUp }
    ensures many { RunsAreOneSearch }
{
    steps_add_up();
}

/// Proves that several annealings, with or without checkpoints between them, lead to the same state as one
/// annealing with the same number of steps.
pub fn annealings_add_up()
    ensures two { AnnealingsAddUp }
    ensures many { RunsAreOneAnnealing }
{
    anneal_steps_add_up();
}

/// Proves that no stop number is assigned twice before the next `Load`.
pub fn assigned_numbers_are_new()
    ensures next { NextNumberNeverFalls }
    ensures given { AssignedNumbersAreNew }
{}

/// Proves that, if a store writes an accepted command as a record, its fields fit into the record.
pub fn accepted_commands_fit_records()
    ensures { AcceptedFitRecords }
{}
