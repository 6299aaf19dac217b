//! Laws of solving, for every instance, seed and number of steps.
ghost use Rattle.plan_solve.specs.AuditLaw.{SolutionsPassAudit};
ghost use Rattle.plan_solve.specs.Solved.{SolvingEqualsCommands, AnnealingEqualsOneCommand, AnnealingEqualsCommands};

use command_core::{commands_keep_invariants, costs_never_rise, searches_add_up};
use plan_audit::{empty_routes_change_no_verdict, solutions_pass_iff_sound};
use seeded_search::steps_keep_passing;

/// Proves that the result with a deviation is the one that the operations of a store make, however the steps
/// are split into searches.
pub fn solving_equals_commands()
    ensures { SolvingEqualsCommands }
{
    searches_add_up();
}

/// Proves that the result of annealing is the one that the operations of `anneal 0 STEPS` make after `load` and
/// `build`, and that the command `anneal 0 STEPS` itself makes this job.
pub fn annealing_equals_commands()
    ensures commands { AnnealingEqualsCommands }
    ensures line { AnnealingEqualsOneCommand }
{}

/// Proves that a result that leaves no request out passes the audit: its text spells a solution of the instance
/// that is sound, serves every request, uses no more vehicles than there are, and prints its distance.
pub fn solutions_pass_the_audit()
    ensures { SolutionsPassAudit }
{
    commands_keep_invariants();
    costs_never_rise();
    steps_keep_passing();
    empty_routes_change_no_verdict();
    solutions_pass_iff_sound();
}
