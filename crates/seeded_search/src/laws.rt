//! Laws about words, the numbers that they pick, and steps: each holds for every seed, step and number of
//! things.
ghost use Rattle.seeded_search.specs.Laws.{StepsAreBlocks, PicksAreEven};
ghost use Rattle.seeded_search.specs.StepLaws.{RelocatedNeverCostMore, StepsAddUp, StepsKeepPassing, IncumbentsNeverCostMore, WorkingStaysNear};

use move_ops::relocations_never_cost_more;
use plan_types::costs_are_totally_ordered;

/// States that the words of a step are exactly the block of the key stream with its number.
pub fn steps_are_blocks()
    ensures { StepsAreBlocks }
{}

/// States that each of `m` things is picked by `2^32 / m` words, rounded down, or by one more.
pub fn picks_are_even()
    ensures { PicksAreEven }
{}

/// States that a relocated request is always inserted again, and that the plan then costs no more: the request
/// can at least return to its old place.
pub fn relocated_never_cost_more()
    ensures { RelocatedNeverCostMore }
{
    relocations_never_cost_more();
}

/// States that steps of a search followed by more steps lead to the same plans as all these steps in one call,
/// however they are divided.
pub fn steps_add_up()
    ensures { StepsAddUp }
{}

/// States that a search leads from plans that pass to plans that pass.
pub fn steps_keep_passing()
    ensures { StepsKeepPassing }
{}

/// States that the incumbent of a search never costs more.
pub fn incumbents_never_cost_more()
    ensures { IncumbentsNeverCostMore }
{
    costs_are_totally_ordered();
}

/// States that the working plan stays near the incumbent, if it is near at first: it leaves as many requests
/// unplanned, uses as many vehicles, and its distance is greater by at most the deviation.
pub fn working_stays_near()
    ensures { WorkingStaysNear }
{
    costs_are_totally_ordered();
}
