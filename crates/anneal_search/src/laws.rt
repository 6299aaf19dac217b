//! Laws of nearest stops, strings, orders and annealing steps: each holds for every word, seed and step.
ghost use Rattle.anneal_search.specs.AnnealLaws.{AnnealStepsAddUp, AnnealStepsKeepPassing, AnnealingNeverCostsMore};
ghost use Rattle.anneal_search.specs.AttemptLaws.{AttemptsAreBounded, AttemptsKeepPassing};
ghost use Rattle.anneal_search.specs.StringLaws.{StringsLieAround, NearestStopIsClosest, RoutesAreAscending, OrdersAreAscending};

use plan_types::costs_are_totally_ordered;

/// Proves that a string contains the nearest stop of its route, lies within the route, and removes no more stops
/// than it may. It may keep one more stop inside.
pub fn strings_lie_around()
    ensures { StringsLieAround }
{}

/// Proves that the nearest stop of a route is one of its stops, that none of them is nearer, and that each route
/// with stops has a nearest stop.
pub fn nearest_stop_is_closest()
    ensures { NearestStopIsClosest }
{}

/// Proves that the nearest routes are those of all used vehicles, each with its nearest stop, in ascending
/// order of the distance and number of these stops. A step cuts the first of them.
pub fn routes_are_ascending()
    ensures { RoutesAreAscending }
{}

/// Proves that the order that a word picks has exactly the given names, in ascending order of key, salt and name.
pub fn orders_are_ascending()
    ensures { OrdersAreAscending }
{}

/// Proves that annealing steps followed by more steps equal all of them in one call.
pub fn anneal_steps_add_up()
    ensures { AnnealStepsAddUp }
{}

/// Proves that annealing leads from plans that pass to plans that pass.
pub fn anneal_steps_keep_passing()
    ensures { AnnealStepsKeepPassing }
{}

/// Proves that the incumbent of annealing never becomes more expensive.
pub fn annealing_never_costs_more()
    ensures { AnnealingNeverCostsMore }
{
    costs_are_totally_ordered();
}

/// Proves that an attempt leads from plans that pass to plans that pass, and makes at most the given number of
/// steps. If this number is not 0 and the first plan leaves a request out, the attempt makes at least one step.
pub fn attempts_keep_passing()
    ensures passing { AttemptsKeepPassing }
    ensures short { AttemptsAreBounded }
{}
