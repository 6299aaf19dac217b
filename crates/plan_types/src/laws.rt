//! Facts about every problem, every lookup and every cost. Each law is a function with an empty body.
ghost use Rattle.std.specs.Prelude.{◌≡◌};
ghost use Rattle.std.specs.Ordering.{partial_lt, partial_le, is_lt};
ghost use Rattle.plan_types.specs.Cost.{cost_below, cost_at_most, CostBelowIsCorrect, CostAtMostIsCorrect, CostsAreTotal, CostsAreTransitive, CostsAreAntisymmetric, BelowThenAtMost, AtMostThenBelow, BelowIsAtMost};
ghost use Rattle.plan_types.specs.Laws.{RequestsAreStoredByName, NamedRequestsAreFound, RequestsAreBelowNext, FoundRequestsAreBelowNext, StopsAreBelowNext, NewNumbersAreFree, PutKeepsProblemValid, PutRequestIsFound, PutKeepsOthers, LookupAfterPut, TakeKeepsProblemValid, TakeFreesNumbers, TakeKeepsOthers, LookupAfterTake, TakeOfUnknownName};

use crate::plans::Cost;

/// States that the request with a given stop is stored under its own name.
pub fn requests_are_stored_by_name()
    ensures { RequestsAreStoredByName }
{}

/// States that each number of a request is below `next_number`, so that new stops get free numbers.
pub fn numbers_are_below_next_number()
    ensures requests { RequestsAreBelowNext }
    ensures found { FoundRequestsAreBelowNext }
    ensures stops { StopsAreBelowNext }
    ensures fresh { NewNumbersAreFree }
{}

/// States that a request that is stored under a name is found by lookups of each of its numbers.
pub fn requests_are_found_by_stop()
    ensures { NamedRequestsAreFound }
{}

/// States what lookups find after a request with free numbers has been added.
pub fn put_adds_one_request()
    ensures problem { PutKeepsProblemValid }
    ensures found { PutRequestIsFound }
    ensures others { PutKeepsOthers }
    ensures named { LookupAfterPut }
{}

/// States what lookups find after a request has been removed.
pub fn take_removes_one_request()
    ensures problem { TakeKeepsProblemValid }
    ensures freed { TakeFreesNumbers }
    ensures others { TakeKeepsOthers }
    ensures named { LookupAfterTake }
    ensures none { TakeOfUnknownName }
{}

/// States that costs are compared by unplanned requests, then vehicles, then distance.
pub fn costs_compare_lexicographically()
    ensures less { (a : Cost) → (b : Cost)
        → partial_lt ⟦<Cost as PartialOrd>⟧.partial_cmp a b ≡ cost_below a b }
    ensures at_most { (a : Cost) → (b : Cost)
        → partial_le ⟦<Cost as PartialOrd>⟧.partial_cmp a b ≡ cost_at_most a b }
    ensures order { (a : Cost) → (b : Cost) → is_lt (⟦<Cost as Ord>⟧.cmp a b) ≡ cost_below a b }
    ensures below_is_correct { CostBelowIsCorrect }
    ensures at_most_is_correct { CostAtMostIsCorrect }
{}

/// States that costs are totally ordered: of two costs one is at most the other, and the order is transitive.
pub fn costs_are_totally_ordered()
    ensures total { CostsAreTotal }
    ensures transitive { CostsAreTransitive }
    ensures antisymmetric { CostsAreAntisymmetric }
    ensures below_then_at_most { BelowThenAtMost }
    ensures at_most_then_below { AtMostThenBelow }
    ensures below_is_at_most { BelowIsAtMost }
{}
