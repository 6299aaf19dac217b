//! The test that decides whether a candidate is near enough to the incumbent to become the working plan
//! (record-to-record travel, Dueck 1993).
ghost use Rattle.std.specs.Prelude.{◌≡◌, ◌+◌, pos, ◌+ℤ◌, false, IfSome, IsTrue, IsSomeAnd};
ghost use Rattle.seeded_search.specs.Steps.{is_near};
ghost use Rattle.seeded_search.specs.SearchStates.{IsOutlook};

use plan_types::Cost;

/// Returns whether a plan of this cost may become the working plan when the incumbent costs `best`. It may if
/// it has fewer unplanned requests; or equally many, and fewer vehicles; or equally many of both, and its
/// distance is greater by at most `deviation`.
pub fn is_near(deviation: u32, cost: &Cost, best: &Cost) -> bool
    ensures { result ≡ is_near deviation cost.now best.now }
{
    if cost.unplanned != best.unplanned {
        return cost.unplanned < best.unplanned;
    }
    if cost.vehicles != best.vehicles {
        return cost.vehicles < best.vehicles;
    }
    cost.distance.saturating_sub(best.distance) <= u64::from(deviation)
}

/// The threshold that a candidate passes if its cost is near that of a given plan, by `is_near`.
#[derive(Clone, Copy)]
pub struct Threshold<'a> {
    /// The greatest additional distance.
    pub deviation: u32,
    /// The cost of the plan.
    pub best: &'a Cost,
}

/// The outlook of a draft into which more requests are inserted, one after another: whether it can still be
/// near in the end.
pub(crate) enum Outlook {
    /// The draft with all these requests is not near, wherever they are inserted.
    Far,
    /// The draft with all these requests may be near, wherever the next one is inserted.
    Open,
    /// The draft with all these requests is near only if the next one adds less than this distance and opens no
    /// vehicle.
    Below(i64),
}

impl Threshold<'_> {
    /// Returns whether a draft of this cost is not near. Returns `false` if the cost is not known.
    pub(crate) fn is_far(&self, cost: Option<Cost>) -> bool
        ensures { IsTrue result
            → IsSomeAnd cost (λ k. is_near self.now.deviation k self.now.best.now ≡ false) }
    {
        match cost {
            Some(cost) => !is_near(self.deviation, &cost, self.best),
            None => false,
        }
    }

    /// Returns the outlook of a draft of this cost into which one request is inserted and then `following` more,
    /// which save at most `rest` of the distance. If the draft may still end with fewer unplanned requests than
    /// `best`, or with as many and fewer vehicles, it may be near wherever the next request is inserted.
    pub(crate) fn outlook(&self, cost: &Cost, following: u64, rest: u128) -> Outlook
        ensures { IsOutlook self.now.deviation self.now.best.now cost.now following rest result }
    {
        let most = u128::from(self.best.unplanned) + u128::from(following) + 1;
        let unplanned = u128::from(cost.unplanned);
        if unplanned > most {
            return Outlook::Far;
        }
        if unplanned < most || cost.vehicles < self.best.vehicles {
            return Outlook::Open;
        }
        if cost.vehicles > self.best.vehicles {
            return Outlook::Far;
        }
        match self.bound(cost, rest) {
            Some(below) => Outlook::Below(below),
            None => Outlook::Open,
        }
    }

    // Returns the bound below which the distance added by the next request has to be, if later requests save at
    // most `rest`. Returns `None` if the numbers are too large.
    fn bound(&self, cost: &Cost, rest: u128) -> Option<i64>
        ensures { IfSome result (λ below. pos cost.now.distance +ℤ below
            ≡ pos (self.now.best.now.distance + self.now.deviation + rest + 1)) }
    {
        let most = self.best.distance.checked_add(u64::from(self.deviation))?;
        let most = most.checked_add(u64::try_from(rest).ok()?)?.checked_add(1)?;
        let most = i64::try_from(most).ok()?;
        let distance = i64::try_from(cost.distance).ok()?;
        Some(most - distance)
    }
}
