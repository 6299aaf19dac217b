//! Requests inserted into a draft one after another, each at its best place at that time.
//!
//! If the draft has to pass a threshold, no more requests are inserted once that is impossible: the draft
//! leaves too many requests unplanned, uses too many vehicles, or has too long a distance.
//!
//! An inserted request lowers the number of unplanned requests by at most one, the number of vehicles not at
//! all, and the distance by at most 1 for each of its stops (`placements_save_little`). So if one more
//! unplanned request would be too many, the next request has to add less than a bound, and this bound rules out
//! most routes.
ghost use Rattle.std.specs.Prelude.{◌≡◌, sum_by, IfOk, OnOk};
ghost use Rattle.move_ops.specs.Drafts.{base_of, draft_of, IsDraftOf};
ghost use Rattle.move_ops.specs.Savings.{max_saving as max_saving_of};
ghost use Rattle.seeded_search.specs.Steps.{placed_all};
ghost use Rattle.seeded_search.specs.SearchStates.{AreAllPlacedOrFar, IsPlacedOrFar};

use crate::candidate_threshold::{Outlook, Threshold};
use crate::search_context::SearchContext;
use move_ops::{Draft, max_saving, placements_save_little};
use plan_types::{OutOfMemory, Problem};

/// Inserts the requests one after another, each at its best place at that time. A request without a place stays
/// unplanned.
pub fn place_all(
    context: &SearchContext,
    draft: &mut Draft,
    names: &[u32],
) -> Result<(), OutOfMemory>
    requires { IsDraftOf context.now.problem.now context.now.pins.now.routes draft.old }
    ensures is { let c = context.now in
        OnOk result (IsDraftOf c.problem.now c.pins.now.routes draft.new) }
    ensures base { OnOk result (base_of draft.new ≡ base_of draft.old) }
    ensures draft { let c = context.now in OnOk result (draft_of draft.new
        ≡ placed_all c.problem.now c.pins.now.routes (draft_of draft.old) names.now) }
{
    for name in names {
        draft.place(context.problem, context.pins, *name)?;
    }
    Ok(())
}

/// Like `place_all`, but discards the draft as soon as it is known that it will not pass the threshold, even
/// with all requests inserted. Returns whether the draft was completed.
pub fn place_all_if_near(
    context: &SearchContext,
    draft: &mut Draft,
    names: &[u32],
    near: &Threshold,
) -> Result<bool, OutOfMemory>
    requires { IsDraftOf context.now.problem.now context.now.pins.now.routes draft.old }
    ensures is { let c = context.now in
        OnOk result (IsDraftOf c.problem.now c.pins.now.routes draft.new) }
    ensures base { OnOk result (base_of draft.new ≡ base_of draft.old) }
    ensures made { let c = context.now in IfOk result (λ made.
        AreAllPlacedOrFar c.problem.now c.pins.now.routes near.now.deviation near.now.best.now
        names.now made draft.old draft.new) }
{
    placements_save_little();
    let mut following = names.len() as u64;
    let mut rest = total_saving(context.problem, names);
    for name in names {
        following -= 1;
        rest -= u128::from(max_saving(context.problem, *name));
        if !place_if_near(context, draft, *name, near, following, rest)? {
            draft.discard();
            return Ok(false);
        }
    }
    Ok(true)
}

// Inserts a request at its best place, and returns whether it did. It does not if the draft would then be far from
// the threshold, wherever the `following` later requests are inserted. These save at most `rest`.
fn place_if_near(
    context: &SearchContext,
    draft: &mut Draft,
    name: u32,
    near: &Threshold,
    following: u64,
    rest: u128,
) -> Result<bool, OutOfMemory>
    requires { IsDraftOf context.now.problem.now context.now.pins.now.routes draft.old }
    ensures is { let c = context.now in
        OnOk result (IsDraftOf c.problem.now c.pins.now.routes draft.new) }
    ensures base { OnOk result (base_of draft.new ≡ base_of draft.old) }
    ensures made { let c = context.now in IfOk result (λ made.
        IsPlacedOrFar c.problem.now c.pins.now.routes near.now.deviation near.now.best.now name
        following rest made (draft_of draft.old) (draft_of draft.new)) }
{
    placements_save_little();
    let cost = draft.cost(context.problem, context.pins);
    match near.outlook(&cost, following, rest) {
        Outlook::Far => Ok(false),
        Outlook::Open => {
            draft.place(context.problem, context.pins, name)?;
            Ok(true)
        }
        Outlook::Below(below) => draft.place_below(context.problem, context.pins, name, below),
    }
}

// Returns the greatest distance that these requests can save.
fn total_saving(problem: &Problem, names: &[u32]) -> u128
    ensures { result ≡ sum_by (max_saving_of problem.now) names.now }
{
    let mut saved = 0;
    for name in names {
        saved += u128::from(max_saving(problem, *name));
    }
    saved
}
