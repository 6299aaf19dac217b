//! The candidate that the words of a step make of a plan.
ghost use Rattle.std.specs.Prelude.{◌≡◌, is_some, IfOk, IfSome, OnOk};
ghost use Rattle.move_ops.specs.Drafts.{base_of, draft_of, IsDraftOf, IsMade};
ghost use Rattle.seeded_search.specs.SpatialIndex.{AreNearestStopLists};
ghost use Rattle.seeded_search.specs.Steps.{unplanned_names};
ghost use Rattle.seeded_search.specs.SearchStates.{AreListsOf, IsMadeIfNear};
ghost use Rattle.anneal_search.specs.Absences.{HoldLeftOut};
ghost use Rattle.anneal_search.specs.Annealing.{candidate};
ghost use Rattle.anneal_search.specs.StepLoops.{ruined};

use crate::missing_names::with_names;
use crate::orders::ordered;
use crate::strings::ruined_names;
use move_ops::Draft;
use plan_types::{OutOfMemory, requests_are_found_by_stop, requests_are_stored_by_name};
use seeded_search::{
    RequestLists, SearchContext, SpatialIndex, Threshold, place_all, place_all_if_near,
};
use std::alloc::Global;

/// Turns the draft into the candidate of these words, if there is one: removes the requests of some strings and
/// inserts all unplanned ones. Returns the names of all requests that were unplanned before the insertions. The
/// requests that the draft still leaves out are among them.
pub(crate) fn make(
    alloc: Global,
    context: &SearchContext,
    draft: &mut Draft,
    lists: &RequestLists,
    spatial_index: &mut SpatialIndex,
    words: &[u32; 16],
) -> Result<Option<Vec<u32>>, OutOfMemory>
    requires draft { IsDraftOf context.now.problem.now context.now.pins.now.routes draft.old }
    requires lists { let c = context.now in
        AreListsOf c.problem.now c.pins.now.routes (draft_of draft.old) lists.now }
    requires nearest_stops { AreNearestStopLists context.now.problem.now spatial_index.old }
    ensures is { let c = context.now in
        OnOk result (IsDraftOf c.problem.now c.pins.now.routes draft.new) }
    ensures base { OnOk result (base_of draft.new ≡ base_of draft.old) }
    ensures nearest_stops { OnOk result
        (AreNearestStopLists context.now.problem.now spatial_index.new) }
    ensures made { let c = context.now in IfOk result (λ made.
        IsMade (candidate c.problem.now c.pins.now.routes (draft_of draft.old) words.now)
        (is_some made) draft.old draft.new) }
    ensures left { IfOk result (λ made. IfSome made (λ names.
        HoldLeftOut context.now.problem.now (draft_of draft.new) names.items)) }
{
    let Some(missing) = remove_requests(alloc, context, draft, lists, spatial_index, words)? else {
        return Ok(None);
    };
    let order = ordered(alloc, context.problem, words[2], &missing)?;
    place_all(context, draft, &order)?;
    Ok(Some(missing))
}

/// Like `make`, but the candidate has to pass the threshold `near`. The draft is discarded as soon as it is
/// known that the candidate will not pass it. Returns whether there is a candidate.
pub(crate) fn make_candidate_near(
    context: &SearchContext,
    draft: &mut Draft,
    lists: &RequestLists,
    spatial_index: &mut SpatialIndex,
    words: &[u32; 16],
    near: &Threshold,
) -> Result<bool, OutOfMemory>
    requires draft { IsDraftOf context.now.problem.now context.now.pins.now.routes draft.old }
    requires settled { draft_of draft.old ≡ base_of draft.old }
    requires lists { let c = context.now in
        AreListsOf c.problem.now c.pins.now.routes (draft_of draft.old) lists.now }
    requires nearest_stops { AreNearestStopLists context.now.problem.now spatial_index.old }
    ensures is { let c = context.now in
        OnOk result (IsDraftOf c.problem.now c.pins.now.routes draft.new) }
    ensures base { OnOk result (base_of draft.new ≡ base_of draft.old) }
    ensures nearest_stops { OnOk result
        (AreNearestStopLists context.now.problem.now spatial_index.new) }
    ensures made { let c = context.now in IfOk result (λ made.
        IsMadeIfNear c.problem.now near.now.deviation near.now.best.now
        (candidate c.problem.now c.pins.now.routes (draft_of draft.old) words.now) made
        draft.old draft.new) }
{
    let alloc = *lists.movable.allocator();
    let Some(missing) = remove_requests(alloc, context, draft, lists, spatial_index, words)? else {
        return Ok(false);
    };
    let order = ordered(alloc, context.problem, words[2], &missing)?;
    place_all_if_near(context, draft, &order, near)
}

// Removes the requests of some strings, if there are any, and returns the names of all requests that are
// unplanned then.
fn remove_requests(
    alloc: Global,
    context: &SearchContext,
    draft: &mut Draft,
    lists: &RequestLists,
    spatial_index: &mut SpatialIndex,
    words: &[u32; 16],
) -> Result<Option<Vec<u32>>, OutOfMemory>
    requires draft { IsDraftOf context.now.problem.now context.now.pins.now.routes draft.old }
    requires lists { let c = context.now in
        AreListsOf c.problem.now c.pins.now.routes (draft_of draft.old) lists.now }
    requires nearest_stops { AreNearestStopLists context.now.problem.now spatial_index.old }
    ensures is { let c = context.now in
        OnOk result (IsDraftOf c.problem.now c.pins.now.routes draft.new) }
    ensures base { OnOk result (base_of draft.new ≡ base_of draft.old) }
    ensures nearest_stops { OnOk result
        (AreNearestStopLists context.now.problem.now spatial_index.new) }
    ensures taken { let c = context.now in IfOk result (λ missing.
        IsMade (ruined c.problem.now c.pins.now.routes (draft_of draft.old) words.now)
        (is_some missing) draft.old draft.new) }
    ensures missing { IfOk result (λ missing. IfSome missing (λ names.
        names.items ≡ unplanned_names context.now.problem.now (draft_of draft.new))) }
{
    requests_are_found_by_stop();
    requests_are_stored_by_name();
    let names = ruined_names(alloc, context, draft, spatial_index, &lists.movable, words)?;
    if names.is_empty() {
        return Ok(None);
    }
    let missing = with_names(alloc, &lists.unplanned, &names)?;
    if !draft.remove(context.problem, context.pins, &names)? {
        return Ok(None);
    }
    Ok(Some(missing))
}
