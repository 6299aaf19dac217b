//! The candidates that a step's words make from a plan. The first word picks one of four operators.
//!
//! By the definition, a removed request without an insertion stays unplanned. If only one request is removed,
//! its old place is always an insertion. So a relocated request is inserted again, and the plan costs no more
//! (`relocated_never_cost_more`).
ghost use Rattle.std.specs.Prelude.{◌≡◌, ◌+◌, IfOk, OnOk, take, drop, slice_index};
ghost use Rattle.seeded_search.specs.Words.{pick};
ghost use Rattle.move_ops.specs.Drafts.{base_of, draft_of, IsDraftOf};
ghost use Rattle.seeded_search.specs.SearchStates.{AreListsOf, IsMadeIfNear};
ghost use Rattle.seeded_search.specs.Steps.{candidate, drawn, movable_names, relocated, exchanged_by, crossed_by, cut_by, recreated_by};

use crate::candidate_threshold::Threshold;
use crate::draws::{drawn, picked, picked_vehicle, place};
use crate::lists::{RequestLists, used_vehicles};
use crate::pick;
use crate::placing::place_all_if_near;
use crate::search_context::SearchContext;
use move_ops::{Draft, route_of};
use plan_audit::passing_is_local;
use plan_types::{OutOfMemory, Pins};
use std::alloc::Global;

/// Turns the draft into the candidate of a step's words, if there is one: one request is relocated, two are
/// exchanged, two routes exchange their ends, or up to eight requests are removed and inserted again. A
/// candidate that is known to be far from the incumbent (`is_near` fails) is not made. Returns whether the
/// draft is the candidate.
#[tactic(auto, unfolding(crate::specs::Steps::candidate), using(crate::proofs::SearchLemmas::made_near))]
pub(crate) fn make(
    alloc: Global,
    context: &SearchContext,
    draft: &mut Draft,
    lists: &RequestLists,
    words: &[u32; 16],
    near: &Threshold,
) -> Result<bool, OutOfMemory>
    requires draft { IsDraftOf context.now.problem.now context.now.pins.now.routes draft.old }
    requires settled { draft_of draft.old ≡ base_of draft.old }
    requires lists { let c = context.now in
        AreListsOf c.problem.now c.pins.now.routes (draft_of draft.old) lists.now }
    ensures is { let c = context.now in
        OnOk result (IsDraftOf c.problem.now c.pins.now.routes draft.new) }
    ensures base { OnOk result (base_of draft.new ≡ base_of draft.old) }
    ensures made { let c = context.now in IfOk result (λ made.
        IsMadeIfNear c.problem.now near.now.deviation near.now.best.now
        (candidate c.problem.now c.pins.now.routes (draft_of draft.old) words.now) made
        draft.old draft.new) }
{
    match pick(words[0], 4) {
        0 => relocate(context, draft, &lists.movable, words[1], near),
        1 => exchange(context, draft, &lists.movable, words, near),
        2 => cross(alloc, context, draft, words, near),
        _ => recreate(alloc, context, draft, lists, words, near),
    }
}

// Removes a request and inserts it at its best place, unless the draft would then be far from the incumbent.
#[tactic(auto, using(crate::proofs::SearchLemmas::made_near))]
fn relocate(
    context: &SearchContext,
    draft: &mut Draft,
    movable: &[u32],
    word: u32,
    near: &Threshold,
) -> Result<bool, OutOfMemory>
    requires draft { IsDraftOf context.now.problem.now context.now.pins.now.routes draft.old }
    requires settled { draft_of draft.old ≡ base_of draft.old }
    requires movable { let c = context.now in
        movable.now ≡ movable_names c.problem.now c.pins.now.routes (draft_of draft.old) }
    ensures is { let c = context.now in
        OnOk result (IsDraftOf c.problem.now c.pins.now.routes draft.new) }
    ensures base { OnOk result (base_of draft.new ≡ base_of draft.old) }
    ensures made { let c = context.now in IfOk result (λ made.
        IsMadeIfNear c.problem.now near.now.deviation near.now.best.now
        (relocated c.problem.now c.pins.now.routes (draft_of draft.old) word) made draft.old
        draft.new) }
{
    let Some(name) = picked(word, movable) else {
        return Ok(false);
    };
    if !draft.remove(context.problem, context.pins, &[name])? {
        return Ok(false);
    }
    place_all_if_near(context, draft, &[name], near)
}

// Exchanges two requests, unless it is known that the draft would then be far from the incumbent.
#[tactic(auto, using(crate::proofs::SearchLemmas::made_near, crate::proofs::SearchLemmas::foreseen_far))]
fn exchange(
    context: &SearchContext,
    draft: &mut Draft,
    movable: &[u32],
    words: &[u32; 16],
    near: &Threshold,
) -> Result<bool, OutOfMemory>
    requires draft { IsDraftOf context.now.problem.now context.now.pins.now.routes draft.old }
    requires movable { let c = context.now in
        movable.now ≡ movable_names c.problem.now c.pins.now.routes (draft_of draft.old) }
    ensures is { let c = context.now in
        OnOk result (IsDraftOf c.problem.now c.pins.now.routes draft.new) }
    ensures base { OnOk result (base_of draft.new ≡ base_of draft.old) }
    ensures made { let c = context.now in IfOk result (λ made.
        IsMadeIfNear c.problem.now near.now.deviation near.now.best.now
        (exchanged_by c.problem.now c.pins.now.routes (draft_of draft.old) (slice_index words.now 1)
        (slice_index words.now 2)) made draft.old draft.new) }
{
    let Some(a) = picked(words[1], movable) else {
        return Ok(false);
    };
    let Some(b) = picked(words[2], movable) else {
        return Ok(false);
    };
    if near.is_far(draft.exchange_cost(context.problem, context.pins, a, b)) {
        return Ok(false);
    }
    draft.exchange(context.problem, context.pins, a, b)
}

// Exchanges the ends of two routes, unless it is known that the draft would then be far from the incumbent.
#[tactic(auto, using(crate::proofs::SearchLemmas::made_near, crate::proofs::SearchLemmas::foreseen_far))]
fn cross(
    alloc: Global,
    context: &SearchContext,
    draft: &mut Draft,
    words: &[u32; 16],
    near: &Threshold,
) -> Result<bool, OutOfMemory>
    requires { IsDraftOf context.now.problem.now context.now.pins.now.routes draft.old }
    ensures is { let c = context.now in
        OnOk result (IsDraftOf c.problem.now c.pins.now.routes draft.new) }
    ensures base { OnOk result (base_of draft.new ≡ base_of draft.old) }
    ensures made { let c = context.now in IfOk result (λ made.
        IsMadeIfNear c.problem.now near.now.deviation near.now.best.now
        (crossed_by c.problem.now c.pins.now.routes (draft_of draft.old) words.now) made
        draft.old draft.new) }
{
    passing_is_local();
    let used = used_vehicles(alloc, draft)?;
    let Some(a) = picked_vehicle(words[1], &used) else {
        return Ok(false);
    };
    let Some(b) = picked_vehicle(words[2], &used) else {
        return Ok(false);
    };
    let a_cut = cut(context.pins, draft, a, words[3]);
    let b_cut = cut(context.pins, draft, b, words[4]);
    if near.is_far(draft.cross_cost(context.problem, context.pins, a, a_cut, b, b_cut)) {
        return Ok(false);
    }
    draft.cross(context.problem, context.pins, a, a_cut, b, b_cut)
}

// Returns the number of stops before the cut that the word makes in the vehicle's route. The cut is never within
// the pin.
fn cut(pins: &Pins, draft: &Draft, vehicle: u64, word: u32) -> u64
    ensures { result ≡ cut_by pins.now.routes (draft_of draft.now) vehicle word }
{
    let kept = route_of(pins.routes.as_slice(), vehicle).len();
    let free = draft.route(vehicle).len().saturating_sub(kept);
    (kept + place(word, free + 1)) as u64
}

// Removes requests, then inserts each of them and each that was unplanned before at its best place, unless the
// draft would then be far from the incumbent.
#[tactic(auto, using(crate::proofs::SearchLemmas::made_near))]
fn recreate(
    alloc: Global,
    context: &SearchContext,
    draft: &mut Draft,
    lists: &RequestLists,
    words: &[u32; 16],
    near: &Threshold,
) -> Result<bool, OutOfMemory>
    requires draft { IsDraftOf context.now.problem.now context.now.pins.now.routes draft.old }
    requires settled { draft_of draft.old ≡ base_of draft.old }
    requires lists { let c = context.now in
        AreListsOf c.problem.now c.pins.now.routes (draft_of draft.old) lists.now }
    ensures is { let c = context.now in
        OnOk result (IsDraftOf c.problem.now c.pins.now.routes draft.new) }
    ensures base { OnOk result (base_of draft.new ≡ base_of draft.old) }
    ensures made { let c = context.now in IfOk result (λ made.
        IsMadeIfNear c.problem.now near.now.deviation near.now.best.now
        (recreated_by c.problem.now c.pins.now.routes (draft_of draft.old) words.now) made
        draft.old draft.new) }
{
    let mut names = ruined_names(alloc, &lists.movable, words)?;
    if names.is_empty() {
        return Ok(false);
    }
    if !draft.remove(context.problem, context.pins, &names)? {
        return Ok(false);
    }
    names.extend_from_slice(&lists.unplanned)?;
    place_all_if_near(context, draft, &names, near)
}

// Returns the names of the requests to remove, one to eight, in the order drawn.
fn ruined_names(alloc: Global, movable: &[u32], words: &[u32; 16]) -> Result<Vec<u32>, OutOfMemory>
    ensures { IfOk result (λ names. names.items
        ≡ drawn (take (1 + pick (slice_index words.now 1) 8) (drop 2 words.now)) movable.now) }
{
    let count = 1 + pick(words[1], 8) as usize;
    drawn(alloc, &words[2..2 + count], movable)
}
