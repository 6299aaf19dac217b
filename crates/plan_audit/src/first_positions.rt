//! The first position of each stop in a plan.
ghost use Rattle.std.specs.Prelude.{◌≡◌, ℕ, ◌<◌, length, vec_len, IfOk, List, None, slice_index_or};
ghost use Rattle.std.specs.Option.{option_or};
ghost use Rattle.plan_audit.specs.FirstFault.{position_in, position_of};

use plan_types::{OutOfMemory, Route};
use std::alloc::Global;

/// A position in a plan. Routes and places count from 0.
#[derive(Clone, Copy)]
pub(crate) struct StopPosition {
    pub route: usize,
    pub place: usize,
}

/// Returns the first position of each stop number below `len`, indexed by number.
pub(crate) fn first_positions(
    alloc: Global,
    len: usize,
    routes: &[Route],
) -> Result<Vec<Option<StopPosition>>, OutOfMemory>
    ensures len { IfOk result (λ first_positions. vec_len first_positions ≡ len) }
    ensures first { IfOk result (λ first_positions. (n : ℕ) → n < len
        → slice_index_or first_positions.items n None ≡ position_of routes.now n) }
{
    let mut first_positions = vec![in alloc; None; len]?;
    for (number, route) in routes.iter().enumerate() {
        note_positions(&mut first_positions, number, route.as_slice());
    }
    Ok(first_positions)
}

// Records the stops of one route that have no position yet.
fn note_positions(first_positions: &mut [Option<StopPosition>], route: usize, stops: &[u32])
    ensures { (n : ℕ) → n < length first_positions.old
        → slice_index_or first_positions.new n None
        ≡ option_or (slice_index_or first_positions.old n None) (position_in n route stops.now) }
{
    for (place, stop) in stops.iter().enumerate() {
        let stop = *stop as usize;
        if stop < first_positions.len() && first_positions[stop].is_none() {
            first_positions[stop] = Some(StopPosition { route, place });
        }
    }
}
