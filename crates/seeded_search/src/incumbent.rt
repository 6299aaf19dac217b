//! The incumbent's routes. When a candidate becomes the incumbent, only the routes that differ are copied.
ghost use Rattle.std.specs.Prelude.{◌≡◌, ◌≤◌, ◌<◌, ℕ, OnOk, length};
ghost use Rattle.move_ops.specs.Drafts.{draft_of, AreIdleAfter};

use move_ops::Draft;
use plan_types::{OutOfMemory, Route, Routes};
use std::alloc::Global;

/// Copies the draft's routes into `routes`. Equal routes are skipped, so few are copied. The caller guarantees
/// that no vehicle after the first `used_len` has a stop in `routes`.
pub(crate) fn copy_draft(
    alloc: Global,
    draft: &Draft,
    routes: &mut Routes,
    used_len: u64,
) -> Result<(), OutOfMemory>
    requires long { length routes.old ≡ length (draft_of draft.now) }
    requires idle { AreIdleAfter used_len routes.old }
    ensures { OnOk result (routes.new ≡ draft_of draft.now) }
{
    for index in 0..reach(routes, used_len, draft.used_len()) {
        let stops = draft.route(index as u64 + 1);
        if routes.as_slice()[index].as_slice() != stops {
            routes.set(index, Route::from(Vec::from_slice(alloc, stops)?));
        }
    }
    Ok(())
}

// Returns how many routes have to be compared. No vehicle after `used_len` has stops in one plan, and none after
// `other` in the other plan.
fn reach(routes: &Routes, used_len: u64, other: u64) -> usize
    ensures within { result ≤ length routes.now }
    ensures enough { (v : ℕ) → result < v → v ≤ length routes.now → (used_len < v) × (other < v) }
{
    let vehicles = routes.as_slice().len();
    let both = used_len.max(other);
    if both < vehicles as u64 {
        return both as usize;
    }
    vehicles
}
