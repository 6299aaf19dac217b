//! The lists that a step draws from: the names of movable and of unplanned requests, and the used vehicles.
ghost use Rattle.std.specs.Prelude.{◌≡◌, ◌≤◌, not, IfOk, OnOk, length, slice_get};
ghost use Rattle.std.specs.Option.{option_and_then};
ghost use Rattle.route_sched.specs.Cost.{is_planned};
ghost use Rattle.move_ops.specs.Moves.{is_movable};
ghost use Rattle.move_ops.specs.Drafts.{draft_of, IsDraftOf};
ghost use Rattle.seeded_search.specs.Names.{name_where};
ghost use Rattle.seeded_search.specs.Steps.{movable_names, unplanned_names, used_vehicles};
ghost use Rattle.seeded_search.specs.SearchStates.{AreListsOf};

use move_ops::Draft;
use plan_types::{OutOfMemory, Pins, Problem};
use std::alloc::Global;

/// Names of requests, in ascending order.
#[derive(Debug, Drop)]
pub struct RequestLists {
    /// The planned requests without a pinned stop.
    pub movable: Vec<u32>,
    /// The requests without a stop in any route.
    pub unplanned: Vec<u32>,
}

impl RequestLists {
    /// Builds the lists of a plan.
    pub fn build(
        alloc: Global,
        problem: &Problem,
        pins: &Pins,
        draft: &Draft,
    ) -> Result<RequestLists, OutOfMemory>
        requires { IsDraftOf problem.now pins.now.routes draft.now }
        ensures { IfOk result (λ lists.
            AreListsOf problem.now pins.now.routes (draft_of draft.now) lists) }
    {
        let mut lists = RequestLists {
            movable: Vec::new(alloc),
            unplanned: Vec::new(alloc),
        };
        lists.fill(problem, pins, draft)?;
        Ok(lists)
    }

    /// Refills the lists for a plan.
    pub fn fill(&mut self, problem: &Problem, pins: &Pins, draft: &Draft) -> Result<(), OutOfMemory>
        requires { IsDraftOf problem.now pins.now.routes draft.now }
        ensures { OnOk result (AreListsOf problem.now pins.now.routes
            (draft_of draft.now) self.new) }
    {
        list_movable(problem, pins, draft, &mut self.movable)?;
        list_unplanned(problem, draft, &mut self.unplanned)
    }
}

// Lists the planned requests without a pinned stop.
fn list_movable(
    problem: &Problem,
    pins: &Pins,
    draft: &Draft,
    names: &mut Vec<u32>,
) -> Result<(), OutOfMemory>
    requires { IsDraftOf problem.now pins.now.routes draft.now }
    ensures { OnOk result (names.new.items
        ≡ movable_names problem.now pins.now.routes (draft_of draft.now)) }
{
    names.clear();
    for index in 0..problem.requests.len() {
        if let Some(name) = movable_name(problem, pins, draft, index) {
            names.push(name)?;
        }
    }
    Ok(())
}

// Returns the name of the request at this index if it is movable.
fn movable_name(problem: &Problem, pins: &Pins, draft: &Draft, index: usize) -> Option<u32>
    requires { IsDraftOf problem.now pins.now.routes draft.now }
    ensures { result ≡ option_and_then
        (name_where (is_movable pins.now.routes (draft_of draft.now)))
        (slice_get problem.now.requests index) }
{
    let (name, request) = problem.requests.get_index(index)?;
    if draft.is_movable(problem, pins, request) {
        Some(*name)
    } else {
        None
    }
}

// Lists the requests without a stop in any route.
fn list_unplanned(problem: &Problem, draft: &Draft, names: &mut Vec<u32>) -> Result<(), OutOfMemory>
    ensures { OnOk result (names.new.items ≡ unplanned_names problem.now (draft_of draft.now)) }
{
    names.clear();
    for index in 0..problem.requests.len() {
        if let Some(name) = unplanned_name(problem, draft, index) {
            names.push(name)?;
        }
    }
    Ok(())
}

fn unplanned_name(problem: &Problem, draft: &Draft, index: usize) -> Option<u32>
    ensures { result ≡ option_and_then (name_where (λ r. not (is_planned (draft_of draft.now) r)))
        (slice_get problem.now.requests index) }
{
    let (name, request) = problem.requests.get_index(index)?;
    if draft.is_planned(request) {
        None
    } else {
        Some(*name)
    }
}

/// Returns the vehicles whose routes are not empty, in ascending order. Vehicles count from 1.
pub(crate) fn used_vehicles(alloc: Global, draft: &Draft) -> Result<Vec<u64>, OutOfMemory>
    ensures { IfOk result (λ used. used.items ≡ used_vehicles (draft_of draft.now)) }
{
    let mut used = Vec::with_capacity(alloc, draft.used_len() as usize)?;
    for index in 0..draft.used_len() {
        let vehicle = index + 1;
        if !draft.route(vehicle).is_empty() {
            used.push(vehicle)?;
        }
    }
    Ok(used)
}
