//! Unplanned requests, found by marks at the planned stops.
ghost use Rattle.std.specs.Prelude.{◌≡◌, ◌<◌, ◌||◌, false, not, IfOk, slice_get, slice_index_or};
ghost use Rattle.std.specs.Option.{option_and_then};
ghost use Rattle.seeded_search.specs.Names.{name_where, names_where};
ghost use Rattle.seeded_search.specs.Steps.{unplanned_names};
ghost use Rattle.command_core.specs.Marks.{is_marked};

use move_ops::marks;
use plan_types::{OutOfMemory, Problem, Request, Route, numbers_are_below_next_number};
use std::alloc::Global;

/// Returns the names of the requests without a stop in any route, in ascending order. Takes time linear in the
/// problem and the routes.
pub fn unplanned_names(
    alloc: Global,
    problem: &Problem,
    routes: &[Route],
) -> Result<Vec<u32>, OutOfMemory>
    ensures { IfOk result (λ names. names.items ≡ unplanned_names problem.now routes.now) }
{
    numbers_are_below_next_number();
    let planned = marks(alloc, routes, problem.next_number as usize)?;
    unmarked_names(alloc, problem, &planned)
}

// Returns the names of the requests without a marked stop.
fn unmarked_names(
    alloc: Global,
    problem: &Problem,
    planned: &[bool],
) -> Result<Vec<u32>, OutOfMemory>
    ensures { IfOk result (λ names. names.items ≡ names_where
        (λ r. not (is_marked planned.now r)) problem.now.requests) }
{
    let mut names = Vec::new(alloc);
    for index in 0..problem.requests.len() {
        if let Some(name) = unmarked_name(problem, planned, index) {
            names.push(name)?;
        }
    }
    Ok(names)
}

fn unmarked_name(problem: &Problem, planned: &[bool], index: usize) -> Option<u32>
    ensures { result ≡ option_and_then (name_where (λ r. not (is_marked planned.now r)))
        (slice_get problem.now.requests index) }
{
    let (name, request) = problem.requests.get_index(index)?;
    if is_marked(planned, request) {
        None
    } else {
        Some(*name)
    }
}

fn is_marked(marks: &[bool], request: &Request) -> bool
    ensures { result ≡ is_marked marks.now request.now }
{
    match request {
        Request::Single(stop) => mark(marks, stop.number),
        Request::Pair(pickup, delivery) => {
            mark(marks, pickup.number) || mark(marks, delivery.number)
        }
    }
}

fn mark(marks: &[bool], stop: u32) -> bool
    ensures { result ≡ slice_index_or marks.now stop false }
{
    marks.get(stop as usize).copied().unwrap_or(false)
}
