//! The stops of a route after two requests are exchanged.
ghost use Rattle.std.specs.Prelude.{◌≡◌, map, IfOk};
ghost use Rattle.move_ops.specs.Moves.{have_same_form, swapped, counterpart};

use plan_types::{OutOfMemory, Request, Route};
use std::alloc::Global;

/// Returns whether both are singles or both are pairs.
pub(crate) fn have_same_form(first: &Request, second: &Request) -> bool
    ensures { result ≡ have_same_form first.now second.now }
{
    match (first, second) {
        (Request::Single(_), Request::Single(_)) | (Request::Pair(_, _), Request::Pair(_, _)) => {
            true
        }
        _ => false,
    }
}

/// Returns the route with each stop of one request replaced by its counterpart in the other.
pub(crate) fn counterparts(
    alloc: Global,
    route: &[u32],
    first: &Request,
    second: &Request,
) -> Result<Route, OutOfMemory>
    ensures { IfOk result (λ new. new ≡ map (counterpart first.now second.now) route.now) }
{
    let mut new = Route::with_capacity(alloc, route.len())?;
    for stop in route {
        new.push(counterpart(first, second, *stop))?;
    }
    Ok(new)
}

// Returns the stop that takes the place of `stop`. It is `stop` itself if `stop` belongs to neither request.
fn counterpart(first: &Request, second: &Request, stop: u32) -> u32
    ensures { result ≡ counterpart first.now second.now stop }
{
    match (first, second) {
        (Request::Single(one), Request::Single(other)) => swapped(one.number, other.number, stop),
        (Request::Pair(pickup, delivery), Request::Pair(other, end)) => swapped(
            pickup.number,
            other.number,
            swapped(delivery.number, end.number, stop),
        ),
        _ => stop,
    }
}

fn swapped(a: u32, b: u32, n: u32) -> u32
    ensures { result ≡ swapped a b n }
{
    if n == a {
        return b;
    }
    if n == b {
        return a;
    }
    n
}
