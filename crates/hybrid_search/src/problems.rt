//! The network of a problem, and plans from individuals.
ghost use Rattle.std.specs.Prelude.{◌≡◌};
ghost use Rattle.hybrid_search.specs.Bred.{is_accepted};

use crate::cells::item;
use crate::individual::Individual;
use crate::network::Network;
use plan_types::{Kind, OutOfMemory, Plan, Problem, Request, Route, Routes, Stop};
use route_sched::used_count;
use std::alloc::Global;

/// The most requests of a problem for this search. For more, annealing is better.
pub const MOST_REQUESTS: usize = 300;

/// Returns whether the search is for this problem: one without times that is not too large.
pub fn is_accepted(problem: &Problem) -> bool
    ensures { result ≡ is_accepted problem.now }
{
    match problem.kind {
        Kind::Vrp => problem.requests.len() <= MOST_REQUESTS,
        Kind::LiLim => false,
    }
}

/// Returns the network of the requests that a vehicle can carry.
pub(crate) fn network_of(
    alloc: Global,
    problem: &Problem,
    built: &Plan,
) -> Result<Network, OutOfMemory> {
    let stops = stops(alloc, problem)?;
    let used = used_count(built.routes.as_slice());
    let used = u32::try_from(used).unwrap_or(u32::MAX);
    Network::new(alloc, &stops, problem.capacity, problem.fleet, used)
}

// Returns the depot and the stops that a vehicle can carry. Pairs are left out.
fn stops(alloc: Global, problem: &Problem) -> Result<Vec<Stop>, OutOfMemory> {
    let mut stops = Vec::new(alloc);
    stops.push(problem.depot)?;
    for index in 0..problem.requests.len() {
        if let Some((_, Request::Single(stop))) = problem.requests.get_index(index) {
            if i64::from(stop.demand) <= i64::from(problem.capacity) {
                stops.push(*stop)?;
            }
        }
    }
    Ok(stops)
}

/// Returns the plan of an individual, or one without stops if there is none. The vehicles that it does not need stay
/// at the depot.
pub(crate) fn plan_of(
    alloc: Global,
    fleet: u32,
    network: &Network,
    individual: Option<&Individual>,
) -> Result<Plan, OutOfMemory> {
    let mut routes = match individual {
        Some(individual) => routes_of(alloc, network, individual)?,
        None => Routes::new(alloc),
    };
    for _ in routes.as_slice().len()..fleet as usize {
        routes.push(Route::new(alloc))?;
    }
    Ok(Plan { routes })
}

fn routes_of(
    alloc: Global,
    network: &Network,
    individual: &Individual,
) -> Result<Routes, OutOfMemory> {
    let mut routes = Routes::new(alloc);
    let mut route = Route::new(alloc);
    for place in 0..network.size {
        if place > 0 && item(&individual.begins, place) {
            routes.push(route)?;
            route = Route::new(alloc);
        }
        let customer = item(&individual.tour, place);
        route.push(network.site(customer).number)?;
    }
    routes.push(route)?;
    Ok(routes)
}
