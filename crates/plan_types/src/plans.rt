//! Routes, plans, pins and costs.
//!
//! A caller can set one route of a list (`set`), exchange it (`replace`), or borrow it to edit it in place
//! (`route_mut`). `Route` does not lend its stops as a mutable slice, because the prover finds no proof for
//! that borrow. `Route::set` takes its place.
ghost use Rattle.std.specs.Prelude.{◌≡◌, ◌<◌, ◌≤◌, IfOk, OnOk, OnErr, Some, length, slice_get, slice_set, insert, remove};
ghost use Rattle.std.specs.Prelude.{List, [], ◌∷◌, ◌++◌, ℕ};

use crate::OutOfMemory;
use std::alloc::Global;
use std::marker::Model;
use std::mem;

/// The stop numbers of one vehicle in the order of its visits, without the depot at both ends.
#[derive(Debug, Drop)]
pub struct Route {
    stops: Vec<u32>,
}

impl Model for Route {
    ghost Value = { List ℕ };

    ghost view = { λ r. r.stops.items };
}

impl Route {
    /// Returns a route without stops. Does not allocate.
    pub fn new(alloc: Global) -> Route
        ensures { result ≡ [] }
    {
        Route {
            stops: Vec::new(alloc),
        }
    }

    /// Returns a route without stops that has room for `stops` stops.
    pub fn with_capacity(alloc: Global, stops: usize) -> Result<Route, OutOfMemory>
        ensures { IfOk result (λ route. route ≡ []) }
    {
        Ok(Route {
            stops: Vec::with_capacity(alloc, stops)?,
        })
    }

    /// Appends a stop. On an error the route is unchanged.
    pub fn push(&mut self, stop: u32) -> Result<(), OutOfMemory>
        ensures ok { OnOk result (self.new ≡ self.old ++ stop ∷ []) }
        ensures err { OnErr result (self.new ≡ self.old) }
    {
        self.stops.push(stop)?;
        Ok(())
    }

    /// Appends these stops. On an error the route is unchanged.
    pub fn extend_from_slice(&mut self, stops: &[u32]) -> Result<(), OutOfMemory>
        ensures ok { OnOk result (self.new ≡ self.old ++ stops.now) }
        ensures err { OnErr result (self.new ≡ self.old) }
    {
        self.stops.extend_from_slice(stops)
    }

    /// Inserts a stop at this place, counted from 0, before the stop that is there. On an error the route is
    /// unchanged.
    pub fn insert(&mut self, place: usize, stop: u32) -> Result<(), OutOfMemory>
        requires { place ≤ length self.old }
        ensures ok { OnOk result (self.new ≡ insert self.old place stop) }
        ensures err { OnErr result (self.new ≡ self.old) }
    {
        self.stops.insert(place, stop)?;
        Ok(())
    }

    /// Removes the stop at this place, counted from 0, and returns its number. Does not allocate.
    pub fn remove(&mut self, place: usize) -> u32
        requires { place < length self.old }
        ensures stop { slice_get self.old place ≡ Some result }
        ensures rest { self.new ≡ remove self.old place }
    {
        self.stops.remove(place)
    }

    /// Replaces the stop at this place, counted from 0. Does not allocate.
    pub fn set(&mut self, place: usize, stop: u32)
        requires { place < length self.old }
        ensures { self.new ≡ slice_set self.old place stop }
    {
        self.stops[place] = stop;
    }

    /// Returns the stop numbers in order.
    pub fn as_slice(&self) -> &[u32]
        ensures { result.now ≡ self.now }
    {
        self.stops.as_slice()
    }

    /// Returns the stop numbers as a vector, without allocating.
    pub fn into_vec(self) -> Vec<u32>
        ensures { result.items ≡ self }
    {
        let Route { stops } = self;
        stops
    }

    /// Returns a route with the same stops.
    pub fn copy(&self) -> Result<Route, OutOfMemory>
        ensures { IfOk result (λ copy. copy ≡ self.now) }
    {
        let stops = Vec::from_slice(*self.stops.allocator(), self.stops.as_slice())?;
        Ok(Route { stops })
    }
}

impl From<Vec<u32>> for Route {
    ghost from_gives = { λ stops route. route ≡ stops.items };

    /// Wraps the stop numbers, without allocating.
    fn from(stops: Vec<u32>) -> Route {
        Route { stops }
    }
}

/// One route for each vehicle, in the order of the vehicles.
#[derive(Debug, Drop)]
pub struct Routes {
    routes: Vec<Route>,
}

impl Model for Routes {
    ghost Value = { List (List ℕ) };

    ghost view = { λ r. r.routes.items };
}

impl Routes {
    ghost use Rattle.std.specs.Borrow.{sem};
    ghost use Rattle.plan_types.specs.Lending.{LendsRoute};

    /// Returns a list without routes. Does not allocate.
    pub fn new(alloc: Global) -> Routes
        ensures { result ≡ [] }
    {
        Routes {
            routes: Vec::new(alloc),
        }
    }

    /// Returns a list without routes that has room for `routes` routes.
    pub fn with_capacity(alloc: Global, routes: usize) -> Result<Routes, OutOfMemory>
        ensures { IfOk result (λ list. list ≡ []) }
    {
        Ok(Routes {
            routes: Vec::with_capacity(alloc, routes)?,
        })
    }

    /// Appends the route of the next vehicle. On an error the list is unchanged and the route is lost.
    pub fn push(&mut self, route: Route) -> Result<(), OutOfMemory>
        ensures ok { OnOk result (self.new ≡ self.old ++ route ∷ []) }
        ensures err { OnErr result (self.new ≡ self.old) }
    {
        self.routes.push(route)?;
        Ok(())
    }

    /// Borrows the route at this index, counted from 0, so that the caller can edit it in place.
    pub fn route_mut(&mut self, index: usize) -> &mut Route
        requires { index < length self.old }
        ensures* writes_back { sem 𝓛 (LendsRoute self.entry index result) }
        ensures value { slice_get self.old index ≡ Some result.now }
    {
        &mut self.routes[index]
    }

    /// Replaces the route at this index, counted from 0. Does not allocate.
    pub fn set(&mut self, index: usize, route: Route)
        requires { index < length self.old }
        ensures { self.new ≡ slice_set self.old index route }
    {
        self.routes[index] = route;
    }

    /// Replaces the route at this index, counted from 0, and returns the old one. Does not allocate.
    pub fn replace(&mut self, index: usize, route: Route) -> Route
        requires { index < length self.old }
        ensures old { slice_get self.old index ≡ Some result }
        ensures new { self.new ≡ slice_set self.old index route }
    {
        mem::replace(&mut self.routes[index], route)
    }

    /// Returns the routes in order.
    pub fn as_slice(&self) -> &[Route]
        ensures { result.now ≡ self.now }
    {
        self.routes.as_slice()
    }

    /// Returns the routes as a vector, without allocating.
    pub fn into_vec(self) -> Vec<Route>
        ensures { result.items ≡ self }
    {
        let Routes { routes } = self;
        routes
    }

    /// Returns a list of the same routes.
    pub fn copy(&self) -> Result<Routes, OutOfMemory>
        ensures { IfOk result (λ copy. copy ≡ self.now) }
    {
        let routes = copies(*self.routes.allocator(), self.routes.as_slice())?;
        Ok(Routes { routes })
    }
}

fn copies(alloc: Global, routes: &[Route]) -> Result<Vec<Route>, OutOfMemory>
    ensures { IfOk result (λ copies. copies.items ≡ routes.now) }
{
    let mut copies = Vec::with_capacity(alloc, routes.len())?;
    for route in routes {
        copies.push(route.copy()?)?;
    }
    Ok(copies)
}

impl From<Vec<Route>> for Routes {
    ghost from_gives = { λ routes list. list ≡ routes.items };

    /// Wraps the routes, without allocating.
    fn from(routes: Vec<Route>) -> Routes {
        Routes { routes }
    }
}

/// The routes of all vehicles. A request with no stop in any route is unplanned.
#[derive(Debug, Drop)]
pub struct Plan {
    pub routes: Routes,
}

impl Plan {
    /// Returns a plan with the same routes.
    pub fn copy(&self) -> Result<Plan, OutOfMemory>
        ensures { IfOk result (λ copy. copy ≡ self.now) }
    {
        Ok(Plan {
            routes: self.routes.copy()?,
        })
    }
}

/// For each vehicle, the stops that its route must begin with.
#[derive(Debug, Drop)]
pub struct Pins {
    pub routes: Routes,
}

impl Pins {
    /// Returns the same pins.
    pub fn copy(&self) -> Result<Pins, OutOfMemory>
        ensures { IfOk result (λ copy. copy ≡ self.now) }
    {
        Ok(Pins {
            routes: self.routes.copy()?,
        })
    }
}

/// The cost of a plan. Costs are compared field by field, in this order.
#[derive(Clone, Copy, Debug, PartialEq, Eq, PartialOrd, Ord)]
pub struct Cost {
    /// The number of requests with no stop in any route.
    pub unplanned: u64,
    /// The number of nonempty routes. It is 0 in a problem of kind `Vrp`, where only the distance counts.
    pub vehicles: u64,
    /// The sum of the distances between consecutive stops, including the depot at both ends.
    pub distance: u64,
}
