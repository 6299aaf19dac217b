//! The contents of a picture.
ghost use Rattle.std.specs.Prelude.{◌≤◌, ◌^◌, All};
ghost use Rattle.std.proofs.Props.{props};
ghost use Rattle.route_sched.specs.Route.{AreDistinctStops};

use plan_types::{Problem, Route, Stop};

/// The route and the stop of the violation, by number; 0 means none.
#[derive(Clone, Copy)]
pub(crate) struct Highlight {
    pub route: u64,
    pub stop: u32,
}

/// A problem with the stops and routes to draw, and the violation. The first route has the number `first`.
#[derive(Drop)]
pub(crate) struct Scene<'a> {
    pub problem: &'a Problem,
    pub stops: &'a [Stop],
    pub first: u64,
    pub routes: &'a [Route],
    pub broken: Highlight,
    ghost numbered: { first ≤ 2 ^ 63 },
    ghost live: { All (AreDistinctStops problem.now) routes.now } by { Prim.hlevel props },
}
