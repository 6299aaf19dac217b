//! The stops nearest to each stop, for steps that need the routes nearest to a stop (`anneal_search`).
//!
//! A list of nearest stops is made when a step first needs it, and is kept with the search state. The search for
//! it goes over the stops from west to east: once a stop is too far east or west, all stops beyond it are too
//! far as well. The place of a stop in the plan is kept as a hint, which has to be checked before use.
ghost use Rattle.std.specs.Prelude.{◌≡◌, ◌++◌, [], All, IfOk, OnOk};
ghost use Rattle.plan_types.specs.Instance.{Instance, IsInstance};
ghost use Rattle.seeded_search.specs.SpatialIndex.{east_of, easting_at, AreEastings, AreEastingsBelow, AreNearestStopLists};

use plan_types::{OutOfMemory, Problem, Stop, numbers_are_below_next_number};
use std::alloc::Global;

/// An index of the stops: those nearest to each stop, all stops from west to east, and hints where each stop is
/// in the plan.
#[derive(Debug, Drop)]
pub struct SpatialIndex {
    /// By stop number: the first of all stops by distance from this one, then by number, including itself.
    /// Empty until it is needed.
    pub nearest_stops: Vec<Vec<u32>>,
    /// All stops from west to east, once there are lists of nearest stops.
    pub eastings: Vec<Easting>,
    /// By stop number: the place to look at first.
    pub place_hints: Vec<RoutePlace>,
}

/// The position of a stop from west to east.
#[derive(Clone, Copy, Debug, PartialEq, Eq)]
pub struct Easting {
    /// The x coordinate as a distance from the smallest `i32`.
    pub east: u32,
    /// The number of the stop.
    pub stop: u32,
}

/// A place in a vehicle's route.
#[derive(Clone, Copy, Debug, PartialEq, Eq)]
pub struct RoutePlace {
    /// The vehicle, from 1; 0 if the place is unknown.
    pub vehicle: u64,
    /// The index in the vehicle's route, from 0.
    pub place: usize,
}

impl SpatialIndex {
    /// Returns an empty index. Does not allocate.
    pub fn none(alloc: Global) -> SpatialIndex
        ensures { (p : Instance) → AreNearestStopLists p result }
    {
        SpatialIndex {
            nearest_stops: Vec::new(alloc),
            eastings: Vec::new(alloc),
            place_hints: Vec::new(alloc),
        }
    }

    /// Builds the index of all stops. Its lists of nearest stops are empty.
    pub fn build(alloc: Global, problem: &Problem) -> Result<SpatialIndex, OutOfMemory>
        ensures { IfOk result (λ spatial_index. AreNearestStopLists problem.now spatial_index) }
    {
        let count = problem.next_number as usize;
        let nowhere = RoutePlace {
            vehicle: 0,
            place: 0,
        };
        let nearest_stops = empty_lists(alloc, count)?;
        let place_hints = vec![in alloc; nowhere; count]?;
        let eastings = eastings_of(alloc, problem)?;
        Ok(SpatialIndex {
            nearest_stops,
            eastings,
            place_hints,
        })
    }
}

fn empty_lists(alloc: Global, count: usize) -> Result<Vec<Vec<u32>>, OutOfMemory>
    ensures { IfOk result (λ nearest_stops. All (λ stops. stops.items ≡ []) nearest_stops.items) }
{
    let mut nearest_stops = Vec::with_capacity(alloc, count)?;
    for number in 0..count {
        nearest_stops.push(Vec::new(alloc))?;
    }
    Ok(nearest_stops)
}

// Returns all stops from west to east.
fn eastings_of(alloc: Global, problem: &Problem) -> Result<Vec<Easting>, OutOfMemory>
    ensures { IfOk result (λ eastings. AreEastings problem.now eastings.items) }
{
    numbers_are_below_next_number();
    let mut eastings = eastings_by_number(alloc, problem)?;
    eastings.sort_unstable_by_key(|easting| easting.east);
    Ok(eastings)
}

fn eastings_by_number(alloc: Global, problem: &Problem) -> Result<Vec<Easting>, OutOfMemory>
    ensures below { IfOk result (λ eastings. AreEastingsBelow problem.now
        problem.now.next_number eastings.items) }
    ensures valid { IsInstance problem.now }
{
    let mut eastings = Vec::with_capacity(alloc, problem.next_number as usize)?;
    for number in 0..problem.next_number {
        note(&mut eastings, problem, number)?;
    }
    Ok(eastings)
}

// Adds the stop with this number, if there is one.
fn note(eastings: &mut Vec<Easting>, problem: &Problem, number: u32) -> Result<(), OutOfMemory>
    ensures { OnOk result (eastings.new.items
        ≡ eastings.old.items ++ easting_at problem.now number) }
{
    if let Some(stop) = problem.stop(number) {
        let east = east_of(stop);
        eastings.push(Easting { east, stop: number })?;
    }
    Ok(())
}

/// Returns how far east a stop is: its x coordinate as a distance from the smallest `i32`.
pub fn east_of(stop: &Stop) -> u32
    ensures { result ≡ east_of stop.now }
{
    stop.x.abs_diff(i32::MIN)
}
