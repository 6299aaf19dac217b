//! The pins and routes of a state.
ghost use Rattle.std.specs.Prelude.{◌≡◌, ◌≤◌, [], IfOk, length, take, nat_le};
ghost use Rattle.state_codec.specs.Bytes.{width};
ghost use Rattle.state_codec.specs.Fields.{Reads, Gives, only, number_at};
ghost use Rattle.state_codec.specs.Reading.{times, next_stop, vehicle_at, next_vehicle, route_at, next_route};

use crate::fields::{Field, number_at, only, times};
use crate::version::Version;
use plan_types::{OutOfMemory, Route, Routes};
use std::alloc::Global;

// Reads one more stop number.
fn next_stop<'a>(version: Version, stops: Route, bytes: &'a [u8]) -> Field<'a, Route>
    ensures { Gives (λ x. (x.0, x.1.now)) result (next_stop version stops bytes.now) }
{
    let (stop, rest) = number_at(version, bytes)?;
    let mut stops = stops;
    stops.push(stop)?;
    Ok((stops, rest))
}

fn stops_at(alloc: Global, version: Version, count: u32, bytes: &[u8]) -> Field<'_, Route>
    ensures { Gives (λ x. (x.0, x.1.now)) result
        (times (next_stop version) count [] bytes.now) }
{
    times(
        count,
        Route::new(alloc),
        bytes,
        |stops, rest| next_stop(version, stops, rest),
    )
}

// Reads a length that is at least that of the pin.
fn route_len_at(version: Version, pin: u32, bytes: &[u8]) -> Field<'_, u32>
    ensures { Reads (λ x. (x.0, x.1.now)) result
        (only (nat_le pin) (number_at (width version) bytes.now)) }
{
    let (len, rest) = number_at(version, bytes)?;
    only(pin <= len, len, rest)
}

// Returns the first `len` stops of a route.
fn first_stops(alloc: Global, stops: &[u32], len: u32) -> Result<Route, OutOfMemory>
    requires { len ≤ length stops.now }
    ensures { IfOk result (λ first_stops. first_stops ≡ take len stops.now) }
{
    let first_stops = Vec::from_slice(alloc, &stops[..len as usize])?;
    Ok(Route::from(first_stops))
}

#[tactic(auto, unfolding(crate::specs::Reading::vehicle_at))]
fn vehicle_at(alloc: Global, version: Version, bytes: &[u8]) -> Field<'_, (Route, Route)>
    ensures { Gives (λ x. (x.0, x.1.now)) result (vehicle_at version bytes.now) }
{
    let (pin, rest) = number_at(version, bytes)?;
    let (len, rest) = route_len_at(version, pin, rest)?;
    let (stops, rest) = stops_at(alloc, version, len, rest)?;
    let first_stops = first_stops(alloc, stops.as_slice(), pin)?;
    Ok(((first_stops, stops), rest))
}

#[tactic(auto, unfolding(crate::specs::Reading::route_at))]
fn route_at(alloc: Global, version: Version, bytes: &[u8]) -> Field<'_, Route>
    ensures { Gives (λ x. (x.0, x.1.now)) result (route_at version bytes.now) }
{
    let (len, rest) = number_at(version, bytes)?;
    stops_at(alloc, version, len, rest)
}

// Reads one more vehicle: its pin and its route.
fn next_vehicle<'a>(
    alloc: Global,
    version: Version,
    before: (Routes, Routes),
    bytes: &'a [u8],
) -> Field<'a, (Routes, Routes)>
    ensures { Gives (λ x. (x.0, x.1.now)) result (next_vehicle version before bytes.now) }
{
    let ((pin, route), rest) = vehicle_at(alloc, version, bytes)?;
    let (mut pins, mut routes) = before;
    pins.push(pin)?;
    routes.push(route)?;
    Ok(((pins, routes), rest))
}

/// Reads the pins and the routes of this many vehicles.
pub(crate) fn vehicles_at(
    alloc: Global,
    version: Version,
    count: u32,
    bytes: &[u8],
) -> Field<'_, (Routes, Routes)>
    ensures { Gives (λ x. (x.0, x.1.now)) result
        (times (next_vehicle version) count ([], []) bytes.now) }
{
    let none = (Routes::new(alloc), Routes::new(alloc));
    times(
        count,
        none,
        bytes,
        |before, rest| next_vehicle(alloc, version, before, rest),
    )
}

// Reads one more route.
fn next_route<'a>(
    alloc: Global,
    version: Version,
    routes: Routes,
    bytes: &'a [u8],
) -> Field<'a, Routes>
    ensures { Gives (λ x. (x.0, x.1.now)) result (next_route version routes bytes.now) }
{
    let (route, rest) = route_at(alloc, version, bytes)?;
    let mut routes = routes;
    routes.push(route)?;
    Ok((routes, rest))
}

/// Reads this many routes without pins.
pub(crate) fn routes_at(
    alloc: Global,
    version: Version,
    count: u32,
    bytes: &[u8],
) -> Field<'_, Routes>
    ensures { Gives (λ x. (x.0, x.1.now)) result
        (times (next_route version) count [] bytes.now) }
{
    times(
        count,
        Routes::new(alloc),
        bytes,
        |routes, rest| next_route(alloc, version, routes, rest),
    )
}
