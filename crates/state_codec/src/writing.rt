//! Encoding states.
ghost use Rattle.std.specs.Prelude.{◌≡◌, ◌≤◌, ◌<◌, ◌^◌, ◌++◌, ◌∷◌, [], All, length, OnOk, IfOk};
ghost use Rattle.state_codec.specs.declared.version.Version.TheVariants.{Two};
ghost use Rattle.state_codec.specs.Bytes.{number_bytes, signed_bytes, stop_bytes, request_bytes, requests_bytes, stops_bytes, vehicles_bytes, routes_bytes, depot_bytes, kind_code, head_bytes, job_bytes, state_bytes};

use command_types::{Job, State};
use indexmap::IndexMap;
use plan_types::{Kind, OutOfMemory, Problem, Request, Route, Stop, numbers_are_below_next_number};
use std::alloc::Global;

#[tactic(auto, unfolding(crate::specs::Bytes::number_bytes))]
fn put_u32(out: &mut Vec<u8>, n: u32) -> Result<(), OutOfMemory>
    ensures { OnOk result (out.new.items ≡ out.old.items ++ number_bytes 4 n) }
{
    out.extend_from_slice(&n.to_be_bytes())
}

#[tactic(auto, unfolding(crate::specs::Bytes::number_bytes))]
fn put_u64(out: &mut Vec<u8>, n: u64) -> Result<(), OutOfMemory>
    ensures { OnOk result (out.new.items ≡ out.old.items ++ number_bytes 8 n) }
{
    out.extend_from_slice(&n.to_be_bytes())
}

#[tactic(auto, unfolding(crate::specs::Bytes::signed_bytes))]
fn put_i32(out: &mut Vec<u8>, n: i32) -> Result<(), OutOfMemory>
    ensures { OnOk result (out.new.items ≡ out.old.items ++ signed_bytes n) }
{
    out.extend_from_slice(&n.to_be_bytes())
}

fn put_point(out: &mut Vec<u8>, stop: &Stop) -> Result<(), OutOfMemory>
    ensures { OnOk result (out.new.items ≡ out.old.items
        ++ (signed_bytes stop.now.x ++ signed_bytes stop.now.y)) }
{
    put_i32(out, stop.x)?;
    put_i32(out, stop.y)
}

fn put_demand(out: &mut Vec<u8>, stop: &Stop) -> Result<(), OutOfMemory>
    ensures { OnOk result (out.new.items ≡ out.old.items ++ signed_bytes stop.now.demand) }
{
    put_i32(out, stop.demand)
}

fn put_stop(out: &mut Vec<u8>, stop: &Stop) -> Result<(), OutOfMemory>
    ensures { OnOk result (out.new.items ≡ out.old.items ++ stop_bytes Two stop.now) }
{
    put_u32(out, stop.number)?;
    put_point(out, stop)?;
    put_demand(out, stop)?;
    put_u32(out, stop.earliest)?;
    put_u32(out, stop.latest)?;
    put_u32(out, stop.service)?;
    Ok(())
}

fn put_request(out: &mut Vec<u8>, request: &Request) -> Result<(), OutOfMemory>
    ensures { OnOk result (out.new.items ≡ out.old.items ++ request_bytes Two request.now) }
{
    match request {
        Request::Single(stop) => {
            out.push(1)?;
            put_stop(out, stop)
        }
        Request::Pair(pickup, delivery) => {
            out.push(2)?;
            put_stop(out, pickup)?;
            put_stop(out, delivery)
        }
    }
}

fn put_requests(out: &mut Vec<u8>, requests: &IndexMap<u32, Request>) -> Result<(), OutOfMemory>
    ensures { OnOk result (out.new.items ≡ out.old.items
        ++ requests_bytes Two requests.now.entries) }
{
    for (_name, request) in requests {
        put_request(out, request)?;
    }
    Ok(())
}

fn put_stops(out: &mut Vec<u8>, stops: &[u32]) -> Result<(), OutOfMemory>
    ensures { OnOk result (out.new.items ≡ out.old.items ++ stops_bytes Two stops.now) }
{
    for stop in stops {
        put_u32(out, *stop)?;
    }
    Ok(())
}

fn put_vehicle(out: &mut Vec<u8>, pin: &Route, route: &Route) -> Result<(), OutOfMemory>
    requires pin { length pin.now < 2 ^ 32 }
    requires route { length route.now < 2 ^ 32 }
    ensures { OnOk result (out.new.items ≡ out.old.items
        ++ (number_bytes 4 (length pin.now)
        ++ (number_bytes 4 (length route.now) ++ stops_bytes Two route.now))) }
{
    put_u32(out, pin.as_slice().len() as u32)?;
    put_u32(out, route.as_slice().len() as u32)?;
    put_stops(out, route.as_slice())
}

fn put_route(out: &mut Vec<u8>, route: &Route) -> Result<(), OutOfMemory>
    requires { length route.now < 2 ^ 32 }
    ensures { OnOk result (out.new.items ≡ out.old.items
        ++ (number_bytes 4 (length route.now) ++ stops_bytes Two route.now)) }
{
    put_u32(out, route.as_slice().len() as u32)?;
    put_stops(out, route.as_slice())
}

fn put_vehicles(out: &mut Vec<u8>, pins: &[Route], routes: &[Route]) -> Result<(), OutOfMemory>
    requires same { length pins.now ≡ length routes.now }
    requires pins { All (λ pin. length pin < 2 ^ 32) pins.now }
    requires routes { All (λ route. length route < 2 ^ 32) routes.now }
    ensures { OnOk result (out.new.items ≡ out.old.items
        ++ vehicles_bytes Two pins.now routes.now) }
{
    for index in 0..pins.len() {
        put_vehicle(out, &pins[index], &routes[index])?;
    }
    Ok(())
}

fn put_routes(out: &mut Vec<u8>, routes: &[Route]) -> Result<(), OutOfMemory>
    requires { All (λ route. length route < 2 ^ 32) routes.now }
    ensures { OnOk result (out.new.items ≡ out.old.items ++ routes_bytes Two routes.now) }
{
    for route in routes {
        put_route(out, route)?;
    }
    Ok(())
}

fn put_depot(out: &mut Vec<u8>, depot: &Stop) -> Result<(), OutOfMemory>
    ensures { OnOk result (out.new.items ≡ out.old.items ++ depot_bytes depot.now) }
{
    put_i32(out, depot.x)?;
    put_i32(out, depot.y)?;
    put_u32(out, depot.earliest)?;
    put_u32(out, depot.latest)
}

fn put_kind(out: &mut Vec<u8>, kind: Kind) -> Result<(), OutOfMemory>
    ensures { OnOk result (out.new.items ≡ out.old.items ++ kind_code kind ∷ []) }
{
    match kind {
        Kind::LiLim => out.push(1)?,
        Kind::Vrp => out.push(2)?,
    }
    Ok(())
}

fn put_seeds(out: &mut Vec<u8>, job: &Job) -> Result<(), OutOfMemory>
    ensures { OnOk result (out.new.items ≡ out.old.items
        ++ (number_bytes 8 job.now.seed ++ number_bytes 8 job.now.steps)) }
{
    put_u64(out, job.seed)?;
    put_u64(out, job.steps)
}

fn put_limits(out: &mut Vec<u8>, problem: &Problem) -> Result<(), OutOfMemory>
    ensures { OnOk result (out.new.items ≡ out.old.items
        ++ (number_bytes 4 problem.now.capacity
        ++ (number_bytes 4 problem.now.fleet ++ number_bytes 4 problem.now.next_number))) }
{
    put_u32(out, problem.capacity)?;
    put_u32(out, problem.fleet)?;
    put_u32(out, problem.next_number)
}

// Writes the part of a state before its requests: the head.
fn put_head(out: &mut Vec<u8>, job: &Job) -> Result<(), OutOfMemory>
    ensures { OnOk result (out.new.items ≡ out.old.items ++ head_bytes Two job.now) }
{
    let problem = &job.problem;
    put_kind(out, problem.kind)?;
    put_seeds(out, job)?;
    put_limits(out, problem)?;
    put_depot(out, &problem.depot)?;
    put_u32(out, job.deviation)?;
    Ok(())
}

fn put_job(out: &mut Vec<u8>, job: &Job) -> Result<(), OutOfMemory>
    ensures { OnOk result (out.new.items ≡ out.old.items ++ job_bytes Two job.now) }
{
    // No stop number occurs twice in a plan or in its requests, and each is below `next_number`, so all lengths
    // are small.
    numbers_are_below_next_number();
    let problem = &job.problem;
    put_head(out, job)?;
    put_u32(out, problem.requests.len() as u32)?;
    put_requests(out, &problem.requests)?;
    put_vehicles(out, job.pins.routes.as_slice(), job.plan.routes.as_slice())?;
    put_routes(out, job.work.routes.as_slice())?;
    Ok(())
}

/// Encodes a state.
pub fn encode_state(alloc: Global, state: &State) -> Result<Vec<u8>, OutOfMemory>
    ensures bytes { IfOk result (λ bytes. bytes.items ≡ state_bytes Two state.now) }
{
    let mut out = Vec::new(alloc);
    match state {
        State::Empty => out.push(0)?,
        State::Loaded(job) => {
            out.push(1)?;
            put_job(&mut out, job)?;
        }
    }
    Ok(out)
}
