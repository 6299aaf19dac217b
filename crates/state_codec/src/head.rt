//! The part of a state before its requests.
ghost use Rattle.std.specs.Prelude.{◌≡◌};
ghost use Rattle.state_codec.specs.Bytes.{width};
ghost use Rattle.state_codec.specs.Fields.{Reads, only, number_at};
ghost use Rattle.state_codec.specs.Limits.{most};
ghost use Rattle.state_codec.specs.Reading.{kind_at, is_steps, is_capacity, is_fleet, is_next, depot_at, job_deviation_at, head_at};

use crate::fault::CodecFault;
use crate::fields::{Field, number_at, only, point_at, u8_at, u32_at, u64_at, window_at};
use crate::version::{MAX_STOP_NUMBER_V1, Version};
use plan_types::limits::{MAX_CAPACITY, MAX_DEVIATION, MAX_STEPS, MAX_STOP_NUMBER};
use plan_types::{Kind, Stop};

#[derive(Clone, Copy)]
pub(crate) struct Head {
    pub(crate) kind: Kind,
    pub(crate) seed: u64,
    pub(crate) steps: u64,
    pub(crate) capacity: u32,
    pub(crate) fleet: u32,
    pub(crate) next_number: u32,
    pub(crate) depot: Stop,
    pub(crate) deviation: u32,
}

// Returns the greatest stop number of a version, which is also its largest fleet.
fn most(version: Version) -> u32
    ensures { result ≡ most version }
{
    match version {
        Version::One => MAX_STOP_NUMBER_V1,
        Version::Two => MAX_STOP_NUMBER,
    }
}

fn kind_at(bytes: &[u8]) -> Field<'_, Kind>
    ensures { Reads (λ x. (x.0, x.1.now)) result (kind_at bytes.now) }
{
    let (code, rest) = u8_at(bytes)?;
    match code {
        1 => Ok((Kind::LiLim, rest)),
        2 => Ok((Kind::Vrp, rest)),
        _ => Err(CodecFault::BadField),
    }
}

fn steps_at(bytes: &[u8]) -> Field<'_, u64>
    ensures { Reads (λ x. (x.0, x.1.now)) result (only is_steps (number_at 8 bytes.now)) }
{
    let (steps, rest) = u64_at(bytes)?;
    only(steps <= MAX_STEPS, steps, rest)
}

fn capacity_at(bytes: &[u8]) -> Field<'_, u32>
    ensures { Reads (λ x. (x.0, x.1.now)) result (only is_capacity (number_at 4 bytes.now)) }
{
    let (capacity, rest) = u32_at(bytes)?;
    only(capacity <= MAX_CAPACITY, capacity, rest)
}

fn fleet_at(version: Version, bytes: &[u8]) -> Field<'_, u32>
    ensures { Reads (λ x. (x.0, x.1.now)) result
        (only (is_fleet version) (number_at (width version) bytes.now)) }
{
    let (fleet, rest) = number_at(version, bytes)?;
    only(1 <= fleet && fleet <= most(version), fleet, rest)
}

fn next_number_at(version: Version, bytes: &[u8]) -> Field<'_, u32>
    ensures { Reads (λ x. (x.0, x.1.now)) result
        (only (is_next version) (number_at (width version) bytes.now)) }
{
    let (next, rest) = number_at(version, bytes)?;
    only(1 <= next && next <= most(version) + 1, next, rest)
}

// Reads the coordinates and the time window of the depot.
#[tactic(auto, unfolding(crate::specs::Reading::depot_at))]
fn depot_at(bytes: &[u8]) -> Field<'_, Stop>
    ensures { Reads (λ x. (x.0, x.1.now)) result (depot_at bytes.now) }
{
    let ((x, y), rest) = point_at(bytes)?;
    let ((earliest, latest), rest) = window_at(rest)?;
    let depot = Stop {
        number: 0,
        x,
        y,
        demand: 0,
        earliest,
        latest,
        service: 0,
    };
    Ok((depot, rest))
}

// Reads the deviation: the limit by which the distance of the working plan may exceed that of the plan.
fn job_deviation_at(version: Version, bytes: &[u8]) -> Field<'_, u32>
    ensures { Reads (λ x. (x.0, x.1.now)) result (job_deviation_at version bytes.now) }
{
    match version {
        Version::One => return Ok((0, bytes)),
        Version::Two => {}
    }
    let (deviation, rest) = u32_at(bytes)?;
    only(deviation <= MAX_DEVIATION, deviation, rest)
}

#[tactic(auto, unfolding(crate::specs::Reading::head_at))]
pub(crate) fn head_at(version: Version, bytes: &[u8]) -> Field<'_, Head>
    ensures { Reads (λ x. (x.0, x.1.now)) result (head_at version bytes.now) }
{
    let (kind, rest) = kind_at(bytes)?;
    let (seed, rest) = u64_at(rest)?;
    let (steps, rest) = steps_at(rest)?;
    let (capacity, rest) = capacity_at(rest)?;
    let (fleet, rest) = fleet_at(version, rest)?;
    let (next_number, rest) = next_number_at(version, rest)?;
    let (depot, rest) = depot_at(rest)?;
    let (deviation, rest) = job_deviation_at(version, rest)?;
    let head = Head {
        kind,
        seed,
        steps,
        capacity,
        fleet,
        next_number,
        depot,
        deviation,
    };
    Ok((head, rest))
}
