//! Commands as the sectors of a store's journal.
//!
//! To decode a record, a command is read, its limits are checked, and its record is compared with the sector.
//! So the bytes after the fields need no rule of their own.
ghost use Rattle.std.specs.Prelude.{◌≡◌, ◌≢◌, ◌≤◌, ◌+◌, ◌++◌, ◌∷◌, ◌↔◌, true, IsTrue, length, MatchOption};
ghost use Rattle.command_types.specs.Commands.{is_recorded, fits_record};
ghost use Rattle.state_codec.specs.declared.version.Version.TheVariants.{One, Two};
ghost use Rattle.state_codec.specs.Bytes.{spot_bytes, command_bytes, record_bytes};
ghost use Rattle.state_codec.specs.Fields.{Reads};
ghost use Rattle.state_codec.specs.Limits.{HasRoom, IsDeviationOf, IsRecorded};
ghost use Rattle.state_codec.specs.Records.{spot_at, add_at, add1_at, withdraw_at, pin_at, unpin_at, search_at, deviation_at, fields_at, command_at};

use crate::fault::CodecFault;
use crate::fields::{Field, i32_at, number_at, u8_at, u16_at, u32_at};
use crate::sector::Sector;
use crate::version::Version;
use command_types::{Command, MAX_SEARCH_STEPS, Spot, is_demand, is_spot};
use plan_types::limits::MAX_DEVIATION;

/// Returns the record of a command, with this index in the journal of this sequence. The command must have a
/// record, and its fields must be within their limits. Allocates nothing.
pub fn encode_record(sequence: u64, index: u32, command: &Command) -> [u8; 512]
    requires { IsRecorded Two command.now }
    ensures { result ≡ record_bytes Two sequence index command.now }
{
    record(Version::Two, sequence, index, command)
}

/// Decodes a record: returns the command if the sector is its record with this sequence and index. Allocates
/// nothing.
pub fn decode_record(sector: &[u8; 512], sequence: u64, index: u32) -> Option<Command>
    ensures { MatchOption result ((c : Command) → IsRecorded Two c
        → sector.now ≢ record_bytes Two sequence index c)
        (λ c. IsRecorded Two c × (sector.now ≡ record_bytes Two sequence index c)) }
{
    decode(Version::Two, sector, sequence, index)
}

/// Decodes a record of version 1, which has no deviation and shorter numbers. Allocates nothing.
pub fn decode_record_v1(sector: &[u8; 512], sequence: u64, index: u32) -> Option<Command>
    ensures { MatchOption result ((c : Command) → IsRecorded One c
        → sector.now ≢ record_bytes One sequence index c)
        (λ c. IsRecorded One c × (sector.now ≡ record_bytes One sequence index c)) }
{
    decode(Version::One, sector, sequence, index)
}

// Reads a command from the sector, and returns it if its record is this sector.
fn decode(version: Version, sector: &[u8; 512], sequence: u64, index: u32) -> Option<Command>
    ensures { MatchOption result ((c : Command) → IsRecorded version c
        → sector.now ≢ record_bytes version sequence index c)
        (λ c. IsRecorded version c × (sector.now ≡ record_bytes version sequence index c)) }
{
    let (command, _rest) = match command_at(version, &sector[12..]) {
        Ok(read) => read,
        Err(_) => return None,
    };
    if !is_recorded(version, &command) {
        return None;
    }
    let whole = record(version, sequence, index, &command);
    if whole != *sector {
        return None;
    }
    Some(command)
}

fn record(version: Version, sequence: u64, index: u32, command: &Command) -> [u8; 512]
    requires { IsRecorded version command.now }
    ensures { result ≡ record_bytes version sequence index command.now }
{
    let mut sector = Sector::new();
    sector.put_u64(sequence);
    sector.put_u32(index);
    put_command(version, &mut sector, command);
    sector.into_bytes()
}

fn put_command(version: Version, sector: &mut Sector, command: &Command)
    requires space { length sector.old + 45 ≤ 512 }
    requires recorded { IsRecorded version command.now }
    ensures { sector.new ≡ sector.old ++ command_bytes version command.now }
{
    match command {
        Command::Add {
            demand,
            pickup,
            delivery,
        } => {
            sector.put_u8(1);
            sector.put_u32(*demand);
            put_spot(sector, pickup);
            put_spot(sector, delivery);
        }
        Command::Add1 { demand, spot } => {
            sector.put_u8(2);
            sector.put_u32(*demand);
            put_spot(sector, spot);
        }
        Command::Withdraw(name) => {
            sector.put_u8(3);
            sector.put_count(version, *name);
        }
        Command::Pin(vehicle, k) => {
            sector.put_u8(4);
            sector.put_count(version, *vehicle);
            sector.put_count(version, *k);
        }
        Command::Unpin(vehicle) => {
            sector.put_u8(5);
            sector.put_count(version, *vehicle);
        }
        Command::Build => sector.put_u8(6),
        Command::Search(count) => {
            sector.put_u8(7);
            sector.put_u16(*count);
        }
        Command::Deviation(deviation) => {
            sector.put_u8(8);
            sector.put_u32(*deviation);
        }
        // These commands have no record.
        Command::Load(..)
        | Command::Checkpoint
        | Command::Anneal(_)
        | Command::Reduce(_)
        | Command::Adopt(_) => {}
    }
}

fn put_spot(sector: &mut Sector, spot: &Spot)
    requires { length sector.old + 20 ≤ 512 }
    ensures text { sector.new ≡ sector.old ++ spot_bytes spot.now }
    ensures len { length sector.new ≡ length sector.old + 20 }
{
    sector.put_i32(spot.x);
    sector.put_i32(spot.y);
    sector.put_u32(spot.earliest);
    sector.put_u32(spot.latest);
    sector.put_u32(spot.service);
}

fn has_room(version: Version, number: u32) -> bool
    ensures { IsTrue result ↔ HasRoom version number }
{
    match version {
        Version::One => number < 65536,
        Version::Two => true,
    }
}

fn is_deviation(version: Version, deviation: u32) -> bool
    ensures { IsTrue result ↔ IsDeviationOf version deviation }
{
    match version {
        Version::One => false,
        Version::Two => deviation <= MAX_DEVIATION,
    }
}

// Returns whether the command has a record.
fn is_recorded(version: Version, command: &Command) -> bool
    ensures { IsTrue result ↔ IsRecorded version command.now }
{
    match command {
        Command::Build => true,
        Command::Add {
            demand,
            pickup,
            delivery,
        } => is_demand(*demand) && is_spot(pickup) && is_spot(delivery),
        Command::Add1 { demand, spot } => is_demand(*demand) && is_spot(spot),
        Command::Withdraw(name) => has_room(version, *name),
        Command::Pin(vehicle, k) => has_room(version, *vehicle) && has_room(version, *k),
        Command::Unpin(vehicle) => has_room(version, *vehicle),
        Command::Search(count) => 1 <= *count && *count <= MAX_SEARCH_STEPS,
        Command::Deviation(deviation) => is_deviation(version, *deviation),
        _ => false,
    }
}

/// Proves that the numbers of a command that a store writes as a record fit into their bytes, if its fields are
/// within the limits of a record.
pub fn recorded_fields_have_room(command: &Command)
    ensures { is_recorded command.now ≡ true → fits_record command.now ≡ true
        → IsRecorded Two command.now }
{
    match command {
        Command::Withdraw(number) | Command::Unpin(number) => {
            let _has_room = *number;
        }
        Command::Pin(vehicle, stops) => {
            let _have_room = (*vehicle, *stops);
        }
        _ => {}
    }
}

#[tactic(auto, unfolding(crate::specs::Records::spot_at))]
fn spot_at(bytes: &[u8]) -> Field<'_, Spot>
    ensures { Reads (λ x. (x.0, x.1.now)) result (spot_at bytes.now) }
{
    let (x, rest) = i32_at(bytes)?;
    let (y, rest) = i32_at(rest)?;
    let (earliest, rest) = u32_at(rest)?;
    let (latest, rest) = u32_at(rest)?;
    let (service, rest) = u32_at(rest)?;
    let spot = Spot {
        x,
        y,
        earliest,
        latest,
        service,
    };
    Ok((spot, rest))
}

#[tactic(auto, unfolding(crate::specs::Records::add_at))]
fn add_at(bytes: &[u8]) -> Field<'_, Command>
    ensures { Reads (λ x. (x.0, x.1.now)) result (add_at bytes.now) }
{
    let (demand, rest) = u32_at(bytes)?;
    let (pickup, rest) = spot_at(rest)?;
    let (delivery, rest) = spot_at(rest)?;
    let command = Command::Add {
        demand,
        pickup,
        delivery,
    };
    Ok((command, rest))
}

#[tactic(auto, unfolding(crate::specs::Records::add1_at))]
fn add1_at(bytes: &[u8]) -> Field<'_, Command>
    ensures { Reads (λ x. (x.0, x.1.now)) result (add1_at bytes.now) }
{
    let (demand, rest) = u32_at(bytes)?;
    let (spot, rest) = spot_at(rest)?;
    Ok((Command::Add1 { demand, spot }, rest))
}

#[tactic(auto, unfolding(crate::specs::Records::withdraw_at))]
fn withdraw_at(version: Version, bytes: &[u8]) -> Field<'_, Command>
    ensures { Reads (λ x. (x.0, x.1.now)) result (withdraw_at version bytes.now) }
{
    let (name, rest) = number_at(version, bytes)?;
    Ok((Command::Withdraw(name), rest))
}

#[tactic(auto, unfolding(crate::specs::Records::pin_at))]
fn pin_at(version: Version, bytes: &[u8]) -> Field<'_, Command>
    ensures { Reads (λ x. (x.0, x.1.now)) result (pin_at version bytes.now) }
{
    let (vehicle, rest) = number_at(version, bytes)?;
    let (k, rest) = number_at(version, rest)?;
    Ok((Command::Pin(vehicle, k), rest))
}

#[tactic(auto, unfolding(crate::specs::Records::unpin_at))]
fn unpin_at(version: Version, bytes: &[u8]) -> Field<'_, Command>
    ensures { Reads (λ x. (x.0, x.1.now)) result (unpin_at version bytes.now) }
{
    let (vehicle, rest) = number_at(version, bytes)?;
    Ok((Command::Unpin(vehicle), rest))
}

#[tactic(auto, unfolding(crate::specs::Records::search_at))]
fn search_at(bytes: &[u8]) -> Field<'_, Command>
    ensures { Reads (λ x. (x.0, x.1.now)) result (search_at bytes.now) }
{
    let (count, rest) = u16_at(bytes)?;
    Ok((Command::Search(count), rest))
}

#[tactic(auto, unfolding(crate::specs::Records::deviation_at))]
fn deviation_at(bytes: &[u8]) -> Field<'_, Command>
    ensures { Reads (λ x. (x.0, x.1.now)) result (deviation_at bytes.now) }
{
    let (deviation, rest) = u32_at(bytes)?;
    Ok((Command::Deviation(deviation), rest))
}

#[tactic(auto, unfolding(crate::specs::Records::command_at))]
fn command_at(version: Version, bytes: &[u8]) -> Field<'_, Command>
    ensures { Reads (λ x. (x.0, x.1.now)) result (command_at version bytes.now) }
{
    let (kind, rest) = u8_at(bytes)?;
    match kind {
        1 => add_at(rest),
        2 => add1_at(rest),
        3 => withdraw_at(version, rest),
        4 => pin_at(version, rest),
        5 => unpin_at(version, rest),
        6 => Ok((Command::Build, rest)),
        7 => search_at(rest),
        8 => deviation_at(rest),
        _ => Err(CodecFault::BadField),
    }
}
