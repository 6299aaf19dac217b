//! States and records as bytes.

use crate::tests::builders::{LOADED, LOADED_V1};
use command_core::{Command, Spot, State};
use state_codec::{
    CodecFault, decode_record, decode_record_v1, decode_state, decode_state_v1, encode_record,
    encode_state,
};
use std::alloc::Global;
use std::test::Fail;

// Returns why the bytes are not a state, or `None` if they are.
fn fault(alloc: Global, bytes: &[u8]) -> Option<CodecFault> {
    decode_state(alloc, bytes).err()
}

// Returns why the bytes are not a state of version 1, or `None` if they are.
fn fault_v1(alloc: Global, bytes: &[u8]) -> Option<CodecFault> {
    decode_state_v1(alloc, bytes).err()
}

// Returns whether a loaded state was read.
fn is_loaded(read: Result<State, CodecFault>) -> bool {
    let is_loaded = matches!(&read, Ok(State::Loaded(_)));
    drop(read);
    is_loaded
}

// Returns whether the empty state was read.
fn is_empty(read: Result<State, CodecFault>) -> bool {
    let is_empty = matches!(&read, Ok(State::Empty));
    drop(read);
    is_empty
}

// Returns whether this sector holds no record with this sequence and index.
fn is_none(record: &[u8; 512], sequence: u64, index: u32) -> bool {
    let command = decode_record(record, sequence, index);
    let is_none = command.is_none();
    drop(command);
    is_none
}

// Returns whether the state is written as these bytes.
fn has_bytes(alloc: Global, state: &State, bytes: &[u8]) -> Result<bool, Fail> {
    Ok(encode_state(alloc, state)?.as_slice() == bytes)
}

fn is_written_as_read(alloc: Global) -> Result<bool, Fail> {
    let state = decode_state(alloc, &LOADED)?;
    let has_bytes = has_bytes(alloc, &state, &LOADED);
    drop(state);
    has_bytes
}

#[test]
fn a_loaded_state_is_written_as_it_was_read(rt: HostRuntime) -> Result<(), Fail> {
    assert!(rt; is_written_as_read(rt.alloc())?);
    Ok(())
}

fn is_upgraded_to(alloc: Global) -> Result<bool, Fail> {
    let state = decode_state_v1(alloc, &LOADED_V1)?;
    let has_bytes = has_bytes(alloc, &state, &LOADED);
    drop(state);
    has_bytes
}

#[test]
fn a_state_of_version_1_is_written_as_one_of_version_2(rt: HostRuntime) -> Result<(), Fail> {
    assert!(rt; is_upgraded_to(rt.alloc())?);
    Ok(())
}

#[test]
fn an_empty_state_is_one_byte(rt: HostRuntime) -> Result<(), Fail> {
    assert!(rt; encode_state(rt.alloc(), &State::Empty)?.as_slice() == [0].as_slice());
    assert!(rt; is_empty(decode_state(rt.alloc(), &[0])));
    Ok(())
}

#[test]
fn one_byte_may_be_no_state(rt: HostRuntime) {
    assert!(rt; fault(rt.alloc(), &[2]) == Some(CodecFault::BadField));
    assert!(rt; fault(rt.alloc(), &[1]) == Some(CodecFault::Truncated));
}

#[test]
fn a_state_of_version_1_that_is_cut_is_truncated(rt: HostRuntime) {
    for len in 0..LOADED_V1.len() {
        assert!(rt; fault_v1(rt.alloc(), &LOADED_V1[..len]) == Some(CodecFault::Truncated));
    }
}

#[test]
fn a_route_of_four_billion_stops_is_truncated(rt: HostRuntime) {
    let mut long = LOADED;
    long[87..91].copy_from_slice(&[255; 4]);
    assert!(rt; fault(rt.alloc(), &long) == Some(CodecFault::Truncated));
}

// Returns why the loaded state is not valid with this demand, and with these bytes of vehicles and working
// routes instead of the last twelve.
fn fault_of_plan(alloc: Global, demand: u8, end: &[u8]) -> Option<CodecFault> {
    let mut front = LOADED;
    front[70] = demand;
    let mut bytes = Vec::new(alloc);
    bytes.extend_from_slice(&front[..83]).ok()?;
    bytes.extend_from_slice(end).ok()?;
    fault(alloc, bytes.as_slice())
}

/// A pin of no stops and a route of one, then the same route as working route.
const PLANNED: [u8; 20] = [0, 0, 0, 0, 0, 0, 0, 1, 0, 0, 0, 1, 0, 0, 0, 1, 0, 0, 0, 1];

#[test]
fn plans_are_judged(rt: HostRuntime) {
    let overloaded = fault_of_plan(rt.alloc(), 11, &PLANNED);
    assert!(rt; overloaded == Some(CodecFault::PlanRefused(6)));
    let work = [0, 0, 0, 0, 0, 0, 0, 0, 0, 0, 0, 2, 0, 0, 0, 1, 0, 0, 0, 1];
    let work_twice = fault_of_plan(rt.alloc(), 6, &work);
    assert!(rt; work_twice == Some(CodecFault::PlanRefused(2)));
}

// A state with a planned pair whose pickup is pinned.
const PINNED: [u8; 139] = [
    1, 2, 0, 0, 0, 0, 0, 0, 0, 0, 0, 0, 0, 0, 0, 0, 0, 0, 0, 0, 0, 10, 0, 0, 0, 1, 0, 0, 0, 3, 0,
    0, 0, 0, 0, 0, 0, 0, 0, 0, 0, 0, 5, 245, 225, 0, 0, 0, 0, 0, 0, 0, 0, 1, 2, 0, 0, 0, 1, 0, 0,
    0, 3, 0, 0, 0, 4, 0, 0, 0, 6, 0, 0, 0, 0, 5, 245, 225, 0, 0, 0, 0, 0, 0, 0, 0, 2, 0, 0, 0, 0,
    0, 0, 0, 4, 255, 255, 255, 250, 0, 0, 0, 0, 5, 245, 225, 0, 0, 0, 0, 0, 0, 0, 0, 1, 0, 0, 0, 2,
    0, 0, 0, 1, 0, 0, 0, 2, 0, 0, 0, 2, 0, 0, 0, 1, 0, 0, 0, 2,
];

#[test]
fn a_pin_is_judged_alone(rt: HostRuntime) {
    // The pin has only the pickup, so it leaves the delivery out, though the plan serves both.
    assert!(rt; fault(rt.alloc(), &PINNED) == Some(CodecFault::PlanRefused(3)));
    let mut whole = PINNED;
    whole[114] = 2;
    assert!(rt; is_loaded(decode_state(rt.alloc(), &whole)));
}

// Reads the loaded state of version 1 with this demand, and with these bytes of the vehicle instead of the last
// four.
fn planned_v1(alloc: Global, demand: u8, end: &[u8]) -> Result<State, CodecFault> {
    let mut front = LOADED_V1;
    front[58] = demand;
    let mut bytes = Vec::new(alloc);
    bytes.extend_from_slice(&front[..71])?;
    bytes.extend_from_slice(end)?;
    decode_state_v1(alloc, bytes.as_slice())
}

#[test]
fn plans_of_version_1_are_judged(rt: HostRuntime) {
    // The length of the pin, the number of stops of the route, and its stop.
    let planned = [0, 0, 0, 1, 0, 1];
    assert!(rt; is_loaded(planned_v1(rt.alloc(), 6, &planned)));
    let overloaded = planned_v1(rt.alloc(), 11, &planned).err();
    assert!(rt; overloaded == Some(CodecFault::PlanRefused(6)));
    let twice = planned_v1(rt.alloc(), 6, &[0, 0, 0, 2, 0, 1, 0, 1]).err();
    assert!(rt; twice == Some(CodecFault::PlanRefused(2)));
}

#[test]
fn fields_of_version_1_are_judged(rt: HostRuntime) {
    // A byte after an empty route; a pin longer than its route.
    let following = planned_v1(rt.alloc(), 6, &[0, 0, 0, 0, 0]).err();
    assert!(rt; following == Some(CodecFault::BadField));
    let pinned = planned_v1(rt.alloc(), 6, &[0, 1, 0, 0]).err();
    assert!(rt; pinned == Some(CodecFault::BadField));
}

#[test]
fn a_search_of_256_steps_is_written(rt: HostRuntime) {
    let record = encode_record(1, 0, &Command::Search(256));
    assert!(rt; record[..15] == [0, 0, 0, 0, 0, 0, 0, 1, 0, 0, 0, 0, 7, 1, 0]);
    assert!(rt; record[15..].iter().all(|byte| *byte == 0));
}

#[test]
fn a_search_of_256_steps_is_read(rt: HostRuntime) {
    let record = encode_record(1, 0, &Command::Search(256));
    assert!(rt; matches!(decode_record(&record, 1, 0), Some(Command::Search(256))));
    assert!(rt; matches!(decode_record_v1(&record, 1, 0), Some(Command::Search(256))));
}

#[test]
fn a_record_has_its_place(rt: HostRuntime) {
    let record = encode_record(1, 0, &Command::Search(256));
    assert!(rt; is_none(&record, 2, 0));
    assert!(rt; is_none(&record, 1, 1));
}

#[test]
fn a_record_with_trailing_bytes_is_none(rt: HostRuntime) {
    let mut record = encode_record(1, 0, &Command::Build);
    record[511] = 1;
    assert!(rt; is_none(&record, 1, 0));
}

#[test]
fn counts_outside_their_limits_are_refused(rt: HostRuntime) {
    let mut record = encode_record(1, 0, &Command::Search(256));
    record[14] = 1;
    assert!(rt; is_none(&record, 1, 0));
    record[13..15].copy_from_slice(&[0, 0]);
    assert!(rt; is_none(&record, 1, 0));
}

const SPOT: Spot = Spot {
    x: -1,
    y: 2,
    earliest: 0,
    latest: 9,
    service: 3,
};

#[test]
fn an_add_of_a_pair_has_a_record(rt: HostRuntime) {
    let add = Command::Add {
        demand: 5,
        pickup: SPOT,
        delivery: SPOT,
    };
    let record = encode_record(7, 8, &add);
    assert!(rt;
        matches!(
            decode_record(&record, 7, 8),
            Some(Command::Add { demand: 5, .. })
        )
    );
}

#[test]
fn an_add_of_a_single_has_a_record(rt: HostRuntime) {
    let add = Command::Add1 {
        demand: 5,
        spot: SPOT,
    };
    let record = encode_record(7, 8, &add);
    assert!(rt; record[12..25] == [2, 0, 0, 0, 5, 255, 255, 255, 255, 0, 0, 0, 2]);
    assert!(rt;
        matches!(
            decode_record(&record, 7, 8),
            Some(Command::Add1 { demand: 5, .. })
        )
    );
}

#[test]
fn a_pin_has_a_record(rt: HostRuntime) {
    let record = encode_record(7, 8, &Command::Pin(1, 65536));
    assert!(rt; matches!(decode_record(&record, 7, 8), Some(Command::Pin(1, 65536))));
}

#[test]
fn a_deviation_has_no_record_of_version_1(rt: HostRuntime) {
    let record = encode_record(7, 8, &Command::Deviation(1_000_000_000));
    assert!(rt;
        matches!(
            decode_record(&record, 7, 8),
            Some(Command::Deviation(1_000_000_000))
        )
    );
    assert!(rt; decode_record_v1(&record, 7, 8).is_none());
}
