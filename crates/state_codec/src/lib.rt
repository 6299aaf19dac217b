//! States and records as bytes. Version 2 is written and read, version 1 is only read.
//!
//! `encode_state` and `decode_state` are for the snapshots of a store, `encode_record` and `decode_record` for
//! the sectors of its journal, `decode_state_v1` and `decode_record_v1` for those of version 1.
//!
//! The format is this project's own. Numbers are big endian, signed ones in two's complement. A stop number, a
//! length, the fleet or a number of requests has 4 bytes in version 2 and 2 in version 1. `specs/Bytes.antt`
//! defines the bytes field by field, `specs/Limits.antt` the values that each version can represent.
//!
//! Modules, in reading order:
//! - `version`: the two versions; `fault`: why bytes are not a state
//! - `writing`: writes a state as bytes
//! - `fields`: reads numbers at the start of bytes, and repeated fields
//! - `head`, `requests`, `routes`: read the parts of a state, in their order
//! - `parts`, `rule_checks`, `states`: a state as it is read, its check by the auditor's rules, and both
//!   together
//! - `sector`, `records`: a sector that is filled from its start, and commands as sectors, written and read
//! - `laws`: the properties of every encoding
//!
//! Proved, for both versions: `decode_state` returns a state exactly if the bytes are its encoding; otherwise
//! it returns the first fault in reading order, or the rule that a plan or a pin breaks. `decode_record`
//! returns a command exactly if the sector is its record with this sequence and index. Different states have
//! different encodings. An encoding of version 2 has at most 1,960,054 bytes, a proper prefix of it is
//! `Truncated`, and a byte after it is a `BadField`.
#![tactic(auto)]

mod fault;
mod fields;
mod head;
mod laws;
mod parts;
mod records;
mod requests;
mod routes;
mod rule_checks;
mod sector;
mod states;
pub mod version;
mod writing;

pub use fault::CodecFault;
pub use laws::{
    bytes_have_one_answer, encodings_are_injective, encodings_fit, faults_follow_from_encodings,
};
pub use records::{decode_record, decode_record_v1, encode_record, recorded_fields_have_room};
pub use states::{decode_state, decode_state_v1};
pub use writing::encode_state;
