//! A store on a device: two headers, a journal of 256 records, and two halves that hold snapshots in turn.
//!
//! `format` and `format_with` create a store, `load` reads a store of a given version, `commit_record` and
//! `commit_snapshot` change it. `load_latest` and `load_latest_v1` call `load` for the current version and for
//! version 1.
//!
//! Each snapshot has a sequence: a number that grows by one. A new snapshot is written into the half that does
//! not hold the current one, and synced. Then its header is written over the older header, and synced. So at
//! each moment there is a valid header whose snapshot is complete. A record takes one sector after the end of
//! the journal, with the sequence of its snapshot; records of an older sequence are ignored. A reader takes the
//! valid header with the greater sequence, its snapshot, and the records of that sequence up to the first
//! sector that is not one of them. If a sector from there on begins with that sequence or a greater one, the
//! store is refused.
//!
//! Modules, in reading order:
//! - `places`, `faults`: the place of a store, and the reasons why it can't be created, read or changed
//! - `layouts`, `headers`, `zeros`, `encoding`: the parts of a store, and the bytes of a header and of a
//!   snapshot
//! - `durable_writes`: writes followed by a sync: a run of sectors, a snapshot with its header, a record
//! - `formatting`: creates a store; `changes`: commits to it
//! - `reads`, `prefix`, `numbers`, `loads`: read a store: its sectors, its headers and records, and its content
//! - `integrity`: finds signs of damage in a store that may still open
//! - `laws`: laws about every image
//!
//! The format is this project's own; `specs/Layouts.antt`, `specs/Headers.antt` and `specs/Stores.antt` define
//! it.
//!
//! Proved: an image holds exactly one state with its commands and place, or has exactly one fault. For an
//! honest device `load` returns these or the fault, unless memory runs out or the device fails, and changes
//! nothing. Within a commit to an honest device, the number of finished device calls determines whether an
//! image may hold the old content, the new content, or either; after `Ok` it holds the new one. From the first
//! sync of `format` on, an image has no store or the new one. A new store has no integrity warning, nor has any
//! image that a crash within a commit leaves of a consistent store.
#![tactic(auto)]

mod changes;
mod durable_writes;
mod encoding;
mod faults;
mod formatting;
mod headers;
mod integrity;
mod laws;
mod layouts;
mod loads;
mod numbers;
mod places;
mod prefix;
mod reads;
mod zeros;

pub use changes::{commit_record, commit_snapshot};
pub use faults::{FormatFault, StoreFault};
pub use formatting::{format, format_with};
pub use integrity::{IntegrityWarning, IntegrityWarnings, check_integrity};
pub use laws::{
    commits_leave_no_integrity_warning, images_hold_a_state_or_have_a_fault,
    images_hold_at_most_one_state,
};
pub use layouts::{LAST_SEQUENCE, MIN_SECTORS, RECORDS, SECTORS};
pub use loads::{Loaded, load, load_latest, load_latest_v1};
pub use places::Place;
