//! The encoding of states as snapshots.
ghost use Rattle.std.specs.Prelude.{IfOk};
ghost use Rattle.command_types.specs.States.{IsState};
ghost use Rattle.checkpoint.specs.Encoding.{IsSnapshot};

use crate::zeros::padded;
use command_types::State;
use state_codec::{encode_state, encodings_fit};
use std::alloc::{AllocError, Global};

/// The bytes of a snapshot, padded to whole sectors.
#[derive(Drop)]
pub(crate) struct Snapshot {
    /// The length of the state's encoding in bytes.
    pub(crate) size: u64,
    pub(crate) bytes: Vec<u8>,
}

/// Proves that a state keeps its invariants.
pub(crate) fn keeps_invariants(state: &State)
    ensures { IsState state.now }
{
    match state {
        State::Empty => {}
        State::Loaded(job) => {
            let _seed = job.seed;
        }
    }
}

/// Encodes a state as a snapshot.
pub(crate) fn snapshot_of(alloc: Global, state: &State) -> Result<Snapshot, AllocError>
    ensures { IfOk result (λ snapshot. IsSnapshot state.now snapshot.size snapshot.bytes.items) }
{
    encodings_fit();
    keeps_invariants(state);
    let bytes = encode_state(alloc, state)?;
    let size = bytes.len() as u64;
    let bytes = padded(bytes)?;
    Ok(Snapshot { size, bytes })
}
