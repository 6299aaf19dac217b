//! Zeros, and padding with them.
ghost use Rattle.std.specs.Prelude.{◌≡◌, ◌+◌, ◌<◌, ◌≤◌, ◌^◌, length, IfOk};
ghost use Rattle.checkpoint.specs.DurableWrites.{IsZeros};
ghost use Rattle.checkpoint.specs.WrittenImages.{to_whole_sectors};

use sector_disk::SECTOR_SIZE;
use std::alloc::{AllocError, Global};

/// Returns a list of `n` zeros.
pub(crate) fn zeros(alloc: Global, n: usize) -> Result<Vec<u8>, AllocError>
    ensures { IfOk result (λ zeros. IsZeros n zeros.items) }
{
    vec![in alloc; 0; n]
}

/// Pads these bytes with zeros to a whole sector.
pub(crate) fn padded(mut bytes: Vec<u8>) -> Result<Vec<u8>, AllocError>
    ensures { IfOk result (λ padded. padded.items ≡ to_whole_sectors bytes.items) }
{
    let gap = (SECTOR_SIZE - bytes.len() % SECTOR_SIZE) % SECTOR_SIZE;
    bytes.extend_from_slice(&[0; SECTOR_SIZE][..gap])?;
    Ok(bytes)
}
