//! Reads runs of sectors.
ghost use Rattle.std.specs.Prelude.{◌≡◌, ◌+◌, ◌*◌, ◌%◌, ◌<◌, ◌≤◌, ℕ, List, length, take, drop, OnOk, OnErr, IfOk, IfErr};
ghost use Rattle.sector_disk.specs.Sectors.{IsWholeRun};
ghost use Rattle.checkpoint.specs.Reads.{ReadsOnly};
ghost use Rattle.checkpoint.specs.Refusals.{IsOfReading, faults_after_reading};

use crate::faults::StoreFault;
use crate::zeros::zeros;
use sector_disk::{DeviceFault, Sectors};
use std::alloc::Global;

/// Reads the bytes of a run of whole sectors.
pub(crate) fn read_run<D: Sectors>(
    alloc: Global,
    device: &mut D,
    first: u64,
    size: usize,
) -> Result<Vec<u8>, StoreFault>
    requires { IsWholeRun first size (D.len device.old) }

    ensures fails { IfErr result IsOfReading }
    ensures long { IfOk result (λ bytes. length bytes.items ≡ size) }
    ensures bytes { D.honest device.new
        → IfOk result (λ bytes. bytes.items ≡ take size (drop (512 * first) (D.seen device.old))) }
    ensures reads { ReadsOnly D.Sectors (faults_after_reading result) device.old device.new }
{
    let mut bytes = zeros(alloc, size)?;
    match device.read(first, &mut bytes) {
        Ok(()) => Ok(bytes),
        Err(DeviceFault) => Err(StoreFault::DeviceFault),
    }
}
