//! A device, as the crates that use it see it.
//!
//! *Honest* refers to the state after a call. The guarantees of a call hold if the device is honest after it,
//! and only a device that was honest before a call can be honest after it. So for a file, honest can mean that
//! it has answered as the model says in all its calls so far. If calls had to preserve honesty, only a device
//! whose honesty is known from the start could satisfy the contract.
ghost use Rattle.std.specs.Prelude.{◌≡◌, ◌+◌, ◌-◌, ◌*◌, ◌%◌, ◌^◌, ◌<◌, ◌≤◌, ◌↔◌, List, ℕ, length, take, drop, OnOk, OnErr, IsErr};
ghost use Rattle.sector_disk.specs.Image.{written};
ghost use Rattle.sector_disk.specs.Sectors.{IsWholeRun, IsCalled, same_count, OneMore, faults_after, Reached, AddsContents, Only, SameImages, Passes};

use std::alloc::AllocError;
use thiserror::Error;

/// The number of bytes of a sector.
pub const SECTOR_SIZE: usize = 512;

/// An allocation failed.
pub type OutOfMemory = AllocError;

/// A read, a write or a sync failed.
#[derive(Clone, Copy, Debug, PartialEq, Eq, Error)]
#[error("the device failed")]
pub struct DeviceFault;

/// A device of 512-byte sectors. After a crash each sector holds, independently of the others, its content at
/// the last successful sync or any content written to it since. This is guaranteed for an honest device.
///
/// `calls` and `faults` never exceed 2^64-1. If `calls` has this value, every write or sync fails. If `faults`
/// has this value, `faults` stays the same.
pub trait Sectors {
    /// The number of sectors.
    ghost len: { Self → ℕ };

    /// The number of finished writes and syncs.
    ghost calls: { Self → ℕ };

    /// The number of failed calls of any kind.
    ghost faults: { Self → ℕ };

    /// The device has answered as the model says in all its calls so far.
    ghost honest: { Self → Type 0 };

    /// The bytes that reads return.
    ghost seen: { Self → List ℕ };

    /// The images that a crash at this moment may leave.
    ghost possible: { Self → List ℕ → Type 0 };

    /// The moment, as a number that never decreases.
    ghost clock: { Self → ℕ };

    /// The images that a crash at some moment since the given one might have left. The second number is that of
    /// the calls finished at the moment of the crash.
    ghost possible_since: { Self → ℕ → ℕ → List ℕ → Type 0 };

    /// Returns the number of sectors.
    fn len(&self) -> u64
        ensures { result ≡ len self.now };

    /// Returns the number of finished writes and syncs.
    fn calls(&self) -> u64
        ensures { result ≡ calls self.now };

    /// Returns the number of failed calls.
    fn faults(&self) -> u64
        ensures { result ≡ faults self.now };

    /// Reads a run of whole sectors that begins with sector `first`. After a fault the content of the buffer is
    /// unspecified.
    fn read(&mut self, first: u64, into: &mut [u8]) -> Result<(), DeviceFault>
        requires { IsWholeRun first (length into.old) (len self.old) }

        ensures called { IsCalled len calls faults honest same_count (faults_after result)
            self.old self.new }
        ensures bytes { honest self.new
            → OnOk result (into.new ≡ take (length into.old) (drop (512 * first) (seen self.old))) }
        ensures reads { honest self.new → seen self.new ≡ seen self.old }
        ensures contents { honest self.new → SameImages (possible self.old) (possible self.new) }
        ensures moments { honest self.new
            → Passes clock possible_since calls possible (possible self.old) self.old self.new };

    /// Writes a run of whole sectors that begins with sector `first`. Until a sync succeeds, a crash may leave
    /// the old content or the new one in each of them. After a fault, reads return one of the possible images.
    fn write(&mut self, first: u64, bytes: &[u8]) -> Result<(), DeviceFault>
        requires { IsWholeRun first (length bytes.now) (len self.old) }

        ensures called { IsCalled len calls faults honest (OneMore result) (faults_after result)
            self.old self.new }
        ensures written { honest self.new
            → OnOk result (seen self.new ≡ written first bytes.now (seen self.old)) }
        ensures contents { honest self.new
            → AddsContents result first bytes.now (possible self.old) (possible self.new) }
        // Within the call each sector may have reached the device or not.
        ensures within { honest self.new
            → OnOk result ((t : ℕ) (image : List ℕ) → t ≤ clock self.old
            → Reached first bytes.now (possible self.old) image
            → possible_since self.new t (calls self.old) image) }
        ensures moments { honest self.new
            → Passes clock possible_since calls possible
            (Reached first bytes.now (possible self.old)) self.old self.new };

    /// Makes the bytes that reads return durable. After a fault nothing more is durable, and reads return one
    /// of the possible images.
    fn sync(&mut self) -> Result<(), DeviceFault>
        ensures called { IsCalled len calls faults honest (OneMore result) (faults_after result)
            self.old self.new }
        ensures reads { honest self.new → OnOk result (seen self.new ≡ seen self.old) }
        ensures durable { honest self.new → OnOk result (Only (seen self.old) (possible self.new)) }
        ensures contents { honest self.new
            → OnErr result (SameImages (possible self.old) (possible self.new)) }
        ensures moments { honest self.new
            → Passes clock possible_since calls possible (possible self.old) self.old self.new };

    /// The image that reads return is possible.
    ghost reads_possible: { (d : Self) → honest d → possible d (seen d) };

    /// A possible image has the device's length.
    ghost image_size: { (d : Self) (image : List ℕ) → honest d → possible d image
        → length image ≡ 512 * len d };

    /// The present moment is one of the moments since any earlier moment.
    ghost counts_now: { (d : Self) (t : ℕ) (image : List ℕ) → honest d → t ≤ clock d
        → possible d image → possible_since d t (calls d) image };

    /// The only moment since the present one is the present one itself.
    ghost only_now: { (d : Self) (m : ℕ) (image : List ℕ) → honest d
        → possible_since d (clock d) m image → (m ≡ calls d) × possible d image };

    /// Every moment since a later moment is also a moment since an earlier one.
    ghost since_earlier: { (d : Self) (t u m : ℕ) (image : List ℕ) → honest d → t ≤ u
        → possible_since d u m image → possible_since d t m image };
}
