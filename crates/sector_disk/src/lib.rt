//! Block devices with 512-byte sectors: a model of what a crash may leave at any moment, and a device in memory
//! that can crash anywhere.
//!
//! The entry point is the trait `Sectors`. `checkpoint`, `recover` and `command_server` are generic over it.
//! Tests pass them a `MemDevice`, the program passes them the `FileDevice` of `file_disk`.
//!
//! Modules, in reading order:
//! - `sectors`: the trait, with what each call guarantees for an honest device (one that answers as the model
//!   says)
//! - `mem_device`: a device in memory; tests choose which calls fail and what a crash leaves
//! - `laws`: the meaning of the model
//!
//! The model is this project's own, and the usual one of a disk with a write cache: after a crash each sector
//! has its old or its new content, never a mixture of both, and a successful sync makes all earlier writes
//! durable. `specs/Model.antt` and `specs/History.antt` define it.
//!
//! Proved: a `MemDevice` is always honest, and a crash of it can leave exactly the images that the model
//! allows. After a successful sync, if no write follows, there is exactly one such image. A crash within a
//! write leaves the old or the new content in each of its sectors, in any combination.
#![tactic(auto)]

mod laws;
mod mem_device;
mod sectors;

pub use laws::{
    a_crash_can_leave_any_possible_image, a_crash_within_a_write_leaves_old_or_new_sectors,
    one_image_after_a_sync,
};
pub use mem_device::MemDevice;
pub use sectors::{DeviceFault, OutOfMemory, SECTOR_SIZE, Sectors};
