//! The reasons why a store can't be created, read or changed.
ghost use Rattle.std.specs.Prelude.{◌≡◌};

use state_codec::CodecFault;
use std::alloc::{AllocError, AllocFailed};

/// The reason why a device was not formatted.
#[derive(Clone, Copy, Debug, PartialEq, Eq)]
pub enum FormatFault {
    /// The device is too small.
    TooSmall,
    /// The device failed.
    DeviceFault,
    OutOfMemory,
}

impl FormatFault {
    ghost use Rattle.checkpoint.specs.Names.{format_fault_name};

    /// Returns the name of the fault, as answers print it.
    pub fn name(&self) -> &'static str
        ensures { result.now ≡ format_fault_name self.now }
    {
        match self {
            FormatFault::TooSmall => "TooSmall",
            FormatFault::DeviceFault => "DeviceFault",
            FormatFault::OutOfMemory => "OutOfMemory",
        }
    }
}

impl From<AllocError> for FormatFault {
    ghost use Rattle.std.specs.Prelude.{◌≡◌};
    ghost use Rattle.checkpoint.specs.declared.faults.FormatFault.TheVariants.{OutOfMemory};

    ghost from_gives = { λ _ fault. fault ≡ OutOfMemory };

    fn from(_: AllocError) -> FormatFault {
        FormatFault::OutOfMemory
    }
}

/// The reason why a store was not read or not changed.
#[derive(Clone, Copy, Debug, PartialEq, Eq)]
pub enum StoreFault {
    /// The device holds no store.
    NotFormatted,
    /// The store has another version.
    BadVersion,
    /// The snapshot's bytes are not a state, or a record of the journal does not belong to the state. If memory
    /// runs out, the fault is `OutOfMemory` instead.
    Codec(CodecFault),
    /// The sequence is 2^60. Nothing was written.
    Spent,
    OutOfMemory,
    /// The device failed.
    DeviceFault,
}

impl StoreFault {
    ghost use Rattle.checkpoint.specs.Names.{store_fault_name};

    /// Returns the name of the fault, as answers print it.
    pub fn name(&self) -> &'static str
        ensures { result.now ≡ store_fault_name self.now }
    {
        match self {
            StoreFault::NotFormatted => "NotFormatted",
            StoreFault::BadVersion => "BadVersion",
            StoreFault::Codec(_) => "Codec",
            StoreFault::Spent => "Spent",
            StoreFault::OutOfMemory => "OutOfMemory",
            StoreFault::DeviceFault => "DeviceFault",
        }
    }
}

impl From<AllocError> for StoreFault {
    ghost use Rattle.std.specs.Prelude.{◌≡◌};
    ghost use Rattle.checkpoint.specs.declared.faults.StoreFault.TheVariants.{OutOfMemory};

    ghost from_gives = { λ _ fault. fault ≡ OutOfMemory };

    fn from(_: AllocError) -> StoreFault {
        StoreFault::OutOfMemory
    }
}

impl<T: Drop> From<AllocFailed<T>> for StoreFault {
    ghost use Rattle.std.specs.Prelude.{◌≡◌};
    ghost use Rattle.checkpoint.specs.declared.faults.StoreFault.TheVariants.{OutOfMemory};

    ghost from_gives = { λ _ fault. fault ≡ OutOfMemory };

    fn from(_: AllocFailed<T>) -> StoreFault {
        StoreFault::OutOfMemory
    }
}
