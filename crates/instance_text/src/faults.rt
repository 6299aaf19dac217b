//! The reasons why a problem is not written.
ghost use Rattle.std.specs.Prelude.{◌≡◌};

use std::alloc::AllocError;
use thiserror::Error;

/// The reason why a problem is not written.
#[derive(Clone, Copy, Debug, PartialEq, Eq, Error)]
pub enum WriteFault {
    /// The format of its text can't express one of the requests, or the depot.
    #[error("the format of its kind can't say the problem")]
    NoFormat,
    #[error("out of memory")]
    OutOfMemory,
}

impl WriteFault {
    ghost use Rattle.instance_text.specs.Names.{fault_name};

    /// Returns the name of the fault, as answers print it.
    pub fn name(&self) -> &'static str
        ensures { result.now ≡ fault_name self.now }
    {
        match self {
            WriteFault::NoFormat => "NoFormat",
            WriteFault::OutOfMemory => "OutOfMemory",
        }
    }
}

impl From<AllocError> for WriteFault {
    ghost use Rattle.std.specs.Prelude.{◌≡◌};
    ghost use Rattle.instance_text.specs.declared.faults.WriteFault.TheVariants.{OutOfMemory};

    ghost from_gives = { λ _ fault. fault ≡ OutOfMemory };

    fn from(_: AllocError) -> WriteFault {
        WriteFault::OutOfMemory
    }
}
