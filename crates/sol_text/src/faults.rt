//! The reasons why a solution text is refused, and why a plan is not written.
ghost use Rattle.std.specs.Prelude.{◌≡◌, codes};

use std::alloc::{AllocError, AllocFailed};
use thiserror::Error;

/// The kind of a fault of a solution text.
#[derive(Clone, Copy, Debug, PartialEq, Eq, Error)]
pub enum SolFaultKind {
    #[error("this is no route line, and no cost line with one word")]
    BadLine,
    #[error("a word is not a number, or the number is too large")]
    BadNumber,
    #[error("there is no cost line")]
    NoCost,
    #[error("out of memory")]
    OutOfMemory,
}

/// The reason why a solution text is refused.
#[derive(Clone, Copy, Debug, PartialEq, Eq, Error)]
#[error("line {line}: {kind}")]
pub struct SolFault {
    /// The line, from 1. It is one above the number of lines for `NoCost`, and 0 for `OutOfMemory`.
    pub line: u64,
    pub kind: SolFaultKind,
}

impl SolFault {
    ghost use Rattle.sol_text.specs.Names.{kind_name};

    /// Returns the name of the fault's kind, as answers print it.
    pub fn name(&self) -> &'static str
        ensures { result.now ≡ kind_name self.now.kind }
    {
        match self.kind {
            SolFaultKind::BadLine => "BadLine",
            SolFaultKind::BadNumber => "BadNumber",
            SolFaultKind::NoCost => "NoCost",
            SolFaultKind::OutOfMemory => "OutOfMemory",
        }
    }
}

impl From<AllocError> for SolFault {
    ghost use Rattle.std.specs.Prelude.{◌≡◌};
    ghost use Rattle.sol_text.specs.declared.faults.SolFaultKind.TheVariants.{OutOfMemory};

    ghost from_gives = { λ _ fault. fault ≡ record { line = 0; kind = OutOfMemory } };

    fn from(_: AllocError) -> SolFault {
        SolFault {
            line: 0,
            kind: SolFaultKind::OutOfMemory,
        }
    }
}

impl<T: Drop> From<AllocFailed<T>> for SolFault {
    ghost use Rattle.std.specs.Prelude.{◌≡◌};
    ghost use Rattle.sol_text.specs.declared.faults.SolFaultKind.TheVariants.{OutOfMemory};

    ghost from_gives = { λ _ fault. fault ≡ record { line = 0; kind = OutOfMemory } };

    fn from(_: AllocFailed<T>) -> SolFault {
        SolFault {
            line: 0,
            kind: SolFaultKind::OutOfMemory,
        }
    }
}

/// The reason why a plan is not written.
#[derive(Clone, Copy, Debug, PartialEq, Eq, Error)]
pub enum WriteSolFault {
    /// The number of requests that are in no route.
    #[error("{0} requests are in no route")]
    Unplanned(u64),
    #[error("out of memory")]
    OutOfMemory,
}

impl WriteSolFault {
    ghost use Rattle.sol_text.specs.Names.{write_fault_name};

    /// Returns the name of the fault, as answers print it.
    pub fn name(&self) -> &'static str
        ensures { result.now ≡ write_fault_name self.now }
    {
        match self {
            WriteSolFault::Unplanned(_) => "Unplanned",
            WriteSolFault::OutOfMemory => "OutOfMemory",
        }
    }
}

impl From<AllocError> for WriteSolFault {
    ghost use Rattle.std.specs.Prelude.{◌≡◌};
    ghost use Rattle.sol_text.specs.declared.faults.WriteSolFault.TheVariants.{OutOfMemory};

    ghost from_gives = { λ _ fault. fault ≡ OutOfMemory };

    fn from(_: AllocError) -> WriteSolFault {
        WriteSolFault::OutOfMemory
    }
}
