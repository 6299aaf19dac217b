//! The reasons why a text is refused: the kind of a fault, and its line.
ghost use Rattle.std.specs.Prelude.{◌≡◌, codes};

use std::alloc::{AllocError, AllocFailed};
use thiserror::Error;

/// The kind of a fault of a text.
#[derive(Clone, Copy, Debug, PartialEq, Eq, Error)]
pub enum ReadFaultKind {
    #[error("a word is not a number")]
    BadNumber,
    #[error("a number is outside its limits")]
    Range,
    #[error("the number of words is wrong")]
    FieldCount,
    #[error("task numbers do not rise from 0")]
    TaskOrder,
    #[error("a task is no half of a pair")]
    PairMismatch,
    #[error("a window ends before it begins")]
    EmptyWindow,
    #[error("there are more stops than 40,000")]
    TooManyStops,
    #[error("a key or a section is missing")]
    MissingKey,
    #[error("the key or its value is not supported")]
    Unsupported,
    #[error("the depot is not node 1")]
    DepotNotFirst,
    #[error("a node, a key or a section stands twice")]
    NodeRepeated,
    #[error("the text ends early")]
    Truncated,
    #[error("out of memory")]
    OutOfMemory,
}

/// The reason why a text is refused.
#[derive(Clone, Copy, Debug, PartialEq, Eq, Error)]
#[error("line {line}: {kind}")]
pub struct ReadFault {
    /// The line, from 1. It is one above the number of lines if something is missing at the end, and 0 for
    /// `OutOfMemory`.
    pub line: u64,
    pub kind: ReadFaultKind,
}

impl ReadFault {
    ghost use Rattle.instance_read.specs.Faults.{out_of_memory};
    ghost use Rattle.instance_read.specs.Names.{kind_name};
    ghost use Rattle.instance_read.specs.declared.faults.ReadFaultKind.TheVariants.{OutOfMemory};

    /// Returns the name of the fault's kind, as answers print it.
    pub fn name(&self) -> &'static str
        ensures { result.now ≡ kind_name self.now.kind }
    {
        match self.kind {
            ReadFaultKind::BadNumber => "BadNumber",
            ReadFaultKind::Range => "Range",
            ReadFaultKind::FieldCount => "FieldCount",
            ReadFaultKind::TaskOrder => "TaskOrder",
            ReadFaultKind::PairMismatch => "PairMismatch",
            ReadFaultKind::EmptyWindow => "EmptyWindow",
            ReadFaultKind::TooManyStops => "TooManyStops",
            ReadFaultKind::MissingKey => "MissingKey",
            ReadFaultKind::Unsupported => "Unsupported",
            ReadFaultKind::DepotNotFirst => "DepotNotFirst",
            ReadFaultKind::NodeRepeated => "NodeRepeated",
            ReadFaultKind::Truncated => "Truncated",
            ReadFaultKind::OutOfMemory => "OutOfMemory",
        }
    }

    /// Returns a fault in this line. `OutOfMemory` has no line.
    pub(crate) fn of_line(line: u64, kind: ReadFaultKind) -> ReadFault
        ensures memory { kind ≡ OutOfMemory → result ≡ out_of_memory }
        ensures other { ¬ (kind ≡ OutOfMemory) → result ≡ record { line = line; kind = kind } }
    {
        match kind {
            ReadFaultKind::OutOfMemory => ReadFault { line: 0, kind },
            _ => ReadFault { line, kind },
        }
    }
}

impl From<AllocError> for ReadFault {
    ghost use Rattle.std.specs.Prelude.{◌≡◌};
    ghost use Rattle.instance_read.specs.Faults.{out_of_memory};

    ghost from_gives = { λ _ fault. fault ≡ out_of_memory };

    fn from(_: AllocError) -> ReadFault {
        ReadFault {
            line: 0,
            kind: ReadFaultKind::OutOfMemory,
        }
    }
}

impl<T: Drop> From<AllocFailed<T>> for ReadFault {
    ghost use Rattle.std.specs.Prelude.{◌≡◌};
    ghost use Rattle.instance_read.specs.Faults.{out_of_memory};

    ghost from_gives = { λ _ fault. fault ≡ out_of_memory };

    fn from(_: AllocFailed<T>) -> ReadFault {
        ReadFault {
            line: 0,
            kind: ReadFaultKind::OutOfMemory,
        }
    }
}

impl From<AllocError> for ReadFaultKind {
    ghost use Rattle.std.specs.Prelude.{◌≡◌};
    ghost use Rattle.instance_read.specs.declared.faults.ReadFaultKind.TheVariants.{OutOfMemory};

    ghost from_gives = { λ _ kind. kind ≡ OutOfMemory };

    fn from(_: AllocError) -> ReadFaultKind {
        ReadFaultKind::OutOfMemory
    }
}
