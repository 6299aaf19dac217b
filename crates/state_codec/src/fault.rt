//! The reasons why bytes are not a state.
//!
//! `Truncated` does not mean that some continuation is an encoding: a count of 4 billion requests is read as
//! far as the bytes go, though no encoding has that many. Two laws hold instead: a proper prefix of an encoding
//! is `Truncated`, and a `BadField` stays one whatever follows.

use std::alloc::AllocError;

/// A reason why bytes are not a state.
#[derive(Clone, Copy, Debug, PartialEq, Eq)]
pub enum CodecFault {
    /// The bytes end before or inside a field that is due.
    Truncated,
    /// A field breaks its rule.
    BadField,
    /// A plan or a pin breaks the auditor's rule with this number.
    PlanRefused(u32),
    OutOfMemory,
}

impl From<AllocError> for CodecFault {
    ghost use Rattle.std.specs.Prelude.{◌≡◌};
    ghost use Rattle.state_codec.specs.declared.fault.CodecFault.TheVariants.{OutOfMemory};

    ghost from_gives = { λ _ fault. fault ≡ OutOfMemory };

    fn from(_: AllocError) -> CodecFault {
        CodecFault::OutOfMemory
    }
}
