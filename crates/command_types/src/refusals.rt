//! Why a command is refused.
ghost use Rattle.std.specs.Prelude.{◌≡◌};

use std::alloc::AllocError;

/// The reason why a command is refused. If several apply, the first one in this order is returned.
/// `OutOfMemory` is the last, since memory is allocated only after all other checks.
#[derive(Clone, Copy, Debug, PartialEq, Eq)]
pub enum Refusal {
    /// No problem is loaded.
    NoInstance,
    /// A field is outside its limits.
    Range,
    /// No request has this name.
    NoSuchRequest,
    /// A stop of the request is pinned.
    Pinned,
    /// There is no such vehicle, or its route is shorter.
    NoSuchPlace,
    /// These stops alone are not a feasible route.
    NotARoute,
    /// Too few stop numbers are left.
    NumbersSpent,
    /// The state would have made more than `MAX_STEPS` steps.
    StepsSpent,
    /// The plan breaks a rule, or does not keep the pins.
    NotAPlan,
    /// The plan costs more than the incumbent.
    Dearer,
    OutOfMemory,
}

impl Refusal {
    ghost use Rattle.command_types.specs.Names.{refusal_name};

    /// Returns the name of the refusal, as answers print it.
    pub fn name(&self) -> &'static str
        ensures { result.now ≡ refusal_name self.now }
    {
        match self {
            Refusal::NoInstance => "NoInstance",
            Refusal::Range => "Range",
            Refusal::NoSuchRequest => "NoSuchRequest",
            Refusal::Pinned => "Pinned",
            Refusal::NoSuchPlace => "NoSuchPlace",
            Refusal::NotARoute => "NotARoute",
            Refusal::NumbersSpent => "NumbersSpent",
            Refusal::StepsSpent => "StepsSpent",
            Refusal::NotAPlan => "NotAPlan",
            Refusal::Dearer => "Dearer",
            Refusal::OutOfMemory => "OutOfMemory",
        }
    }
}

impl From<AllocError> for Refusal {
    ghost use Rattle.std.specs.Prelude.{◌≡◌};
    ghost use Rattle.command_types.specs.declared.refusals.Refusal.TheVariants.{OutOfMemory};

    ghost from_gives = { λ _ refusal. refusal ≡ OutOfMemory };

    fn from(_: AllocError) -> Refusal {
        Refusal::OutOfMemory
    }
}
