//! The reasons why a session denies a command.
ghost use Rattle.std.specs.Prelude.{◌≡◌};

use command_core::Refusal;

/// The reason why a command was not executed. All except `DeviceFault` leave session and device unchanged.
#[derive(Clone, Copy, Debug, PartialEq, Eq)]
pub enum Denial {
    /// The device failed in an earlier command. The store has to be opened again.
    Broken,
    /// The state refuses the command. If memory runs out, the denial is `OutOfMemory` instead.
    Core(Refusal),
    /// A snapshot is due, but the store has used its last sequence.
    Spent,
    OutOfMemory,
    /// The device failed. Opening it again shows whether the command was executed.
    DeviceFault,
}

impl Denial {
    ghost use Rattle.recover.specs.Names.{denial_name};

    /// Returns the name of the denial, as answers print it. For a state's refusal it is the name of the
    /// refusal.
    pub fn name(&self) -> &'static str
        ensures { result.now ≡ denial_name self.now }
    {
        match self {
            Denial::Broken => "Broken",
            Denial::Core(refusal) => refusal.name(),
            Denial::Spent => "Spent",
            Denial::OutOfMemory => "OutOfMemory",
            Denial::DeviceFault => "DeviceFault",
        }
    }
}
