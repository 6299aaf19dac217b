//! The numbers of steps after which a search prints a progress line.
ghost use Rattle.std.specs.Prelude.{◌≡◌, ◌≤◌};
ghost use Rattle.plan_solve.specs.Solved.{twentieths};

/// The number of parts into which the progress lines divide the steps.
pub(crate) const TWENTIETHS: u32 = 20;

/// Returns the number of steps in this many twentieths of them, rounded down.
pub(crate) fn twentieths(steps: u32, parts: u32) -> u32
    requires { parts ≤ 20 }
    ensures { result ≡ twentieths steps parts }
{
    (u64::from(parts) * u64::from(steps) / u64::from(TWENTIETHS)) as u32
}
