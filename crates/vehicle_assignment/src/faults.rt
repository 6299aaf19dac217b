//! The reasons why a solution is not a plan.
use sol_text::{SolFault, SolFaultKind};
use std::alloc::{AllocError, AllocFailed};
use thiserror::Error;

/// A reason why a solution is not a plan.
#[derive(Clone, Copy, Debug, PartialEq, Eq, Error)]
pub enum AssignmentFault {
    /// The text is not a solution; holds its first fault.
    #[error("{0}")]
    Sol(SolFault),
    /// The auditor does not pass the solution. Holds the first violation by rule, route, place and stop, as in
    /// a `Verdict`.
    #[error("rule {rule} is broken: route {route}, place {place}, stop {stop}")]
    Broken {
        rule: u32,
        route: u64,
        place: u64,
        stop: u32,
    },
    /// No remaining route begins with the pin of this vehicle. It is the first such vehicle.
    #[error("no route begins with the pin of vehicle {0}")]
    PinWithoutRoute(u64),
    #[error("out of memory")]
    OutOfMemory,
}

impl From<SolFault> for AssignmentFault {
    ghost use Rattle.std.specs.Prelude.{◌≡◌};
    ghost use Rattle.vehicle_assignment.specs.Faults.{fault_from};

    ghost from_gives = { λ fault unseated. unseated ≡ fault_from fault };

    fn from(fault: SolFault) -> AssignmentFault {
        match fault.kind {
            SolFaultKind::OutOfMemory => AssignmentFault::OutOfMemory,
            _ => AssignmentFault::Sol(fault),
        }
    }
}

impl From<AllocError> for AssignmentFault {
    ghost use Rattle.std.specs.Prelude.{◌≡◌};
    ghost use Rattle.vehicle_assignment.specs.declared.faults.AssignmentFault.TheVariants as unseated;

    ghost from_gives = { λ _ fault. fault ≡ unseated.OutOfMemory };

    fn from(_: AllocError) -> AssignmentFault {
        AssignmentFault::OutOfMemory
    }
}
